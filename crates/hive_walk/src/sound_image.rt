//! An image whose keys were judged.
ghost use Rattle.std.specs.Prelude.{◌≡◌, ◌≤◌, length, OnOk, IfOk, IfErr};
ghost use Rattle.reg_tree.specs.Maps.{TreeMap};
ghost use Rattle.hive_records.specs.Images.{BinsEncodeTree};
ghost use Rattle.key_walk.specs.KeyRows.{tree_rows};
ghost use Rattle.key_walk.specs.KeyPaths.{names_on};
ghost use Rattle.hive_walk.specs.Judgements.{ImageRefused, PartRefused};
ghost use Rattle.hive_walk.specs.Walks.{HasShortPaths, HasShortPathsBelow, IsNoFault, WalkRefused, LeavesSink, rows_under};

use crate::errors::{ImageError, WalkError};
use crate::judgement::judge;
use crate::walk::walk_judged;
use hive_cells::Image;
use key_walk::{KeyPath, KeySink};
use refusals::limits::MOST_PATH_NAMES;
use std::alloc::Global;
use std::marker::Model;

/// An image that encodes a tree from the key at an offset on, no path of which has more than 512 names. It may be walked
/// again and again.
#[derive(Drop)]
pub struct SoundImage<'a> {
    image: &'a Image,
    root: u32,
    minor: u32,
}

impl<'a> Model for SoundImage<'a> {
    ghost use Rattle.std.specs.Prelude.{ℕ, List};
    ghost use Rattle.hive_walk.specs.Walks.{IsSoundImage};

    ghost Value = { List ℕ × (ℕ × ℕ) };

    ghost view = { λ inside. (inside.image.now.bytes, (inside.root, inside.minor)) };

    ghost invariant = { λ inside. IsSoundImage inside.image.now.bytes inside.root inside.minor };
}

impl<'a> SoundImage<'a> {
    /// Judges the keys of an image from the key node at an offset on. Below minor version 4 big data lie in one cell,
    /// from it on in segments. The tree may have any weight.
    ///
    /// A fault comes only if the image encodes no tree, or a key in it lies too deep.
    pub fn judged(
        alloc: Global,
        image: &'a Image,
        root: u32,
        minor: u32,
    ) -> Result<SoundImage<'a>, ImageError>
        ensures judged { IfOk result (λ sound. sound ≡ (image.now.bytes, (root, minor))) }
        ensures encodes { IfOk result (λ _. (tree : TreeMap)
            × BinsEncodeTree image.now.bytes root minor tree × HasShortPaths tree) }
        ensures refused { IfErr result (ImageRefused image.now.bytes root minor) }
    {
        image.tiles(0); // for the prover
        match judge(alloc, image, root, minor, &KeyPath::Root, MOST_PATH_NAMES) {
            Ok(()) => Ok(SoundImage { image, root, minor }),
            Err(error) => Err(error),
        }
    }

    /// Judges a part of an image as an image of its own: the key at an offset, to which a path leads from the root of the
    /// hive, and all keys below it. Nothing else of the image is read.
    ///
    /// A fault comes only if the part encodes no tree, or a key in it lies too deep in the hive. Its path begins with that
    /// of the part.
    pub fn part_judged(
        alloc: Global,
        image: &'a Image,
        at: u32,
        minor: u32,
        path: &KeyPath<'_>,
    ) -> Result<SoundImage<'a>, ImageError>
        requires depth { length (names_on path.now) ≤ MOST_PATH_NAMES }
        ensures judged { IfOk result (λ part. part ≡ (image.now.bytes, (at, minor))) }
        ensures encodes { IfOk result (λ _. (tree : TreeMap)
            × BinsEncodeTree image.now.bytes at minor tree × HasShortPathsBelow (names_on path.now) tree) }
        ensures refused { IfErr result (PartRefused image.now.bytes at minor (names_on path.now)) }
    {
        image.tiles(0); // for the prover
        let levels = MOST_PATH_NAMES - depth_of(path);
        match judge(alloc, image, at, minor, path, levels) {
            Ok(()) => Ok(SoundImage {
                image,
                root: at,
                minor,
            }),
            Err(error) => Err(error),
        }
    }

    /// Hands a sink each key of the tree, in the order of folded paths, the root first. The first refusal of the sink
    /// ends the walk. If memory is wanting, the sink may have taken some keys. No fault comes.
    pub fn walk<S: KeySink>(&self, alloc: Global, sink: &mut S) -> Result<(), WalkError<S::Error>>
        ensures took { OnOk result ((tree : TreeMap)
            × BinsEncodeTree self.now.0 self.now.1.0 self.now.1.1 tree × HasShortPaths tree
            × S.Took sink.old sink.new (tree_rows tree)) }
        ensures refused { IfErr result IsNoFault }
        ensures encodes { IfErr result (λ _. (tree : TreeMap)
            × BinsEncodeTree self.now.0 self.now.1.0 self.now.1.1 tree) }
    {
        walk_judged(
            alloc,
            self.image,
            self.root,
            self.minor,
            &KeyPath::Root,
            sink,
        )
    }

    /// The same of a part, to whose first key a path leads from the root of the hive: each key is handed on with its path
    /// in the hive.
    pub fn walk_below<S: KeySink>(
        &self,
        alloc: Global,
        path: &KeyPath<'_>,
        sink: &mut S,
    ) -> Result<(), WalkError<S::Error>>
        ensures took { OnOk result ((tree : TreeMap)
            × BinsEncodeTree self.now.0 self.now.1.0 self.now.1.1 tree
            × S.Took sink.old sink.new (rows_under (names_on path.now) (tree_rows tree))) }
        ensures refused { IfErr result IsNoFault }
    {
        walk_judged(alloc, self.image, self.root, self.minor, path, sink)
    }
}

// how many names are on a path
fn depth_of(path: &KeyPath<'_>) -> usize
    requires { length (names_on path.now) ≤ MOST_PATH_NAMES }
    ensures { result ≡ length (names_on path.now) }
{
    match path {
        KeyPath::Root => 0,
        KeyPath::Below(above, _) => depth_of(above) + 1,
    }
}

/// Hands a sink each key of the tree that an image encodes, from the key node at an offset on, as
/// [`SoundImage::judged`] and [`SoundImage::walk`] do one after the other.
///
/// A fault of the image is found before the sink takes a key.
pub fn walk_hive<S: KeySink>(
    alloc: Global,
    image: &Image,
    root: u32,
    minor: u32,
    sink: &mut S,
) -> Result<(), WalkError<S::Error>>
    ensures took { OnOk result ((tree : TreeMap) × BinsEncodeTree image.now.bytes root minor tree
        × HasShortPaths tree × S.Took sink.old sink.new (tree_rows tree)) }
    ensures refused { IfErr result (WalkRefused image.now.bytes root minor) }
    ensures untaken { IfErr result (LeavesSink sink.old sink.new) }
{
    match SoundImage::judged(alloc, image, root, minor) {
        Ok(sound) => sound.walk(alloc, sink),
        Err(error) => Err(WalkError::Image(error)),
    }
}
