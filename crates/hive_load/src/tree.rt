//! The tree of an image.
ghost use Rattle.std.specs.Prelude.{◌≡◌, ◌≤◌, ◌<◌, ◌+◌, ◌*◌, ◌/◌, false, ℕ, List, length, IfOk, IfErr, MatchResult};
ghost use Rattle.refusals.specs.declared.refusal.Refusal.TheVariants.{TooLarge};
ghost use Rattle.refusals.specs.declared.limits.TheConstants.{MOST_WEIGHT};
ghost use Rattle.reg_tree.specs.Maps.{weight};
ghost use Rattle.hive_cells.specs.Bins.{Cells, Shows};
ghost use Rattle.reg_tree_parts.specs.Nodes.{IsNode};
ghost use Rattle.hive_load_parts.specs.CellReads.{marks_of};
ghost use Rattle.hive_records.specs.Images.{BinsEncodeTree};
ghost use Rattle.hive_load.specs.Limits.{IsShallowTree, TreeIsInLimits, LoadRefused, ShallowLoadRefused, AreAllCells};
ghost use Rattle.hive_load.specs.Roots.{LoadsRoot, RefusesRoot};

use crate::keys::load_key;
use hive_cells::{Image, Looks};
use hive_load_parts::{Descriptors, Flags};
use hive_records::has_segments;
use refusals::limits::{MOST_PATH_NAMES, MOST_WEIGHT};
use refusals::{Cause, Refusal};
use reg_tree::Tree;
use reg_tree_parts::Node;
use std::alloc::{AllocError, Global};

// bytes in which at most one cell begins
const FLAGGED_BYTES: usize = 8;

const _: () = prove!(FLAGGED_BYTES == 8);

// a flag for each cell that may be in this many bytes, none of them set
fn flags_for(alloc: Global, bytes: usize) -> Result<Flags, AllocError>
    ensures covers { IfOk result (λ seen. bytes ≤ 8 * length seen) }
    ensures unset { IfOk result (λ seen. (at : ℕ) → marks_of seen at ≡ false) }
{
    Flags::new(alloc, bytes.div_ceil(FLAGGED_BYTES))
}

// the node of the root, if no cell is marked yet
fn load_root(
    alloc: Global,
    image: &Image,
    seen: &mut Flags,
    looks: &mut Looks,
    split: bool,
    root: u32,
) -> Result<Node, Refusal>
    requires covers { length image.now.bytes ≤ 8 * length seen.old }
    requires unset { (at : ℕ) → marks_of seen.old at ≡ false }
    ensures node { IfOk result IsNode }
    ensures answers { (cells : Cells) → Shows image.now.bytes cells → MatchResult result
        (λ node. LoadsRoot split cells root node) (λ why. RefusesRoot split cells root why) }
    ensures looks { (cells : List ℕ) → AreAllCells image.now.bytes cells →
        looks.new ≤ looks.old + 2 * length cells + 2 }
{
    let mut known = Descriptors::new(alloc);
    let levels = MOST_PATH_NAMES + 1;
    let node = match load_key(alloc, image, seen, looks, &mut known, split, levels, root) {
        Ok(node) => node,
        Err(refusal) => return Err(refusal),
    };
    if known.are_apart(seen) {
        Ok(node)
    } else {
        Err(Refusal::from(Cause::Shared))
    }
}

/// The registry tree that an image encodes, from the key node at an offset on, whatever it weighs. Below minor version 4
/// big data lie in one cell, from it on in segments. No path in the tree has more than 512 names.
///
/// Refused with `HiveDamaged` of hive 0 and a cause that is true of the image, or with `Unsupported` for a flag in it.
/// Both come only if the image encodes no tree. Refused with `TooLarge` only if a key lies deeper. Refused with
/// `NoMemory`. The count of looks rises by at most two for each allocated cell, and two more.
pub fn load_any_weight(
    alloc: Global,
    image: &Image,
    root: u32,
    minor: u32,
    looks: &mut Looks,
) -> Result<Tree, Refusal>
    ensures stands { IfOk result (λ tree. BinsEncodeTree image.now.bytes root minor tree) }
    ensures shallow { IfOk result IsShallowTree }
    ensures refused { IfErr result (ShallowLoadRefused image.now.bytes root minor) }
    ensures looks { (cells : List ℕ) → AreAllCells image.now.bytes cells →
        looks.new ≤ looks.old + 2 * length cells + 2 }
{
    image.tiles(0); // for the prover
    let mut seen = flags_for(alloc, image.len())?;
    let split = has_segments(minor);
    let node = match load_root(alloc, image, &mut seen, looks, split, root) {
        Ok(node) => node,
        Err(refusal) => return Err(refusal),
    };
    Ok(Tree::from_root(alloc, node)?)
}

/// `Ok` exactly if a tree weighs at most 16,777,216; else refused with `TooLarge`.
pub fn judge_weight(tree: &Tree) -> Result<(), Refusal>
    ensures { MatchResult result (λ _. weight tree.now ≤ MOST_WEIGHT)
        (λ why. (why ≡ TooLarge) × (MOST_WEIGHT < weight tree.now)) }
{
    if tree.weight() > MOST_WEIGHT {
        return Err(Refusal::TooLarge);
    }
    Ok(())
}

/// The registry tree that an image encodes, as [`load_any_weight`] loads it, if it weighs at most 16,777,216.
///
/// Refused as there, and with `TooLarge` if the image encodes a tree that weighs more.
pub fn load(
    alloc: Global,
    image: &Image,
    root: u32,
    minor: u32,
    looks: &mut Looks,
) -> Result<Tree, Refusal>
    ensures stands { IfOk result (λ tree. BinsEncodeTree image.now.bytes root minor tree) }
    ensures within { IfOk result TreeIsInLimits }
    ensures refused { IfErr result (LoadRefused image.now.bytes root minor) }
    ensures looks { (cells : List ℕ) → AreAllCells image.now.bytes cells →
        looks.new ≤ looks.old + 2 * length cells + 2 }
{
    let tree = match load_any_weight(alloc, image, root, minor, looks) {
        Ok(tree) => tree,
        Err(refusal) => return Err(refusal),
    };
    match judge_weight(&tree) {
        Ok(()) => Ok(tree),
        Err(refusal) => Err(refusal),
    }
}
