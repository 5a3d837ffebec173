//! The keys of an image, read one by one and judged.
ghost use Rattle.std.specs.Prelude.{◌≡◌, ◌≤◌, ◌+◌, ◌*◌, false, ℕ, List, length, IfOk, IfErr, MatchResult, OnOk};
ghost use Rattle.hive_cells.specs.Bins.{Cells, Shows};
ghost use Rattle.hive_tree_model.specs.Loads.{CellMarks};
ghost use Rattle.hive_records.specs.Images.{splits};
ghost use Rattle.hive_load_parts.specs.CellReads.{marks_of};
ghost use Rattle.hive_load_parts.specs.Descriptors.{AreDescriptors};
ghost use Rattle.key_walk.specs.KeyPaths.{names_on};
ghost use Rattle.hive_walk.specs.Judgements.{KeyIsRead, KeyIsUnread, KeyIsJudged, KeyIsRefused, BelowIsRefused, KeysAreJudged, KeysAreRefused, PartIsRefused};
ghost use Rattle.hive_walk.specs.Walks.{PartIsSound};

use crate::errors::{ImageError, refused_at};
use crate::siblings::{Sibling, are_named};
use hive_cells::{Image, Looks};
use hive_load_parts::{Descriptors, Flags, key};
use hive_records::has_segments;
use key_walk::KeyPath;
use refusals::limits::MOST_PATH_NAMES;
use refusals::{Cause, Refusal};
use reg_names::Name;
use std::alloc::{AllocError, Global};

// bytes in which at most one cell begins
const FLAGGED_BYTES: usize = 8;

const _: () = prove!(FLAGGED_BYTES == 8);

/// A flag for each cell that may be in this many bytes, none of them set.
pub(crate) fn flags_for(alloc: Global, bytes: usize) -> Result<Flags, AllocError>
    ensures covers { IfOk result (λ seen. bytes ≤ 8 * length seen) }
    ensures unset { IfOk result (λ seen. (at : ℕ) → marks_of seen at ≡ false) }
{
    Flags::new(alloc, bytes.div_ceil(FLAGGED_BYTES))
}

// the name of the key at an offset, and its subkeys' offsets; `above` leads to the key that lists it
#[inline(never)] // so that each level takes little stack
fn read_key(
    alloc: Global,
    image: &Image,
    seen: &mut Flags,
    known: &mut Descriptors,
    split: bool,
    above: &KeyPath<'_>,
    at: u32,
) -> Result<(Name, Vec<u32>), ImageError>
    requires covers { length image.now.bytes ≤ 8 * length seen.old }
    requires known { AreDescriptors image.now.bytes known.old }
    ensures answers { (cells : Cells) → Shows image.now.bytes cells → MatchResult result
        (λ its. KeyIsRead split cells (marks_of seen.old) (marks_of seen.new) known.old known.new at its.0 its.1.items)
        (λ error. KeyIsUnread split cells (marks_of seen.old) at (names_on above.now) error) }
    ensures covers { length seen.new ≡ length seen.old }
    ensures known { AreDescriptors image.now.bytes known.new }
{
    let mut looks = Looks::new();
    let (key, offsets) = match key(alloc, image, seen, &mut looks, known, split, at) {
        Ok(read) => read,
        Err(refusal) => return Err(refused_at(alloc, above, at, refusal)),
    };
    let name = key.name().clone()?;
    Ok((name, offsets))
}

// judges the key at an offset with all keys below it, which lie on fewer levels than `levels`; `above` leads to the key
// that lists it
#[cycle(judging)]
fn judge_key(
    alloc: Global,
    image: &Image,
    seen: &mut Flags,
    known: &mut Descriptors,
    split: bool,
    above: &KeyPath<'_>,
    levels: usize,
    at: u32,
) -> Result<Sibling, ImageError>
    requires covers { length image.now.bytes ≤ 8 * length seen.old }
    requires known { AreDescriptors image.now.bytes known.old }
    requires depth { length (names_on above.now) + levels ≡ MOST_PATH_NAMES }
    ensures answers { (cells : Cells) → Shows image.now.bytes cells → MatchResult result
        (λ sibling. KeyIsJudged split cells (marks_of seen.old) (marks_of seen.new) known.old known.new
        levels at sibling.name)
        (λ error. KeyIsRefused split cells (marks_of seen.old) levels at (names_on above.now) error) }
    ensures covers { length seen.new ≡ length seen.old }
    ensures known { AreDescriptors image.now.bytes known.new }
{
    let (name, offsets) = match read_key(alloc, image, seen, known, split, above, at) {
        Ok(read) => read,
        Err(error) => return Err(error),
    };
    let path = KeyPath::Below(&*above, &name);
    match judge_below(
        alloc, image, seen, known, split, &path, levels, at, &offsets,
    ) {
        Ok(()) => {}
        Err(error) => return Err(error),
    }
    Ok(Sibling { name, at })
}

// judges the keys below one that was read, to which a path leads
#[cycle(judging)]
fn judge_below(
    alloc: Global,
    image: &Image,
    seen: &mut Flags,
    known: &mut Descriptors,
    split: bool,
    path: &KeyPath<'_>,
    levels: usize,
    at: u32,
    offsets: &[u32],
) -> Result<(), ImageError>
    requires covers { length image.now.bytes ≤ 8 * length seen.old }
    requires known { AreDescriptors image.now.bytes known.old }
    requires depth { length (names_on path.now) + levels ≡ MOST_PATH_NAMES + 1 }
    ensures answers { (cells : Cells) → Shows image.now.bytes cells → (old : CellMarks)
        (had : List (ℕ × List ℕ)) (name : List ℕ) →
        KeyIsRead split cells old (marks_of seen.old) had known.old at name offsets.now → MatchResult result
        (λ _. KeyIsJudged split cells old (marks_of seen.new) had known.new levels at name)
        (λ error. BelowIsRefused split cells old levels at (names_on path.now) error) }
    ensures covers { length seen.new ≡ length seen.old }
    ensures known { AreDescriptors image.now.bytes known.new }
{
    if levels == 0 {
        return Err(refused_at(alloc, path, at, Refusal::TooLarge));
    }
    let mut siblings = match judge_keys(
        alloc,
        image,
        seen,
        known,
        split,
        &*path,
        levels - 1,
        offsets,
    ) {
        Ok(siblings) => siblings,
        Err(error) => return Err(error),
    };
    if are_named(&mut siblings) {
        Ok(())
    } else {
        Err(refused_at(alloc, path, at, Refusal::from(Cause::BadName)))
    }
}

// judges the keys at some offsets, one after another
#[cycle(judging)]
fn judge_keys(
    alloc: Global,
    image: &Image,
    seen: &mut Flags,
    known: &mut Descriptors,
    split: bool,
    above: &KeyPath<'_>,
    levels: usize,
    offsets: &[u32],
) -> Result<Vec<Sibling>, ImageError>
    requires covers { length image.now.bytes ≤ 8 * length seen.old }
    requires known { AreDescriptors image.now.bytes known.old }
    requires depth { length (names_on above.now) + levels ≡ MOST_PATH_NAMES }
    ensures answers { (cells : Cells) → Shows image.now.bytes cells → MatchResult result
        (λ siblings. KeysAreJudged split cells (marks_of seen.old) (marks_of seen.new) known.old known.new
        levels offsets.now siblings.items)
        (λ error. KeysAreRefused split cells (marks_of seen.old) levels offsets.now (names_on above.now) error) }
    ensures covers { length seen.new ≡ length seen.old }
    ensures known { AreDescriptors image.now.bytes known.new }
{
    let mut siblings = Vec::new(alloc);
    for at in offsets {
        let sibling = match judge_key(alloc, image, seen, known, split, &*above, levels, *at) {
            Ok(sibling) => sibling,
            Err(error) => return Err(error),
        };
        siblings.push(sibling)?;
    }
    Ok(siblings)
}

// judges the key at an offset with all keys below it, which may lie on so many levels, if no cell is marked yet; `path`
// leads to it
fn judge_part(
    alloc: Global,
    image: &Image,
    seen: &mut Flags,
    split: bool,
    path: &KeyPath<'_>,
    levels: usize,
    at: u32,
) -> Result<(), ImageError>
    requires covers { length image.now.bytes ≤ 8 * length seen.old }
    requires unset { (at : ℕ) → marks_of seen.old at ≡ false }
    requires depth { length (names_on path.now) + levels ≡ MOST_PATH_NAMES }
    ensures { (cells : Cells) → Shows image.now.bytes cells → MatchResult result
        (λ _. PartIsSound split cells levels at)
        (λ error. PartIsRefused split cells levels (names_on path.now) at error) }
{
    let mut known = Descriptors::new(alloc);
    let (_, offsets) = match read_key(alloc, image, seen, &mut known, split, path, at) {
        Ok(read) => read,
        Err(error) => return Err(error),
    };
    match judge_below(
        alloc,
        image,
        seen,
        &mut known,
        split,
        path,
        levels + 1,
        at,
        &offsets,
    ) {
        Ok(()) => {}
        Err(error) => return Err(error),
    }
    if known.are_apart(seen) {
        Ok(())
    } else {
        Err(refused_at(alloc, path, at, Refusal::from(Cause::Shared)))
    }
}

/// Judges an image from the key at an offset on, to which a path leads, as [`hive_load::load`] does from the root on, but
/// for the weight of a tree. Its keys may lie on so many levels below it.
pub(crate) fn judge(
    alloc: Global,
    image: &Image,
    at: u32,
    minor: u32,
    path: &KeyPath<'_>,
    levels: usize,
) -> Result<(), ImageError>
    requires depth { length (names_on path.now) + levels ≡ MOST_PATH_NAMES }
    ensures stands { OnOk result ((cells : Cells) → Shows image.now.bytes cells →
        PartIsSound (splits minor) cells levels at) }
    ensures refused { IfErr result (λ error. (cells : Cells) × Shows image.now.bytes cells
        × PartIsRefused (splits minor) cells levels (names_on path.now) at error) }
{
    image.tiles(0); // for the prover
    let mut seen = flags_for(alloc, image.len())?;
    judge_part(
        alloc,
        image,
        &mut seen,
        has_segments(minor),
        path,
        levels,
        at,
    )
}
