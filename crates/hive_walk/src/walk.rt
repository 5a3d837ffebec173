//! The walk over an image that was judged.
ghost use Rattle.std.specs.Prelude.{◌≡◌, ◌≤◌, ◌*◌, ◌∷◌, ◌++◌, [], ℕ, Ok, Bool, T, length, MatchResult};
ghost use Rattle.std.specs.List.{flat_map};
ghost use Rattle.std.specs.List.Sorted.{IsPermutation};
ghost use Rattle.std.specs.FinMap.Entries.{is_sorted};
ghost use Rattle.reg_tree_parts.specs.Orders.{name_order};
ghost use Rattle.reg_tree_parts.specs.Rows.{Row};
ghost use Rattle.hive_cells.specs.Bins.{Cells, Shows};
ghost use Rattle.hive_tree_model.specs.Keys.{KeyParts, Keys, own_cells, offsets as offsets_of};
ghost use Rattle.hive_tree_model.specs.Lists.{Once};
ghost use Rattle.hive_tree_model.specs.Encodings.{CellsMatchKeys};
ghost use Rattle.hive_records.specs.KeyNodes.{keys_in};
ghost use Rattle.hive_records.specs.Images.{splits};
ghost use Rattle.hive_load_parts.specs.CellReads.{marks_of};
ghost use Rattle.hive_load_parts.specs.Descriptors.{AreDescriptors};
ghost use Rattle.key_walk.specs.KeyPaths.{names_on};
ghost use Rattle.key_walk.specs.KeyRows.{node_rows, subkey_rows};
ghost use Rattle.hive_walk.specs.Siblings.{offsets_by_name, siblings_in};
ghost use Rattle.hive_walk.specs.Walks.{KeysAreSound, KeyIsSound, AreUnmarked, MarksOnly, entries_of_key, nodes_of_siblings, IsNoFault};

use crate::errors::{ImageError, WalkError, refused_at};
use crate::fields::key_name;
use crate::judgement::{flags_for, judge};
use crate::siblings::{Sibling, in_order};
use hive_cells::{Image, Looks};
use hive_load_parts::{Descriptors, Flags, key};
use hive_records::has_segments;
use key_walk::{KeyPath, KeySink};
use refusals::limits::MOST_PATH_NAMES;
use std::alloc::Global;

// hands a sink the key at an offset, to which a path leads; the offsets of its subkeys
#[inline(never)] // so that each level takes little stack
fn take_key<S: KeySink>(
    alloc: Global,
    image: &Image,
    seen: &mut Flags,
    known: &mut Descriptors,
    split: bool,
    sink: &mut S,
    path: &KeyPath<'_>,
    at: u32,
) -> Result<Vec<u32>, WalkError<S::Error>>
    requires covers { length image.now.bytes ≤ 8 * length seen.old }
    requires known { AreDescriptors image.now.bytes known.old }
    ensures answers { (cells : Cells) → Shows image.now.bytes cells → (parts : KeyParts Row) →
        keys_in split cells at ≡ Ok parts → Once parts.own → AreUnmarked (marks_of seen.old) parts.own →
        MatchResult result (λ listed. (listed.items ≡ parts.subkey_list)
        × MarksOnly (marks_of seen.old) (marks_of seen.new) parts.own
        × S.Took sink.old sink.new ((names_on path.now, parts.row) ∷ [])) IsNoFault }
    ensures covers { length seen.new ≡ length seen.old }
    ensures known { AreDescriptors image.now.bytes known.new }
{
    let mut looks = Looks::new();
    let (key, listed) = match key(alloc, image, seen, &mut looks, known, split, at) {
        Ok(read) => read,
        Err(refusal) => return Err(WalkError::Image(refused_at(alloc, path, at, refusal))),
    };
    match sink.take(path, &key) {
        Ok(()) => Ok(listed),
        Err(refusal) => Err(WalkError::Sink(refusal)),
    }
}

// the subkeys of a key, to which a path leads, in the order in which they are listed
fn listed_siblings(
    alloc: Global,
    image: &Image,
    above: &KeyPath<'_>,
    listed: &[u32],
) -> Result<Vec<Sibling>, ImageError>
    ensures { (cells : Cells) → Shows image.now.bytes cells → (split : Bool) (keys : Keys Row) →
        CellsMatchKeys (keys_in split cells) keys → offsets_of keys ≡ listed.now →
        MatchResult result (λ siblings. siblings.items ≡ siblings_in keys)
        (λ error. error ≡ ImageError.NoMemory) }
{
    let mut siblings = Vec::new(alloc);
    for at in listed {
        let name = match key_name(alloc, image, above, *at) {
            Ok(name) => name,
            Err(error) => return Err(error),
        };
        siblings.push(Sibling { name, at: *at })?;
    }
    Ok(siblings)
}

// the same in the order of their names
#[inline(never)] // so that each level takes little stack
fn siblings_at(
    alloc: Global,
    image: &Image,
    above: &KeyPath<'_>,
    listed: &[u32],
) -> Result<Vec<Sibling>, ImageError>
    ensures { (cells : Cells) → Shows image.now.bytes cells → (split : Bool) (levels : ℕ)
        (keys : Keys Row) → KeysAreSound split cells levels keys → offsets_of keys ≡ listed.now →
        MatchResult result (λ siblings. IsPermutation (siblings_in keys) siblings.items
        × T (is_sorted name_order (offsets_by_name siblings.items)))
        (λ error. error ≡ ImageError.NoMemory) }
{
    match listed_siblings(alloc, image, above, listed) {
        Ok(siblings) => Ok(in_order(siblings)),
        Err(error) => Err(error),
    }
}

// hands a sink the key at an offset, to which a path leads, and all keys below it, which lie on at most so many levels
#[cycle(walking)]
fn walk_key<S: KeySink>(
    alloc: Global,
    image: &Image,
    seen: &mut Flags,
    known: &mut Descriptors,
    split: bool,
    sink: &mut S,
    path: &KeyPath<'_>,
    levels: usize,
    at: u32,
) -> Result<(), WalkError<S::Error>>
    requires covers { length image.now.bytes ≤ 8 * length seen.old }
    requires known { AreDescriptors image.now.bytes known.old }
    ensures answers { (cells : Cells) → Shows image.now.bytes cells → (parts : KeyParts Row) (below : Keys Row) →
        KeyIsSound split cells levels at parts below →
        AreUnmarked (marks_of seen.old) (parts.own ++ own_cells below) → MatchResult result
        (λ _. MarksOnly (marks_of seen.old) (marks_of seen.new) (parts.own ++ own_cells below)
        × S.Took sink.old sink.new (node_rows (names_on path.now) (entries_of_key parts below)))
        IsNoFault }
    ensures covers { length seen.new ≡ length seen.old }
    ensures known { AreDescriptors image.now.bytes known.new }
{
    let listed = match take_key(alloc, image, seen, known, split, sink, path, at) {
        Ok(listed) => listed,
        Err(error) => return Err(error),
    };
    let siblings = match siblings_at(alloc, image, path, &listed) {
        Ok(siblings) => siblings,
        Err(error) => return Err(WalkError::Image(error)),
    };
    walk_keys(
        alloc, image, seen, known, split, sink, &*path, levels, &siblings,
    )
}

// hands a sink the subkeys of a key, to which a path leads, one after another, each with all keys below it
#[cycle(walking)]
fn walk_keys<S: KeySink>(
    alloc: Global,
    image: &Image,
    seen: &mut Flags,
    known: &mut Descriptors,
    split: bool,
    sink: &mut S,
    above: &KeyPath<'_>,
    levels: usize,
    siblings: &[Sibling],
) -> Result<(), WalkError<S::Error>>
    requires covers { length image.now.bytes ≤ 8 * length seen.old }
    requires known { AreDescriptors image.now.bytes known.old }
    ensures answers { (cells : Cells) → Shows image.now.bytes cells → (keys : Keys Row) →
        KeysAreSound split cells levels keys → IsPermutation (siblings_in keys) siblings.now →
        AreUnmarked (marks_of seen.old) (own_cells keys) → MatchResult result
        (λ _. MarksOnly (marks_of seen.old) (marks_of seen.new) (own_cells keys)
        × S.Took sink.old sink.new (flat_map (subkey_rows (names_on above.now)) (nodes_of_siblings keys siblings.now)))
        IsNoFault }
    ensures covers { length seen.new ≡ length seen.old }
    ensures known { AreDescriptors image.now.bytes known.new }
{
    if levels == 0 {
        // no key that was judged lies deeper
        return Ok(());
    }
    for sibling in siblings {
        let path = KeyPath::Below(&*above, &sibling.name);
        match walk_key(
            alloc,
            image,
            seen,
            known,
            split,
            sink,
            &path,
            levels - 1,
            sibling.at,
        ) {
            Ok(()) => {}
            Err(error) => return Err(error),
        }
    }
    Ok(())
}

/// Walks an image that was judged from the key at an offset on, to which a path leads.
pub(crate) fn walk_judged<S: KeySink>(
    alloc: Global,
    image: &Image,
    at: u32,
    minor: u32,
    path: &KeyPath<'_>,
    sink: &mut S,
) -> Result<(), WalkError<S::Error>>
    ensures { (cells : Cells) → Shows image.now.bytes cells → (parts : KeyParts Row) (below : Keys Row) →
        KeyIsSound (splits minor) cells MOST_PATH_NAMES at parts below → MatchResult result
        (λ _. S.Took sink.old sink.new (node_rows (names_on path.now) (entries_of_key parts below))) IsNoFault }
{
    let mut seen = match flags_for(alloc, image.len()) {
        Ok(seen) => seen,
        Err(_) => return Err(WalkError::Image(ImageError::NoMemory)),
    };
    let mut known = Descriptors::new(alloc);
    let split = has_segments(minor);
    walk_key(
        alloc,
        image,
        &mut seen,
        &mut known,
        split,
        sink,
        path,
        MOST_PATH_NAMES,
        at,
    )
}
