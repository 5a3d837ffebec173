//! The subkeys of a key, by its lists.
ghost use Rattle.std.specs.Prelude.{◌≡◌, ◌⊎◌, ◌<◌, ◌≤◌, ◌*◌, ◌+◌, ◌^◌, ◌++◌, ℕ, List, [], length, IfOk, OnOk, MatchResult};
ghost use Rattle.refusals.specs.declared.refusal.Refusal.TheVariants.{NoMemory};
ghost use Rattle.hive_cells.specs.Bins.{Cells, Shows};
ghost use Rattle.hive_load_parts.specs.CellReads.{marks_of};
ghost use Rattle.key_walk.specs.KeyPaths.{names_on};
ghost use Rattle.hive_salvage.specs.Events.{Event, Tells};
ghost use Rattle.hive_salvage.specs.Readings.{ListIs, ListFails};
ghost use Rattle.hive_salvage.specs.Salvage.{CountIs, FromList, LeafIs, LeavesAre, ListNames, ReadLeafIs, SubkeyIs, SubkeysAre};

use crate::errors::StepError;
use crate::loss::Part;
use crate::siblings::{Sibling, take_node};
use crate::sink::{SalvageSink, tell};
use hive_cells::{Image, Looks};
use hive_load_parts::{Flags, look_once};
use hive_records::{SubkeyList, u32_at};
use key_walk::KeyPath;
use refusals::{Cause, Refusal};
use std::alloc::Global;

/// The subkeys of a key, whose number and whose list's offset its node says, in the order of its lists. What isn't read is
/// told.
#[inline(never)] // so that each level takes little stack
pub(crate) fn kept_subkeys<S: SalvageSink>(
    alloc: Global,
    image: &Image,
    seen: &mut Flags,
    sink: &mut S,
    path: &KeyPath<'_>,
    count: u32,
    at: u32,
) -> Result<Vec<Sibling>, StepError<S::Error>>
    requires covers { length image.now.bytes ≤ 8 * length seen.old }
    ensures covers { length seen.new ≡ length seen.old }
    ensures kept { IfOk result (λ siblings. Tells S.Took sink.old sink.new image.now.bytes (λ cells told.
        SubkeysAre cells (names_on path.now) count at (marks_of seen.old)
        (marks_of seen.new, siblings.items) told)) }
{
    if count == 0 {
        return Ok(Vec::new(alloc));
    }
    let why = match read_list(image, seen, at) {
        Ok(list) => return counted(alloc, image, seen, sink, path, count, at, &list),
        Err(why) => why,
    };
    tell(sink, path, Part::SubkeyList, at, why)?;
    Ok(Vec::new(alloc))
}

// the list at an offset, whose cell is taken. It is looked at first, so that what is no list isn't taken
fn read_list<'a>(image: &'a Image, seen: &mut Flags, at: u32) -> Result<SubkeyList<'a>, Refusal>
    requires covers { length image.now.bytes ≤ 8 * length seen.old }
    ensures covers { length seen.new ≡ length seen.old }
    ensures read { (cells : Cells) → Shows image.now.bytes cells → MatchResult result
        (λ list. ListIs cells at (marks_of seen.old) (marks_of seen.new) list)
        (λ why. (why ≡ NoMemory) ⊎ ListFails cells at (marks_of seen.old) why) }
    ensures shape { IfOk result (λ list. (4 ≤ list.stride)
        × (list.stride * list.count ≤ length list.elements.now)) }
{
    let mut looks = Looks::new();
    let cell = match image.cell(at, &mut looks) {
        Ok(cell) => cell,
        Err(why) => return Err(why),
    };
    let list = match SubkeyList::read(cell) {
        Ok(list) => list,
        Err(why) => return Err(why),
    };
    match look_once(image, seen, &mut looks, at) {
        Ok(_) => Ok(list),
        Err(why) => Err(why),
    }
}

// the subkeys that a list leads to; another number of them than the key says is told
fn counted<S: SalvageSink>(
    alloc: Global,
    image: &Image,
    seen: &mut Flags,
    sink: &mut S,
    path: &KeyPath<'_>,
    count: u32,
    at: u32,
    list: &SubkeyList<'_>,
) -> Result<Vec<Sibling>, StepError<S::Error>>
    requires covers { length image.now.bytes ≤ 8 * length seen.old }
    requires wide { 4 ≤ list.now.stride }
    requires fits { list.now.stride * list.now.count ≤ length list.now.elements.now }
    ensures covers { length seen.new ≡ length seen.old }
    ensures kept { IfOk result (λ siblings. Tells S.Took sink.old sink.new image.now.bytes (λ cells told.
        (listed : ℕ) × (first rest : List Event)
        × FromList cells (names_on path.now) list.now (marks_of seen.old)
        ((marks_of seen.new, siblings.items), listed) first
        × CountIs (names_on path.now) count at listed rest × (told ≡ first ++ rest))) }
{
    let mut siblings = Vec::new(alloc);
    let listed = from_list(alloc, image, seen, sink, path, list, &mut siblings)?;
    tell_count(sink, path, count, at, listed)?;
    Ok(siblings)
}

// tells it if lists name another number of subkeys than the key says
fn tell_count<S: SalvageSink>(
    sink: &mut S,
    path: &KeyPath<'_>,
    count: u32,
    at: u32,
    listed: u64,
) -> Result<(), StepError<S::Error>>
    ensures { OnOk result ((events : List Event) × S.Took sink.old sink.new events
        × CountIs (names_on path.now) count at listed events) }
{
    if listed != count as u64 {
        return tell(
            sink,
            path,
            Part::SubkeyCount,
            at,
            Refusal::from(Cause::BadList),
        );
    }
    Ok(())
}

// adds the subkeys that a list leads to, and gives their number
fn from_list<S: SalvageSink>(
    alloc: Global,
    image: &Image,
    seen: &mut Flags,
    sink: &mut S,
    path: &KeyPath<'_>,
    list: &SubkeyList<'_>,
    siblings: &mut Vec<Sibling>,
) -> Result<u64, StepError<S::Error>>
    requires covers { length image.now.bytes ≤ 8 * length seen.old }
    requires wide { 4 ≤ list.now.stride }
    requires fits { list.now.stride * list.now.count ≤ length list.now.elements.now }
    requires none { siblings.old.items ≡ [] }
    ensures covers { length seen.new ≡ length seen.old }
    ensures kept { IfOk result (λ listed. Tells S.Took sink.old sink.new image.now.bytes (λ cells told.
        FromList cells (names_on path.now) list.now (marks_of seen.old)
        ((marks_of seen.new, siblings.new.items), listed) told)) }
{
    if list.is_indirect {
        return from_leaves(alloc, image, seen, sink, path, list, siblings);
    }
    match from_elements(alloc, image, seen, sink, path, 0, list, siblings) {
        Ok(()) => Ok(list.count as u64),
        Err(error) => Err(error),
    }
}

// the same of the lists that a list names
fn from_leaves<S: SalvageSink>(
    alloc: Global,
    image: &Image,
    seen: &mut Flags,
    sink: &mut S,
    path: &KeyPath<'_>,
    list: &SubkeyList<'_>,
    siblings: &mut Vec<Sibling>,
) -> Result<u64, StepError<S::Error>>
    requires covers { length image.now.bytes ≤ 8 * length seen.old }
    requires wide { 4 ≤ list.now.stride }
    requires fits { list.now.stride * list.now.count ≤ length list.now.elements.now }
    ensures covers { length seen.new ≡ length seen.old }
    ensures kept { IfOk result (λ listed. Tells S.Took sink.old sink.new image.now.bytes (λ cells told.
        LeavesAre cells (names_on path.now) list.now list.now.count
        ((marks_of seen.old, siblings.old.items), 0) ((marks_of seen.new, siblings.new.items), listed) told)) }
{
    let mut listed = 0u64;
    for leaf in 0..list.count as usize {
        let at = u32_at(list.elements, list.stride * leaf);
        match from_leaf(alloc, image, seen, sink, path, leaf, at, siblings) {
            Ok(count) => listed += count as u64,
            Err(error) => return Err(error),
        }
    }
    Ok(listed)
}

// the same of the list at an offset, which stands at a place of a list of lists. None if it isn't read
fn from_leaf<S: SalvageSink>(
    alloc: Global,
    image: &Image,
    seen: &mut Flags,
    sink: &mut S,
    path: &KeyPath<'_>,
    leaf: usize,
    at: u32,
    siblings: &mut Vec<Sibling>,
) -> Result<u16, StepError<S::Error>>
    requires covers { length image.now.bytes ≤ 8 * length seen.old }
    requires leaf { leaf < 2 ^ 32 }
    ensures covers { length seen.new ≡ length seen.old }
    ensures kept { IfOk result (λ count. Tells S.Took sink.old sink.new image.now.bytes (λ cells told.
        (listed : ℕ) → LeafIs cells (names_on path.now) leaf at ((marks_of seen.old, siblings.old.items), listed)
        ((marks_of seen.new, siblings.new.items), listed + count) told)) }
    ensures few { IfOk result (λ count. count ≤ 65_535) }
{
    let why = match read_list(image, seen, at) {
        Ok(list) => return from_read_leaf(
            alloc, image, seen, sink, path, leaf, at, &list, siblings,
        ),
        Err(why) => why,
    };
    tell(sink, path, Part::Leaf(leaf as u32), at, why)?;
    Ok(0)
}

// the same of a list that was read, which may not be a list of lists
fn from_read_leaf<S: SalvageSink>(
    alloc: Global,
    image: &Image,
    seen: &mut Flags,
    sink: &mut S,
    path: &KeyPath<'_>,
    leaf: usize,
    at: u32,
    list: &SubkeyList<'_>,
    siblings: &mut Vec<Sibling>,
) -> Result<u16, StepError<S::Error>>
    requires covers { length image.now.bytes ≤ 8 * length seen.old }
    requires leaf { leaf < 2 ^ 32 }
    requires wide { 4 ≤ list.now.stride }
    requires fits { list.now.stride * list.now.count ≤ length list.now.elements.now }
    ensures covers { length seen.new ≡ length seen.old }
    ensures kept { IfOk result (λ count. Tells S.Took sink.old sink.new image.now.bytes (λ cells told.
        (listed : ℕ) → ReadLeafIs cells (names_on path.now) leaf at list.now
        ((marks_of seen.old, siblings.old.items), listed)
        ((marks_of seen.new, siblings.new.items), listed + count) told)) }
    ensures few { IfOk result (λ count. count ≤ 65_535) }
{
    if list.is_indirect {
        let why = Refusal::from(Cause::BadList);
        tell(sink, path, Part::Leaf(leaf as u32), at, why)?;
        return Ok(0);
    }
    match from_elements(alloc, image, seen, sink, path, leaf as u32, list, siblings) {
        Ok(()) => Ok(list.count),
        Err(error) => Err(error),
    }
}

// adds the subkeys that a list names, which stands at a place of a list of lists
fn from_elements<S: SalvageSink>(
    alloc: Global,
    image: &Image,
    seen: &mut Flags,
    sink: &mut S,
    path: &KeyPath<'_>,
    leaf: u32,
    list: &SubkeyList<'_>,
    siblings: &mut Vec<Sibling>,
) -> Result<(), StepError<S::Error>>
    requires covers { length image.now.bytes ≤ 8 * length seen.old }
    requires wide { 4 ≤ list.now.stride }
    requires fits { list.now.stride * list.now.count ≤ length list.now.elements.now }
    ensures covers { length seen.new ≡ length seen.old }
    ensures kept { OnOk result (Tells S.Took sink.old sink.new image.now.bytes (λ cells told.
        ListNames cells (names_on path.now) leaf list.now list.now.count (marks_of seen.old, siblings.old.items)
        (marks_of seen.new, siblings.new.items) told)) }
{
    for place in 0..list.count as usize {
        let at = u32_at(list.elements, list.stride * place);
        match keep_subkey(
            alloc,
            image,
            seen,
            sink,
            path,
            leaf,
            place as u32,
            at,
            siblings,
        ) {
            Ok(()) => {}
            Err(error) => return Err(error),
        }
    }
    Ok(())
}

// adds the subkey at an offset, or tells its loss
fn keep_subkey<S: SalvageSink>(
    alloc: Global,
    image: &Image,
    seen: &mut Flags,
    sink: &mut S,
    path: &KeyPath<'_>,
    leaf: u32,
    place: u32,
    at: u32,
    siblings: &mut Vec<Sibling>,
) -> Result<(), StepError<S::Error>>
    requires covers { length image.now.bytes ≤ 8 * length seen.old }
    ensures covers { length seen.new ≡ length seen.old }
    ensures kept { OnOk result (Tells S.Took sink.old sink.new image.now.bytes (λ cells told.
        SubkeyIs cells (names_on path.now) leaf place at (marks_of seen.old, siblings.old.items)
        (marks_of seen.new, siblings.new.items) told)) }
{
    match take_node(alloc, image, seen, at) {
        Ok(name) => {
            siblings.push(Sibling {
                name,
                at,
                leaf,
                place,
            })?;
            Ok(())
        }
        Err(why) => tell(sink, path, Part::Subkey { leaf, place }, at, why),
    }
}
