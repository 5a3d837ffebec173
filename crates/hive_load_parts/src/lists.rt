//! Lists of subkeys.
ghost use Rattle.std.specs.Prelude.{◌≡◌, ◌≤◌, ◌*◌, length, IfOk};
ghost use Rattle.hive_records.specs.Readers.{each};
ghost use Rattle.hive_records.specs.Lists.{leaf_at, subkeys_at};
ghost use Rattle.hive_records.specs.RecordReaders.{elements_of, list_from};
ghost use Rattle.hive_load_parts.specs.CellReads.{Spreads, AnswersLikeReader, Works, joined_leaves};

use crate::cells::look_once;
use crate::flags::Flags;
use hive_cells::{Image, Looks};
use hive_records::{SubkeyList, u32_at};
use refusals::{Cause, Refusal};
use std::alloc::{AllocError, Global};

// the offsets in a list
fn elements(alloc: Global, list: &SubkeyList) -> Result<Vec<u32>, AllocError>
    requires wide { 4 ≤ list.now.stride }
    requires fits { list.now.stride * list.now.count ≤ length list.now.elements.now }
    ensures { IfOk result (λ found. found.items ≡ elements_of list.now) }
{
    let mut found = Vec::new(alloc);
    for index in 0..list.count as usize {
        found.push(u32_at(list.elements, list.stride * index))?;
    }
    Ok(found)
}

/// The offsets in the list of subkeys at an offset, which is no list of lists.
///
/// Refused as the definition of a leaf refuses, with `BadList` at a list of lists, with `Shared` at a cell that was met
/// before, and with `NoMemory`.
#[tactic(auto, using(crate::proofs::Spread::spreads_on))]
pub fn leaf(
    alloc: Global,
    image: &Image,
    seen: &mut Flags,
    looks: &mut Looks,
    at: u32,
) -> Result<Vec<u32>, Refusal>
    requires covers { length image.now.bytes ≤ 8 * length seen.old }
    ensures reads { AnswersLikeReader (λ subkey_list. subkey_list.items) (leaf_at at) image.now.bytes seen.old seen.new result }
    ensures covers { length seen.new ≡ length seen.old }
    ensures spreads { Spreads image.now.bytes seen.old seen.new }
    ensures works { Works looks.old looks.new seen.old seen.new result }
{
    let cell = match look_once(image, seen, looks, at) {
        Ok(cell) => cell,
        Err(refusal) => return Err(refusal),
    };
    let list = match SubkeyList::read(cell) {
        Ok(list) => list,
        Err(refusal) => return Err(refusal),
    };
    if list.is_indirect {
        return Err(Refusal::from(Cause::BadList));
    }
    Ok(elements(alloc, &list)?)
}

// the subkeys in the lists that some offsets lead to, one after another
#[tactic(auto, using(crate::proofs::Spread::spreads_on))]
fn leaves(
    alloc: Global,
    image: &Image,
    seen: &mut Flags,
    looks: &mut Looks,
    lists: &[u32],
) -> Result<Vec<u32>, Refusal>
    requires covers { length image.now.bytes ≤ 8 * length seen.old }
    ensures reads { AnswersLikeReader (λ subkey_list. subkey_list.items) (joined_leaves lists.now) image.now.bytes seen.old
        seen.new result }
    ensures covers { length seen.new ≡ length seen.old }
    ensures spreads { Spreads image.now.bytes seen.old seen.new }
    ensures works { Works looks.old looks.new seen.old seen.new result }
{
    let mut subkey_list = Vec::new(alloc);
    for at in lists {
        let more = match leaf(alloc, image, seen, looks, *at) {
            Ok(more) => more,
            Err(refusal) => return Err(refusal),
        };
        subkey_list.extend_from_slice(&more)?;
    }
    Ok(subkey_list)
}

// the subkeys that a list leads to
#[tactic(auto, using(crate::proofs::Spread::spreads_on))]
fn listed(
    alloc: Global,
    image: &Image,
    seen: &mut Flags,
    looks: &mut Looks,
    list: &SubkeyList,
) -> Result<Vec<u32>, Refusal>
    requires covers { length image.now.bytes ≤ 8 * length seen.old }
    requires wide { 4 ≤ list.now.stride }
    requires fits { list.now.stride * list.now.count ≤ length list.now.elements.now }
    ensures reads { AnswersLikeReader (λ subkey_list. subkey_list.items) (list_from list.now) image.now.bytes seen.old seen.new
        result }
    ensures covers { length seen.new ≡ length seen.old }
    ensures spreads { Spreads image.now.bytes seen.old seen.new }
    ensures works { Works looks.old looks.new seen.old seen.new result }
{
    let found = elements(alloc, list)?;
    if !list.is_indirect {
        return Ok(found);
    }
    leaves(alloc, image, seen, looks, &found)
}

/// The offsets of the subkeys of a key that says how many they are and where their list is, in the order of the list.
///
/// Refused as the definition of a list refuses, with `Shared` at a cell that was met before, and with `NoMemory`.
#[tactic(auto, using(crate::proofs::Spread::spreads_on))]
pub fn subkey_list(
    alloc: Global,
    image: &Image,
    seen: &mut Flags,
    looks: &mut Looks,
    count: u32,
    at: u32,
) -> Result<Vec<u32>, Refusal>
    requires covers { length image.now.bytes ≤ 8 * length seen.old }
    ensures reads { AnswersLikeReader (λ subkey_list. subkey_list.items) (subkeys_at count at) image.now.bytes seen.old seen.new
        result }
    ensures covers { length seen.new ≡ length seen.old }
    ensures spreads { Spreads image.now.bytes seen.old seen.new }
    ensures works { Works looks.old looks.new seen.old seen.new result }
{
    if count == 0 {
        return Ok(Vec::new(alloc));
    }
    let cell = match look_once(image, seen, looks, at) {
        Ok(cell) => cell,
        Err(refusal) => return Err(refusal),
    };
    let list = match SubkeyList::read(cell) {
        Ok(list) => list,
        Err(refusal) => return Err(refusal),
    };
    let found = match listed(alloc, image, seen, looks, &list) {
        Ok(found) => found,
        Err(refusal) => return Err(refusal),
    };
    if found.len() != count as usize {
        return Err(Refusal::from(Cause::BadList));
    }
    Ok(found)
}
