//! An offset put into a key's list of values.
ghost use Rattle.std.specs.Prelude.{◌≡◌, ◌≢◌, ◌≤◌, ◌<◌, ◌+◌, ◌*◌, ◌^◌, ℕ, length, take, Ok, OnOk, IfOk, IfSome, IfErr};
ghost use Rattle.refusals.specs.declared.refusal.Refusal.TheVariants.{NoMemory};
ghost use Rattle.hive_cells.specs.Tiles.{cell_data};
ghost use Rattle.hive_savepoint.specs.Puts.{HasData, ChangesCell};
ghost use Rattle.hive_edit.specs.ValueLists.{IsListOf, GivesRoom, TakesWord, FreesList, AddsToList};
ghost use Rattle.hive_edit.specs.declared.outcome.Edit.TheVariants as edit;

use crate::cell_frees::free_cells;
use crate::cell_inserts::insert_cell;
use crate::node_edit::{ValueBounds, ValueList, put_more_values};
use crate::numbers::u32_bytes;
use crate::offsets::OFFSET;
use crate::outcome::Edit;
use hive_cells::Looks;
use hive_savepoint::SavepointImage;
use refusals::Refusal;
use std::alloc::Global;

/// Puts an offset into a key's list at an index, and what the node says of its values. A list that is full moves into a
/// new cell of twice its length.
pub(crate) fn add_to_list(
    alloc: Global,
    image: &mut SavepointImage,
    key: u32,
    list: &ValueList,
    index: usize,
    word: u32,
    moment: u64,
    bounds: &ValueBounds,
) -> Result<Edit, Refusal>
    requires there { IsListOf image.old.bytes key list.now }
    requires here { index ≤ list.now.count }
    requires few { list.now.count + 1 < 2 ^ 32 }
    ensures more { result ≡ Ok edit.Done → AddsToList image.old.bytes image.new.bytes key index word
        moment }
    ensures saved { image.new.saved ≡ image.old.saved }
    ensures refused { IfErr result (λ why. why ≡ NoMemory) }
{
    let Some(at) = make_room(alloc, image, list)? else {
        return Ok(Edit::Rebuild);
    };
    image.tiles(); // for the prover
    put_word(image, at, list.count as usize, index, word)?;
    put_more_values(image, key, list.count + 1, at, moment, bounds)?;
    free_list(image, list, at)
}

// a cell that begins with the offsets of a list, and has room for one more: the list's own, or a new one
fn make_room(
    alloc: Global,
    image: &mut SavepointImage,
    list: &ValueList,
) -> Result<Option<u32>, Refusal>
    requires full { 4 * list.now.count ≤ list.now.room }
    requires there { list.now.count ≢ 0 → HasData image.old.bytes list.now.at list.now.room }
    ensures given { IfOk result (λ made. IfSome made (GivesRoom image.old.bytes image.new.bytes
        list.now)) }
    ensures room { IfOk result (λ made. IfSome made (λ at. HasData image.new.bytes at (4 * (list.now.count + 1)))) }
    ensures sizes { OnOk result ((cell len : ℕ) → HasData image.old.bytes cell len →
        HasData image.new.bytes cell len) }
    ensures saved { image.new.saved ≡ image.old.saved }
    ensures refused { IfErr result (λ why. why ≡ NoMemory) }
{
    image.tiles(); // for the prover
    if list.count == 0 {
        return insert_cell(image, &[], OFFSET);
    }
    if OFFSET * (list.count as usize + 1) <= list.room {
        return Ok(Some(list.at));
    }
    let words = list_words(alloc, image, list)?;
    insert_cell(image, &words, words.len())
}

// the bytes of a list's offsets
fn list_words(alloc: Global, image: &SavepointImage, list: &ValueList) -> Result<Vec<u8>, Refusal>
    requires full { 4 * list.now.count ≤ list.now.room }
    requires there { HasData image.now.bytes list.now.at list.now.room }
    ensures words { IfOk result (λ words. words.items ≡ take (4 * list.now.count) (cell_data image.now.bytes list.now.at)) }
    ensures len { IfOk result (λ words. length words.items ≡ 4 * list.now.count) }
    ensures refused { IfErr result (λ why. why ≡ NoMemory) }
{
    let mut words = Vec::new(alloc);
    let mut looks = Looks::new();
    if let Ok(cell) = image.cell(list.at, &mut looks) {
        words.extend_from_slice(&cell[..OFFSET * list.count as usize])?;
    }
    Ok(words)
}

// puts an offset into the data of a list's cell, before those from an index on
fn put_word(
    image: &mut SavepointImage,
    at: u32,
    count: usize,
    index: usize,
    word: u32,
) -> Result<(), Refusal>
    requires room { HasData image.old.bytes at (4 * (count + 1)) }
    requires few { count < 2 ^ 32 }
    requires here { index ≤ count }
    ensures put { OnOk result (ChangesCell image.old.bytes image.new.bytes at
        (TakesWord count index word)) }
    ensures saved { image.new.saved ≡ image.old.saved }
    ensures refused { IfErr result (λ why. why ≡ NoMemory) }
{
    image.shift(
        at,
        OFFSET * index,
        OFFSET * (index + 1),
        OFFSET * (count - index),
    )?;
    image.write(at, OFFSET * index, &u32_bytes(word))
}

// frees the cell of a list that is in another now
fn free_list(image: &mut SavepointImage, list: &ValueList, at: u32) -> Result<Edit, Refusal>
    ensures freed { result ≡ Ok edit.Done → FreesList image.old.bytes image.new.bytes list.now at }
    ensures saved { image.new.saved ≡ image.old.saved }
    ensures refused { IfErr result (λ why. why ≡ NoMemory) }
{
    if list.count == 0 || list.at == at {
        return Ok(Edit::Done);
    }
    free_cells(image, &[list.at])
}
