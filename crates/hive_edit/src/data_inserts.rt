//! New data of a value, put into new cells.
ghost use Rattle.std.specs.Prelude.{◌≡◌, ◌≤◌, ◌<◌, ◌+◌, ◌*◌, ◌++◌, ◌^◌, ℕ, length, OnOk, IfOk, IfSome, IfErr};
ghost use Rattle.refusals.specs.declared.refusal.Refusal.TheVariants.{NoMemory};
ghost use Rattle.hive_records.specs.Fields.{u16_bytes, u32_bytes};
ghost use Rattle.hive_records.specs.ListEncodings.{offsets_bytes};
ghost use Rattle.hive_records.specs.BigDataEncodings.{AreFull};
ghost use Rattle.hive_savepoint.specs.Puts.{HasData, AddsCell};
ghost use Rattle.hive_emit.specs.Values.{InSegments, DataAt};
ghost use Rattle.hive_edit.specs.DataInserts.{Inserts};

use crate::cell_inserts::insert_cell;
use hive_records::{SEGMENT_BYTES, put_big_data, put_offsets};
use hive_savepoint::SavepointImage;
use refusals::Refusal;
use std::alloc::Global;

// bytes by which the cell of a last segment is longer than its data: some readers leave the last four bytes of a
// segment's cell unread
const UNREAD: usize = 4;

/// Inserts data: into one cell, or into segments with a db if they are longer than one segment. Answers the offset of
/// the cell, or of the db. None if the image has no room.
pub(crate) fn insert_data(
    alloc: Global,
    image: &mut SavepointImage,
    data: &[u8],
) -> Result<Option<u32>, Refusal>
    requires few { length data.now ≤ 1_048_576 }
    ensures added { IfOk result (λ made. IfSome made (λ to. Inserts image.old.bytes image.new.bytes
        (DataAt to data.now))) }
    ensures sizes { OnOk result ((cell len : ℕ) → HasData image.old.bytes cell len →
        HasData image.new.bytes cell len) }
    ensures saved { image.new.saved ≡ image.old.saved }
    ensures refused { IfErr result (λ why. why ≡ NoMemory) }
{
    if data.len() <= SEGMENT_BYTES {
        return insert_cell(image, data, 0);
    }
    insert_big(alloc, image, data)
}

// inserts data in segments, the list of these, and the db that leads to the list
fn insert_big(
    alloc: Global,
    image: &mut SavepointImage,
    data: &[u8],
) -> Result<Option<u32>, Refusal>
    requires many { 16_344 < length data.now }
    requires few { length data.now ≤ 1_048_576 }
    ensures added { IfOk result (λ made. IfSome made (λ to. Inserts image.old.bytes image.new.bytes
        (DataAt to data.now))) }
    ensures sizes { OnOk result ((cell len : ℕ) → HasData image.old.bytes cell len →
        HasData image.new.bytes cell len) }
    ensures saved { image.new.saved ≡ image.old.saved }
    ensures refused { IfErr result (λ why. why ≡ NoMemory) }
{
    let Some(offsets) = insert_segments(alloc, image, data)? else {
        return Ok(None);
    };
    let Some(list) = insert_list(alloc, image, &offsets)? else {
        return Ok(None);
    };
    insert_db(alloc, image, offsets.len() as u16, list)
}

// inserts segments of data, all full but the last, and answers their offsets
fn insert_segments(
    alloc: Global,
    image: &mut SavepointImage,
    data: &[u8],
) -> Result<Option<Vec<u32>>, Refusal>
    requires some { 0 < length data.now }
    ensures added { IfOk result (λ made. IfSome made (λ offsets. Inserts image.old.bytes
        image.new.bytes (InSegments AreFull offsets.items data.now))) }
    ensures count { IfOk result (λ made. IfSome made (λ offsets. 16_344 * length offsets.items
        < length data.now + 16_344)) }
    ensures sizes { OnOk result ((cell len : ℕ) → HasData image.old.bytes cell len →
        HasData image.new.bytes cell len) }
    ensures saved { image.new.saved ≡ image.old.saved }
    ensures refused { IfErr result (λ why. why ≡ NoMemory) }
{
    let mut offsets = Vec::new(alloc);
    let full = (data.len() - 1) / SEGMENT_BYTES;
    for index in 0..full {
        let from = index * SEGMENT_BYTES;
        let Some(at) = insert_cell(image, &data[from..from + SEGMENT_BYTES], 0)? else {
            return Ok(None);
        };
        offsets.push(at)?;
    }
    let Some(at) = insert_cell(image, &data[full * SEGMENT_BYTES..], UNREAD)? else {
        return Ok(None);
    };
    offsets.push(at)?;
    Ok(Some(offsets))
}

// inserts the list of segments
fn insert_list(
    alloc: Global,
    image: &mut SavepointImage,
    offsets: &[u32],
) -> Result<Option<u32>, Refusal>
    ensures added { IfOk result (λ made. IfSome made (λ at. AddsCell image.old.bytes image.new.bytes
        at (offsets_bytes offsets.now))) }
    ensures near { IfOk result (λ made. IfSome made (λ at. at < 2 ^ 32)) }
    ensures sizes { OnOk result ((cell len : ℕ) → HasData image.old.bytes cell len →
        HasData image.new.bytes cell len) }
    ensures saved { image.new.saved ≡ image.old.saved }
    ensures refused { IfErr result (λ why. why ≡ NoMemory) }
{
    let mut text = Vec::new(alloc);
    put_offsets(&mut text, offsets)?;
    insert_cell(image, &text, 0)
}

// inserts a db of so many segments, whose list is at an offset
fn insert_db(
    alloc: Global,
    image: &mut SavepointImage,
    count: u16,
    list: u32,
) -> Result<Option<u32>, Refusal>
    ensures added { IfOk result (λ made. IfSome made (λ at. AddsCell image.old.bytes image.new.bytes
        at (u16_bytes 0x6264 ++ u16_bytes count ++ u32_bytes list))) }
    ensures near { IfOk result (λ made. IfSome made (λ at. at < 2 ^ 32)) }
    ensures sizes { OnOk result ((cell len : ℕ) → HasData image.old.bytes cell len →
        HasData image.new.bytes cell len) }
    ensures saved { image.new.saved ≡ image.old.saved }
    ensures refused { IfErr result (λ why. why ≡ NoMemory) }
{
    let mut text = Vec::new(alloc);
    put_big_data(&mut text, count, list)?;
    insert_cell(image, &text, 0)
}
