//! Data of values that don't lie in their record.
ghost use Rattle.std.specs.Prelude.{◌<◌, ◌+◌, ◌*◌, ◌^◌, length, IfOk, IfErr, OnOk};
ghost use Rattle.hive_records.specs.BigDataEncodings.{AreFull};
ghost use Rattle.hive_emit.specs.CellWrites.{Makes, Uses, WriteRefused};
ghost use Rattle.hive_emit.specs.Values.{InSegments, DataAt};
ghost use Rattle.hive_emit.specs.CellCosts.{segments_cost, apart_cost};

use crate::cells::put_cell;
use hive_cells::Image;
use hive_records::{SEGMENT_BYTES, put_big_data, put_offsets};
use refusals::Refusal;
use std::alloc::Global;

// bytes by which the cell of a last segment is longer than its data: some readers leave the last four bytes of a
// segment's cell unread
const UNREAD: usize = 4;

/// Puts data into segments, all full but the last; answers the segments' cells.
fn put_segments(alloc: Global, image: &mut Image, content: &[u8]) -> Result<Vec<u32>, Refusal>
    requires { 0 < length content.now }
    ensures made { IfOk result (λ cell_offsets. Makes image.old.bytes image.new.bytes
        (InSegments AreFull cell_offsets.items content.now)) }
    ensures count { IfOk result (λ cell_offsets. 16_344 * length cell_offsets.items < length content.now + 16_344) }
    ensures uses { OnOk result (Uses image.old.bytes image.new.bytes (segments_cost
        (length content.now))) }
    ensures stops { IfErr result (WriteRefused image.old.bytes (segments_cost (length content.now))) }
{
    let mut cell_offsets = Vec::new(alloc);
    let full = (content.len() - 1) / SEGMENT_BYTES;
    for index in 0..full {
        let from = index * SEGMENT_BYTES;
        let at = match put_cell(image, &content[from..from + SEGMENT_BYTES], SEGMENT_BYTES) {
            Ok(at) => at,
            Err(why) => return Err(why),
        };
        cell_offsets.push(at)?;
    }
    let last = &content[full * SEGMENT_BYTES..];
    let at = match put_cell(image, last, last.len() + UNREAD) {
        Ok(at) => at,
        Err(why) => return Err(why),
    };
    cell_offsets.push(at)?;
    Ok(cell_offsets)
}

// puts data that are longer than one segment
fn put_big(
    alloc: Global,
    image: &mut Image,
    encoding: &mut Vec<u8>,
    content: &[u8],
) -> Result<u32, Refusal>
    requires many { 16_344 < length content.now }
    requires few { length content.now < 2 ^ 29 }
    ensures made { IfOk result (λ to. Makes image.old.bytes image.new.bytes (DataAt to content.now)) }
    ensures uses { OnOk result (Uses image.old.bytes image.new.bytes (apart_cost
        (length content.now))) }
    ensures stops { IfErr result (WriteRefused image.old.bytes (apart_cost (length content.now))) }
{
    let cell_offsets = match put_segments(alloc, image, content) {
        Ok(cell_offsets) => cell_offsets,
        Err(why) => return Err(why),
    };
    encoding.clear();
    put_offsets(encoding, &cell_offsets)?;
    let list = match put_cell(image, encoding, encoding.len()) {
        Ok(at) => at,
        Err(why) => return Err(why),
    };
    encoding.clear();
    put_big_data(encoding, cell_offsets.len() as u16, list)?;
    match put_cell(image, encoding, encoding.len()) {
        Ok(to) => Ok(to),
        Err(why) => Err(why),
    }
}

/// Puts data that don't lie in their record: into one cell, or into segments if they are longer than one segment.
pub(crate) fn put_data(
    alloc: Global,
    image: &mut Image,
    encoding: &mut Vec<u8>,
    content: &[u8],
) -> Result<u32, Refusal>
    requires { length content.now < 2 ^ 29 }
    ensures made { IfOk result (λ to. Makes image.old.bytes image.new.bytes (DataAt to content.now)) }
    ensures uses { OnOk result (Uses image.old.bytes image.new.bytes (apart_cost
        (length content.now))) }
    ensures stops { IfErr result (WriteRefused image.old.bytes (apart_cost (length content.now))) }
{
    if SEGMENT_BYTES < content.len() {
        return put_big(alloc, image, encoding, content);
    }
    match put_cell(image, content, content.len()) {
        Ok(to) => Ok(to),
        Err(why) => Err(why),
    }
}
