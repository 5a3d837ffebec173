//! Big data, which lie in segments.
ghost use Rattle.std.specs.Prelude.{◌≡◌, ◌<◌, ◌≤◌, ◌*◌, ◌^◌, length};
ghost use Rattle.hive_records.specs.Readers.{each};
ghost use Rattle.hive_records.specs.Numbers.{words_from};
ghost use Rattle.hive_records.specs.Values.{cell_prefix, segment_sizes, segments_of, big_data};
ghost use Rattle.hive_load_parts.specs.CellReads.{Spreads, AnswersLikeReader, Works, joined_prefixes, size_at};

use crate::cells::{cell_prefix, look_once};
use crate::flags::Flags;
use hive_cells::{Image, Looks};
use hive_records::{BigData, SEGMENT_BYTES, segment_count, u32_at};
use refusals::{Cause, Refusal};
use std::alloc::Global;

// the bytes of an offset in a list
const OFFSET: usize = 4;

const _: () = prove!(OFFSET == 4);

/// Big data of a size, from their record on.
#[tactic(auto, using(crate::proofs::Spread::spreads_on))]
pub(crate) fn big_data(
    alloc: Global,
    image: &Image,
    seen: &mut Flags,
    looks: &mut Looks,
    size: u32,
    at: u32,
) -> Result<Vec<u8>, Refusal>
    requires covers { length image.now.bytes ≤ 8 * length seen.old }
    ensures reads { AnswersLikeReader (λ bytes. bytes.items) (big_data size at) image.now.bytes seen.old seen.new
        result }
    ensures covers { length seen.new ≡ length seen.old }
    ensures spreads { Spreads image.now.bytes seen.old seen.new }
    ensures works { Works looks.old looks.new seen.old seen.new result }
{
    let cell = match look_once(image, seen, looks, at) {
        Ok(cell) => cell,
        Err(refusal) => return Err(refusal),
    };
    let big = match BigData::read(cell, size) {
        Ok(big) => big,
        Err(refusal) => return Err(refusal),
    };
    let list = match look_once(image, seen, looks, big.segments) {
        Ok(list) => list,
        Err(refusal) => return Err(refusal),
    };
    if list.len() < OFFSET * segment_count(size) {
        return Err(Refusal::from(Cause::BadRecord));
    }
    segments(alloc, image, seen, looks, size, list)
}

// the segments of data of a size, whose offsets are in a list, one after another
#[tactic(auto, using(crate::proofs::Spread::spreads_on))]
fn segments(
    alloc: Global,
    image: &Image,
    seen: &mut Flags,
    looks: &mut Looks,
    size: u32,
    list: &[u8],
) -> Result<Vec<u8>, Refusal>
    requires covers { length image.now.bytes ≤ 8 * length seen.old }
    requires fits { 4 * segments_of size ≤ length list.now }
    ensures reads { AnswersLikeReader (λ bytes. bytes.items) (joined_prefixes
        (segment_sizes size (words_from list.now 0 4 (segments_of size)))) image.now.bytes seen.old
        seen.new result }
    ensures covers { length seen.new ≡ length seen.old }
    ensures spreads { Spreads image.now.bytes seen.old seen.new }
    ensures works { Works looks.old looks.new seen.old seen.new result }
{
    let count = segment_count(size);
    let mut bytes = Vec::new(alloc);
    for index in 0..count {
        let len = size_at(size, count, index);
        let at = u32_at(list, OFFSET * index);
        let part = match cell_prefix(image, seen, looks, len, at) {
            Ok(part) => part,
            Err(refusal) => return Err(refusal),
        };
        bytes.extend_from_slice(part)?;
    }
    Ok(bytes)
}

// the bytes of the segment at an index, of `count` segments
fn size_at(size: u32, count: usize, index: usize) -> usize
    requires there { index < count }
    requires few { count ≤ 2 ^ 32 }
    ensures { result ≡ size_at size count index }
{
    if index + 1 == count {
        (size as usize).saturating_sub(SEGMENT_BYTES * index)
    } else {
        SEGMENT_BYTES
    }
}
