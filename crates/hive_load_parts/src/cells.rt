//! Cells, each looked at once.
ghost use Rattle.std.specs.Prelude.{◌≡◌, ◌<◌, ◌≤◌, ◌*◌, length, OnOk};
ghost use Rattle.hive_records.specs.Readers.{look};
ghost use Rattle.hive_records.specs.Values.{cell_prefix};
ghost use Rattle.hive_load_parts.specs.CellReads.{Spreads, AnswersLikeReader, Works, marks_of, set_flags};

use crate::flags::Flags;
use hive_cells::{Image, Looks};
use refusals::{Cause, Refusal};

// each cell begins at a multiple of this many bytes
const FLAGGED_BYTES: usize = 8;

const _: () = prove!(FLAGGED_BYTES == 8);

/// Whether the cell at an offset is marked.
pub(crate) fn is_marked(seen: &Flags, at: u32) -> bool
    ensures { result ≡ marks_of seen.now at }
{
    let at = at as usize;
    if at % FLAGGED_BYTES != 0 {
        return false;
    }
    seen.is_set(at / FLAGGED_BYTES)
}

/// The data of the allocated cell at an offset, which is marked, and had no mark before.
///
/// Refused with `BadOffset` if no allocated cell begins there, with `Shared` if it was marked.
#[tactic(auto, using(crate::proofs::Spread::spreads_on))]
pub fn look_once<'a>(
    image: &'a Image,
    seen: &mut Flags,
    looks: &mut Looks,
    at: u32,
) -> Result<&'a [u8], Refusal>
    requires covers { length image.now.bytes ≤ 8 * length seen.old }
    ensures reads { AnswersLikeReader (λ lent. lent.now) (look at) image.now.bytes seen.old seen.new result }
    ensures covers { length seen.new ≡ length seen.old }
    ensures spreads { Spreads image.now.bytes seen.old seen.new }
    ensures more { OnOk result (set_flags seen.old < set_flags seen.new) }
    ensures works { Works looks.old looks.new seen.old seen.new result }
{
    let bytes = match image.cell(at, looks) {
        Ok(bytes) => bytes,
        Err(refusal) => return Err(refusal),
    };
    let slot = at as usize / FLAGGED_BYTES;
    if seen.is_set(slot) {
        return Err(Refusal::from(Cause::Shared));
    }
    seen.set(slot);
    Ok(bytes)
}

/// The first bytes of the cell at an offset, which is marked, and had no mark before.
///
/// Refused as [`look_once`] refuses, and with `BadRecord` if the cell has fewer bytes.
#[tactic(auto, using(crate::proofs::Spread::spreads_on))]
pub fn cell_prefix<'a>(
    image: &'a Image,
    seen: &mut Flags,
    looks: &mut Looks,
    size: usize,
    at: u32,
) -> Result<&'a [u8], Refusal>
    requires covers { length image.now.bytes ≤ 8 * length seen.old }
    ensures reads { AnswersLikeReader (λ lent. lent.now) (cell_prefix size at) image.now.bytes seen.old seen.new
        result }
    ensures covers { length seen.new ≡ length seen.old }
    ensures spreads { Spreads image.now.bytes seen.old seen.new }
    ensures works { Works looks.old looks.new seen.old seen.new result }
{
    let bytes = match look_once(image, seen, looks, at) {
        Ok(bytes) => bytes,
        Err(refusal) => return Err(refusal),
    };
    if bytes.len() < size {
        return Err(Refusal::from(Cause::BadRecord));
    }
    Ok(&bytes[..size])
}
