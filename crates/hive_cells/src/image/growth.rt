//! New bins after the data, and memory for them.
ghost use Rattle.std.specs.Prelude.{◌≡◌, ℕ, ◌+◌, ◌-◌, ◌*◌, ◌/◌, ◌%◌, ◌<◌, ◌≤◌, ◌++◌, ◌⊎◌, max, MatchResult, IfErr, OnOk, OnErr, length, replicate, slice_index};
ghost use Rattle.std.specs.Vec.{vec_capacity};
ghost use Rattle.refusals.specs.declared.limits.TheConstants.{MOST_BINS_BYTES};
ghost use Rattle.hive_cells.specs.Tiles.{HasFree};
ghost use Rattle.hive_cells.specs.Changes.{LaysBin, AddsFreeBin, HasRoom, UsesSpare, RoomRefused};

use super::Image;
use crate::starts::set_start_bit;
use crate::tiling::{BIN_HEADER_BYTES, BIN_SIGNATURE, MARKED_BYTES, PAGE_BYTES, WORD_BYTES};
use crate::words::{put_size, put_u32};
use refusals::Refusal;
use refusals::limits::MOST_BINS_BYTES;
use std::alloc::AllocError;

// what has no memory left gets memory for one part of so many more
const GROWTH: usize = 8;

impl Image {
    /// Takes memory by which the data may get `more` bytes longer. If fewer than `more` bytes are spare, `more` bytes
    /// are spare then. If the data have no memory for them yet, an eighth of the data's length is taken, or `more` bytes
    /// if that is more.
    ///
    /// Refused with `NoMemory` alone, and then everything is as before.
    pub fn reserve(&mut self, more: usize) -> Result<(), Refusal>
        requires { more ≤ MOST_BINS_BYTES }
        ensures ok { OnOk result (self.new ≡ record
            { bytes = self.old.bytes; spare = max self.old.spare more }) }
        ensures err { IfErr result (λ refusal. (refusal ≡ Refusal.NoMemory)
            × (self.old.spare < more) × (self.new ≡ self.old)) }
    {
        if more <= self.spare {
            return Ok(());
        }
        let room = room_for(self.bytes.len(), self.bytes.capacity(), more);
        self.bytes.reserve_exact(room)?;
        let words = more / WORD_BYTES;
        let room = room_for(self.starts.len(), self.starts.capacity(), words);
        self.starts.reserve_exact(room)?;
        self.spare = more;
        Ok(())
    }

    // adds the least bin for a cell of a size, given that no free cell is long enough; gives the offset of the bin's
    // free cell
    pub(super) fn add_bin(&mut self, size: usize) -> Result<usize, Refusal>
        requires limit { length self.old.bytes ≤ MOST_BINS_BYTES }
        requires fits { size ≤ MOST_BINS_BYTES + 16 }
        requires none { ¬ HasFree self.old.bytes size }
        ensures { MatchResult result (λ at. HasRoom self.old.bytes self.new.bytes at size
            × UsesSpare self.old self.new)
            (λ refusal. (self.new ≡ self.old) × RoomRefused self.old size refusal) }
    {
        let bin = (size + BIN_HEADER_BYTES).div_ceil(PAGE_BYTES) * PAGE_BYTES;
        let at = self.bytes.len();
        if bin > MOST_BINS_BYTES - at {
            return Err(Refusal::TooLarge);
        }
        self.lengthen(bin)?;
        Ok(at + BIN_HEADER_BYTES)
    }

    // lays a bin of a size after the data, with one free cell
    fn lengthen(&mut self, size: usize) -> Result<(), AllocError>
        requires pages { size % 4096 ≡ 0 }
        requires some { 0 < size }
        requires limit { length self.old.bytes + size ≤ MOST_BINS_BYTES }
        ensures added { OnOk result (AddsFreeBin self.old.bytes self.new.bytes size) }
        ensures spare { OnOk result (self.new.spare ≡ self.old.spare - size) }
        ensures refused { OnErr result (self.old.spare < size) }
        ensures same { OnErr result (self.new ≡ self.old) }
    {
        let at = self.bytes.len();
        let cell = at + BIN_HEADER_BYTES;
        grow(&mut self.bytes, &mut self.starts, size)?;
        lay_bin(&mut self.bytes, at);
        set_start_bit(&mut self.starts, cell / MARKED_BYTES, true);
        self.free.note(cell, size - BIN_HEADER_BYTES);
        self.spare = self.spare.saturating_sub(size);
        Ok(())
    }
}

// for how many items more memory is taken if `more` are asked for: an eighth of those that are there at least, so that
// what grows by little each time is rarely moved; or just `more`, if there is memory for them
fn room_for(len: usize, capacity: usize, more: usize) -> usize
    requires { len ≤ capacity }
    ensures { more ≤ result }
{
    if more <= capacity - len {
        more
    } else {
        more.max(len / GROWTH)
    }
}

// makes the data longer by zeros, and their bits by no starts; both or none
fn grow(bytes: &mut Vec<u8>, starts: &mut Vec<u64>, more: usize) -> Result<(), AllocError>
    requires bytes_fit { length bytes.old.items + more ≤ MOST_BINS_BYTES }
    requires starts_fit { length starts.old.items ≤ MOST_BINS_BYTES }
    ensures bytes { OnOk result (bytes.new.items ≡ bytes.old.items ++ replicate more 0) }
    ensures starts { OnOk result (starts.new.items ≡ starts.old.items ++ replicate (more / 512) 0) }
    ensures same { OnErr result ((bytes.new.items ≡ bytes.old.items)
        × (starts.new.items ≡ starts.old.items)) }
    ensures full { OnErr result ((vec_capacity bytes.old < length bytes.old.items + more)
        ⊎ (vec_capacity starts.old < length starts.old.items + more / 512)) }
    ensures room { vec_capacity bytes.old ≤ vec_capacity bytes.new }
    ensures starts_room { vec_capacity starts.old ≤ vec_capacity starts.new }
{
    let longer = bytes.len() + more;
    let longer_starts = starts.len() + more / WORD_BYTES;
    starts.reserve(more / WORD_BYTES)?;
    bytes.resize(longer, 0)?;
    starts.resize(longer_starts, 0)?;
    Ok(())
}

// writes the header and the one free cell of a bin that goes from an offset to the end of the data, over zeros
fn lay_bin(bytes: &mut [u8], at: usize)
    requires room { at + 4096 ≤ length bytes.old }
    requires limit { length bytes.old ≤ MOST_BINS_BYTES }
    requires zeros { (i : ℕ) → at ≤ i → slice_index bytes.old i ≡ 0 }
    ensures { LaysBin bytes.old bytes.new at }
{
    let size = bytes.len() - at;
    put_u32(bytes, at, BIN_SIGNATURE);
    put_u32(bytes, at + 4, at as u32);
    put_u32(bytes, at + 8, size as u32);
    put_size(bytes, at + BIN_HEADER_BYTES, size - BIN_HEADER_BYTES, false);
}
