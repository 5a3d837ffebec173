//! Changes of cells in place: each leaves data that bins and cells tile.
//!
//! If a function begins with `let _ = &self.bytes;`, its proof needs what every image keeps.
ghost use Rattle.std.specs.Prelude.{◌≡◌, ℕ, ◌+◌, ◌*◌, ◌%◌, ◌^◌, ◌<◌, ◌≤◌, List, length, false};
ghost use Rattle.refusals.specs.declared.limits.TheConstants.{MOST_BINS_BYTES};
ghost use Rattle.hive_cells.specs.Tiles.{BeginsCell, IsAllocatedCell, IsFreeCell, cell_size};
ghost use Rattle.hive_cells.specs.Changes.{PutsSize, Turns, Splits, Joins, JoinsBehind, JoinsBefore, IsCutToSize, Takes, Frees};

use super::Image;
use crate::starts::set_start_bit;
use crate::tiling::MARKED_BYTES;
use crate::words::put_size;

impl Image {
    // turns the cell at an offset into an allocated or a free one of the same size.
    fn turn(&mut self, at: usize, allocated: bool)
        requires limit { length self.old.bytes ≤ MOST_BINS_BYTES }
        requires cell { BeginsCell self.old.bytes at }
        ensures turned { Turns self.old.bytes self.new.bytes at allocated }
        ensures spare { self.new.spare ≡ self.old.spare }
    {
        let size = self.size_at(at);
        put_size(&mut self.bytes, at, size, allocated);
        self.free.note(at, size);
    }

    // splits the free cell at an offset into two free cells, the first of which has the size.
    fn split(&mut self, at: usize, size: usize)
        requires limit { length self.old.bytes ≤ MOST_BINS_BYTES }
        requires free { IsFreeCell self.old.bytes at }
        requires eights { size % 8 ≡ 0 }
        requires least { 8 ≤ size }
        requires rest { size + 8 ≤ cell_size self.old.bytes at }
        ensures split { Splits self.old.bytes self.new.bytes at size }
        ensures spare { self.new.spare ≡ self.old.spare }
    {
        let rest = self.size_at(at) - size;
        put_two_sizes(&mut self.bytes, at, size, rest);
        set_start_bit(&mut self.starts, (at + size) / MARKED_BYTES, true);
        self.free.note(at + size, rest);
    }

    // joins the free cell at an offset with the free cell after it.
    fn join(&mut self, at: usize, next: usize)
        requires limit { length self.old.bytes ≤ MOST_BINS_BYTES }
        requires free { IsFreeCell self.old.bytes at }
        requires next_free { IsFreeCell self.old.bytes next }
        requires behind { next ≡ at + cell_size self.old.bytes at }
        ensures joined { Joins self.old.bytes self.new.bytes at next }
        ensures spare { self.new.spare ≡ self.old.spare }
    {
        let size = self.size_at(at) + self.size_at(next);
        put_size(&mut self.bytes, at, size, false);
        set_start_bit(&mut self.starts, next / MARKED_BYTES, false);
        self.free.note(at, size);
    }

    // joins the free cell at an offset with the cell after it, if that is free
    fn join_behind(&mut self, at: usize)
        requires limit { length self.old.bytes ≤ MOST_BINS_BYTES }
        requires free { IsFreeCell self.old.bytes at }
        ensures joined { JoinsBehind self.old.bytes self.new.bytes at }
        ensures spare { self.new.spare ≡ self.old.spare }
    {
        let _ = &self.bytes; // for the prover
        let next = at + self.size_at(at);
        if self.is_free(next) {
            self.join(at, next);
        }
    }

    // joins the free cell at an offset with the cell before it, if that is free; gives the offset of the joined cell
    fn join_before(&mut self, at: usize) -> usize
        requires limit { length self.old.bytes ≤ MOST_BINS_BYTES }
        requires free { IsFreeCell self.old.bytes at }
        ensures joined { JoinsBefore self.old.bytes self.new.bytes at result }
        ensures spare { self.new.spare ≡ self.old.spare }
    {
        let _ = &self.bytes; // for the prover
        match self.free_before(at) {
            Some(from) => {
                self.join(from, at);
                from
            }
            None => at,
        }
    }

    // frees the allocated cell at an offset; gives the offset of the free cell in which it then lies
    pub(super) fn give_back(&mut self, at: usize) -> usize
        requires limit { length self.old.bytes ≤ MOST_BINS_BYTES }
        requires allocated { IsAllocatedCell self.old.bytes at }
        ensures freed { Frees self.old.bytes self.new.bytes at result }
        ensures spare { self.new.spare ≡ self.old.spare }
    {
        let _ = &self.bytes; // for the prover
        self.turn(at, false);
        self.join_behind(at);
        self.join_before(at)
    }

    // splits the free cell at an offset if more than 8 bytes would be left over
    fn fit(&mut self, at: usize, size: usize)
        requires limit { length self.old.bytes ≤ MOST_BINS_BYTES }
        requires free { IsFreeCell self.old.bytes at }
        requires eights { size % 8 ≡ 0 }
        requires least { 8 ≤ size }
        requires fits { size ≤ cell_size self.old.bytes at }
        ensures fit { IsCutToSize self.old.bytes self.new.bytes at size }
        ensures spare { self.new.spare ≡ self.old.spare }
    {
        if self.size_at(at) > size + MARKED_BYTES {
            self.split(at, size);
        }
    }

    // allocates the free cell at an offset with a size, or whole if no more than 8 bytes would be left over; what is
    // left over becomes a free cell
    pub(super) fn take(&mut self, at: usize, size: usize)
        requires limit { length self.old.bytes ≤ MOST_BINS_BYTES }
        requires free { IsFreeCell self.old.bytes at }
        requires eights { size % 8 ≡ 0 }
        requires least { 8 ≤ size }
        requires fits { size ≤ cell_size self.old.bytes at }
        ensures taken { Takes self.old.bytes self.new.bytes at size }
        ensures spare { self.new.spare ≡ self.old.spare }
    {
        let _ = &self.bytes; // for the prover
        self.fit(at, size);
        self.turn(at, true);
    }
}

// writes the sizes of two free cells, one after the other
fn put_two_sizes(bytes: &mut [u8], at: usize, size: usize, rest: usize)
    requires within { at + size + 4 ≤ length bytes.old }
    requires least { 8 ≤ size }
    requires rest { 0 < rest }
    requires fits { size + rest < 2 ^ 31 }
    ensures { (half : List ℕ) × PutsSize bytes.old half (at + size) rest false
        × PutsSize half bytes.new at size false }
{
    put_size(bytes, at + size, rest, false);
    put_size(bytes, at, size, false);
}
