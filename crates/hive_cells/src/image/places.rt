//! Where a change will write, asked before it is made: for callers that keep the bytes which it writes over.
ghost use Rattle.std.specs.Prelude.{◌≡◌, ◌+◌, ◌≤◌, ℕ, List, MatchOption, length};
ghost use Rattle.refusals.specs.declared.limits.TheConstants.{MOST_BINS_BYTES};
ghost use Rattle.hive_cells.specs.Tiles.{IsAllocatedCell, IsFreeCell, HasFree, cell_size};
ghost use Rattle.hive_cells.specs.Changes.{Allocates, Frees, least_size};

use super::{Image, size_for};
use refusals::limits::MOST_BINS_BYTES;

impl Image {
    /// The offset of a free cell that is long enough for data of a length. None exactly if there is none: then
    /// [`Image::alloc`] adds a bin. The image stays as it is. Takes no memory.
    pub fn place_for(&mut self, len: usize) -> Option<u32>
        requires limit { length self.old.bytes ≤ MOST_BINS_BYTES }
        requires fits { len ≤ MOST_BINS_BYTES }
        ensures same { self.new ≡ self.old }
        ensures found { MatchOption result (¬ HasFree self.old.bytes (least_size len))
            (λ place. IsFreeCell self.old.bytes place
            × (least_size len ≤ cell_size self.old.bytes place)
            × (place + cell_size self.old.bytes place ≤ length self.old.bytes)) }
    {
        let at = self.find_free(size_for(len))?;
        let _whole = self.size_at(at); // for the prover
        Some(at as u32)
    }

    /// Allocates a cell for data of a length, as [`Image::alloc`] does, from the free cell at an offset. The caller
    /// makes sure that it is long enough, as [`Image::place_for`] does. Takes no memory.
    pub fn alloc_at(&mut self, len: usize, place: u32)
        requires limit { length self.old.bytes ≤ MOST_BINS_BYTES }
        requires fits { len ≤ MOST_BINS_BYTES }
        requires free { IsFreeCell self.old.bytes place }
        requires long { least_size len ≤ cell_size self.old.bytes place }
        ensures allocated { Allocates self.old.bytes self.new.bytes len place }
        ensures len { length self.new.bytes ≡ length self.old.bytes }
        ensures spare { self.new.spare ≡ self.old.spare }
    {
        let _ = &self.bytes; // for the prover
        self.take(place as usize, size_for(len));
    }

    /// The offset of the free cell in which an allocated cell lies once [`Image::free`] frees it: that of the free cell
    /// that ends where the allocated one begins, or its own.
    pub fn merges_from(&self, offset: u32) -> u32
        requires { IsAllocatedCell self.now.bytes offset }
        ensures before { result ≤ offset }
        ensures freed { (new : List ℕ) (from : ℕ) → Frees self.now.bytes new offset from → from ≡ result }
    {
        match self.free_before(offset as usize) {
            Some(from) => from as u32,
            None => offset,
        }
    }
}
