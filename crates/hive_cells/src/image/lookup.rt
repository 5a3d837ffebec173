//! Cells by their offsets, found by the bits of where cells begin.
ghost use Rattle.std.specs.Prelude.{◌≡◌, ◌≢◌, ℕ, ◌+◌, ◌*◌, ◌/◌, ◌%◌, ◌<◌, ◌≤◌, ◌↔◌, IsTrue, MatchOption, MatchResult, length};
ghost use Rattle.hive_cells.specs.Tiles.{BeginsCell, IsAllocatedCell, IsFreeCell, HasFree, cell_size, cell_data};
ghost use Rattle.hive_cells.specs.Marks.{IsWholeCell};
ghost use Rattle.hive_cells.specs.Starts.{HasStartBits};
ghost use Rattle.std.specs.Borrow.{sem};
ghost use Rattle.hive_cells.specs.Lending.{StaysAsLent};

use super::{Image, SIZE_BYTES};
use crate::starts::{begins_at, last_start};
use crate::tiling::{MARKED_BYTES, PAGE_BYTES, cell_size, is_allocated};

// how many slots of 8 bytes are in a page
const PAGE_SLOTS: usize = PAGE_BYTES / MARKED_BYTES;

impl Image {
    /// All bytes of the data, headers and free cells too, for whoever writes them to a file. It takes `&mut self`, so
    /// that nobody who borrows the image sees a cell's data without a look. The image stays as it is.
    pub fn bytes(&mut self) -> &[u8]
        ensures* stays { sem 𝓛 (StaysAsLent self.entry) }
        ensures all { result.now ≡ self.old.bytes }
    {
        &self.bytes
    }

    // whether an allocated cell begins at an offset.
    pub(super) fn is_allocated(&self, at: usize) -> bool
        ensures found { IsTrue result ↔ IsAllocatedCell self.now.bytes at }
        ensures whole { IsTrue result → IsWholeCell self.now.bytes at }
    {
        self.is_cell(at) && is_allocated(&self.bytes, at)
    }

    // whether a free cell begins at an offset.
    pub(super) fn is_free(&self, at: usize) -> bool
        ensures found { IsTrue result ↔ IsFreeCell self.now.bytes at }
        ensures whole { IsTrue result → IsWholeCell self.now.bytes at }
    {
        self.is_cell(at) && !is_allocated(&self.bytes, at)
    }

    // whether a cell begins at an offset
    fn is_cell(&self, at: usize) -> bool
        ensures found { IsTrue result ↔ BeginsCell self.now.bytes at }
        ensures whole { IsTrue result → IsWholeCell self.now.bytes at }
    {
        at % MARKED_BYTES == 0 && begins_at(&self.starts, at / MARKED_BYTES)
    }

    // the size of the cell that begins at an offset.
    pub(super) fn size_at(&self, at: usize) -> usize
        requires { BeginsCell self.now.bytes at }
        ensures size { result ≡ cell_size self.now.bytes at }
        ensures whole { IsWholeCell self.now.bytes at }
    {
        cell_size(&self.bytes, at)
    }

    // the data of the cell that begins at an offset.
    pub(super) fn data_at(&self, at: usize) -> &[u8]
        requires { BeginsCell self.now.bytes at }
        ensures encoding { result.now ≡ cell_data self.now.bytes at }
        ensures size { length result.now + 4 ≡ cell_size self.now.bytes at }
    {
        let bytes = self.bytes.as_slice();
        &bytes[at + SIZE_BYTES..at + self.size_at(at)]
    }

    // the offset of the free cell that ends at an offset, if there is one.
    pub(super) fn free_before(&self, at: usize) -> Option<usize>
        requires { BeginsCell self.now.bytes at }
        ensures { MatchOption result
            ((from : ℕ) → IsFreeCell self.now.bytes from →
            from + cell_size self.now.bytes from ≢ at)
            (λ from. IsFreeCell self.now.bytes from × (from + cell_size self.now.bytes from ≡ at)
            × ((other : ℕ) → IsFreeCell self.now.bytes other →
            other + cell_size self.now.bytes other ≡ at → from ≡ other)) }
    {
        let slot = last_start(&self.starts, 0, at / MARKED_BYTES)?;
        let from = MARKED_BYTES * slot;
        if self.is_free(from) && from + self.size_at(from) == at {
            Some(from)
        } else {
            None
        }
    }

    // a free cell of at least a size, or none if there is none; bounds that are too great are made exact on the way
    pub(super) fn find_free(&mut self, size: usize) -> Option<usize>
        requires { 0 < size }
        ensures same { self.new ≡ self.old }
        ensures found { MatchOption result (¬ HasFree self.old.bytes size)
            (λ at. IsFreeCell self.old.bytes at × (size ≤ cell_size self.old.bytes at)) }
    {
        let pages = self.bytes.len() / PAGE_BYTES;
        let mut from = 0;
        while let Some(page) = self.free.next_page(from, pages, size) {
            match free_in_page(&self.bytes, &self.starts, page, size) {
                Ok(at) => return Some(at),
                Err(most) => self.free.put(page, most),
            }
            from = page + 1;
        }
        None
    }
}

// a free cell of at least a size that begins in a page, or the greatest size of those that do
fn free_in_page(bytes: &[u8], starts: &[u64], page: usize, size: usize) -> Result<usize, u32>
    requires kept { HasStartBits bytes.now starts.now }
    requires page { 4096 * page + 4096 ≤ length bytes.now }
    requires some { 0 < size }
    ensures { MatchResult result
        (λ at. IsFreeCell bytes.now at × (size ≤ cell_size bytes.now at))
        (λ most. (most < size) × ((at : ℕ) → IsFreeCell bytes.now at → at / 4096 ≡ page →
        cell_size bytes.now at ≤ most)) }
{
    let first = PAGE_SLOTS * page;
    let mut most = 0u32;
    let mut end = first + PAGE_SLOTS;
    while let Some(slot) = last_start(starts, first, end) {
        let at = MARKED_BYTES * slot;
        if !is_allocated(bytes, at) {
            let has = cell_size(bytes, at);
            if size <= has {
                return Ok(at);
            }
            most = most.max(has as u32);
        }
        end = slot;
    }
    Err(most)
}
