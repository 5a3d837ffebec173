//! Pages of 512 bytes that are saved before they are written.
ghost use Rattle.std.specs.Prelude.{◌≡◌, false, take, drop, ℕ, ◌+◌, ◌*◌, ◌/◌, ◌%◌, ◌^◌, ◌<◌, ◌≤◌, ◌++◌, ◌∷◌, [], ◌↔◌, ◌⊎◌, IsTrue, IfOk, IfErr, OnOk, OnErr, List, length, slice_range, slice_index};
ghost use Rattle.refusals.specs.declared.limits.TheConstants.{MOST_BINS_BYTES};
ghost use Rattle.refusals.specs.declared.refusal.Refusal.TheVariants.{NoMemory};
ghost use Rattle.dirty_vector.specs.Pages.{is_dirty};
ghost use Rattle.hive_cells.specs.Restores.{HasPage, IsSaved};
ghost use Rattle.hive_savepoint.specs.SavedPages.{SavedPages, saved_pages_code, no_pages, IsLog};

use crate::marks::{clear_marks, is_marked, set_mark};
use dirty_vector::{DirtyVector, PAGE_BYTES};
use refusals::Refusal;
use refusals::limits::MOST_BINS_BYTES;
use std::alloc::{AllocError, Global};
use std::marker::Model;

// words of 64 bits with a bit for each page of the largest data
const MOST_WORDS: usize = MOST_BINS_BYTES / PAGE_BYTES / 64;

/// The pages that were saved since a savepoint: their numbers in the order in which they were saved, and their bytes.
///
/// It keeps a bit for each page of the largest data, in 16 KiB that it takes when it is made. A saved page takes 516
/// bytes more.
#[derive(Drop)]
pub struct UndoLog {
    marks: Vec<u64>,
    order: Vec<u32>,
    saved: Vec<u8>,
}

impl Model for UndoLog {
    ghost Value = { SavedPages };

    ghost coded = { saved_pages_code };

    ghost view = { λ log. record { order = log.order.items; bytes = log.saved.items } };

    ghost invariant = { λ log. IsLog log.marks.items log.order.items log.saved.items };
}

impl UndoLog {
    /// A log without a page. Refused with `NoMemory` alone.
    pub fn new(alloc: Global) -> Result<UndoLog, Refusal>
        ensures ok { IfOk result (λ log. log ≡ no_pages) }
        ensures err { IfErr result (λ why. why ≡ NoMemory) }
    {
        let marks = vec![in alloc; 0; MOST_WORDS]?;
        Ok(UndoLog {
            marks,
            order: Vec::new(alloc),
            saved: Vec::new(alloc),
        })
    }

    /// Saves the pages that have a byte of a range and lie before `limit`, but for those that are saved already. After a
    /// refusal only some of them may be saved.
    pub(crate) fn save(
        &mut self,
        bytes: &[u8],
        limit: usize,
        from: usize,
        to: usize,
    ) -> Result<(), AllocError>
        requires within { limit ≤ length bytes.now }
        requires most { limit ≤ MOST_BINS_BYTES }
        requires pages { limit % 512 ≡ 0 }
        ensures sound { (old : List ℕ) → length old ≡ limit →
            IsSaved old bytes.now self.old.order self.old.bytes →
            IsSaved old bytes.now self.new.order self.new.bytes }
        ensures kept { (page : ℕ) → HasPage self.old.order page → HasPage self.new.order page }
        ensures saved { OnOk result ((i : ℕ) → from ≤ i → i < to → i < limit →
            HasPage self.new.order (i / 512)) }
    {
        let end = to.min(limit).div_ceil(PAGE_BYTES);
        for page in from / PAGE_BYTES..end {
            if !self.has(page) {
                self.push(bytes, page)?;
            }
        }
        Ok(())
    }

    // whether a page is saved
    fn has(&self, page: usize) -> bool
        requires { page < MOST_BINS_BYTES / 512 }
        ensures { IsTrue result ↔ HasPage self.now.order page }
    {
        is_marked(&self.marks, page)
    }

    // saves a page
    fn push(&mut self, bytes: &[u8], page: usize) -> Result<(), AllocError>
        requires most { page < MOST_BINS_BYTES / 512 }
        requires within { 512 * page + 512 ≤ length bytes.now }
        ensures order { OnOk result (self.new.order ≡ self.old.order ++ page ∷ []) }
        ensures bytes { OnOk result (self.new.bytes
            ≡ self.old.bytes ++ slice_range bytes.now (512 * page) (512 * page + 512)) }
        ensures err { OnErr result (self.new ≡ self.old) }
    {
        let from = PAGE_BYTES * page;
        self.order.reserve(1)?;
        self.saved
            .extend_from_slice(&bytes[from..from + PAGE_BYTES])?;
        self.order.push_reserved(page as u32);
        set_mark(&mut self.marks, page);
        Ok(())
    }

    /// The numbers of the pages, as they were saved.
    pub(crate) fn order(&self) -> &[u32]
        ensures { result.now ≡ self.now.order }
    {
        &self.order
    }

    /// The bytes of the pages, one page after another.
    pub(crate) fn saved(&self) -> &[u8]
        ensures { result.now ≡ self.now.bytes }
    {
        &self.saved
    }

    /// How many bytes of pages are saved.
    pub(crate) fn len(&self) -> usize
        ensures len { result ≡ length self.now.bytes }
        ensures small { result < 2 ^ 63 }
    {
        self.saved.len()
    }

    /// Lets go of all pages. Keeps the memory.
    pub(crate) fn clear(&mut self)
        ensures { self.new ≡ no_pages }
    {
        clear_marks(&mut self.marks, &self.order);
        self.order.clear();
        self.saved.clear();
    }

    /// Marks each saved page that has other bytes now, in a dirty vector.
    pub(crate) fn mark(&self, now: &[u8], pages: &mut DirtyVector)
        requires within { (k : ℕ) → k < length self.now.order →
            512 * slice_index self.now.order k + 512 ≤ length now.now }
        requires size { length now.now ≡ pages.old.bins_size }
        ensures size { pages.new.bins_size ≡ pages.old.bins_size }
        ensures kept { (page : ℕ) → is_dirty pages.new page ≡ false → is_dirty pages.old page ≡ false }
        ensures same { (k : ℕ) → k < length self.now.order →
            is_dirty pages.new (slice_index self.now.order k) ≡ false →
            take 512 (drop (512 * slice_index self.now.order k) now.now)
            ≡ take 512 (drop (512 * k) self.now.bytes) }
    {
        for index in 0..self.order.len() {
            mark_page(pages, now, self.order[index] as usize, &self.saved, index);
        }
    }
}

// marks a page if its bytes aren't those of a saved page, by its place among the saved ones
fn mark_page(pages: &mut DirtyVector, now: &[u8], page: usize, saved: &[u8], place: usize)
    requires inside { 512 * page + 512 ≤ length now.now }
    requires saved { 512 * place + 512 ≤ length saved.now }
    requires size { length now.now ≡ pages.old.bins_size }
    ensures size { pages.new.bins_size ≡ pages.old.bins_size }
    ensures kept { (other : ℕ) → is_dirty pages.new other ≡ false → is_dirty pages.old other ≡ false }
    ensures same { is_dirty pages.new page ≡ false →
        take 512 (drop (512 * page) now.now) ≡ take 512 (drop (512 * place) saved.now) }
{
    let from = PAGE_BYTES * page;
    let at = PAGE_BYTES * place;
    if now[from..from + PAGE_BYTES] != saved[at..at + PAGE_BYTES] {
        pages.mark(from..from + PAGE_BYTES);
    }
}
