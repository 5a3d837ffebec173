//! The set of dirty pages.

ghost use Rattle.std.specs.Prelude.{◌≡◌, ℕ, ◌/◌, ◌%◌, ◌≤◌, ◌↔◌, ◌⊎◌, true, false, IsTrue, IfOk, IfErr, MatchOption, length, Ok};
ghost use Rattle.std.specs.FinSet as set;
ghost use Rattle.refusals.specs.Answers.{IsOrNoMemory, RefusedFor};
ghost use Rattle.dirty_vector.specs.MarkWords.{IsBlank};
ghost use Rattle.dirty_vector.specs.Pages.{is_dirty, dirty_count, is_bins_size, Touches, NoneFrom, IsNextDirty, IsNthDirty, IsFirstRun, clean_pages, fresh_pages, read_pages, bitmap_of};

use crate::bitmap::{read_bitmap, write_bitmap};
use crate::marks::{WORD_BITS, count_marks, first_page, is_page_marked, mark_pages, nth_mark};
use refusals::Refusal;
use refusals::limits::MOST_BINS_BYTES;
use std::alloc::Global;
use std::marker::Model;
use std::ops::Range;

/// Bytes in a page.
pub const PAGE_BYTES: usize = 512;

// bins data come in bins of this many bytes, or of multiples of it
const BIN_BYTES: usize = 4096;

// words with a bit for each page of the largest bins data
const MOST_WORDS: usize = MOST_BINS_BYTES / PAGE_BYTES / WORD_BITS;

const _: () = prove!(PAGE_BYTES == 512);

const _: () = prove!(BIN_BYTES == 4096);

/// The set of the dirty pages of hive bins data of one size.
///
/// It is made with words for the largest bins data, 16,384 bytes of them, so that it grows without
/// memory.
#[derive(Drop)]
pub struct DirtyVector {
    bins_size: usize,
    words: Vec<u64>,
}

impl Model for DirtyVector {
    ghost use Rattle.dirty_vector.specs.Pages.{Pages, pages_code};

    ghost Value = { Pages };

    ghost coded = { pages_code };

    ghost use Rattle.dirty_vector.specs.MarkWords.{pages_of, AreMarkWords};

    ghost view = { λ a. pages_of a.bins_size a.words.items };

    ghost invariant = { λ a. AreMarkWords a.bins_size a.words.items };
}

impl DirtyVector {
    /// A vector of bins data of a size, with no dirty page. Refused with `TooLarge` if the size
    /// isn't a multiple of 4,096 from 4,096 to the limit. Otherwise refused only for want of
    /// memory.
    pub fn new(alloc: Global, bins_size: usize) -> Result<DirtyVector, Refusal>
        ensures { IsOrNoMemory result (fresh_pages bins_size) }
    {
        let words = blank_words(alloc, bins_size)?;
        Ok(DirtyVector { bins_size, words })
    }

    /// The size of the bins data in bytes.
    pub fn bins_size(&self) -> usize
        ensures value { result ≡ self.now.bins_size }
        ensures whole { result % 4096 ≡ 0 }
        ensures least { 4096 ≤ result }
        ensures most { result ≤ MOST_BINS_BYTES }
    {
        self.bins_size
    }

    /// Whether a page is dirty. A page past the bins data isn't.
    pub fn is_dirty(&self, page: usize) -> bool
        ensures { result ≡ is_dirty self.now page }
    {
        page < self.bins_size / PAGE_BYTES && is_page_marked(&self.words, page)
    }

    /// Marks each page that has a byte of the range, which is counted in bytes from the start of
    /// the bins data. An empty range marks none.
    pub fn mark(&mut self, range: Range<usize>)
        requires { range.end ≤ self.old.bins_size }
        ensures size { self.new.bins_size ≡ self.old.bins_size }
        ensures pages { (page : ℕ) → IsTrue (is_dirty self.new page) ↔
            (IsTrue (is_dirty self.old page) ⊎ Touches range.start range.end page) }
    {
        if range.start < range.end {
            mark_pages(
                &mut self.words,
                range.start / PAGE_BYTES,
                (range.end - 1) / PAGE_BYTES,
            );
        }
    }

    /// Clears all marks. Takes no memory.
    pub fn clear(&mut self)
        ensures { self.new ≡ clean_pages self.old.bins_size }
    {
        self.words.fill(0);
    }

    /// Makes this a vector of larger bins data. The pages that are dirty stay so, and each page
    /// that has a byte past the old size is dirty too. Takes no memory.
    pub fn grow(&mut self, bins_size: usize)
        requires size { is_bins_size bins_size ≡ true }
        requires larger { self.old.bins_size ≤ bins_size }
        ensures size { self.new.bins_size ≡ bins_size }
        ensures pages { (page : ℕ) → IsTrue (is_dirty self.new page) ↔
            (IsTrue (is_dirty self.old page) ⊎ Touches self.old.bins_size bins_size page) }
    {
        let old_size = self.bins_size;
        self.bins_size = bins_size;
        self.mark(old_size..bins_size);
    }

    /// How many pages are dirty.
    pub fn count(&self) -> usize
        ensures set { result ≡ set.len self.now.dirty }
        ensures pages { result ≡ dirty_count self.now }
    {
        count_marks(&self.words)
    }

    /// The first dirty page from a page on, or none.
    pub fn next_dirty(&self, from: usize) -> Option<usize>
        ensures { MatchOption result (NoneFrom self.now from) (IsNextDirty self.now from) }
    {
        let pages = self.bins_size / PAGE_BYTES;
        if from >= pages {
            return None;
        }
        let words = self.words.as_slice();
        let page = first_page(words, true, from, pages);
        if page < pages { Some(page) } else { None }
    }

    /// The dirty page with `index` dirty pages before it, found a word at a time; none if there are
    /// no more than `index` dirty pages.
    pub fn nth_dirty(&self, index: usize) -> Option<usize>
        ensures { MatchOption result (dirty_count self.now ≤ index) (IsNthDirty self.now index) }
    {
        let words = self.words.as_slice();
        nth_mark(words, index)
    }

    /// The first run of adjacent dirty pages from a page on, as long as possible; none if no page
    /// from there on is dirty.
    pub fn next_run(&self, from: usize) -> Option<Range<usize>>
        ensures { MatchOption result (NoneFrom self.now from)
            (λ run. IsFirstRun self.now from run.start run.end) }
    {
        let pages = self.bins_size / PAGE_BYTES;
        if from >= pages {
            return None;
        }
        let words = self.words.as_slice();
        let start = first_page(words, true, from, pages);
        if start == pages {
            return None;
        }
        let end = first_page(words, false, start, pages);
        Some(start..end)
    }

    /// Writes the bitmap: a bit for each page, the least significant bit of the first byte first, 1 for a
    /// dirty page. It has a byte for each 4,096 bytes of bins data.
    pub fn write(&self, bitmap: &mut [u8])
        requires { length bitmap.old ≡ self.now.bins_size / 4096 }
        ensures { bitmap.new ≡ bitmap_of (is_dirty self.now) (self.now.bins_size / 4096) }
    {
        write_bitmap(&self.words, bitmap);
    }

    /// A law: the bitmap of a vector reads as the vector.
    pub fn bitmap_round_trip(&self)
        ensures { read_pages self.now.bins_size
            (bitmap_of (is_dirty self.now) (self.now.bins_size / 4096)) ≡ Ok self.now }
    {
        // the law follows from what every vector keeps
        let _size = self.bins_size; // for the prover
    }

    /// The vector of bins data of a size whose bitmap this is. Refused as [`DirtyVector::new`] is.
    pub fn read(alloc: Global, bins_size: usize, bitmap: &[u8]) -> Result<DirtyVector, Refusal>
        requires { length bitmap.now ≡ bins_size / 4096 }
        ensures { IsOrNoMemory result (read_pages bins_size bitmap.now) }
    {
        let mut words = blank_words(alloc, bins_size)?;
        read_bitmap(bitmap, &mut words);
        Ok(DirtyVector { bins_size, words })
    }
}

// Words without a mark, with a bit for each page of the largest bins data, if this is a size of
// bins data.
fn blank_words(alloc: Global, bins_size: usize) -> Result<Vec<u64>, Refusal>
    ensures ok { IfOk result (λ words. IsBlank bins_size words.items) }
    ensures refused { IfErr result (RefusedFor Refusal.TooLarge (is_bins_size bins_size ≡ false)) }
{
    if !bins_size.is_multiple_of(BIN_BYTES)
        || bins_size < BIN_BYTES
        || bins_size > MOST_BINS_BYTES
    {
        return Err(Refusal::TooLarge);
    }
    Ok(vec![in alloc; 0; MOST_WORDS]?)
}
