//! How long the free cells of each page are at most, so that one is found for an allocation without a walk over the
//! data.
//!
//! No free cell is longer than the bound of the page that it begins in. A bound may be too great, since an allocation
//! leaves it as it is. The search that meets such a bound makes it exact. A search looks at the bounds of groups of
//! pages, then at the bounds of one group's pages. Last it looks at the cells of a page whose bound is great enough.
ghost use Rattle.std.specs.Prelude.{◌≡◌, ◌≢◌, ℕ, ◌+◌, ◌*◌, ◌/◌, ◌^◌, ◌<◌, ◌≤◌, List, max, length, replicate, slice_set, slice_index, IfOk, MatchOption};
ghost use Rattle.hive_cells.specs.Starts.{AreGrouped, Raises, AllBelow, IsNextPage};

use crate::tiling::PAGE_BYTES;
use refusals::limits::MOST_BINS_BYTES;
use std::alloc::{AllocError, Global};
use std::marker::Model;

// how many pages are in a group
const GROUP: usize = 128;

// the pages of the largest data
const MOST_PAGES: usize = MOST_BINS_BYTES / PAGE_BYTES;

const _: () = prove!(GROUP == 128);

/// The bounds of the sizes of free cells, page by page. Contracts see the list of them.
#[derive(Drop)]
pub(crate) struct FreeBounds {
    pages: Vec<u32>,
    groups: Vec<u32>,
}

impl Model for FreeBounds {
    ghost Value = { List ℕ };

    ghost view = { λ bounds. bounds.pages.items };

    ghost invariant = { λ bounds. AreGrouped bounds.pages.items bounds.groups.items };
}

impl FreeBounds {
    /// Bounds of 0 for `count` pages, or for as many pages as the largest data have, if those are more.
    pub(crate) fn none(alloc: Global, count: usize) -> Result<FreeBounds, AllocError>
        ensures { IfOk result (λ bounds. bounds ≡ replicate (max count (MOST_BINS_BYTES / 4096)) 0) }
    {
        let count = count.max(MOST_PAGES);
        let pages = vec![in alloc; 0; count]?;
        let groups = vec![in alloc; 0; count.div_ceil(GROUP)]?;
        Ok(FreeBounds { pages, groups })
    }

    /// Puts all bounds to 0.
    pub(crate) fn clear(&mut self)
        ensures { self.new ≡ replicate (length self.old) 0 }
    {
        self.pages.fill(0);
        self.groups.fill(0);
    }

    /// Makes sure that the bound of its page is at least the size of a cell at an offset.
    pub(crate) fn note(&mut self, at: usize, size: usize)
        requires page { at / 4096 < length self.old }
        requires fits { size < 2 ^ 32 }
        ensures { Raises self.old self.new (at / 4096) size }
    {
        let page = at / PAGE_BYTES;
        let group = page / GROUP;
        let bound = size as u32;
        self.groups[group] = self.groups[group].max(bound);
        self.pages[page] = self.pages[page].max(bound);
    }

    /// Puts the bound of a page.
    pub(crate) fn put(&mut self, page: usize, size: u32)
        requires { page < length self.old }
        ensures { self.new ≡ slice_set self.old page size }
    {
        self.pages[page] = size;
        let first = page - page % GROUP;
        let end = (first + GROUP).min(self.pages.len());
        self.groups[page / GROUP] = greatest(&self.pages[first..end]);
    }

    /// The first page from one up to another that has a bound of at least a size.
    pub(crate) fn next_page(&self, from: usize, upto: usize, size: usize) -> Option<usize>
        requires { upto ≤ length self.now }
        ensures { MatchOption result (AllBelow self.now from upto size)
            (IsNextPage self.now from upto size) }
    {
        let mut page = from;
        while page < upto {
            if page % GROUP == 0 && (self.groups[page / GROUP] as usize) < size {
                page += GROUP;
            } else if size <= self.pages[page] as usize {
                return Some(page);
            } else {
                page += 1;
            }
        }
        None
    }
}

// the greatest of the bounds, or 0
fn greatest(bounds: &[u32]) -> u32
    ensures { (k : ℕ) → slice_index bounds.now k ≤ result }
{
    let mut most = 0u32;
    for bound in bounds {
        most = most.max(*bound);
    }
    most
}
