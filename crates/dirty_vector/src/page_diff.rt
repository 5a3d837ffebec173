//! The pages in which two images differ.
ghost use Rattle.std.specs.Prelude.{◌≡◌, ◌≤◌, ◌/◌, ◌<◌, ◌%◌, ◌+◌, ◌*◌, ℕ, true, false, length, take, drop, slice_index, IsTrue, ◌↔◌};
ghost use Rattle.dirty_vector.specs.Pages.{is_dirty, is_bins_size};
ghost use Rattle.dirty_vector.specs.Changes.{ChangesAreMarked};

use crate::vector::{DirtyVector, PAGE_BYTES};

/// Marks each page in which a new image differs from the old one, and each page past the old one's end; no mark goes.
/// Takes no memory. Each byte is looked at once.
pub fn mark_changes(pages: &mut DirtyVector, old: &[u8], new: &[u8])
    requires old_size { length old.now ≡ pages.old.bins_size }
    requires new_size { is_bins_size (length new.now) ≡ true }
    requires larger { length old.now ≤ length new.now }
    ensures size { pages.new.bins_size ≡ length new.now }
    ensures marks { ChangesAreMarked old.now pages.old new.now pages.new }
{
    // a law: bins data are whole pages
    let _ = pages.bins_size(); // for the prover
    pages.grow(new.len());
    mark_differing(pages, old, new);
}

// marks the pages of the old image in which the new one differs
fn mark_differing(pages: &mut DirtyVector, old: &[u8], new: &[u8])
    requires whole { length old.now % 512 ≡ 0 }
    requires larger { length old.now ≤ length new.now }
    requires size { pages.old.bins_size ≡ length new.now }
    ensures size { pages.new.bins_size ≡ pages.old.bins_size }
    ensures kept { (page : ℕ) → is_dirty pages.new page ≡ false → is_dirty pages.old page ≡ false }
    ensures same { (i : ℕ) → i < length old.now → is_dirty pages.new (i / 512) ≡ false →
        slice_index new.now i ≡ slice_index old.now i }
{
    let mut page = 0;
    'pages: while page < old.len() / PAGE_BYTES {
        mark_page(pages, old, new, page);
        page += 1;
    }
}

// marks a page if the images differ in it
fn mark_page(pages: &mut DirtyVector, old: &[u8], new: &[u8], page: usize)
    requires inside { 512 * (page + 1) ≤ length old.now }
    requires larger { length old.now ≤ length new.now }
    requires size { length new.now ≤ pages.old.bins_size }
    ensures size { pages.new.bins_size ≡ pages.old.bins_size }
    ensures kept { (other : ℕ) → is_dirty pages.new other ≡ false → is_dirty pages.old other ≡ false }
    ensures same { is_dirty pages.new page ≡ false →
        take 512 (drop (512 * page) new.now) ≡ take 512 (drop (512 * page) old.now) }
{
    let start = PAGE_BYTES * page;
    let end = start + PAGE_BYTES;
    if old[start..end] != new[start..end] {
        pages.mark(start..end);
    }
}
