//! Repairing the bins data of a primary file from a log.

ghost use Rattle.std.specs.Prelude.{◌≡◌, ◌≤◌, ◌+◌, ◌*◌, ◌/◌, ◌%◌, ◌==◌, ◌↔◌, ℕ, if◌then◌else◌, IsTrue, IfErr, OnOk, OnErr, take, drop, length, slice_index, vec_len};
ghost use Rattle.refusals.specs.Answers.{RefusedFor};
ghost use Rattle.dirty_vector.specs.Pages.{dirty_count};
ghost use Rattle.dirt_log.specs.WholeLog.{not_whole, IsCovered, repaired};

use crate::pages::page_bytes;
use crate::reader::DirtLog;
use dirty_vector::{DirtyVector, PAGE_BYTES};
use refusals::{Cause, Refusal};

impl DirtLog<'_> {
    /// Repairs the bins data of the primary file that the log belongs to. Cuts or lengthens them to
    /// the log's bins size and replaces each page that the log marks. Refused with `HiveDamaged` of
    /// hive 0 and the cause `BadLog` if a page is neither marked nor in the bins data whole.
    /// Otherwise refused only for want of memory. A refusal leaves the bins data as before.
    pub fn apply_to(&self, image: &mut Vec<u8>) -> Result<(), Refusal>
        ensures covered { OnOk result (IsCovered (length image.old.items) self.now.vector) }
        ensures ok { OnOk result (image.new.items
            ≡ repaired image.old.items self.now.vector self.now.pages.now) }
        ensures refused { IfErr result (RefusedFor not_whole
            (¬ IsCovered (length image.old.items) self.now.vector)) }
        ensures err { OnErr result (image.new.items ≡ image.old.items) }
    {
        if !covers(&self.vector, image.len()) {
            return Err(Refusal::from(Cause::BadLog));
        }
        image.resize(self.vector.bins_size(), 0)?;
        put_logged(&self.vector, self.pages, image);
        Ok(())
    }
}

// whether each page is dirty or lies in the first bytes whole
fn covers(vector: &DirtyVector, len: usize) -> bool
    ensures { IsTrue result ↔ IsCovered len vector.now }
{
    let first = len / PAGE_BYTES;
    let pages = vector.bins_size() / PAGE_BYTES;
    if first >= pages {
        return true;
    }
    match vector.next_run(first) {
        None => false,
        Some(run) => run.start == first && run.end == pages,
    }
}

// replaces each dirty page of an image
fn put_logged(vector: &DirtyVector, pages: &[u8], image: &mut [u8])
    requires sizes { length image.old ≡ vector.now.bins_size }
    requires enough { 512 * dirty_count vector.now ≤ length pages.now }
    ensures { image.new ≡ repaired image.old vector.now pages.now }
{
    let mut page = 0;
    let mut index = 0;
    'pages: loop {
        match vector.next_dirty(page) {
            None => return,
            Some(next) => {
                put_page(image, next, page_bytes(pages, index));
                index += 1;
                page = next + 1;
            }
        }
    }
}

// replaces a page of an image
fn put_page(image: &mut [u8], page: usize, bytes: &[u8])
    requires whole { length bytes.now ≡ 512 }
    requires inside { 512 * (page + 1) ≤ length image.old }
    ensures { (i : ℕ) → slice_index image.new i
        ≡ (if i / 512 == page then slice_index bytes.now (i % 512) else slice_index image.old i) }
{
    image[PAGE_BYTES * page..PAGE_BYTES * (page + 1)].copy_from_slice(bytes);
}
