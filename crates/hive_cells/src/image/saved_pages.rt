//! Pages that were saved before they were written, by which data are put back as they were.
ghost use Rattle.std.specs.Prelude.{◌≡◌, ◌≤◌, ◌<◌, ◌+◌, ◌*◌, ◌⊎◌, ℕ, List, length, slice_index};
ghost use Rattle.hive_cells.specs.Tiles.{Tiles};
ghost use Rattle.hive_cells.specs.Restores.{IsSaved, Restores};

use super::Image;
use crate::tiling::{WORD_BYTES, index_again};

// the bytes of a page that is saved
const SAVED_BYTES: usize = 512;

const _: () = prove!(SAVED_BYTES == 512);

impl Image {
    /// Puts back pages of 512 bytes that were saved before they were written, one after another as `order` names them,
    /// and cuts the data to a length. Finds the cells anew. The caller makes sure that there are older data of that
    /// length, which bins and cells tile, and of which each page is saved or was not written. Takes no memory.
    pub fn restore(&mut self, len: usize, order: &[u32], saved: &[u8])
        requires { (old : List ℕ) × Restores old self.old.bytes order.now saved.now len }
        ensures bytes { (old : List ℕ) → Restores old self.old.bytes order.now saved.now len →
            self.new.bytes ≡ old }
        ensures spare { self.new.spare ≡ self.old.spare }
    {
        put_pages(&mut self.bytes, order, saved);
        self.bytes.truncate(len);
        self.starts.truncate(len / WORD_BYTES);
        match index_again(&self.bytes, &mut self.starts, &mut self.free) {
            Ok(()) => {}
            Err(_) => unreachable!(),
        }
    }
}

// writes a page
fn put_page(bytes: &mut [u8], page: usize, source: &[u8])
    requires inside { 512 * page + 512 ≤ length bytes.old }
    requires whole { length source.now ≡ 512 }
    ensures len { length bytes.new ≡ length bytes.old }
    ensures its { (j : ℕ) → j < 512 →
        slice_index bytes.new (512 * page + j) ≡ slice_index source.now j }
    ensures others { (i : ℕ) → ((i < 512 * page) ⊎ (512 * page + 512 ≤ i)) →
        slice_index bytes.new i ≡ slice_index bytes.old i }
{
    let from = SAVED_BYTES * page;
    bytes[from..from + SAVED_BYTES].copy_from_slice(source);
}

// puts saved pages back
fn put_pages(bytes: &mut [u8], order: &[u32], saved: &[u8])
    requires sizes { length saved.now ≡ 512 * length order.now }
    requires inside { (k : ℕ) → k < length order.now →
        512 * slice_index order.now k + 512 ≤ length bytes.old }
    ensures len { length bytes.new ≡ length bytes.old }
    ensures back { (old : List ℕ) → IsSaved old bytes.old order.now saved.now → (i : ℕ) →
        i < length old → slice_index bytes.new i ≡ slice_index old i }
{
    for index in 0..order.len() {
        let from = SAVED_BYTES * index;
        put_page(
            bytes,
            order[index] as usize,
            &saved[from..from + SAVED_BYTES],
        );
    }
}
