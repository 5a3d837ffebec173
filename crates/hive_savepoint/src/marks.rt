//! A bit for each page: the bit of a page is bit `page % 64` of word `page / 64`.
ghost use Rattle.std.specs.Prelude.{◌≡◌, ◌≢◌, ℕ, ◌*◌, ◌/◌, ◌<◌, true, false, length, slice_index};
ghost use Rattle.dirty_vector.specs.Marks.{is_marked};
ghost use Rattle.hive_cells.specs.Restores.{HasPage};

// bits in a word
const WORD_BITS: usize = 64;

const _: () = prove!(WORD_BITS == 64);

/// Whether the bit of a page is set.
pub(crate) fn is_marked(words: &[u64], page: usize) -> bool
    requires { page < 64 * length words.now }
    ensures { result ≡ is_marked words.now page }
{
    (words[page / WORD_BITS] >> (page % WORD_BITS)) & 1 == 1
}

/// Sets the bit of a page.
pub(crate) fn set_mark(words: &mut [u64], page: usize)
    requires { page < 64 * length words.old }
    ensures here { is_marked words.new page ≡ true }
    ensures others { (other : ℕ) → other ≢ page → is_marked words.new other ≡ is_marked words.old other }
{
    words[page / WORD_BITS] |= 1 << (page % WORD_BITS);
}

/// Clears all bits, given pages among which is each page whose bit is set.
pub(crate) fn clear_marks(words: &mut [u64], pages: &[u32])
    requires within { (k : ℕ) → k < length pages.now →
        slice_index pages.now k < 64 * length words.old }
    requires all { (page : ℕ) → is_marked words.old page ≡ true → HasPage pages.now page }
    ensures { (page : ℕ) → is_marked words.new page ≡ false }
{
    for index in 0..pages.len() {
        words[pages[index] as usize / WORD_BITS] = 0;
    }
}
