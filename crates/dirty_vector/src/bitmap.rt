//! Marks of pages in a bitmap. The mark of a page is bit `page % 8` of byte `page / 8`, the least
//! significant bit of a byte first.

ghost use Rattle.std.specs.Prelude.{◌≡◌, ℕ, ◌*◌, ◌/◌, ◌%◌, ◌^◌, ◌<◌, ◌≤◌, length, replicate};
ghost use Rattle.dirty_vector.specs.Marks.{is_marked, is_marked_in_bitmap};
ghost use Rattle.dirty_vector.specs.Pages.{bitmap_of};

// bytes in a word
const WORD_BYTES: usize = 8;

/// Writes the marks of the first `8 * bitmap.len()` pages.
pub(crate) fn write_bitmap(words: &[u64], bitmap: &mut [u8])
    requires { length bitmap.old ≤ 8 * length words.now }
    ensures { bitmap.new ≡ bitmap_of (is_marked words.now) (length bitmap.old) }
{
    for index in 0..bitmap.len() {
        bitmap[index] = byte_of(words[index / WORD_BYTES], index % WORD_BYTES);
    }
}

/// Marks in words without a mark what a bitmap marks.
pub(crate) fn read_bitmap(bitmap: &[u8], words: &mut [u64])
    requires clean { words.old ≡ replicate (length words.old) 0 }
    requires room { length bitmap.now ≤ 8 * length words.old }
    ensures { (page : ℕ) → is_marked words.new page ≡ is_marked_in_bitmap bitmap.now page }
{
    for index in 0..bitmap.len() {
        words[index / WORD_BYTES] |= word_of(bitmap[index], index % WORD_BYTES);
    }
}

// a byte of a word, the lowest first
fn byte_of(word: u64, index: usize) -> u8
    requires { index < 8 }
    ensures { result ≡ word / 2 ^ (8 * index) % 256 }
{
    (word >> (8 * index) & 0xff) as u8
}

// the word with one byte, the lowest first
fn word_of(byte: u8, index: usize) -> u64
    requires { index < 8 }
    ensures { result ≡ byte * 2 ^ (8 * index) }
{
    u64::from(byte) << (8 * index)
}
