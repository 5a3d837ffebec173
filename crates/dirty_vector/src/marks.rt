//! Marks of pages in words of 64 bits: the mark of a page is bit `page % 64` of word `page / 64`.

ghost use Rattle.std.specs.Prelude.{◌≡◌, ℕ, ◌+◌, ◌*◌, ◌/◌, ◌<◌, ◌≤◌, ◌^◌, ◌||◌, ◌&&◌, nat_le, not, true, length, MatchOption};
ghost use Rattle.dirty_vector.specs.Marks.{is_marked, marked_count, IsMask, IsFirstBit, IsNthMark};

/// Bits in a word.
pub(crate) const WORD_BITS: usize = 64;

/// Whether a page is marked.
pub(crate) fn is_page_marked(words: &[u64], page: usize) -> bool
    requires { page < 64 * length words.now }
    ensures { result ≡ is_marked words.now page }
{
    (words[page / WORD_BITS] >> (page % WORD_BITS)) & 1 == 1
}

/// Marks the pages from `first` to `last`, a word at a time.
pub(crate) fn mark_pages(words: &mut [u64], first: usize, last: usize)
    requires some { first ≤ last }
    requires inside { last < 64 * length words.old }
    ensures { (page : ℕ) → is_marked words.new page
        ≡ (is_marked words.old page || (nat_le first page && nat_le page last)) }
{
    for index in first / WORD_BITS..last / WORD_BITS + 1 {
        let low = first.saturating_sub(WORD_BITS * index);
        let high = (last - WORD_BITS * index).min(WORD_BITS - 1);
        words[index] |= mask(low, high);
    }
}

/// How many pages are marked, counted a word at a time.
pub(crate) fn count_marks(words: &[u64]) -> usize
    requires { length words.now < 2 ^ 32 }
    ensures { result ≡ marked_count (is_marked words.now) (64 * length words.now) }
{
    let mut count = 0;
    for word in words {
        count += word.count_ones() as usize;
    }
    count
}

// The word with just the bits from `low` to `high`.
fn mask(low: usize, high: usize) -> u64
    requires some { low ≤ high }
    requires inside { high < 64 }
    ensures { IsMask result low high }
{
    (u64::MAX << low) & (u64::MAX >> (WORD_BITS - 1 - high))
}

/// The first page from `from` on and below `end` whose mark is `marked`, found a word at a time;
/// `end` if there is none.
pub(crate) fn first_page(words: &[u64], marked: bool, from: usize, end: usize) -> usize
    requires order { from ≤ end }
    requires inside { end ≤ 64 * length words.now }
    requires few { length words.now < 2 ^ 32 }
    ensures after { from ≤ result }
    ensures within { result ≤ end }
    ensures before { (page : ℕ) → from ≤ page → page < result →
        is_marked words.now page ≡ not marked }
    ensures here { result < end → is_marked words.now result ≡ marked }
{
    let mut page = from;
    while page < end {
        let start = page - page % WORD_BITS;
        let bit = first_bit(words[page / WORD_BITS], marked, page % WORD_BITS);
        if bit < WORD_BITS {
            return (start + bit).min(end);
        }
        page = start + WORD_BITS;
    }
    end
}

/// The marked page with `index` marked pages before it, or none. Words are passed whole.
pub(crate) fn nth_mark(words: &[u64], index: usize) -> Option<usize>
    requires { length words.now < 2 ^ 32 }
    ensures { MatchOption result (marked_count (is_marked words.now)
        (64 * length words.now) ≤ index) (IsNthMark words.now index) }
{
    let (start, mut left) = skip_words(words, index);
    for page in start..WORD_BITS * words.len() {
        if is_page_marked(words, page) {
            if left == 0 {
                return Some(page);
            }
            left -= 1;
        }
    }
    None
}

// Passes whole words with at most `index` marks together: the first page after them, and how many
// marks are left to pass.
fn skip_words(words: &[u64], index: usize) -> (usize, usize)
    requires { length words.now < 2 ^ 32 }
    ensures within { result.0 ≤ 64 * length words.now }
    ensures left { marked_count (is_marked words.now) result.0 + result.1 ≡ index }
{
    let mut left = index;
    for (place, word) in words.iter().enumerate() {
        let ones = word.count_ones() as usize;
        if left < ones {
            return (WORD_BITS * place, left);
        }
        left -= ones;
    }
    (WORD_BITS * words.len(), left)
}

// The first bit of a word from `low` on that is set, or that is not set if `marked` is false; 64 if
// there is none.
fn first_bit(word: u64, marked: bool, low: usize) -> usize
    requires { low < 64 }
    ensures { IsFirstBit word marked low result }
{
    if marked {
        first_one(word, low)
    } else {
        first_one(!word, low)
    }
}

// the first bit of a word from `low` on that is set, or 64
fn first_one(word: u64, low: usize) -> usize
    requires { low < 64 }
    ensures { IsFirstBit word true low result }
{
    let rest = word >> low;
    if rest == 0 {
        WORD_BITS
    } else {
        low + rest.trailing_zeros() as usize
    }
}
