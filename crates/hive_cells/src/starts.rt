//! Where cells begin in hive bins data: a bit for each 8 bytes. The bit of the k-th 8 bytes is bit `k % 64` of word
//! `k / 64`.
ghost use Rattle.std.specs.Prelude.{◌≡◌, ℕ, ◌+◌, ◌*◌, ◌<◌, ◌≤◌, length, MatchOption};
ghost use Rattle.hive_cells.specs.Starts.{is_start, NoStart, IsLastStart, SetsStartBit, NoBit, IsLastBit};

// bits in a word
const WORD_BITS: usize = 64;

/// Whether a cell begins at the 8 bytes of a slot.
pub(crate) fn begins_at(starts: &[u64], slot: usize) -> bool
    ensures { result ≡ is_start starts.now slot }
{
    match starts.get(slot / WORD_BITS) {
        Some(word) => (word >> (slot % WORD_BITS)) & 1 == 1,
        None => false,
    }
}

/// Puts whether a cell begins at the 8 bytes of a slot.
pub(crate) fn set_start_bit(starts: &mut [u64], slot: usize, begins: bool)
    requires { slot < 64 * length starts.old }
    ensures { SetsStartBit starts.old starts.new slot begins }
{
    let bit = 1 << (slot % WORD_BITS);
    if begins {
        starts[slot / WORD_BITS] |= bit;
    } else {
        starts[slot / WORD_BITS] &= !bit;
    }
}

/// The last slot from `low` up to `high`, `high` left out, at which a cell begins, found a word at a time.
pub(crate) fn last_start(starts: &[u64], low: usize, high: usize) -> Option<usize>
    requires { high ≤ 64 * length starts.now }
    ensures { MatchOption result (NoStart starts.now low high) (IsLastStart starts.now low high) }
{
    let mut end = high;
    while low < end {
        let last = end - 1;
        let first = last - last % WORD_BITS;
        if let Some(bit) = last_bit(starts[last / WORD_BITS], last % WORD_BITS) {
            let slot = first + bit;
            return if low <= slot { Some(slot) } else { None };
        }
        end = first;
    }
    None
}

// the last bit of a word that is set, up to `last`
fn last_bit(word: u64, last: usize) -> Option<usize>
    requires { last < 64 }
    ensures { MatchOption result (NoBit word last) (IsLastBit word last) }
{
    let rest = word & (u64::MAX >> (WORD_BITS - 1 - last));
    let bit = rest.checked_ilog2()?;
    Some(bit as usize)
}
