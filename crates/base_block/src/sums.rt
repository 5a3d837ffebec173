//! The sum that a base block ends with.

ghost use Rattle.std.specs.Prelude.{◌≡◌, ◌≤◌, ℕ, List, take, fold, bit_xor, length};
ghost use Rattle.base_block.specs.Sums.{sum_of, xor_of_words, stored_sum, words};

use byteorder::{ByteOrder, LittleEndian};

// words of 32 bits that are summed
const WORDS: usize = 127;

const _: () = prove!(WORDS == 127);

/// The sum of the first 508 bytes of a base block: the XOR of their 127 little-endian words. There
/// are two exceptions: 0xffff_fffe for 0xffff_ffff, and 1 for 0.
pub fn sum(bytes: &[u8; 508]) -> u32
    ensures { result ≡ sum_of bytes.now }
{
    sum_of_prefix(bytes)
}

#[tactic(auto, unfolding(crate::specs::Sums::sum_of))]
/// A law: the sum is the XOR of the words that the first 508 bytes make, one after the other, as it is
/// stored.
pub fn sum_is_of_words()
    ensures { (sector : List ℕ) → 508 ≤ length sector →
        sum_of sector ≡ stored_sum (fold bit_xor 0 (words (take 508 sector))) }
{}

/// The same of the first 508 bytes of a sector.
pub(crate) fn sum_of_prefix(bytes: &[u8]) -> u32
    requires { 508 ≤ length bytes.now }
    ensures { result ≡ sum_of bytes.now }
{
    let mut xor = 0;
    for i in 0..WORDS {
        xor ^= LittleEndian::read_u32(&bytes[4 * i..]);
    }
    stored(xor)
}

// The XOR as it is stored: neither all ones nor 0.
fn stored(xor: u32) -> u32
    ensures { result ≡ stored_sum xor }
{
    match xor {
        0xffff_ffff => 0xffff_fffe,
        0 => 1,
        _ => xor,
    }
}
