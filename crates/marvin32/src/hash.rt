//! The hash of bytes.
ghost use Rattle.std.specs.Prelude.{◌≡◌, ◌<◌, length};
ghost use Rattle.marvin32.specs.Marvin32.{mixed, state_after, last_word_of, hash_of};

use byteorder::{ByteOrder, LittleEndian};

/// The hash of bytes, from the two halves of a seed on. The low half is first, in the seed and in the hash.
pub fn marvin32(seed: (u32, u32), bytes: &[u8]) -> (u32, u32)
    ensures { result ≡ hash_of seed bytes.now }
{
    let words = bytes.len() / 4;
    let mut state = seed;
    for i in 0..words {
        state = take_word(state, LittleEndian::read_u32(&bytes[4 * i..]));
    }
    let (low, high) = take_word(state, last_word(&bytes[4 * words..]));
    mix(low, high)
}

// the state after a word
fn take_word(state: (u32, u32), word: u32) -> (u32, u32)
    ensures { result ≡ state_after state word }
{
    mix(state.0.wrapping_add(word), state.1)
}

// the two halves of a state, mixed
#[tactic(auto, unfolding(crate::specs::Marvin32::mixed))]
fn mix(low: u32, high: u32) -> (u32, u32)
    ensures { result ≡ mixed low high }
{
    let crossed = high ^ low;
    let first = low.rotate_left(20).wrapping_add(crossed);
    let turned = crossed.rotate_left(9) ^ first;
    (
        first.rotate_left(27).wrapping_add(turned),
        turned.rotate_left(19),
    )
}

// the last word: the bytes that fill no word, and 0x80
fn last_word(rest: &[u8]) -> u32
    requires { length rest.now < 4 }
    ensures { result ≡ last_word_of rest.now }
{
    let mut bytes = [0; 4];
    bytes[..rest.len()].copy_from_slice(rest);
    bytes[rest.len()] = 0x80;
    LittleEndian::read_u32(&bytes)
}
