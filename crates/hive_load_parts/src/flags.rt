//! Flags in words of 64 bits: the flag of a slot is bit `slot % 64` of word `slot / 64`.
ghost use Rattle.std.specs.Prelude.{◌≡◌, ℕ, ◌<◌, ◌≤◌, true, false, length, IfOk, slice_index_or, slice_set};
ghost use Rattle.hive_load_parts.specs.Bits.{bit_of, bits_of};

use std::alloc::{AllocError, Global};
use std::marker::Model;

// bits in a word
const WORD_BITS: usize = 64;

/// Flags, one for each slot from 0 on, each of one bit. Contracts see the list of them.
#[derive(Drop)]
pub struct Flags {
    words: Vec<u64>,
}

impl Model for Flags {
    ghost use Rattle.std.specs.Prelude.{Bool, List};
    ghost use Rattle.std.specs.Coded.{coded_bool, coded_list};
    ghost use Rattle.hive_load_parts.specs.Bits.{bits_of};

    ghost Value = { List Bool };

    ghost coded = { coded_list coded_bool };

    ghost view = { λ flags. bits_of flags.words.items };
}

impl Flags {
    /// `count` flags or a few more, none of them set.
    pub fn new(alloc: Global, count: usize) -> Result<Flags, AllocError>
        ensures many { IfOk result (λ flags. count ≤ length flags) }
        ensures unset { IfOk result (λ flags. (slot : ℕ) → slice_index_or flags slot false ≡ false) }
    {
        let words = vec![in alloc; 0u64; count.div_ceil(WORD_BITS)]?;
        Ok(Flags { words })
    }

    /// Whether the flag of a slot is set; the flag of a slot past the last isn't.
    pub(crate) fn is_set(&self, slot: usize) -> bool
        ensures { result ≡ slice_index_or self.now slot false }
    {
        bit(&self.words, slot)
    }

    /// Sets the flag of a slot.
    pub(crate) fn set(&mut self, slot: usize)
        requires { slot < length self.old }
        ensures { self.new ≡ slice_set self.old slot true }
    {
        set_bit(&mut self.words, slot)
    }
}

// the bit of a slot
fn bit(words: &[u64], slot: usize) -> bool
    ensures { result ≡ bit_of words.now slot }
{
    match words.get(slot / WORD_BITS) {
        Some(word) => (word >> (slot % WORD_BITS)) & 1 == 1,
        None => false,
    }
}

// sets it
fn set_bit(words: &mut [u64], slot: usize)
    requires { slot < length (bits_of words.old) }
    ensures { bits_of words.new ≡ slice_set (bits_of words.old) slot true }
{
    words[slot / WORD_BITS] |= 1 << (slot % WORD_BITS);
}
