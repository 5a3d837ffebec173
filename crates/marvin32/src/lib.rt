//! Marvin32, the hash that a transaction log of Windows 8.1 and later keeps of its entries.
//!
//! [`marvin32`] is keyed by a seed of two halves. The hash has two halves, too. No call takes memory.
#![tactic(auto)]

mod hash;

pub use hash::marvin32;
