//! The encoding of accepted changes in a journal.
//!
//! A change is a moment and operations; its encoding is one list of bytes, whose layout `specs/Encoding` gives. The law
//! of the encoding has two sides. What is written of a change that fits decodes to that change again, whatever follows
//! it. What is read is the encoding of a change that fits. So a change has one encoding and an encoding is one
//! change's. No encoding is the beginning of another. A journal may be written from left to right and read in the same
//! order after a crash.
//!
//! [`write`] and [`read`] do what the definitions say, for every change and for all bytes. Nothing is read of a device
//! here, and a reader sees all of the bytes at once: the journal reads in chunks.
#![tactic(auto)]

mod decoder;
mod encoded_change;
mod encoder;
mod fields;
mod hives;
pub mod laws;
mod one_hive;
mod skipper;

pub use decoder::read;
pub use encoded_change::EncodedChange;
pub use encoder::write;
pub use fields::{put_u8, put_u16, put_u32, put_u64};
pub use hives::Hives;
