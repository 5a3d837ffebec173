//! The base block: the first sector of a hive's primary file and of its log (regf format, base block).
//!
//! [`BaseBlock::read`] gives the fields of any 512 bytes and judges nothing, since a block that is not
//! clean is neither judged nor used. [`BaseBlock::write`] gives the one sector of given fields: the fields
//! at their offsets, the right sum, and zeros elsewhere. A block that is used is judged by
//! [`BaseBlock::judge_primary`] or [`BaseBlock::judge_log`]. No call takes memory.
#![tactic(auto)]

mod block;
mod fields;
mod judgement;
mod sums;

pub use block::{BaseBlock, FILE_FORMAT, MAJOR_VERSION, MINOR_VERSION, OLDEST_MINOR_VERSION};
pub use fields::{AppliedNumber, FileType, SequenceNumber, Signature};
pub use sums::{sum, sum_is_of_words};
