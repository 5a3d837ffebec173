//! Why there is no entry.
use base_block::SequenceNumber;

/// Why no entry stands at a place of a log: the first of these that is wrong, in this order.
#[derive(Clone, Copy, PartialEq, Eq)]
pub enum EntryEnd {
    /// The letters `HvLE` aren't there.
    NoLetters,
    /// The size is 0, or no multiple of 512.
    WrongSize,
    /// The log ends before the size does, or before the entry does.
    Cut,
    /// The second hash isn't that of the first 32 bytes.
    WrongSecondHash,
    /// The first hash isn't that of the bytes from 40 on.
    WrongFirstHash,
    /// The size of the bins data is 0, or no multiple of 4,096.
    WrongBinsSize,
    /// A page isn't within the bins data, or its bytes aren't within the entry, or one is no multiple of 512.
    WrongPage,
}

/// Why the entries of a log end where they do.
#[derive(Clone, Copy, PartialEq, Eq)]
pub enum LogEnd {
    /// No entry stands there.
    NoEntry(EntryEnd),
    /// An entry stands there that was written in an older round: its number doesn't follow that of the one before.
    OutOfTurn {
        /// Its number.
        found: SequenceNumber,
        /// The number of the entry before.
        before: SequenceNumber,
    },
}
