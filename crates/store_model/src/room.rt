//! What changes take of the journal.

/// Bytes of an empty journal: its header and its first gate.
pub const JOURNAL_START: u64 = 65;

/// Bytes that the journal takes for a change beside its encoding.
pub const CHANGE_START: u64 = 17;

/// The most bytes that a commit adds to a change for its outcome: a value that is written, and one that is deleted.
pub const MOST_OUTCOME_BYTES: u64 = 100;

const _: () = prove!(JOURNAL_START == 65);

const _: () = prove!(CHANGE_START == 17);

const _: () = prove!(MOST_OUTCOME_BYTES == 100);
