//! How logs ended, for people.
ghost use Rattle.std.specs.Prelude.{◌≡◌, Some};
ghost use Rattle.hive_recovery.specs.Endings.{ending_of, ending_text, fault_text, numbers_of};
ghost use Rattle.hive_recovery.specs.Sequences.{entries_of};

use crate::log::{Log, LogHead};
use crate::sequence::last_of;
use base_block::{FileType, SequenceNumber};
use hive_log_entries::{EntryEnd, LogEnd, LogEntry};
use std::fmt;

/// How a log ended. Each variant is a line of a report.
#[derive(Clone, Copy)]
pub enum LogEnding {
    /// The log has no bytes, or its first sector is zeros.
    Empty,
    /// It doesn't begin with `regf`.
    NoLogLetters,
    /// The sum of its first sector is wrong.
    NoLogSum,
    /// It is a log of another type.
    NoLogType(FileType),
    /// It is of a version or a format that isn't read.
    NoLogVersion,
    /// No entry stands at a place.
    NoEntry {
        /// The first test that fails there.
        why: EntryEnd,
        /// The place.
        at: usize,
    },
    /// The entry at a place is out of turn.
    OutOfTurn {
        /// Its number.
        found: SequenceNumber,
        /// The number of the entry before.
        before: SequenceNumber,
        /// The place.
        at: usize,
    },
}

/// The numbers of entries, one after the other.
#[derive(Clone, Copy)]
pub struct EntryNumbers {
    /// That of the first.
    pub first: SequenceNumber,
    /// That of the last.
    pub last: SequenceNumber,
}

impl Log<'_> {
    /// The numbers of its entries; none if it has no entry.
    pub fn numbers(&self) -> Option<EntryNumbers>
        ensures { result ≡ numbers_of (entries_of self.now) }
    {
        numbers_in(&self.entries)
    }

    /// How the log ended.
    pub fn ending(&self) -> LogEnding
        ensures { result ≡ ending_of self.now.head self.now.ended_at self.now.end }
    {
        let at = self.ended_at;
        match self.head {
            LogHead::Empty => LogEnding::Empty,
            LogHead::NoLetters => LogEnding::NoLogLetters,
            LogHead::WrongSum => LogEnding::NoLogSum,
            LogHead::OtherType(kind) => LogEnding::NoLogType(kind),
            LogHead::OtherVersion => LogEnding::NoLogVersion,
            LogHead::Entries => match self.end {
                LogEnd::NoEntry(why) => LogEnding::NoEntry { why, at },
                LogEnd::OutOfTurn { found, before } => LogEnding::OutOfTurn { found, before, at },
            },
        }
    }
}

// the numbers of entries
fn numbers_in(entries: &[LogEntry<'_>]) -> Option<EntryNumbers>
    ensures { result ≡ numbers_of entries.now }
{
    if entries.is_empty() {
        return None;
    }
    Some(EntryNumbers {
        first: entries[0].number(),
        last: last_of(entries).number(),
    })
}

// what is said of the first test that fails
fn text_of(why: EntryEnd) -> &'static str
    ensures { result.now ≡ fault_text why }
{
    match why {
        EntryEnd::NoLetters => "no letters",
        EntryEnd::WrongSize => "wrong size",
        EntryEnd::Cut => "is cut",
        EntryEnd::WrongSecondHash => "hash-2 is wrong",
        EntryEnd::WrongFirstHash => "hash-1 is wrong",
        EntryEnd::WrongBinsSize => "wrong bins size",
        EntryEnd::WrongPage => "wrong page",
    }
}

impl fmt::Display for LogEnding {
    ghost output = { λ ending. Some (ending_text ending) };

    fn fmt<W: fmt::Write>(&self, f: &mut fmt::Formatter<W>) -> fmt::Result {
        match self {
            LogEnding::Empty => write!(f, "empty"),
            LogEnding::NoLogLetters => write!(f, "no log: letters"),
            LogEnding::NoLogSum => write!(f, "no log: sum"),
            LogEnding::NoLogType(kind) => write!(f, "no log: type {}", kind.0),
            LogEnding::NoLogVersion => write!(f, "no log: version"),
            LogEnding::NoEntry { why, at } => {
                let text = text_of(*why);
                write!(f, "{text} at 0x{at:x}")
            }
            LogEnding::OutOfTurn { found, before, at } => {
                write!(f, "number {} after {} at 0x{at:x}", found.0, before.0)
            }
        }
    }
}
