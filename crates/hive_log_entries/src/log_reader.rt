//! Reading the entries of a log.
ghost use Rattle.std.specs.Prelude.{◌≡◌, IfOk};
ghost use Rattle.hive_log_entries.specs.Entries.{IsWithinLog};
ghost use Rattle.hive_log_entries.specs.Logs.{next_at, EntriesAre};

use crate::entry::{LogEntry, read_entry};
use crate::entry_end::LogEnd;
use base_block::SequenceNumber;
use std::alloc::{AllocError, Global};

/// Where the first entry of a log begins: behind the first sector.
pub const FIRST_ENTRY_AT: usize = 512;

const _: () = prove!(FIRST_ENTRY_AT == 512);

/// The entries of a log, and how they end.
#[derive(Drop)]
pub struct LogEntries<'a> {
    /// The entries, from the first on.
    pub entries: Vec<LogEntry<'a>>,
    /// Where they end.
    pub ended_at: usize,
    /// Why they end there.
    pub end: LogEnd,
}

/// The entries of a log from the first on, as long as each stands and has the number after that of the one before.
/// What follows is left unread. It fails only for want of memory.
pub fn entries(alloc: Global, log: &[u8]) -> Result<LogEntries<'_>, AllocError>
    ensures { IfOk result (λ found. EntriesAre log.now found.entries.items found.ended_at found.end) }
{
    let mut entries = Vec::new(alloc);
    let mut at = FIRST_ENTRY_AT;
    let mut before = None;
    'entries: loop {
        match next_entry(log, at, before) {
            Ok(entry) => {
                at += entry.size();
                before = Some(entry.number());
                entries.push(entry)?;
            }
            Err(end) => {
                return Ok(LogEntries {
                    entries,
                    ended_at: at,
                    end,
                });
            }
        }
    }
}

#[tactic(auto, unfolding(crate::specs::Logs::next_at))]
// the entry at a place, if its number follows that of the one before
fn next_entry(log: &[u8], at: usize, before: Option<SequenceNumber>) -> Result<LogEntry<'_>, LogEnd>
    ensures reading { result ≡ next_at log.now at before }
    ensures within { IfOk result (IsWithinLog log.now at) }
{
    let entry = match read_entry(log, at) {
        Ok(entry) => entry,
        Err(why) => return Err(LogEnd::NoEntry(why)),
    };
    match before {
        Some(before) if before.next() != entry.number() => Err(LogEnd::OutOfTurn {
            found: entry.number(),
            before,
        }),
        _ => Ok(entry),
    }
}
