//! A log, as it is read.
ghost use Rattle.std.specs.Prelude.{◌≡◌, IfOk, IfErr, take};
ghost use Rattle.refusals.specs.declared.refusal.Refusal.TheVariants.{NoMemory};
ghost use Rattle.hive_recovery.specs.Logs.{log_head, head_of_block, is_blank, is_read_version, HasEntries};

use base_block::{
    BaseBlock, FILE_FORMAT, FileType, MAJOR_VERSION, MINOR_VERSION, OLDEST_MINOR_VERSION, Signature,
};
use hive_log_entries::{EntryEnd, LogEnd, LogEntry, entries};
use refusals::Refusal;
use std::alloc::Global;

// the type of a log of Windows 8.1 and later
const ENTRIES_TYPE: u32 = 6;

const _: () = prove!(ENTRIES_TYPE == 6);

// the bytes of a first sector
const SECTOR_BYTES: usize = 512;

const _: () = prove!(SECTOR_BYTES == 512);

/// What the first sector of a log says.
#[derive(Clone, Copy)]
pub enum LogHead {
    /// The log has no bytes, or its first sector is zeros.
    Empty,
    /// It doesn't begin with `regf`.
    NoLetters,
    /// Its sum is wrong, or the sector isn't there whole.
    WrongSum,
    /// It is of another type: 1 or 2 is a log of Windows 8 and before.
    OtherType(FileType),
    /// It is of a version or a format that isn't read.
    OtherVersion,
    /// Entries follow.
    Entries,
}

/// A log, and its entries.
#[derive(Drop)]
pub struct Log<'a> {
    /// Its bytes.
    pub bytes: &'a [u8],
    /// What its first sector says.
    pub head: LogHead,
    /// Its entries, if the first sector says that there are some.
    pub entries: Vec<LogEntry<'a>>,
    /// Where they end.
    pub ended_at: usize,
    /// Why they end there.
    pub end: LogEnd,
}

/// Reads a log. Refused for want of memory alone.
pub fn read_log(alloc: Global, bytes: &[u8]) -> Result<Log<'_>, Refusal>
    ensures bytes { IfOk result (λ log. log.bytes.now ≡ bytes.now) }
    ensures head { IfOk result (λ log. log.head ≡ log_head bytes.now) }
    ensures entries { IfOk result (λ log. HasEntries bytes.now (log_head bytes.now) log.entries.items log.ended_at log.end) }
    ensures refused { IfErr result (λ why. why ≡ NoMemory) }
{
    let head = head_of(bytes);
    match head {
        LogHead::Entries => {
            let found = entries(alloc, bytes)?;
            Ok(Log {
                bytes,
                head,
                entries: found.entries,
                ended_at: found.ended_at,
                end: found.end,
            })
        }
        _ => Ok(Log {
            bytes,
            head,
            entries: Vec::new(alloc),
            ended_at: 0,
            end: LogEnd::NoEntry(EntryEnd::NoLetters),
        }),
    }
}

// what the first sector of a log says
#[tactic(auto, unfolding(crate::specs::Logs::log_head))]
fn head_of(bytes: &[u8]) -> LogHead
    ensures { result ≡ log_head bytes.now }
{
    if is_zeros(bytes) {
        return LogHead::Empty;
    }
    match BaseBlock::read_first(bytes) {
        None => LogHead::WrongSum,
        Some(block) => head_in(&block),
    }
}

// whether the first sector, or what there is of it, is zeros
fn is_zeros(bytes: &[u8]) -> bool
    ensures { result ≡ is_blank bytes.now }
{
    front(bytes).iter().all(|byte| *byte == 0)
}

// the first sector, or what there is of it
fn front(bytes: &[u8]) -> &[u8]
    ensures { result.now ≡ take 512 bytes.now }
{
    if bytes.len() < SECTOR_BYTES {
        return bytes;
    }
    &bytes[..SECTOR_BYTES]
}

// what the block of a log says
fn head_in(block: &BaseBlock) -> LogHead
    ensures { result ≡ head_of_block block.now }
{
    if block.signature != Signature::REGF {
        return LogHead::NoLetters;
    }
    if !block.sum_is_right {
        return LogHead::WrongSum;
    }
    if block.file_type.0 != ENTRIES_TYPE {
        return LogHead::OtherType(block.file_type);
    }
    if !is_version(block) {
        return LogHead::OtherVersion;
    }
    LogHead::Entries
}

// whether the versions and the format are read
fn is_version(block: &BaseBlock) -> bool
    ensures { result ≡ is_read_version block.now }
{
    block.major == MAJOR_VERSION
        && block.minor >= OLDEST_MINOR_VERSION
        && block.minor <= MINOR_VERSION
        && block.format == FILE_FORMAT
}
