//! The names of numbers, as `regtx.h` has them, and which numbers are damage.
ghost use Rattle.std.specs.Prelude.{◌≡◌};
ghost use Rattle.regtx_c.specs.CodeNames.{damage_code_name, is_damage as is_of_damage, own_code_name, refusal_code_name, CopiesName, IsCodeName, TellsDamage};

use crate::codes::{NO_ROOM, NOT_OPEN, OK};
use crate::room::copy;
use crate::texts::refusal_of;
use refusals::{Cause, Refusal};

/// The number that both headers for C give damage whose cause isn't told. No call answers it.
const HIVE_DAMAGED: u32 = 15;

const _: () = prove!(HIVE_DAMAGED == 15);

// the name of the number of a refusal
fn name_of(why: Refusal) -> &'static str
    ensures { result.now ≡ refusal_code_name why }
{
    match why {
        Refusal::NoMemory => "REGTX_NO_MEMORY",
        Refusal::NotFound => "REGTX_NOT_FOUND",
        Refusal::HasSubkeys => "REGTX_HAS_SUBKEYS",
        Refusal::BadName => "REGTX_BAD_NAME",
        Refusal::TooDeep => "REGTX_TOO_DEEP",
        Refusal::TooLarge => "REGTX_TOO_LARGE",
        Refusal::Conflict => "REGTX_CONFLICT",
        Refusal::NotActive => "REGTX_NOT_ACTIVE",
        Refusal::NoSuchHandle => "REGTX_NO_SUCH_HANDLE",
        Refusal::NoSeat => "REGTX_NO_SEAT",
        Refusal::JournalFull => "REGTX_JOURNAL_FULL",
        Refusal::HistoryFull => "REGTX_HISTORY_FULL",
        Refusal::DiskFault => "REGTX_DISK_FAULT",
        Refusal::Faulted => "REGTX_FAULTED",
        Refusal::HiveDamaged { hive: _, cause } => name_of_damage(cause),
        Refusal::JournalDamaged => "REGTX_JOURNAL_DAMAGED",
        Refusal::Unsupported => "REGTX_UNSUPPORTED",
        Refusal::Fixed => "REGTX_FIXED",
    }
}

// the name of the number of a cause of damage
fn name_of_damage(cause: Cause) -> &'static str
    ensures { result.now ≡ damage_code_name cause }
{
    match cause {
        Cause::Truncated => "REGTX_TRUNCATED",
        Cause::BadBase => "REGTX_BAD_BASE",
        Cause::BadBin => "REGTX_BAD_BIN",
        Cause::BadCell => "REGTX_BAD_CELL",
        Cause::BadOffset => "REGTX_BAD_OFFSET",
        Cause::BadRecord => "REGTX_BAD_RECORD",
        Cause::BadList => "REGTX_BAD_LIST",
        Cause::BadName => "REGTX_BAD_STORED_NAME",
        Cause::Shared => "REGTX_SHARED",
        Cause::BadLog => "REGTX_BAD_LOG",
        Cause::NotClean => "REGTX_NOT_CLEAN",
        Cause::BadStore => "REGTX_BAD_STORE",
        Cause::TooLarge => "REGTX_HIVE_TOO_LARGE",
    }
}

// the name of a number that no refusal has; the empty text if it is no code
fn own_name(code: u32) -> &'static str
    ensures { result.now ≡ own_code_name code }
{
    match code {
        OK => "REGTX_OK",
        HIVE_DAMAGED => "REGTX_HIVE_DAMAGED",
        NOT_OPEN => "REGTX_NOT_OPEN",
        NO_ROOM => "REGTX_NO_ROOM",
        _ => "",
    }
}

// the name of a number
fn code_name(code: u32) -> &'static str
    ensures { IsCodeName code result.now }
{
    match refusal_of(code) {
        Some(why) => name_of(why),
        None => own_name(code),
    }
}

/// Tells the name that `regtx.h` gives a number, in ASCII: `REGTX_NOT_FOUND`. It is empty if the number is no code. Takes
/// no memory.
#[unsafe(no_mangle)]
pub extern "C" fn regtx_code_name(code: u32, name: &mut [u8], len: &mut usize) -> u32
    ensures { CopiesName code name.old name.new len.new result }
{
    copy(code_name(code).as_bytes(), name, len)
}

// whether a refusal is damage of a hive
fn is_damage(why: Refusal) -> bool
    ensures { result ≡ is_of_damage why }
{
    matches!(why, Refusal::HiveDamaged { .. })
}

/// Whether a number is one of damage: the bytes of a file are no whole hive. Takes no memory.
#[unsafe(no_mangle)]
pub extern "C" fn regtx_is_damage(code: u32) -> bool
    ensures { TellsDamage code result }
{
    match refusal_of(code) {
        Some(why) => is_damage(why),
        None => false,
    }
}
