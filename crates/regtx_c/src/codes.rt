//! The numbers that C is given in place of refusals.
ghost use Rattle.std.specs.Prelude.{◌≡◌};
ghost use Rattle.regtx_c.specs.Codes.{damage_code, refusal_code};

use refusals::{Cause, Refusal};

/// The call did what it was asked for.
pub const OK: u32 = 0;

/// Memory was asked for and not given.
pub const NO_MEMORY: u32 = 1;

/// No hive is open by this handle.
pub const NOT_OPEN: u32 = 100;

/// The caller's buffer is too small. The size that is needed is told, and nothing is written to the buffer.
pub const NO_ROOM: u32 = 101;

const _: () = prove!(OK == 0);

const _: () = prove!(NO_MEMORY == 1);

const _: () = prove!(NOT_OPEN == 100);

const _: () = prove!(NO_ROOM == 101);

/// The number of a refusal.
pub(crate) fn code_of(why: Refusal) -> u32
    ensures { result ≡ refusal_code why }
{
    match why {
        Refusal::NoMemory => 1,
        Refusal::NotFound => 2,
        Refusal::HasSubkeys => 3,
        Refusal::BadName => 4,
        Refusal::TooDeep => 5,
        Refusal::TooLarge => 6,
        Refusal::Conflict => 7,
        Refusal::NotActive => 8,
        Refusal::NoSuchHandle => 9,
        Refusal::NoSeat => 10,
        Refusal::JournalFull => 11,
        Refusal::HistoryFull => 12,
        Refusal::DiskFault => 13,
        Refusal::Faulted => 14,
        Refusal::HiveDamaged { hive: _, cause } => code_of_damage(cause),
        Refusal::JournalDamaged => 16,
        Refusal::Unsupported => 17,
        Refusal::Fixed => 18,
    }
}

// the number of a cause of damage
fn code_of_damage(cause: Cause) -> u32
    ensures { result ≡ damage_code cause }
{
    match cause {
        Cause::Truncated => 1501,
        Cause::BadBase => 1502,
        Cause::BadBin => 1503,
        Cause::BadCell => 1504,
        Cause::BadOffset => 1505,
        Cause::BadRecord => 1506,
        Cause::BadList => 1507,
        Cause::BadName => 1508,
        Cause::Shared => 1509,
        Cause::BadLog => 1510,
        Cause::NotClean => 1511,
        Cause::BadStore => 1512,
        Cause::TooLarge => 1513,
    }
}
