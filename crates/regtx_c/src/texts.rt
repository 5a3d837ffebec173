//! The texts of numbers.
ghost use Rattle.std.specs.Prelude.{◌≡◌, ◌==◌, find, IfOk, string_bytes};
ghost use Rattle.regtx_c.specs.Codes.{refusal_code};
ghost use Rattle.regtx_c.specs.Texts.{own_text as text_by_code, IsTextOf, CopiesText};

use crate::codes::{NO_MEMORY, NO_ROOM, NOT_OPEN, OK, code_of};
use crate::room::copy;
use refusals::{Cause, Refusal};
use std::alloc::{AllocError, Global};

// every refusal; damage is of hive 0
const REFUSALS: [Refusal; 30] = [
    Refusal::NoMemory,
    Refusal::NotFound,
    Refusal::HasSubkeys,
    Refusal::BadName,
    Refusal::TooDeep,
    Refusal::TooLarge,
    Refusal::Conflict,
    Refusal::NotActive,
    Refusal::NoSuchHandle,
    Refusal::NoSeat,
    Refusal::JournalFull,
    Refusal::HistoryFull,
    Refusal::DiskFault,
    Refusal::Faulted,
    Refusal::HiveDamaged {
        hive: 0,
        cause: Cause::Truncated,
    },
    Refusal::HiveDamaged {
        hive: 0,
        cause: Cause::BadBase,
    },
    Refusal::HiveDamaged {
        hive: 0,
        cause: Cause::BadBin,
    },
    Refusal::HiveDamaged {
        hive: 0,
        cause: Cause::BadCell,
    },
    Refusal::HiveDamaged {
        hive: 0,
        cause: Cause::BadOffset,
    },
    Refusal::HiveDamaged {
        hive: 0,
        cause: Cause::BadRecord,
    },
    Refusal::HiveDamaged {
        hive: 0,
        cause: Cause::BadList,
    },
    Refusal::HiveDamaged {
        hive: 0,
        cause: Cause::BadName,
    },
    Refusal::HiveDamaged {
        hive: 0,
        cause: Cause::Shared,
    },
    Refusal::HiveDamaged {
        hive: 0,
        cause: Cause::BadLog,
    },
    Refusal::HiveDamaged {
        hive: 0,
        cause: Cause::NotClean,
    },
    Refusal::HiveDamaged {
        hive: 0,
        cause: Cause::BadStore,
    },
    Refusal::HiveDamaged {
        hive: 0,
        cause: Cause::TooLarge,
    },
    Refusal::JournalDamaged,
    Refusal::Unsupported,
    Refusal::Fixed,
];

// the first of these refusals that has a number
fn first_of(refusals: &[Refusal], code: u32) -> Option<Refusal>
    ensures { result ≡ find (λ why. refusal_code why == code) refusals.now }
{
    refusals.iter().copied().find(|why| code_of(*why) == code)
}

/// The refusal that has a number, as one of hive 0.
pub(crate) fn refusal_of(code: u32) -> Option<Refusal>
    ensures { result ≡ find (λ why. refusal_code why == code) REFUSALS }
{
    first_of(&REFUSALS, code)
}

// the text of a refusal that has a number
fn refusal_text_of(alloc: Global, code: u32, why: Refusal) -> Result<String, AllocError>
    requires { find (λ any. refusal_code any == code) REFUSALS ≡ Some why }
    ensures { IfOk result (λ text. IsTextOf code (string_bytes text)) }
{
    format!(in alloc; "{why}")
}

// the text of a number that no refusal has
fn own_text(code: u32) -> &'static str
    ensures { result.now ≡ text_by_code code }
{
    match code {
        OK => "ok",
        NOT_OPEN => "no hive is open",
        NO_ROOM => "the buffer is too small",
        _ => "no such code",
    }
}

// the same as a string
fn own_text_of(alloc: Global, code: u32) -> Result<String, AllocError>
    requires { find (λ any. refusal_code any == code) REFUSALS ≡ None }
    ensures { IfOk result (λ text. IsTextOf code (string_bytes text)) }
{
    String::from_str(alloc, own_text(code))
}

// the text of a number
fn text_of(alloc: Global, code: u32) -> Result<String, AllocError>
    ensures { IfOk result (λ text. IsTextOf code (string_bytes text)) }
{
    match refusal_of(code) {
        Some(why) => refusal_text_of(alloc, code, why),
        None => own_text_of(alloc, code),
    }
}

/// Tells the text of a number, in ASCII. A refusal's is the one that `regtx dump` prints.
#[unsafe(no_mangle)]
pub extern "C" fn regtx_text(alloc: Global, code: u32, text: &mut [u8], len: &mut usize) -> u32
    ensures { CopiesText code text.old text.new len.old len.new result }
{
    match text_of(alloc, code) {
        Ok(found) => copy(found.as_bytes(), text, len),
        Err(_) => NO_MEMORY,
    }
}
