//! Why a call is refused, and the exact text that the program prints for it.
ghost use Rattle.std.specs.Prelude.{◌≡◌, Some};
ghost use Rattle.refusals.specs.Refusals.{cause_text, refusal_name, refusal_text};
ghost use Rattle.refusals.specs.declared.refusal.Refusal.TheVariants.{HiveDamaged, NoMemory};

use std::alloc::{AllocError, AllocFailed};
use std::fmt;

/// What is wrong with the bytes of a hive. If the bytes have several causes, any one is reported.
#[derive(Clone, Copy, Debug, PartialEq, Eq)]
pub enum Cause {
    /// The file is shorter than it says.
    Truncated,
    /// The base block's signature or bins size is wrong.
    BadBase,
    /// A bin's header is wrong, or the bins don't fill the bins data.
    BadBin,
    /// A cell's size is wrong, or the cells don't fill their bin.
    BadCell,
    /// An offset isn't the start of an allocated cell.
    BadOffset,
    /// A record has a wrong signature or doesn't fit its cell.
    BadRecord,
    /// A subkeys list is wrong.
    BadList,
    /// A name is wrong, or is there twice below one key.
    BadName,
    /// A cell is reached twice.
    Shared,
    /// The log that is needed isn't whole.
    BadLog,
    /// The hive was not closed cleanly.
    NotClean,
    /// The hive is of another store, or has a number that its store doesn't know.
    BadStore,
    /// The hive is over a limit of the project.
    TooLarge,
}

/// Why a call is refused. Unless its documentation says otherwise, a refused call changes nothing.
#[derive(Clone, Copy, Debug, PartialEq, Eq)]
pub enum Refusal {
    /// Memory was asked for and not given.
    NoMemory,
    /// There is no such hive, key or value.
    NotFound,
    /// The key to be deleted has subkeys.
    HasSubkeys,
    /// A name or a path breaks the rules of names.
    BadName,
    /// A path has more than 512 names, or one call would create more than 32 levels.
    TooDeep,
    /// A limit on value data, an accepted change, a tree's weight or depth, or an image.
    TooLarge,
    /// A claim conflicts with a claim of another active transaction.
    Conflict,
    /// The transaction has committed or was rolled back.
    NotActive,
    /// The handle is stale, of another session or never given; or the session is not open.
    NoSuchHandle,
    /// All sessions or all transactions are taken.
    NoSeat,
    /// The journal has no room for the change.
    JournalFull,
    /// This opening has accepted as many changes as it may.
    HistoryFull,
    /// The device failed in this call.
    DiskFault,
    /// The device failed earlier in this opening.
    Faulted,
    /// A hive's bytes are not a hive of this project's profile.
    HiveDamaged {
        /// The hive's number.
        hive: u8,
        /// What is wrong with it.
        cause: Cause,
    },
    /// The journal's bytes are not a journal of this store.
    JournalDamaged,
    /// A version, type, format or key flag outside the profile.
    Unsupported,
    /// The root, or a key that is marked as not deletable, is to be deleted.
    Fixed,
}

impl Cause {
    // the name of the cause, as it is printed
    fn text(self) -> &'static str
        ensures { result.now ≡ cause_text self }
    {
        match self {
            Cause::Truncated => "Truncated",
            Cause::BadBase => "BadBase",
            Cause::BadBin => "BadBin",
            Cause::BadCell => "BadCell",
            Cause::BadOffset => "BadOffset",
            Cause::BadRecord => "BadRecord",
            Cause::BadList => "BadList",
            Cause::BadName => "BadName",
            Cause::Shared => "Shared",
            Cause::BadLog => "BadLog",
            Cause::NotClean => "NotClean",
            Cause::BadStore => "BadStore",
            Cause::TooLarge => "TooLarge",
        }
    }
}

impl fmt::Display for Cause {
    ghost output = { λ cause. Some (cause_text cause) };

    fn fmt<W: fmt::Write>(&self, f: &mut fmt::Formatter<W>) -> fmt::Result {
        let text = self.text();
        write!(f, "{text}")
    }
}

impl Refusal {
    // the number and the name of the refusal, as they are printed
    fn text(self) -> &'static str
        ensures { result.now ≡ refusal_name self }
    {
        match self {
            Refusal::NoMemory => "E1 NoMemory",
            Refusal::NotFound => "E2 NotFound",
            Refusal::HasSubkeys => "E3 HasSubkeys",
            Refusal::BadName => "E4 BadName",
            Refusal::TooDeep => "E5 TooDeep",
            Refusal::TooLarge => "E6 TooLarge",
            Refusal::Conflict => "E7 Conflict",
            Refusal::NotActive => "E8 NotActive",
            Refusal::NoSuchHandle => "E9 NoSuchHandle",
            Refusal::NoSeat => "E10 NoSeat",
            Refusal::JournalFull => "E11 JournalFull",
            Refusal::HistoryFull => "E12 HistoryFull",
            Refusal::DiskFault => "E13 DiskFault",
            Refusal::Faulted => "E14 Faulted",
            Refusal::HiveDamaged { .. } => "E15 HiveDamaged",
            Refusal::JournalDamaged => "E16 JournalDamaged",
            Refusal::Unsupported => "E17 Unsupported",
            Refusal::Fixed => "E18 Fixed",
        }
    }
}

impl fmt::Display for Refusal {
    ghost output = { λ refusal. Some (refusal_text refusal) };

    fn fmt<W: fmt::Write>(&self, f: &mut fmt::Formatter<W>) -> fmt::Result {
        let text = self.text();
        match self {
            Refusal::HiveDamaged { hive, cause } => write!(f, "{text} {hive} {cause}"),
            _ => write!(f, "{text}"),
        }
    }
}

impl From<AllocError> for Refusal {
    ghost from_gives = { λ _ refusal. refusal ≡ NoMemory };

    fn from(_: AllocError) -> Refusal {
        Refusal::NoMemory
    }
}

impl<T: Drop> From<AllocFailed<T>> for Refusal {
    ghost from_gives = { λ _ refusal. refusal ≡ NoMemory };

    fn from(_: AllocFailed<T>) -> Refusal {
        Refusal::NoMemory
    }
}

/// Damage reported by a part that doesn't know which hive it is in: it names hive 0.
impl From<Cause> for Refusal {
    ghost from_gives = { λ cause refusal. refusal ≡ HiveDamaged 0 cause };

    fn from(cause: Cause) -> Refusal {
        Refusal::HiveDamaged { hive: 0, cause }
    }
}
