//! Why nothing is found.
ghost use Rattle.std.specs.Prelude.{◌≡◌};
ghost use Rattle.hive_lookup.specs.declared.errors.LookupError.TheVariants.{NoMemory};
ghost use Rattle.hive_lookup.specs.Errors.{TellsAt};

use refusals::Refusal;
use std::alloc::{AllocError, AllocFailed};

/// Why what has a name isn't found.
#[derive(Drop)]
pub enum LookupError {
    /// Memory was asked for and not given.
    NoMemory,
    /// All that is listed was read, and nothing has the name.
    NotFound,
    /// A record that had to be read isn't readable.
    Damaged {
        /// Why: `HiveDamaged` of hive 0, or `Unsupported`.
        refusal: Refusal,
        /// The offset in the bins data of the key or of the value's record at which that stands. Of a list it is the
        /// key's, as it is of two records with one name.
        at: u32,
    },
}

/// Why a path leads to no key.
#[derive(Drop)]
pub struct PathError {
    /// How many names of the path were found.
    pub depth: usize,
    /// Why the next one wasn't.
    pub error: LookupError,
}

impl From<AllocError> for LookupError {
    ghost from_gives = { λ _ error. error ≡ NoMemory };

    fn from(_error: AllocError) -> LookupError {
        LookupError::NoMemory
    }
}

impl<T: Drop> From<AllocFailed<T>> for LookupError {
    ghost from_gives = { λ _ error. error ≡ NoMemory };

    fn from(_error: AllocFailed<T>) -> LookupError {
        LookupError::NoMemory
    }
}

/// The refusal of what stands at an offset.
pub(crate) fn refused_at(refusal: Refusal, at: u32) -> LookupError
    ensures { TellsAt at refusal result }
{
    if refusal == Refusal::NoMemory {
        return LookupError::NoMemory;
    }
    LookupError::Damaged { refusal, at }
}
