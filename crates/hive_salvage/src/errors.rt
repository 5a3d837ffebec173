//! Why a walk ends early.
ghost use Rattle.std.specs.Prelude.{◌≡◌, ◌≢◌};
ghost use Rattle.refusals.specs.declared.refusal.Refusal.{Refusal};
ghost use Rattle.hive_salvage.specs.declared.errors.StepError.TheVariants.{NoMemory};

use refusals::Refusal;
use std::alloc::{AllocError, AllocFailed};

/// Why no keys are found, or no more.
#[derive(Drop)]
pub enum SalvageError<E> {
    /// Memory was asked for and not given.
    NoMemory,
    /// The root's node can't be read, for this reason.
    NoRoot(Refusal),
    /// The sink refused a key or a loss, for this reason.
    Sink(E),
}

/// Why a step of a walk below the root ends early.
#[derive(Drop)]
pub(crate) enum StepError<E> {
    /// Memory was asked for and not given.
    NoMemory,
    /// The sink refused a key or a loss, for this reason.
    Sink(E),
}

impl<E> From<AllocError> for StepError<E> {
    ghost from_gives = { λ _ error. error ≡ NoMemory };

    fn from(_error: AllocError) -> StepError<E> {
        StepError::NoMemory
    }
}

impl<E, T: Drop> From<AllocFailed<T>> for StepError<E> {
    ghost from_gives = { λ _ error. error ≡ NoMemory };

    fn from(_error: AllocFailed<T>) -> StepError<E> {
        StepError::NoMemory
    }
}

/// The error of a walk whose root was read.
pub(crate) fn ended<E>(error: StepError<E>) -> SalvageError<E>
    ensures { (why : Refusal) → result ≢ SalvageError.NoRoot why }
{
    match error {
        StepError::NoMemory => SalvageError::NoMemory,
        StepError::Sink(error) => SalvageError::Sink(error),
    }
}
