//! Handles of transactions, and what became of a transaction.
ghost use Rattle.std.specs.Prelude.{◌≡◌};
ghost use Rattle.refusals.specs.declared.refusal.Refusal.TheVariants.{NoSuchHandle};
ghost use Rattle.store_model.specs.Ends.{refusal_of};

use refusals::Refusal;

/// The handle of a transaction: its slot, and how many transactions were begun in this opening of the store, itself
/// included. No two transactions of an opening have the same handle.
#[derive(Clone, Copy, Debug, PartialEq, Eq)]
pub struct Tx {
    /// The slot.
    pub slot: usize,
    /// How many transactions were begun, itself included.
    pub generation: u64,
}

/// What became of a transaction.
#[derive(Clone, Copy, Debug, PartialEq, Eq)]
pub enum Outcome {
    /// It may be written in, committed and rolled back.
    Active,
    /// Its operations were accepted as one change.
    Committed,
    /// Its operations were dropped.
    RolledBack,
}

/// There is no such transaction in the session: its handle is stale, is of another session, or was never given.
#[derive(Clone, Copy, Debug, PartialEq, Eq)]
pub struct NoSuchTransaction;

/// Why a transaction cannot be ended. No variant says that there is no memory: ending one takes none.
#[derive(Clone, Copy, Debug, PartialEq, Eq)]
pub enum TxEndError {
    /// There is no such transaction in the session.
    NoSuchTransaction,
    /// It has committed or was rolled back.
    NotActive,
}

impl From<NoSuchTransaction> for Refusal {
    ghost from_gives = { λ none refusal. refusal ≡ NoSuchHandle };

    fn from(_: NoSuchTransaction) -> Refusal {
        Refusal::NoSuchHandle
    }
}

impl From<TxEndError> for Refusal {
    ghost from_gives = { λ why refusal. refusal ≡ refusal_of why };

    fn from(why: TxEndError) -> Refusal {
        match why {
            TxEndError::NoSuchTransaction => Refusal::NoSuchHandle,
            TxEndError::NotActive => Refusal::NotActive,
        }
    }
}
