//! What takes keys and losses.
ghost use Rattle.std.specs.Prelude.{◌≡◌, ◌≢◌, List, [], ◌∷◌, ◌++◌, OnOk};
ghost use Rattle.refusals.specs.declared.refusal.Refusal.TheVariants.{NoMemory};
ghost use Rattle.key_walk.specs.KeyPaths.{names_on};
ghost use Rattle.hive_salvage.specs.Events.{Event, found, lost, loss_of};

use crate::errors::StepError;
use crate::loss::{Loss, Part};
use key_walk::KeyPath;
use refusals::Refusal;
use reg_tree_parts::Key;

/// What takes the keys that are read and the losses, such as a printer.
pub trait SalvageSink {
    /// The sink before took these, in this order, and is now the other.
    ghost Took: { Self → Self → List Event → Type 0 };

    /// Why a key or a loss is not taken.
    type Error;

    /// Takes a key to which this way leads, with what was read of it. After a refusal the walk ends.
    fn found(&mut self, path: &KeyPath<'_>, key: &Key) -> Result<(), Self::Error>
        ensures { OnOk result (Took self.old self.new (found (names_on path.now, key.now) ∷ [])) };

    /// Takes a loss of the key to which this way leads. After a refusal the walk ends.
    fn lost(&mut self, path: &KeyPath<'_>, loss: &Loss) -> Result<(), Self::Error>
        ensures { OnOk result (Took self.old self.new (lost (names_on path.now) loss.now ∷ [])) };

    ghost took_none: { (sink : Self) → Took sink sink [] };

    ghost took_more: { (before between after : Self) (front rest : List Event) →
        Took before between front → Took between after rest → Took before after (front ++ rest) };
}

/// Tells a sink a loss, unless it is want of memory.
pub(crate) fn tell<S: SalvageSink>(
    sink: &mut S,
    path: &KeyPath<'_>,
    part: Part,
    at: u32,
    why: Refusal,
) -> Result<(), StepError<S::Error>>
    ensures { OnOk result (S.Took sink.old sink.new (lost (names_on path.now) (loss_of part at why) ∷ [])
        × (why ≢ NoMemory)) }
{
    if why == Refusal::NoMemory {
        return Err(StepError::NoMemory);
    }
    match sink.lost(path, &Loss { part, at, why }) {
        Ok(()) => Ok(()),
        Err(error) => Err(StepError::Sink(error)),
    }
}
