//! Who takes a journal's changes as they are read.
ghost use Rattle.std.specs.Prelude.{ℕ, ◌++◌, ◌∷◌, [], List, OnOk, OnErr, IfErr};
ghost use Rattle.refusals.specs.declared.refusal.Refusal.{Refusal};
ghost use Rattle.commit_journal.specs.Numbered.{NumberedChange};

use change_codec::EncodedChange;
use refusals::Refusal;

/// Takes the changes of a journal, in their order, from [`Journal::scan`](crate::Journal::scan).
pub trait ElementSink {
    /// The sink before took these changes, in this order, and is now the other.
    ghost Took: { Self → Self → List NumberedChange → Type 0 };

    /// The sink, as it is now, was handed this change and doesn't take it: why.
    ghost Denies: { Self → NumberedChange → Refusal → Type 0 };

    /// Takes the next change, which has this number. A change that is refused isn't taken.
    fn take(&mut self, number: u64, change: EncodedChange) -> Result<(), Refusal>
        ensures taken { OnOk result (Took self.old self.new ((number, change) ∷ [])) }
        ensures same { OnErr result (Took self.old self.new []) }
        ensures denied { IfErr result (Denies self.new (number, change)) };

    ghost took_none: { (sink : Self) → Took sink sink [] };

    ghost took_more: { (before between after : Self) (front rest : List NumberedChange) →
        Took before between front → Took between after rest → Took before after (front ++ rest) };
}
