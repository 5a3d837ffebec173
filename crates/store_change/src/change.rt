//! A change of a store: what is asked for, how it ends, and how that is told.
ghost use Rattle.std.specs.Prelude.{◌≡◌, ℕ, List, Bool, true, OnOk};
ghost use Rattle.std.specs.Io.KnownBytes.{Appends};
ghost use Rattle.refusals.specs.declared.refusal.Refusal.{Refusal as AnyRefusal};
ghost use Rattle.reg_tree.specs.declared.op.Op.{Op};
ghost use Rattle.store_model.specs.Machine.{Machine, is_open};
ghost use Rattle.store_driver.specs.Later.{IsLater};
ghost use Rattle.store_change.specs.Reports.{AllOrNothing};

use disk_model::Disk;
use engine::Engine;
use refusals::Refusal;
use std::alloc::Global;
use std::io::{self, Write};

/// A change that a program makes of a store, as [`make_change`](crate::make_change) carries it out.
pub trait StoreChange: Drop {
    /// How it ended.
    type Outcome: Drop;

    /// The moment of the change: 100 nanoseconds since the year 1601.
    ghost moment: { Self → ℕ };

    /// What may be asked of a machine: operations, for a unit of work.
    ghost may_ask: { Self → Machine → List ℕ → List Op → Type 0 };

    /// How the change of a machine may end, and the machine after it.
    ghost can_end: { Self → Machine → Self.Outcome → Machine → Type 0 };

    /// Whether this is the outcome of a change that was made.
    ghost is_made: { Self.Outcome → Bool };

    /// The outcome if no store was opened, for this reason.
    ghost refusal_of: { AnyRefusal → Self.Outcome };

    /// The line that tells an outcome.
    ghost line: { Self.Outcome → List ℕ };

    /// Makes the change of an opened store, whose last change has this number. All that is asked for is accepted as one
    /// change, or nothing is.
    fn make<D: Disk>(self, alloc: Global, engine: &mut Engine<D>, number: u64) -> Self::Outcome
        requires open { is_open engine.old.machine 0 ≡ true }
        ensures ends { can_end self engine.old.machine result engine.new.machine }
        ensures all { AllOrNothing (may_ask self) (moment self) engine.old.machine engine.new.machine }
        ensures later { IsLater D.faithful D.failures engine.old engine.new };

    /// Whether this is the outcome of a change that was made.
    fn is_made(outcome: &Self::Outcome) -> bool
        ensures { result ≡ is_made outcome.now };

    /// The outcome if no store was opened, for this reason.
    fn refusal_of(refusal: Refusal) -> Self::Outcome
        ensures { result ≡ refusal_of refusal };

    /// Writes the line that tells an outcome.
    fn write_line<W: Write>(outcome: &Self::Outcome, writer: &mut W) -> io::Result<()>
        ensures { OnOk result (Appends (W.contents writer.old) (W.contents writer.new)
            (line outcome.now)) };
}
