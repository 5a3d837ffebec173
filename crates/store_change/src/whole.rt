//! A commit from its beginning to its end.
ghost use Rattle.std.specs.Prelude.{◌≡◌, true, IfOk, IfErr};
ghost use Rattle.store_model.specs.Invariant.{AreLegalChanges};
ghost use Rattle.store_model.specs.Machine.{is_open, named_trees};
ghost use Rattle.store_driver.specs.Later.{IsLater};
ghost use Rattle.store_change.specs.Commits.{Commits, FailsToCommit};

use crate::transaction::{accept, add, begin};
use disk_model::Disk;
use engine::Engine;
use refusals::Refusal;
use reg_tree::Op;
use store_driver::wait;
use uuid::Uuid;

/// Commits operations as one change at a moment, in a transaction of this unit of work in session 0, and waits until it
/// is durable. Answers the change's number, or 0 if there are no operations: they change nothing. The operations are
/// legal, one after another, on the trees of the hives that calls name. A store with outcomes keeps the commit's.
///
/// Refused as the calls of the transaction are, such as with `TooLarge`, `HistoryFull` or `JournalFull`: nothing is
/// accepted then. Refused with `DiskFault`, `Faulted` or `NoMemory` also if the change was accepted and the wait for it
/// was refused: the next opening has all of it or nothing.
pub fn commit<D: Disk>(
    engine: &mut Engine<D>,
    id: Uuid,
    moment: u64,
    ops: Vec<Op>,
) -> Result<u64, Refusal>
    requires open { is_open engine.old.machine 0 ≡ true }
    requires are_legal { AreLegalChanges (named_trees engine.old.machine) ops.items moment }
    ensures committed { IfOk result (λ number.
        Commits engine.old.machine id moment ops.items number engine.new.machine) }
    ensures refused { IfErr result (λ why.
        FailsToCommit engine.old.machine id moment ops.items why engine.new.machine) }
    ensures later { IsLater D.faithful D.failures engine.old engine.new }
{
    let tx = begin(engine, id)?;
    for op in ops {
        add(engine, tx, moment, op)?;
    }
    let number = accept(engine, tx, moment)?;
    wait(engine, number)?;
    Ok(number)
}
