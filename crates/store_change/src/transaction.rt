//! The parts of a commit: a transaction is begun, gets its operations, and is accepted.
ghost use Rattle.std.specs.Prelude.{◌≡◌, ◌≤◌, ◌++◌, ◌∷◌, [], ℕ, List, true, Ok, IfOk, OnOk, IfErr, MatchResult};
ghost use Rattle.reg_tree.specs.Judgement.{applied, legal};
ghost use Rattle.reg_tree.specs.declared.op.Legality.TheVariants.{Legal};
ghost use Rattle.reg_tree.specs.declared.op.Op.{Op as AnyOp};
ghost use Rattle.store_model.specs.Machine.{Machine, is_open, last_number, trees_now};
ghost use Rattle.store_model.specs.Steps.{Step};
ghost use Rattle.store_driver.specs.Later.{IsLater};
ghost use Rattle.store_change.specs.Commits.{AcceptsOps, InTransaction, KeepsAccepted, number_of};

use disk_model::Disk;
use engine::Engine;
use refusals::Refusal;
use reg_tree::Op;
use store_driver::ask;
use store_model::{Event, Reply, Tx};
use uuid::Uuid;

/// The session in which a change is made.
pub(crate) const SESSION: u32 = 0;

const _: () = prove!(SESSION == 0);

/// Begins a transaction of a unit of work.
pub(crate) fn begin<D: Disk>(engine: &mut Engine<D>, id: Uuid) -> Result<Tx, Refusal>
    requires open { is_open engine.old.machine 0 ≡ true }
    ensures begun { IfOk result (λ tx. (moment : ℕ) → InTransaction engine.old.machine id tx moment []
        engine.new.machine) }
    ensures refused { IfErr result (λ why. KeepsAccepted engine.old.machine engine.new.machine) }
    ensures cause { IfErr result (λ why.
        Step engine.old.machine (Event.Begin 0 id) (Reply.Refused why) engine.new.machine) }
    ensures later { IsLater D.faithful D.failures engine.old engine.new }
{
    match ask(
        engine,
        Event::Begin {
            session: SESSION,
            id,
        },
    ) {
        Reply::Begun { tx } => Ok(tx),
        Reply::Refused { refusal } => Err(refusal),
        _ => unreachable!(),
    }
}

/// Adds an operation. If it is legal after those that the transaction has, it is the last of them.
pub(crate) fn add<D: Disk>(
    engine: &mut Engine<D>,
    tx: Tx,
    moment: u64,
    op: Op,
) -> Result<(), Refusal>
    ensures added { OnOk result ((first : Machine) (id : List ℕ) (ops : List AnyOp) →
        InTransaction first id tx moment ops engine.old.machine →
        legal (applied (trees_now first) ops moment) op ≡ Ok Legal →
        InTransaction first id tx moment (ops ++ op ∷ []) engine.new.machine) }
    ensures kept { KeepsAccepted engine.old.machine engine.new.machine }
    ensures cause { IfErr result (λ why.
        Step engine.old.machine (Event.TxWrite 0 tx moment op) (Reply.Refused why) engine.new.machine) }
    ensures later { IsLater D.faithful D.failures engine.old engine.new }
{
    match ask(
        engine,
        Event::TxWrite {
            session: SESSION,
            tx,
            moment,
            op,
        },
    ) {
        Reply::Added { levels: _ } => Ok(()),
        Reply::Opened => Ok(()),
        Reply::Refused { refusal } => Err(refusal),
        _ => unreachable!(),
    }
}

/// Commits the transaction: its operations are accepted as one change. Answers the change's number.
pub(crate) fn accept<D: Disk>(engine: &mut Engine<D>, tx: Tx, moment: u64) -> Result<u64, Refusal>
    ensures accepted { IfOk result (λ number. (number ≤ last_number engine.new.machine)
        × ((first : Machine) (id : List ℕ) (ops : List AnyOp) →
        InTransaction first id tx moment ops engine.old.machine →
        AcceptsOps first id moment ops engine.new.machine × (number ≡ number_of first ops))) }
    ensures refused { IfErr result (λ why. KeepsAccepted engine.old.machine engine.new.machine) }
    ensures cause { IfErr result (λ why.
        Step engine.old.machine (Event.CommitAccept 0 tx moment) (Reply.Refused why) engine.new.machine) }
    ensures later { IsLater D.faithful D.failures engine.old engine.new }
{
    match ask(
        engine,
        Event::CommitAccept {
            session: SESSION,
            tx,
            moment,
        },
    ) {
        Reply::Awaits { number } => Ok(number),
        Reply::Refused { refusal } => Err(refusal),
        _ => unreachable!(),
    }
}
