//! What a store does at a commit: it makes the change of a transaction's operations and of its outcome.
ghost use Rattle.std.specs.Prelude.{◌≡◌, ◌⊎◌, ◌<◌, ◌≤◌, ◌+◌, ◌++◌, ◌∷◌, ◌==◌, [], ℕ, List, false, Some, None, IfOk, IfErr};
ghost use Rattle.refusals.specs.declared.limits.TheConstants.{MOST_ELEMENT_BYTES};
ghost use Rattle.refusals.specs.declared.refusal.Refusal.TheVariants.{NoMemory};
ghost use Rattle.store_model.specs.declared.event.Reply.TheVariants as reply;
ghost use Rattle.store_model.specs.Invariant.{HivesAreNamable};
ghost use Rattle.store_model.specs.Machine.{fault, last_number, outcome_bytes, trees_now};
ghost use Rattle.store_model.specs.Steps.{Step};
ghost use Rattle.store_model.specs.Transactions.{own};
ghost use Rattle.transactions.specs.Entries.{AreRebased};
ghost use Rattle.transactions.specs.Prepared.{IsJudgedCommit, IsReadyCommit, IsReadyNothing, PreparesEvent, unit_refusal};
ghost use Rattle.transactions.specs.Tables.{IsPending};

use super::outcomes::record_commit;
use super::{Store, open};
use crate::entry::Committed;
use crate::prepared::{JudgedCommit, Ready, ReadyCommit};
use crate::view::View;
use change_codec::EncodedChange;
use refusals::Refusal;
use reg_tree::Op;
use std::alloc::AllocError;
use store_model::{Event, Reply, Tx};
use uuid::Uuid;

impl Store {
    // what a commit leads to, all its memory being allocated
    pub(super) fn make_commit(
        &mut self,
        session: u32,
        tx: Tx,
        moment: u64,
    ) -> Result<Ready, Refusal>
        requires free { fault self.old.machine ≡ None }
        ensures made { PreparesEvent self.old.machine self.new.spare
            (Event.CommitAccept session tx moment) result }
        ensures machine { self.new.machine ≡ self.old.machine }
        ensures retained { self.new.retained ≡ self.old.retained }
    {
        open(&self.sessions, session)?;
        let pending = self.table.commit_ops(session, tx)?;
        if pending.ops.is_empty() {
            return Ok(Ready::Nothing(session, tx));
        }
        let Some(unit) = self.table.unit(session, tx) else {
            unreachable!();
        };
        let judged = self.judge_commit(session, tx, moment, &unit, pending.ops, pending.text_len)?;
        let rebased = self.views_after_commit(tx, moment, pending.ops, &judged)?;
        let JudgedCommit {
            carried: _,
            outcome,
            text_len,
            room,
        } = judged;
        let element = EncodedChange::of_ops(
            self.alloc,
            moment,
            pending.ops,
            &outcome.ops,
            text_len,
        )?;
        self.history.reserve()?;
        Ok(Ready::Commit(ReadyCommit {
            session,
            tx,
            moment,
            unit,
            earlier: outcome.earlier,
            element,
            trees: outcome.trees,
            rebased,
            room,
        }))
    }

    // judges the change that a transaction's operations and its outcome make, and makes the trees after it
    fn judge_commit(
        &self,
        session: u32,
        tx: Tx,
        moment: u64,
        unit: &Uuid,
        ops: &[Op],
        text_len: u64,
    ) -> Result<JudgedCommit, Refusal>
        requires pending { IsPending (own self.now.machine.tx_slots session tx) ops.now text_len }
        requires named { HivesAreNamable self.now.machine.bounds.hives ops.now }
        requires short { text_len + outcome_bytes self.now.machine ≤ MOST_ELEMENT_BYTES }
        ensures ok { IfOk result (IsJudgedCommit self.now.machine unit.now moment ops.now) }
        ensures refused { IfErr result (λ why.
            (unit_refusal self.now.machine unit.now moment ops.now ≡ Some why)
            ⊎ (why ≡ NoMemory)) }
    {
        let Committed { trees, carried } = self.table.commit_trees(session, tx, moment)?;
        let outcome = self.outcome_change(unit, moment, trees)?;
        let text_len = text_len.saturating_add(outcome.text_len);
        let room = self.room_with(text_len)?;
        Ok(JudgedCommit {
            carried,
            outcome,
            text_len,
            room,
        })
    }

    // what the others see after a commit, by their slots
    fn views_after_commit(
        &self,
        tx: Tx,
        moment: u64,
        ops: &[Op],
        judged: &JudgedCommit,
    ) -> Result<Vec<Option<View>>, AllocError>
        requires pending { (session length : ℕ) × IsPending (own self.now.machine.tx_slots session tx) ops.now length }
        requires named { HivesAreNamable self.now.machine.bounds.hives ops.now }
        requires judged { (unit : List ℕ) × IsJudgedCommit self.now.machine unit moment ops.now judged.now }
        ensures { IfOk result (λ rebased. AreRebased judged.now.outcome.trees
            (last_number self.now.machine + 1) self.now.machine.tx_slots rebased.items) }
    {
        if !judged.carried {
            return Ok(Vec::new(self.alloc));
        }
        let rebased = self.table.rebase_others(tx.slot, ops, moment)?;
        match self.outcome_tree(&judged.outcome.trees) {
            Some(tree) => {
                let _ = tree.root(); // for the prover
                self.table.views_with(rebased, tree)
            }
            None => Ok(rebased),
        }
    }

    // a transaction without operations commits as nothing
    pub(super) fn commit_nothing(&mut self, session: u32, tx: Tx) -> Reply
        requires ready { IsReadyNothing self.old.machine session tx }
        ensures step { (moment : ℕ) → Step self.old.machine
            (Event.CommitAccept session tx moment) result self.new.machine }
        ensures never_no_memory { ¬ (result ≡ reply.Refused NoMemory) }
        ensures accepted { self.new.machine.accepted ≡ self.old.machine.accepted }
        ensures retained { self.new.retained ≡ self.old.retained }
    {
        let Ok(_) = self.table.commit(session, tx) else {
            unreachable!();
        };
        Reply::Awaits { number: 0 }
    }

    // a transaction's operations are accepted as one change
    pub(super) fn accept_commit(&mut self, commit: ReadyCommit) -> Reply
        requires spare { 0 < self.old.spare }
        requires ready { IsReadyCommit self.old.machine commit }
        ensures step { Step self.old.machine
            (Event.CommitAccept commit.session commit.tx commit.moment) result self.new.machine }
        ensures trees { trees_now self.new.machine ≡ commit.trees }
        ensures grows { self.new.machine.accepted
            ≡ self.old.machine.accepted ++ commit.element ∷ [] }
        ensures never_no_memory { ¬ (result ≡ reply.Refused NoMemory) }
        ensures retained { self.new.retained ≡ self.old.retained }
    {
        let ReadyCommit {
            session,
            tx,
            moment: _,
            unit,
            earlier,
            element: change,
            trees,
            rebased,
            room,
        } = commit;
        self.table.accept(trees);
        self.table.take_views(rebased);
        let Ok(_ops) = self.table.commit(session, tx) else {
            unreachable!();
        };
        self.history.push_reserved(change);
        self.room = room;
        let number = self.table.number();
        self.commits = self.commits.with(number, &unit);
        commit_outcomes::laws::trees_have_commits();
        commit_outcomes::laws::units_have_names();
        commit_outcomes::laws::commits_are_kept();
        record_commit(&mut self.outcomes, &unit, number, earlier);
        Reply::Awaits { number }
    }
}
