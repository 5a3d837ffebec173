//! Transactions: each call is one event, in one hold; a commit then waits until its change is durable.
ghost use Rattle.std.specs.Prelude.{◌≡◌, IfOk, IfErr};
ghost use Rattle.store_model.specs.declared.event.Event.TheVariants as event;
ghost use Rattle.store_model.specs.declared.event.Question.TheVariants as question;
ghost use Rattle.store_model.specs.declared.event.Reply.TheVariants as reply;
ghost use Rattle.ktm_calls.specs.Answers.{CommitStands};
ghost use Rattle.ktm_calls.specs.Moments.{SeesMore, Tells, TellsDurably};
ghost use Rattle.ktm_calls.specs.Denials.{IsCommitDenied, IsDenied, IsRefusal};

use crate::key::Key;
use crate::locked::Told;
use crate::receipt::Receipt;
use crate::registry::{Denied, Registry};
use crate::session::Session;
use crate::waiting::MemoryPolicy;
use histories::Start;
use reg_names::ValueName;
use std::sync::Wait;
use store_engine::StoreEngine;
use store_model::{Event, Outcome, Question, Reply, Tx};
use uuid::Uuid;

impl<E: StoreEngine, O: Start> Registry<E, O> {
    /// Begins a transaction, with a unit of work id.
    pub fn create_transaction<R: Wait>(
        &self,
        rt: &R,
        session: &mut Session<O>,
        id: Uuid,
    ) -> Result<(Tx, Told), Denied>
        ensures seen { SeesMore session.old.seen session.new.seen }
        ensures number { session.new.number ≡ session.old.number }
        ensures told { IfOk result (λ r. Tells O.sole O.start O.trees O.number O.hives session.old.seen session.new.seen
            (event.Begin session.old.number id) r.1) }
        ensures granted { IfOk result (λ r. ¬ (IsRefusal r.1.reply)) }
        ensures answer { IfOk result (λ r. r.1.reply ≡ reply.Begun r.0) }
        ensures denied { IfErr result (IsDenied O.sole O.start O.trees O.number O.hives session.old.seen session.new.seen
            (event.Begin session.old.number id)) }
    {
        let event = Event::Begin {
            session: session.number(),
            id,
        };
        let told = self.serve(rt, session, event)?;
        match told.reply() {
            Reply::Begun { tx } => Ok((*tx, told)),
            _ => unreachable!(),
        }
    }

    /// Rolls a transaction back.
    pub fn rollback_transaction<R: Wait>(
        &self,
        rt: &R,
        session: &mut Session<O>,
        tx: Tx,
    ) -> Result<Told, Denied>
        ensures seen { SeesMore session.old.seen session.new.seen }
        ensures number { session.new.number ≡ session.old.number }
        ensures told { IfOk result (λ t. Tells O.sole O.start O.trees O.number O.hives session.old.seen session.new.seen
            (event.Rollback session.old.number tx) t) }
        ensures granted { IfOk result (λ t. ¬ (IsRefusal t.reply)) }
        ensures denied { IfErr result (IsDenied O.sole O.start O.trees O.number O.hives session.old.seen session.new.seen
            (event.Rollback session.old.number tx)) }
    {
        let event = Event::Rollback {
            session: session.number(),
            tx,
        };
        self.serve(rt, session, event)
    }

    /// Closes a handle: its place is free, and a transaction that is active is rolled back.
    pub fn close_transaction<R: Wait>(
        &self,
        rt: &R,
        session: &mut Session<O>,
        tx: Tx,
    ) -> Result<Told, Denied>
        ensures seen { SeesMore session.old.seen session.new.seen }
        ensures number { session.new.number ≡ session.old.number }
        ensures told { IfOk result (λ t. Tells O.sole O.start O.trees O.number O.hives session.old.seen session.new.seen
            (event.Close session.old.number tx) t) }
        ensures granted { IfOk result (λ t. ¬ (IsRefusal t.reply)) }
        ensures denied { IfErr result (IsDenied O.sole O.start O.trees O.number O.hives session.old.seen session.new.seen
            (event.Close session.old.number tx)) }
    {
        let event = Event::Close {
            session: session.number(),
            tx,
        };
        self.serve(rt, session, event)
    }

    /// What became of a transaction.
    pub fn outcome<R: Wait>(
        &self,
        rt: &R,
        session: &mut Session<O>,
        tx: Tx,
    ) -> Result<(Outcome, Told), Denied>
        ensures seen { SeesMore session.old.seen session.new.seen }
        ensures number { session.new.number ≡ session.old.number }
        ensures told { IfOk result (λ r. Tells O.sole O.start O.trees O.number O.hives session.old.seen session.new.seen
            (event.Outcome session.old.number tx) r.1) }
        ensures granted { IfOk result (λ r. ¬ (IsRefusal r.1.reply)) }
        ensures answer { IfOk result (λ r. r.1.reply ≡ reply.OutcomeIs r.0) }
        ensures denied { IfErr result (IsDenied O.sole O.start O.trees O.number O.hives session.old.seen session.new.seen
            (event.Outcome session.old.number tx)) }
    {
        let event = Event::Outcome {
            session: session.number(),
            tx,
        };
        let told = self.serve(rt, session, event)?;
        match told.reply() {
            Reply::OutcomeIs { outcome } => Ok((*outcome, told)),
            _ => unreachable!(),
        }
    }

    /// The number of a unit of work's last commit. No session needs to be open for it, and it is told also once the
    /// device has failed. [`Session::outcome_of`] answers the same of what is published, and waits for nobody.
    ///
    /// Refused with `Unsupported` if the store keeps no outcomes; with `NotFound` if it has none of the unit; and with
    /// `NoMemory`.
    pub fn outcome_of<R: Wait>(
        &self,
        rt: &R,
        session: &mut Session<O>,
        unit: Uuid,
    ) -> Result<(u64, Told), Denied>
        ensures seen { SeesMore session.old.seen session.new.seen }
        ensures number { session.new.number ≡ session.old.number }
        ensures told { IfOk result (λ r. Tells O.sole O.start O.trees O.number O.hives session.old.seen session.new.seen
            (event.OutcomeOf unit) r.1) }
        ensures granted { IfOk result (λ r. ¬ (IsRefusal r.1.reply)) }
        ensures answer { IfOk result (λ r. r.1.reply ≡ reply.CommittedAs r.0) }
        ensures denied { IfErr result (IsDenied O.sole O.start O.trees O.number O.hives session.old.seen session.new.seen
            (event.OutcomeOf unit)) }
    {
        let told = self.serve(rt, session, Event::OutcomeOf { id: unit })?;
        match told.reply() {
            Reply::CommittedAs { number } => Ok((*number, told)),
            _ => unreachable!(),
        }
    }

    /// The answer to a question on a key in the view of a transaction: the reply that is told.
    #[tactic(auto, using(crate::proofs::Seen::seen_self))]
    pub fn look_up_transacted<R: Wait>(
        &self,
        rt: &R,
        session: &mut Session<O>,
        tx: Tx,
        key: &Key,
        question: Question,
    ) -> Result<Told, Denied>
        ensures seen { SeesMore session.old.seen session.new.seen }
        ensures number { session.new.number ≡ session.old.number }
        ensures told { IfOk result (λ t. Tells O.sole O.start O.trees O.number O.hives session.old.seen session.new.seen
            (event.TxRead session.old.number tx key.now.hive key.now.path question) t) }
        ensures granted { IfOk result (λ t. ¬ (IsRefusal t.reply)) }
        ensures denied { IfErr result (IsDenied O.sole O.start O.trees O.number O.hives session.old.seen session.new.seen
            (event.TxRead session.old.number tx key.now.hive key.now.path question)) }
    {
        let event = Event::TxRead {
            session: session.number(),
            tx,
            hive: key.hive,
            path: key.path_copy()?,
            question,
        };
        self.serve(rt, session, event)
    }

    /// Opens a key in the view of a transaction: the reply that is told has its counts, as `query_info_transacted`.
    pub fn reg_open_key_transacted<R: Wait>(
        &self,
        rt: &R,
        session: &mut Session<O>,
        tx: Tx,
        key: &Key,
    ) -> Result<Told, Denied>
        ensures seen { SeesMore session.old.seen session.new.seen }
        ensures number { session.new.number ≡ session.old.number }
        ensures told { IfOk result (λ t. Tells O.sole O.start O.trees O.number O.hives session.old.seen session.new.seen
            (event.TxRead session.old.number tx key.now.hive key.now.path question.InfoOf) t) }
        ensures granted { IfOk result (λ t. ¬ (IsRefusal t.reply)) }
        ensures denied { IfErr result (IsDenied O.sole O.start O.trees O.number O.hives session.old.seen session.new.seen
            (event.TxRead session.old.number tx key.now.hive key.now.path question.InfoOf)) }
    {
        self.look_up_transacted(rt, session, tx, key, Question::InfoOf)
    }

    /// A value of a key in the view of a transaction, by its name.
    pub fn get_value_transacted<R: Wait>(
        &self,
        rt: &R,
        session: &mut Session<O>,
        tx: Tx,
        key: &Key,
        name: ValueName,
    ) -> Result<Told, Denied>
        ensures seen { SeesMore session.old.seen session.new.seen }
        ensures number { session.new.number ≡ session.old.number }
        ensures told { IfOk result (λ t. Tells O.sole O.start O.trees O.number O.hives session.old.seen session.new.seen
            (event.TxRead session.old.number tx key.now.hive key.now.path (question.ValueOf name)) t) }
        ensures granted { IfOk result (λ t. ¬ (IsRefusal t.reply)) }
        ensures denied { IfErr result (IsDenied O.sole O.start O.trees O.number O.hives session.old.seen session.new.seen
            (event.TxRead session.old.number tx key.now.hive key.now.path (question.ValueOf name))) }
    {
        self.look_up_transacted(rt, session, tx, key, Question::ValueOf { name })
    }

    /// The value of a key at an index in the view of a transaction.
    pub fn enum_value_transacted<R: Wait>(
        &self,
        rt: &R,
        session: &mut Session<O>,
        tx: Tx,
        key: &Key,
        index: usize,
    ) -> Result<Told, Denied>
        ensures seen { SeesMore session.old.seen session.new.seen }
        ensures number { session.new.number ≡ session.old.number }
        ensures told { IfOk result (λ t. Tells O.sole O.start O.trees O.number O.hives session.old.seen session.new.seen
            (event.TxRead session.old.number tx key.now.hive key.now.path (question.ValueAt index)) t) }
        ensures granted { IfOk result (λ t. ¬ (IsRefusal t.reply)) }
        ensures denied { IfErr result (IsDenied O.sole O.start O.trees O.number O.hives session.old.seen session.new.seen
            (event.TxRead session.old.number tx key.now.hive key.now.path (question.ValueAt index))) }
    {
        self.look_up_transacted(rt, session, tx, key, Question::ValueAt { index })
    }

    /// The name of the subkey of a key at an index in the view of a transaction.
    pub fn enum_key_transacted<R: Wait>(
        &self,
        rt: &R,
        session: &mut Session<O>,
        tx: Tx,
        key: &Key,
        index: usize,
    ) -> Result<Told, Denied>
        ensures seen { SeesMore session.old.seen session.new.seen }
        ensures number { session.new.number ≡ session.old.number }
        ensures told { IfOk result (λ t. Tells O.sole O.start O.trees O.number O.hives session.old.seen session.new.seen
            (event.TxRead session.old.number tx key.now.hive key.now.path (question.KeyAt index)) t) }
        ensures granted { IfOk result (λ t. ¬ (IsRefusal t.reply)) }
        ensures denied { IfErr result (IsDenied O.sole O.start O.trees O.number O.hives session.old.seen session.new.seen
            (event.TxRead session.old.number tx key.now.hive key.now.path (question.KeyAt index))) }
    {
        self.look_up_transacted(rt, session, tx, key, Question::KeyAt { index })
    }

    /// How many subkeys and values a key has in the view of a transaction, and its last written time.
    pub fn query_info_transacted<R: Wait>(
        &self,
        rt: &R,
        session: &mut Session<O>,
        tx: Tx,
        key: &Key,
    ) -> Result<Told, Denied>
        ensures seen { SeesMore session.old.seen session.new.seen }
        ensures number { session.new.number ≡ session.old.number }
        ensures told { IfOk result (λ t. Tells O.sole O.start O.trees O.number O.hives session.old.seen session.new.seen
            (event.TxRead session.old.number tx key.now.hive key.now.path question.InfoOf) t) }
        ensures granted { IfOk result (λ t. ¬ (IsRefusal t.reply)) }
        ensures denied { IfErr result (IsDenied O.sole O.start O.trees O.number O.hives session.old.seen session.new.seen
            (event.TxRead session.old.number tx key.now.hive key.now.path question.InfoOf)) }
    {
        self.look_up_transacted(rt, session, tx, key, Question::InfoOf)
    }

    /// Commits a transaction as one change of this moment, and waits until it is durable. The receipt has the change's
    /// number, or 0 for a transaction without operations.
    ///
    /// If it is refused with its own event, nothing was accepted. Else a step of the journal was refused, with `DiskFault`
    /// or `Faulted`: the change is accepted, and whether it is durable is open until the store is opened again. A step for
    /// which there is no memory is made again.
    pub fn commit_transaction<R: Wait>(
        &self,
        rt: &R,
        session: &mut Session<O>,
        tx: Tx,
        moment: u64,
    ) -> Result<(Receipt<O>, Told), Denied>
        ensures seen { SeesMore session.old.seen session.new.seen }
        ensures number { session.new.number ≡ session.old.number }
        ensures told { IfOk result (λ r. TellsDurably O.sole O.start O.trees O.number O.hives session.old.seen session.new.seen
            (event.CommitAccept session.old.number tx moment) r.0 r.1) }
        ensures stands { IfOk result (λ r. CommitStands O.number session.new.seen.list moment r.1.reply) }
        ensures denied { IfErr result (IsCommitDenied O.sole O.start O.trees O.number O.hives session.old.seen session.new.seen
            (event.CommitAccept session.old.number tx moment)) }
    {
        self.commit(rt, session, tx, moment, MemoryPolicy::Retry)
    }

    /// The same, but it waits for no memory: it may also be refused with `NoMemory` for a step of the journal. The change
    /// is accepted then, and any later step may make it durable.
    pub fn try_commit_transaction<R: Wait>(
        &self,
        rt: &R,
        session: &mut Session<O>,
        tx: Tx,
        moment: u64,
    ) -> Result<(Receipt<O>, Told), Denied>
        ensures seen { SeesMore session.old.seen session.new.seen }
        ensures number { session.new.number ≡ session.old.number }
        ensures told { IfOk result (λ r. TellsDurably O.sole O.start O.trees O.number O.hives session.old.seen session.new.seen
            (event.CommitAccept session.old.number tx moment) r.0 r.1) }
        ensures stands { IfOk result (λ r. CommitStands O.number session.new.seen.list moment r.1.reply) }
        ensures denied { IfErr result (IsCommitDenied O.sole O.start O.trees O.number O.hives session.old.seen session.new.seen
            (event.CommitAccept session.old.number tx moment)) }
    {
        self.commit(rt, session, tx, moment, MemoryPolicy::GiveUp)
    }

    // a commit by this policy
    fn commit<R: Wait>(
        &self,
        rt: &R,
        session: &mut Session<O>,
        tx: Tx,
        moment: u64,
        policy: MemoryPolicy,
    ) -> Result<(Receipt<O>, Told), Denied>
        ensures seen { SeesMore session.old.seen session.new.seen }
        ensures number { session.new.number ≡ session.old.number }
        ensures told { IfOk result (λ r. TellsDurably O.sole O.start O.trees O.number O.hives session.old.seen session.new.seen
            (event.CommitAccept session.old.number tx moment) r.0 r.1) }
        ensures stands { IfOk result (λ r. CommitStands O.number session.new.seen.list moment r.1.reply) }
        ensures denied { IfErr result (IsCommitDenied O.sole O.start O.trees O.number O.hives session.old.seen session.new.seen
            (event.CommitAccept session.old.number tx moment)) }
    {
        let event = Event::CommitAccept {
            session: session.number(),
            tx,
            moment,
        };
        let answer = self.serve_durably(rt, session, event, policy)?;
        Ok(answer)
    }
}
