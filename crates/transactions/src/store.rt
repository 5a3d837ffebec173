//! A store in memory: what it answers to each event that neither makes a step nor folds the history, and what the
//! caller reports to it of those that do.
ghost use Rattle.std.specs.Prelude.{◌≡◌, ◌<◌, ◌≤◌, ◌+◌, ◌-◌, ◌==◌, ◌++◌, ◌∷◌, ℕ, [], length, drop, max, nat_lt, true, false, nat_le, Some, None, IfOk, IfErr, OnOk, OnSome};
ghost use Rattle.std.specs.List.{AllByRecursion, list_any};
ghost use Rattle.refusals.specs.declared.refusal.Refusal.TheVariants.{NoMemory, NoSuchHandle};
ghost use Rattle.store_model.specs.declared.event.Reply.TheVariants as reply;
ghost use Rattle.refusals.specs.declared.limits.TheConstants.{GREATEST_NUMBER};
ghost use Rattle.store_model.specs.Invariant.{OutcomesFit};
ghost use Rattle.store_model.specs.Steps.{Step, is_request, may_accept};
ghost use Rattle.store_model.specs.Machine.{bounds_of, opened_machine, last_number, fault, trees_now, is_open, room_refusal, unnamed_refusal, tx_call_refusal};
ghost use Rattle.store_model.specs.Transactions.{own, inactive_refusal};
ghost use Rattle.transactions.specs.Histories.{IsShort};
ghost use Rattle.transactions.specs.Stores.{Answers, needs_device};
ghost use Rattle.transactions.specs.Prepared.{Predicts, IsPrepared, IsReady, IsReadyWrite, JudgesWrite, PreparesEvent, PreparesWrite, AcceptsJust, change_of_ready, change_to_accept};

mod commits;
mod outcomes;
mod retention;

use crate::commit_log::CommitLog;
use crate::history::ChangeHistory;
use crate::prepared::{JudgedWrite, Prepared, Ready, ReadyWrite};
use crate::short::change_is_short;
use crate::table::{TxTable, TxWriteOutcome};
use change_codec::EncodedChange;
use commit_outcomes::CommitList;
use refusals::Refusal;
use refusals::limits::{GREATEST_NUMBER, MOST_JOURNAL_BYTES};
use reg_names::Path;
use reg_tree::{CHANGE_BYTES, Element, Op, Ops, Trees};
use std::alloc::{AllocError, Global};
use std::marker::Model;
use std::snapshot::Snapshot;
use store_model::room::{CHANGE_START, MOST_OUTCOME_BYTES};
use store_model::{Event, Question, Reply, Sessions, StoreBounds, Tx, look_up};
use uuid::Uuid;

/// A store in memory. Contracts see it as the machine's state, the number above which its changes are retained, and how
/// many more changes it has space for.
///
/// It keeps the trees of now, and the accepted changes that were not discarded. The trees as they were opened and the
/// whole list of accepted changes are known to contracts alone. It makes no step. The caller that keeps the journal and
/// the hives reports these to it: how far changes are durable ([`mark_durable`](Store::mark_durable)), what room is
/// free again ([`free`](Store::free)), and that the device has failed ([`fail`](Store::fail)). The caller folds the
/// history too ([`fold`](Store::fold)), and keeps the changes that a hive still lacks. An event that may accept
/// a change may be made in two parts. [`prepare`](Store::prepare) allocates all that it needs, and
/// [`finish`](Store::finish) answers it and takes no memory.
pub struct Store {
    alloc: Global,
    opened: Snapshot<Trees>,
    before: u64,
    history: ChangeHistory,
    sessions: Sessions,
    table: TxTable,
    durable: u64,
    room: u64,
    faulted: bool,
    bounds: StoreBounds,
    commits: CommitLog,
    outcomes: Option<CommitList>,
}

impl Drop for Store {
    // one drop for all that own a store, whose proofs see no more of it than that
    fn drop(self) {
        let Store {
            alloc: _,
            opened: _,
            before: _,
            history: _,
            sessions: _,
            table: _,
            durable: _,
            room: _,
            faulted: _,
            bounds: _,
            commits: _,
            outcomes: _,
        } = self;
    }
}

impl Model for Store {
    ghost use Rattle.transactions.specs.CommitLogs.{commits_in};
    ghost use Rattle.transactions.specs.Stores.{StoreView, store_of, store_code, OutcomesMatch, TableMatchesMachine};
    ghost use Rattle.std.specs.Prelude.{◌+◌};

    ghost Value = { StoreView };

    ghost coded = { store_code };

    ghost view = { λ inside. record {
      machine =
          store_of inside.opened.value inside.before inside.history.changes (commits_in inside.commits)
          inside.sessions inside.table inside.durable inside.room inside.faulted inside.bounds;
      retained = inside.before + inside.history.discard_flushed;
      spare = inside.history.spare;
    } };

    ghost invariant = { λ inside. TableMatchesMachine inside.table
        (store_of inside.opened.value inside.before inside.history.changes (commits_in inside.commits)
        inside.sessions inside.table inside.durable inside.room inside.faulted inside.bounds)
        × OutcomesMatch inside.outcomes
        (store_of inside.opened.value inside.before inside.history.changes (commits_in inside.commits)
        inside.sessions inside.table inside.durable inside.room inside.faulted inside.bounds) };
}

impl Store {
    /// A store that was opened on trees after the change of a number. Its journal has used `room` bytes of its room.
    pub fn new(alloc: Global, trees: Trees, number: u64, room: u64) -> Result<Store, AllocError>
        ensures machine { IfOk result (λ store. store.machine
            ≡ record (opened_machine (bounds_of trees) trees number [] 0) { room = room }) }
        ensures retained { IfOk result (λ store. store.retained ≡ number) }
    {
        let bounds = StoreBounds::of(&trees);
        Store::within(alloc, bounds, trees, number, room)
    }

    /// The same, within these bounds. If there is one tree more than calls may name, it keeps the outcomes of commits.
    pub fn within(
        alloc: Global,
        bounds: StoreBounds,
        trees: Trees,
        number: u64,
        room: u64,
    ) -> Result<Store, AllocError>
        requires outcomes { OutcomesFit bounds trees number }
        requires number { nat_lt bounds.hives (length trees) ≡ true → number ≤ GREATEST_NUMBER }
        ensures machine { IfOk result (λ store. store.machine
            ≡ record (opened_machine bounds trees number [] 0) { room = room }) }
        ensures retained { IfOk result (λ store. store.retained ≡ number) }
    {
        let outcomes = outcomes::found_in(alloc, &trees, bounds.hives, number)?;
        let aside = match outcomes {
            Some(_) => MOST_OUTCOME_BYTES,
            None => 0,
        };
        Ok(Store {
            alloc,
            opened: Snapshot::of(&trees),
            before: number,
            history: ChangeHistory::new(alloc),
            sessions: Sessions::new(alloc)?,
            table: TxTable::new(alloc, trees, number, bounds.hives, aside),
            durable: number,
            room,
            faulted: false,
            bounds,
            commits: CommitLog::Nothing,
            outcomes,
        })
    }

    /// Answers an event that neither makes a step nor folds the history.
    pub fn event(&mut self, event: Event) -> Reply
        requires is_request { is_request event ≡ true }
        ensures step { Step self.old.machine event result self.new.machine }
        ensures retained { self.new.retained ≡ self.old.retained }
    {
        if self.faulted && needs_device(&event) {
            return Reply::Refused {
                refusal: Refusal::Faulted,
            };
        }
        match self.answer(event) {
            Ok(reply) => reply,
            Err(refusal) => Reply::Refused { refusal },
        }
    }

    /// Prepares an event that may accept a change: all memory that it needs is allocated, and nothing is accepted yet.
    ///
    /// Refused only if there is no memory. What is prepared may be finished as long as the store is as it is now.
    pub fn prepare(&mut self, event: Event) -> Result<Prepared, AllocError>
        requires accepts { may_accept event ≡ true }
        ensures prepared { IfOk result (λ prepared. (prepared.event.value ≡ event)
            × IsPrepared self.new prepared) }
        ensures predicted { IfOk result (λ prepared.
            Predicts self.new.machine event (change_to_accept prepared)) }
        ensures machine { self.new.machine ≡ self.old.machine }
        ensures retained { self.new.retained ≡ self.old.retained }
    {
        let kept = Snapshot::of(&event);
        let ready = self.preparation_of(event)?;
        Ok(Prepared { event: kept, ready })
    }

    // what an event that may accept a change is going to do, if there is enough memory
    fn preparation_of(&mut self, event: Event) -> Result<Ready, AllocError>
        requires accepts { may_accept event ≡ true }
        ensures ready { IfOk result (IsReady self.new.machine self.new.spare event) }
        ensures machine { self.new.machine ≡ self.old.machine }
        ensures retained { self.new.retained ≡ self.old.retained }
    {
        match self.make(event) {
            Ok(ready) => Ok(ready),
            Err(Refusal::NoMemory) => Err(AllocError),
            Err(refusal) => Ok(Ready::Answered(Reply::Refused { refusal })),
        }
    }

    /// Finishes an event that was prepared: answers it. Takes no memory.
    pub fn finish(&mut self, prepared: Prepared) -> Reply
        requires prepared { IsPrepared self.old prepared }
        ensures step { Step self.old.machine prepared.event.value result self.new.machine }
        ensures never_no_memory { ¬ (result ≡ reply.Refused NoMemory) }
        ensures shown { AcceptsJust (change_to_accept prepared) self.old.machine self.new.machine }
        ensures retained { self.new.retained ≡ self.old.retained }
    {
        self.accept(prepared.ready)
    }

    // what an event that may accept a change is going to do
    fn make(&mut self, event: Event) -> Result<Ready, Refusal>
        requires accepts { may_accept event ≡ true }
        ensures made { PreparesEvent self.old.machine self.new.spare event result }
        ensures machine { self.new.machine ≡ self.old.machine }
        ensures retained { self.new.retained ≡ self.old.retained }
    {
        if self.faulted {
            return Err(Refusal::Faulted);
        }
        match event {
            Event::Write {
                session,
                moment,
                op,
            } => match self.make_write(session, moment, op)? {
                Some(write) => Ok(Ready::Write(write)),
                None => Ok(Ready::Answered(Reply::Opened)),
            },
            Event::CommitAccept {
                session,
                tx,
                moment,
            } => self.make_commit(session, tx, moment),
            _ => unreachable!(),
        }
    }

    /// The trees of now.
    pub fn trees(&self) -> &Trees
        ensures { result.now ≡ trees_now self.now.machine }
    {
        self.table.trees()
    }

    /// The number of the last accepted change, or of the opening if none was accepted.
    pub fn last_number(&self) -> u64
        ensures number { result ≡ last_number self.now.machine }
        ensures retained { self.now.retained ≤ result }
    {
        let _ = self.history.len(); // for the prover
        self.table.number()
    }

    /// The number at which the store was opened: the first accepted change has the next one.
    pub fn before(&self) -> u64
        ensures { result ≡ self.now.machine.before }
    {
        self.before
    }

    /// The number up to which changes are durable.
    pub fn durable(&self) -> u64
        ensures durable { result ≡ self.now.machine.durable }
        ensures known { result ≤ last_number self.now.machine }
    {
        self.durable
    }

    /// How many bytes of the journal's room are used: by what it encodes, and by what is still to be written.
    pub fn room(&self) -> u64
        ensures { result ≡ self.now.machine.room }
    {
        self.room
    }

    /// Whether the device has failed.
    pub fn is_faulted(&self) -> bool
        ensures { result ≡ self.now.machine.faulted }
    {
        self.faulted
    }

    /// Records that changes are durable up to this number.
    pub fn mark_durable(&mut self, durable: u64)
        requires there { durable ≤ last_number self.old.machine }
        ensures machine { self.new.machine ≡ record self.old.machine { durable = durable } }
        ensures retained { self.new.retained ≡ self.old.retained }
    {
        self.durable = durable;
    }

    /// Records that this many bytes of the journal's room are free again.
    pub fn free(&mut self, bytes: u64)
        requires used { bytes ≤ self.old.machine.room }
        ensures machine { self.new.machine
            ≡ record self.old.machine { room = self.old.machine.room - bytes } }
        ensures retained { self.new.retained ≡ self.old.retained }
    {
        self.room -= bytes;
    }

    /// Records that the device has failed: the store is faulted from now on.
    pub fn fail(&mut self)
        requires sound { self.old.machine.faulted ≡ false }
        ensures machine { self.new.machine
            ≡ record self.old.machine { failures = self.old.machine.failures + 1; faulted = true } }
        ensures retained { self.new.retained ≡ self.old.retained }
    {
        self.faulted = true;
    }

    fn answer(&mut self, event: Event) -> Result<Reply, Refusal>
        requires is_request { is_request event ≡ true }
        requires free { needs_device event ≡ true → fault self.old.machine ≡ None }
        ensures step { Answers self.old.machine event result self.new.machine }
        ensures retained { self.new.retained ≡ self.old.retained }
    {
        match event {
            Event::StartSession { session } => self.start_session(session),
            Event::EndSession { session } => self.end_session(session),
            Event::Read {
                session,
                hive,
                path,
                question,
            } => self.read(session, hive, &path, question),
            Event::Write {
                session,
                moment,
                op,
            } => self.write(session, moment, op),
            Event::Begin { session, id } => self.begin(session, id),
            Event::TxRead {
                session,
                tx,
                hive,
                path,
                question,
            } => self.tx_read(session, tx, hive, &path, question),
            Event::TxWrite {
                session,
                tx,
                moment,
                op,
            } => self.tx_write(session, tx, moment, op),
            Event::CommitAccept {
                session,
                tx,
                moment,
            } => self.commit_accept(session, tx, moment),
            Event::Rollback { session, tx } => self.roll_back(session, tx),
            Event::Close { session, tx } => self.close(session, tx),
            Event::Outcome { session, tx } => self.outcome(session, tx),
            Event::OutcomeOf { id } => self.outcome_of(&id),
            Event::FlushAsk => Ok(self.flush_ask()),
            Event::Acked { number } => self.acked(number),
            Event::Fold | Event::JournalStep | Event::FlusherStep { .. } | Event::TrimStep =>
                unreachable!(),
        }
    }

    fn start_session(&mut self, session: u32) -> Result<Reply, Refusal>
        requires free { fault self.old.machine ≡ None }
        ensures step { Answers self.old.machine (Event.StartSession session) result self.new.machine }
        ensures retained { self.new.retained ≡ self.old.retained }
    {
        if self.sessions.is_open(session) {
            return Ok(Reply::Done);
        }
        match self.sessions.start(session) {
            Ok(()) => Ok(Reply::Done),
            Err(_) => Err(Refusal::NoSeat),
        }
    }

    fn end_session(&mut self, session: u32) -> Result<Reply, Refusal>
        ensures step { Answers self.old.machine (Event.EndSession session) result self.new.machine }
        ensures retained { self.new.retained ≡ self.old.retained }
    {
        open(&self.sessions, session)?;
        self.table.end_session(session);
        self.sessions.end(session);
        Ok(Reply::Done)
    }

    fn read(
        &self,
        session: u32,
        hive: u8,
        path: &Path,
        question: Question,
    ) -> Result<Reply, Refusal>
        ensures { Answers self.now.machine (Event.Read session hive path.now question) result self.now.machine }
    {
        open(&self.sessions, session)?;
        self.check_named(hive)?;
        let found = look_up(self.alloc, self.table.trees(), hive, path, question)?;
        Ok(Reply::Read { found })
    }

    fn write(&mut self, session: u32, moment: u64, op: Op) -> Result<Reply, Refusal>
        requires free { fault self.old.machine ≡ None }
        ensures step { Answers self.old.machine (Event.Write session moment op) result self.new.machine }
        ensures retained { self.new.retained ≡ self.old.retained }
    {
        match self.make_write(session, moment, op)? {
            Some(write) => Ok(self.accept_write(write)),
            None => Ok(Reply::Opened),
        }
    }

    // what an operation by itself leads to, all its memory being allocated; nothing if the key that it creates is there
    fn make_write(
        &mut self,
        session: u32,
        moment: u64,
        op: Op,
    ) -> Result<Option<ReadyWrite>, Refusal>
        requires free { fault self.old.machine ≡ None }
        ensures made { PreparesWrite self.old.machine session moment op result }
        ensures spare { IfOk result (λ made. OnSome made (0 < self.new.spare)) }
        ensures machine { self.new.machine ≡ self.old.machine }
        ensures retained { self.new.retained ≡ self.old.retained }
    {
        let Some(judged) = self.judge_write(session, moment, &op)? else {
            return Ok(None);
        };
        let ops = Ops::one(self.alloc, op)?;
        let rebased = self
            .table
            .rebase_views(ops.list(), moment, &judged.holders)?;
        let element = EncodedChange::of(self.alloc, &Element { moment, ops })?;
        self.history.reserve()?;
        Ok(Some(ReadyWrite {
            element,
            trees: judged.trees,
            levels: judged.levels,
            holders: judged.holders,
            rebased,
            room: judged.room,
        }))
    }

    // judges an operation by itself, and makes the trees after it; nothing if the key that it creates is there
    fn judge_write(
        &self,
        session: u32,
        moment: u64,
        op: &Op,
    ) -> Result<Option<JudgedWrite>, Refusal>
        requires free { fault self.now.machine ≡ None }
        ensures { JudgesWrite self.now.machine session moment op.now result }
    {
        open(&self.sessions, session)?;
        self.check_named(op.hive())?;
        let now = self.table.trees();
        let Some((trees, levels)) = now.write_counted(self.alloc, op, moment)? else {
            return Ok(None);
        };
        let room = self.room_with(CHANGE_BYTES.saturating_add(op.text_len()))?;
        change_is_short(op); // for the prover
        let holders = self.table.holders(op)?;
        Ok(Some(JudgedWrite {
            trees,
            levels,
            holders,
            room,
        }))
    }

    // an operation is accepted by itself
    fn accept_write(&mut self, write: ReadyWrite) -> Reply
        requires spare { 0 < self.old.spare }
        requires ready { (session : ℕ) × (moment : ℕ) × (op : Op)
            × IsReadyWrite self.old.machine session moment op write }
        ensures step { (session moment : ℕ) (op : Op) →
            IsReadyWrite self.old.machine session moment op write →
            Step self.old.machine (Event.Write session moment op) result self.new.machine }
        ensures trees { trees_now self.new.machine ≡ write.trees }
        ensures grows { self.new.machine.accepted
            ≡ self.old.machine.accepted ++ write.element ∷ [] }
        ensures never_no_memory { ¬ (result ≡ reply.Refused NoMemory) }
        ensures retained { self.new.retained ≡ self.old.retained }
    {
        let ReadyWrite {
            element,
            trees,
            levels,
            holders,
            rebased,
            room,
        } = write;
        self.history.push_reserved(element);
        self.table.accept(trees);
        self.table.take_views(rebased);
        self.table.roll_back_all(&holders);
        self.room = room;
        accepted(&self.table, levels)
    }

    // refuses a hive that calls may not name
    fn check_named(&self, hive: u8) -> Result<(), Refusal>
        ensures ok { OnOk result (unnamed_refusal self.now.machine hive ≡ None) }
        ensures refused { IfErr result (λ refusal.
            unnamed_refusal self.now.machine hive ≡ Some refusal) }
    {
        if usize::from(hive) < self.bounds.hives {
            Ok(())
        } else {
            Err(Refusal::NotFound)
        }
    }

    // refuses a session that isn't open, then a handle that is none of its active transactions', then a hive that calls
    // may not name
    fn check_call(&self, session: u32, tx: Tx, hive: u8) -> Result<(), Refusal>
        ensures there { OnOk result (is_open self.now.machine session ≡ true) }
        ensures active { OnOk result
            (inactive_refusal (own self.now.machine.tx_slots session tx) ≡ None) }
        ensures named { OnOk result (unnamed_refusal self.now.machine hive ≡ None) }
        ensures refused { IfErr result (λ refusal.
            tx_call_refusal self.now.machine session tx hive ≡ Some refusal) }
    {
        open(&self.sessions, session)?;
        self.table.check_active(session, tx)?;
        self.check_named(hive)
    }

    // the room that the journal has used with one change more, of this many bytes
    fn room_with(&self, length: u64) -> Result<u64, Refusal>
        ensures ok { IfOk result (λ room. (room_refusal self.now.machine length ≡ None)
            × (room ≡ self.now.machine.room + (17 + length))) }
        ensures refused { IfErr result (λ refusal.
            room_refusal self.now.machine length ≡ Some refusal) }
    {
        if self.history.len() as u64 >= self.bounds.changes
            || self.table.number() >= GREATEST_NUMBER
        {
            return Err(Refusal::HistoryFull);
        }
        let room = self
            .room
            .saturating_add(CHANGE_START)
            .saturating_add(length);
        if room > MOST_JOURNAL_BYTES {
            return Err(Refusal::JournalFull);
        }
        Ok(room)
    }

    fn begin(&mut self, session: u32, id: Uuid) -> Result<Reply, Refusal>
        requires free { fault self.old.machine ≡ None }
        ensures step { Answers self.old.machine (Event.Begin session id) result self.new.machine }
        ensures retained { self.new.retained ≡ self.old.retained }
    {
        open(&self.sessions, session)?;
        let tx = self.table.begin(session, id)?;
        Ok(Reply::Begun { tx })
    }

    fn tx_read(
        &mut self,
        session: u32,
        tx: Tx,
        hive: u8,
        path: &Path,
        question: Question,
    ) -> Result<Reply, Refusal>
        ensures step { Answers self.old.machine (Event.TxRead session tx hive path.now question) result self.new.machine }
        ensures retained { self.new.retained ≡ self.old.retained }
    {
        self.check_call(session, tx, hive)?;
        let found = self.table.view_read(session, tx, hive, path, question)?;
        Ok(Reply::Read { found })
    }

    fn tx_write(&mut self, session: u32, tx: Tx, moment: u64, op: Op) -> Result<Reply, Refusal>
        requires free { fault self.old.machine ≡ None }
        ensures step { Answers self.old.machine (Event.TxWrite session tx moment op) result self.new.machine }
        ensures retained { self.new.retained ≡ self.old.retained }
    {
        self.check_call(session, tx, op.hive())?;
        match self.table.write_active(session, tx, moment, op)? {
            TxWriteOutcome::Added { levels } => Ok(Reply::Added { levels }),
            TxWriteOutcome::Opened => Ok(Reply::Opened),
        }
    }

    fn commit_accept(&mut self, session: u32, tx: Tx, moment: u64) -> Result<Reply, Refusal>
        requires free { fault self.old.machine ≡ None }
        ensures step { Answers self.old.machine (Event.CommitAccept session tx moment) result self.new.machine }
        ensures retained { self.new.retained ≡ self.old.retained }
    {
        let ready = self.make_commit(session, tx, moment)?;
        Ok(self.accept(ready))
    }

    // an event that is prepared: it takes no memory
    fn accept(&mut self, ready: Ready) -> Reply
        requires ready { (event : Event) × IsReady self.old.machine self.old.spare event ready }
        ensures step { (event : Event) → IsReady self.old.machine self.old.spare event ready →
            Step self.old.machine event result self.new.machine }
        ensures never_no_memory { ¬ (result ≡ reply.Refused NoMemory) }
        ensures shown { AcceptsJust (change_of_ready ready) self.old.machine self.new.machine }
        ensures retained { self.new.retained ≡ self.old.retained }
    {
        match ready {
            Ready::Answered(reply) => reply,
            Ready::Write(write) => self.accept_write(write),
            Ready::Nothing(session, tx) => self.commit_nothing(session, tx),
            Ready::Commit(commit) => self.accept_commit(commit),
        }
    }

    fn roll_back(&mut self, session: u32, tx: Tx) -> Result<Reply, Refusal>
        ensures step { Answers self.old.machine (Event.Rollback session tx) result self.new.machine }
        ensures retained { self.new.retained ≡ self.old.retained }
    {
        open(&self.sessions, session)?;
        self.table.rollback(session, tx)?;
        Ok(Reply::Done)
    }

    fn close(&mut self, session: u32, tx: Tx) -> Result<Reply, Refusal>
        ensures step { Answers self.old.machine (Event.Close session tx) result self.new.machine }
        ensures retained { self.new.retained ≡ self.old.retained }
    {
        open(&self.sessions, session)?;
        self.table.close(session, tx)?;
        Ok(Reply::Done)
    }

    fn outcome(&self, session: u32, tx: Tx) -> Result<Reply, Refusal>
        requires free { fault self.now.machine ≡ None }
        ensures { Answers self.now.machine (Event.Outcome session tx) result self.now.machine }
    {
        open(&self.sessions, session)?;
        let outcome = self.table.outcome(session, tx)?;
        Ok(Reply::OutcomeIs { outcome })
    }

    fn flush_ask(&self) -> Reply
        requires free { fault self.now.machine ≡ None }
        ensures { Step self.now.machine Event.FlushAsk result self.now.machine }
    {
        Reply::Awaits {
            number: self.table.number(),
        }
    }

    // whether the change of a number is durable
    fn is_durable(&self, number: u64) -> bool
        ensures { result ≡ nat_le number self.now.machine.durable }
    {
        number <= self.durable
    }

    fn acked(&self, number: u64) -> Result<Reply, Refusal>
        ensures { Answers self.now.machine (Event.Acked number) result self.now.machine }
    {
        if self.is_durable(number) {
            return Ok(Reply::Receipt { number });
        }
        if self.faulted {
            return Err(Refusal::Faulted);
        }
        Ok(Reply::NotYet)
    }
}

// the answer to an operation that was accepted by itself, as the last change
fn accepted(table: &TxTable, levels: Option<usize>) -> Reply
    ensures { result ≡ reply.Accepted levels table.now.number }
{
    Reply::Accepted {
        levels,
        number: table.number(),
    }
}

// whether a faulted store refuses an event as faulted
fn needs_device(event: &Event) -> bool
    ensures { result ≡ needs_device event.now }
{
    matches!(
        event,
        Event::StartSession { .. }
            | Event::Write { .. }
            | Event::Begin { .. }
            | Event::TxWrite { .. }
            | Event::CommitAccept { .. }
            | Event::Outcome { .. }
            | Event::FlushAsk
    )
}

// refuses a session that isn't open
fn open(sessions: &Sessions, session: u32) -> Result<(), Refusal>
    ensures ok { OnOk result (list_any (λ s. s == session) sessions.now ≡ true) }
    ensures refused { IfErr result (λ refusal.
        (list_any (λ s. s == session) sessions.now ≡ false) × (refusal ≡ NoSuchHandle)) }
{
    if sessions.is_open(session) {
        Ok(())
    } else {
        Err(Refusal::NoSuchHandle)
    }
}
