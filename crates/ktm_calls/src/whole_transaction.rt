//! Whole transactions: each is begun, written, committed and closed in one hold.
ghost use Rattle.std.specs.Prelude.{◌≡◌, true, false, ℕ, List, IfOk, IfErr, OnOk};
ghost use Rattle.store_model.specs.Steps.{Step, is_fold, may_accept as accepts};
ghost use Rattle.store_model.specs.declared.event.Event.TheVariants as event;
ghost use Rattle.store_model.specs.declared.event.Reply.TheVariants as reply;
ghost use Rattle.ktm_calls.specs.Denials.{IsDenied, IsRefusal, denial_of};
ghost use Rattle.reg_tree.specs.declared.op.Op.{Op};
ghost use Rattle.ktm_calls.specs.Moments.{SeesMore, Sight};
ghost use Rattle.ktm_calls.specs.Room.{HasMadeRoom};
ghost use Rattle.ktm_calls.specs.WholeTransactions.{AreWritten, CommitsWhole, IsBegunAs, IsClosed, IsDeniedNext, IsStopped, IsWhole, IsWholeDenied, IsWritten, StopsWriting, TellsNext, WritesWhole, denial_in};

use crate::asker::Asker;
use crate::locked::{Locked, Told};
use crate::receipt::Receipt;
use crate::registry::{Denied, Registry, judged};
use crate::session::Session;
use crate::waiting::MemoryPolicy;
use histories::Start;
use refusals::Refusal;
use reg_tree::Op;
use std::sync::{MutexGuard, Wait};
use store_engine::StoreEngine;
use store_model::{Event, Reply, Tx};
use uuid::Uuid;

/// A whole transaction that was committed.
#[derive(Drop)]
pub struct WholeCommit<O: Start> {
    /// That its change is durable.
    pub receipt: Receipt<O>,
    /// What its commit was answered.
    pub told: Told,
    /// Its handle, if that couldn't be closed: its place is taken until it is.
    pub handle: Option<Tx>,
}

/// Why a whole transaction was denied. A handle that couldn't be closed is told: a transaction that was stopped is active
/// until it is closed, or its session ends.
#[derive(Drop)]
pub enum WholeDenied {
    /// It wasn't begun.
    NotBegun(Denied),
    /// A write or its commit was refused; nothing was accepted.
    Stopped(Denied, Option<Tx>),
    /// The change was accepted, and a step that would make it durable was refused: whether it is durable is open until the
    /// store is opened again.
    Undecided(Denied, Option<Tx>),
}

impl WholeDenied {
    /// The refusal.
    pub fn refusal(&self) -> Option<Refusal>
        ensures { result ≡ denial_of (denial_in self.now) }
    {
        match self {
            WholeDenied::NotBegun(why)
            | WholeDenied::Stopped(why, _)
            | WholeDenied::Undecided(why, _) => why.refusal(),
        }
    }
}

// a whole transaction whose change is accepted, and is to be waited for
#[derive(Drop)]
pub(crate) struct WholeAccept {
    pub(crate) number: u64,
    pub(crate) told: Told,
    pub(crate) handle: Option<Tx>,
}

impl<E: StoreEngine, O: Start> Registry<E, O> {
    /// A transaction in one hold, for a unit of work: it is begun, the operations are written in their order, it is committed
    /// as one change of this moment, and closed. Between its events nothing of others stands. Then it waits until the change is
    /// durable, as [`Registry::commit_transaction`] does. The receipt has the change's number, or 0 if there are no operations.
    ///
    /// Others wait for the lock while the operations are written, and once for all of them. So it is for operations that
    /// are at hand, and not for a great many.
    ///
    /// Refused as the calls that it stands for: with the refusal of the first write that is refused, or of the commit. Then
    /// it is rolled back, and nothing was accepted.
    pub fn transact<R: Wait>(
        &self,
        rt: &R,
        session: &mut Session<O>,
        id: Uuid,
        moment: u64,
        ops: Vec<Op>,
    ) -> Result<WholeCommit<O>, WholeDenied>
        ensures seen { SeesMore session.old.seen session.new.seen }
        ensures number { session.new.number ≡ session.old.number }
        ensures committed { IfOk result (λ made. CommitsWhole O.sole O.start O.trees O.number O.hives session.old.number
            id moment ops.items session.old.seen session.new.seen made.receipt made.told made.handle) }
        ensures denied { IfErr result (IsWholeDenied O.sole O.start O.trees O.number O.hives session.old.number
            id moment ops.items session.old.seen session.new.seen) }
    {
        let number = session.number();
        let mut guard = self.lock_with_room(rt);
        let answer = (&mut *guard).transact(rt, &mut session.asker, number, id, moment, ops);
        match answer {
            Ok(accept) => self.wait_whole(rt, &mut session.asker, accept, guard),
            Err(why) => {
                let _ = MutexGuard::unlock(guard);
                Err(why)
            }
        }
    }

    // waits until a whole transaction is durable
    fn wait_whole<'a, R: Wait>(
        &'a self,
        rt: &R,
        mine: &mut Asker<O>,
        accept: WholeAccept,
        guard: MutexGuard<'a, Locked<E, O>>,
    ) -> Result<WholeCommit<O>, WholeDenied>
        requires awaited { accept.told.reply ≡ reply.Awaits accept.number }
        ensures seen { SeesMore mine.old mine.new }
        ensures committed { IfOk result (λ made. (session moment : ℕ) (id : List ℕ) (ops : List Op) (was : Sight) →
            IsWhole O.sole O.start O.trees O.number O.hives session id moment ops was mine.old accept.told accept.handle →
            CommitsWhole O.sole O.start O.trees O.number O.hives session id moment ops was mine.new
            made.receipt made.told made.handle) }
        ensures denied { IfErr result (λ why. (session moment : ℕ) (id : List ℕ) (ops : List Op) (was : Sight) →
            IsWhole O.sole O.start O.trees O.number O.hives session id moment ops was mine.old accept.told accept.handle →
            IsWholeDenied O.sole O.start O.trees O.number O.hives session id moment ops was mine.new why) }
    {
        let WholeAccept {
            number,
            told,
            handle,
        } = accept;
        match self.wait_durable(rt, mine, number, guard, MemoryPolicy::Retry) {
            Ok(receipt) => {
                let _ = receipt.number(); // for the prover
                Ok(WholeCommit {
                    receipt,
                    told,
                    handle,
                })
            }
            Err(why) => Err(WholeDenied::Undecided(why, handle)),
        }
    }
}

impl<E: StoreEngine, O: Start> Locked<E, O> {
    // a transaction of operations in a session, up to its end
    pub(crate) fn transact<R: Wait>(
        &mut self,
        rt: &R,
        mine: &mut Asker<O>,
        session: u32,
        id: Uuid,
        moment: u64,
        ops: Vec<Op>,
    ) -> Result<WholeAccept, WholeDenied>
        requires room { HasMadeRoom O.start self.old.history }
        ensures seen { SeesMore mine.old mine.new }
        ensures whole { IfOk result (λ made. IsWhole O.sole O.start O.trees O.number O.hives session id moment
            ops.items mine.old mine.new made.told made.handle) }
        ensures awaited { IfOk result (λ made. made.told.reply ≡ reply.Awaits made.number) }
        ensures denied { IfErr result (IsWholeDenied O.sole O.start O.trees O.number O.hives session id moment
            ops.items mine.old mine.new) }
    {
        let tx = match self.begin_whole(rt, mine, session, id) {
            Ok(tx) => tx,
            Err(why) => return Err(WholeDenied::NotBegun(why)),
        };
        let answer = self.write_whole(rt, mine, session, tx, moment, ops);
        let handle = self.close_next(rt, mine, session, tx);
        match answer {
            Ok((number, told)) => Ok(WholeAccept {
                number,
                told,
                handle,
            }),
            Err(why) => Err(WholeDenied::Stopped(why, handle)),
        }
    }

    // a transaction is begun, after all that others did
    fn begin_whole<R: Wait>(
        &mut self,
        rt: &R,
        mine: &mut Asker<O>,
        session: u32,
        id: Uuid,
    ) -> Result<Tx, Denied>
        requires room { HasMadeRoom O.start self.old.history }
        ensures seen { SeesMore mine.old mine.new }
        ensures all { mine.new.history ≡ self.new.history }
        ensures room { OnOk result (HasMadeRoom O.start self.new.history) }
        ensures begun { IfOk result (IsBegunAs O.sole O.start O.trees O.number O.hives mine.old mine.new session id) }
        ensures denied { IfErr result (IsDenied O.sole O.start O.trees O.number O.hives mine.old mine.new
            (event.Begin session id)) }
    {
        self.keeps_history(); // for the prover
        let answer = self.serve(rt, mine, Event::Begin { session, id });
        self.keeps_history(); // for the prover
        let told = match answer {
            Ok(told) => told,
            Err(_) => return Err(Denied::NoMemory),
        };
        match told.reply() {
            Reply::Begun { tx } => Ok(*tx),
            _ => Err(Denied::Told(told)),
        }
    }

    // operations are written in a transaction, and it is committed, at once after what was seen
    fn write_whole<R: Wait>(
        &mut self,
        rt: &R,
        mine: &mut Asker<O>,
        session: u32,
        tx: Tx,
        moment: u64,
        ops: Vec<Op>,
    ) -> Result<(u64, Told), Denied>
        requires all { mine.old.history ≡ self.old.history }
        requires room { HasMadeRoom O.start self.old.history }
        ensures seen { SeesMore mine.old mine.new }
        ensures all { mine.new.history ≡ self.new.history }
        ensures written { IfOk result (λ made. WritesWhole O.sole O.start O.trees O.number O.hives session tx moment
            ops.items mine.old mine.new made.1) }
        ensures awaited { IfOk result (λ made. made.1.reply ≡ reply.Awaits made.0) }
        ensures stops { IfErr result (StopsWriting O.sole O.start O.trees O.number O.hives session tx moment
            ops.items mine.old mine.new) }
    {
        self.write_ops(rt, mine, session, tx, moment, ops)?;
        let made = self.commit_next(rt, mine, session, tx, moment)?;
        Ok(made)
    }

    // operations are written in a transaction, one after another
    fn write_ops<R: Wait>(
        &mut self,
        rt: &R,
        mine: &mut Asker<O>,
        session: u32,
        tx: Tx,
        moment: u64,
        ops: Vec<Op>,
    ) -> Result<(), Denied>
        requires all { mine.old.history ≡ self.old.history }
        requires room { HasMadeRoom O.start self.old.history }
        ensures seen { SeesMore mine.old mine.new }
        ensures all { mine.new.history ≡ self.new.history }
        ensures room { OnOk result (HasMadeRoom O.start self.new.history) }
        ensures written { OnOk result (AreWritten O.sole O.start O.trees O.number O.hives session tx moment
            ops.items mine.old mine.new) }
        ensures stops { IfErr result (StopsWriting O.sole O.start O.trees O.number O.hives session tx moment
            ops.items mine.old mine.new) }
    {
        for op in ops {
            self.write_next(rt, mine, session, tx, moment, op)?;
        }
        Ok(())
    }

    // an operation is written in a transaction
    fn write_next<R: Wait>(
        &mut self,
        rt: &R,
        mine: &mut Asker<O>,
        session: u32,
        tx: Tx,
        moment: u64,
        op: Op,
    ) -> Result<(), Denied>
        requires all { mine.old.history ≡ self.old.history }
        requires room { HasMadeRoom O.start self.old.history }
        ensures seen { SeesMore mine.old mine.new }
        ensures all { mine.new.history ≡ self.new.history }
        ensures room { OnOk result (HasMadeRoom O.start self.new.history) }
        ensures written { OnOk result (IsWritten O.sole O.start O.trees O.number O.hives mine.old mine.new
            (event.TxWrite session tx moment op)) }
        ensures denied { IfErr result (IsDeniedNext O.sole O.start O.trees O.number O.hives mine.old mine.new
            (event.TxWrite session tx moment op)) }
    {
        let event = Event::TxWrite {
            session,
            tx,
            moment,
            op,
        };
        self.keeps_history(); // for the prover
        let answer = self.serve_next(rt, mine, event);
        self.keeps_history(); // for the prover
        let _ = answer?;
        Ok(())
    }

    // a transaction is committed; answers its change's number
    fn commit_next<R: Wait>(
        &mut self,
        rt: &R,
        mine: &mut Asker<O>,
        session: u32,
        tx: Tx,
        moment: u64,
    ) -> Result<(u64, Told), Denied>
        requires all { mine.old.history ≡ self.old.history }
        requires room { HasMadeRoom O.start self.old.history }
        ensures seen { SeesMore mine.old mine.new }
        ensures all { mine.new.history ≡ self.new.history }
        ensures told { IfOk result (λ made. TellsNext O.sole O.start O.trees O.number O.hives mine.old mine.new
            (event.CommitAccept session tx moment) made.1) }
        ensures awaited { IfOk result (λ made. made.1.reply ≡ reply.Awaits made.0) }
        ensures denied { IfErr result (IsDeniedNext O.sole O.start O.trees O.number O.hives mine.old mine.new
            (event.CommitAccept session tx moment)) }
    {
        let event = Event::CommitAccept {
            session,
            tx,
            moment,
        };
        let told = self.serve_next(rt, mine, event)?;
        match told.reply() {
            Reply::Awaits { number } => Ok((*number, told)),
            _ => unreachable!(),
        }
    }

    // a transaction's handle is closed; or it is still open, and is answered
    fn close_next<R: Wait>(
        &mut self,
        rt: &R,
        mine: &mut Asker<O>,
        session: u32,
        tx: Tx,
    ) -> Option<Tx>
        requires all { mine.old.history ≡ self.old.history }
        ensures seen { SeesMore mine.old mine.new }
        ensures closed { IsClosed O.sole O.start O.trees O.number O.hives session tx mine.old mine.new result }
    {
        match self.serve_next(rt, mine, Event::Close { session, tx }) {
            Ok(_) => None,
            Err(_) => Some(tx),
        }
    }

    // one event of one who has seen all, as the next one
    fn serve_next<R: Wait>(
        &mut self,
        rt: &R,
        mine: &mut Asker<O>,
        event: Event,
    ) -> Result<Told, Denied>
        requires all { mine.old.history ≡ self.old.history }
        requires no_fold { is_fold event ≡ false }
        requires room { accepts event ≡ true → HasMadeRoom O.start self.old.history }
        ensures seen { SeesMore mine.old mine.new }
        ensures all { mine.new.history ≡ self.new.history }
        ensures told { IfOk result (TellsNext O.sole O.start O.trees O.number O.hives mine.old mine.new event) }
        ensures granted { IfOk result (λ t. ¬ (IsRefusal t.reply)) }
        ensures denied { IfErr result (IsDeniedNext O.sole O.start O.trees O.number O.hives mine.old mine.new event) }
        ensures step { IfOk result (λ t.
            Step (E.state self.old.engine).machine event t.reply (E.state self.new.engine).machine) }
    {
        let answer = self.serve(rt, mine, event);
        match answer {
            Ok(told) => judged(told),
            Err(_) => Err(Denied::NoMemory),
        }
    }
}
