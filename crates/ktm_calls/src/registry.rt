//! The registry: one lock, and what threads do with it. Each guard is let go by `MutexGuard::unlock`, on each path.
ghost use Rattle.std.specs.Prelude.{◌≡◌, ◌⊎◌, ◌≤◌, ◌+◌, ◌++◌, ℕ, List, [], Some, slice_get, false, true, length, IfOk, IfErr, IfSome};
ghost use mathlib.Core.List.{IsPrefix};
ghost use Rattle.published_trees.specs.declared.rule.TheConstants.{MOST_READERS};
ghost use Rattle.refusals.specs.declared.refusal.Refusal.TheVariants.{NoMemory, NoSeat};
ghost use Rattle.store_model.specs.Machine.{Machine};
ghost use Rattle.store_model.specs.Steps.{is_fold, may_accept as accepts};
ghost use Rattle.store_model.specs.declared.event.Event.TheVariants as event;
ghost use Rattle.store_model.specs.declared.event.Reply.TheVariants as reply;
ghost use Rattle.histories.specs.Asked.{EndSessions, asked_in};
ghost use Rattle.ktm_calls.specs.Ends.{IsAllAsked};
ghost use Rattle.ktm_calls.specs.Room.{HasMadeRoom, IsStuck, MakesRoom};
ghost use Rattle.ktm_calls.specs.Snapshots.{AreDurableAfter, IsSnapshotOf, IsStatsOf, MayNotFollow};
ghost use Rattle.histories.specs.Histories.{IsHistory, LeadsTo, end_of};
ghost use Rattle.histories.specs.Points.{HistoryEntry};
ghost use Rattle.ktm_calls.specs.Waiting.{IsOfAll, IsUsed, IsUsedRoom, SteppedOrFailed, is_step_kind};
ghost use Rattle.ktm_calls.specs.Moments.{IsAwaited, IsOf, NumberedSight, SeesMore, SeesSteps, Sight as AnySight, Tells, TellsDurably};
ghost use Rattle.ktm_calls.specs.Denials.{Denies, IsCommitDenied, IsDenied, IsNotOpened, IsOpened, IsRefusal, IsStepOrStop, IsTurnDenied, IsWaitDenied, OpensOrNot, denial_of};

use crate::asker::Asker;
use crate::durable_changes::FollowRefusal;
use crate::event_kind::may_accept;
use crate::locked::{Locked, OpenResult, Told};
use crate::receipt::{Receipt, Stopped};
use crate::room::UsedRoom;
use crate::session::{Session, SessionHandle};
use crate::sight::Sight;
use crate::store_snapshot::StoreSnapshot;
use crate::store_stats::StoreStats;
use crate::waiting::{CheckpointResult, MemoryPolicy, TurnResult, WaitMode, WaitResult};
use disk_model::Progress;
use histories::{EventCount, Permission, PermissionPool, RequestCount, SeenEvents, Start};
use published_trees::{ChangeCount, MOST_READERS, SeenChanges};
use refusals::Refusal;
use refusals::limits::MOST_JOURNAL_BYTES;
use reg_tree::Element;
use std::alloc::{AllocError, Global};
use std::sync::atomic::{AtomicU64, Ordering};
use std::sync::{Condvar, Mutex, MutexGuard, Wait};
use std::thread;
use store_engine::StoreEngine;
use store_model::{Event, Reply};
use uuid::Uuid;

// at how many used bytes of the journal's room it is freed before a change is accepted
const BUSY_ROOM: u64 = MOST_JOURNAL_BYTES / 2;

// how often one that makes the steps for all lets others in before a step, if fewer wait than the last batch had
const PATIENCE: usize = 64;

/// Why a call was refused.
#[derive(Drop)]
pub enum Denied {
    /// There was no memory.
    NoMemory,
    /// The event of the call was refused, or an event that it waited for.
    Told(Told),
}

impl Denied {
    /// The refusal.
    pub fn refusal(&self) -> Option<Refusal>
        ensures { result ≡ denial_of self.now }
    {
        match self {
            Denied::NoMemory => Some(Refusal::NoMemory),
            Denied::Told(told) => told.refusal(),
        }
    }
}

impl From<AllocError> for Denied {
    ghost use Rattle.std.specs.Prelude.{◌≡◌};
    ghost use Rattle.ktm_calls.specs.declared.registry.Denied.TheVariants as denied;

    ghost from_gives = { λ _ why. why ≡ denied.NoMemory };

    fn from(_: AllocError) -> Denied {
        Denied::NoMemory
    }
}

impl From<Denied> for Refusal {
    ghost use Rattle.ktm_calls.specs.Denials.{Gives};

    ghost from_gives = { Gives };

    // each denial that a call answers has a refusal
    fn from(denied: Denied) -> Refusal {
        match denied.refusal() {
            Some(refusal) => refusal,
            None => Refusal::NoMemory,
        }
    }
}

/// Whether a key was created or was there.
#[derive(Clone, Copy, Debug, PartialEq, Eq)]
pub enum Disposition {
    /// It was created.
    Created,
    /// It was there, and was opened.
    Opened,
}

/// What a turn of the flusher made.
#[derive(Drop)]
pub enum Turn {
    /// A step.
    Step(Told),
    /// Nothing: it was told to stop, and nothing is left.
    Stopped(Stopped),
}

/// What is left of a registry.
pub struct Ended<E: StoreEngine> {
    /// The engine.
    pub engine: E,
    /// The whole history, which led to it.
    pub events: SeenEvents,
    /// The number up to which changes are durable.
    pub durable: u64,
}

/// What threads share.
///
/// No fold happens inside a registry: what its promises say is of the trees and the numbers that it was made with. To
/// fold the history, end the registry, put `Event::Fold` to the engine, and make the next registry over it.
pub struct Registry<E: StoreEngine, O: Start> {
    lock: Mutex<Locked<E, O>>,
    // wakes those that wait for a change
    durable: Condvar,
    // wakes the flusher
    work: Condvar,
    // how many wait for a change, and how many did so at the end of the last batch
    waiting: AtomicU64,
    last_batch: AtomicU64,
}

impl<E: StoreEngine, O: Start> Registry<E, O> {
    /// Shares an engine that was just opened, with a history and a list of changes to which nothing was added.
    ///
    /// Refused with `NoMemory`, or with `NoSeat` if the library of readers denies one; the engine comes back then.
    pub fn new<R: Wait>(
        alloc: Global,
        rt: &R,
        engine: E,
        events: EventCount,
        requests: RequestCount<O>,
        count: ChangeCount,
        seen: SeenChanges,
    ) -> Result<Registry<E, O>, (Refusal, E)>
        requires book { (count ≡ O.book) × (seen ≡ record { book = O.book; list = [] }) }
        requires events { events ≡ record { book = O.history; log = [] } }
        requires requests { requests ≡ 0 }
        requires store { E.store engine ≡ O.store }
        requires start { E.state engine ≡ O.start }
        requires faithful { E.faithful engine → O.faithful }
        requires safe { (moment : ℕ) (machine : Machine) → O.safe moment machine → E.safe engine moment machine }
        requires engine { IsOf O.trees O.number O.hives (E.state engine).machine
            × ((E.state engine).machine.accepted ≡ []) × ((E.state engine).machine.sessions ≡ []) }
        ensures refused { IfErr result (λ back.
            ((back.0 ≡ NoMemory) ⊎ (back.0 ≡ NoSeat)) × (back.1 ≡ engine)) }
    {
        let locked = Locked::<E, O>::open(alloc, rt, engine, events, requests, count, seen)?;
        Ok(Registry {
            lock: Mutex::new(locked),
            durable: Condvar::new(),
            work: Condvar::new(),
            waiting: AtomicU64::new(0),
            last_batch: AtomicU64::new(0),
        })
    }

    /// One who asks with this permission, with which nothing was asked for, and has seen all that is seen now.
    pub fn asker<R: Wait>(&self, rt: &R, permission: Permission<O>) -> Asker<O>
        requires held { permission.held ≡ true }
        requires unused { permission.asked ≡ 0 }
        ensures { result.asked ≡ 0 }
    {
        let guard = self.lock.lock(rt);
        let seen = (&*guard).sight();
        let _ = MutexGuard::unlock(guard);
        Asker::new(seen, permission)
    }

    /// Opens a session in which this one asks, after all that it has seen. If that is refused, it comes back; what it has seen
    /// then ends with the event. Refused as the event: `Faulted`, or `NoSeat` if 32 are open.
    pub fn session<R: Wait>(
        &self,
        rt: &R,
        asker: Asker<O>,
    ) -> Result<(Session<O>, Told), (Denied, Asker<O>)>
        ensures opened { IfOk result (λ made.
            IsOpened O.sole O.start O.trees O.number O.hives asker made.0 made.1) }
        ensures denied { IfErr result (λ why. SeesMore asker why.1
            × IsNotOpened O.sole O.start O.trees O.number O.hives asker why.1 why.0) }
    {
        let mut asker = asker;
        let mut guard = self.lock.lock(rt);
        let opened = (&mut *guard).start_session(rt, &mut asker);
        let _ = MutexGuard::unlock(guard);
        match open_result(opened) {
            Ok((handle, told)) => Ok((Session::new(handle, asker), told)),
            Err(why) => Err((why, asker)),
        }
    }

    /// Opens another session than this one, in which the same one asks. What is seen then ends with its event, also if it
    /// is refused. [`Session::switch_to`] makes it the one that is asked in.
    pub fn open_handle<R: Wait>(
        &self,
        rt: &R,
        session: &mut Session<O>,
    ) -> Result<(SessionHandle<O>, Told), Denied>
        ensures seen { SeesMore session.old.seen session.new.seen }
        ensures number { session.new.number ≡ session.old.number }
        ensures opened { IfOk result (λ made. IsOpened O.sole O.start O.trees O.number O.hives session.old.seen
            (record { number = made.0; seen = session.new.seen }) made.1) }
        ensures denied { IfErr result (IsNotOpened O.sole O.start O.trees O.number O.hives session.old.seen
            session.new.seen) }
    {
        let mut guard = self.lock.lock(rt);
        let opened = (&mut *guard).start_session(rt, &mut session.asker);
        let _ = MutexGuard::unlock(guard);
        open_result(opened)
    }

    /// Ends a session, with all of its transactions. It is gone also if that is refused; who asked in it comes back.
    pub fn end_session<R: Wait>(
        &self,
        rt: &R,
        session: Session<O>,
    ) -> (Asker<O>, Result<Told, Denied>)
        ensures seen { SeesMore session.seen result.0 }
        ensures told { IfOk result.1 (λ t. Tells O.sole O.start O.trees O.number O.hives session.seen result.0
            (event.EndSession session.number) t) }
        ensures granted { IfOk result.1 (λ t. ¬ (IsRefusal t.reply)) }
        ensures denied { IfErr result.1 (IsDenied O.sole O.start O.trees O.number O.hives session.seen result.0
            (event.EndSession session.number)) }
    {
        let (handle, asker) = session.into_parts();
        let mut asker = asker;
        let answer = self.end_by(rt, handle, &mut asker);
        (asker, answer)
    }

    /// Ends the session of a handle, with all of its transactions, while another session goes on in which the same one
    /// asks. It is gone also if that is refused.
    pub fn end_handle<R: Wait>(
        &self,
        rt: &R,
        handle: SessionHandle<O>,
        session: &mut Session<O>,
    ) -> Result<Told, Denied>
        ensures seen { SeesMore session.old.seen session.new.seen }
        ensures number { session.new.number ≡ session.old.number }
        ensures told { IfOk result (λ t. Tells O.sole O.start O.trees O.number O.hives session.old.seen
            session.new.seen (event.EndSession handle) t) }
        ensures granted { IfOk result (λ t. ¬ (IsRefusal t.reply)) }
        ensures denied { IfErr result (IsDenied O.sole O.start O.trees O.number O.hives session.old.seen
            session.new.seen (event.EndSession handle)) }
    {
        self.end_by(rt, handle, &mut session.asker)
    }

    // ends the session of a handle, as this one asks
    fn end_by<R: Wait>(
        &self,
        rt: &R,
        handle: SessionHandle<O>,
        asker: &mut Asker<O>,
    ) -> Result<Told, Denied>
        ensures seen { SeesMore asker.old asker.new }
        ensures told { IfOk result (λ t. Tells O.sole O.start O.trees O.number O.hives asker.old asker.new
            (event.EndSession handle) t) }
        ensures granted { IfOk result (λ t. ¬ (IsRefusal t.reply)) }
        ensures denied { IfErr result (IsDenied O.sole O.start O.trees O.number O.hives asker.old asker.new
            (event.EndSession handle)) }
    {
        let (number, reader) = handle.into_parts();
        let mut guard = self.lock.lock(rt);
        let answer = (&mut *guard).end_session(rt, number, reader, asker);
        let _ = MutexGuard::unlock(guard);
        match answer {
            Ok(told) => judged(told),
            Err(_) => Err(Denied::NoMemory),
        }
    }

    /// Asks whether the store is faulted: begins a transaction in a session that isn't open, which the machine refuses,
    /// with `Faulted` if it is.
    pub fn probe<R: Wait>(&self, rt: &R, session: &mut Session<O>, id: Uuid) -> Result<Told, Denied>
        ensures seen { SeesMore session.old.seen session.new.seen }
        ensures number { session.new.number ≡ session.old.number }
        ensures told { IfOk result (λ t. Tells O.sole O.start O.trees O.number O.hives session.old.seen
            session.new.seen (event.Begin MOST_READERS id) t) }
        ensures granted { IfOk result (λ t. ¬ (IsRefusal t.reply)) }
        ensures denied { IfErr result (IsDenied O.sole O.start O.trees O.number O.hives session.old.seen
            session.new.seen (event.Begin MOST_READERS id)) }
    {
        let nobody = MOST_READERS as u32;
        self.serve(
            rt,
            session,
            Event::Begin {
                session: nobody,
                id,
            },
        )
    }

    /// The store after all that was accepted, of which a copy can be made while others go on. The session has seen all that
    /// then, and nothing was asked for. Refused with `NoMemory`.
    pub fn snapshot<R: Wait>(
        &self,
        rt: &R,
        session: &mut Session<O>,
    ) -> Result<StoreSnapshot, Refusal>
        ensures seen { SeesMore session.old.seen session.new.seen }
        ensures asked { session.new.seen.asked ≡ session.old.seen.asked }
        ensures number { session.new.number ≡ session.old.number }
        ensures snapshot { IfOk result (IsSnapshotOf O.store O.trees O.number O.hives session.new.seen.list) }
        ensures refused { IfErr result (λ why. why ≡ NoMemory) }
    {
        let guard = self.lock.lock(rt);
        let made = (&*guard).snapshot(rt, &mut session.asker);
        let _ = MutexGuard::unlock(guard);
        made
    }

    /// The first of the durable changes after a number, in their order; as many as have 65,536 bytes encoded, and one at
    /// least; none if no later change is durable. The session has seen all that was accepted then, and nothing was asked
    /// for.
    pub fn durable_changes<R: Wait>(
        &self,
        rt: &R,
        session: &mut Session<O>,
        after: u64,
    ) -> Result<Vec<Element>, FollowRefusal>
        ensures seen { SeesMore session.old.seen session.new.seen }
        ensures asked { session.new.seen.asked ≡ session.old.seen.asked }
        ensures number { session.new.number ≡ session.old.number }
        ensures told { IfOk result (λ changes. AreDurableAfter O.start O.number after session.new.seen changes.items) }
        ensures refused { IfErr result (MayNotFollow O.start O.number after session.new.seen) }
    {
        let guard = self.lock.lock(rt);
        let changes = (&*guard).durable_changes(rt, &mut session.asker, after);
        let _ = MutexGuard::unlock(guard);
        changes
    }

    /// How full the store is after all that was accepted, and how many wait until a change is durable. The session has seen
    /// all that then, and nothing was asked for.
    pub fn stats<R: Wait>(&self, rt: &R, session: &mut Session<O>) -> StoreStats
        ensures seen { SeesMore session.old.seen session.new.seen }
        ensures asked { session.new.seen.asked ≡ session.old.seen.asked }
        ensures number { session.new.number ≡ session.old.number }
        ensures stats { IsStatsOf O.start O.number session.new.seen result }
    {
        let waiting = self.waiting.load(Ordering::SeqCst);
        let guard = self.lock.lock(rt);
        let stats = (&*guard).stats(rt, &mut session.asker, waiting);
        let _ = MutexGuard::unlock(guard);
        stats
    }

    /// Ends the registry of one who asks, as [`Registry::end_shared`] does. A sole asker has seen each event that was asked
    /// for, but for the ends of the sessions that were still open.
    pub fn end<R: Wait>(self, rt: &R, asker: Asker<O>, receipts: Vec<Receipt<O>>) -> Ended<E>
        ensures owner { IsOf O.trees O.number O.hives (E.state result.engine).machine }
        ensures closed { (E.state result.engine).machine.sessions ≡ [] }
        ensures durable { result.durable ≡ (E.state result.engine).machine.durable }
        ensures store { E.store result.engine ≡ O.store }
        ensures history { LeadsTo O.start O.safe O.faithful (E.safe result.engine) (E.faithful result.engine)
            result.events.log (E.state result.engine) }
        ensures receipts { (i : ℕ) (r : NumberedSight) → slice_get receipts.items i ≡ Some r → r.number ≤ result.durable }
        ensures seen { IsPrefix asker.list (E.state result.engine).machine.accepted
            × IsPrefix asker.history result.events.log }
        ensures asked { O.sole ≡ true → (ends : List HistoryEntry) × EndSessions ends
            × (asked_in result.events.log ≡ asked_in asker.history ++ ends) }
        ensures room { MakesRoom O.start result.events.log }
    {
        asker.saw_what_it_asked(); // for the prover
        let (seen, permission) = asker.into_parts();
        self.end_shared(rt, seen, PermissionPool::of(permission), receipts)
    }

    /// Ends the registry and each session, and hands the engine back. One history leads to it from the start: at each
    /// moment of it, a crash leaves a prefix of the machine's changes of then. The change of each receipt is durable in it,
    /// and what was seen begins the changes accepted, and the history. If each permission has come back, nothing was asked
    /// for but with them, beside the ends of the sessions that were still open. Before each event that may accept a change
    /// room was made in the journal, unless no step could free any.
    ///
    /// If all that was accepted is durable, `Event::Fold` folds the history then, and [`Registry::new`] may take the
    /// engine again, as [`crate::laws`] says.
    pub fn end_shared<R: Wait>(
        self,
        rt: &R,
        seen: Sight<O>,
        permissions: PermissionPool<O>,
        receipts: Vec<Receipt<O>>,
    ) -> Ended<E>
        ensures owner { IsOf O.trees O.number O.hives (E.state result.engine).machine }
        ensures closed { (E.state result.engine).machine.sessions ≡ [] }
        ensures durable { result.durable ≡ (E.state result.engine).machine.durable }
        ensures store { E.store result.engine ≡ O.store }
        ensures history { LeadsTo O.start O.safe O.faithful (E.safe result.engine) (E.faithful result.engine)
            result.events.log (E.state result.engine) }
        ensures receipts { (i : ℕ) (r : NumberedSight) → slice_get receipts.items i ≡ Some r → r.number ≤ result.durable }
        ensures seen { IsPrefix seen.list (E.state result.engine).machine.accepted
            × IsPrefix seen.history result.events.log }
        ensures asked { permissions.left ≡ O.parts → IsAllAsked seen.history permissions.asked result.events.log }
        ensures room { MakesRoom O.start result.events.log }
    {
        let Registry {
            lock,
            durable: _,
            work: _,
            waiting: _,
            last_batch: _,
        } = self;
        let mut locked = lock.into_inner();
        let mut permissions = permissions;
        locked.audit_pool(&mut permissions); // for the prover
        let mut last = seen;
        locked.show(rt, &mut last); // for the prover
        let (engine, events) = locked.close(rt);
        are_durable(rt, &events, &receipts); // for the prover
        let durable = engine.durable();
        Ended {
            engine,
            events: events.all().again(),
            durable,
        }
    }

    /// One event of a session, in one hold.
    pub(crate) fn serve<R: Wait>(
        &self,
        rt: &R,
        session: &mut Session<O>,
        event: Event,
    ) -> Result<Told, Denied>
        requires no_fold { is_fold event ≡ false }
        ensures seen { SeesMore session.old.seen session.new.seen }
        ensures number { session.new.number ≡ session.old.number }
        ensures told { IfOk result (λ t.
            Tells O.sole O.start O.trees O.number O.hives session.old.seen session.new.seen event t) }
        ensures granted { IfOk result (λ t. ¬ (IsRefusal t.reply)) }
        ensures denied { IfErr result (λ why.
            IsDenied O.sole O.start O.trees O.number O.hives session.old.seen session.new.seen event why) }
    {
        let mut guard = self.lock_for(rt, &event);
        let answer = (&mut *guard).serve(rt, &mut session.asker, event);
        let _ = MutexGuard::unlock(guard);
        match answer {
            Ok(told) => judged(told),
            Err(_) => Err(Denied::NoMemory),
        }
    }

    // the lock, for an event: with room, if it may accept a change
    fn lock_for<'a, R: Wait>(&'a self, rt: &R, event: &Event) -> MutexGuard<'a, Locked<E, O>>
        ensures room { accepts event.now ≡ true → HasMadeRoom O.start result.value.history }
    {
        if may_accept(event) {
            self.lock_with_room(rt)
        } else {
            self.lock.lock(rt)
        }
    }

    // the lock, for a change that may be accepted. It is got while less than half of the journal's room is used, and room is
    // made until then: else those that write without a pause would never let a trim come, and be refused at last. If no room
    // can be made, the change tells why
    pub(crate) fn lock_with_room<'a, R: Wait>(&'a self, rt: &R) -> MutexGuard<'a, Locked<E, O>>
        ensures room { HasMadeRoom O.start result.value.history }
    {
        let mut tried = None;
        for _ in rt.forever() {
            let guard = self.lock.lock(rt);
            (&*guard).keeps_history(); // for the prover
            if (&*guard).engine().room() < BUSY_ROOM {
                return guard;
            }
            if let Some(tried) = &tried {
                (&*guard).has_seen(rt, tried); // for the prover
                return guard;
            }
            let _ = MutexGuard::unlock(guard);
            // others may have filled the room again when the lock is taken
            tried = self.make_room(rt);
        }
        unreachable!()
    }

    // makes the flusher's steps, one a hold, until less than half of the journal's room is used. If there was nothing to do
    // before, or a step was refused, the history as it was then
    fn make_room<R: Wait>(&self, rt: &R) -> Option<SeenEvents>
        ensures stuck { IfSome result (λ tried. (tried.book ≡ O.history) × IsStuck O.start tried.log) }
    {
        for _ in rt.forever() {
            let mut guard = self.lock.lock(rt);
            if (&*guard).engine().room() < BUSY_ROOM {
                let _ = MutexGuard::unlock(guard);
                return None;
            }
            let answer = (&mut *guard).turn(rt);
            let tried = (&*guard).events();
            let _ = MutexGuard::unlock(guard);
            let TurnResult::Step(told) = answer else {
                return Some(tried);
            };
            if told.refusal().is_some() {
                self.durable.notify_all();
                return Some(tried);
            }
            let _ = self.stepped(told);
        }
        unreachable!()
    }

    /// The flusher has work.
    pub(crate) fn wake_flusher(&self) {
        self.work.notify_one();
    }

    /// One event of a session that answers a number, and then the wait until the change of that number is durable: steps
    /// of the journal, one a hold, or sleep while another makes them.
    pub(crate) fn serve_durably<R: Wait>(
        &self,
        rt: &R,
        session: &mut Session<O>,
        event: Event,
        policy: MemoryPolicy,
    ) -> Result<(Receipt<O>, Told), Denied>
        requires awaited { IsAwaited event }
        requires no_fold { is_fold event ≡ false }
        ensures seen { SeesMore session.old.seen session.new.seen }
        ensures number { session.new.number ≡ session.old.number }
        ensures told { IfOk result (λ r. TellsDurably O.sole O.start O.trees O.number O.hives
            session.old.seen session.new.seen event r.0 r.1) }
        ensures denied { IfErr result (IsCommitDenied O.sole O.start O.trees O.number O.hives session.old.seen
            session.new.seen event) }
    {
        let mut guard = self.lock_for(rt, &event);
        let answer = (&mut *guard).serve(rt, &mut session.asker, event);
        let Ok(told) = answer else {
            let _ = MutexGuard::unlock(guard);
            return Err(Denied::NoMemory);
        };
        let Reply::Awaits { number: awaited } = told.reply() else {
            let _ = MutexGuard::unlock(guard);
            return Err(Denied::Told(told));
        };
        let receipt = self.wait_durable(rt, &mut session.asker, *awaited, guard, policy)?;
        let _ = receipt.number(); // for the prover
        Ok((receipt, told))
    }

    // waits until a change is durable. It begins in the hold whose event asked for it: if another makes the steps, it
    // sleeps there and then
    #[tactic(auto, using(crate::proofs::Seen::steps_trans, crate::proofs::Seen::steps_self))]
    pub(crate) fn wait_durable<'a, R: Wait>(
        &'a self,
        rt: &R,
        mine: &mut Asker<O>,
        number: u64,
        held: MutexGuard<'a, Locked<E, O>>,
        policy: MemoryPolicy,
    ) -> Result<Receipt<O>, Denied>
        ensures seen { SeesSteps O.sole mine.old mine.new }
        ensures receipt { IfOk result (λ r. r ≡ record { number = number; seen = mine.new }) }
        ensures denied { IfErr result (IsWaitDenied O.sole O.start O.trees O.number O.hives number mine.new) }
    {
        let mut guard = held;
        let mut mode = (&mut *guard).first_mode(number);
        let mut leads = matches!(mode, WaitMode::Lead);
        self.waiting.fetch_add(1, Ordering::SeqCst);
        for _ in rt.forever() {
            if let WaitMode::Sleep = mode {
                guard = self.durable.wait(rt, guard);
            } else {
                let _ = MutexGuard::unlock(guard);
                if let WaitMode::Lead = mode {
                    self.let_others_in();
                }
                guard = self.lock.lock(rt);
            }
            match (&mut *guard).wait_hold(rt, mine, number, mode, leads, policy) {
                WaitResult::Again(next) => {
                    leads = leads || matches!(next, WaitMode::Lead);
                    mode = next;
                }
                WaitResult::Done(receipt) => {
                    let _ = MutexGuard::unlock(guard);
                    self.leave(leads);
                    return Ok(receipt);
                }
                WaitResult::Refused(told) => {
                    let _ = MutexGuard::unlock(guard);
                    self.leave(true);
                    return Err(Denied::Told(told));
                }
                WaitResult::NoMemory => {
                    let _ = MutexGuard::unlock(guard);
                    self.leave(true);
                    return Err(Denied::NoMemory);
                }
            }
        }
        unreachable!()
    }

    // one waits no more. If it led, the others are woken: each finds its change durable, or leads
    fn leave(&self, led: bool) {
        let waited = self.waiting.fetch_sub(1, Ordering::SeqCst);
        if led {
            self.last_batch.store(waited, Ordering::SeqCst);
            self.durable.notify_all();
            self.work.notify_one();
        }
    }

    // lets others in, until as many wait as the last batch had
    fn let_others_in(&self) {
        let wanted = self.last_batch.load(Ordering::SeqCst);
        for _ in 0..PATIENCE {
            if self.waiting.load(Ordering::SeqCst) >= wanted {
                return;
            }
            thread::yield_now();
        }
    }

    /// Makes the flusher's steps, one a hold, until none has anything to do: all that was accepted is durable then, each
    /// hive has it, and the journal's room is free. It goes on with what others accept meanwhile.
    ///
    /// Refused with the first step that is refused, or with `NoMemory`.
    pub fn checkpoint<R: Wait>(&self, rt: &R) -> Result<Receipt<O>, Denied>
        ensures all { IfOk result (IsOfAll O.start O.number) }
        ensures denied { IfErr result IsTurnDenied }
    {
        for _ in rt.forever() {
            let mut guard = self.lock.lock(rt);
            let answer = (&mut *guard).checkpoint(rt);
            let _ = MutexGuard::unlock(guard);
            match answer {
                CheckpointResult::Step(told) => {
                    self.stepped(told)?;
                }
                CheckpointResult::NoMemory => return Err(Denied::NoMemory),
                CheckpointResult::Done(receipt) => return Ok(receipt),
            }
        }
        unreachable!()
    }

    /// How much of the journal's room is used. [`Registry::checkpoint`] frees it.
    pub fn room<R: Wait>(&self, rt: &R) -> UsedRoom
        ensures { IsUsedRoom O.history O.start result }
    {
        let guard = self.lock.lock(rt);
        let used = (&*guard).used_room();
        let _ = MutexGuard::unlock(guard);
        used
    }

    /// Waits until at least so many bytes of the journal's room are used, and tells how many. `None` if the flusher was told
    /// to stop first.
    pub fn wait_until_used<R: Wait>(&self, rt: &R, least: u64) -> Option<UsedRoom>
        ensures { IsUsed O.history O.start least result }
    {
        let mut guard = self.lock.lock(rt);
        for _ in rt.forever() {
            if (&*guard).is_stopped() {
                let _ = MutexGuard::unlock(guard);
                return None;
            }
            let used = (&*guard).used_room();
            if used.bytes >= least {
                let _ = MutexGuard::unlock(guard);
                return Some(used);
            }
            guard = self.work.wait(rt, guard);
        }
        unreachable!()
    }

    /// Tells the flusher to stop once it has nothing to do.
    pub fn stop_flusher<R: Wait>(&self, rt: &R) {
        let mut guard = self.lock.lock(rt);
        (&mut *guard).stop();
        let _ = MutexGuard::unlock(guard);
        self.work.notify_one();
    }

    /// One event of the flusher: a step of the journal if a change is pending, else of the next hive that has work, else
    /// of a trim. It waits if there is nothing to do, and ends if it was told to stop then.
    pub fn turn<R: Wait>(&self, rt: &R) -> Result<Turn, Denied>
        ensures turn { IfOk result (IsStepOrStop O.history O.start) }
        ensures denied { IfErr result IsTurnDenied }
    {
        let mut guard = self.lock.lock(rt);
        for _ in rt.forever() {
            match (&mut *guard).turn(rt) {
                TurnResult::Wait => {
                    guard = self.work.wait(rt, guard);
                }
                TurnResult::Step(told) => {
                    let _ = MutexGuard::unlock(guard);
                    return self.stepped(told);
                }
                TurnResult::NoMemory => {
                    let _ = MutexGuard::unlock(guard);
                    return Err(Denied::NoMemory);
                }
                TurnResult::Stopped(stopped) => {
                    let _ = MutexGuard::unlock(guard);
                    return Ok(Turn::Stopped(stopped));
                }
            }
        }
        unreachable!()
    }
}

impl<E: StoreEngine, O: Start> Registry<E, O> {
    // those that wait for a change are woken unless a step has more to do
    fn stepped(&self, told: Told) -> Result<Turn, Denied>
        requires step { is_step_kind told.kind ≡ true }
        requires reply { SteppedOrFailed told.reply }
        ensures turn { IfOk result (IsStepOrStop O.history O.start) }
        ensures denied { IfErr result IsTurnDenied }
    {
        if let Reply::Stepped {
            progress: Progress::More,
        } = told.reply()
        {
            return Ok(Turn::Step(told));
        }
        self.durable.notify_all();
        if let Reply::Stepped { progress: _ } = told.reply() {
            return Ok(Turn::Step(told));
        }
        Err(Denied::Told(told))
    }
}

// what is answered of a session that was to be opened
fn open_result<O: Start>(opened: OpenResult<O>) -> Result<(SessionHandle<O>, Told), Denied>
    ensures opened { IfOk result (λ made. (was is : AnySight) →
        OpensOrNot O.sole O.start O.trees O.number O.hives was is opened →
        IsOpened O.sole O.start O.trees O.number O.hives was (record { number = made.0; seen = is }) made.1) }
    ensures denied { IfErr result (λ why. (was is : AnySight) →
        OpensOrNot O.sole O.start O.trees O.number O.hives was is opened →
        IsNotOpened O.sole O.start O.trees O.number O.hives was is why) }
{
    match opened {
        OpenResult::Session(handle, told) => Ok((handle, told)),
        OpenResult::Refused(told) => Err(Denied::Told(told)),
        OpenResult::NoMemory => Err(Denied::NoMemory),
    }
}

/// A refusal is a denial.
pub(crate) fn judged(told: Told) -> Result<Told, Denied>
    ensures ok { IfOk result (λ t. t ≡ told) }
    ensures granted { IfOk result (λ t. ¬ (IsRefusal t.reply)) }
    ensures err { IfErr result (Denies told) }
{
    if let Reply::Refused { refusal: _ } = told.reply() {
        return Err(Denied::Told(told));
    }
    Ok(told)
}

// each receipt is of a change that is durable
fn are_durable<O: Start, R: Wait>(rt: &R, events: &EventCount, receipts: &Vec<Receipt<O>>)
    requires book { events.now.book ≡ O.history }
    requires run { IsHistory O.start events.now.log }
    ensures { (i : ℕ) (r : NumberedSight) → slice_get receipts.now.items i ≡ Some r →
        r.number ≤ (end_of O.start events.now.log).machine.durable }
{
    for i in 0..receipts.len() {
        receipts[i].stays_durable(rt, events);
    }
}
