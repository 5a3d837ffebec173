//! What is under the lock, and the work of one hold.
ghost use Rattle.std.specs.Prelude.{◌≡◌, ◌⊎◌, ◌+◌, ◌≤◌, ◌^◌, ◌++◌, ◌∷◌, [], ℕ, List, length, true, false, IfErr, IfOk, OnErr};
ghost use mathlib.Core.List.{IsPrefix};
ghost use Rattle.published_trees.specs.declared.rule.TheConstants.{MOST_READERS};
ghost use Rattle.refusals.specs.declared.refusal.Refusal.TheVariants.{NoMemory, NoSeat};
ghost use Rattle.store_model.specs.Machine.{Machine};
ghost use Rattle.store_model.specs.Steps.{Step, is_fold, may_accept};
ghost use Rattle.store_model.specs.declared.event.Event.TheVariants as event;
ghost use Rattle.store_model.specs.declared.event.Reply.TheVariants as reply;
ghost use Rattle.histories.specs.Asked.{EndSessions, asked_in, is_asked as is_asked_by};
ghost use Rattle.histories.specs.Histories.{LeadsTo};
ghost use Rattle.histories.specs.Points.{HistoryEntry, entry_of};
ghost use Rattle.ktm_calls.specs.Denials.{OpensOrNot, refusal_in};
ghost use Rattle.ktm_calls.specs.Kinds.{kind_of};
ghost use Rattle.ktm_calls.specs.Moments.{AddsAtMost, IsOf, AsksAtMost, SeesMore, SeesSteps, Tells};
ghost use Rattle.ktm_calls.specs.OpenSessions.{AreBelow, OpensBelow};
ghost use Rattle.ktm_calls.specs.Room.{HasMadeRoom, MakesRoom};

use crate::asker::Asker;
use crate::event_kind::{EventKind, may_accept};
use crate::holding::{accept_event, put_event};
use crate::session::SessionHandle;
use crate::sight::Sight;
use histories::{
    EventCount, Permission, PermissionPool, RequestCount, SeenEvents, Start, is_asked,
};
use published_trees::{ChangeCount, MOST_READERS, Publication, SeenChanges, TreesReader};
use refusals::Refusal;
use std::alloc::Global;
use std::marker::Model;
use std::sync::Wait;
use store_engine::StoreEngine;
use store_model::laws::{no_memory_changes_nothing, openings_stay, others_accept_nothing};
use store_model::{Event, Reply};

/// What one event asked, and what it was answered. [`Locked::hold`] alone makes one.
pub struct Told {
    kind: EventKind,
    reply: Reply,
}

impl Drop for Told {
    // one drop for all that own one, whose proofs see no more of it than that
    fn drop(self) {
        let Told { kind: _, reply: _ } = self;
    }
}

impl Model for Told {
    ghost use Rattle.ktm_calls.specs.Kinds.{Told, told_code};

    ghost Value = { Told };

    ghost coded = { told_code };

    ghost view = { λ t. record { kind = t.kind; reply = t.reply } };
}

impl Told {
    /// What was asked.
    pub fn kind(&self) -> EventKind
        ensures { result ≡ self.now.kind }
    {
        self.kind
    }

    /// What was answered.
    pub fn reply(&self) -> &Reply
        ensures { result.now ≡ self.now.reply }
    {
        &self.reply
    }

    /// What was answered, without what was asked.
    pub fn into_reply(self) -> Reply
        ensures { result ≡ self.reply }
    {
        let Told { kind: _, reply } = self;
        reply
    }

    /// The refusal, if the event was refused.
    pub fn refusal(&self) -> Option<Refusal>
        ensures { result ≡ refusal_in self.now.reply }
    {
        match &self.reply {
            Reply::Refused { refusal } => Some(*refusal),
            _ => None,
        }
    }
}

/// What is under the lock: the engine, its history, and the list of the changes that it accepted with the trees that
/// readers see.
///
/// Whenever the lock is free the history leads from the start to the engine of now, the list is of the changes accepted
/// in it, and what is published is the trees at its opening with that list applied.
///
/// No fold happens under the lock: the trees and the number of the opening are those that the registry was made with.
pub struct Locked<E: StoreEngine, O: Start> {
    alloc: Global,
    engine: E,
    // each event that was put to the engine
    events: EventCount,
    // how many of them were asked for
    requests: RequestCount<O>,
    publication: Publication<O>,
    // a reader for each session that may be opened; a session's number is its reader's place
    readers: Vec<Option<TreesReader<O>>>,
    stopped: bool,
    // whether a committer makes the steps of the journal for all that wait
    led: bool,
    // the hive whose flush ended last
    last_flushed: u8,
    // the number of each open session is below it
    session_bound: u64,
}

impl<E: StoreEngine, O: Start> Model for Locked<E, O> {
    ghost use Rattle.std.specs.Prelude.{◌≡◌, ◌≤◌, ◌^◌, length, true};
    ghost use Rattle.histories.specs.Asked.{asked_in};
    ghost use Rattle.histories.specs.Histories.{LeadsTo};
    ghost use Rattle.ktm_calls.specs.Held.{Held, held_code};
    ghost use Rattle.ktm_calls.specs.Moments.{IsOf};
    ghost use Rattle.ktm_calls.specs.OpenSessions.{AreBelow};
    ghost use Rattle.ktm_calls.specs.Room.{MakesRoom};

    ghost Value = { Held E };

    ghost coded = { held_code E.code };

    ghost view = { λ l. record { engine = l.engine; history = l.events.log; stopped = l.stopped } };

    ghost invariant = { λ l. record {
      book : l.events.book ≡ O.history;
      store : E.store l.engine ≡ O.store;
      leads : LeadsTo O.start O.safe O.faithful (E.safe l.engine) (E.faithful l.engine) l.events.log
          (E.state l.engine);
      owner : IsOf O.trees O.number O.hives (E.state l.engine).machine;
      list : l.publication ≡ (E.state l.engine).machine.accepted;
      sessions : AreBelow l.session_bound (E.state l.engine).machine;
      bound : l.session_bound ≤ 2 ^ 32;
      asked : l.requests ≡ length (asked_in l.events.log);
      room : MakesRoom O.start l.events.log;
    } };
}

impl<E: StoreEngine, O: Start> Locked<E, O> {
    /// One event, but no fold, which is what one hold of the lock does. It is the last one of the history then. A change
    /// that it accepts is in the list, and its trees are published. An event that is asked for needs the permission, and one
    /// that may accept a change needs room that was made.
    ///
    /// Refused with `NoMemory` alone; nothing has changed then.
    pub fn hold<R: Wait>(
        &mut self,
        rt: &R,
        event: Event,
        permission: &mut Permission<O>,
    ) -> Result<Told, Refusal>
        requires no_fold { is_fold event ≡ false }
        requires may { is_asked_by event ≡ true → permission.old.held ≡ true }
        requires room { may_accept event ≡ true → HasMadeRoom O.start self.old.history }
        ensures kind { IfOk result (λ t. t.kind ≡ kind_of event) }
        ensures step { IfOk result (λ t.
            Step (E.state self.old.engine).machine event t.reply (E.state self.new.engine).machine) }
        ensures fed { IfOk result (λ t. ¬ (t.reply ≡ reply.Refused NoMemory)) }
        ensures refused { IfErr result (λ why. why ≡ NoMemory) }
        ensures unchanged { OnErr result ((E.state self.new.engine).machine ≡ (E.state self.old.engine).machine) }
        ensures history { IfOk result (λ t. self.new.history ≡ self.old.history ++ entry_of event t.reply
            (E.state self.new.engine) ∷ []) }
        ensures lacked { OnErr result (AddsAtMost self.old.history event (E.state self.new.engine)
            self.new.history) }
        ensures calm { OnErr result (may_accept event ≡ false → self.new.history ≡ self.old.history
            ++ entry_of event (reply.Refused NoMemory) (E.state self.new.engine) ∷ []) }
        ensures call { ((E.state self.old.engine).clock ≤ (E.state self.new.engine).clock)
            × ((E.state self.new.engine).clock ≤ (E.state self.old.engine).clock + 1) }
        ensures stopped { self.new.stopped ≡ self.old.stopped }
        ensures held { permission.new.held ≡ permission.old.held }
        ensures counts { permission.new.asked + length (asked_in self.old.history)
            ≡ permission.old.asked + length (asked_in self.new.history) }
    {
        if may_accept(&event) {
            self.accept(rt, event, permission)
        } else {
            self.make(rt, event, permission)
        }
    }

    // an event that accepts nothing
    fn make<R: Wait>(
        &mut self,
        rt: &R,
        event: Event,
        permission: &mut Permission<O>,
    ) -> Result<Told, Refusal>
        requires calm { may_accept event ≡ false }
        requires no_fold { is_fold event ≡ false }
        requires may { is_asked_by event ≡ true → permission.old.held ≡ true }
        ensures kind { IfOk result (λ t. t.kind ≡ kind_of event) }
        ensures step { IfOk result (λ t.
            Step (E.state self.old.engine).machine event t.reply (E.state self.new.engine).machine) }
        ensures fed { IfOk result (λ t. ¬ (t.reply ≡ reply.Refused NoMemory)) }
        ensures refused { IfErr result (λ why. why ≡ NoMemory) }
        ensures unchanged { OnErr result ((E.state self.new.engine).machine ≡ (E.state self.old.engine).machine) }
        ensures history { IfOk result (λ t. self.new.history ≡ self.old.history ++ entry_of event t.reply
            (E.state self.new.engine) ∷ []) }
        ensures lacked { OnErr result (AddsAtMost self.old.history event (E.state self.new.engine)
            self.new.history) }
        ensures calm { OnErr result (may_accept event ≡ false → self.new.history ≡ self.old.history
            ++ entry_of event (reply.Refused NoMemory) (E.state self.new.engine) ∷ []) }
        ensures call { ((E.state self.old.engine).clock ≤ (E.state self.new.engine).clock)
            × ((E.state self.new.engine).clock ≤ (E.state self.old.engine).clock + 1) }
        ensures stopped { self.new.stopped ≡ self.old.stopped }
        ensures held { permission.new.held ≡ permission.old.held }
        ensures counts { permission.new.asked + length (asked_in self.old.history)
            ≡ permission.old.asked + length (asked_in self.new.history) }
    {
        others_accept_nothing();
        openings_stay();
        no_memory_changes_nothing();
        let kind = EventKind::of(&event);
        let is_asked = is_asked(&event);
        self.session_bound = bound_with(self.session_bound, &event);
        let reply = put_event::<E, O, R>(rt, &mut self.engine, &mut self.events, event);
        self.requests.count(permission, is_asked);
        if let Reply::Refused {
            refusal: Refusal::NoMemory,
        } = reply
        {
            return Err(Refusal::NoMemory);
        }
        Ok(Told { kind, reply })
    }

    // an event that may accept a change: all that it grows, the change in the list with its trees before all eyes, the
    // event
    fn accept<R: Wait>(
        &mut self,
        rt: &R,
        event: Event,
        permission: &mut Permission<O>,
    ) -> Result<Told, Refusal>
        requires accepts { may_accept event ≡ true }
        requires no_fold { is_fold event ≡ false }
        requires room { HasMadeRoom O.start self.old.history }
        requires may { is_asked_by event ≡ true → permission.old.held ≡ true }
        ensures kind { IfOk result (λ t. t.kind ≡ kind_of event) }
        ensures step { IfOk result (λ t.
            Step (E.state self.old.engine).machine event t.reply (E.state self.new.engine).machine) }
        ensures fed { IfOk result (λ t. ¬ (t.reply ≡ reply.Refused NoMemory)) }
        ensures refused { IfErr result (λ why. why ≡ NoMemory) }
        ensures unchanged { OnErr result ((E.state self.new.engine).machine ≡ (E.state self.old.engine).machine) }
        ensures history { IfOk result (λ t. self.new.history ≡ self.old.history ++ entry_of event t.reply
            (E.state self.new.engine) ∷ []) }
        ensures lacked { OnErr result (AddsAtMost self.old.history event (E.state self.new.engine)
            self.new.history) }
        ensures calm { OnErr result (may_accept event ≡ false → self.new.history ≡ self.old.history
            ++ entry_of event (reply.Refused NoMemory) (E.state self.new.engine) ∷ []) }
        ensures call { ((E.state self.old.engine).clock ≤ (E.state self.new.engine).clock)
            × ((E.state self.new.engine).clock ≤ (E.state self.old.engine).clock + 1) }
        ensures stopped { self.new.stopped ≡ self.old.stopped }
        ensures held { permission.new.held ≡ permission.old.held }
        ensures counts { permission.new.asked + length (asked_in self.old.history)
            ≡ permission.old.asked + length (asked_in self.new.history) }
    {
        openings_stay();
        self.engine.stays_within();
        let kind = EventKind::of(&event);
        let is_asked = is_asked(&event);
        let reply = accept_event::<E, O, R>(
            rt,
            self.alloc,
            &mut self.engine,
            &mut self.events,
            &mut self.publication,
            event,
        )?;
        self.requests.count(permission, is_asked);
        Ok(Told { kind, reply })
    }

    /// What is seen under the lock: all of the list, which is what the engine accepted, and all of the history. Nobody asked
    /// for an event.
    pub fn sight(&self) -> Sight<O>
        ensures owner { IsOf O.trees O.number O.hives (E.state self.now.engine).machine }
        ensures whole { result ≡ record {
          list = (E.state self.now.engine).machine.accepted;
          history = self.now.history;
          asked = 0;
        } }
        ensures durable { (E.state self.now.engine).machine.durable
            ≤ O.number + length (E.state self.now.engine).machine.accepted }
    {
        self.engine.stays_within();
        Sight::new(self.publication.seen(), self.events.all().again())
    }

    /// The whole history.
    pub fn events(&self) -> SeenEvents
        ensures { result ≡ record { book = O.history; log = self.now.history } }
    {
        self.events.all().again()
    }

    /// Brings what was seen to all that is seen under the lock, which it begins.
    pub(crate) fn show<R: Wait>(&self, rt: &R, mine: &mut Sight<O>)
        ensures more { SeesMore mine.old mine.new }
        ensures owner { IsOf O.trees O.number O.hives (E.state self.now.engine).machine }
        ensures whole { mine.new ≡ record {
          list = (E.state self.now.engine).machine.accepted;
          history = self.now.history;
          asked = mine.old.asked;
        } }
    {
        let all = self.sight();
        catch_up(rt, &mut mine.changes, &all.changes);
        self.events.show(rt, &mut mine.events);
    }

    /// Brings one who asks to all that is seen under the lock, which what it had seen begins. It asks for nothing.
    pub(crate) fn inform<R: Wait>(&self, rt: &R, mine: &mut Asker<O>)
        ensures more { SeesMore mine.old mine.new }
        ensures owner { IsOf O.trees O.number O.hives (E.state self.now.engine).machine }
        ensures whole { mine.new ≡ record {
          list = (E.state self.now.engine).machine.accepted;
          history = self.now.history;
          asked = mine.old.asked;
        } }
    {
        self.show(rt, &mut mine.seen);
    }

    /// From where memory is taken.
    pub(crate) fn alloc(&self) -> Global {
        self.alloc
    }

    /// The number up to which changes are durable.
    pub fn durable(&self) -> u64
        ensures { result ≡ (E.state self.now.engine).machine.durable }
    {
        self.engine.durable()
    }

    /// That the owner of a permission asked for no more than was asked for, and the sole asker for all of it.
    pub(crate) fn audit(&mut self, permission: &mut Permission<O>)
        ensures same { (self.new ≡ self.old) × (permission.new ≡ permission.old) }
        ensures bound { permission.old.asked ≤ length (asked_in self.new.history) }
        ensures whole { O.sole ≡ true → permission.old.held ≡ true →
            permission.old.asked ≡ length (asked_in self.new.history) }
    {
        self.requests.audit(permission);
    }

    /// That nothing was asked for but with permissions that came back, if each has come back.
    pub(crate) fn audit_pool(&mut self, permissions: &mut PermissionPool<O>)
        ensures same { (self.new ≡ self.old) × (permissions.new ≡ permissions.old) }
        ensures whole { permissions.old.left ≡ O.parts →
            permissions.old.asked ≡ length (asked_in self.new.history) }
    {
        self.requests.audit_pool(permissions);
    }

    /// One event of one who has seen some of the list and of the history, and has seen all of both before and after it.
    pub(crate) fn serve<R: Wait>(
        &mut self,
        rt: &R,
        mine: &mut Asker<O>,
        event: Event,
    ) -> Result<Told, Refusal>
        requires no_fold { is_fold event ≡ false }
        requires room { may_accept event ≡ true → HasMadeRoom O.start self.old.history }
        ensures seen { SeesMore mine.old mine.new }
        ensures whole { mine.new ≡ record {
          list = (E.state self.new.engine).machine.accepted;
          history = self.new.history;
          asked = mine.new.asked;
        } }
        ensures told { IfOk result (λ t. Tells O.sole O.start O.trees O.number O.hives mine.old mine.new event t) }
        ensures step { IfOk result (λ t.
            Step (E.state self.old.engine).machine event t.reply (E.state self.new.engine).machine) }
        ensures fed { IfOk result (λ t. ¬ (t.reply ≡ reply.Refused NoMemory)) }
        ensures refused { IfErr result (λ why. why ≡ NoMemory) }
        ensures lacked { OnErr result (AsksAtMost O.sole mine.old mine.new event) }
        ensures grows { IfOk result (λ t. self.new.history ≡ self.old.history ++ entry_of event t.reply
            (E.state self.new.engine) ∷ []) }
        ensures lacks { OnErr result (AddsAtMost self.old.history event (E.state self.new.engine) self.new.history) }
        ensures unasked { is_asked_by event ≡ false → SeesSteps O.sole mine.old mine.new }
        ensures call { ((E.state self.old.engine).clock ≤ (E.state self.new.engine).clock)
            × ((E.state self.new.engine).clock ≤ (E.state self.old.engine).clock + 1) }
        ensures stopped { self.new.stopped ≡ self.old.stopped }
    {
        self.audit(&mut mine.permission); // for the prover
        self.keeps_history(); // for the prover
        self.show(rt, &mut mine.seen);
        let told = self.hold(rt, event, &mut mine.permission);
        self.show(rt, &mut mine.seen);
        mine.seen.note(&mine.permission); // for the prover
        let told = told?;
        Ok(told)
    }

    // that what was seen is a beginning of the history
    pub(crate) fn has_seen<R: Wait>(&self, rt: &R, seen: &SeenEvents)
        requires book { seen.now.book ≡ O.history }
        ensures { IsPrefix seen.now.log self.now.history }
    {
        let mut all = seen.again();
        self.events.show(rt, &mut all);
    }

    /// Tells the flusher to stop.
    pub(crate) fn stop(&mut self)
        ensures { self.new ≡ record self.old { stopped = true } }
    {
        self.stopped = true;
    }
}

// what the number of each open session is below once an event was carried out, if it was below `bound`
fn bound_with(bound: u64, event: &Event) -> u64
    requires most { bound ≤ 2 ^ 32 }
    ensures above { bound ≤ result }
    ensures opens { OpensBelow result event.now }
    ensures most { result ≤ 2 ^ 32 }
{
    match event {
        Event::StartSession { session } => bound.max(u64::from(*session) + 1),
        _ => bound,
    }
}

// brings what was seen of the list to all of it, which it begins
fn catch_up<R: Wait>(rt: &R, mine: &mut SeenChanges, all: &SeenChanges)
    requires book { mine.old.book ≡ all.now.book }
    ensures whole { mine.new ≡ all.now }
    ensures before { IsPrefix mine.old.list all.now.list }
{
    for _ in rt.forever() {
        if mine.len() <= all.len() {
            mine.learn(all);
            return;
        }
    }
    unreachable!()
}

/// What became of a session that was to be opened.
#[derive(Drop)]
pub enum OpenResult<O: Start> {
    /// It is open.
    Session(SessionHandle<O>, Told),
    /// It was refused.
    Refused(Told),
    /// There was no memory.
    NoMemory,
}

impl<E: StoreEngine, O: Start> Locked<E, O> {
    /// Takes over an engine that was just opened, with a history and a list to which nothing was added. All that readers
    /// need is made here.
    ///
    /// Refused with `NoMemory`, or with `NoSeat` if the library denies a reader; the engine comes back then.
    #[tactic(auto, using(crate::proofs::RoomMade::none_yet))]
    pub fn open<R: Wait>(
        alloc: Global,
        rt: &R,
        engine: E,
        events: EventCount,
        requests: RequestCount<O>,
        count: ChangeCount,
        seen: SeenChanges,
    ) -> Result<Locked<E, O>, (Refusal, E)>
        requires book { (count ≡ O.book) × (seen ≡ record { book = O.book; list = [] }) }
        requires events { events ≡ record { book = O.history; log = [] } }
        requires requests { requests ≡ 0 }
        requires store { E.store engine ≡ O.store }
        requires start { E.state engine ≡ O.start }
        requires faithful { E.faithful engine → O.faithful }
        requires safe { (moment : ℕ) (machine : Machine) → O.safe moment machine → E.safe engine moment machine }
        requires engine { IsOf O.trees O.number O.hives (E.state engine).machine
            × ((E.state engine).machine.accepted ≡ []) × ((E.state engine).machine.sessions ≡ []) }
        ensures same { IfOk result (λ l. l ≡ record { engine = engine; history = []; stopped = false }) }
        ensures refused { IfErr result (λ back.
            ((back.0 ≡ NoMemory) ⊎ (back.0 ≡ NoSeat)) × (back.1 ≡ engine)) }
    {
        engine.keeps_a_prefix(); // for the prover
        let Ok(trees) = engine.trees().try_clone(alloc) else {
            return Err((Refusal::NoMemory, engine));
        };
        match Publication::<O>::open(alloc, rt, trees, count, seen) {
            Ok((publication, readers)) => Ok(Locked {
                alloc,
                engine,
                events,
                requests,
                publication,
                readers,
                stopped: false,
                led: false,
                last_flushed: u8::MAX,
                session_bound: 0,
            }),
            Err(why) => Err((why, engine)),
        }
    }

    // a session's reader is there again
    fn give_back(&mut self, number: u32, reader: Option<TreesReader<O>>)
        ensures same { self.new ≡ self.old }
    {
        let place = number as usize;
        if place < self.readers.len() {
            self.readers[place] = reader;
        }
    }

    /// Opens a session after what was seen, whose number is its reader's place. What is seen then ends with its event. If
    /// all readers are out, the engine is asked with the number of none, and refuses.
    pub(crate) fn start_session<R: Wait>(&mut self, rt: &R, mine: &mut Asker<O>) -> OpenResult<O>
        ensures seen { SeesMore mine.old mine.new }
        ensures opens { OpensOrNot O.sole O.start O.trees O.number O.hives mine.old mine.new result }
    {
        let (number, reader) = take_reader(&mut self.readers);
        let answer = self.serve(rt, mine, Event::StartSession { session: number });
        let Ok(told) = answer else {
            self.give_back(number, reader);
            return OpenResult::NoMemory;
        };
        if let Reply::Refused { refusal: _ } = told.reply() {
            self.give_back(number, reader);
            return OpenResult::Refused(told);
        }
        let hives = self.hives();
        OpenResult::Session(SessionHandle::new(self.alloc, number, reader, hives), told)
    }

    /// Ends a session. Its reader is there again, also if the event is refused.
    pub(crate) fn end_session<R: Wait>(
        &mut self,
        rt: &R,
        number: u32,
        reader: Option<TreesReader<O>>,
        mine: &mut Asker<O>,
    ) -> Result<Told, Refusal>
        ensures seen { SeesMore mine.old mine.new }
        ensures told { IfOk result (λ t. Tells O.sole O.start O.trees O.number O.hives mine.old mine.new
            (event.EndSession number) t) }
        ensures lacked { OnErr result (AsksAtMost O.sole mine.old mine.new (event.EndSession number)) }
    {
        self.give_back(number, reader);
        let told = self.serve(rt, mine, Event::EndSession { session: number })?;
        Ok(told)
    }

    /// A law: the engine is the registry's, and what is durable was accepted.
    pub(crate) fn is_of_registry(&self)
        ensures store { E.store self.now.engine ≡ O.store }
        ensures owner { IsOf O.trees O.number O.hives (E.state self.now.engine).machine }
        ensures durable { (E.state self.now.engine).machine.durable
            ≤ O.number + length (E.state self.now.engine).machine.accepted }
    {
        self.engine.stays_within();
    }

    /// The engine and its whole history, without the lock. Each session that is open in it is ended, whoever has it, and
    /// nothing else is put.
    pub(crate) fn close<R: Wait>(self, rt: &R) -> (E, EventCount)
        ensures ends { (ends : List HistoryEntry) × EndSessions ends × (result.1.log ≡ self.history ++ ends) }
        ensures list { (E.state result.0).machine.accepted ≡ (E.state self.engine).machine.accepted }
        ensures owner { IsOf O.trees O.number O.hives (E.state result.0).machine }
        ensures sessions { (E.state result.0).machine.sessions ≡ [] }
        ensures store { E.store result.0 ≡ O.store }
        ensures book { result.1.book ≡ O.history }
        ensures leads { LeadsTo O.start O.safe O.faithful (E.safe result.0) (E.faithful result.0) result.1.log
            (E.state result.0) }
        ensures room { MakesRoom O.start result.1.log }
    {
        let Locked {
            alloc: _,
            mut engine,
            mut events,
            requests: _,
            publication,
            readers: _,
            stopped: _,
            led: _,
            last_flushed: _,
            session_bound,
        } = self;
        end_sessions::<E, O, R>(rt, &mut engine, &mut events, session_bound);
        publication.close(rt);
        (engine, events)
    }

    /// A law: the history leads from the start to the engine of now.
    pub fn keeps_history(&self)
        ensures { LeadsTo O.start O.safe O.faithful (E.safe self.now.engine) (E.faithful self.now.engine)
            self.now.history (E.state self.now.engine) }
    {
        // what the type keeps is known once a field is read
        let _ = &self.alloc; // for the prover
    }

    /// The engine.
    pub(crate) fn engine(&self) -> &E
        ensures { result.now ≡ self.now.engine }
    {
        &self.engine
    }

    /// How many hives calls may name.
    pub(crate) fn hives(&self) -> usize
        ensures { result ≡ O.hives }
    {
        self.engine.hives()
    }

    /// Whether nobody made the steps of the journal for all that wait; the caller makes them from now on.
    pub(crate) fn take_lead(&mut self) -> bool
        ensures same { self.new ≡ self.old }
    {
        if self.led {
            return false;
        }
        self.led = true;
        true
    }

    /// Nobody makes the steps of the journal for all that wait.
    pub(crate) fn leave_lead(&mut self)
        ensures same { self.new ≡ self.old }
    {
        self.led = false;
    }

    /// The hive whose flush ended last.
    pub(crate) fn last_flushed(&self) -> u8 {
        self.last_flushed
    }

    pub(crate) fn set_last_flushed(&mut self, hive: u8)
        ensures same { self.new ≡ self.old }
    {
        self.last_flushed = hive;
    }

    /// Whether the flusher was told to stop.
    pub(crate) fn is_stopped(&self) -> bool
        ensures { result ≡ self.now.stopped }
    {
        self.stopped
    }
}

// ends each session of an engine, whose numbers are below `bound`
fn end_sessions<E: StoreEngine, O: Start, R: Wait>(
    rt: &R,
    engine: &mut E,
    events: &mut EventCount,
    bound: u64,
)
    requires owner { IsOf O.trees O.number O.hives (E.state engine.old).machine }
    requires below { AreBelow bound (E.state engine.old).machine }
    requires most { bound ≤ 2 ^ 32 }
    requires leads { LeadsTo O.start O.safe O.faithful (E.safe engine.old) (E.faithful engine.old) events.old.log
        (E.state engine.old) }
    requires room { MakesRoom O.start events.old.log }
    ensures store { E.store engine.new ≡ E.store engine.old }
    ensures owner { IsOf O.trees O.number O.hives (E.state engine.new).machine }
    ensures sessions { (E.state engine.new).machine.sessions ≡ [] }
    ensures list { (E.state engine.new).machine.accepted ≡ (E.state engine.old).machine.accepted }
    ensures book { events.new.book ≡ events.old.book }
    ensures ends { (ends : List HistoryEntry) × EndSessions ends × (events.new.log ≡ events.old.log ++ ends) }
    ensures leads { LeadsTo O.start O.safe O.faithful (E.safe engine.new) (E.faithful engine.new) events.new.log
        (E.state engine.new) }
    ensures room { MakesRoom O.start events.new.log }
{
    openings_stay();
    others_accept_nothing();
    for number in 0..bound {
        let session = number as u32;
        let _ = put_event::<E, O, R>(rt, engine, events, Event::EndSession { session });
    }
}

// the first reader that is there, and its place; if all are out, the place of none
fn take_reader<O: Start>(
    readers: &mut Vec<Option<TreesReader<O>>>,
) -> (u32, Option<TreesReader<O>>) {
    for place in 0..MOST_READERS {
        if place < readers.len() {
            if let Some(reader) = readers[place].take() {
                return (place as u32, Some(reader));
            }
        }
    }
    (MOST_READERS as u32, None)
}
