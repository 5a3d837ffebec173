//! The engine as its callers see it: its type keeps the invariant, so no call asks for it.
ghost use Rattle.std.specs.Prelude.{◌≡◌, ◌⊎◌, ◌↔◌, ◌+◌, ◌-◌, ◌<◌, ◌≤◌, ◌^◌, [], ℕ, drop, false, true, IfErr, IfNone, IfOk, IfSome, OnErr, OnOk, None, Some, is_some, length, map, replicate, slice_get, take};
ghost use Rattle.refusals.specs.declared.refusal.Refusal.TheVariants.{NoMemory};
ghost use Rattle.refusals.specs.declared.limits.TheConstants.{MOST_HISTORY};
ghost use Rattle.disk_model.specs.Call.{OneCall};
ghost use Rattle.disk_model.specs.Crash.{LeavesHonest};
ghost use Rattle.store_model.specs.Invariant.{InvariantHolds as MachineHolds, IsWithin};
ghost use Rattle.store_model.specs.Machine as model;
ghost use Rattle.store_model.specs.Machine.{bounds_for, last_number, opened_machine, trees_now, with_history};
ghost use Rattle.commit_journal.specs.Store.{room_of};
ghost use Rattle.engine.specs.EarlierChanges.{changes_before};
ghost use Rattle.commit_journal.specs.Journals.{changes_of, choice_of};
ghost use Rattle.commit_journal.specs.Journals as journals;
ghost use Rattle.recovery.specs.Invariant.{InvariantHolds};
ghost use Rattle.recovery.specs.Shown.{StoreIsRepaired, store_of};
ghost use Rattle.engine_invariant.specs.Engines.{EngineAnswers, NeedsNoDevice};
ghost use Rattle.engine_invariant.specs.Idle.{IsTrimmed};
ghost use Rattle.engine_invariant.specs.Progress.{HasPending};
ghost use Rattle.store_model.specs.Steps.{Step, Run, may_accept};
ghost use Rattle.store_model.specs.declared.event.Reply.TheVariants as reply;
ghost use Rattle.engine_invariant.specs.Prefixes.{AnyFile, IsPrefix, IsPrimaryOf, IsSafeAt, Recover, view_of};
ghost use Rattle.recovery.specs.Recovered.{seen_in};
ghost use Rattle.engine_invariant.specs.Runs.{AnswersInTurn, ReceiptIsDurable, RunsSafely};
ghost use Rattle.std.specs.List.{AllByRecursion};
ghost use Rattle.commit_journal.specs.LastChangePerHive.{HasCounted};
ghost use Rattle.engine.specs.Discards.{AreRetainedAfter};
ghost use Rattle.engine.specs.Outcomes.{OutcomesAreKept};
ghost use Rattle.engine.specs.Shown.{engine_view};
ghost use Rattle.engine.specs.Work.{AreFlushed, IsNextAround, IsReadable};
ghost use Rattle.transactions.specs.Prepared.{Predicts, AcceptsJust, change_and_trees};
ghost use Rattle.std.specs.Option.{option_map};

use crate::earlier_changes::EarlierChanges;
use crate::parts::Parts;
use change_codec::EncodedChange;
use commit_journal::Layout;
use disk_model::Disk;
use recovery::{Opened, RecoveredStore, named_trees};
use refusals::Refusal;
use reg_tree::Trees;
use std::alloc::{AllocError, Global};
use std::marker::Model;
use store_model::{Event, Reply, StoreBounds};
use transactions::{Next, Prepared, Store};
use uuid::Uuid;

/// An engine over a disk. Contracts see it as its machine, its disk, and the store that its files are of.
///
/// If the disk is faithful, whatever a crash leaves of the files at any moment recovers one number, not below the
/// durable one, and the trees after it. That assumes honest first sectors of the primary files.
///
/// An event that may accept a change may be made in two parts: [`prepare`](Engine::prepare) makes all that it grows,
/// and [`finish`](Engine::finish) is the event and takes no memory. Any other event drops the prepared event.
pub struct Engine<D: Disk> {
    parts: Parts<D>,
    prepared: Option<Prepared>,
}

impl<D: Disk + Drop> Drop for Engine<D> {
    // one drop for all that own an engine, whose proofs see no more of it than this contract
    fn drop(self) {
        let Engine {
            parts: _,
            prepared: _,
        } = self;
    }
}

impl<D: Disk> Model for Engine<D> {
    ghost use Rattle.std.specs.Prelude.{map, IfSome};
    ghost use Rattle.std.specs.Option.{option_map};
    ghost use Rattle.transactions.specs.Prepared.{IsPrepared};
    ghost use Rattle.engine.specs.EarlierChanges.{changes_before};
    ghost use Rattle.commit_journal.specs.Journals.{changes_of, choice_of, steps_left, store_of};
    ghost use Rattle.engine_invariant.specs.Prefixes.{AnyFile, AreOnDisk, view_of};
    ghost use Rattle.engine_invariant.specs.Progress.{flush_of};
    ghost use Rattle.engine.specs.Parts.{IsSound};
    ghost use Rattle.engine.specs.Shown.{Shown, awaiting_of, shown_code};

    ghost Value = { Shown D };

    ghost coded = { shown_code D.code };

    ghost view = { λ inside. record {
      machine = inside.parts.store.machine;
      disk = inside.parts.disk;
      store = store_of inside.parts.journal;
      base = inside.parts.base;
      opened = changes_before inside.parts.earlier;
      journal = choice_of inside.parts.journal;
      hives = map view_of inside.parts.hives.items;
      left = steps_left inside.parts.journal;
      flushes = map flush_of inside.parts.hives.items;
      prepared = option_map awaiting_of inside.prepared;
    } };

    ghost invariant = { λ inside. record {
      sound : IsSound inside.parts;
      on_disk : D.faithful inside.parts.disk → AreOnDisk inside.parts.journal
          inside.parts.hives.items
          (D.state_at inside.parts.disk (D.clock inside.parts.disk));
      prepared : IfSome inside.prepared (IsPrepared inside.parts.store);
    } };
}

impl<D: Disk> Engine<D> {
    /// An engine that continues from an opened store, of which no repair is left. Its history may have 1,048,576 changes.
    /// Calls name as many hives as the journal's header says.
    ///
    /// Refused with `NoMemory` alone; the opened store is handed back then.
    pub fn new(alloc: Global, opened: Opened<D>) -> Result<Engine<D>, (Refusal, Opened<D>)>
        requires whole { StoreIsRepaired opened }
        ensures machine { IfOk result (λ engine. engine.machine
            ≡ record (opened_machine (bounds_for (store_of opened).hives) opened.found.trees
            opened.found.number [] 0)
            { room = 65 + room_of (choice_of opened.found.journal).now.elements }) }
        ensures disk { IfOk result (λ engine. engine.disk ≡ opened.disk) }
        ensures store { IfOk result (λ engine. engine.store ≡ store_of opened) }
        ensures prepared { IfOk result (λ engine. engine.prepared ≡ None) }
        ensures continues { IfOk result (λ engine. (engine.base ≡ opened.found.base)
            × (engine.opened ≡ changes_of opened.found.journal)
            × (engine.journal ≡ choice_of opened.found.journal)
            × (engine.hives ≡ map view_of opened.found.hives.items)) }
        ensures refused { IfErr result (λ back. (back.0 ≡ NoMemory) × (back.1 ≡ opened)) }
    {
        engine_invariant::laws::openings_begin();
        let (disk, found) = opened.into_parts();
        let Ok(store) = begun(alloc, &found) else {
            return Err((Refusal::NoMemory, Opened::from_parts(disk, found)));
        };
        let earlier = EarlierChanges::of(&found.journal);
        let parts = Parts {
            alloc,
            disk,
            journal: found.journal,
            hives: found.hives,
            store,
            earlier,
            base: found.base,
            opened: found.opened,
            last_changes: found.last_changes,
        };
        Ok(Engine {
            parts,
            prepared: None,
        })
    }

    /// The same if the history may have only this many changes, 1 to 1,048,576: a further one is refused with
    /// `HistoryFull` until the history is folded.
    pub fn with_history(
        alloc: Global,
        opened: Opened<D>,
        limit: u64,
    ) -> Result<Engine<D>, (Refusal, Opened<D>)>
        requires whole { StoreIsRepaired opened }
        requires some { 1 ≤ limit }
        requires most { limit ≤ MOST_HISTORY }
        ensures machine { IfOk result (λ engine. engine.machine ≡ with_history limit
            (record (opened_machine (bounds_for (store_of opened).hives) opened.found.trees
            opened.found.number [] 0)
            { room = 65 + room_of (choice_of opened.found.journal).now.elements })) }
        ensures disk { IfOk result (λ engine. engine.disk ≡ opened.disk) }
        ensures store { IfOk result (λ engine. engine.store ≡ store_of opened) }
        ensures prepared { IfOk result (λ engine. engine.prepared ≡ None) }
        ensures continues { IfOk result (λ engine. (engine.base ≡ opened.found.base)
            × (engine.opened ≡ changes_of opened.found.journal)
            × (engine.journal ≡ choice_of opened.found.journal)
            × (engine.hives ≡ map view_of opened.found.hives.items)) }
        ensures refused { IfErr result (λ back. (back.0 ≡ NoMemory) × (back.1 ≡ opened)) }
    {
        let mut engine = Engine::new(alloc, opened)?;
        engine.limit_history(limit);
        Ok(engine)
    }

    /// Sets how many changes the history may have: 1 to 1,048,576, and not fewer than it has. What was prepared is
    /// dropped.
    pub fn limit_history(&mut self, limit: u64)
        requires some { 1 ≤ limit }
        requires most { limit ≤ MOST_HISTORY }
        requires there { length self.old.machine.accepted ≤ limit }
        ensures { self.new ≡ record self.old {
          machine = with_history limit self.old.machine;
          prepared = None;
        } }
    {
        self.prepared = None;
        self.parts.store.limit_history(limit);
    }

    /// How many changes the history may have.
    pub fn history_limit(&self) -> u64
        ensures { result ≡ self.now.machine.bounds.changes }
    {
        self.parts.store.history_limit()
    }

    /// How many changes the history has: those accepted since the opening or the last fold.
    pub fn history_len(&self) -> u64
        ensures { result ≡ length self.now.machine.accepted }
    {
        self.parts.store.history_len()
    }

    /// One event: a step of the machine, with at most one device call.
    ///
    /// A crash before, within or after it leaves a prefix: at the moment when the event began, of the changes accepted
    /// before it; at the moment when it ended, of those accepted then. A step is idle exactly if there is nothing to
    /// do. A store with outcomes keeps those of the last 4,096 units of work that were committed.
    ///
    /// A step of the journal that isn't refused brings what waits nearer to being durable. A trim under way is ended by
    /// the next step of the journal or of a trim that isn't refused. A flush that begins with `p` dirty pages is done
    /// within `2 * p + 7` of its steps that aren't refused. What an event doesn't step stays as it was. An event that
    /// makes no step, an idle step, and a step that is refused for another reason than the device leave the disk as it
    /// was.
    pub fn event(&mut self, event: Event) -> Reply
        ensures answers { EngineAnswers event result (engine_view D.clock D.failures self.old)
            (engine_view D.clock D.failures self.new) }
        ensures step { Step self.old.machine event result self.new.machine }
        ensures outcomes { OutcomesAreKept self.new.machine }
        ensures before { D.faithful self.new.disk → IsSafeAt self.old.store
            (D.state_at self.new.disk) (D.clock self.old.disk) self.old.machine }
        ensures after { D.faithful self.new.disk → IsSafeAt self.old.store
            (D.state_at self.new.disk) (D.clock self.new.disk) self.new.machine }
        ensures call { OneCall AnyFile (D.state_at self.old.disk) (D.state_at self.new.disk)
            (D.clock self.old.disk) (D.clock self.new.disk) }
        ensures quiet { NeedsNoDevice event result → self.new.disk ≡ self.old.disk }
        ensures store { self.new.store ≡ self.old.store }
        ensures dropped { self.new.prepared ≡ None }
        ensures faithful { D.faithful self.new.disk → D.faithful self.old.disk }
    {
        engine_invariant::laws::crashes_leave_prefixes();
        store_model::laws::outcomes_are_kept();
        self.prepared = None;
        self.parts.event(event)
    }

    /// Prepares an event that may accept a change: makes all that it grows. If the event will accept a change, and only
    /// then, it answers that change and the trees of now with the change applied. Nothing is accepted yet. What was
    /// prepared before is dropped.
    ///
    /// Refused with `NoMemory` alone; nothing is prepared then.
    pub fn prepare(&mut self, event: Event) -> Result<Option<Next>, Refusal>
        requires accepts { may_accept event ≡ true }
        ensures prepared { IfOk result (λ next. self.new.prepared
            ≡ Some (record { event = event; next = option_map change_and_trees next })) }
        ensures predicted { IfOk result (λ next.
            Predicts self.new.machine event (option_map change_and_trees next)) }
        ensures refused { IfErr result (λ why. (why ≡ NoMemory) × (self.new.prepared ≡ None)) }
        ensures same { self.new ≡ record self.old { prepared = self.new.prepared } }
    {
        self.prepared = None;
        let prepared = self.parts.prepare(event)?;
        let next = prepared.next(self.parts.alloc)?;
        self.prepared = Some(prepared);
        Ok(next)
    }

    /// Finishes the prepared event: it is that event, and makes no device call. Takes no memory. If `prepare` answered
    /// a change, just that change is accepted, as the next one, and the trees of now are those that it answered.
    /// Otherwise no change is accepted.
    ///
    /// A crash before or after it leaves a prefix of the changes accepted then.
    pub fn finish(&mut self) -> Reply
        requires stands { is_some self.old.prepared ≡ true }
        ensures step { IfSome self.old.prepared (λ awaiting.
            Step self.old.machine awaiting.event result self.new.machine) }
        ensures shown { IfSome self.old.prepared (λ awaiting.
            AcceptsJust awaiting.next self.old.machine self.new.machine) }
        ensures outcomes { OutcomesAreKept self.new.machine }
        ensures never_no_memory { ¬ (result ≡ reply.Refused NoMemory) }
        ensures same { self.new ≡ record self.old {
          machine = self.new.machine;
          prepared = None;
        } }
        ensures before { D.faithful self.new.disk → IsSafeAt self.old.store
            (D.state_at self.new.disk) (D.clock self.old.disk) self.old.machine }
        ensures after { D.faithful self.new.disk → IsSafeAt self.old.store
            (D.state_at self.new.disk) (D.clock self.new.disk) self.new.machine }
    {
        engine_invariant::laws::crashes_leave_prefixes();
        store_model::laws::outcomes_are_kept();
        let Some(prepared) = self.prepared.take() else {
            unreachable!();
        };
        self.parts.finish(prepared)
    }

    /// A whole run: each event is answered as [`event`](Engine::event) answers it by itself, one after another. Each
    /// makes at most one device call, so each moment of the run is that of some boundary between two events. At each
    /// boundary, at its own moment, whatever a crash leaves is a prefix of the changes accepted up to there. Each
    /// receipt is of a number that is durable at the end.
    ///
    /// Refused, before any event, with `AllocError` alone.
    pub fn run(&mut self, alloc: Global, events: Vec<Event>) -> Result<Vec<Reply>, AllocError>
        ensures answers { IfOk result (λ replies. AnswersInTurn
            (engine_view D.clock D.failures self.old) events.items replies.items
            (engine_view D.clock D.failures self.new)) }
        ensures run { IfOk result (λ replies.
            Run self.old.machine events.items replies.items self.new.machine) }
        ensures outcomes { OutcomesAreKept self.new.machine }
        ensures crashes { IfOk result (λ replies. D.faithful self.new.disk →
            RunsSafely (IsSafeAt self.old.store (D.state_at self.new.disk))
            (engine_view D.clock D.failures self.old) events.items replies.items
            (engine_view D.clock D.failures self.new)) }
        ensures receipts { IfOk result (λ replies.
            AllByRecursion (ReceiptIsDurable self.new.machine.durable) replies.items) }
        ensures err { OnErr result (self.new ≡ self.old) }
        ensures dropped { OnOk result (self.new.prepared ≡ None) }
        ensures store { self.new.store ≡ self.old.store }
        ensures faithful { D.faithful self.new.disk → D.faithful self.old.disk }
    {
        engine_invariant::laws::receipts_are_durable();
        store_model::laws::outcomes_are_kept();
        let replies = self.parts.run(alloc, events)?;
        self.prepared = None;
        Ok(replies)
    }

    /// A law: whatever a crash leaves of the files as they are recovers one number, not below the durable one, and the
    /// trees after the accepted changes up to it.
    pub fn keeps_a_prefix(&self)
        ensures { D.faithful self.now.disk → IsSafeAt self.now.store
            (D.state_at self.now.disk) (D.clock self.now.disk) self.now.machine }
    {
        engine_invariant::laws::crashes_leave_prefixes();
        // what the type keeps is known once a field is read
        let _ = self.parts.store.durable(); // for the prover
    }

    /// A law of what a read gives of the files, as an opening finds them after a life that ended without a crash. As
    /// long as the device hasn't failed, or if no flush is under way, a crash may leave the same. So it recovers such a
    /// number too. If all is durable, it is the last number and the trees of now.
    pub fn reads_a_prefix(&self)
        ensures honest { D.faithful self.now.disk → IsReadable self.now.machine self.now.hives →
            LeavesHonest (IsPrimaryOf (length self.now.machine.opened))
            (D.state_at self.now.disk (D.clock self.now.disk))
            (seen_in (D.state_at self.now.disk (D.clock self.now.disk))) }
        ensures prefix { D.faithful self.now.disk → IsReadable self.now.machine self.now.hives →
            IsPrefix self.now.store self.now.machine
            (seen_in (D.state_at self.now.disk (D.clock self.now.disk))) }
        ensures quiet { D.faithful self.now.disk → IsReadable self.now.machine self.now.hives →
            ¬ (HasPending self.now.machine) →
            Recover self.now.store (length self.now.machine.opened)
            (seen_in (D.state_at self.now.disk (D.clock self.now.disk)))
            (last_number self.now.machine) (trees_now self.now.machine) }
    {
        engine_invariant::laws::crashes_leave_prefixes();
        engine_invariant::laws::quiet_ends_recover();
        hive_flush::laws::reads_are_honest();
        // what the type keeps is known once a field is read
        let _ = self.parts.store.durable(); // for the prover
    }

    /// A law: what was there at the opening is durable, nothing is durable that wasn't accepted, and numbers, changes,
    /// sessions and transactions stay within their limits.
    pub fn stays_within(&self)
        ensures { IsWithin self.now.machine }
    {
        // what the type keeps is known once a field is read
        let _ = self.parts.store.durable(); // for the prover
    }

    /// A law: the machine keeps what each step keeps. If the store keeps outcomes, its tree of outcomes has had the commits
    /// that are kept, at each number since the opening.
    pub fn keeps_invariant(&self)
        ensures { MachineHolds self.now.machine }
    {
        // what the type keeps is known once a field is read
        let _ = self.parts.store.durable(); // for the prover
    }

    /// How many hives calls may name: the first ones. A store that keeps outcomes has one tree more.
    pub fn hives(&self) -> u8
        ensures { result ≡ self.now.machine.bounds.hives }
    {
        self.parts.hives()
    }

    /// The trees after all accepted changes.
    pub fn trees(&self) -> &Trees
        ensures { result.now ≡ trees_now self.now.machine }
    {
        self.parts.store.trees()
    }

    /// The same, of the hives that calls name: the first ones.
    pub fn named_trees(&self, alloc: Global) -> Result<Trees, AllocError>
        ensures { IfOk result (λ named. named ≡ model.named_trees self.now.machine) }
    {
        named_trees(
            alloc,
            self.parts.store.trees(),
            usize::from(self.parts.hives()),
        )
    }

    /// The number up to which the accepted changes are durable.
    pub fn durable(&self) -> u64
        ensures durable { result ≡ self.now.machine.durable }
        ensures known { result ≤ last_number self.now.machine }
    {
        self.parts.store.durable()
    }

    /// The number of the last accepted change.
    pub fn last_number(&self) -> u64
        ensures { result ≡ last_number self.now.machine }
    {
        self.parts.store.last_number()
    }

    /// The accepted changes after a number, in their order; the number isn't above the last one's. Refused, with the number
    /// after which they are retained, if some of them aren't: they were accepted before the history; or they are durable,
    /// and no hive lacks them. Each change that isn't durable, or that a hive lacks, is retained.
    pub fn changes_after(&self, number: u64) -> Result<&[EncodedChange], u64>
        requires there { number ≤ last_number self.now.machine }
        ensures kept { IfOk result (λ changes. (self.now.machine.before ≤ number)
            × (changes.now ≡ drop (number - self.now.machine.before) self.now.machine.accepted)) }
        ensures gone { IfErr result (AreRetainedAfter self.now.machine self.now.base self.now.opened
            self.now.hives number) }
    {
        self.parts.changes_after(number)
    }

    /// The id of the store.
    pub fn id(&self) -> Uuid
        ensures { result ≡ self.now.store.id }
    {
        self.parts.journal.id()
    }

    /// Whether the store keeps the outcomes of commits.
    pub fn layout(&self) -> Layout
        ensures { result ≡ self.now.store.layout }
    {
        self.parts.journal.layout()
    }

    /// Whether some accepted change isn't durable yet: a step of the journal isn't idle then.
    pub fn has_pending(&self) -> bool
        ensures { (result ≡ true) ↔ HasPending self.now.machine }
    {
        self.parts.has_pending()
    }

    /// The next hive whose flush has something to do, after `after` and around all hives; `None` if there is none.
    pub fn hive_with_work(&self, after: u8) -> Option<u8>
        ensures some { IfSome result (λ hive. IsNextAround self.now.machine self.now.base
            self.now.opened self.now.hives after hive) }
        ensures there { IfSome result (λ hive. hive < length self.now.machine.opened) }
        ensures none { IfNone result (AreFlushed self.now.machine self.now.base self.now.opened
            self.now.hives 0 (length self.now.hives)) }
    {
        self.parts.hive_with_work(after)
    }

    /// Whether a step of a trim has something to do. On a faulted store, whose steps are refused, it is false.
    pub fn may_trim(&self) -> bool
        ensures yes { result ≡ true → ¬ (IsTrimmed self.now.machine self.now.base
            self.now.opened self.now.journal self.now.hives) }
        ensures no { result ≡ false → self.now.machine.faulted ≡ false →
            IsTrimmed self.now.machine self.now.base self.now.opened self.now.journal
            self.now.hives }
        ensures faulted { self.now.machine.faulted ≡ true → result ≡ false }
    {
        match self.parts.check_not_faulted() {
            Ok(()) => self.parts.may_trim(),
            Err(_) => false,
        }
    }

    /// How many bytes of the journal's room are used: by what it decodes to, and by what is still to be written.
    pub fn room(&self) -> u64
        ensures { result ≡ self.now.machine.room }
    {
        self.parts.store.room()
    }

    /// The disk.
    pub fn disk(&self) -> &D
        ensures { result.now ≡ self.now.disk }
    {
        &self.parts.disk
    }

    /// The disk, without the engine.
    pub fn into_disk(self) -> D
        ensures { result ≡ self.disk }
    {
        let Engine { parts, prepared: _ } = self;
        parts.into_disk()
    }
}

// the store in memory of the recovered store
fn begun(alloc: Global, found: &RecoveredStore) -> Result<Store, AllocError>
    requires kept { InvariantHolds found.now }
    ensures machine { IfOk result (λ it. it.machine
        ≡ record (opened_machine (bounds_for (journals.store_of found.now.journal).hives)
        found.now.trees found.now.number [] 0)
        { room = 65 + room_of (choice_of found.now.journal).now.elements }) }
    ensures retained { IfOk result (λ it. it.retained ≡ found.now.number) }
{
    let trees = found.trees.try_clone(alloc)?;
    let bounds = StoreBounds::for_hives(usize::from(found.journal.hives()));
    Store::within(alloc, bounds, trees, found.number, found.journal.used())
}
