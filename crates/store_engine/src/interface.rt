//! An engine as the registry uses it: any type that keeps this contract.
ghost use Rattle.std.specs.Prelude.{◌≡◌, ◌+◌, ◌-◌, ◌≤◌, ◌<◌, ◌↔◌, ◌++◌, ◌∷◌, [], ℕ, None, Some, Option, true, false, drop, is_some, length, IfErr, IfNone, IfOk, IfSome};
ghost use Rattle.std.specs.Option.{option_map};
ghost use Rattle.refusals.specs.declared.refusal.Refusal.TheVariants.{NoMemory};
ghost use Rattle.reg_tree.specs.Sequences.{after_elements};
ghost use Rattle.commit_journal.specs.Store.{Store};
ghost use Rattle.store_model.specs.Invariant.{IsWithin};
ghost use Rattle.store_model.specs.Machine.{Machine, last_number, trees_now};
ghost use Rattle.store_model.specs.Steps.{Step, may_accept};
ghost use Rattle.store_model.specs.declared.event.Reply.TheVariants.{Refused};
ghost use Rattle.transactions.specs.Prepared.{AcceptsJust, change_and_trees};
ghost use Rattle.engine_invariant.specs.Engines.{EngineAnswers, EngineView};
ghost use Rattle.engine_invariant.specs.Idle.{IsTrimmed};
ghost use Rattle.engine.specs.Discards.{AreRetainedAfter};
ghost use Rattle.engine.specs.Shown.{Awaiting};
ghost use Rattle.engine.specs.Work.{AreFlushed, IsNextAround};

use change_codec::EncodedChange;
use commit_journal::Layout;
use refusals::Refusal;
use reg_tree::Trees;
use store_model::{Event, Reply};
use transactions::Next;
use uuid::Uuid;

/// A store, one event at a time. [`Engine`] is one over each disk.
///
/// The registry is generic in it, so that whether it may go to another thread is asked of the engine alone.
pub trait StoreEngine {
    /// What is seen of it: its machine, what is durable and under way of the journal and of each hive, and how many calls
    /// of the device there were and failed.
    ghost state: { Self → EngineView };

    /// The event that is prepared.
    ghost prepared: { Self → Option Awaiting };

    /// The store whose files are on the device.
    ghost store: { Self → Store };

    /// That the device is faithful.
    ghost faithful: { Self → Type 0 };

    /// Whatever a crash at a moment leaves is a prefix of a machine's changes.
    ghost safe: { Self → ℕ → Machine → Type 0 };

    /// One event: a step of the machine, with at most one call of the device. A crash before, within or after it leaves a
    /// prefix. What a crash left at an earlier moment it still leaves, and a device that is faithful then was so before.
    ///
    /// That the device failed is answered only if it did, in this event. A step is idle exactly if there is nothing to do.
    /// A step of the journal that isn't refused brings what waits nearer to being durable.
    fn event(&mut self, event: Event) -> Reply
        ensures answers { EngineAnswers event result (state self.old) (state self.new) }
        ensures step { Step (state self.old).machine event result (state self.new).machine }
        ensures before { faithful self.new → safe self.new (state self.old).clock (state self.old).machine }
        ensures after { faithful self.new → safe self.new (state self.new).clock (state self.new).machine }
        ensures call { ((state self.old).clock ≤ (state self.new).clock)
            × ((state self.new).clock ≤ (state self.old).clock + 1) }
        ensures backward { faithful self.new → faithful self.old }
        ensures past { faithful self.new → (moment : ℕ) (then : Machine) → moment ≤ (state self.old).clock →
            safe self.old moment then → safe self.new moment then }
        ensures store { store self.new ≡ store self.old };

    /// Prepares an event that may accept a change: makes all that it grows, and tells the change and the trees after it,
    /// if it will accept one. Refused with `NoMemory` alone.
    fn prepare(&mut self, event: Event) -> Result<Option<Next>, Refusal>
        requires accepts { may_accept event ≡ true }
        ensures prepared { IfOk result (λ next. prepared self.new
            ≡ Some (record { event = event; next = option_map change_and_trees next })) }
        ensures coming { IfOk result (λ next. IfSome next (λ n. n.trees
            ≡ after_elements (state self.old).machine.opened
            ((state self.old).machine.accepted ++ n.change.value ∷ []))) }
        ensures refused { IfErr result (λ why. why ≡ NoMemory) }
        ensures same { state self.new ≡ state self.old }
        ensures backward { faithful self.new → faithful self.old }
        ensures past { faithful self.new → (moment : ℕ) (then : Machine) → moment ≤ (state self.old).clock →
            safe self.old moment then → safe self.new moment then }
        ensures store { store self.new ≡ store self.old };

    /// Finishes the prepared event: it is that event. Takes no memory, and makes no call of the device.
    fn finish(&mut self) -> Reply
        requires stands { is_some (prepared self.old) ≡ true }
        ensures answers { (awaiting : Awaiting) → prepared self.old ≡ Some awaiting →
            may_accept awaiting.event ≡ true →
            EngineAnswers awaiting.event result (state self.old) (state self.new) }
        ensures step { IfSome (prepared self.old) (λ awaiting.
            Step (state self.old).machine awaiting.event result (state self.new).machine) }
        ensures shown { IfSome (prepared self.old) (λ awaiting.
            AcceptsJust awaiting.next (state self.old).machine (state self.new).machine) }
        ensures never_no_memory { ¬ (result ≡ Refused NoMemory) }
        ensures before { faithful self.new → safe self.new (state self.old).clock (state self.old).machine }
        ensures after { faithful self.new → safe self.new (state self.new).clock (state self.new).machine }
        ensures call { (state self.new).clock ≡ (state self.old).clock }
        ensures backward { faithful self.new → faithful self.old }
        ensures past { faithful self.new → (moment : ℕ) (then : Machine) → moment ≤ (state self.old).clock →
            safe self.old moment then → safe self.new moment then }
        ensures store { store self.new ≡ store self.old };

    /// A law: whatever a crash leaves now is a prefix.
    fn keeps_a_prefix(&self)
        ensures { faithful self.now → safe self.now (state self.now).clock (state self.now).machine };

    /// A law: numbers and changes are within their limits.
    fn stays_within(&self)
        ensures { IsWithin (state self.now).machine };

    /// How many hives calls may name.
    fn hives(&self) -> usize
        ensures { result ≡ (state self.now).machine.bounds.hives };

    /// The trees after all accepted changes.
    fn trees(&self) -> &Trees
        ensures { result.now ≡ trees_now (state self.now).machine };

    /// The number up to which changes are durable.
    fn durable(&self) -> u64
        ensures { result ≡ (state self.now).machine.durable };

    /// The number of the last accepted change.
    fn last_number(&self) -> u64
        ensures { result ≡ last_number (state self.now).machine };

    /// The accepted changes after a number, in their order; the number isn't above the last one's. Refused, with the number
    /// after which they are retained, if some of them aren't: they were accepted before the history; or they are durable,
    /// and no hive lacks them.
    fn changes_after(&self, number: u64) -> Result<&[EncodedChange], u64>
        requires there { number ≤ last_number (state self.now).machine }
        ensures kept { IfOk result (λ changes. ((state self.now).machine.before ≤ number)
            × (changes.now ≡ drop (number - (state self.now).machine.before) (state self.now).machine.accepted)) }
        ensures gone { IfErr result (AreRetainedAfter (state self.now).machine (state self.now).base
            (state self.now).opened (state self.now).hives number) };

    /// The id of the store.
    fn id(&self) -> Uuid
        ensures { result ≡ (store self.now).id };

    /// Whether the store keeps the outcomes of commits.
    fn layout(&self) -> Layout
        ensures { result ≡ (store self.now).layout };

    /// Whether some accepted change isn't durable yet.
    fn has_pending(&self) -> bool
        ensures { (result ≡ true) ↔ ((state self.now).machine.durable < last_number (state self.now).machine) };

    /// The next hive whose flush has something to do, after this one and around all hives; `None` if there is none.
    fn hive_with_work(&self, after: u8) -> Option<u8>
        ensures some { IfSome result (λ hive. IsNextAround (state self.now).machine (state self.now).base
            (state self.now).opened (state self.now).hives after hive) }
        ensures there { IfSome result (λ hive. hive < length (state self.now).machine.opened) }
        ensures none { IfNone result (AreFlushed (state self.now).machine (state self.now).base
            (state self.now).opened (state self.now).hives 0 (length (state self.now).hives)) };

    /// Whether a step of a trim has something to do. On a faulted store, whose steps are refused, it is false.
    fn may_trim(&self) -> bool
        ensures yes { result ≡ true → ¬ (IsTrimmed (state self.now).machine (state self.now).base
            (state self.now).opened (state self.now).journal (state self.now).hives) }
        ensures no { result ≡ false → (state self.now).machine.faulted ≡ false →
            IsTrimmed (state self.now).machine (state self.now).base (state self.now).opened
            (state self.now).journal (state self.now).hives }
        ensures faulted { (state self.now).machine.faulted ≡ true → result ≡ false };

    /// How many bytes of the journal's room are used.
    fn room(&self) -> u64
        ensures { result ≡ (state self.now).machine.room };
}
