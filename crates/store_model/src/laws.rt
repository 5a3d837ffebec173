//! Laws of the machine, which follow from its definitions alone.
//!
//! They have no code of their own: each is the contract of a function that does nothing, for crates that keep a store
//! by the machine.
ghost use Rattle.std.specs.Prelude.{◌≡◌, ◌↔◌, ◌≤◌, ◌⊎◌, ◌++◌, ◌+◌, Contains, ℕ, [], true, false, length, replicate, List, Some, None};
ghost use Rattle.std.specs.List.Sorted.{IsStrictlySortedBy};
ghost use Rattle.std.specs.Ordering.{nat_cmp};
ghost use Rattle.refusals.specs.declared.limits.TheConstants.{GREATEST_NUMBER, MOST_JOURNAL_BYTES};
ghost use Rattle.refusals.specs.declared.refusal.Refusal.TheVariants.{DiskFault, NoMemory};
ghost use Rattle.reg_tree.specs.Maps.{TreeMap};
ghost use Rattle.reg_tree.specs.Fresh.{fresh_tree};
ghost use Rattle.reg_tree.specs.Encodings.{element_encoded_len};
ghost use Rattle.reg_tree.specs.declared.element.Element.{Element};
ghost use Rattle.reg_tree.specs.Judgement.{any_outweighs};
ghost use Rattle.reg_tree.specs.Sequences.{AreTrees, AreLegal};
ghost use Rattle.store_model.specs.Transactions.{Transaction, own};
ghost use Rattle.store_model.specs.Machine.{Machine, commit_change, commits_to, committed, has_outcomes, outcome_bytes, outcome_of, outcome_tree, last_number, opened_machine, trees_at, trees_now, found_in};
ghost use Rattle.commit_outcomes.specs.Units.{unit_name};
ghost use Rattle.commit_outcomes.specs.Commits.{Commit, AreUpTo, kept};
ghost use Rattle.commit_outcomes.specs.Trees.{HasCommits};
ghost use Rattle.store_model.specs.Steps.{Step, Run, is_fold, is_request, is_step, may_accept};
ghost use Rattle.store_model.specs.Invariant.{InvariantHolds, OutcomesFit, IsActiveAt, AreLegalButForWeight, AreLegalChanges, IsCounted, IsGone, JournalStateStays, AcceptsOneChange, handle_in, numbers_given};
ghost use Rattle.store_model.specs.declared.bounds.StoreBounds.{StoreBounds};
ghost use Rattle.store_model.specs.declared.handle.Tx.{Tx};
ghost use Rattle.store_model.specs.declared.event.Event.{Event};
ghost use Rattle.store_model.specs.declared.event.Event.TheVariants as event;
ghost use Rattle.store_model.specs.declared.event.Reply.{Reply};
ghost use Rattle.store_model.specs.declared.event.Reply.TheVariants as reply;

/// What every state of a store keeps, from its opening on.
///
/// The trees of now are trees. No transaction's number is above how many were begun. The operations of each active
/// transaction may be carried out in turn on the trees of now. No claims of two active transactions conflict. Active
/// transactions write to no hive but those that calls may name. What was there at the opening is durable, and nothing
/// is durable that was not accepted. Numbers, changes, sessions and transactions are within their limits. The journal's
/// room is at least what the changes need that are not durable yet. Each accepted change was legal on the trees on
/// which it was accepted, and each of its operations changed something. A store that keeps outcomes has those of the
/// commits that are kept.
///
/// - `begins`: it is so as a store is opened on trees, whatever its bounds are and its journal encodes, if a tree of
///   outcomes has commits up to the number.
/// - `step`, `run`: each step keeps it, and so does every run.
/// - `room`, `room_run`: the journal's room stays within its limit, if it was so at the opening.
pub fn steps_keep_invariant()
    ensures begins { (bounds : StoreBounds) (trees : List TreeMap) (number : ℕ)
        (journaled : List Element) (failures : ℕ) →
        AreTrees trees → number ≤ GREATEST_NUMBER → OutcomesFit bounds trees number →
        InvariantHolds (opened_machine bounds trees number journaled failures) }
    ensures step { (old new : Machine) (event : Event) (reply : Reply) → InvariantHolds old →
        Step old event reply new →
        InvariantHolds new }
    ensures run { (old new : Machine) (events : List Event) (replies : List Reply) → InvariantHolds old →
        Run old events replies new → InvariantHolds new }
    ensures room { (old new : Machine) (event : Event) (reply : Reply) → InvariantHolds old →
        Step old event reply new →
        old.room ≤ MOST_JOURNAL_BYTES → new.room ≤ MOST_JOURNAL_BYTES }
    ensures room_run { (old new : Machine) (events : List Event) (replies : List Reply) →
        InvariantHolds old →
        Run old events replies new → old.room ≤ MOST_JOURNAL_BYTES → new.room ≤ MOST_JOURNAL_BYTES }
{
    reg_tree::laws::trees_stay();
    reg_tree::laws::weight_alone_refuses();
    conflicts::laws::stay_legal();
    conflicts::laws::one_more();
    conflicts::laws::holders_are_exact();
    commit_outcomes::laws::units_have_names();
    commit_outcomes::laws::commits_are_kept();
    commit_outcomes::laws::kept_in_turn();
}

/// Only a step may be answered that the device failed: every other event makes no call of the device.
pub fn only_steps_fail()
    ensures { (old new : Machine) (event : Event) → Step old event (reply.Refused DiskFault) new →
        is_step event ≡ true }
{}

/// Only a step may change what is durable, free room, or fault a store. Every other event that doesn't fold the history
/// leaves all of that, and accepts one change at most.
pub fn only_steps_make_durable()
    ensures { (old new : Machine) (event : Event) (reply : Reply) → InvariantHolds old →
        is_request event ≡ true → Step old event reply new → JournalStateStays old new ⊎ AcceptsOneChange old new }
{
    commits_stay_legal();
}

/// What stays of the opening.
///
/// - `opening`: its trees and its number stay, unless the history is folded.
/// - `bounds`: the bounds stay, there are as many trees, and what is durable stays durable.
pub fn openings_stay()
    ensures opening { (old new : Machine) (event : Event) (reply : Reply) → is_fold event ≡ false →
        Step old event reply new → (new.opened ≡ old.opened) × (new.before ≡ old.before) }
    ensures bounds { (old new : Machine) (event : Event) (reply : Reply) → Step old event reply new →
        (new.bounds ≡ old.bounds) × (length new.opened ≡ length old.opened)
        × (old.durable ≤ new.durable) }
{}

/// A fold leaves the trees of now, the last number and what is durable, and each session and transaction. So every
/// transaction has its view, its claims and its outcome. The next change has the next number, and the history is empty.
pub fn folds_keep()
    ensures { (old new : Machine) (number : ℕ) → Step old event.Fold (reply.Folded number) new →
        (trees_now new ≡ trees_now old) × (last_number new ≡ last_number old)
        × (new.durable ≡ old.durable) × (new.sessions ≡ old.sessions)
        × (new.tx_slots ≡ old.tx_slots) × (new.begun ≡ old.begun)
        × (number ≡ last_number old) × (new.accepted ≡ []) }
{}

/// Only a write by itself and a commit accept a change. The history stays at each other event that doesn't fold it.
pub fn others_accept_nothing()
    ensures { (old new : Machine) (event : Event) (reply : Reply) → may_accept event ≡ false →
        is_fold event ≡ false → Step old event reply new → new.accepted ≡ old.accepted }
{}

/// A refusal for want of memory changes nothing.
pub fn no_memory_changes_nothing()
    ensures { (old new : Machine) (event : Event) →
        Step old event (reply.Refused NoMemory) new → new ≡ old }
{}

/// At a commit no operation is illegal but for weight: others may have changed the trees since it was written, but
/// nothing that its claim guards.
///
/// - `but_for_weight`: each operation of the change that a commit makes of an active transaction, carried out in turn on
///   the trees of now at whatever moment, is legal or refused for weight alone.
/// - `within`, `in_order`: if none takes a tree over the limit of weight, each is legal.
/// - `short`: this change is longer than one of the transaction's operations alone by no more than the bytes that are
///   set aside for its outcome.
pub fn commits_stay_legal()
    ensures but_for_weight { (machine : Machine) (slot : ℕ) (one : Transaction) → InvariantHolds machine →
        IsActiveAt machine.tx_slots slot one →
        (moment : ℕ) → AreLegalButForWeight (trees_now machine) (committed machine one) moment }
    ensures within { (machine : Machine) (slot : ℕ) (one : Transaction) (moment : ℕ) →
        InvariantHolds machine → IsActiveAt machine.tx_slots slot one →
        any_outweighs (trees_now machine) (committed machine one) moment ≡ false →
        AreLegalChanges (trees_now machine) (committed machine one) moment }
    ensures in_order { (machine : Machine) (slot : ℕ) (one : Transaction) (moment : ℕ) →
        InvariantHolds machine → IsActiveAt machine.tx_slots slot one →
        any_outweighs (trees_now machine) (committed machine one) moment ≡ false →
        AreLegal (trees_now machine) (committed machine one) moment }
    ensures short { (machine : Machine) (one : Transaction) (moment : ℕ) → InvariantHolds machine →
        element_encoded_len (commit_change machine moment one)
        ≤ element_encoded_len (record { moment = moment; ops = one.ops }) + outcome_bytes machine }
{
    conflicts::laws::but_for_weight();
    reg_tree::laws::weight_alone_refuses();
    commit_outcomes::laws::units_have_names();
    commit_outcomes::laws::commits_are_kept();
}

/// The tree of outcomes has the commits that are kept: of those that it had at the opening and those of the history, the
/// last one of each unit of work, and of these the last 4,096.
///
/// - `now`: it has those of all changes.
/// - `told`: the number of a unit's commit is found exactly if the commit is one of them.
/// - `each`: after each change since the opening it had those up to then.
/// - `fit`: the trees after each of these changes may be opened.
/// - `fresh`: so may those of a new store.
pub fn outcomes_are_kept()
    ensures now { (machine : Machine) (before : List Commit) → InvariantHolds machine → has_outcomes machine ≡ true →
        HasCommits before (outcome_tree machine.bounds machine.opened) → AreUpTo machine.before before →
        HasCommits (kept (before ++ machine.commits)) (outcome_tree machine.bounds (trees_now machine)) }
    ensures told { (machine : Machine) (before : List Commit) (id : List ℕ) (number : ℕ) → InvariantHolds machine →
        has_outcomes machine ≡ true → HasCommits before (outcome_tree machine.bounds machine.opened) →
        AreUpTo machine.before before →
        (outcome_of machine id ≡ Some number)
        ↔ Contains (kept (before ++ machine.commits)) (number, unit_name id) }
    ensures each { (machine : Machine) (before : List Commit) (number : ℕ) → InvariantHolds machine →
        has_outcomes machine ≡ true → HasCommits before (outcome_tree machine.bounds machine.opened) →
        AreUpTo machine.before before → machine.before ≤ number → number ≤ last_number machine →
        HasCommits (kept (before ++ commits_to number machine.commits))
        (outcome_tree machine.bounds (trees_at machine number)) }
    ensures fit { (machine : Machine) (number : ℕ) → InvariantHolds machine → machine.before ≤ number →
        number ≤ last_number machine → OutcomesFit machine.bounds (trees_at machine number) number }
    ensures fresh { (bounds : StoreBounds) →
        OutcomesFit bounds (replicate (bounds.hives + 1) fresh_tree) 0 }
{
    commit_outcomes::laws::trees_have_commits();
}

/// No handle is given twice, and one that was closed answers nothing for good.
///
/// - `step`: a handle that is given has the next number, which is how many transactions were begun then; every
///   other answer leaves that count.
/// - `run`: the numbers of the handles that are given along a run rise, so no two are the same.
/// - `closed`, `ended`: a handle is gone after its close, and after the end of its session.
/// - `gone`, `for_good`: what is gone stays gone.
/// - `answered`, `not_found`: no session has a transaction by a handle that is gone, so each event with it is
///   refused as the order of refusals says.
pub fn handles_are_given_once()
    ensures step { (old new : Machine) (event : Event) (reply : Reply) → Step old event reply new →
        IsCounted old (handle_in reply) new }
    ensures run { (old new : Machine) (events : List Event) (replies : List Reply) →
        Run old events replies new →
        IsStrictlySortedBy nat_cmp (numbers_given replies) }
    ensures closed { (old new : Machine) (session : ℕ) (tx : Tx) → InvariantHolds old →
        Step old (event.Close session tx) reply.Done new →
        IsGone new tx }
    ensures ended { (old new : Machine) (session : ℕ) (tx : Tx) (one : Transaction) → InvariantHolds old →
        own old.tx_slots session tx ≡ Some one →
        Step old (event.EndSession session) reply.Done new → IsGone new tx }
    ensures gone { (old new : Machine) (event : Event) (reply : Reply) (tx : Tx) → IsGone old tx →
        Step old event reply new →
        IsGone new tx }
    ensures for_good { (old new : Machine) (events : List Event) (replies : List Reply) (tx : Tx) →
        IsGone old tx →
        Run old events replies new → IsGone new tx }
    ensures answered { (machine : Machine) (session : ℕ) (tx : Tx) → IsGone machine tx →
        own machine.tx_slots session tx ≡ None }
    ensures not_found { (machine : Machine) (session : ℕ) (tx : Tx) → IsGone machine tx →
        found_in machine session tx ≡ None }
{}
