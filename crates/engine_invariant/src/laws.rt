//! The laws, each the contract of a function that does nothing.
ghost use Rattle.std.specs.Prelude.{◌≡◌, ◌⊎◌, ℕ, ◌+◌, ◌*◌, ◌<◌, ◌≤◌, ◌++◌, ◌∷◌, [], true, false, List, length, map, slice_get, slice_set, Some, None, Result, Ok, Err};
ghost use Rattle.reg_tree.specs.Maps.{TreeMap};
ghost use Rattle.reg_tree.specs.declared.element.Element.{Element};
ghost use Rattle.crash_model.specs.Changes.{ops_on};
ghost use Rattle.crash_model.specs.Life.{ops_in};
ghost use Rattle.crash_model.specs.Promises.{Choice, Content, Ends, JournalSays, TrimSays, HiveSays, settled, top};
ghost use Rattle.change_codec.specs.ModelChanges.{TimedOp, timed_elements};
ghost use Rattle.hive_flush.specs.HiveStates.{ChangesAreLegalOn};
ghost use Rattle.crash_model.specs.StepAnswers.{Says};
ghost use Rattle.disk_model.specs.declared.progress.Progress.{Progress};
ghost use Rattle.disk_model.specs.declared.progress.Progress.TheVariants as progress;
ghost use Rattle.store_model.specs.Machine.{Machine, last_number, opened_machine, pending, trees_now};
ghost use Rattle.store_model.specs.Steps.{EndsTrim, Step, Run, is_request};
ghost use Rattle.store_model.specs.Invariant.{InvariantHolds, OutcomesFit};
ghost use Rattle.store_model.specs.declared.bounds.StoreBounds.{StoreBounds};
ghost use Rattle.store_model.specs.declared.event.Event.{Event};
ghost use Rattle.store_model.specs.declared.event.Event.TheVariants as event;
ghost use Rattle.disk_model.specs.declared.progress.Progress.TheVariants.{Done};
ghost use Rattle.store_model.specs.declared.event.Reply.{Reply};
ghost use Rattle.store_model.specs.declared.event.Reply.TheVariants as reply;
ghost use Rattle.engine_invariant.specs.States.{HiveView, IsConsistent, life_of};
ghost use Rattle.refusals.specs.declared.refusal.Refusal.{Refusal};
ghost use Rattle.refusals.specs.declared.refusal.Refusal.TheVariants.{Faulted};
ghost use Rattle.engine_invariant.specs.Answers.{reply_to, after_step, after_flush, MayTrim, opened_above, accepted_above, absorbed};
ghost use Rattle.disk_model.specs.FileState.{FileState};
ghost use Rattle.disk_model.specs.Crash.{LeavesHonest};
ghost use Rattle.std.specs.List.{AllByRecursion};
ghost use Rattle.commit_journal.specs.Store.{Store, room_of};
ghost use Rattle.commit_journal.specs.Handed.{IsHanded, IsShort};
ghost use Rattle.commit_journal.specs.Journals.{choice_of, store_of};
ghost use Rattle.commit_journal.specs.declared.journal.Journal.{Journal};
ghost use Rattle.hive_flush.specs.declared.hive.HiveFile.{HiveFile};
ghost use Rattle.engine_invariant.specs.Prefixes.{AreOnDisk, ArePlaced, IsPrefix, IsPrimaryOf, IsSafeAt, Recover, view_of};
ghost use Rattle.engine_invariant.specs.Engines.{EngineAnswers, EngineView};
ghost use Rattle.engine_invariant.specs.Runs.{AnswersInTurn, RunsSafely, IsBoundary, ReceiptIsDurable};
ghost use Rattle.engine_invariant.specs.Openings.{OpeningRecovers};
ghost use Rattle.engine_invariant.specs.Progress.{FlushView, FlushesOn, HasFlushed, HasPending, IsJournalStep, IsTrimming};

use reg_tree::{Op, Tree};

/// What an opening finds begins a life that has the invariant, if at most one tree is beside those that calls name, and
/// a tree of outcomes has commits up to the number. The machine is as it is opened, and its room is that of the changes
/// that the journal decodes to.
pub fn openings_begin()
    ensures { (bounds : StoreBounds) (trees : List TreeMap) (number failures base : ℕ)
        (opened : List Element) (journal : Choice (Content TimedOp)) (hives : List HiveView) →
        OpeningRecovers bounds.hives trees number base opened journal hives →
        length trees ≤ bounds.hives + 1 → OutcomesFit bounds trees number →
        IsConsistent (record (opened_machine bounds trees number [] failures)
        { room = 65 + room_of journal.now.elements }) base opened journal hives }
{
    store_model::laws::steps_keep_invariant();
}

/// An event that neither makes a step nor folds the history keeps the invariant.
pub fn events_keep()
    ensures { (old new : Machine) (base : ℕ) (opened : List Element)
        (journal : Choice (Content TimedOp)) (hives : List HiveView)
        (event : Event) (reply : Reply) → IsConsistent old base opened journal hives →
        is_request event ≡ true → Step old event reply new →
        IsConsistent new base opened journal hives }
{
    store_model::laws::steps_keep_invariant();
    store_model::laws::only_steps_make_durable();
    commit_outcomes::laws::trees_have_commits();
}

/// A fold keeps the invariant, if the changes of the history count among those before it from then on.
pub fn folds_keep()
    ensures { (old new : Machine) (number base : ℕ) (opened : List Element)
        (journal : Choice (Content TimedOp)) (hives : List HiveView) →
        IsConsistent old base opened journal hives → Step old event.Fold (reply.Folded number) new →
        IsConsistent new base (opened ++ old.accepted) journal hives }
{
    store_model::laws::steps_keep_invariant();
}

/// What is pending may be handed to the journal of a store with as many hives, if each change is short. The numbers
/// continue from what the journal decodes to, each operation is on a hive of the store, and there is room.
pub fn pending_may_be_handed()
    ensures { (machine : Machine) (base : ℕ) (opened : List Element)
        (journal : Choice (Content TimedOp)) (hives : List HiveView) →
        IsConsistent machine base opened journal hives →
        AllByRecursion IsShort (pending machine) →
        IsHanded (length hives) (65 + room_of journal.now.elements) (machine.durable + 1)
        (pending machine) journal.now }
{
    crash_model::clauses_suffice::<Tree, (u64, Op)>();
}

/// A step of the journal, which is handed what is pending, keeps the invariant and is a step of the machine, at each of
/// its answers. So does a step of a trim, if one may be made. What the journal has is durable once a step is done. The
/// room of changes that have left it is free then.
pub fn journal_steps_keep()
    ensures batch { (machine : Machine) (base : ℕ) (opened : List Element)
        (old new : Choice (Content TimedOp)) (hives : List HiveView)
        (result : Result Progress Refusal) → IsConsistent machine base opened old hives →
        machine.faulted ≡ false → ¬ (result ≡ Err Faulted) →
        Says (JournalSays (machine.durable + 1) (timed_elements (pending machine))) result old new →
        Step machine event.JournalStep (reply_to result) (after_step machine old new result)
        × IsConsistent (after_step machine old new result) base opened new hives }
    ensures trim { (machine : Machine) (base : ℕ) (opened : List Element)
        (old new : Choice (Content TimedOp)) (hives : List HiveView)
        (result : Result Progress Refusal) → IsConsistent machine base opened old hives →
        machine.faulted ≡ false → MayTrim machine base opened old hives →
        ¬ (result ≡ Err Faulted) → Says TrimSays result old new →
        Step machine event.TrimStep (reply_to result) (after_step machine old new result)
        × IsConsistent (after_step machine old new result) base opened new hives }
{
    store_model::laws::steps_keep_invariant();
}

/// What a hive absorbs and what its steps say.
///
/// - `lacks`: what a hive at rest lacks of the durable changes is legal on what it has in memory.
/// - `above`: what a hive lacks above a number are the operations on it of the changes above that number. These changes
///   are those that the journal decoded to at the opening and those accepted since.
/// - `takes`: a hive at rest may absorb that.
/// - `step`: a step of its flush keeps the invariant and is a step of the machine, at each of its answers.
pub fn hive_steps_keep()
    ensures lacks { (machine : Machine) (base : ℕ) (opened : List Element)
        (journal : Choice (Content TimedOp)) (hives : List HiveView) (i : ℕ) (old : HiveView) →
        IsConsistent machine base opened journal hives → slice_get hives i ≡ Some old →
        (old.memory.1 ≤ machine.durable)
        × ChangesAreLegalOn i (opened_above base opened old.memory.1
        ++ accepted_above machine old.memory.1) old.memory.0 }
    ensures above { (machine : Machine) (base : ℕ) (opened : List Element)
        (journal : Choice (Content TimedOp)) (hives : List HiveView) (i number : ℕ) →
        IsConsistent machine base opened journal hives →
        ops_in (life_of machine base opened) i number machine.durable
        ≡ ops_on i (timed_elements (opened_above base opened number
        ++ accepted_above machine number)) }
    ensures takes { (machine : Machine) (base : ℕ) (opened : List Element)
        (journal : Choice (Content TimedOp)) (hives : List HiveView) (i : ℕ) (old : HiveView) →
        IsConsistent machine base opened journal hives → slice_get hives i ≡ Some old →
        old.files.next ≡ None →
        IsConsistent machine base opened journal (slice_set hives i
        (record { files = old.files; memory = absorbed machine base opened i old.memory })) }
    ensures step { (machine : Machine) (base : ℕ) (opened : List Element)
        (journal : Choice (Content TimedOp)) (hives : List HiveView) (i : ℕ) (old new : HiveView)
        (result : Result Progress Refusal) → IsConsistent machine base opened journal hives →
        machine.faulted ≡ false → slice_get hives i ≡ Some old → new.memory ≡ old.memory →
        ¬ (result ≡ Err Faulted) → Says (HiveSays old.memory) result old.files new.files →
        Step machine (event.FlusherStep i) (reply_to result) (after_flush machine result)
        × IsConsistent (after_flush machine result) base opened journal (slice_set hives i new) }
{
    store_model::laws::steps_keep_invariant();
}

/// If the invariant holds, and journal and hives are on the disk as they say, whatever a crash leaves at that moment is
/// a prefix of the machine's changes. That assumes that calls name as many hives of the machine as the journal's header
/// says, and honest first sectors. It stays so of that moment as the disk changes.
pub fn crashes_leave_prefixes()
    ensures safe { (store : Store) (machine : Machine) (base : ℕ) (opened : List Element)
        (journal : Journal) (hives : List HiveFile) (states : ℕ → ℕ → FileState) (moment : ℕ) →
        IsConsistent machine base opened (choice_of journal) (map view_of hives) →
        store_of journal ≡ store → machine.bounds.hives ≡ store.hives → ArePlaced store hives →
        AreOnDisk journal hives (states moment) → IsSafeAt store states moment machine }
    ensures past { (store : Store) (old new : ℕ → ℕ → FileState) (clock : ℕ) →
        ((k f : ℕ) → k ≤ clock → new k f ≡ old k f) →
        (moment : ℕ) (machine : Machine) → moment ≤ clock → IsSafeAt store old moment machine →
        IsSafeAt store new moment machine }
{
    commit_journal::laws::leaves::<(u64, Op)>();
    hive_flush::laws::files_hold();
}

/// Runs whose boundaries are safe, each at its moment.
///
/// - `continues`: such a run continues by an event that the engine answers. After it the run is safe again, over a disk
///   whose history is unchanged.
/// - `answers`: a run of events that an engine answers in turn continues by one more.
/// - `runs`: each such run is a run of the machine, with as many answers as events.
/// - `each_moment`: at each moment from its start to its end some boundary is of that moment; so what a crash leaves
///   then is a prefix of the changes accepted up to there.
pub fn safe_runs_go_on()
    ensures continues { (store : Store) (was is : ℕ → ℕ → FileState) (old mid new : EngineView)
        (events : List Event) (replies : List Reply) (event : Event) (reply : Reply) →
        RunsSafely (IsSafeAt store was) old events replies mid →
        ((k f : ℕ) → k ≤ mid.clock → is k f ≡ was k f) → EngineAnswers event reply mid new →
        IsSafeAt store is new.clock new.machine →
        RunsSafely (IsSafeAt store is) old (events ++ event ∷ []) (replies ++ reply ∷ []) new }
    ensures answers { (old mid new : EngineView) (events : List Event) (replies : List Reply)
        (event : Event) (reply : Reply) → AnswersInTurn old events replies mid →
        EngineAnswers event reply mid new →
        AnswersInTurn old (events ++ event ∷ []) (replies ++ reply ∷ []) new }
    ensures runs { (old new : EngineView) (events : List Event) (replies : List Reply) →
        AnswersInTurn old events replies new →
        Run old.machine events replies new.machine × (length replies ≡ length events) }
    ensures each_moment { (store : Store) (states : ℕ → ℕ → FileState) (old new : EngineView)
        (events : List Event) (replies : List Reply) →
        RunsSafely (IsSafeAt store states) old events replies new →
        (moment : ℕ) → old.clock ≤ moment → moment ≤ new.clock →
        IsBoundary (IsSafeAt store states) old events replies new moment }
{
    crashes_leave_prefixes();
}

/// Each receipt that was answered in a run is of a number that is durable at the run's end: no durable number falls,
/// whatever was durable before.
pub fn receipts_are_durable()
    ensures { (old new : Machine) (events : List Event) (replies : List Reply) → InvariantHolds old →
        Run old events replies new →
        (old.durable ≤ new.durable) × AllByRecursion (ReceiptIsDurable new.durable) replies }
{
    store_model::laws::steps_keep_invariant();
    store_model::laws::only_steps_make_durable();
}

/// What a step has done that ended what was under way to the journal, if the invariant holds.
///
/// - `settles`: a batch that is durable has made changes durable.
/// - `frees`: after a trim that is done the room is that of the changes that are not durable.
pub fn ended_steps_effects()
    ensures settles { (machine : Machine) (base : ℕ) (opened : List Element)
        (old new : Choice (Content TimedOp)) (hives : List HiveView) →
        IsConsistent machine base opened old hives → ¬ (IsTrimming old) → Ends old new →
        machine.durable < top machine.durable new.now }
    ensures frees { (machine : Machine) (base : ℕ) (opened : List Element)
        (old new : Choice (Content TimedOp)) (hives : List HiveView) →
        IsConsistent machine base opened old hives → IsTrimming old → Ends old new →
        EndsTrim machine Done (after_step machine old new (Ok progress.Done)) }
{}

/// Six steps of the journal in a row, or more, none of which is refused, make changes durable if some are not: a trim
/// that is under way is ended by one, and a batch takes four.
pub fn six_steps_settle()
    ensures { (machines : ℕ → Machine) (left : ℕ → ℕ) (count : ℕ) → 6 ≤ count →
        HasPending (machines 0) →
        ((k : ℕ) → k < count →
        IsJournalStep (machines k) (left k) (machines (k + 1)) (left (k + 1))) →
        (machines 0).durable < (machines count).durable }
{}

/// A flush that begins with `p` dirty pages is done within `2 * p + 7` steps, none of which is refused. Its hive's
/// files then have each change that names the hive and was durable when the flush began.
pub fn flushes_end()
    ensures { (hives : ℕ → HiveView) (flushes : ℕ → FlushView) (numbers : ℕ → ℕ)
        (answers : ℕ → Reply) → (hives 0).files.next ≡ None →
        ((k : ℕ) → k < 2 * (flushes 1).pages + 7 → HasFlushed k answers hives
        ⊎ FlushesOn (numbers k) (answers k) (hives k) (hives (k + 1)) (flushes k) (flushes (k + 1))) →
        HasFlushed (2 * (flushes 1).pages + 7) answers hives × ((hives 1).memory.1 ≡ numbers 0) }
{}

/// If all accepted changes are durable, whatever a crash leaves recovers the last number and the trees of now. So do
/// any files that are a prefix, such as those that a read gives.
pub fn quiet_ends_recover()
    ensures read { (store : Store) (machine : Machine) (files : ℕ → List ℕ) →
        IsPrefix store machine files → ¬ (HasPending machine) →
        Recover store (length machine.opened) files (last_number machine) (trees_now machine) }
    ensures crash { (store : Store) (states : ℕ → ℕ → FileState) (moment : ℕ) (machine : Machine) →
        IsSafeAt store states moment machine → ¬ (HasPending machine) → (files : ℕ → List ℕ) →
        LeavesHonest (IsPrimaryOf (length machine.opened)) (states moment) files →
        Recover store (length machine.opened) files (last_number machine) (trees_now machine) }
{}
