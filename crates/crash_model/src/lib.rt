//! The law that a crash leaves one prefix: after any crash, a store of several hives recovers one prefix of its
//! accepted changes.
//!
//! Accepted changes are numbered over the life of a store. They reach the disk twice: first in one journal, in batches,
//! then in the files of each hive, each hive at its own pace. A trim empties the journal once each hive has what it
//! decodes to. A crash leaves of the journal the durable content or what was under way, and the same of each hive,
//! **independently of one another**. The law says that from all that may be left exactly one number is recovered. It is
//! not below the durable number and not above the last accepted one, and the recovered trees are those after that
//! number.
//!
//! There is no code here, and no byte. Trees, operations, what bytes decode to, and what a crash may leave of a file
//! are given from outside. Each law is the contract of a function with an empty body. The files of `specs/` have the
//! words:
//!
//! - `Changes`, `AllHives`: elements (accepted changes), and what replaying them makes of one tree or of all;
//! - `Promises`: what the journal and the hive files promise of the disk, and what each of their calls says.
//!   These are the words that their own contracts cite;
//! - `Recovery`, `Life`, `Invariant`: what an opening recovers, one life, and the invariant that an engine keeps;
//! - `Steps`, `Lives`, `Calls`, `Memory`: the protocol, crashes and openings, one call each, and what a hive
//!   has in memory;
//! - `Files`, `Moments`: the same said of files, and of each moment of a run;
//! - `WrongProtocols`: nine protocols that are nearly right, and how each breaks.
//!
//! `docs/HEADLINE.md` explains all of it in plain words, with examples.
#![tactic(auto)]

ghost use Rattle.std.specs.Prelude.{[], ◌≡◌, ◌≤◌, ◌<◌, ◌+◌, ◌∷◌, ◌*◌, ◌⊎◌, ◌↔◌, ℕ, Some, None, Bool, IsTrue, List, Option, slice_get, option_map};
ghost use Rattle.std.specs.List.{AllByRecursion};
ghost use Rattle.crash_model.specs.Changes.{Rules, AreLegal, Element, on_hive, ops_on, replay, applied};
ghost use Rattle.crash_model.specs.AllHives.{after_elements, run_element};
ghost use Rattle.crash_model.specs.Promises.{Choice, Leaves, Content, nothing, Answer, MayFollow};
ghost use Rattle.crash_model.specs.Recovery.{Recovers};
ghost use Rattle.crash_model.specs.Life.{Life, NamesHive, IsLastNaming, last_number, tree_at, ops_in};
ghost use Rattle.crash_model.specs.Invariant.{State, InvariantHolds, IsPrefix, IsSafe, opened_state};
ghost use Rattle.crash_model.specs.Steps.{pending_elements, MayTrim, Step};
ghost use Rattle.crash_model.specs.Lives.{Reopens, LifeContinues, Runs, OpeningsContinue, OnlyRises};
ghost use Rattle.crash_model.specs.Calls.{JournalStep, TrimStep, FlusherStep, MemoryFits};
ghost use Rattle.crash_model.specs.Memory.{with_memory, IsOfMemory, Remembers, Absorbs, MemoryStep};
ghost use Rattle.crash_model.specs.Files.{DecodesBy, HoldsBy, FilesRecover, FilesLeft, FilesPrefix};
ghost use Rattle.crash_model.specs.Moments.{Boundary, LeavesBy, InOrder, Trace, end_of, AtSome, LeftAt};
ghost use Rattle.crash_model.specs.WrongProtocols.{marks, Breaks, FlushesPending, TrimsAfterOne, TrimsByFirst, TrimsByMemory, EmptyBreaks, ReplayingAllBreaks, FlushesUnderLess, BatchesSkipping, CountsEarly};

/// One prefix is recovered, and only one.
///
/// - `exists`: if an engine's invariant holds, take whatever a crash may leave of the journal, and
///   independently of each hive. From these some number is recovered that is not below the durable one and
///   not above the last accepted one, with each hive's tree after that number.
/// - `only`: from the same journal and the same stored trees and numbers no second number is recovered, and no
///   other tree of a hive of the store. This needs no invariant.
pub fn one_prefix<T, Op>()
    ensures exists { (r : Rules T Op) (most hives : ℕ) (state : State T Op) →
        InvariantHolds r most hives state →
        (s : Content Op) → Leaves state.journal s → (held : ℕ → T × ℕ) →
        ((i : ℕ) → i < hives → Leaves (state.files i) (held i)) →
        IsPrefix r most hives state.life state.durable s held }
    ensures only { (r : Rules T Op) (most hives : ℕ) (s : Content Op)
        (held : ℕ → T × ℕ) (n m : ℕ) (ts us : ℕ → T) →
        Recovers r most hives s held n ts → Recovers r most hives s held m us →
        (n ≡ m) × ((i : ℕ) → i < hives → ts i ≡ us i) }
{}

/// Each step of the protocol and each opening after a crash keeps the engine's invariant.
///
/// - `step`: accepting a change, beginning a batch, ending a batch or a trim, beginning a trim, beginning a
///   flush, ending one, and folding the history keep it.
/// - `reopens`: after a crash, an opening at any number and trees that are recovered has it again; it begins
///   at a number that is not below the durable one and not above the last one, with the old trees after it.
/// - `quiet`: if every accepted change is durable, an opening finds just that number and the trees of now,
///   whatever was under way. So a created store is opened at 0, on the created trees.
/// - `begins`: whatever is recovered, from a journal whose elements each name a hive, begins a life that has
///   it.
/// - `created`: a created store has it, so it is not empty: the trees are any that are allowed at number 0, the
///   journal decodes to no element, and each hive stores its tree and 0.
pub fn kept<T, Op>()
    ensures step { (r : Rules T Op) (most hives : ℕ) (old new : State T Op) →
        InvariantHolds r most hives old → Step r most hives old new → InvariantHolds r most hives new }
    ensures reopens { (r : Rules T Op) (most hives : ℕ) (old new : State T Op) →
        InvariantHolds r most hives old → Reopens r most hives old new →
        InvariantHolds r most hives new × LifeContinues r hives old new }
    ensures quiet { (r : Rules T Op) (most hives : ℕ) (old new : State T Op) →
        InvariantHolds r most hives old →
        old.durable ≡ last_number old.life → Reopens r most hives old new →
        (new.durable ≡ old.durable)
        × ((i : ℕ) → i < hives → new.life.trees i ≡ tree_at r old.life (last_number old.life) i) }
    ensures begins { (r : Rules T Op) (most hives : ℕ) (decoded : Content Op)
        (held : ℕ → T × ℕ) (n : ℕ) (trees : ℕ → T) → Recovers r most hives decoded held n trees →
        AllByRecursion (NamesHive hives) decoded.elements →
        InvariantHolds r most hives (opened_state n trees decoded held) }
    ensures created { (r : Rules T Op) (most hives : ℕ) → 0 < hives → (trees : ℕ → T) →
        ((i : ℕ) → i < hives → IsTrue (r.allows i 0 (trees i))) →
        InvariantHolds r most hives (opened_state 0 trees nothing (λ i. (trees i, 0))) }
{}

/// Over any list of moves of an engine, crashes and openings, in any order. A move is a step of the protocol, a call
/// with a hive's memory, or a call that changes nothing. A call with a hive's memory lets it begin to count as under
/// way, lets it absorb, or makes a flush step of it.
///
/// - `keeps`: each state has the invariant;
/// - `safe`: whatever a crash leaves in any state recovers one prefix;
/// - `continues`: each life that opens begins at a number that is not below the durable one of the life before
///   it and not above its last one. It has that life's trees after the number;
/// - `rises`: no durable number is below an earlier one, so nothing that was durable is ever lost.
pub fn lives<T, Op>()
    ensures keeps { (r : Rules T Op) (most hives : ℕ) (s : State T Op) → InvariantHolds r most hives s →
        (ts : List (State T Op)) → Runs r most hives s ts →
        AllByRecursion (InvariantHolds r most hives) (s ∷ ts) }
    ensures safe { (r : Rules T Op) (most hives : ℕ) (s : State T Op) → InvariantHolds r most hives s →
        (ts : List (State T Op)) → Runs r most hives s ts →
        AllByRecursion (IsSafe r most hives) (s ∷ ts) }
    ensures continues { (r : Rules T Op) (most hives : ℕ) (s : State T Op) → InvariantHolds r most hives s →
        (ts : List (State T Op)) → Runs r most hives s ts → OpeningsContinue r most hives s ts }
    ensures rises { (r : Rules T Op) (most hives : ℕ) (s : State T Op) → InvariantHolds r most hives s →
        (ts : List (State T Op)) → Runs r most hives s ts → OnlyRises (s ∷ ts) }
{}

/// What the calls of the journal and of a hive's files promise is enough for the engine, at each of their answers,
/// refusals among them.
///
/// - `journal`, `trim`, `flusher`: an engine's call of a batch step, a trim step or a flush step keeps the
///   invariant.
/// - `may_follow`: the pending elements may be handed to the journal: its durable content ends at the durable number,
///   and there is room for their numbers.
/// - `trim_test`: a trim may begin exactly if no hive, by its durable content, lacks an operation of a durable
///   element.
/// - `last_naming`: a hive lacks nothing exactly if its number is not below that of the last element that
///   names it; so this test and the flusher's may compare numbers.
/// - `may_absorb`: the operations that a hive is to absorb are legal on what it has in memory. They go up to any number
///   that is not below the hive's own and not above the durable one.
/// - `absorb`: what a hive has in memory still fits once it absorbs the elements up to such a number.
pub fn clauses_suffice<T, Op>()
    ensures journal { (r : Rules T Op) (most hives : ℕ) (answer : Answer) (old new : State T Op) →
        InvariantHolds r most hives old → JournalStep hives answer old new → InvariantHolds r most hives new }
    ensures trim { (r : Rules T Op) (most hives : ℕ) (answer : Answer) (old new : State T Op) →
        InvariantHolds r most hives old → TrimStep hives answer old new → InvariantHolds r most hives new }
    ensures flusher { (r : Rules T Op) (most hives : ℕ) (answer : Answer) (hive : ℕ)
        (memory : T × ℕ) (old new : State T Op) → InvariantHolds r most hives old →
        FlusherStep r hives answer hive memory old new → InvariantHolds r most hives new }
    ensures may_follow { (r : Rules T Op) (most hives : ℕ) (s : State T Op) →
        InvariantHolds r most hives s →
        MayFollow most s.durable (pending_elements s) s.journal.now }
    ensures trim_test { (r : Rules T Op) (most hives : ℕ) (s : State T Op) → InvariantHolds r most hives s →
        MayTrim hives s ↔ ((i : ℕ) → i < hives → ops_in s.life i (s.files i).now.1 s.durable ≡ []) }
    ensures last_naming { (life : Life T Op) (i hi m : ℕ) → IsLastNaming life i hi m →
        (k : ℕ) → (ops_in life i k hi ≡ []) ↔ (m ≤ k) }
    ensures may_absorb { (r : Rules T Op) (s : State T Op) (i : ℕ) (memory : T × ℕ) (upto : ℕ) →
        MemoryFits r s i memory → memory.1 ≤ upto → upto ≤ s.durable →
        AreLegal r (ops_in s.life i memory.1 upto) memory.0 }
    ensures absorb { (r : Rules T Op) (s : State T Op) (i : ℕ) (memory : T × ℕ) (upto : ℕ) (t : T) →
        MemoryFits r s i memory → memory.1 ≤ upto → upto ≤ s.durable →
        replay r (ops_in s.life i memory.1 upto) memory.0 ≡ Some t → MemoryFits r s i (t, upto) }
{}

/// What a hive has in memory may count as under way to its files at all times. An engine that keeps its invariant in
/// this form doesn't mention its hives' memory separately: accepted changes, batches, trims and folds then keep what
/// memory needs as well.
///
/// - `leaves`: everything that a crash may leave of a hive's files is still considered.
/// - `remembers`: memory that fits may begin to count.
/// - `absorbs`: a hive may absorb, up to any number that is not below its memory's and not above the durable
///   one.
/// - `flushes`: a flush step of such a hive keeps the invariant, at each of its answers.
pub fn memory_counts<T, Op>()
    ensures leaves { (file : Choice (T × ℕ)) (memory : T × ℕ) → IsOfMemory file memory →
        (x : T × ℕ) → Leaves file x → Leaves (with_memory file memory) x }
    ensures remembers { (r : Rules T Op) (most hives : ℕ)
        (memory : ℕ → T × ℕ) (old new : State T Op) → InvariantHolds r most hives old →
        Remembers r hives memory old new →
        InvariantHolds r most hives new }
    ensures absorbs { (r : Rules T Op) (most hives : ℕ) (old new : State T Op) →
        InvariantHolds r most hives old → Absorbs r hives old new → InvariantHolds r most hives new }
    ensures flushes { (r : Rules T Op) (most hives : ℕ) (answer : Answer) (old new : State T Op) →
        InvariantHolds r most hives old → MemoryStep hives answer old new → InvariantHolds r most hives new }
{}

/// What holds of all trees at once holds hive by hive.
///
/// - `tree`: the i-th of the trees after a list of elements is what the elements' operations on hive i make
///   of the i-th tree.
/// - `legal`: an element that is legal operation by operation on the list of trees is legal on each tree, for
///   the operations on that hive.
pub fn hive_by_hive<T, Op>()
    ensures tree { (r : Rules T Op) (i : ℕ) (es : List (Element Op)) (ts : List T) →
        slice_get (after_elements r es ts) i ≡
        option_map (applied r (ops_on i es)) (slice_get ts i) }
    ensures legal { (r : Rules T Op) (i : ℕ) (e : Element Op) (ts us : List T) (t : T) →
        run_element r e ts ≡ Some us → slice_get ts i ≡ Some t →
        replay r (on_hive i e) t ≡ Some (applied r (on_hive i e) t) }
{}

/// The same of files, whatever the journal's bytes may decode to and a hive's two files may store, as long as bytes
/// decode to one thing at most.
///
/// - `exists`: if the invariant holds, files that decode to what a crash may leave recover some number between
///   the durable and the last one, with the trees after it.
/// - `only`: the same files recover no second number and no other trees.
pub fn of_files<T, Op>()
    ensures exists { (r : Rules T Op) (decoded : List ℕ → Option (Content Op))
        (held : List ℕ → List ℕ → Option (T × ℕ)) (most hives : ℕ) (s : State T Op) →
        InvariantHolds r most hives s → (files : ℕ → List ℕ) →
        FilesLeft (DecodesBy decoded) (HoldsBy held) hives s files →
        FilesPrefix r (DecodesBy decoded) (HoldsBy held) most hives s files }
    ensures only { (r : Rules T Op) (decoded : List ℕ → Option (Content Op))
        (held : List ℕ → List ℕ → Option (T × ℕ)) (most hives : ℕ)
        (files : ℕ → List ℕ) (n m : ℕ) (ts us : ℕ → T) →
        FilesRecover r (DecodesBy decoded) (HoldsBy held) most hives files n ts →
        FilesRecover r (DecodesBy decoded) (HoldsBy held) most hives files m us →
        (n ≡ m) × ((i : ℕ) → i < hives → ts i ≡ us i) }
{}

/// Each moment of a run: each event makes at most one device call, and the invariant and the promises hold at each
/// boundary between two events. Take the files that a crash leaves at any moment from the start to the end, each for
/// itself.
///
/// - `some`: that moment is the moment of some boundary, and the files are one prefix of the state there.
/// - `every`: they are so at every boundary of that moment, the last one among them. So each event answered
///   before the crash counts.
pub fn each_moment<T, Op>()
    ensures some { (r : Rules T Op) (decoded : List ℕ → Option (Content Op))
        (held : List ℕ → List ℕ → Option (T × ℕ)) (most hives : ℕ) (test : ℕ → ℕ → List ℕ → Bool)
        (b : Boundary T Op) (bs : List (Boundary T Op)) → Trace b bs →
        AllByRecursion (InOrder r (DecodesBy decoded) (HoldsBy held) most hives (LeavesBy test))
        (b ∷ bs) →
        (files : ℕ → List ℕ) (k : ℕ) → b.clock ≤ k → k ≤ end_of b bs →
        LeftAt (LeavesBy test) k files →
        AtSome (λ c. (c.clock ≡ k)
        × FilesPrefix r (DecodesBy decoded) (HoldsBy held) most hives c.state files) (b ∷ bs) }
    ensures every { (r : Rules T Op) (decoded : List ℕ → Option (Content Op))
        (held : List ℕ → List ℕ → Option (T × ℕ)) (most hives : ℕ) (test : ℕ → ℕ → List ℕ → Bool)
        (bs : List (Boundary T Op)) →
        AllByRecursion (InOrder r (DecodesBy decoded) (HoldsBy held) most hives (LeavesBy test)) bs →
        (files : ℕ → List ℕ) (k : ℕ) → LeftAt (LeavesBy test) k files →
        AllByRecursion (λ c. c.clock ≡ k →
        FilesPrefix r (DecodesBy decoded) (HoldsBy held) most hives c.state files) bs }
{}

/// Nine protocols that are nearly right break the law, each on a store of two hives with at most three changes. Each
/// clause gives a state that has the invariant and one wrong step from it (in `empty_element`, right steps after it).
/// After that step a crash may leave what is no prefix. `replays_what_is_held` is about an opening.
///
/// - `absorbs_pending`: a hive flushes what is not durable, under its number.
/// - `trims_after_one`, `trims_by_first`, `trims_by_memory`: a trim begins once one hive has what the journal
///   decodes to of it; once the hives that the first element names have it; once each has it, even if only by a
///   flush that is under way.
/// - `empty_element`: an element with no operation is accepted.
/// - `replays_what_is_held`: an opening replays all decoded elements, on hives that already store some of them.
/// - `flushes_under_less`: a hive flushes the durable elements, under a lower number.
/// - `batch_skips`: a batch begins after the first pending element.
/// - `counts_early`: elements count as durable when their batch begins.
pub fn wrong_protocols()
    ensures absorbs_pending { Breaks (FlushesPending marks 2) }
    ensures trims_after_one { Breaks (TrimsAfterOne 2) }
    ensures trims_by_first { Breaks (TrimsByFirst 2) }
    ensures trims_by_memory { Breaks (TrimsByMemory 2) }
    ensures empty_element { EmptyBreaks }
    ensures replays_what_is_held { ReplayingAllBreaks }
    ensures flushes_under_less { Breaks (FlushesUnderLess marks 2) }
    ensures batch_skips { Breaks (BatchesSkipping 2) }
    ensures counts_early { Breaks (CountsEarly 2) }
{}
