//! Lives of a store, one after another: laws over what its calls promise.
ghost use Rattle.std.specs.Prelude.{◌≡◌, ℕ, ◌≤◌, [], Bool, false, List, length};
ghost use Rattle.reg_tree.specs.Maps.{TreeMap};
ghost use Rattle.disk_model.specs.FileState.{FileState};
ghost use Rattle.disk_model.specs.Crash.{LeavesHonest};
ghost use Rattle.commit_journal.specs.Store.{Store, IsStore, all_hives};
ghost use Rattle.store_model.specs.Machine.{Machine, bounds_for, opened_machine, with_history};
ghost use Rattle.store_model.specs.declared.event.Event.{Event};
ghost use Rattle.store_model.specs.declared.event.Reply.{Reply};
ghost use Rattle.engine_invariant.specs.Engines.{EngineView};
ghost use Rattle.engine_invariant.specs.Prefixes.{IsPrimaryOf, IsSafeAt};
ghost use Rattle.engine_invariant.specs.Runs.{IsBoundary, RunsSafely};
ghost use Rattle.recovery.specs.Recovered.{IsRecovered, seen_in};
ghost use Rattle.engine.specs.Lives.{AreLives, AreLivesOfStores, EachLifeContinues, FirstOpensAt, IsLife, IsSafe, Life, Life.Opened, Life.NeverOpened, ReadsSafely};

/// Lives of a store, one after another. Each life that opens does so at a number and the trees after it of the last
/// life before it that opened. The number is not below the durable one there. A life may end anywhere: within an
/// opening, a repair or an event, or between two events, by a crash or without one.
///
/// The lives begin with a machine. Whatever a crash leaves is a prefix of its changes, and what a read gives is too,
/// such as of a created store.
pub fn lives_go_on()
    ensures { (store : Store) (machine : Machine) (state : ℕ → FileState) (lives : List Life) →
        IsStore store → length machine.opened ≡ all_hives store → IsSafe store machine state →
        ReadsSafely (all_hives store) state → AreLives store state lives → EachLifeContinues machine lives }
{
    recovery::laws::one_is_recovered();
}

/// Lives on the files of one store are lives of that store: none opens another one. The lives begin with a machine, as
/// those of [`lives_go_on`] do.
pub fn lives_have_one_store()
    ensures { (store : Store) (machine : Machine) (state : ℕ → FileState) (lives : List Life) →
        IsStore store → length machine.opened ≡ all_hives store → IsSafe store machine state →
        ReadsSafely (all_hives store) state → AreLivesOfStores (all_hives store) state lives →
        AreLives store state lives }
{
    recovery::laws::one_is_recovered();
}

/// Of a store that was made of trees, as `recovery::create` promises, the first life that opens does so at number 0 and
/// at these trees. Each later one continues from the last life before it that opened.
pub fn made_stores_open_as_made()
    ensures { (store : Store) (trees : List TreeMap) (state : ℕ → FileState) (lives : List Life) →
        ((files : ℕ → List ℕ) → LeavesHonest (IsPrimaryOf (length trees)) state files →
        IsRecovered files store 0 trees) → ReadsSafely (length trees) state →
        AreLives store state lives →
        FirstOpensAt 0 trees lives × EachLifeContinues (opened_machine (bounds_for store.hives) trees 0 [] 0) lives }
{
    recovery::laws::one_is_recovered();
}

/// Each call says of its life what these lives ask.
///
/// - `repairs`: a life that has opened and is being repaired, as `Opened::repair_step` and
///   `Opened::keeps_what_was_found` promise.
/// - `runs`: a life whose engine runs, whatever the limit of its history. `Engine::run` promises at each moment what a crash leaves, and
///   [`Engine::reads_a_prefix`](crate::Engine::reads_a_prefix) what a read gives then.
///
/// For a life that hasn't opened, `open` itself promises it.
pub fn calls_are_lives()
    ensures repairs { (store : Store) (state end : ℕ → FileState) (number room : ℕ) (failed : Bool)
        (trees : List TreeMap) → IsRecovered (seen_in state) store number trees →
        ((files : ℕ → List ℕ) → LeavesHonest (IsPrimaryOf (all_hives store)) end files →
        IsRecovered files store number trees) → (failed ≡ false → ReadsSafely (all_hives store) end) →
        IsLife store state (Opened number trees
        (record (opened_machine (bounds_for store.hives) trees number [] 0) {
          room = room;
          faulted = failed;
        }) end) }
    ensures runs { (store : Store) (state : ℕ → FileState) (number room limit : ℕ)
        (trees : List TreeMap)
        (states : ℕ → ℕ → FileState) (moment : ℕ) (events : List Event) (replies : List Reply)
        (old new : EngineView) → IsRecovered (seen_in state) store number trees →
        old.machine ≡ with_history limit
        (record (opened_machine (bounds_for store.hives) trees number [] 0) { room = room }) →
        RunsSafely (IsSafeAt store states) old events replies new →
        old.clock ≤ moment → moment ≤ new.clock → IsBoundary
        (λ at machine. (machine.faulted ≡ false → ReadsSafely (length machine.opened) (states at)) →
        IsLife store state (Opened number trees machine (states at)))
        old events replies new moment }
{
    engine_invariant::laws::safe_runs_go_on();
}
