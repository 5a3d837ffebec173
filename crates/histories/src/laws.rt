//! Laws of histories.
ghost use Rattle.std.specs.Prelude.{◌≡◌, ◌⊎◌, ◌<◌, ◌≤◌, ◌++◌, ◌∷◌, ℕ, List, length, map, true};
ghost use mathlib.Core.List.{IsPrefix};
ghost use Rattle.refusals.specs.declared.refusal.Refusal.{Refusal};
ghost use Rattle.disk_model.specs.FileState.{FileState};
ghost use Rattle.commit_journal.specs.Store.{IsStore, Store, all_hives};
ghost use Rattle.store_model.specs.Machine.{Machine, is_of_device};
ghost use Rattle.store_model.specs.declared.event.Reply.TheVariants.{Refused};
ghost use Rattle.engine.specs.Lives.{AreLives, EachLifeContinues, IsSafe, Life, ReadsSafely, end_of as end_of_life};
ghost use Rattle.engine_invariant.specs.Engines.{EngineView};
ghost use Rattle.histories.specs.Points.{HistoryEntry};
ghost use Rattle.histories.specs.Histories.{AreSafe, HasBoundary, IsHistory, end_of};
ghost use Rattle.histories.specs.ProgramRuns.{AreProgramRuns, ProgramRun};

use store_engine::StoreEngine;

/// What a crash leaves at each moment of a history, and what stays durable.
///
/// - `after`: a moment from the end of a beginning on is that of a boundary that isn't before it, which is safe then.
/// - `durable`: what was durable at the end of a beginning is durable at the end.
pub fn moments_are_safe<E: StoreEngine>(engine: &E)
    ensures after { (start : EngineView) (first history : List HistoryEntry) (moment : ℕ) →
        IsHistory start history → AreSafe (E.safe engine.now) start history → IsPrefix first history →
        (end_of start first).clock ≤ moment → moment ≤ (end_of start history).clock →
        HasBoundary (E.safe engine.now) start first history moment }
    ensures durable { (start : EngineView) (first history : List HistoryEntry) → IsHistory start history →
        IsPrefix first history → (end_of start first).machine.durable ≤ (end_of start history).machine.durable }
{
    let _ = engine;
}

/// A refusal that is about the device is answered in a history only if the device failed in it. Or the store was faulted
/// as it began.
pub fn faults_are_failures()
    ensures { (start : EngineView) (past rest : List HistoryEntry) (entry : HistoryEntry) (why : Refusal) →
        IsHistory start (past ++ entry ∷ rest) → entry.reply ≡ Refused why → is_of_device why ≡ true →
        (start.machine.faulted ≡ true) ⊎ (start.failures < (end_of start (past ++ entry ∷ rest)).failures) }
{}

/// Runs of a program in a row are lives of one store, if each leaves what a life of some store leaves. Each life that
/// opens goes on from the last one before it that did: no run loses what one before it was told to be durable.
///
/// The runs begin with a machine. Whatever a crash leaves is a prefix of its changes, and what a read gives is too, such
/// as of a store that was made.
pub fn runs_are_lives()
    ensures { (store : Store) (machine : Machine) (state : ℕ → FileState) (runs : List ProgramRun) →
        IsStore store → length machine.opened ≡ all_hives store → IsSafe store machine state →
        ReadsSafely (all_hives store) state → AreProgramRuns (all_hives store) state runs →
        (lives : List Life) × AreLives store state lives × (map end_of_life lives ≡ map (λ run. run.left) runs)
        × EachLifeContinues machine lives }
{
    engine::laws::lives_have_one_store();
    engine::laws::lives_go_on();
}
