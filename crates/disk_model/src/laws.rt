//! What the definitions for calls and for all files say, as contracts of functions without a body.
ghost use Rattle.std.specs.Prelude.{◌≡◌, ◌+◌, ◌≤◌, ℕ, List};
ghost use Rattle.disk_model.specs.FileState.{FileState, IsSound, at_rest};
ghost use Rattle.disk_model.specs.Call.{Passes, KeepsOthers, Extends, OneCall};
ghost use Rattle.disk_model.specs.Crash.{HonestSince, LeavesAll, LeavesHonest, ShowsHonest};
ghost use Rattle.disk_model.specs.StoreFiles.{IsPrimaryFile};
ghost use Rattle.disk_model.specs.ReadOnly.{OnlySyncs};

/// A law: what a read gives of a store's files is what a crash might have left of them with honest first sectors. So a
/// life that ends in a fault, and is followed by another without a crash, ends like one that a crash ended.
pub fn shown_files_are_left()
    ensures { (state : ℕ → FileState) → ((f : ℕ) → IsSound (state f)) →
        ShowsHonest IsPrimaryFile state →
        LeavesHonest IsPrimaryFile state (λ f. (state f).seen) }
{}

/// Laws of a part that makes at most one device call on files of its own.
///
/// - `none`: it makes none if nothing has changed.
/// - `call`: each call of a disk is one on its file.
/// - `extends`: after it time has gone on, and what was before is as it was.
pub fn one_call()
    ensures none { (states : ℕ → ℕ → FileState) (clock file : ℕ) →
        OneCall (λ f. f ≡ file) states states clock clock }
    ensures call { (file : ℕ) (old new : ℕ → ℕ → FileState) (before now : ℕ) →
        Passes old new before now →
        KeepsOthers file (old before) (new now) → OneCall (λ f. f ≡ file) old new before now }
    ensures extends { (file : ℕ) (old new : ℕ → ℕ → FileState) (before now : ℕ) →
        OneCall (λ f. f ≡ file) old new before now → Extends old new before now }
{}

/// Laws of files as a crash left them, which count as synced: what the next life of a store begins on.
///
/// - `sound`, `honest`: what is asked of files at the beginning of a life holds of them.
/// - `left`: another crash leaves just the same.
pub fn left_files_rest()
    ensures sound { (files : ℕ → List ℕ) (f : ℕ) → IsSound (at_rest (files f)) }
    ensures honest { (files : ℕ → List ℕ) → ShowsHonest IsPrimaryFile (λ f. at_rest (files f)) }
    ensures left { (files others : ℕ → List ℕ) → LeavesAll (λ f. at_rest (files f)) others →
        others ≡ files }
{}

/// Laws of calls that write nothing. They apply if what a read gave of a store's files had honest first sectors as they
/// began.
///
/// - `left`: what a crash leaves at a moment from then on, with honest first sectors, might have been left as they
///   began.
/// - `honest`: at each such moment what a read gives still has honest first sectors.
pub fn syncs_leave_what_was()
    ensures left { (old new : ℕ → ℕ → FileState) (start now : ℕ) → OnlySyncs old new start now →
        ShowsHonest IsPrimaryFile (old start) → ((f : ℕ) → IsSound (old start f)) →
        (files : ℕ → List ℕ) → HonestSince IsPrimaryFile new now start files →
        LeavesHonest IsPrimaryFile (old start) files }
    ensures honest { (old new : ℕ → ℕ → FileState) (start now : ℕ) → OnlySyncs old new start now →
        ShowsHonest IsPrimaryFile (old start) → (k : ℕ) → start ≤ k → k ≤ now →
        ShowsHonest IsPrimaryFile (new k) }
{}
