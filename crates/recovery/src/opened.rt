//! An opened store as its callers see it, and its repair: its type keeps the invariant.
ghost use Rattle.std.specs.Prelude.{◌≡◌, ◌⊎◌, ◌↔◌, ℕ, ◌+◌, ◌<◌, ◌≤◌, List, length, take, IsTrue, Ok, Err, IfErr, IfOk, OnOk, false, true};
ghost use Rattle.refusals.specs.declared.refusal.Refusal.TheVariants.{DiskFault, Faulted};
ghost use Rattle.disk_model.specs.declared.progress.Progress.TheVariants as Progress;
ghost use Rattle.disk_model.specs.Call.{Extends, OneCall, HasFailed};
ghost use Rattle.disk_model.specs.Crash.{LeavesHonest};
ghost use Rattle.disk_model.specs.StoreFiles.{journal_file};
ghost use Rattle.disk_model.specs.ReadOnly.{OnlySyncs};
ghost use Rattle.hive_files.specs.Frames.{RefusalHasCause};
ghost use Rattle.commit_journal.specs.Journals.{choice_of};
ghost use Rattle.commit_journal.specs.Store.{all_hives};
ghost use Rattle.engine_invariant.specs.Prefixes.{AnyFile, AreOnDisk, IsPrimaryOf, JournalDecodesTo};
ghost use Rattle.recovery.specs.Invariant.{AllWork, InvariantHolds};
ghost use Rattle.recovery.specs.Recovered.{IsNoStore, IsRecovered, seen_in};
ghost use Rattle.recovery.specs.Repairs.{most_repairs, repairs_left};
ghost use Rattle.recovery.specs.Shown.{StoreIsRepaired, store_of};

use crate::found::RecoveredStore;
use crate::store_opening::find;
use crate::trees::named_trees;
use commit_journal::Layout;
use disk_model::{Disk, Progress};
use refusals::Refusal;
use reg_tree::Trees;
use std::alloc::{AllocError, Global};
use std::marker::Model;
use uuid::Uuid;

/// An opened store: a disk, and what its files recover.
///
/// If the disk is faithful, whatever a crash leaves of the files, with honest first sectors of the primary files,
/// recovers the same number and trees.
pub struct Opened<D: Disk> {
    disk: D,
    found: RecoveredStore,
    failed: bool,
}

impl<D: Disk + Drop> Drop for Opened<D> {
    // one drop for all that own a store, whose proofs see no more of it than this contract
    fn drop(self) {
        let Opened {
            disk: _,
            found: _,
            failed: _,
        } = self;
    }
}

impl<D: Disk> Model for Opened<D> {
    ghost use Rattle.std.specs.Prelude.{◌≡◌, false};
    ghost use Rattle.engine_invariant.specs.Prefixes.{AreOnDisk};
    ghost use Rattle.recovery.specs.Invariant.{AllWork, InvariantHolds};
    ghost use Rattle.recovery.specs.Shown.{Shown, shown_code};

    ghost Value = { Shown D };

    ghost coded = { shown_code D.code };

    ghost view = { λ inside. record {
      disk = inside.disk;
      found = inside.found;
      failed = inside.failed;
    } };

    ghost invariant = { λ inside. record {
      kept : InvariantHolds inside.found;
      works : inside.failed ≡ false → AllWork inside.found.hives.items;
      on_disk : D.faithful inside.disk → AreOnDisk inside.found.journal
          inside.found.hives.items (D.state_at inside.disk (D.clock inside.disk));
    } };
}

/// Opens the store that is on a disk: answers the number and the trees that its files recover. Hives that were being
/// written when the power went are to be repaired before anything else, by [`Opened::repair_step`]. Of `h` unclean
/// hives, in whose logs `p` pages are marked, that takes at most `p + 3 h` steps, if none is refused.
///
/// What is found is read after the sync of its file, so the next crash loses nothing of it. Only the journal's header
/// is read before that too, to see which store the files are of. At each moment of the call each file is as it was, or
/// synced. So whatever a crash leaves within might have been left before
/// ([`laws::openings_lose_nothing`](crate::laws::openings_lose_nothing)).
///
/// Refused only if the files are wrong, which recover nothing then
/// ([`laws::refused_files_recover_nothing`](crate::laws::refused_files_recover_nothing)), or for the device or memory:
///
/// - `HiveDamaged` of a hive that has no tree in the journal's store, with the cause that its files have; or, with the
///   cause `BadStore`, of a hive with a number above that of the journal's last change, or above the greatest of all if
///   there is none; or, with that cause too, of the hive after those that calls name, if its tree is not of outcomes of
///   commits up to that number;
/// - `Unsupported`, if some hive has no tree, for a version, a type or a flag in its files;
/// - `JournalDamaged`, if the journal is no store's, or one of its changes isn't legal on the tree of some hive;
/// - `DiskFault`, if the device failed; and `NoMemory`.
///
/// The disk is handed back then, and the same holds of it.
pub fn open<D: Disk>(alloc: Global, disk: D) -> Result<Opened<D>, (Refusal, D)>
    ensures recovered { IfOk result (λ opened. D.faithful opened.disk →
        IsRecovered (seen_in (D.state_at disk (D.clock disk)))
        (store_of opened) opened.found.number opened.found.trees) }
    ensures decodes { IfOk result (λ opened. D.faithful opened.disk → JournalDecodesTo (store_of opened)
        (seen_in (D.state_at disk (D.clock disk)) journal_file)
        (choice_of opened.found.journal).now) }
    ensures works { IfOk result (λ opened. opened.failed ≡ false) }
    ensures few { IfOk result (λ opened. D.faithful opened.disk →
        repairs_left opened.found.hives.items
        ≤ most_repairs (seen_in (D.state_at disk (D.clock disk))) (all_hives (store_of opened))) }
    ensures fails { IfErr result (λ back. RefusalHasCause (D.failures disk < D.failures back.1)
        (IsNoStore (D.faithful back.1) (seen_in (D.state_at disk (D.clock disk)))) back.0) }
    ensures synced { IfOk result (λ opened. D.faithful opened.disk → OnlySyncs (D.state_at disk)
        (D.state_at opened.disk) (D.clock disk) (D.clock opened.disk)) }
    ensures back { IfErr result (λ back. D.faithful back.1 → OnlySyncs (D.state_at disk)
        (D.state_at back.1) (D.clock disk) (D.clock back.1)) }
    ensures time { IfOk result (λ opened. Extends (D.state_at disk) (D.state_at opened.disk)
        (D.clock disk) (D.clock opened.disk)) }
    ensures back_time { IfErr result (λ back. Extends (D.state_at disk) (D.state_at back.1)
        (D.clock disk) (D.clock back.1)) }
    ensures failures { IfOk result (λ opened. D.failures disk ≤ D.failures opened.disk) }
    ensures faithful { IfOk result (λ opened. D.faithful opened.disk → D.faithful disk) }
    ensures back_faithful { IfErr result (λ back. D.faithful back.1 → D.faithful disk) }
{
    let mut disk = disk;
    match find(alloc, &mut disk) {
        Ok(found) => Ok(Opened {
            disk,
            found,
            failed: false,
        }),
        Err(why) => Err((why, disk)),
    }
}

impl<D: Disk> Opened<D> {
    /// The recovered number: that of the last change that the trees have.
    pub fn number(&self) -> u64
        ensures { result ≡ self.now.found.number }
    {
        self.found.number
    }

    /// The trees that are recovered.
    pub fn trees(&self) -> &Trees
        ensures { result.now ≡ self.now.found.trees }
    {
        &self.found.trees
    }

    /// The trees of the hives that calls name: the first ones.
    pub fn named_trees(&self, alloc: Global) -> Result<Trees, AllocError>
        ensures { IfOk result (λ named. named ≡ take (store_of self.now).hives self.now.found.trees) }
    {
        named_trees(
            alloc,
            &self.found.trees,
            usize::from(self.found.journal.hives()),
        )
    }

    /// The layout of the store.
    pub fn layout(&self) -> Layout
        ensures { result ≡ (store_of self.now).layout }
    {
        self.found.journal.layout()
    }

    /// The id of the store.
    pub fn id(&self) -> Uuid
        ensures { result ≡ (store_of self.now).id }
    {
        self.found.journal.id()
    }

    /// Whether no repair is left, and the device hasn't failed in a repair.
    pub fn is_whole(&self) -> bool
        ensures { IsTrue result ↔ StoreIsRepaired self.now }
    {
        !self.failed && self.found.hives.iter().all(|hive| hive.is_whole())
    }

    /// One step of the repair, of the first hive that needs one: at most one device call. `More` if others follow,
    /// `Done` if it was the last one, and `Idle` if no repair is left. After each step fewer are left.
    ///
    /// Whatever a crash leaves before, within or after it recovers the same number and trees. Takes no memory. Refused
    /// with `DiskFault` if the device failed in the call, and with `Faulted` exactly if it had failed in an earlier
    /// one: the store is to be opened again then.
    pub fn repair_step(&mut self) -> Result<Progress, Refusal>
        ensures same { self.new.found ≡ record self.old.found { hives = self.new.found.hives } }
        ensures store { store_of self.new ≡ store_of self.old }
        ensures idle { (result ≡ Ok Progress.Idle) → StoreIsRepaired self.old × (self.new ≡ self.old) }
        ensures at_rest { StoreIsRepaired self.old → result ≡ Ok Progress.Idle }
        ensures done { (result ≡ Ok Progress.Done) → StoreIsRepaired self.new }
        ensures more { (result ≡ Ok Progress.More) → ¬ (StoreIsRepaired self.new) }
        ensures fewer { OnOk result (¬ (StoreIsRepaired self.old) →
            repairs_left self.new.found.hives.items < repairs_left self.old.found.hives.items) }
        ensures refused { IfErr result (λ why. (why ≡ DiskFault) ⊎ (why ≡ Faulted)) }
        ensures faulted { (result ≡ Err Faulted) ↔ (self.old.failed ≡ true) }
        ensures no_change { (result ≡ Err Faulted) → self.new ≡ self.old }
        ensures works { OnOk result (self.new.failed ≡ self.old.failed) }
        ensures before { D.faithful self.new.disk → (files : ℕ → List ℕ) →
            LeavesHonest (IsPrimaryOf (all_hives (store_of self.old)))
            (D.state_at self.new.disk (D.clock self.old.disk)) files →
            IsRecovered files (store_of self.old) self.old.found.number self.old.found.trees }
        ensures after { D.faithful self.new.disk → (files : ℕ → List ℕ) →
            LeavesHonest (IsPrimaryOf (all_hives (store_of self.old)))
            (D.state_at self.new.disk (D.clock self.new.disk)) files →
            IsRecovered files (store_of self.old) self.old.found.number self.old.found.trees }
        ensures call { OneCall AnyFile (D.state_at self.old.disk) (D.state_at self.new.disk)
            (D.clock self.old.disk) (D.clock self.new.disk) }
        ensures failures { HasFailed result (D.failures self.old.disk)
            (D.failures self.new.disk) }
        ensures faithful { D.faithful self.new.disk → D.faithful self.old.disk }
    {
        engine_invariant::laws::openings_begin();
        engine_invariant::laws::crashes_leave_prefixes();
        if self.failed {
            return Err(Refusal::Faulted);
        }
        let Some(place) = self.found.unrepaired() else {
            return Ok(Progress::Idle);
        };
        if let Err(why) = self.found.repair(&mut self.disk, place) {
            self.failed = true;
            return Err(why);
        }
        Ok(self.found.repaired())
    }

    /// A law: whatever a crash leaves of the files as they are, with honest first sectors, recovers the number and the
    /// trees that were found, one tree for each hive. As long as the device hasn't failed in the repair, a crash may
    /// also leave what a read gives.
    pub fn keeps_what_was_found(&self)
        ensures many { length self.now.found.trees ≡ all_hives (store_of self.now) }
        ensures crash { D.faithful self.now.disk → (files : ℕ → List ℕ) →
            LeavesHonest (IsPrimaryOf (all_hives (store_of self.now)))
            (D.state_at self.now.disk (D.clock self.now.disk)) files →
            IsRecovered files (store_of self.now) self.now.found.number self.now.found.trees }
        ensures read { D.faithful self.now.disk → self.now.failed ≡ false →
            LeavesHonest (IsPrimaryOf (all_hives (store_of self.now)))
            (D.state_at self.now.disk (D.clock self.now.disk))
            (seen_in (D.state_at self.now.disk (D.clock self.now.disk))) }
    {
        engine_invariant::laws::openings_begin();
        engine_invariant::laws::crashes_leave_prefixes();
        hive_flush::laws::reads_are_honest();
        // what the type keeps is known once a field is read
        let _ = self.found.journal.all_hives(); // for the prover
    }

    /// The disk.
    pub fn disk(&self) -> &D
        ensures { result.now ≡ self.now.disk }
    {
        &self.disk
    }

    /// The disk, without what was found.
    pub fn into_disk(self) -> D
        ensures { result ≡ self.disk }
    {
        let Opened {
            disk,
            found: _,
            failed: _,
        } = self;
        disk
    }

    /// The disk, and what was found on it.
    pub fn into_parts(self) -> (D, RecoveredStore)
        ensures disk { result.0 ≡ self.disk }
        ensures found { result.1 ≡ self.found }
        ensures kept { InvariantHolds result.1 }
        ensures works { self.failed ≡ false → AllWork result.1.hives.items }
        ensures on_disk { D.faithful result.0 → AreOnDisk result.1.journal result.1.hives.items
            (D.state_at result.0 (D.clock result.0)) }
    {
        let Opened {
            disk,
            found,
            failed: _,
        } = self;
        (disk, found)
    }

    /// A store of its parts again, if the device hasn't failed.
    pub fn from_parts(disk: D, found: RecoveredStore) -> Opened<D>
        requires kept { InvariantHolds found }
        requires works { AllWork found.hives.items }
        requires on_disk { D.faithful disk → AreOnDisk found.journal found.hives.items
            (D.state_at disk (D.clock disk)) }
        ensures disk { result.disk ≡ disk }
        ensures found { result.found ≡ found }
        ensures works { result.failed ≡ false }
    {
        Opened {
            disk,
            found,
            failed: false,
        }
    }
}
