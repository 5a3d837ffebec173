//! The tree of one hive that a store's files recover.
ghost use Rattle.std.specs.Prelude.{◌≡◌, ◌⊎◌, ◌<◌, ◌≤◌, ℕ, List, false, IfErr, IfOk, OnOk};
ghost use Rattle.refusals.specs.declared.refusal.Refusal.TheVariants.{JournalDamaged, NoMemory};
ghost use Rattle.refusals.specs.declared.limits.TheConstants.{GREATEST_NUMBER};
ghost use Rattle.commit_outcomes.specs.Commits.{Commit};
ghost use Rattle.commit_outcomes.specs.Trees.{HasCommits};
ghost use Rattle.crash_model.specs.Promises.{Content, top};
ghost use Rattle.change_codec.specs.ModelChanges.{TimedOp};
ghost use Rattle.commit_journal.specs.Store.{IsStore, Store, all_hives};
ghost use Rattle.disk_model.specs.ReadOnly.{OnlySyncs};
ghost use Rattle.disk_model.specs.StoreFiles.{journal_file};
ghost use Rattle.hive_files.specs.Frames.{RefusalHasCause};
ghost use Rattle.hive_flush.specs.Decoders.{RefusalNamesHive};
ghost use Rattle.recovery.specs.Reading.{IsOfOutcomes, IsOnlyStore, IsRefusedAsOutcomes};
ghost use Rattle.recovery.specs.Recovered.{IsFileRefusal, seen_in};
ghost use Rattle.store_hive.specs.LedTrees.{HoldsBeside, IsLed, TellsOfHive, named_by};
ghost use Rattle.store_hive.specs.RecoveredHives.{RecoversHive};
ghost use Rattle.store_hive.specs.RefusedHives.{HiveIsWrong, RecoversNoNamedTree, RecoversNoOutcomes, RecoversNoTree};

use crate::held_tree::{HeldTree, held_tree};
use crate::hive_replay::HiveReplay;
use crate::journal_scan::{judge_journal, scan_store};
use crate::led_tree::LedTree;
use commit_journal::{Journal, StoreHeader};
use commit_outcomes::CommitList;
use disk_model::Disk;
use refusals::limits::GREATEST_NUMBER;
use refusals::{Cause, Refusal};
use reg_tree::Tree;
use std::alloc::Global;

/// The tree of a hive that calls name, by its number: what the journal and the hive's two files recover. The files of
/// other hives are neither read nor synced.
///
/// Refused, with a cause that is true of the files:
///
/// - `JournalDamaged`, if the journal is no store's, or one of its changes isn't legal on the tree of this hive;
/// - `NotFound`, if the journal is a store's and its calls name no such hive;
/// - `HiveDamaged` of this hive or `Unsupported`, if its files hold nothing in the journal's store; also, with the cause
///   `BadStore`, if its number is above that of the journal's last change, or above the greatest number if there is none;
/// - `DiskFault`, if the device failed; and `NoMemory`.
///
/// No file changes but by its sync.
pub fn named_tree<D: Disk>(alloc: Global, disk: &mut D, hive: u8) -> Result<Tree, Refusal>
    ensures recovers { IfOk result (λ tree. (store : Store) × (hive < store.hives) × (D.faithful disk.new →
        RecoversHive (seen_in (D.state_at disk.old (D.clock disk.old))) store hive tree)) }
    ensures fails { IfErr result (RefusalHasCause (D.failures disk.old < D.failures disk.new)
        (RecoversNoNamedTree (D.faithful disk.new) (seen_in (D.state_at disk.old (D.clock disk.old))) hive)) }
    ensures synced { D.faithful disk.new → OnlySyncs (D.state_at disk.old) (D.state_at disk.new)
        (D.clock disk.old) (D.clock disk.new) }
    ensures failures { D.failures disk.old ≤ D.failures disk.new }
    ensures faithful { D.faithful disk.new → D.faithful disk.old }
{
    let owner = match Journal::owner(alloc, disk) {
        Ok(owner) => owner,
        Err(why) => return Err(why),
    };
    if hive < owner.hives {
        return tree_in(alloc, disk, &owner, hive);
    }
    match judge_journal(alloc, disk, &owner) {
        Ok(()) => Err(Refusal::NotFound),
        Err(why) => Err(why),
    }
}

/// The tree of outcomes of a store, which is that of the hive after those that calls name. It has commits.
///
/// Refused as [`named_tree`] is, of that hive; with `Unsupported` also if the store keeps no outcomes; and with
/// `HiveDamaged`, with the cause `BadStore`, also if the tree isn't of outcomes of commits up to the number of the journal's
/// last change. If the journal has no change, they may have any number: the number of such a store is the greatest of its
/// hives, which aren't read.
pub fn outcome_tree<D: Disk>(alloc: Global, disk: &mut D) -> Result<Tree, Refusal>
    ensures recovers { IfOk result (λ tree. (store : Store) × (D.faithful disk.new →
        RecoversHive (seen_in (D.state_at disk.old (D.clock disk.old))) store store.hives tree)) }
    ensures commits { IfOk result (λ tree. (commits : List Commit) × HasCommits commits tree) }
    ensures fails { IfErr result (RefusalHasCause (D.failures disk.old < D.failures disk.new)
        (RecoversNoOutcomes (D.faithful disk.new) (seen_in (D.state_at disk.old (D.clock disk.old))))) }
    ensures synced { D.faithful disk.new → OnlySyncs (D.state_at disk.old) (D.state_at disk.new)
        (D.clock disk.old) (D.clock disk.new) }
    ensures failures { D.failures disk.old ≤ D.failures disk.new }
    ensures faithful { D.faithful disk.new → D.faithful disk.old }
{
    let owner = match Journal::owner(alloc, disk) {
        Ok(owner) => owner,
        Err(why) => return Err(why),
    };
    if owner.layout.all_hives(owner.hives) > owner.hives {
        return tree_in(alloc, disk, &owner, owner.hives);
    }
    match judge_journal(alloc, disk, &owner) {
        Ok(()) => Err(Refusal::Unsupported),
        Err(why) => Err(why),
    }
}

// the tree of a hive of the store that the journal's header names
fn tree_in<D: Disk>(
    alloc: Global,
    disk: &mut D,
    owner: &StoreHeader,
    hive: u8,
) -> Result<Tree, Refusal>
    requires store { IsStore (named_by owner.now) }
    requires there { hive < all_hives (named_by owner.now) }
    requires only { D.faithful disk.old →
        IsOnlyStore (D.state_at disk.old (D.clock disk.old) journal_file).seen (named_by owner.now) }
    ensures recovers { IfOk result (λ tree. D.faithful disk.new →
        RecoversHive (seen_in (D.state_at disk.old (D.clock disk.old))) (named_by owner.now) hive tree) }
    ensures commits { IfOk result (λ tree. owner.now.hives ≤ hive → (commits : List Commit) × HasCommits commits tree) }
    ensures fails { IfErr result (RefusalHasCause (D.failures disk.old < D.failures disk.new)
        (RecoversNoTree (D.faithful disk.new) (seen_in (D.state_at disk.old (D.clock disk.old))) hive)) }
    ensures synced { D.faithful disk.new → OnlySyncs (D.state_at disk.old) (D.state_at disk.new)
        (D.clock disk.old) (D.clock disk.new) }
    ensures failures { D.failures disk.old ≤ D.failures disk.new }
    ensures faithful { D.faithful disk.new → D.faithful disk.old }
{
    match read_hive(alloc, disk, owner, hive) {
        Ok(led) => judged(alloc, owner.hives, hive, led),
        Err(why) => Err(why),
    }
}

// The hive's tree with the journal's changes, which are replayed on it as they are read. So the hive is read first. But if
// its files hold nothing, that is told only if the journal is whole.
fn read_hive<D: Disk>(
    alloc: Global,
    disk: &mut D,
    owner: &StoreHeader,
    hive: u8,
) -> Result<LedTree, Refusal>
    requires store { IsStore (named_by owner.now) }
    requires there { hive < all_hives (named_by owner.now) }
    requires only { D.faithful disk.old →
        IsOnlyStore (D.state_at disk.old (D.clock disk.old) journal_file).seen (named_by owner.now) }
    ensures led { IfOk result (λ led. D.faithful disk.new →
        IsLed (seen_in (D.state_at disk.old (D.clock disk.old))) (named_by owner.now) hive led) }
    ensures fails { IfErr result (RefusalHasCause (D.failures disk.old < D.failures disk.new)
        (RecoversNoTree (D.faithful disk.new) (seen_in (D.state_at disk.old (D.clock disk.old))) hive)) }
    ensures synced { D.faithful disk.new → OnlySyncs (D.state_at disk.old) (D.state_at disk.new)
        (D.clock disk.old) (D.clock disk.new) }
    ensures failures { D.failures disk.old ≤ D.failures disk.new }
    ensures faithful { D.faithful disk.new → D.faithful disk.old }
{
    match held_tree(alloc, disk, hive, owner.id) {
        Ok(held) => led_tree(alloc, disk, owner, hive, held),
        Err(why) => Err(told_of_hive(alloc, disk, owner, why)),
    }
}

// the tree to which the journal leads a hive from what its files hold
fn led_tree<D: Disk>(
    alloc: Global,
    disk: &mut D,
    owner: &StoreHeader,
    hive: u8,
    held: HeldTree,
) -> Result<LedTree, Refusal>
    requires store { IsStore (named_by owner.now) }
    requires there { hive < all_hives (named_by owner.now) }
    requires only { D.faithful disk.old →
        IsOnlyStore (D.state_at disk.old (D.clock disk.old) journal_file).seen (named_by owner.now) }
    ensures led { IfOk result (λ led. D.faithful disk.new → (files : ℕ → List ℕ) →
        HoldsBeside files (named_by owner.now) hive (D.state_at disk.old (D.clock disk.old) journal_file).seen held →
        IsLed files (named_by owner.now) hive led) }
    ensures fails { IfErr result (RefusalHasCause (D.failures disk.old < D.failures disk.new)
        (λ why. (why ≡ JournalDamaged) × (D.faithful disk.new → (files : ℕ → List ℕ) →
        HoldsBeside files (named_by owner.now) hive (D.state_at disk.old (D.clock disk.old) journal_file).seen held →
        HiveIsWrong files hive JournalDamaged))) }
    ensures synced { D.faithful disk.new → OnlySyncs (D.state_at disk.old) (D.state_at disk.new)
        (D.clock disk.old) (D.clock disk.new) }
    ensures failures { D.failures disk.old ≤ D.failures disk.new }
    ensures faithful { D.faithful disk.new → D.faithful disk.old }
{
    let mut replay = HiveReplay::new(alloc, hive, held);
    match scan_store(alloc, disk, owner, &mut replay) {
        Ok(journal) => Ok(LedTree {
            tree: replay.tree,
            number: replay.number,
            last: journal.last_number(),
        }),
        Err(why) => Err(why),
    }
}

// what is told of a hive whose files are refused: this refusal, if the journal is whole, or else that of the journal
fn told_of_hive<D: Disk>(alloc: Global, disk: &mut D, owner: &StoreHeader, why: Refusal) -> Refusal
    requires store { IsStore (named_by owner.now) }
    requires only { D.faithful disk.old →
        IsOnlyStore (D.state_at disk.old (D.clock disk.old) journal_file).seen (named_by owner.now) }
    ensures told { TellsOfHive (D.failures disk.old < D.failures disk.new) (D.faithful disk.new) (named_by owner.now)
        (D.state_at disk.old (D.clock disk.old) journal_file).seen why result }
    ensures synced { D.faithful disk.new → OnlySyncs (D.state_at disk.old) (D.state_at disk.new)
        (D.clock disk.old) (D.clock disk.new) }
    ensures failures { D.failures disk.old ≤ D.failures disk.new }
    ensures faithful { D.faithful disk.new → D.faithful disk.old }
{
    if !is_of_files(why) {
        return why;
    }
    match judge_journal(alloc, disk, owner) {
        Ok(()) => why,
        Err(damage) => damage,
    }
}

// whether a refusal is one of a hive's files
fn is_of_files(why: Refusal) -> bool
    ensures { result ≡ false → (i : ℕ) → ¬ (RefusalNamesHive i why) }
{
    matches!(why, Refusal::HiveDamaged { .. } | Refusal::Unsupported)
}

// The tree of a hive, if its number and its outcomes may be, of a store whose calls name so many hives.
fn judged(alloc: Global, named: u8, hive: u8, led: LedTree) -> Result<Tree, Refusal>
    ensures recovers { IfOk result (λ tree. (files : ℕ → List ℕ) (store : Store) → store.hives ≡ named →
        IsLed files store hive led → RecoversHive files store hive tree) }
    ensures commits { IfOk result (λ tree. named ≤ hive → (commits : List Commit) × HasCommits commits tree) }
    ensures fails { IfErr result (λ why. (why ≡ NoMemory) ⊎ (IsFileRefusal why × ((files : ℕ → List ℕ) (store : Store) →
        store.hives ≡ named → IsLed files store hive led → HiveIsWrong files hive why))) }
{
    let limit = limit_of(led.last);
    if led.number > limit {
        return Err(Refusal::HiveDamaged {
            hive,
            cause: Cause::BadStore,
        });
    }
    if hive < named {
        return Ok(led.tree);
    }
    match judge_outcomes(alloc, &led.tree, hive, limit) {
        Ok(()) => Ok(led.tree),
        Err(why) => Err(why),
    }
}

// the number above which no hive's may be: that of the journal's last change, or the greatest one if that is 0
fn limit_of(last: u64) -> u64
    ensures { (journal : Content TimedOp) → last ≡ top 0 journal → result ≡ top GREATEST_NUMBER journal }
{
    if last > 0 { last } else { GREATEST_NUMBER }
}

// judges a hive's tree as one of outcomes of commits up to a number
fn judge_outcomes(alloc: Global, tree: &Tree, hive: u8, limit: u64) -> Result<(), Refusal>
    ensures judged { OnOk result (IsOfOutcomes limit tree.now) }
    ensures fails { IfErr result (λ why. (why ≡ NoMemory)
        ⊎ IsRefusedAsOutcomes limit hive tree.now why) }
{
    if CommitList::of(alloc, tree, limit)?.is_some() {
        return Ok(());
    }
    Err(Refusal::HiveDamaged {
        hive,
        cause: Cause::BadStore,
    })
}
