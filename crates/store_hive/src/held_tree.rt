//! The tree and the number that a hive's two files hold, without what a writer of them needs.
ghost use Rattle.std.specs.Prelude.{◌≡◌, ◌⊎◌, ◌<◌, ◌≤◌, ℕ, List, IfErr, IfOk};
ghost use Rattle.refusals.specs.declared.refusal.Refusal.TheVariants.{DiskFault, NoMemory};
ghost use Rattle.disk_model.specs.Call.{Extends};
ghost use Rattle.disk_model.specs.ReadOnly.{OnlySyncs};
ghost use Rattle.disk_model.specs.StoreFiles.{IsFileOfHive, log_file, primary_file};
ghost use Rattle.hive_files.specs.Contents.{FilesContain};
ghost use Rattle.hive_files.specs.Frames.{RefusalHasCause};
ghost use Rattle.hive_load.specs.Limits.{BinsEncodeTreeInLimits, BinsRefused};
ghost use Rattle.hive_flush.specs.Decoders.{FilesHoldNone, HiveFilesHold, RefusalNamesHive, RefusesHiveFiles, as_hive_refusal};

use disk_model::Disk;
use hive_files::{HiveContents, find};
use hive_load::load_bins;
use refusals::{Cause, Refusal};
use reg_tree::Tree;
use std::alloc::Global;
use uuid::Uuid;

/// What a hive's two files hold.
#[derive(Drop)]
pub(crate) struct HeldTree {
    /// The tree.
    pub tree: Tree,
    /// The number of the last change that it has.
    pub number: u64,
}

/// What the two files of a hive of a store hold. Of an unclean primary file it is what its log repairs; nothing is
/// written.
///
/// Refused as [`HiveFile::open`](hive_flush::HiveFile::open) is: with `HiveDamaged` of this hive or `Unsupported` only if
/// the files hold nothing in this store, for the reported cause; with `DiskFault` if the device failed; and with
/// `NoMemory`. No file changes but by its sync.
pub(crate) fn held_tree<D: Disk>(
    alloc: Global,
    disk: &mut D,
    hive: u8,
    store: Uuid,
) -> Result<HeldTree, Refusal>
    ensures held { IfOk result (λ held. D.faithful disk.new → HiveFilesHold store
        (D.state_at disk.old (D.clock disk.old) (primary_file hive)).seen
        (D.state_at disk.old (D.clock disk.old) (log_file hive)).seen (held.tree, held.number)) }
    ensures fails { IfErr result (RefusalHasCause (D.failures disk.old < D.failures disk.new)
        (RefusesHiveFiles (D.faithful disk.new) hive store
        (D.state_at disk.old (D.clock disk.old) (primary_file hive)).seen
        (D.state_at disk.old (D.clock disk.old) (log_file hive)).seen)) }
    ensures synced { D.faithful disk.new → OnlySyncs (D.state_at disk.old) (D.state_at disk.new)
        (D.clock disk.old) (D.clock disk.new) }
    ensures others { (f : ℕ) → ¬ (IsFileOfHive hive f) →
        D.state_at disk.new (D.clock disk.new) f ≡ D.state_at disk.old (D.clock disk.old) f }
    ensures time { Extends (D.state_at disk.old) (D.state_at disk.new) (D.clock disk.old)
        (D.clock disk.new) }
    ensures failures { D.failures disk.old ≤ D.failures disk.new }
    ensures faithful { D.faithful disk.new → D.faithful disk.old }
{
    match find(alloc, disk, hive) {
        Ok(found) => of_contents(alloc, found, hive, store),
        Err(why) => Err(file_refusal(why, hive)),
    }
}

// the tree and the number of what was found in a hive's files
fn of_contents(
    alloc: Global,
    found: HiveContents,
    hive: u8,
    store: Uuid,
) -> Result<HeldTree, Refusal>
    ensures held { IfOk result (λ held. (primary log : List ℕ) → FilesContain primary log found →
        HiveFilesHold store primary log (held.tree, held.number)) }
    ensures fails { IfErr result (λ why. (why ≡ NoMemory) ⊎ (RefusalNamesHive hive why
        × ((primary log : List ℕ) → FilesContain primary log found →
        FilesHoldNone hive store primary log why))) }
{
    if found.block.store != store {
        return Err(Refusal::HiveDamaged {
            hive,
            cause: Cause::BadStore,
        });
    }
    hive_load::laws::refused_bins_exclude_trees();
    let HiveContents {
        block,
        bins,
        pages: _,
        is_clean: _,
    } = found;
    let tree = match tree_of_bins(alloc, bins, block.root, block.minor) {
        Ok(tree) => tree,
        Err(why) => return Err(hive_refusal(why, hive)),
    };
    Ok(HeldTree {
        tree,
        number: block.applied.0,
    })
}

// the tree that bins data encode, without their image
fn tree_of_bins(alloc: Global, bins: Vec<u8>, root: u32, minor: u32) -> Result<Tree, Refusal>
    ensures stands { IfOk result (BinsEncodeTreeInLimits bins.items root minor) }
    ensures refused { IfErr result (BinsRefused bins.items root minor) }
{
    let (tree, _) = match load_bins(alloc, bins, root, minor) {
        Ok(loaded) => loaded,
        Err(why) => return Err(why),
    };
    Ok(tree)
}

// a refusal of a hive's files; a refusal of the device stays
fn file_refusal(why: Refusal, hive: u8) -> Refusal
    ensures fault { why ≡ DiskFault → result ≡ DiskFault }
    ensures memory { why ≡ NoMemory → result ≡ NoMemory }
    ensures hive_refusal { (why ≡ DiskFault → ⊥) → (result ≡ NoMemory) ⊎ RefusalNamesHive hive result }
    ensures cause { (why ≡ DiskFault → ⊥) → result ≡ as_hive_refusal hive why }
{
    if why == Refusal::DiskFault {
        return why;
    }
    hive_refusal(why, hive)
}

// a refusal that names a hive, with its number
fn hive_refusal(why: Refusal, hive: u8) -> Refusal
    ensures memory { why ≡ NoMemory → result ≡ NoMemory }
    ensures hive_refusal { (result ≡ NoMemory) ⊎ RefusalNamesHive hive result }
    ensures cause { result ≡ as_hive_refusal hive why }
{
    match why {
        Refusal::NoMemory => Refusal::NoMemory,
        Refusal::HiveDamaged { hive: _, cause } => Refusal::HiveDamaged { hive, cause },
        Refusal::TooLarge => Refusal::HiveDamaged {
            hive,
            cause: Cause::TooLarge,
        },
        _ => Refusal::Unsupported,
    }
}
