//! Making a store: a journal without a change, and a hive of each tree or of each file.
ghost use Rattle.std.specs.Prelude.{◌≡◌, ◌⊎◌, ◌↔◌, ◌<◌, ◌≤◌, ◌+◌, ◌++◌, ◌∷◌, [], ℕ, List, true, false, length, map, slice_get, Some, Err, IfErr, IfOk, OnOk};
ghost use Rattle.reg_tree.specs.Maps.{TreeMap};
ghost use Rattle.reg_tree.specs.Fresh.{fresh_tree};
ghost use Rattle.refusals.specs.declared.limits.TheConstants.{GREATEST_NUMBER, MOST_HIVES, MOST_TREES};
ghost use Rattle.refusals.specs.declared.refusal.Refusal.TheVariants.{DiskFault, NoMemory, TooLarge};
ghost use Rattle.reg_tree.specs.Sequences.{AreWithin};
ghost use Rattle.disk_model.specs.Call.{CountsFailure};
ghost use Rattle.disk_model.specs.Crash.{LeavesHonest};
ghost use Rattle.disk_model.specs.FileState.{at_rest};
ghost use Rattle.disk_model.specs.StoreFiles.{journal_file};
ghost use Rattle.commit_journal.specs.Store.{created_bytes, hives_in};
ghost use Rattle.commit_journal.specs.declared.store_layout.Layout.TheVariants.{HivesAlone, WithOutcomes};
ghost use Rattle.commit_outcomes.specs.Trees.{are_outcomes};
ghost use Rattle.engine_invariant.specs.Prefixes.{IsPrimaryOf};
ghost use Rattle.hive_files.specs.Frames.{TouchesOwnFiles};
ghost use Rattle.hive_flush.specs.Creation.{IsImageOf};
ghost use Rattle.recovery.specs.Created.{AreImagesIn, AreImagesOf, AreWritten, HivesAreDurable, StoreIsCopied, StoreIsCreated, FitsStore, HasOutcomes, IsNoCopy, IsOfHives, IsOfStore, IsRefusedFor, LacksOutcomes, RecoversTrees, SomeIsHeavy, new_store, trees_in};
ghost use Rattle.recovery.specs.FileCopies.{AreImagesOfFiles, AreRefusedFor, FilesHoldTrees, StoreIsCreatedFrom};
ghost use Rattle.recovery.specs.Recovered.{IsRecovered, seen_in};

use crate::recovery_result::judge_tree;
use commit_journal::{JournalImage, Layout};
use disk_model::{Disk, Failed};
use hive_flush::HiveImage;
use refusals::Refusal;
use refusals::limits::{MOST_HIVES, MOST_WEIGHT};
use reg_tree::{Op, Tree, Trees};
use std::alloc::Global;
use uuid::Uuid;

/// Makes the files of a store under an id, whatever they contained: a journal without a change, and of each tree, of
/// which there are at most 16, the files of a hive at number 0. Calls name these hives. After them comes a new hive for
/// the outcomes of commits. All files are synced. All is made in memory before the first device call. The journal's
/// file comes last, so a store that is made where none was is found only once it is whole.
///
/// Refused with `TooLarge` exactly if a tree is over the weight, and with `NoMemory`: nothing has changed then. Refused
/// with `DiskFault` if the device failed in a call, which was the last one: nothing is promised of the store's files
/// then.
pub fn create<D: Disk>(alloc: Global, disk: &mut D, id: Uuid, trees: &Trees) -> Result<(), Refusal>
    requires few { length trees.now ≤ MOST_HIVES }
    ensures made { OnOk result (D.faithful disk.new →
        StoreIsCreated id WithOutcomes trees.now (D.state_at disk.new (D.clock disk.new))) }
    ensures recovers { OnOk result (D.faithful disk.new → (files : ℕ → List ℕ) →
        LeavesHonest (IsPrimaryOf (length trees.now + 1))
        (D.state_at disk.new (D.clock disk.new)) files →
        IsRecovered files (new_store id WithOutcomes (length trees.now)) 0 (trees.now ++ fresh_tree ∷ [])) }
    ensures seen { OnOk result (D.faithful disk.new →
        IsRecovered (seen_in (D.state_at disk.new (D.clock disk.new)))
        (new_store id WithOutcomes (length trees.now)) 0 (trees.now ++ fresh_tree ∷ [])) }
    ensures shows { OnOk result (D.faithful disk.new →
        LeavesHonest (IsPrimaryOf (length trees.now + 1))
        (D.state_at disk.new (D.clock disk.new))
        (seen_in (D.state_at disk.new (D.clock disk.new)))) }
    ensures refused { IfErr result (λ why.
        ((why ≡ DiskFault) × (D.failures disk.old < D.failures disk.new))
        ⊎ (IsRefusedFor trees.now why × (disk.new ≡ disk.old))) }
    ensures heavy { SomeIsHeavy trees.now → result ≡ Err TooLarge }
    ensures stays { TouchesOwnFiles (IsOfStore (length trees.now + 1)) (D.state_at disk.old)
        (D.state_at disk.new) (D.clock disk.old) (D.clock disk.new) }
    ensures faithful { D.faithful disk.new → D.faithful disk.old }
{
    create_in(alloc, disk, id, trees, Layout::WithOutcomes)
}

/// Makes the files of a store as [`create`] does, but in the first layout: the hives of the trees, and no more.
///
/// Refused as [`create`] is.
pub fn create_layout_1<D: Disk>(
    alloc: Global,
    disk: &mut D,
    id: Uuid,
    trees: &Trees,
) -> Result<(), Refusal>
    requires few { length trees.now ≤ MOST_HIVES }
    ensures made { OnOk result (D.faithful disk.new →
        StoreIsCreated id HivesAlone trees.now (D.state_at disk.new (D.clock disk.new))) }
    ensures recovers { OnOk result (D.faithful disk.new → (files : ℕ → List ℕ) →
        LeavesHonest (IsPrimaryOf (length trees.now))
        (D.state_at disk.new (D.clock disk.new)) files →
        IsRecovered files (new_store id HivesAlone (length trees.now)) 0 trees.now) }
    ensures seen { OnOk result (D.faithful disk.new →
        IsRecovered (seen_in (D.state_at disk.new (D.clock disk.new)))
        (new_store id HivesAlone (length trees.now)) 0 trees.now) }
    ensures shows { OnOk result (D.faithful disk.new →
        LeavesHonest (IsPrimaryOf (length trees.now))
        (D.state_at disk.new (D.clock disk.new))
        (seen_in (D.state_at disk.new (D.clock disk.new)))) }
    ensures refused { IfErr result (λ why.
        ((why ≡ DiskFault) × (D.failures disk.old < D.failures disk.new))
        ⊎ (IsRefusedFor trees.now why × (disk.new ≡ disk.old))) }
    ensures heavy { SomeIsHeavy trees.now → result ≡ Err TooLarge }
    ensures stays { TouchesOwnFiles (IsOfStore (length trees.now)) (D.state_at disk.old)
        (D.state_at disk.new) (D.clock disk.old) (D.clock disk.new) }
    ensures faithful { D.faithful disk.new → D.faithful disk.old }
{
    create_in(alloc, disk, id, trees, Layout::HivesAlone)
}

// makes the files of a store of trees in a layout
fn create_in<D: Disk>(
    alloc: Global,
    disk: &mut D,
    id: Uuid,
    trees: &Trees,
    layout: Layout,
) -> Result<(), Refusal>
    requires few { length trees.now ≤ MOST_HIVES }
    ensures made { OnOk result (D.faithful disk.new →
        StoreIsCreated id layout trees.now (D.state_at disk.new (D.clock disk.new))) }
    ensures recovers { OnOk result (D.faithful disk.new →
        RecoversTrees (new_store id layout (length trees.now)) 0 (trees_in layout trees.now)
        (D.state_at disk.new (D.clock disk.new))) }
    ensures shows { OnOk result (D.faithful disk.new →
        LeavesHonest (IsPrimaryOf (hives_in layout (length trees.now)))
        (D.state_at disk.new (D.clock disk.new))
        (seen_in (D.state_at disk.new (D.clock disk.new)))) }
    ensures refused { IfErr result (λ why.
        ((why ≡ DiskFault) × (D.failures disk.old < D.failures disk.new))
        ⊎ (IsRefusedFor trees.now why × (disk.new ≡ disk.old))) }
    ensures heavy { SomeIsHeavy trees.now → result ≡ Err TooLarge }
    ensures stays { TouchesOwnFiles (IsOfStore (hives_in layout (length trees.now)))
        (D.state_at disk.old) (D.state_at disk.new) (D.clock disk.old) (D.clock disk.new) }
    ensures faithful { D.faithful disk.new → D.faithful disk.old }
{
    commit_outcomes::laws::trees_have_commits();
    if some_is_heavy(trees) {
        return Err(Refusal::TooLarge);
    }
    let named = images_of(alloc, id, trees, 0)?;
    let images = images_in(alloc, id, layout, named)?;
    write_store(alloc, disk, id, layout, trees.len() as u8, &images)
}

/// Makes the files of a store as of a number, under an id and in a layout, whatever they contained: a journal without a
/// change, and of each tree the files of a hive that has the changes up to the number applied. Calls name this many of the
/// hives, 1 to 16; in the layout with outcomes one more follows, of which the last tree is. All files are synced. All is
/// made in memory before the first device call. The journal's file comes last, so a store that is made where none was is
/// found only once it is whole.
///
/// Refused with `Unsupported` exactly if no store has so many hives; with `TooLarge` exactly if a tree is over the weight;
/// with `HiveDamaged` if the last tree is not one of outcomes up to the number; and with `NoMemory`: nothing has changed
/// then. Refused with `DiskFault` if the device failed in a call, which was the last one: nothing is promised of the
/// store's files then.
pub fn create_at<D: Disk>(
    alloc: Global,
    disk: &mut D,
    id: Uuid,
    layout: Layout,
    named: u8,
    trees: &Trees,
    number: u64,
) -> Result<(), Refusal>
    requires limit { number ≤ GREATEST_NUMBER }
    ensures made { OnOk result (D.faithful disk.new →
        StoreIsCopied (new_store id layout named) number trees.now (D.state_at disk.new (D.clock disk.new))) }
    ensures recovers { OnOk result (D.faithful disk.new →
        RecoversTrees (new_store id layout named) number trees.now
        (D.state_at disk.new (D.clock disk.new))) }
    ensures shows { OnOk result (D.faithful disk.new →
        LeavesHonest (IsPrimaryOf (length trees.now))
        (D.state_at disk.new (D.clock disk.new))
        (seen_in (D.state_at disk.new (D.clock disk.new)))) }
    ensures refused { IfErr result (λ why.
        ((why ≡ DiskFault) × (D.failures disk.old < D.failures disk.new))
        ⊎ (IsNoCopy layout named number trees.now why × (disk.new ≡ disk.old))) }
    ensures fits { OnOk result (FitsStore layout named trees.now × HasOutcomes number named trees.now) }
    ensures heavy { FitsStore layout named trees.now → SomeIsHeavy trees.now → result ≡ Err TooLarge }
    ensures stays { TouchesOwnFiles (IsOfStore (length trees.now)) (D.state_at disk.old)
        (D.state_at disk.new) (D.clock disk.old) (D.clock disk.new) }
    ensures faithful { D.faithful disk.new → D.faithful disk.old }
{
    if !fits_store(layout, named, trees) {
        return Err(Refusal::Unsupported);
    }
    if some_is_heavy(trees) {
        return Err(Refusal::TooLarge);
    }
    judge_last(alloc, trees, named, number)?;
    let images = images_of(alloc, id, trees, number)?;
    write_store(alloc, disk, id, layout, named, &images)
}

/// Makes the files of a store under an id, whatever they contained: a journal without a change, and of each of 1 to 16
/// hives' files, given by their bytes, the files of a hive at number 0. Its bins data, root and minor version are the
/// file's; its base block is a new one of the store. Calls name these hives. After them comes a new hive for the
/// outcomes of commits. All files are synced. All is made in memory before the first device call, and the journal's
/// file comes last, as [`create`] makes it.
///
/// Refused with the refusal of the first file that holds no hive: `HiveDamaged` of the hive that it was to be,
/// `Unsupported` or `TooLarge`; and with `NoMemory`: nothing has changed then. Refused with `DiskFault` if the device
/// failed in a call, which was the last one: nothing is promised of the store's files then.
pub fn create_from<D: Disk>(
    alloc: Global,
    disk: &mut D,
    id: Uuid,
    files: Vec<Vec<u8>>,
) -> Result<(), Refusal>
    requires some { 1 ≤ length files.items }
    requires few { length files.items ≤ MOST_HIVES }
    ensures made { OnOk result ((trees : List TreeMap)
        × FilesHoldTrees (map (λ file. file.items) files.items) trees × (D.faithful disk.new →
        StoreIsCreatedFrom id (map (λ file. file.items) files.items) trees
        (D.state_at disk.new (D.clock disk.new))
        × RecoversTrees (new_store id WithOutcomes (length trees)) 0 (trees ++ fresh_tree ∷ [])
        (D.state_at disk.new (D.clock disk.new)))) }
    ensures shows { OnOk result (D.faithful disk.new →
        LeavesHonest (IsPrimaryOf (length files.items + 1))
        (D.state_at disk.new (D.clock disk.new))
        (seen_in (D.state_at disk.new (D.clock disk.new)))) }
    ensures refused { IfErr result (λ why.
        ((why ≡ DiskFault) × (D.failures disk.old < D.failures disk.new))
        ⊎ (AreRefusedFor (map (λ file. file.items) files.items) why × (disk.new ≡ disk.old))) }
    ensures stays { TouchesOwnFiles (IsOfStore (length files.items + 1)) (D.state_at disk.old)
        (D.state_at disk.new) (D.clock disk.old) (D.clock disk.new) }
    ensures faithful { D.faithful disk.new → D.faithful disk.old }
{
    commit_outcomes::laws::trees_have_commits();
    let count = files.len() as u8;
    let named = images_of_files(alloc, id, files)?;
    let images = images_in(alloc, id, Layout::WithOutcomes, named)?;
    write_store(alloc, disk, id, Layout::WithOutcomes, count, &images)
}

// whether a store in a layout may have so many trees, of which calls name the first
fn fits_store(layout: Layout, named: u8, trees: &Trees) -> bool
    ensures { (result ≡ true) ↔ FitsStore layout named trees.now }
{
    if named == 0 || usize::from(named) > MOST_HIVES {
        return false;
    }
    trees.len() == usize::from(layout.all_hives(named))
}

// judges the tree after those of the hives that calls name, if there is one: it has outcomes up to the number
fn judge_last(alloc: Global, trees: &Trees, named: u8, number: u64) -> Result<(), Refusal>
    ensures judged { OnOk result (HasOutcomes number named trees.now) }
    ensures fails { IfErr result (λ why. (why ≡ NoMemory) ⊎ LacksOutcomes number named trees.now why) }
{
    match trees.tree(named) {
        None => Ok(()),
        Some(tree) => judge_tree(alloc, tree, named, number),
    }
}

// whether a tree is over the weight
fn some_is_heavy(trees: &Trees) -> bool
    requires few { length trees.now ≤ MOST_TREES }
    ensures heavy { (result ≡ true) → SomeIsHeavy trees.now }
    ensures light { (result ≡ false) → AreWithin trees.now }
{
    for hive in 0..trees.len() as u8 {
        if tree_at(trees, hive).weight() > MOST_WEIGHT {
            return true;
        }
    }
    false
}

// the tree of a hive of the store
fn tree_at(trees: &Trees, hive: u8) -> &Tree
    requires there { hive < length trees.now }
    ensures { slice_get trees.now hive ≡ Some result.now }
{
    match trees.tree(hive) {
        Some(tree) => tree,
        None => unreachable!(),
    }
}

// the images of the hives of a store at a number, in their order
fn images_of(alloc: Global, id: Uuid, trees: &Trees, number: u64) -> Result<Vec<HiveImage>, Refusal>
    requires few { length trees.now ≤ MOST_TREES }
    requires light { AreWithin trees.now }
    ensures some { IfOk result (λ images. 1 ≤ length images.items) }
    ensures many { IfOk result (λ images. length images.items ≡ length trees.now) }
    ensures images { IfOk result (λ images. AreImagesOf id number trees.now images.items) }
    ensures refused { IfErr result (λ why. why ≡ NoMemory) }
{
    let count = trees.len();
    let mut images = Vec::with_capacity(alloc, count)?;
    for hive in 0..count as u8 {
        let image = HiveImage::of(alloc, id, tree_at(trees, hive), number)?;
        images.push_reserved(image);
    }
    Ok(images)
}

// the images of hives' files, in their order; the files' bytes are moved
fn images_of_files(alloc: Global, id: Uuid, files: Vec<Vec<u8>>) -> Result<Vec<HiveImage>, Refusal>
    requires few { length files.items ≤ MOST_HIVES }
    ensures many { IfOk result (λ images. length images.items ≡ length files.items) }
    ensures images { IfOk result (λ images.
        AreImagesOfFiles id (map (λ file. file.items) files.items) images.items) }
    ensures refused { IfErr result (AreRefusedFor (map (λ file. file.items) files.items)) }
{
    let mut images = Vec::with_capacity(alloc, files.len())?;
    for file in files {
        let hive = images.len() as u8;
        let image = HiveImage::of_file(alloc, id, hive, file)?;
        images.push_reserved(image);
    }
    Ok(images)
}

// the images of the hives of a store in a layout, of which calls name these
fn images_in(
    alloc: Global,
    id: Uuid,
    layout: Layout,
    named: Vec<HiveImage>,
) -> Result<Vec<HiveImage>, Refusal>
    ensures images { IfOk result (λ images. AreImagesIn id layout named.items images.items) }
    ensures refused { IfErr result (λ why. why ≡ NoMemory) }
{
    match layout {
        Layout::HivesAlone => Ok(named),
        Layout::WithOutcomes => {
            let mut images = named;
            let outcomes = image_of_new(alloc, id)?;
            images.push(outcomes)?;
            Ok(images)
        }
    }
}

// the image of a new hive of the store
fn image_of_new(alloc: Global, id: Uuid) -> Result<HiveImage, Refusal>
    ensures image { IfOk result (IsImageOf id fresh_tree 0) }
    ensures refused { IfErr result (λ why. why ≡ NoMemory) }
{
    let trees = Trees::new(alloc, 1)?;
    HiveImage::of(alloc, id, tree_at(&trees, 0), 0)
}

// makes the files of a store in a layout, of which calls name so many hives: those of hives, each of the image with its
// number, and then a journal without a change; refused with `NoMemory` before the first device call
fn write_store<D: Disk>(
    alloc: Global,
    disk: &mut D,
    id: Uuid,
    layout: Layout,
    named: u8,
    images: &[HiveImage],
) -> Result<(), Refusal>
    requires some { 1 ≤ named }
    requires few { named ≤ MOST_HIVES }
    requires many { length images.now ≡ hives_in layout named }
    ensures made { OnOk result (D.faithful disk.new →
        (D.state_at disk.new (D.clock disk.new) journal_file
        ≡ at_rest (created_bytes (new_store id layout named)))
        × AreWritten images.now (D.state_at disk.new (D.clock disk.new))) }
    ensures recovers { OnOk result (D.faithful disk.new → (number : ℕ) (trees : List TreeMap) →
        number ≤ GREATEST_NUMBER → length trees ≡ length images.now →
        ((tree : TreeMap) → slice_get trees named ≡ Some tree → are_outcomes number tree ≡ true) →
        HivesAreDurable id number trees (D.state_at disk.new (D.clock disk.new)) →
        RecoversTrees (new_store id layout named) number trees (D.state_at disk.new (D.clock disk.new))) }
    ensures shows { OnOk result (D.faithful disk.new → (number : ℕ) (trees : List TreeMap) →
        HivesAreDurable id number trees (D.state_at disk.new (D.clock disk.new)) →
        LeavesHonest (IsPrimaryOf (length trees)) (D.state_at disk.new (D.clock disk.new))
        (seen_in (D.state_at disk.new (D.clock disk.new)))) }
    ensures refused { IfErr result (λ why.
        ((why ≡ DiskFault) × (D.failures disk.old < D.failures disk.new))
        ⊎ ((why ≡ NoMemory) × (disk.new ≡ disk.old))) }
    ensures stays { TouchesOwnFiles (IsOfStore (length images.now)) (D.state_at disk.old)
        (D.state_at disk.new) (D.clock disk.old) (D.clock disk.new) }
    ensures faithful { D.faithful disk.new → D.faithful disk.old }
{
    commit_journal::laws::leaves::<(u64, Op)>();
    let journal = JournalImage::of(alloc, id, named, layout)?;
    write_hives(disk, images)?;
    journal.write(disk)?;
    Ok(())
}

// makes the files of the hives, each of the image with its number
fn write_hives<D: Disk>(disk: &mut D, images: &[HiveImage]) -> Result<(), Failed>
    requires few { length images.now ≤ MOST_TREES }
    ensures made { OnOk result (D.faithful disk.new →
        AreWritten images.now (D.state_at disk.new (D.clock disk.new))) }
    ensures stays { TouchesOwnFiles (IsOfHives (length images.now)) (D.state_at disk.old)
        (D.state_at disk.new) (D.clock disk.old) (D.clock disk.new) }
    ensures failures { CountsFailure result (D.failures disk.old) (D.failures disk.new) }
    ensures faithful { D.faithful disk.new → D.faithful disk.old }
{
    for hive in 0..images.len() as u8 {
        images[usize::from(hive)].write(disk, hive)?;
    }
    Ok(())
}
