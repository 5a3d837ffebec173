//! Opening a hive: what its two files hold.
ghost use Rattle.std.specs.Prelude.{◌≡◌, ◌⊎◌, ◌<◌, ◌≤◌, ◌+◌, false, true, ℕ, List, IfOk, IfErr};
ghost use Rattle.crash_model.specs.Promises.{settled};
ghost use Rattle.refusals.specs.declared.refusal.Refusal.TheVariants.{DiskFault, NoMemory};
ghost use Rattle.disk_model.specs.Call.{Extends};
ghost use Rattle.disk_model.specs.FileState.{FileState, at_rest};
ghost use Rattle.disk_model.specs.StoreFiles.{IsFileOfHive, primary_file, log_file};
ghost use Rattle.disk_model.specs.ReadOnly.{OnlySyncs};
ghost use Rattle.dirt_log.specs.FileContents.{is_clean_file};
ghost use Rattle.hive_files.specs.Contents.{FilesContain};
ghost use Rattle.hive_files.specs.Frames.{RefusalHasCause};
ghost use Rattle.hive_flush.specs.Decoders.{HiveFilesHold, FilesHoldNone, RefusalNamesHive, RefusesHiveFiles, as_hive_refusal};
ghost use Rattle.hive_flush.specs.NextBlocks.{clean_writer, unclean_writer};
ghost use Rattle.hive_flush.specs.HiveStates.{IsBroken, IsOpenedFrom, FilesMatchHive, HiveIsRepaired, file_choice, marked_pages, memory_of, most_repairs, hive_number, repairs_left, steps_left, store_of};

use crate::flush_plan::{next_block, plan_fits, repair_fits};
use crate::hive::HiveFile;
use crate::renewal::in_written_version;
use base_block::BaseBlock;
use disk_model::Disk;
use hive_files::{HiveContents, find};
use hive_load::load_bins;
use hive_savepoint::{SavepointImage, UndoLog};
use hive_writer::HiveWriter;
use refusals::{Cause, Refusal};
use std::alloc::Global;
use std::snapshot::Snapshot;
use uuid::Uuid;

impl HiveFile {
    /// Opens a hive of a store, by its number: the tree and the number that its two files hold. If the primary file is
    /// unclean, its repair is to be made before anything else. A repair by a log that marks `p` pages is done within
    /// `p + 3` steps, if none is refused.
    ///
    /// Of a clean primary file of an older minor version the image in memory is made anew, in the version that is
    /// written, of the tree and no shorter than the file's bins data. So the first flush writes a whole hive of that
    /// version. Until then the files stay as they are.
    ///
    /// The primary file is synced before it is read. So is the log, unless the primary file is clean: then the log
    /// isn't looked at. Both are read in chunks.
    ///
    /// Refused with `HiveDamaged` of this hive or `Unsupported` only if the files hold nothing in this store. Refused
    /// with `DiskFault` if the device failed, and with `NoMemory`. No file changes but by its sync.
    ///
    /// The reported cause is true of the files. For a clean primary file it is what is wrong with its own block, or
    /// `Truncated`. For an unclean one it is `BadLog` if its log isn't whole or lacks a page that is needed. It is
    /// `Truncated` if an unclean file has no first sector. For a block of another store it is `BadStore`. Otherwise it
    /// is what is wrong with the bins data that are in use. What is over a limit has the cause `TooLarge`.
    pub fn open<D: Disk>(
        alloc: Global,
        disk: &mut D,
        hive: u8,
        store: Uuid,
    ) -> Result<HiveFile, Refusal>
        ensures held { IfOk result (λ file. D.faithful disk.new → HiveFilesHold store
            (D.state_at disk.old (D.clock disk.old) (primary_file hive)).seen
            (D.state_at disk.old (D.clock disk.old) (log_file hive)).seen (memory_of file)) }
        ensures settled { IfOk result (λ file. file_choice file ≡ settled (memory_of file)) }
        ensures on { IfOk result (λ file. D.faithful disk.new → FilesMatchHive file
            (D.state_at disk.new (D.clock disk.new) (primary_file hive))
            (D.state_at disk.new (D.clock disk.new) (log_file hive))) }
        ensures place { IfOk result (λ file. hive_number file ≡ hive) }
        ensures store { IfOk result (λ file. store_of file ≡ store) }
        ensures sound { IfOk result (λ file. IsBroken file → ⊥) }
        ensures from { IfOk result (λ file. D.faithful disk.new →
            is_clean_file (D.state_at disk.old (D.clock disk.old) (primary_file hive)).seen ≡ true →
            IsOpenedFrom (D.state_at disk.old (D.clock disk.old) (primary_file hive)).seen file) }
        ensures few { IfOk result (λ file. D.faithful disk.new → ¬ (HiveIsRepaired file) →
            steps_left file ≤ marked_pages
            (D.state_at disk.old (D.clock disk.old) (log_file hive)).seen + 3) }
        ensures repairs { IfOk result (λ file. D.faithful disk.new → repairs_left file ≤ most_repairs
            (D.state_at disk.old (D.clock disk.old) (primary_file hive)).seen
            (D.state_at disk.old (D.clock disk.old) (log_file hive)).seen) }
        ensures fails { IfErr result (RefusalHasCause (D.failures disk.old < D.failures disk.new)
            (RefusesHiveFiles (D.faithful disk.new) hive store
            (D.state_at disk.old (D.clock disk.old) (primary_file hive)).seen
            (D.state_at disk.old (D.clock disk.old) (log_file hive)).seen)) }
        ensures synced { D.faithful disk.new → OnlySyncs (D.state_at disk.old) (D.state_at disk.new)
            (D.clock disk.old) (D.clock disk.new) }
        ensures others { (f : ℕ) → ¬ (IsFileOfHive hive f) →
            D.state_at disk.new (D.clock disk.new) f ≡ D.state_at disk.old (D.clock disk.old) f }
        ensures time { Extends (D.state_at disk.old) (D.state_at disk.new) (D.clock disk.old)
            (D.clock disk.new) }
        ensures failures { D.failures disk.old ≤ D.failures disk.new }
        ensures faithful { D.faithful disk.new → D.faithful disk.old }
    {
        match find(alloc, disk, hive) {
            Ok(found) => of_contents(alloc, found, hive, store),
            Err(why) => Err(file_refusal(why, hive)),
        }
    }
}

// a refusal of a hive's files; a refusal of the device stays
fn file_refusal(why: Refusal, hive: u8) -> Refusal
    ensures fault { why ≡ DiskFault → result ≡ DiskFault }
    ensures memory { why ≡ NoMemory → result ≡ NoMemory }
    ensures hive_refusal { (why ≡ DiskFault → ⊥) → (result ≡ NoMemory) ⊎ RefusalNamesHive hive result }
    ensures cause { (why ≡ DiskFault → ⊥) → result ≡ as_hive_refusal hive why }
{
    if why == Refusal::DiskFault {
        return why;
    }
    hive_refusal(why, hive)
}

// a refusal that names a hive, with its number
fn hive_refusal(why: Refusal, hive: u8) -> Refusal
    ensures memory { why ≡ NoMemory → result ≡ NoMemory }
    ensures hive_refusal { (result ≡ NoMemory) ⊎ RefusalNamesHive hive result }
    ensures cause { result ≡ as_hive_refusal hive why }
{
    match why {
        Refusal::NoMemory => Refusal::NoMemory,
        Refusal::HiveDamaged { hive: _, cause } => Refusal::HiveDamaged { hive, cause },
        Refusal::TooLarge => Refusal::HiveDamaged {
            hive,
            cause: Cause::TooLarge,
        },
        _ => Refusal::Unsupported,
    }
}

// the hive of what was found in its files
fn of_contents(
    alloc: Global,
    found: HiveContents,
    hive: u8,
    store: Uuid,
) -> Result<HiveFile, Refusal>
    ensures held { IfOk result (λ file. (primary log : List ℕ) → FilesContain primary log found →
        HiveFilesHold store primary log (memory_of file)) }
    ensures settled { IfOk result (λ file. file_choice file ≡ settled (memory_of file)) }
    ensures on { IfOk result (λ file. (primary log : List ℕ) (p l : FileState) →
        FilesContain primary log found → p ≡ at_rest primary →
        (found.is_clean ≡ false → l ≡ at_rest log) → FilesMatchHive file p l) }
    ensures place { IfOk result (λ file. hive_number file ≡ hive) }
    ensures store { IfOk result (λ file. store_of file ≡ store) }
    ensures sound { IfOk result (λ file. IsBroken file → ⊥) }
    ensures from { IfOk result (λ file. (primary log : List ℕ) → FilesContain primary log found →
        is_clean_file primary ≡ true → IsOpenedFrom primary file) }
    ensures few { IfOk result (λ file. (primary log : List ℕ) → FilesContain primary log found →
        ¬ (HiveIsRepaired file) → steps_left file ≤ marked_pages log + 3) }
    ensures repairs { IfOk result (λ file. (primary log : List ℕ) → FilesContain primary log found →
        repairs_left file ≤ most_repairs primary log) }
    ensures fails { IfErr result (λ why. (why ≡ NoMemory) ⊎ (RefusalNamesHive hive why
        × ((primary log : List ℕ) → FilesContain primary log found →
        FilesHoldNone hive store primary log why))) }
{
    if found.block.store != store {
        return Err(Refusal::HiveDamaged {
            hive,
            cause: Cause::BadStore,
        });
    }
    let HiveContents {
        block,
        bins,
        pages,
        is_clean,
    } = found;
    hive_load::laws::refused_bins_exclude_trees();
    let (tree, image) = match load_bins(alloc, bins, block.root, block.minor) {
        Ok(loaded) => loaded,
        Err(why) => return Err(hive_refusal(why, hive)),
    };
    let log = UndoLog::new(alloc)?;
    let mut pages = pages;
    let made = in_written_version(alloc, &tree, &block, image, &mut pages)?;
    let size = pages.bins_size() as u32;
    let held = Snapshot::of(&tree);
    let writer = writer_for(block, hive, is_clean, made.root, size);
    let mut image = SavepointImage::of(made.image, log);
    plan_fits(&writer, image.bytes(), &pages); // for the prover
    repair_fits(&block); // for the prover
    Ok(HiveFile {
        held,
        tree,
        image,
        pages,
        writer,
    })
}

// the writer of files whose block in use this is, clean or unclean, for an image of a size with a root
fn writer_for(block: BaseBlock, hive: u8, is_clean: bool, root: u32, size: u32) -> HiveWriter
    ensures clean { is_clean ≡ true → result ≡ clean_writer hive block root size }
    ensures unclean { is_clean ≡ false → result ≡ unclean_writer hive block }
{
    if !is_clean {
        return HiveWriter::of_unclean(hive, block);
    }
    let mut writer = HiveWriter::of_clean(hive, block);
    writer.plan(next_block(&block, root, size, block.last_written, block.applied.0));
    writer
}
