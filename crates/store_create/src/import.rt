//! Taking files as the hives of a store that is to be made.
ghost use Rattle.std.specs.Prelude.{◌≡◌, ◌+◌, ◌<◌, ◌≤◌, ℕ, List, [], ◌∷◌, ◌++◌, Option, IfOk, IfSome, OnOk, OnErr, MatchResult, Result};
ghost use Rattle.refusals.specs.declared.limits.TheConstants.{MOST_HIVES};
ghost use Rattle.refusals.specs.declared.refusal.Refusal.{Refusal};
ghost use Rattle.refusals.specs.declared.refusal.Refusal.TheVariants.{NoMemory};
ghost use Rattle.reg_tree.specs.Maps.{TreeMap};
ghost use Rattle.hive_files.specs.Frames.{TouchesOwnFiles};
ghost use Rattle.hive_file_reader.specs.Hives.{IsEnoughOf};
ghost use Rattle.recovery.specs.Created.{IsOfStore};
ghost use Rattle.store_create.specs.Creations.{IsNotMade, OutcomeIsWritten};
ghost use Rattle.store_create.specs.Imports.{AreHeldBy, HasTaken, IsImportedStore, IsRefusedImport};

use crate::creation::write_outcome;
use disk_model::Disk;
use hive_file_reader::{ReadError, read_file};
use recovery::create_from;
use refusals::Refusal;
use reply_lines::Status;
use std::alloc::Global;
use std::io;
use std::io::{Read, Write};
use std::marker::Model;
use uuid::Uuid;

/// A file that is to be imported can't be read, or read on.
#[derive(Clone, Copy, Debug, PartialEq, Eq)]
pub struct SourceFailed;

/// Hives that are imported from up to 16 files, in the order of the files. Of each the first bytes are kept, as many as
/// decide which hive it holds; they are judged once the store would be made. If memory for them is wanting, no bytes are
/// kept from then on, and the content of later files doesn't count; but they are read.
#[derive(Drop)]
pub struct Import {
    // how many files were taken
    count: u8,
    // their first bytes, or want of memory
    outcome: Result<Vec<Vec<u8>>, Refusal>,
}

impl Model for Import {
    ghost use Rattle.store_create.specs.Imports.{Taken};
    ghost use Rattle.store_create.specs.Codes.{taken_code};

    ghost Value = { Taken };

    ghost coded = { taken_code };

    ghost use Rattle.store_create.specs.Inside.{taken_in, IsInPlace};

    ghost view = { taken_in };

    ghost invariant = { IsInPlace };
}

impl Import {
    /// An import of no file yet.
    pub fn new(alloc: Global) -> Import
        ensures { HasTaken [] result }
    {
        Import {
            count: 0,
            outcome: Ok(Vec::new(alloc)),
        }
    }

    /// Takes the file that a reader gives, as the hive of the next number. It is read as [`read_file`] does, and no more
    /// of it. Want of memory is kept for [`make`](Import::make).
    ///
    /// `Err` says that the reader failed: nothing was taken then.
    pub fn take<R: Read>(&mut self, alloc: Global, reader: &mut R) -> Result<(), SourceFailed>
        requires few { self.old.count < MOST_HIVES }
        ensures taken { OnOk result ((files : List (Option (List ℕ))) → HasTaken files self.old →
            HasTaken (files ++ R.remaining reader.old ∷ []) self.new) }
        ensures count { OnOk result (self.new.count ≡ self.old.count + 1) }
        ensures unreadable { OnErr result (self.new ≡ self.old) }
    {
        match read_file(alloc, reader) {
            Ok(front) => self.keep(front),
            Err(ReadError::Refused(why)) => self.refuse(why),
            Err(ReadError::SourceFailed) => return Err(SourceFailed),
        }
        Ok(())
    }

    // the next file, by its first bytes
    fn keep(&mut self, front: Vec<u8>)
        requires few { self.old.count < MOST_HIVES }
        ensures taken { (files : List (Option (List ℕ))) (known : Option (List ℕ)) →
            IfSome known (IsEnoughOf front.items) → HasTaken files self.old →
            HasTaken (files ++ known ∷ []) self.new }
        ensures count { self.new.count ≡ self.old.count + 1 }
    {
        self.count += 1;
        if let Ok(fronts) = &mut self.outcome {
            if fronts.push(front).is_err() {
                self.outcome = Err(Refusal::NoMemory);
            }
        }
    }

    // the next file, for which memory is wanting
    fn refuse(&mut self, why: Refusal)
        requires few { self.old.count < MOST_HIVES }
        requires memory { why ≡ NoMemory }
        ensures taken { (files : List (Option (List ℕ))) (known : Option (List ℕ)) →
            HasTaken files self.old → HasTaken (files ++ known ∷ []) self.new }
        ensures count { self.new.count ≡ self.old.count + 1 }
    {
        self.count += 1;
        self.outcome = Err(why);
    }

    /// Makes a store of the hives in all files that were taken, of which there is at least one, under an id. A hive's
    /// bins data, root and minor version stay as they are in its file. After them comes a new hive for the outcomes of
    /// commits. Writes whether the store is made: `ok`, or the refusal's line. Answers the status. What the store's files
    /// contained before is lost.
    ///
    /// The text reports the refusal of the first file that holds no hive: `HiveDamaged` of the hive that it was to be,
    /// `Unsupported` or `TooLarge`; or `NoMemory`. Nothing has changed on the disk then. It reports `DiskFault` if the
    /// device failed: nothing is promised of the store's files then. `Err` says that a write to the writer failed; the
    /// same holds of the disk then.
    pub fn make<D: Disk, W: Write>(
        self,
        alloc: Global,
        disk: &mut D,
        id: Uuid,
        writer: &mut W,
    ) -> io::Result<Status>
        requires some { 1 ≤ self.count }
        ensures made { (files : List (Option (List ℕ))) → HasTaken files self →
            (outcome : Result (List TreeMap) Refusal)
            × IfOk result (OutcomeIsWritten (W.contents writer.old) (W.contents writer.new) outcome)
            × MatchResult outcome
            (λ trees. AreHeldBy files trees × (D.faithful disk.new →
            IsImportedStore id files trees (D.state_at disk.new (D.clock disk.new))))
            (IsNotMade (D.failures disk.old < D.failures disk.new) (disk.new ≡ disk.old)
            (IsRefusedImport files)) }
        ensures stays { TouchesOwnFiles (IsOfStore (self.count + 1)) (D.state_at disk.old) (D.state_at disk.new)
            (D.clock disk.old) (D.clock disk.new) }
        ensures faithful { D.faithful disk.new → D.faithful disk.old }
    {
        hive_file_reader::laws::fronts_decide();
        let Import { count: _, outcome } = self;
        match outcome {
            Ok(fronts) => {
                let made = create_from(alloc, disk, id, fronts);
                write_outcome(writer, made)
            }
            Err(why) => write_outcome(writer, Err(why)),
        }
    }
}
