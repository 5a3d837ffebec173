//! Making a hive's files: an image in memory first, and then its writing.
ghost use Rattle.std.specs.Prelude.{◌≡◌, ◌⊎◌, ◌<◌, ℕ, List, Err, IfErr, IfOk, OnOk};
ghost use Rattle.reg_tree.specs.Maps.{TreeMap, weight};
ghost use Rattle.refusals.specs.declared.limits.TheConstants.{MOST_WEIGHT};
ghost use Rattle.refusals.specs.declared.refusal.Refusal.TheVariants.{DiskFault, TooLarge};
ghost use Rattle.disk_model.specs.Call.{CountsFailure, HasFailed};
ghost use Rattle.disk_model.specs.StoreFiles.{IsFileOfHive as IsFileOf, primary_file, log_file};
ghost use Rattle.hive_files.specs.Frames.{TouchesOwnFiles};
ghost use Rattle.hive_file_reader.specs.Readings.{FileRefusedAs};
ghost use Rattle.hive_flush.specs.Creation.{AreCreated, AreCreatedFrom, IsImageOf, IsImageOfFile, block_as_made};
ghost use Rattle.hive_flush.specs.Decoders.{IsRefusedFor};

use crate::application::encoded_tree;
use crate::hive::HiveFile;
use crate::image::HiveImage;
use base_block::{AppliedNumber, BaseBlock, MINOR_VERSION, SequenceNumber};
use disk_model::{Disk, Failed};
use hive_file_reader::{FileHive, load_file};
use hive_files::{make, sector};
use refusals::Refusal;
use reg_tree::Tree;
use std::alloc::Global;
use uuid::Uuid;

// the sequence number of a hive that was never flushed
const FIRST_NUMBER: u32 = 1;

// the least bins data: one bin of one page of 4,096 bytes
const LEAST_BINS_BYTES: usize = 4_096;

impl HiveImage {
    /// The image of a tree for a store, which has the changes up to a number applied.
    ///
    /// Refused with `TooLarge` exactly if the tree is over the weight. Otherwise refused with `NoMemory` alone.
    pub fn of(alloc: Global, store: Uuid, tree: &Tree, number: u64) -> Result<HiveImage, Refusal>
        ensures image { IfOk result (IsImageOf store tree.now number) }
        ensures refused { IfErr result (IsRefusedFor (weight tree.now)) }
        ensures heavy { MOST_WEIGHT < weight tree.now → result ≡ Err TooLarge }
    {
        let emitted = encoded_tree(alloc, tree, LEAST_BINS_BYTES)?;
        let root = emitted.root;
        let bins = emitted.image.into_bytes();
        Ok(HiveImage {
            store,
            root,
            minor: MINOR_VERSION,
            number,
            bins,
        })
    }

    /// The image of the hive that a file's bytes hold, for a store: the bins data, root and minor version are the
    /// file's. The bytes are not copied. Only a refusal names the hive's number.
    ///
    /// Refused as [`load_file`] is, if the file holds no hive.
    pub fn of_file(
        alloc: Global,
        store: Uuid,
        hive: u8,
        file: Vec<u8>,
    ) -> Result<HiveImage, Refusal>
        ensures image { IfOk result (λ image. (tree : TreeMap) × IsImageOfFile store file.items tree image) }
        ensures refused { IfErr result (FileRefusedAs hive file.items) }
    {
        let FileHive {
            block,
            bins,
            tree: _,
        } = match load_file(alloc, file, hive) {
            Ok(held) => held,
            Err(why) => return Err(why),
        };
        Ok(HiveImage {
            store,
            root: block.root,
            minor: block.minor,
            number: 0,
            bins,
        })
    }

    /// Makes the two files of a hive, by its number, whatever was in them. They are a clean primary file with the
    /// image's bins data, root and minor version, which holds its tree at its number, and an empty log. Both are synced. A
    /// write takes at most 65,536 bytes.
    ///
    /// Takes no memory. Failed if the device failed in a call, which was the last one. Then nothing is said of the two
    /// files.
    pub fn write<D: Disk>(&self, disk: &mut D, hive: u8) -> Result<(), Failed>
        ensures created { OnOk result (D.faithful disk.new → (store : List ℕ) (tree : TreeMap) (number : ℕ) →
            IsImageOf store tree number self.now → AreCreated store tree number
            (D.state_at disk.new (D.clock disk.new) (primary_file hive))
            (D.state_at disk.new (D.clock disk.new) (log_file hive))) }
        ensures copied { OnOk result (D.faithful disk.new → (store file : List ℕ) (tree : TreeMap) →
            IsImageOfFile store file tree self.now → AreCreatedFrom store file tree
            (D.state_at disk.new (D.clock disk.new) (primary_file hive))
            (D.state_at disk.new (D.clock disk.new) (log_file hive))) }
        ensures stays { TouchesOwnFiles (IsFileOf hive) (D.state_at disk.old) (D.state_at disk.new)
            (D.clock disk.old) (D.clock disk.new) }
        ensures failures { CountsFailure result (D.failures disk.old) (D.failures disk.new) }
        ensures faithful { D.faithful disk.new → D.faithful disk.old }
    {
        let size = self.bins.len() as u32;
        let block = self.base_block(size);
        let _ = sector(&block); // for the prover
        make(disk, hive, &block, &self.bins)
    }

    // the base block of the primary file, whose bins data have this size
    fn base_block(&self, size: u32) -> BaseBlock
        ensures { result ≡ block_as_made self.now.store self.now.number self.now.minor self.now.root size }
    {
        let mut block = BaseBlock::of_primary(
            SequenceNumber(FIRST_NUMBER),
            self.minor,
            self.root,
            size,
            self.store,
        );
        block.applied = AppliedNumber(self.number);
        block
    }
}

impl HiveFile {
    /// Makes the two files of a hive of a store, by its number, whatever was in them. They are a clean primary file of
    /// a tree at number 0, and an empty log. Both are synced. A write takes at most 65,536 bytes.
    ///
    /// Refused with `TooLarge` exactly if the tree is over the weight, and with `NoMemory`. No file has changed then.
    /// Refused with `DiskFault` if the device failed in a call, which was the last one. Then nothing is said of the two
    /// files.
    pub fn create<D: Disk>(
        alloc: Global,
        disk: &mut D,
        hive: u8,
        store: Uuid,
        tree: &Tree,
    ) -> Result<(), Refusal>
        ensures created { OnOk result (D.faithful disk.new → AreCreated store tree.now 0
            (D.state_at disk.new (D.clock disk.new) (primary_file hive))
            (D.state_at disk.new (D.clock disk.new) (log_file hive))) }
        ensures refused { IfErr result (λ why. (why ≡ DiskFault)
            ⊎ (IsRefusedFor (weight tree.now) why × (disk.new ≡ disk.old))) }
        ensures heavy { MOST_WEIGHT < weight tree.now → result ≡ Err TooLarge }
        ensures failures { HasFailed result (D.failures disk.old) (D.failures disk.new) }
        ensures stays { TouchesOwnFiles (IsFileOf hive) (D.state_at disk.old) (D.state_at disk.new)
            (D.clock disk.old) (D.clock disk.new) }
        ensures faithful { D.faithful disk.new → D.faithful disk.old }
    {
        let image = HiveImage::of(alloc, store, tree, 0)?;
        image.write(disk, hive)?;
        Ok(())
    }
}
