//! An image with a savepoint.
ghost use Rattle.std.specs.Prelude.{◌≡◌, ◌≤◌, ◌<◌, ◌+◌, ◌%◌, ◌-◌, ◌^◌, ◌*◌, true, min, IfErr, IfOk, OnOk, OnErr, MatchResult, length};
ghost use Rattle.std.specs.List.{AllByRecursion};
ghost use Rattle.std.specs.Borrow.{sem};
ghost use Rattle.refusals.specs.declared.refusal.Refusal.TheVariants.{HiveDamaged, NoMemory};
ghost use Rattle.refusals.specs.declared.refusal.Cause.TheVariants.{BadOffset};
ghost use Rattle.hive_cells.specs.Tiles.{Tiles, IsAllocatedCell, cell_data, cell_size};
ghost use Rattle.hive_cells.specs.Changes.{least_size};
ghost use Rattle.hive_cells.specs.Bins.{Cells, Shows};
ghost use Rattle.dirty_vector.specs.Pages.{is_bins_size};
ghost use Rattle.dirty_vector.specs.Changes.{ChangesAreMarked};
ghost use Rattle.hive_savepoint.specs.Savepoints.{AllocRefused};
ghost use Rattle.hive_savepoint.specs.Puts.{HasData, Overlays, Moves, ChangesCell, AddsCell, DropsCell};
ghost use Rattle.hive_savepoint.specs.Lending.{StaysAsLent};

use crate::changes;
use crate::log::UndoLog;
use dirty_vector::DirtyVector;
use hive_cells::{Image, Looks};
use refusals::Refusal;
use std::marker::Model;
use std::snapshot::Snapshot;

/// Hive bins data with a savepoint. Contracts see the bytes now and the bytes at the savepoint.
///
/// Each page of 512 bytes of the data at the savepoint is saved before it is first written. So a change may be refused
/// for want of memory; it has then changed nothing.
#[derive(Drop)]
pub struct SavepointImage {
    image: Image,
    log: UndoLog,
    // how long the data were at the savepoint
    limit: usize,
    // the data at the savepoint: known to contracts alone
    before: Snapshot<Image>,
}

impl Model for SavepointImage {
    ghost use Rattle.hive_savepoint.specs.Savepoints.{SavedBytes, saved_bytes_code};

    ghost Value = { SavedBytes };

    ghost coded = { saved_bytes_code };

    ghost use Rattle.hive_savepoint.specs.SavedPages.{LeadsBack};

    ghost view = { λ image. record { bytes = image.image.bytes; saved = image.before.value.bytes } };

    ghost invariant = { λ image. LeadsBack image.before.value.bytes image.image.bytes image.log image.limit };
}

impl SavepointImage {
    /// An image whose savepoint is what it has. What the log has saved before is let go. Takes no memory.
    pub fn of(image: Image, log: UndoLog) -> SavepointImage
        requires { is_bins_size (length image.bytes) ≡ true }
        ensures { result ≡ record { bytes = image.bytes; saved = image.bytes } }
    {
        image.tiles(0); // for the prover
        let mut log = log;
        log.clear();
        let limit = image.len();
        let before = Snapshot::of(&image);
        SavepointImage {
            image,
            log,
            limit,
            before,
        }
    }

    /// Takes another image in place of this one. The savepoint is what that one has. Takes no memory.
    pub fn replace(&mut self, image: Image)
        requires { is_bins_size (length image.bytes) ≡ true }
        ensures { self.new ≡ record { bytes = image.bytes; saved = image.bytes } }
    {
        image.tiles(0); // for the prover
        self.log.clear();
        self.limit = image.len();
        self.before = Snapshot::of(&image);
        self.image = image;
    }

    /// The image as it is now.
    pub fn image(&self) -> &Image
        ensures { result.now.bytes ≡ self.now.bytes }
    {
        &self.image
    }

    /// The laws of every such image. Does nothing.
    pub fn tiles(&self)
        ensures tiles { Tiles self.now.bytes }
        ensures bytes { AllByRecursion (λ b. b < 0x100) self.now.bytes }
        ensures shown { (cells : Cells) × Shows self.now.bytes cells }
        ensures size { is_bins_size (length self.now.bytes) ≡ true }
        ensures saved { Tiles self.now.saved }
        ensures saved_size { is_bins_size (length self.now.saved) ≡ true }
        ensures longer { length self.now.saved ≤ length self.now.bytes }
    {
        self.image.tiles(0); // for the prover
    }

    /// The bytes of the data.
    pub fn len(&self) -> usize
        ensures { result ≡ length self.now.bytes }
    {
        self.image.len()
    }

    /// All bytes of the data, as [`Image::bytes`] lends them. The image stays as it is.
    pub fn bytes(&mut self) -> &[u8]
        ensures* stays { sem 𝓛 (StaysAsLent self.entry) }
        ensures all { result.now ≡ self.old.bytes }
    {
        self.image.bytes()
    }

    /// The data of the allocated cell that begins at an offset, as [`Image::cell`] lends them. Each call, also a refused
    /// one, counts one look.
    ///
    /// Refused with `HiveDamaged` of hive 0 and `BadOffset` exactly if no allocated cell begins there.
    pub fn cell(&self, offset: u32, looks: &mut Looks) -> Result<&[u8], Refusal>
        ensures found { MatchResult result
            (λ lent. IsAllocatedCell self.now.bytes offset
            × (lent.now ≡ cell_data self.now.bytes offset))
            (λ refusal. (refusal ≡ HiveDamaged 0 BadOffset)
            × (¬ IsAllocatedCell self.now.bytes offset)) }
        ensures size { IfOk result (λ lent. length lent.now + 4 ≡ cell_size self.now.bytes offset) }
        ensures eights { IfOk result (λ lent. offset % 8 ≡ 0) }
        ensures within { IfOk result (λ lent. offset + cell_size self.now.bytes offset ≤ length
            self.now.bytes) }
        ensures look { looks.new ≡ min (looks.old + 1) (2 ^ 64 - 1) }
    {
        self.image.cell(offset, looks)
    }

    /// Writes bytes into the data of an allocated cell, from the byte `at` of the data on. The caller makes sure that
    /// they fit. Refused with `NoMemory` alone, and then nothing is changed.
    pub fn write(&mut self, offset: u32, at: usize, source: &[u8]) -> Result<(), Refusal>
        requires { HasData self.old.bytes offset (at + length source.now) }
        ensures written { OnOk result (ChangesCell self.old.bytes self.new.bytes offset
            (λ its now. Overlays its now at source.now)) }
        ensures saved { self.new.saved ≡ self.old.saved }
        ensures refused { IfErr result (λ why. why ≡ NoMemory) }
        ensures err { OnErr result (self.new ≡ self.old) }
    {
        changes::write(
            &mut self.image,
            &mut self.log,
            self.limit,
            offset,
            at,
            source,
        )
    }

    /// Moves `len` bytes within the data of an allocated cell, from the byte `from` of the data to the byte `to`. The
    /// caller makes sure that both places lie in the cell. Refused with `NoMemory` alone, and then nothing is changed.
    pub fn shift(&mut self, offset: u32, from: usize, to: usize, len: usize) -> Result<(), Refusal>
        requires source { HasData self.old.bytes offset (from + len) }
        requires target { HasData self.old.bytes offset (to + len) }
        ensures moved { OnOk result (ChangesCell self.old.bytes self.new.bytes offset
            (λ its now. Moves its now from to len)) }
        ensures saved { self.new.saved ≡ self.old.saved }
        ensures refused { IfErr result (λ why. why ≡ NoMemory) }
        ensures err { OnErr result (self.new ≡ self.old) }
    {
        changes::shift(
            &mut self.image,
            &mut self.log,
            self.limit,
            offset,
            from,
            to,
            len,
        )
    }

    /// Allocates a cell for bytes and `room` bytes more. Writes the bytes into it and zeros after them, up to the end
    /// of the cell. Answers the cell's offset.
    ///
    /// Refused with `NoMemory`, or with `TooLarge` if there is no room within 64 MiB. Nothing is changed then.
    pub fn insert(&mut self, source: &[u8], room: usize) -> Result<u32, Refusal>
        ensures added { IfOk result (λ offset.
            AddsCell self.old.bytes self.new.bytes offset source.now) }
        ensures room { IfOk result (λ offset. HasData self.new.bytes offset (length source.now + room)) }
        ensures eights { IfOk result (λ offset. offset % 8 ≡ 0) }
        ensures saved { self.new.saved ≡ self.old.saved }
        ensures refused { IfErr result (AllocRefused self.old.bytes (least_size (length source.now + room))) }
        ensures err { OnErr result (self.new ≡ self.old) }
    {
        changes::insert(&mut self.image, &mut self.log, self.limit, source, room)
    }

    /// Frees an allocated cell. Refused with `NoMemory` alone, and then nothing is changed.
    pub fn free(&mut self, offset: u32) -> Result<(), Refusal>
        requires { IsAllocatedCell self.old.bytes offset }
        ensures dropped { OnOk result (DropsCell self.old.bytes self.new.bytes offset) }
        ensures saved { self.new.saved ≡ self.old.saved }
        ensures refused { IfErr result (λ why. why ≡ NoMemory) }
        ensures err { OnErr result (self.new ≡ self.old) }
    {
        changes::free(&mut self.image, &mut self.log, self.limit, offset)
    }

    /// Takes back all changes since the savepoint. Takes no memory.
    pub fn roll_back(&mut self)
        ensures { self.new ≡ record { bytes = self.old.saved; saved = self.old.saved } }
    {
        self.image
            .restore(self.limit, self.log.order(), self.log.saved());
        self.log.clear();
    }

    /// Sets the savepoint to what is there. Grows a dirty vector of the data at the old savepoint to the data now, and
    /// marks in it the pages that differ. Takes no memory.
    pub fn release(&mut self, pages: &mut DirtyVector)
        requires { pages.old.bins_size ≡ length self.old.saved }
        ensures now { self.new ≡ record { bytes = self.old.bytes; saved = self.old.bytes } }
        ensures size { pages.new.bins_size ≡ length self.old.bytes }
        ensures marks { ChangesAreMarked self.old.saved pages.old self.old.bytes pages.new }
    {
        self.image.tiles(0); // for the prover
        let len = self.image.len();
        pages.grow(len);
        self.log.mark(self.image.bytes(), pages);
        self.log.clear();
        self.limit = len;
        self.before = Snapshot::of(&self.image);
    }

    /// How many bytes a roll back would put back or cut off: whole pages, and what the data got longer by.
    pub fn changed_bytes(&self) -> usize
        ensures { length self.now.bytes - length self.now.saved ≤ result }
    {
        self.log.len() + (self.image.len() - self.limit)
    }
}
