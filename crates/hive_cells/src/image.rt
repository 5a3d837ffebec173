//! Hive bins data whose bins and cells tile, with its cells by their offsets.
ghost use Rattle.std.specs.Prelude.{◌≡◌, ◌+◌, ◌-◌, ◌^◌, ◌<◌, ◌*◌, ◌/◌, ◌%◌, ◌≤◌, List, ℕ, MatchResult, MatchOption, IfOk, IsTrue, ◌↔◌, ◌++◌, min, length, replicate, slice_range, slice_index};
ghost use Rattle.std.specs.List.{AllByRecursion};
ghost use Rattle.std.specs.Vec.{vec_capacity};
ghost use Rattle.hive_cells.specs.Bins.{Bins, bins_code, Cells, Shows};
ghost use Rattle.hive_cells.specs.Tiles.{Tiles, LiesInOneTile, DataRefused, IsAllocatedCell, IsFreeCell, HasFree, cell_data, cell_size, is_allocated};
ghost use Rattle.hive_cells.specs.Starts.{IsImage};
ghost use Rattle.hive_cells.specs.Changes.{RewritesWithin, Frees, FreeRefused, Allocates, RoomRefused, HasRoom, UsesSpare, Writes, least_size};

mod edits;
mod growth;
mod lookup;
mod places;
mod saved_pages;

use crate::free_bounds::FreeBounds;
use crate::looks::Looks;
use crate::moves::move_bytes;
use crate::tiling::{MARKED_BYTES, index_of};
use refusals::limits::MOST_BINS_BYTES;
use refusals::{Cause, Refusal};
use std::alloc::Global;
use std::marker::Model;

// the bytes of a cell's size, which come before its data
const SIZE_BYTES: usize = 4;

const _: () = prove!(SIZE_BYTES == 4);

/// Hive bins data that bins and cells tile. Bins follow one another and fill the data. The cells of a bin follow its
/// header of 32 bytes and fill the bin. Contracts see an image as its bytes and a number of spare bytes. The image may
/// get longer by that number without memory.
///
/// An image keeps its bytes, and a bit for each 8 of them. With the bits a cell is found without a walk. For each page
/// of 4,096 bytes it keeps a bound of the sizes of the page's free cells. With the bounds a free cell is found for an
/// allocation. All this takes 1/64 of the bytes and 66,048 bytes beside the bytes.
#[derive(Drop)]
pub struct Image {
    bytes: Vec<u8>,
    starts: Vec<u64>,
    free: FreeBounds,
    spare: usize,
}

impl Model for Image {
    ghost Value = { Bins };

    ghost coded = { bins_code };

    ghost view = { λ image. record { bytes = image.bytes.items; spare = image.spare } };

    ghost invariant = { λ image. IsImage image.bytes.items image.starts.items image.free
        image.spare (vec_capacity image.bytes) (vec_capacity image.starts) };
}

/// Bytes that are not opened as an image, given back with the reason.
#[derive(Drop)]
pub struct ImageOpenError {
    /// Why the bytes are no image.
    pub refusal: Refusal,
    /// The bytes.
    pub bytes: Vec<u8>,
}

impl From<ImageOpenError> for Refusal {
    ghost from_gives = { λ unopened refusal. refusal ≡ unopened.refusal };

    fn from(unopened: ImageOpenError) -> Refusal {
        unopened.refusal
    }
}

impl Image {
    /// Goes over the bytes of hive bins data once. Empty data are an image without bins.
    ///
    /// Refused with `HiveDamaged` of hive 0 exactly if bins and cells don't tile the data, with a cause that is true of
    /// them. `Truncated` if they are not whole pages of 4,096 bytes. `BadBin` if a bin's signature, offset or size is
    /// wrong, or the bin doesn't end within the data. `BadCell` if a cell's size is no multiple of 8, is below 8, or
    /// passes the end of its bin. Refused with `NoMemory` if memory for the bits and the bounds was not given. A
    /// refusal gives the bytes back.
    pub fn open(alloc: Global, bytes: Vec<u8>) -> Result<Image, ImageOpenError>
        ensures { MatchResult result
            (λ image. (image ≡ record { bytes = bytes.items; spare = 0 }) × Tiles bytes.items)
            (λ unopened. (unopened.bytes.items ≡ bytes.items)
            × DataRefused bytes.items unopened.refusal) }
    {
        match index_of(alloc, &bytes) {
            Ok((starts, free)) => Ok(Image {
                bytes,
                starts,
                free,
                spare: 0,
            }),
            Err(refusal) => Err(ImageOpenError { refusal, bytes }),
        }
    }

    /// The law of every image: bins and cells tile it. Each byte lies in the header of one bin or in one cell, and in
    /// nothing else. The allocated cells are a function of offsets. The image's bytes are bytes. Does nothing.
    pub fn tiles(&self, at: usize)
        ensures tiles { Tiles self.now.bytes }
        ensures bytes { AllByRecursion (λ b. b < 0x100) self.now.bytes }
        ensures once { at < length self.now.bytes → LiesInOneTile self.now.bytes at }
        ensures shown { (cells : Cells) × Shows self.now.bytes cells }
    {
        are_bytes(&self.bytes); // for the prover
    }

    /// The bytes of the data.
    pub fn len(&self) -> usize
        ensures { result ≡ length self.now.bytes }
    {
        self.bytes.len()
    }

    /// Whether the data have no bin.
    pub fn is_empty(&self) -> bool
        ensures { IsTrue result ↔ (length self.now.bytes ≡ 0) }
    {
        self.bytes.is_empty()
    }

    /// The bytes of the data, given back without taking memory.
    pub fn into_bytes(self) -> Vec<u8>
        ensures { result.items ≡ self.bytes }
    {
        let Image {
            bytes,
            starts: _,
            free: _,
            spare: _,
        } = self;
        bytes
    }

    /// The data of the allocated cell that begins at an offset: its bytes after its size. Takes no memory. Each call,
    /// also a refused one, counts one look.
    ///
    /// Refused with `HiveDamaged` of hive 0 and `BadOffset` exactly if no allocated cell begins there.
    pub fn cell(&self, offset: u32, looks: &mut Looks) -> Result<&[u8], Refusal>
        ensures found { MatchResult result
            (λ lent. IsAllocatedCell self.now.bytes offset
            × (lent.now ≡ cell_data self.now.bytes offset))
            (λ refusal. (refusal ≡ Refusal.HiveDamaged 0 Cause.BadOffset)
            × (¬ IsAllocatedCell self.now.bytes offset)) }
        ensures size { IfOk result (λ lent. length lent.now + 4 ≡ cell_size self.now.bytes offset) }
        ensures eights { IfOk result (λ lent. offset % 8 ≡ 0) }
        ensures within { IfOk result (λ lent. offset + cell_size self.now.bytes offset ≤ length
            self.now.bytes) }
        ensures look { looks.new ≡ min (looks.old + 1) (2 ^ 64 - 1) }
    {
        looks.raise();
        let at = offset as usize;
        if self.is_allocated(at) {
            Ok(self.data_at(at))
        } else {
            Err(Refusal::from(Cause::BadOffset))
        }
    }

    /// Writes bytes into the data of the allocated cell that begins at an offset, from the byte `at` of the data on.
    /// The caller makes sure that they fit the cell. Only these bytes of the image are written. Takes no memory.
    ///
    /// Refused with `HiveDamaged` of hive 0 and `BadOffset` exactly if no allocated cell begins there.
    pub fn write(&mut self, offset: u32, at: usize, source: &[u8]) -> Result<(), Refusal>
        requires { IsAllocatedCell self.old.bytes offset →
            4 + at + length source.now ≤ cell_size self.old.bytes offset }
        ensures written { MatchResult result
            (λ _. Writes self.old.bytes self.new.bytes offset (offset + 4 + at)
            (offset + 4 + at + length source.now)
            × (slice_range self.new.bytes (offset + 4 + at) (offset + 4 + at + length source.now)
            ≡ source.now))
            (λ refusal. (self.new ≡ self.old) × (refusal ≡ Refusal.HiveDamaged 0 Cause.BadOffset)
            × (¬ IsAllocatedCell self.old.bytes offset)) }
        ensures spare { self.new.spare ≡ self.old.spare }
    {
        let cell = offset as usize;
        if !self.is_allocated(cell) {
            return Err(Refusal::from(Cause::BadOffset));
        }
        put_bytes(&mut self.bytes, cell + SIZE_BYTES + at, source);
        Ok(())
    }

    /// Writes bytes into the data of the allocated cell that begins at an offset, from the first byte of the data on,
    /// and zeros after them up to the end of the cell. Takes no memory.
    pub fn fill(&mut self, offset: u32, source: &[u8])
        requires cell { IsAllocatedCell self.old.bytes offset }
        requires room { 4 + length source.now ≤ cell_size self.old.bytes offset }
        ensures written { Writes self.old.bytes self.new.bytes offset (offset + 4)
            (offset + cell_size self.old.bytes offset) }
        ensures data { cell_data self.new.bytes offset ≡ source.now
            ++ replicate (cell_size self.old.bytes offset - (4 + length source.now)) 0 }
        ensures spare { self.new.spare ≡ self.old.spare }
    {
        let cell = offset as usize;
        let end = cell + self.size_at(cell);
        put_filled(&mut self.bytes, cell + SIZE_BYTES, end, source);
    }

    /// Moves `len` bytes within the data of the allocated cell that begins at an offset, from the byte `from` of the
    /// data to the byte `to`. The two places may overlap. Only the bytes that they are moved to are written. The caller
    /// makes sure that both places lie in the cell. Takes no memory.
    ///
    /// Refused with `HiveDamaged` of hive 0 and `BadOffset` exactly if no allocated cell begins there.
    pub fn shift(&mut self, offset: u32, from: usize, to: usize, len: usize) -> Result<(), Refusal>
        requires source { IsAllocatedCell self.old.bytes offset →
            4 + from + len ≤ cell_size self.old.bytes offset }
        requires target { IsAllocatedCell self.old.bytes offset →
            4 + to + len ≤ cell_size self.old.bytes offset }
        ensures moved { MatchResult result
            (λ _. Writes self.old.bytes self.new.bytes offset (offset + 4 + to)
            (offset + 4 + to + len)
            × ((j : ℕ) → j < len → slice_index self.new.bytes (offset + 4 + to + j)
            ≡ slice_index self.old.bytes (offset + 4 + from + j)))
            (λ refusal. (self.new ≡ self.old) × (refusal ≡ Refusal.HiveDamaged 0 Cause.BadOffset)
            × (¬ IsAllocatedCell self.old.bytes offset)) }
        ensures spare { self.new.spare ≡ self.old.spare }
    {
        let cell = offset as usize;
        if !self.is_allocated(cell) {
            return Err(Refusal::from(Cause::BadOffset));
        }
        let data = cell + SIZE_BYTES;
        move_bytes(&mut self.bytes, data + from, data + to, len);
        Ok(())
    }

    /// Frees the allocated cell that begins at an offset. Merges it with the free cell that ends there and with the
    /// free cell that begins where it ends. Answers the offset of the free cell in which it now lies. Only the four
    /// bytes at that offset and the four bytes at the given offset are written. Never refused for want of memory.
    ///
    /// Refused with `TooLarge` exactly if the data are longer than the limit. Otherwise refused with `HiveDamaged` of
    /// hive 0 and `BadOffset` exactly if no allocated cell begins there.
    pub fn free(&mut self, offset: u32) -> Result<u32, Refusal>
        ensures freed { MatchResult result (λ from. Frees self.old.bytes self.new.bytes offset from)
            (λ refusal. (self.new ≡ self.old) × FreeRefused self.old.bytes offset refusal) }
        ensures spare { self.new.spare ≡ self.old.spare }
    {
        let at = offset as usize;
        if self.bytes.len() > MOST_BINS_BYTES {
            return Err(Refusal::TooLarge);
        }
        if !self.is_allocated(at) {
            return Err(Refusal::from(Cause::BadOffset));
        }
        let from = self.give_back(at);
        Ok(from as u32)
    }

    /// Allocates a cell for data of a length, and answers its offset. The cell's size is the length and four bytes,
    /// rounded up to a multiple of 8. It is 8 bytes more if exactly 8 bytes would be left over. A free cell that is
    /// long enough is taken. If there is none, the least bin for the cell is added after the data, and its free cell is
    /// taken. What is left over is one free cell, and all other free cells stay. Of the old data, only the four bytes
    /// of the cell's size are written and, if something is left over, the four bytes after the cell. The data of the
    /// new cell are not specified.
    ///
    /// Refused with `TooLarge` exactly if the data are longer than the limit, or if no free cell is long enough and a
    /// new bin would take the data over the limit. Otherwise refused with `NoMemory` if no free cell is long enough and
    /// fewer bytes are spare than the bin has.
    pub fn alloc(&mut self, len: usize) -> Result<u32, Refusal>
        ensures allocated { MatchResult result
            (λ offset. Allocates self.old.bytes self.new.bytes len offset)
            (λ refusal. (self.new ≡ self.old) × RoomRefused self.old (least_size len) refusal) }
        ensures spare { UsesSpare self.old self.new }
    {
        if self.bytes.len() > MOST_BINS_BYTES || len > MOST_BINS_BYTES {
            return Err(Refusal::TooLarge);
        }
        let size = size_for(len);
        let at = self.find_room(size)?;
        self.take(at, size);
        Ok(at as u32)
    }

    // a free cell of at least a size, in the data or, if there is none, in a bin that is added
    fn find_room(&mut self, size: usize) -> Result<usize, Refusal>
        requires limit { length self.old.bytes ≤ MOST_BINS_BYTES }
        requires some { 0 < size }
        requires fits { size ≤ MOST_BINS_BYTES + 16 }
        ensures { MatchResult result (λ at. HasRoom self.old.bytes self.new.bytes at size
            × UsesSpare self.old self.new)
            (λ refusal. (self.new ≡ self.old) × RoomRefused self.old size refusal) }
    {
        let _ = &self.bytes; // for the prover
        match self.find_free(size) {
            Some(at) => Ok(at),
            None => self.add_bin(size),
        }
    }
}

// the least size of a cell for data of a length
fn size_for(len: usize) -> usize
    requires { len ≤ MOST_BINS_BYTES }
    ensures size { result ≡ least_size len }
    ensures eights { result % 8 ≡ 0 }
    ensures least { 8 ≤ result }
    ensures most { result ≤ MOST_BINS_BYTES + 16 }
{
    (len + SIZE_BYTES).div_ceil(MARKED_BYTES) * MARKED_BYTES
}

// the law of bytes: each is below 0x100
fn are_bytes(bytes: &[u8])
    ensures { AllByRecursion (λ b. b < 0x100) bytes.now }
{
    let _ = bytes; // for the prover
}

// writes bytes from an offset on
fn put_bytes(bytes: &mut [u8], from: usize, source: &[u8])
    requires { from + length source.now ≤ length bytes.old }
    ensures written { RewritesWithin bytes.old bytes.new from (from + length source.now) }
    ensures encoding { slice_range bytes.new from (from + length source.now) ≡ source.now }
{
    bytes[from..from + source.len()].copy_from_slice(source);
}

// writes bytes from an offset on, and zeros after them up to another offset
fn put_filled(bytes: &mut [u8], from: usize, to: usize, source: &[u8])
    requires within { to ≤ length bytes.old }
    requires room { from + length source.now ≤ to }
    ensures written { RewritesWithin bytes.old bytes.new from to }
    ensures encoding { slice_range bytes.new from to
        ≡ source.now ++ replicate (to - (from + length source.now)) 0 }
{
    put_bytes(bytes, from, source);
    put_zeros(bytes, from + source.len(), to);
}

// writes zeros from an offset up to another
fn put_zeros(bytes: &mut [u8], from: usize, to: usize)
    requires within { to ≤ length bytes.old }
    requires order { from ≤ to }
    ensures written { RewritesWithin bytes.old bytes.new from to }
    ensures zeros { slice_range bytes.new from to ≡ replicate (to - from) 0 }
{
    bytes[from..to].fill(0);
}
