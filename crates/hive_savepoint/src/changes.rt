//! Changes of cells, each made once the pages that it writes are saved.
ghost use Rattle.std.specs.Prelude.{◌≡◌, ℕ, ◌+◌, ◌/◌, ◌%◌, ◌<◌, ◌≤◌, IfErr, IfOk, OnOk, OnErr, List, length};
ghost use Rattle.refusals.specs.declared.limits.TheConstants.{MOST_BINS_BYTES};
ghost use Rattle.refusals.specs.declared.refusal.Refusal.TheVariants.{NoMemory};
ghost use Rattle.hive_cells.specs.Changes.{Allocates, Frees, Writes, least_size};
ghost use Rattle.hive_cells.specs.Tiles.{HasFree, IsAllocatedCell, IsFreeCell, cell_size};
ghost use Rattle.hive_cells.specs.Restores.{HasPage};
ghost use Rattle.hive_savepoint.specs.SavedPages.{Extends, LeadsBack};
ghost use Rattle.hive_savepoint.specs.Savepoints.{AllocRefused};
ghost use Rattle.hive_savepoint.specs.Puts.{HasData, Overlays, Moves, ChangesCell, AddsCell, DropsCell};

use crate::log::UndoLog;
use hive_cells::Image;
use refusals::Refusal;
use refusals::limits::MOST_BINS_BYTES;

// the bytes of a cell's size, which come before its data
const SIZE_BYTES: usize = 4;

// sizes of cells are multiples of these bytes
const CELL_BYTES: usize = 8;

// bins are multiples of these bytes
const BIN_BYTES: usize = 4096;

// the bytes of a bin's header
const BIN_HEADER_BYTES: usize = 32;

// a new cell and the size of the free cell after it take no more bytes beside the data
const MOST_BESIDE: usize = 24;

const _: () = prove!(SIZE_BYTES == 4);

const _: () = prove!(MOST_BESIDE == 24);

/// Writes bytes into the data of an allocated cell, from the byte `at` of the data on.
pub(crate) fn write(
    image: &mut Image,
    log: &mut UndoLog,
    limit: usize,
    offset: u32,
    at: usize,
    source: &[u8],
) -> Result<(), Refusal>
    requires within { limit ≤ length image.old.bytes }
    requires most { limit ≤ MOST_BINS_BYTES }
    requires pages { limit % 512 ≡ 0 }
    requires room { HasData image.old.bytes offset (at + length source.now) }
    ensures back { (saved : List ℕ) → LeadsBack saved image.old.bytes log.old limit →
        LeadsBack saved image.new.bytes log.new limit }
    ensures written { OnOk result (ChangesCell image.old.bytes image.new.bytes offset
        (λ its now. Overlays its now at source.now)) }
    ensures refused { IfErr result (λ why. why ≡ NoMemory) }
    ensures err { OnErr result (image.new.bytes ≡ image.old.bytes) }
{
    let from = offset as usize + SIZE_BYTES + at;
    log.save(image.bytes(), limit, from, from + source.len())?;
    image.write(offset, at, source)?;
    Ok(())
}

/// Moves bytes within the data of an allocated cell.
pub(crate) fn shift(
    image: &mut Image,
    log: &mut UndoLog,
    limit: usize,
    offset: u32,
    from: usize,
    to: usize,
    len: usize,
) -> Result<(), Refusal>
    requires within { limit ≤ length image.old.bytes }
    requires most { limit ≤ MOST_BINS_BYTES }
    requires pages { limit % 512 ≡ 0 }
    requires source { HasData image.old.bytes offset (from + len) }
    requires target { HasData image.old.bytes offset (to + len) }
    ensures back { (saved : List ℕ) → LeadsBack saved image.old.bytes log.old limit →
        LeadsBack saved image.new.bytes log.new limit }
    ensures moved { OnOk result (ChangesCell image.old.bytes image.new.bytes offset
        (λ its now. Moves its now from to len)) }
    ensures refused { IfErr result (λ why. why ≡ NoMemory) }
    ensures err { OnErr result (image.new.bytes ≡ image.old.bytes) }
{
    let first = offset as usize + SIZE_BYTES + to;
    log.save(image.bytes(), limit, first, first + len)?;
    image.shift(offset, from, to, len)?;
    Ok(())
}

/// Allocates a cell for bytes and `room` bytes more, and writes the bytes and zeros into it.
pub(crate) fn insert(
    image: &mut Image,
    log: &mut UndoLog,
    limit: usize,
    source: &[u8],
    room: usize,
) -> Result<u32, Refusal>
    requires within { limit ≤ length image.old.bytes }
    requires whole { length image.old.bytes ≤ MOST_BINS_BYTES }
    requires pages { limit % 512 ≡ 0 }
    ensures back { (saved : List ℕ) → LeadsBack saved image.old.bytes log.old limit →
        LeadsBack saved image.new.bytes log.new limit }
    ensures added { IfOk result (λ offset.
        AddsCell image.old.bytes image.new.bytes offset source.now) }
    ensures room { IfOk result (λ offset. HasData image.new.bytes offset (length source.now + room)) }
    ensures eights { IfOk result (λ offset. offset % 8 ≡ 0) }
    ensures refused { IfErr result (AllocRefused image.old.bytes (least_size (length source.now + room))) }
    ensures err { OnErr result (image.new.bytes ≡ image.old.bytes) }
{
    image.tiles(0); // for the prover
    if source.len() > MOST_BINS_BYTES || room > MOST_BINS_BYTES - source.len() {
        return Err(Refusal::TooLarge);
    }
    let offset = alloc(image, log, limit, source.len() + room)?;
    image.fill(offset, source);
    Ok(offset)
}

/// Frees an allocated cell.
pub(crate) fn free(
    image: &mut Image,
    log: &mut UndoLog,
    limit: usize,
    offset: u32,
) -> Result<(), Refusal>
    requires within { limit ≤ length image.old.bytes }
    requires whole { length image.old.bytes ≤ MOST_BINS_BYTES }
    requires pages { limit % 512 ≡ 0 }
    requires cell { IsAllocatedCell image.old.bytes offset }
    ensures back { (saved : List ℕ) → LeadsBack saved image.old.bytes log.old limit →
        LeadsBack saved image.new.bytes log.new limit }
    ensures dropped { OnOk result (DropsCell image.old.bytes image.new.bytes offset) }
    ensures refused { IfErr result (λ why. why ≡ NoMemory) }
    ensures err { OnErr result (image.new.bytes ≡ image.old.bytes) }
{
    let at = offset as usize;
    let from = image.merges_from(offset) as usize;
    log.save(image.bytes(), limit, at, at + SIZE_BYTES)?;
    log.save(image.bytes(), limit, from, from + SIZE_BYTES)?;
    image.free(offset)?;
    Ok(())
}

// allocates a cell for data of a length, from a free cell or in a new bin
fn alloc(image: &mut Image, log: &mut UndoLog, limit: usize, len: usize) -> Result<u32, Refusal>
    requires within { limit ≤ length image.old.bytes }
    requires whole { length image.old.bytes ≤ MOST_BINS_BYTES }
    requires pages { limit % 512 ≡ 0 }
    requires fits { len ≤ MOST_BINS_BYTES }
    ensures back { (saved : List ℕ) → LeadsBack saved image.old.bytes log.old limit →
        LeadsBack saved image.new.bytes log.new limit }
    ensures allocated { IfOk result (λ offset.
        Allocates image.old.bytes image.new.bytes len offset) }
    ensures saved { IfOk result (λ offset. (i : ℕ) → offset ≤ i →
        i < offset + cell_size image.new.bytes offset → i < limit → HasPage log.new.order (i / 512)) }
    ensures refused { IfErr result (AllocRefused image.old.bytes (least_size len)) }
    ensures err { OnErr result (image.new.bytes ≡ image.old.bytes) }
{
    match image.place_for(len) {
        Some(place) => {
            take_place(image, log, limit, len, place)?;
            Ok(place)
        }
        None => add_place(image, len),
    }
}

// allocates a cell from a free cell that is long enough
fn take_place(
    image: &mut Image,
    log: &mut UndoLog,
    limit: usize,
    len: usize,
    place: u32,
) -> Result<(), Refusal>
    requires within { limit ≤ length image.old.bytes }
    requires whole { length image.old.bytes ≤ MOST_BINS_BYTES }
    requires pages { limit % 512 ≡ 0 }
    requires fits { len ≤ MOST_BINS_BYTES }
    requires free { IsFreeCell image.old.bytes place }
    requires long { least_size len ≤ cell_size image.old.bytes place }
    ensures back { (saved : List ℕ) → LeadsBack saved image.old.bytes log.old limit →
        LeadsBack saved image.new.bytes log.new limit }
    ensures allocated { OnOk result (Allocates image.old.bytes image.new.bytes len place) }
    ensures saved { OnOk result ((i : ℕ) → place ≤ i →
        i < place + cell_size image.new.bytes place → i < limit → HasPage log.new.order (i / 512)) }
    ensures refused { IfErr result (λ why. why ≡ NoMemory) }
    ensures err { OnErr result (image.new.bytes ≡ image.old.bytes) }
{
    let from = place as usize;
    log.save(image.bytes(), limit, from, from + len + MOST_BESIDE)?;
    image.alloc_at(len, place);
    Ok(())
}

// allocates a cell in a new bin
fn add_place(image: &mut Image, len: usize) -> Result<u32, Refusal>
    requires whole { length image.old.bytes ≤ MOST_BINS_BYTES }
    requires fits { len ≤ MOST_BINS_BYTES }
    requires none { ¬ HasFree image.old.bytes (least_size len) }
    ensures allocated { IfOk result (λ offset.
        Allocates image.old.bytes image.new.bytes len offset) }
    ensures after { IfOk result (λ offset. length image.old.bytes ≤ offset) }
    ensures extends { Extends image.old.bytes image.new.bytes }
    ensures refused { IfErr result (AllocRefused image.old.bytes (least_size len)) }
    ensures err { OnErr result (image.new.bytes ≡ image.old.bytes) }
{
    let size = (len + SIZE_BYTES).div_ceil(CELL_BYTES) * CELL_BYTES;
    let bin = (size + BIN_HEADER_BYTES).div_ceil(BIN_BYTES) * BIN_BYTES;
    if bin <= MOST_BINS_BYTES {
        image.reserve(bin)?;
    }
    let offset = image.alloc(len)?;
    Ok(offset)
}
