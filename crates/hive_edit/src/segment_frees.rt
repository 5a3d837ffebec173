//! Cells of data in segments that are freed.
ghost use Rattle.std.specs.Prelude.{◌≡◌, ◌+◌, ◌*◌, ◌∷◌, IfSome, Ok, IfErr};
ghost use Rattle.refusals.specs.declared.refusal.Refusal.TheVariants.{NoMemory};
ghost use Rattle.hive_cells.specs.Tiles.{IsAllocatedCell, u32_at, cell_data};
ghost use Rattle.hive_records.specs.Values.{segments_of};
ghost use Rattle.hive_edit.specs.DataPlaces.{FreesCells};
ghost use Rattle.hive_edit.specs.SegmentCells.{segment_words, segment_cells, record_segments};
ghost use Rattle.hive_edit.specs.declared.outcome.Edit.TheVariants as edit;

use crate::cell_frees::{free_cells, is_cell};
use crate::offsets::OFFSET;
use crate::outcome::Edit;
use hive_cells::Looks;
use hive_records::{segment_count, u32_at};
use hive_savepoint::SavepointImage;
use refusals::Refusal;

// where a value's record has its size field and the offset of its db, and a db the offset of its list
const SIZE: usize = 4;

const DB: usize = 8;

const LIST: usize = 4;

/// Frees a value's record, and its data, which are in segments.
pub(crate) fn free_big_record(image: &mut SavepointImage, at: u32) -> Result<Edit, Refusal>
    ensures freed { result ≡ Ok edit.Done → FreesCells image.old.bytes image.new.bytes
        (at ∷ record_segments image.old.bytes at) }
    ensures saved { image.new.saved ≡ image.old.saved }
    ensures refused { IfErr result (λ why. why ≡ NoMemory) }
{
    let Some(size) = word_at(image, at, SIZE) else {
        return Ok(Edit::Rebuild);
    };
    let Some(db) = word_at(image, at, DB) else {
        return Ok(Edit::Rebuild);
    };
    match free_big_data(image, db, size)? {
        Edit::Rebuild => Ok(Edit::Rebuild),
        Edit::Done => free_cells(image, &[at]),
    }
}

/// Frees data of a size in segments: a db, its list, and the segments.
pub(crate) fn free_big_data(image: &mut SavepointImage, db: u32, size: u32) -> Result<Edit, Refusal>
    ensures freed { result ≡ Ok edit.Done → FreesCells image.old.bytes image.new.bytes
        (segment_cells image.old.bytes db size) }
    ensures saved { image.new.saved ≡ image.old.saved }
    ensures refused { IfErr result (λ why. why ≡ NoMemory) }
{
    let Some(list) = word_at(image, db, LIST) else {
        return Ok(Edit::Rebuild);
    };
    match free_segments(image, list, size)? {
        Edit::Rebuild => Ok(Edit::Rebuild),
        Edit::Done => free_cells(image, &[db, list]),
    }
}

// frees the segments of data of a size, whose offsets are in a list
fn free_segments(image: &mut SavepointImage, list: u32, size: u32) -> Result<Edit, Refusal>
    ensures freed { result ≡ Ok edit.Done → FreesCells image.old.bytes image.new.bytes
        (segment_words image.old.bytes list (segments_of size)) }
    ensures saved { image.new.saved ≡ image.old.saved }
    ensures refused { IfErr result (λ why. why ≡ NoMemory) }
{
    let count = segment_count(size);
    for index in 0..count {
        let Some(word) = word_at(image, list, OFFSET * index) else {
            return Ok(Edit::Rebuild);
        };
        if word == list || !is_cell(image, word) {
            return Ok(Edit::Rebuild);
        }
        image.free(word)?;
    }
    Ok(Edit::Done)
}

/// The number of four bytes at a place of a cell's data.
pub(crate) fn word_at(image: &SavepointImage, at: u32, place: usize) -> Option<u32>
    ensures word { IfSome result (λ word. word ≡ u32_at (cell_data image.now.bytes at) place) }
    ensures there { IfSome result (λ word. IsAllocatedCell image.now.bytes at) }
{
    let mut looks = Looks::new();
    let Ok(cell) = image.cell(at, &mut looks) else {
        return None;
    };
    if cell.len() < OFFSET || cell.len() - OFFSET < place {
        return None;
    }
    Some(u32_at(cell, place))
}
