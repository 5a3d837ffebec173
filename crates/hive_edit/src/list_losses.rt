//! A key's lists of subkeys are freed.
ghost use Rattle.std.specs.Prelude.{◌≡◌, Ok, IfErr};
ghost use Rattle.refusals.specs.declared.refusal.Refusal.TheVariants.{NoMemory};
ghost use Rattle.hive_cells.specs.Tiles.{cell_data};
ghost use Rattle.hive_records.specs.Numbers.{words_from};
ghost use Rattle.hive_edit.specs.DataPlaces.{FreesCells};
ghost use Rattle.hive_edit.specs.ListCells.{lists_at};
ghost use Rattle.hive_edit.specs.declared.outcome.Edit.TheVariants as edit;

use crate::cell_frees::{free_cells, is_cell};
use crate::leaf_edit::leaf_shape;
use crate::offsets::OFFSET;
use crate::outcome::Edit;
use crate::segment_frees::word_at;
use hive_savepoint::SavepointImage;
use refusals::Refusal;

// where a list has its elements
const ELEMENTS: usize = 4;

/// Frees the list of subkeys at an offset, and the lists that it names if it is a list of lists.
pub(crate) fn free_lists(image: &mut SavepointImage, at: u32) -> Result<Edit, Refusal>
    ensures freed { result ≡ Ok edit.Done → FreesCells image.old.bytes image.new.bytes
        (lists_at image.old.bytes at) }
    ensures saved { image.new.saved ≡ image.old.saved }
    ensures refused { IfErr result (λ why. why ≡ NoMemory) }
{
    let Some(shape) = leaf_shape(image, at) else {
        return Ok(Edit::Rebuild);
    };
    if !shape.is_indirect {
        return free_cells(image, &[at]);
    }
    match free_leaves(image, at, shape.count)? {
        Edit::Rebuild => Ok(Edit::Rebuild),
        Edit::Done => free_cells(image, &[at]),
    }
}

// frees the lists whose offsets are the elements of a list of lists
fn free_leaves(image: &mut SavepointImage, at: u32, count: u16) -> Result<Edit, Refusal>
    ensures freed { result ≡ Ok edit.Done → FreesCells image.old.bytes image.new.bytes
        (words_from (cell_data image.old.bytes at) 4 4 count) }
    ensures saved { image.new.saved ≡ image.old.saved }
    ensures refused { IfErr result (λ why. why ≡ NoMemory) }
{
    for index in 0..count {
        let Some(leaf) = word_at(image, at, ELEMENTS + OFFSET * index as usize) else {
            return Ok(Edit::Rebuild);
        };
        if leaf == at || !is_cell(image, leaf) {
            return Ok(Edit::Rebuild);
        }
        image.free(leaf)?;
    }
    Ok(Edit::Done)
}
