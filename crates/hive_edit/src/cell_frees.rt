//! Cells that are freed.
ghost use Rattle.std.specs.Prelude.{◌≡◌, true, Ok, IfErr};
ghost use Rattle.refusals.specs.declared.refusal.Refusal.TheVariants.{NoMemory};
ghost use Rattle.hive_cells.specs.Tiles.{IsAllocatedCell};
ghost use Rattle.hive_edit.specs.DataPlaces.{FreesCells};
ghost use Rattle.hive_edit.specs.declared.outcome.Edit.TheVariants as edit;

use crate::outcome::Edit;
use hive_cells::Looks;
use hive_savepoint::SavepointImage;
use refusals::Refusal;

/// Frees cells. `Rebuild` if one of them isn't there.
pub(crate) fn free_cells(image: &mut SavepointImage, cells: &[u32]) -> Result<Edit, Refusal>
    ensures freed { result ≡ Ok edit.Done → FreesCells image.old.bytes image.new.bytes cells.now }
    ensures saved { image.new.saved ≡ image.old.saved }
    ensures refused { IfErr result (λ why. why ≡ NoMemory) }
{
    for &at in cells {
        if !is_cell(image, at) {
            return Ok(Edit::Rebuild);
        }
        image.free(at)?;
    }
    Ok(Edit::Done)
}

/// Whether an allocated cell begins at an offset.
pub(crate) fn is_cell(image: &SavepointImage, at: u32) -> bool
    ensures { result ≡ true → IsAllocatedCell image.now.bytes at }
{
    let mut looks = Looks::new();
    image.cell(at, &mut looks).is_ok()
}
