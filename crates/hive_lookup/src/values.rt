//! One value of a key.
ghost use Rattle.std.specs.Prelude.{◌≡◌, ◌⊎◌, ℕ, Ok, MatchResult};
ghost use Rattle.refusals.specs.declared.refusal.Refusal.TheVariants.{NoMemory};
ghost use Rattle.reg_names.specs.Names.{folded};
ghost use Rattle.hive_cells.specs.Bins.{Cells, Shows};
ghost use Rattle.hive_records.specs.Images.{splits};
ghost use Rattle.hive_records.specs.Values.{value_at};
ghost use Rattle.hive_lookup.specs.declared.list_kind.ListKind.TheVariants.{Values};
ghost use Rattle.hive_lookup.specs.Lookups.{ErrorTells, IsUnreadFor, ListsNone, ListsOne, ValueBreaks};

use crate::errors::{LookupError, refused_at};
use crate::list_kind::ListKind;
use crate::lists::no_marks;
use crate::search::find_listed;
use hive_cells::{Image, Looks};
use hive_load_parts::value;
use hive_records::has_segments;
use refusals::Refusal;
use reg_names::ValueName;
use reg_tree_parts::Value;
use std::alloc::Global;

// the value whose record is at an offset, of an image of a minor version
fn value_of(alloc: Global, image: &Image, minor: u32, at: u32) -> Result<Value, Refusal>
    ensures { (cells : Cells) → Shows image.now.bytes cells → MatchResult result
        (λ its. (value_at (splits minor) at cells).says ≡ Ok its)
        (λ why. (why ≡ NoMemory) ⊎ IsUnreadFor (value_at (splits minor) at cells) why) }
{
    let mut seen = no_marks(alloc, image)?;
    let mut looks = Looks::new();
    match value(alloc, image, &mut seen, &mut looks, has_segments(minor), at) {
        Ok(its) => Ok(its),
        Err(refusal) => Err(refusal),
    }
}

/// The value of a name of the key at an offset, of an image of a minor version. Of the key's other values only the
/// records are read, with their names.
///
/// `NotFound` comes only if each value's record was read and none has the name. `Damaged` comes if the key's node, its
/// list of values or one of their records isn't read, if two have the name (`BadName`), and if the data of the value
/// aren't read.
pub fn read_value(
    alloc: Global,
    image: &Image,
    minor: u32,
    key: u32,
    name: &ValueName,
) -> Result<Value, LookupError>
    ensures { (cells : Cells) → Shows image.now.bytes cells → MatchResult result
        (λ its. (at : ℕ) × ListsOne Values cells key (folded name.now) at
        × ((value_at (splits minor) at cells).says ≡ Ok its))
        (ErrorTells (ListsNone Values cells key (folded name.now)) (ValueBreaks (splits minor) cells key (folded name.now))) }
{
    let at = match find_listed(alloc, image, ListKind::Values, key, name.name()) {
        Ok(at) => at,
        Err(error) => return Err(error),
    };
    match value_of(alloc, image, minor, at) {
        Ok(its) => Ok(its),
        Err(refusal) => Err(refused_at(refusal, at)),
    }
}
