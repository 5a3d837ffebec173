//! The name in a key's record.
ghost use Rattle.std.specs.Prelude.{◌≡◌, IfOk, MatchResult, Ok, Bool};
ghost use Rattle.reg_tree_parts.specs.Rows.{Row};
ghost use Rattle.hive_cells.specs.Bins.{Cells, Shows};
ghost use Rattle.hive_tree_model.specs.Keys.{KeyParts};
ghost use Rattle.hive_records.specs.KeyNodes.{keys_in};
ghost use Rattle.hive_records.specs.RecordReaders.{units_of};

use crate::errors::{ImageError, refused_at};
use hive_cells::{Image, Looks};
use hive_records::{KeyNode, StoredName};
use key_walk::KeyPath;
use reg_names::Name;
use std::alloc::{AllocError, Global};

// the name that lies in a record
fn name_of(alloc: Global, stored: &StoredName) -> Result<Name, AllocError>
    ensures { IfOk result (λ name. name ≡ units_of stored.now) }
{
    let mut units = Vec::new(alloc);
    for place in 0..stored.len() {
        units.push(stored.unit(place))?;
    }
    Name::stored(alloc, &units)
}

/// The name of the key at an offset, listed by the key to which a way leads. A key that can be read is refused only for
/// want of memory.
pub(crate) fn key_name(
    alloc: Global,
    image: &Image,
    above: &KeyPath<'_>,
    at: u32,
) -> Result<Name, ImageError>
    ensures { (cells : Cells) → Shows image.now.bytes cells → (split : Bool) (parts : KeyParts Row) →
        keys_in split cells at ≡ Ok parts → MatchResult result (λ name. name ≡ parts.row.name)
        (λ error. error ≡ ImageError.NoMemory) }
{
    let mut looks = Looks::new();
    let cell = match image.cell(at, &mut looks) {
        Ok(cell) => cell,
        Err(refusal) => return Err(refused_at(alloc, above, at, refusal)),
    };
    let node = match KeyNode::read(cell) {
        Ok(node) => node,
        Err(refusal) => return Err(refused_at(alloc, above, at, refusal)),
    };
    Ok(name_of(alloc, &node.name)?)
}
