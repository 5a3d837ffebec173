//! Single records of an image, and their names.
ghost use Rattle.std.specs.Prelude.{◌≡◌, ◌⊎◌, ℕ, List, Ok, Err, IsOk, None, Some, MatchResult};
ghost use Rattle.refusals.specs.declared.refusal.Refusal.TheVariants.{NoMemory};
ghost use Rattle.reg_names.specs.Names.{folded};
ghost use Rattle.hive_cells.specs.Bins.{Cells, Shows};
ghost use Rattle.hive_records.specs.Heads.{IsKeyNode};
ghost use Rattle.hive_records.specs.RecordReaders.{units_of};
ghost use Rattle.hive_lookup.specs.declared.list_kind.ListKind.TheVariants.{Subkeys};
ghost use Rattle.hive_lookup.specs.Records.{fault_of, record_at, name_in_record, is_named};

use crate::list_kind::ListKind;
use hive_cells::{Image, Looks};
use hive_load_parts::name_of;
use hive_records::{KeyNode, StoredName, ValueRec};
use refusals::Refusal;
use reg_names::Name;
use std::alloc::Global;

/// The key node at an offset. Refused with `BadOffset` if no allocated cell begins there, and as [`KeyNode::read`] refuses
/// its data.
pub fn key_node<'a>(image: &'a Image, at: u32) -> Result<KeyNode<'a>, Refusal>
    ensures { (cells : Cells) → Shows image.now.bytes cells → MatchResult result
        (λ node. (bytes : List ℕ) × (record_at Subkeys cells at ≡ Ok bytes) × IsKeyNode node bytes)
        (λ why. record_at Subkeys cells at ≡ Err why) }
{
    let mut looks = Looks::new();
    let cell = match image.cell(at, &mut looks) {
        Ok(cell) => cell,
        Err(refusal) => return Err(refusal),
    };
    match KeyNode::read(cell) {
        Ok(node) => Ok(node),
        Err(refusal) => Err(refusal),
    }
}

// the name in the data of a record
fn stored_name<'a>(kind: ListKind, cell: &'a [u8]) -> Result<StoredName<'a>, Refusal>
    ensures { MatchResult result
        (λ stored. (fault_of kind cell.now ≡ None) × (units_of stored ≡ name_in_record kind cell.now))
        (λ why. fault_of kind cell.now ≡ Some why) }
{
    match kind {
        ListKind::Subkeys => match KeyNode::read(cell) {
            Ok(node) => Ok(node.name),
            Err(refusal) => Err(refusal),
        },
        ListKind::Values => match ValueRec::read(cell) {
            Ok(value) => Ok(value.name),
            Err(refusal) => Err(refusal),
        },
    }
}

/// The name in the record at an offset, as it is spelled.
///
/// Refused with `BadOffset` if no allocated cell begins there, as the record's own rules refuse it, and with `NoMemory`.
pub fn record_name(alloc: Global, image: &Image, kind: ListKind, at: u32) -> Result<Name, Refusal>
    ensures { (cells : Cells) → Shows image.now.bytes cells → MatchResult result
        (λ name. (bytes : List ℕ) × (record_at kind cells at ≡ Ok bytes) × (name ≡ name_in_record kind bytes))
        (λ why. (why ≡ NoMemory) ⊎ (record_at kind cells at ≡ Err why)) }
{
    let mut looks = Looks::new();
    let cell = match image.cell(at, &mut looks) {
        Ok(cell) => cell,
        Err(refusal) => return Err(refusal),
    };
    let stored = match stored_name(kind, cell) {
        Ok(stored) => stored,
        Err(refusal) => return Err(refusal),
    };
    Ok(name_of(alloc, &stored)?)
}

/// Whether the record at an offset has a name, in any case of its letters. Refused as [`record_name`] is.
pub(crate) fn has_name(
    alloc: Global,
    image: &Image,
    kind: ListKind,
    at: u32,
    name: &Name,
) -> Result<bool, Refusal>
    ensures { (cells : Cells) → Shows image.now.bytes cells → MatchResult result
        (λ same. IsOk (record_at kind cells at) × (same ≡ is_named kind cells (folded name.now) at))
        (λ why. (why ≡ NoMemory) ⊎ (record_at kind cells at ≡ Err why)) }
{
    match record_name(alloc, image, kind, at) {
        Ok(its) => Ok(its == *name),
        Err(refusal) => Err(refusal),
    }
}
