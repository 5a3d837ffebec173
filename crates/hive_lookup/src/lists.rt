//! The lists of a key.
ghost use Rattle.std.specs.Prelude.{◌≡◌, ◌⊎◌, ◌≤◌, ◌*◌, ℕ, List, Ok, false, length, IfOk, MatchResult};
ghost use Rattle.refusals.specs.declared.refusal.Refusal.TheVariants.{NoMemory};
ghost use Rattle.hive_cells.specs.Bins.{Cells, Shows};
ghost use Rattle.hive_records.specs.Lists.{subkeys_at};
ghost use Rattle.hive_records.specs.Numbers.{words_from};
ghost use Rattle.hive_load_parts.specs.CellReads.{marks_of};
ghost use Rattle.hive_lookup.specs.Records.{value_offsets_at};
ghost use Rattle.hive_lookup.specs.Lookups.{IsUnreadFor, KeyLists, ListIsUnread};

use crate::list_kind::ListKind;
use crate::records::key_node;
use hive_cells::{Image, Looks};
use hive_load_parts::{Flags, subkey_list};
use hive_records::u32_at;
use refusals::{Cause, Refusal};
use std::alloc::{AllocError, Global};

// bytes in which at most one cell begins
const FLAGGED_BYTES: usize = 8;

const _: () = prove!(FLAGGED_BYTES == 8);

// the bytes of an offset in a list
const OFFSET: usize = 4;

const _: () = prove!(OFFSET == 4);

/// A flag for each cell that may be in an image, none of them set.
pub fn no_marks(alloc: Global, image: &Image) -> Result<Flags, AllocError>
    ensures covers { IfOk result (λ seen. length image.now.bytes ≤ 8 * length seen) }
    ensures unset { IfOk result (λ seen. (at : ℕ) → marks_of seen at ≡ false) }
{
    Flags::new(alloc, image.len().div_ceil(FLAGGED_BYTES))
}

// the offsets of the subkeys of a key that says how many they are and where their list is
fn subkey_offsets(alloc: Global, image: &Image, count: u32, at: u32) -> Result<Vec<u32>, Refusal>
    ensures { (cells : Cells) → Shows image.now.bytes cells → MatchResult result
        (λ listed. (subkeys_at count at cells).says ≡ Ok listed.items)
        (λ why. (why ≡ NoMemory) ⊎ IsUnreadFor (subkeys_at count at cells) why) }
{
    let mut seen = no_marks(alloc, image)?;
    let mut looks = Looks::new();
    match subkey_list(alloc, image, &mut seen, &mut looks, count, at) {
        Ok(listed) => Ok(listed),
        Err(refusal) => Err(refusal),
    }
}

// the offsets in a list's data
fn offsets_in(alloc: Global, list: &[u8], count: u32) -> Result<Vec<u32>, AllocError>
    requires { 4 * count ≤ length list.now }
    ensures { IfOk result (λ listed. listed.items ≡ words_from list.now 0 4 count) }
{
    let mut listed = Vec::new(alloc);
    for index in 0..count as usize {
        listed.push(u32_at(list, OFFSET * index))?;
    }
    Ok(listed)
}

// the offsets of the values of a key that says how many they are and where their list is
fn value_offsets(alloc: Global, image: &Image, count: u32, at: u32) -> Result<Vec<u32>, Refusal>
    ensures { (cells : Cells) → Shows image.now.bytes cells → MatchResult result
        (λ listed. (value_offsets_at count at cells).says ≡ Ok listed.items)
        (λ why. (why ≡ NoMemory) ⊎ IsUnreadFor (value_offsets_at count at cells) why) }
{
    if count == 0 {
        return Ok(Vec::new(alloc));
    }
    let mut looks = Looks::new();
    let list = match image.cell(at, &mut looks) {
        Ok(list) => list,
        Err(refusal) => return Err(refusal),
    };
    if list.len() < OFFSET * count as usize {
        return Err(Refusal::from(Cause::BadRecord));
    }
    Ok(offsets_in(alloc, list, count)?)
}

/// The offsets in a list of the key at an offset.
///
/// Refused if the key's node or the list isn't read, or with `NoMemory`.
pub(crate) fn offsets_of(
    alloc: Global,
    image: &Image,
    kind: ListKind,
    key: u32,
) -> Result<Vec<u32>, Refusal>
    ensures { (cells : Cells) → Shows image.now.bytes cells → MatchResult result
        (λ listed. KeyLists kind cells key listed.items)
        (λ why. (why ≡ NoMemory) ⊎ ListIsUnread kind cells key why) }
{
    let node = match key_node(image, key) {
        Ok(node) => node,
        Err(refusal) => return Err(refusal),
    };
    match kind {
        ListKind::Subkeys => subkey_offsets(alloc, image, node.subkey_count, node.subkeys),
        ListKind::Values => value_offsets(alloc, image, node.value_count, node.values),
    }
}
