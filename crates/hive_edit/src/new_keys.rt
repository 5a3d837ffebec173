//! The node of a new key.
ghost use Rattle.std.specs.Prelude.{◌≡◌, ◌<◌, ◌^◌, length, IsTrue, IfOk, IfSome, IfErr};
ghost use Rattle.refusals.specs.declared.refusal.Refusal.TheVariants.{NoMemory};
ghost use Rattle.hive_cells.specs.Tiles.{u32_at, cell_data};
ghost use Rattle.hive_records.specs.NameEncodings.{name_bytes};
ghost use Rattle.hive_records.specs.KeyEncodings.{KeyNodeFieldsFit, node_bytes};
ghost use Rattle.hive_edit.specs.SubkeyPlaces.{IsNewName, new_fields};

use hive_cells::Looks;
use hive_records::{KeyNode, KeyNodeFields, put_key_node};
use hive_savepoint::SavepointImage;
use refusals::Refusal;
use std::alloc::Global;

// the offset that means none
const NIL: u32 = 0xffff_ffff;

const _: () = prove!(NIL == 0xffff_ffff);

// the most units of a key's name
const MOST_UNITS: usize = 255;

const BACKSLASH: u16 = 0x5c;

const _: () = prove!(BACKSLASH == 0x5c);

/// Whether a new key may have a name.
pub(crate) fn is_new_name(name: &[u16]) -> bool
    ensures { IsTrue result → IsNewName name.now }
{
    !name.is_empty() && name.len() <= MOST_UNITS && !name.contains(&BACKSLASH)
}

/// The security cell that the key node at an offset names. None if there is no node.
pub(crate) fn security_of_key(image: &SavepointImage, key: u32) -> Option<u32>
    ensures { IfSome result (λ at. at ≡ u32_at (cell_data image.now.bytes key) 44) }
{
    let mut looks = Looks::new();
    let Ok(cell) = image.cell(key, &mut looks) else {
        return None;
    };
    let Ok(node) = KeyNode::read(cell) else {
        return None;
    };
    Some(node.security)
}

/// The node of a new key of a name, below the key at an offset. It has no class, no values and no subkeys.
pub(crate) fn node_text(
    alloc: Global,
    parent: u32,
    security: u32,
    name: &[u16],
    moment: u64,
) -> Result<Vec<u8>, Refusal>
    requires { length (name_bytes name.now) < 2 ^ 16 }
    ensures text { IfOk result (λ text. text.items ≡ node_bytes name.now 0 moment 0 (new_fields parent security)) }
    ensures fits { KeyNodeFieldsFit (new_fields parent security) }
    ensures refused { IfErr result (λ why. why ≡ NoMemory) }
{
    let mut text = Vec::new(alloc);
    let its = KeyNodeFields {
        parent,
        subkey_total: 0,
        subkey_list: NIL,
        value_count: 0,
        values: NIL,
        security,
        class: NIL,
        longest_subkey: 0,
        longest_class: 0,
        longest_value: 0,
        largest_data: 0,
    };
    put_key_node(&mut text, name, 0, moment, 0, &its)?;
    Ok(text)
}
