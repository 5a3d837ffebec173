//! The list of subkeys that a key's node names.
ghost use Rattle.std.specs.Prelude.{◌≡◌, OnOk, IfSome, IfErr};
ghost use Rattle.refusals.specs.declared.refusal.Refusal.TheVariants.{NoMemory};
ghost use Rattle.hive_savepoint.specs.Puts.{HasData, ChangesCell};
ghost use Rattle.hive_edit.specs.SubkeyPlaces.{IsListOfKey, NodeGetsList};

use crate::numbers::{u16_bytes, u32_bytes, u64_bytes};
use hive_cells::Looks;
use hive_records::{KeyNode, u32_at};
use hive_savepoint::SavepointImage;
use refusals::Refusal;

// where a key node has its time, the number of its subkeys, and the offset of their list
const TIME: usize = 4;

const SUBKEY_COUNT: usize = 20;

const SUBKEY_LIST: usize = 28;

// and the most bytes of a subkey's name, as if in UTF-16
const LONGEST_NAME: usize = 52;

/// The list of subkeys that a key's node names.
#[derive(Clone, Copy)]
pub(crate) struct KeyList {
    /// How many subkeys the key has.
    pub(crate) count: u32,
    /// The offset of the list.
    pub(crate) at: u32,
}

/// The list that the key node at an offset names. None if there is no node.
pub(crate) fn list_of_key(image: &SavepointImage, key: u32) -> Option<KeyList>
    ensures { IfSome result (λ list. IsListOfKey image.now.bytes key list) }
{
    image.tiles(); // for the prover
    let mut looks = Looks::new();
    let Ok(cell) = image.cell(key, &mut looks) else {
        return None;
    };
    let Ok(node) = KeyNode::read(cell) else {
        return None;
    };
    if cell.len() < 76 {
        return None;
    }
    Some(KeyList {
        count: node.subkey_count,
        at: node.subkeys,
    })
}

/// Writes what a key's node says of its subkeys, and its time.
pub(crate) fn put_list(
    image: &mut SavepointImage,
    key: u32,
    list: KeyList,
    moment: u64,
) -> Result<(), Refusal>
    requires node { HasData image.old.bytes key 76 }
    ensures put { OnOk result (ChangesCell image.old.bytes image.new.bytes key
        (λ its now. NodeGetsList its now list.count list.at moment)) }
    ensures saved { image.new.saved ≡ image.old.saved }
    ensures refused { IfErr result (λ why. why ≡ NoMemory) }
{
    image.write(key, TIME, &u64_bytes(moment))?;
    image.write(key, SUBKEY_COUNT, &u32_bytes(list.count))?;
    image.write(key, SUBKEY_LIST, &u32_bytes(list.at))
}

/// The same, and raises the most bytes of a subkey's name if a name has more units than fit.
pub(crate) fn put_longer_list(
    image: &mut SavepointImage,
    key: u32,
    list: KeyList,
    name: &[u16],
    moment: u64,
) -> Result<(), Refusal>
    requires node { HasData image.old.bytes key 76 }
    ensures put { OnOk result (ChangesCell image.old.bytes image.new.bytes key
        (λ its now. NodeGetsList its now list.count list.at moment)) }
    ensures saved { image.new.saved ≡ image.old.saved }
    ensures refused { IfErr result (λ why. why ≡ NoMemory) }
{
    let longest = longest_name(image, key).max(name_bytes(name));
    put_list(image, key, list, moment)?;
    image.write(key, LONGEST_NAME, &u16_bytes(longest))
}

// the most bytes of a subkey's name, as a key's node says
fn longest_name(image: &SavepointImage, key: u32) -> u16
    requires node { HasData image.now.bytes key 76 }
{
    let mut looks = Looks::new();
    match image.cell(key, &mut looks) {
        Ok(cell) => u16::try_from(u32_at(cell, LONGEST_NAME) % 0x1_0000).unwrap_or(0),
        Err(_) => 0,
    }
}

// the bytes of a name, as if in UTF-16
fn name_bytes(name: &[u16]) -> u16 {
    u16::try_from(name.len().saturating_mul(2)).unwrap_or(u16::MAX)
}
