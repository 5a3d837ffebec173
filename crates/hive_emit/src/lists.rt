//! Lists of a key's subkeys: leaves of at most 500, and a list of leaves if there is more than one.
ghost use Rattle.std.specs.Prelude.{◌≡◌, ◌<◌, ◌≤◌, ◌+◌, ◌++◌, ◌^◌, ◌*◌, true, false, length, drop, IfOk, IfErr, OnOk};
ghost use Rattle.reg_tree_parts.specs.Nodes.{subkeys_of};
ghost use Rattle.hive_records.specs.ListEncodings.{hashed_leaf};
ghost use Rattle.hive_emit.specs.CellWrites.{Makes, Puts, Uses, WriteRefused};
ghost use Rattle.hive_emit.specs.KeyLists.{leaf_bytes, placed, ListedLeaves, SubkeysAt};
ghost use Rattle.hive_emit.specs.CellCosts.{leaf_cost, leaves_cost, subkeys_cost};

use crate::cells::{NIL, put_cell};
use hive_cells::Image;
use hive_records::{put_hashed, put_hashed_head, put_indirect, put_plain_leaf};
use refusals::Refusal;
use reg_tree_parts::Node;
use std::alloc::{AllocError, Global};

/// The most subkeys of one leaf.
pub const LEAF_MOST: usize = 500;

const _: () = prove!(LEAF_MOST == 500);

// puts the bytes of a leaf with hashes, for subkeys from one on, which have these cells
fn put_hashes(
    encoding: &mut Vec<u8>,
    node: &Node,
    from: usize,
    cell_offsets: &[u32],
) -> Result<(), AllocError>
    requires few { length cell_offsets.now ≤ 500 }
    requires within { from + length cell_offsets.now ≤ length (subkeys_of node.now) }
    requires small { length (subkeys_of node.now) < 2 ^ 24 }
    ensures { OnOk result (encoding.new.items ≡ encoding.old.items ++ hashed_leaf (placed cell_offsets.now
        (drop from (subkeys_of node.now)))) }
{
    put_hashed_head(encoding, cell_offsets.len() as u16)?;
    for index in 0..cell_offsets.len() {
        let Some(subkey) = node.subkey_at(from + index) else {
            unreachable!();
        };
        put_hashed(encoding, cell_offsets[index], subkey.key().name().units())?;
    }
    Ok(())
}

// puts the bytes of a leaf for subkeys from one on, which have these cells
fn put_leaf_bytes(
    encoding: &mut Vec<u8>,
    node: &Node,
    from: usize,
    cell_offsets: &[u32],
    plain: bool,
) -> Result<(), AllocError>
    requires few { length cell_offsets.now ≤ 500 }
    requires within { from + length cell_offsets.now ≤ length (subkeys_of node.now) }
    requires small { length (subkeys_of node.now) < 2 ^ 24 }
    ensures { OnOk result (encoding.new.items ≡ encoding.old.items ++ leaf_bytes plain (placed cell_offsets.now
        (drop from (subkeys_of node.now)))) }
{
    if plain {
        put_plain_leaf(encoding, cell_offsets)?;
    } else {
        put_hashes(encoding, node, from, cell_offsets)?;
    }
    Ok(())
}

// puts a leaf for subkeys from one on, which have these cells
fn put_leaf(
    image: &mut Image,
    encoding: &mut Vec<u8>,
    node: &Node,
    from: usize,
    cell_offsets: &[u32],
    plain: bool,
) -> Result<u32, Refusal>
    requires few { length cell_offsets.now ≤ 500 }
    requires within { from + length cell_offsets.now ≤ length (subkeys_of node.now) }
    requires small { length (subkeys_of node.now) < 2 ^ 24 }
    ensures made { IfOk result (λ at. Makes image.old.bytes image.new.bytes (Puts at (leaf_bytes
        plain (placed cell_offsets.now (drop from (subkeys_of node.now)))))) }
    ensures uses { OnOk result (Uses image.old.bytes image.new.bytes (leaf_cost
        (length cell_offsets.now))) }
    ensures stops { IfErr result (WriteRefused image.old.bytes (leaf_cost (length cell_offsets.now))) }
{
    encoding.clear();
    put_leaf_bytes(encoding, node, from, cell_offsets, plain)?;
    match put_cell(image, encoding, encoding.len()) {
        Ok(at) => Ok(at),
        Err(why) => Err(why),
    }
}

// puts leaves for all subkeys, which have these cells
fn put_leaves(
    alloc: Global,
    image: &mut Image,
    encoding: &mut Vec<u8>,
    node: &Node,
    cell_offsets: &[u32],
    plain: bool,
) -> Result<Vec<u32>, Refusal>
    requires within { length cell_offsets.now ≤ length (subkeys_of node.now) }
    requires small { length (subkeys_of node.now) < 2 ^ 24 }
    ensures made { IfOk result (λ leaves. Makes image.old.bytes image.new.bytes
        (ListedLeaves plain leaves.items (placed cell_offsets.now (subkeys_of node.now)))) }
    ensures count { IfOk result (λ leaves. 500 * length leaves.items < length cell_offsets.now + 500) }
    ensures uses { OnOk result (Uses image.old.bytes image.new.bytes (leaves_cost
        (length cell_offsets.now))) }
    ensures stops { IfErr result (WriteRefused image.old.bytes (leaves_cost (length cell_offsets.now))) }
{
    let mut leaves = Vec::new(alloc);
    for index in 0..cell_offsets.len().div_ceil(LEAF_MOST) {
        let from = index * LEAF_MOST;
        let to = cell_offsets.len().min(from + LEAF_MOST);
        let at = match put_leaf(image, encoding, node, from, &cell_offsets[from..to], plain) {
            Ok(at) => at,
            Err(why) => return Err(why),
        };
        leaves.push(at)?;
    }
    Ok(leaves)
}

/// Puts the list of a key's subkeys, which have these cells: a leaf of at most 500, or leaves and a list of them.
/// Answers its cell, or the offset of none if there are no subkeys.
///
/// Refused with `NoMemory`. Refused otherwise only if the image has no free cell with room for all of it, or has
/// several.
pub fn put_subkey_list(
    alloc: Global,
    image: &mut Image,
    encoding: &mut Vec<u8>,
    node: &Node,
    cell_offsets: &[u32],
    plain: bool,
) -> Result<u32, Refusal>
    requires all { length cell_offsets.now ≡ length (subkeys_of node.now) }
    requires few { length cell_offsets.now < 2 ^ 24 }
    ensures made { IfOk result (λ list. Makes image.old.bytes image.new.bytes (SubkeysAt list plain
        (placed cell_offsets.now (subkeys_of node.now)))) }
    ensures uses { OnOk result (Uses image.old.bytes image.new.bytes (subkeys_cost
        (length cell_offsets.now))) }
    ensures stops { IfErr result (WriteRefused image.old.bytes (subkeys_cost (length cell_offsets.now))) }
{
    if cell_offsets.is_empty() {
        return Ok(NIL);
    }
    if cell_offsets.len() <= LEAF_MOST {
        return match put_leaf(image, encoding, node, 0, cell_offsets, plain) {
            Ok(list) => Ok(list),
            Err(why) => Err(why),
        };
    }
    let leaves = match put_leaves(alloc, image, encoding, node, cell_offsets, plain) {
        Ok(leaves) => leaves,
        Err(why) => return Err(why),
    };
    encoding.clear();
    put_indirect(encoding, &leaves)?;
    match put_cell(image, encoding, encoding.len()) {
        Ok(list) => Ok(list),
        Err(why) => Err(why),
    }
}
