//! Keys with all that is below them.
ghost use Rattle.std.specs.Prelude.{◌≡◌, ◌<◌, ◌≤◌, ◌+◌, ◌^◌, [], length, IfOk, IfErr, OnOk, Some};
ghost use Rattle.std.specs.FinMap as finite;
ghost use Rattle.reg_tree_parts.specs.Rows.{Row};
ghost use Rattle.reg_tree_parts.specs.Nodes.{subkeys_of, row_at, HasSubkeys};
ghost use Rattle.hive_records.specs.ListEncodings.{AreOffsets};
ghost use Rattle.hive_records.specs.KeyEncodings.{key_node_bytes, RowFits};
ghost use Rattle.hive_records.specs.NameEncodings.{name_bytes};
ghost use Rattle.hive_emit.specs.CellWrites.{Makes, Fills, IsLongCell, Uses, WriteRefused};
ghost use Rattle.hive_emit.specs.Forms.{is_past_ascii};
ghost use Rattle.hive_emit.specs.EmittedKeys.{CanPutKey, CanPutKeys, any_past_ascii, AreCounted, PutsKey, PutsSubkeys, OwnAt, ClassAt, KeyNodeFieldsAre};
ghost use Rattle.hive_emit.specs.KeyCosts.{class_cost, own_cost, below_cost, keys_cost};

use crate::bounds::{RecordBounds, bounds_of};
use crate::cells::{NIL, fill, new_cell, put_cell};
use crate::lists::put_subkey_list;
use crate::security::SecurityTable;
use crate::values::put_values;
use hive_cells::Image;
use hive_records::{KeyNodeFields, put_key_node, stored_len};
use refusals::Refusal;
use reg_tree_parts::Node;
use std::alloc::Global;

// the bytes of a key's record before its name
const RECORD_BYTES: usize = 76;

// the last unit that is ASCII
const LAST_ASCII: u16 = 0x7f;

/// Where a key's own cells are, its record apart.
#[derive(Drop)]
struct OwnCells {
    class: u32,
    values: u32,
    subkey_list: u32,
}

// whether a name has a unit past ASCII
fn is_past_ascii(name: &[u16]) -> bool
    ensures { result ≡ is_past_ascii name.now }
{
    name.iter().any(|unit| LAST_ASCII < *unit)
}

// whether the list of a key's subkeys has no hashes: if any of their names has a unit past ASCII
fn is_plain(node: &Node) -> bool
    ensures { result ≡ any_past_ascii (subkeys_of node.now) }
{
    for index in 0..node.subkey_count() {
        let Some(subkey) = node.subkey_at(index) else {
            unreachable!();
        };
        if is_past_ascii(subkey.key().name().units()) {
            return true;
        }
    }
    false
}

// puts a class; answers its cell, or the offset of none if it is empty
fn put_class(image: &mut Image, class: &[u8]) -> Result<u32, Refusal>
    ensures made { IfOk result (λ at. Makes image.old.bytes image.new.bytes (ClassAt at class.now)) }
    ensures uses { OnOk result (Uses image.old.bytes image.new.bytes (class_cost
        (length class.now))) }
    ensures stops { IfErr result (WriteRefused image.old.bytes (class_cost (length class.now))) }
{
    if class.is_empty() {
        return Ok(NIL);
    }
    match put_cell(image, class, class.len()) {
        Ok(at) => Ok(at),
        Err(why) => Err(why),
    }
}

// puts the class, the values and the list of subkeys of a key whose subkeys have these cells
#[inline(never)] // so that each level takes little stack
fn put_own(
    alloc: Global,
    image: &mut Image,
    encoding: &mut Vec<u8>,
    node: &Node,
    cell_offsets: &[u32],
) -> Result<OwnCells, Refusal>
    requires can { CanPutKeys node.now }
    requires all { length cell_offsets.now ≡ length (subkeys_of node.now) }
    requires few { length cell_offsets.now < 2 ^ 24 }
    requires near { AreOffsets cell_offsets.now }
    ensures made { IfOk result (λ own. (row : Row) → row_at node.now [] ≡ Some row → Makes
        image.old.bytes image.new.bytes (OwnAt own.class own.values own.subkey_list row cell_offsets.now
        (subkeys_of node.now))) }
    ensures uses { OnOk result ((row : Row) → row_at node.now [] ≡ Some row → Uses
        image.old.bytes image.new.bytes (own_cost row (length cell_offsets.now))) }
    ensures stops { IfErr result (λ why. (row : Row) → row_at node.now [] ≡ Some row → WriteRefused
        image.old.bytes (own_cost row (length cell_offsets.now)) why) }
{
    let key = node.key();
    let class = match put_class(image, key.class()) {
        Ok(class) => class,
        Err(why) => return Err(why),
    };
    let values = match put_values(alloc, image, encoding, key.values()) {
        Ok(values) => values,
        Err(why) => return Err(why),
    };
    let subkey_list = match put_subkey_list(
        alloc,
        image,
        encoding,
        node,
        cell_offsets,
        is_plain(node),
    ) {
        Ok(subkey_list) => subkey_list,
        Err(why) => return Err(why),
    };
    Ok(OwnCells {
        class,
        values,
        subkey_list,
    })
}

// what a key's record says beside its row
fn key_node_fields(node: &Node, parent: u32, security: u32, own: &OwnCells) -> KeyNodeFields
    requires can { CanPutKeys node.now }
    requires few { length (subkeys_of node.now) < 2 ^ 24 }
    ensures { (row : Row) → row_at node.now [] ≡ Some row → KeyNodeFieldsAre result row parent
        (length (subkeys_of node.now)) security own.now.class own.now.values own.now.subkey_list }
{
    let key = node.key();
    let bounds = bounds_of(node);
    KeyNodeFields {
        parent,
        subkey_total: node.subkey_count() as u32,
        subkey_list: own.subkey_list,
        value_count: key.values().len() as u32,
        values: own.values,
        security,
        class: own.class,
        longest_subkey: bounds.subkey_name,
        longest_class: bounds.subkey_class,
        longest_value: bounds.value_name,
        largest_data: bounds.value_data,
    }
}

// fills a key's record into its cell
#[inline(never)] // so that each level takes little stack
fn fill_key(
    image: &mut Image,
    encoding: &mut Vec<u8>,
    node: &Node,
    at: u32,
    its: &KeyNodeFields,
) -> Result<(), Refusal>
    requires can { CanPutKeys node.now }
    requires long { (row : Row) → row_at node.now [] ≡ Some row →
        IsLongCell image.old.bytes at (76 + length (name_bytes row.name)) }
    ensures filled { OnOk result ((row : Row) → row_at node.now [] ≡ Some row →
        Fills image.old.bytes image.new.bytes at (key_node_bytes row its.now)) }
    ensures time { OnOk result ((row : Row) → row_at node.now [] ≡ Some row →
        row.time < 2 ^ 64) }
    ensures memory { IfErr result (λ why. why ≡ Refusal.NoMemory) }
{
    let key = node.key();
    let time = key.time();
    encoding.clear();
    let class = key.class().len() as u16;
    put_key_node(encoding, key.name().units(), key.flags(), time, class, its)?;
    fill(image, at, encoding);
    Ok(())
}

/// How many bytes a key's record has.
pub(crate) fn record_len(name: &[u16]) -> usize
    requires { length (name_bytes name.now) < 2 ^ 16 }
    ensures { result ≡ 76 + length (name_bytes name.now) }
{
    RECORD_BYTES + stored_len(name) as usize
}

// puts all subkeys of a key, whose record is to be in a cell; answers their cells
#[cycle(puts)]
fn put_subkeys(
    alloc: Global,
    image: &mut Image,
    encoding: &mut Vec<u8>,
    securities: &SecurityTable,
    node: &Node,
    parent: u32,
) -> Result<Vec<u32>, Refusal>
    requires can { CanPutKeys node.now }
    requires counted { AreCounted securities.now node.now }
    requires few { length node.now < 2 ^ 24 }
    ensures made { IfOk result (λ cell_offsets. Makes image.old.bytes image.new.bytes
        (PutsSubkeys securities.now parent cell_offsets.items (subkeys_of node.now))) }
    ensures count { IfOk result (λ cell_offsets. length cell_offsets.items ≡ length (subkeys_of node.now)) }
    ensures near { IfOk result (λ cell_offsets. AreOffsets cell_offsets.items) }
    ensures has { HasSubkeys node.now (subkeys_of node.now) }
    ensures uses { OnOk result (Uses image.old.bytes image.new.bytes (below_cost node.now)) }
    ensures stops { IfErr result (WriteRefused image.old.bytes (below_cost node.now)) }
{
    let _ = node.key(); // for the prover
    let mut cell_offsets = Vec::new(alloc);
    for index in 0..node.subkey_count() {
        let Some(subkey) = node.subkey_at(index) else {
            unreachable!();
        };
        let at = match put_key(alloc, image, encoding, securities, subkey, parent) {
            Ok(at) => at,
            Err(why) => return Err(why),
        };
        cell_offsets.push(at)?;
    }
    Ok(cell_offsets)
}

/// Puts a key and all keys below it; answers the cell of its record.
///
/// Refused with `NoMemory`. Refused otherwise only if the image has no free cell with room for all of it, or has
/// several.
#[cycle(puts)]
pub(crate) fn put_key(
    alloc: Global,
    image: &mut Image,
    encoding: &mut Vec<u8>,
    securities: &SecurityTable,
    node: &Node,
    parent: u32,
) -> Result<u32, Refusal>
    requires can { CanPutKeys node.now }
    requires counted { AreCounted securities.now node.now }
    requires few { length node.now < 2 ^ 24 }
    ensures made { IfOk result (λ at. Makes image.old.bytes image.new.bytes
        (PutsKey securities.now parent at node.now)) }
    ensures uses { OnOk result (Uses image.old.bytes image.new.bytes (keys_cost node.now)) }
    ensures stops { IfErr result (WriteRefused image.old.bytes (keys_cost node.now)) }
{
    let key = node.key();
    let _time = key.time(); // for the prover
    let at = match new_cell(image, record_len(key.name().units())) {
        Ok(at) => at,
        Err(why) => return Err(why),
    };
    image.tiles(0); // for the prover
    let cell_offsets = match put_subkeys(alloc, image, encoding, securities, node, at) {
        Ok(cell_offsets) => cell_offsets,
        Err(why) => return Err(why),
    };
    let own = match put_own(alloc, image, encoding, node, &cell_offsets) {
        Ok(own) => own,
        Err(why) => return Err(why),
    };
    let security = securities.offset(key.descriptor().bytes());
    let its = key_node_fields(node, parent, security, &own);
    image.tiles(0); // for the prover
    match fill_key(image, encoding, node, at, &its) {
        Ok(()) => Ok(at),
        Err(why) => Err(why),
    }
}
