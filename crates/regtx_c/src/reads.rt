//! Reading keys and values, whatever units their names have. A read takes the hive out of its handle, and puts it back.
ghost use Rattle.std.specs.Prelude.{◌≡◌, ◌⊎◌, [], Ok, Err, IfSome, IfNone, IfOk, IfErr, MatchResult};
ghost use Rattle.refusals.specs.declared.refusal.Refusal.TheVariants.{NoMemory};
ghost use Rattle.reg_names.specs.Names.{folded_path, path_names};
ghost use Rattle.reg_tree_parts.specs.Nodes.{names_below, row_at};
ghost use Rattle.reg_tree.specs.Maps.{row, subkeys};
ghost use Rattle.regtx_c.specs.Handles.{asked, coded, tree_in};
ghost use Rattle.regtx_c.specs.Buffers.{CopiesOrNoMemory, CopiesValueOrNoMemory};
ghost use Rattle.regtx_c.specs.Questions.{key_info, key_name, value_name, indexed_value, named_value, names_of, LeadsNowhere, TellsInfoOrNoMemory};

use crate::codes::{NOT_OPEN, OK, code_of};
use crate::handle::{Handle, put, take};
use crate::names::names_of;
use crate::room::copy;
use refusals::Refusal;
use reg_names::Name;
use reg_tree::Tree;
use reg_tree_parts::{Node, Value};
use std::alloc::Global;

/// What a key has.
#[repr(C)]
#[derive(Clone, Copy)]
pub struct KeyInfo {
    /// How many subkeys.
    pub subkeys: u64,
    /// How many values.
    pub values: u64,
    /// The moment of its last write, in units of 100 nanoseconds since 1601.
    pub time: u64,
}

// the node of the key to which the names lead
fn node<'a>(tree: &'a Tree, names: &[Name]) -> Option<&'a Node>
    ensures key { IfSome result (λ node. row tree.now (folded_path names.now) ≡ row_at node.now []) }
    ensures names { IfSome result (λ node. subkeys tree.now (folded_path names.now) ≡ names_below [] node.now) }
    ensures missing { IfNone result (row tree.now (folded_path names.now) ≡ None) }
{
    match tree.root().find(names) {
        Some(node) => Some(node),
        None => None,
    }
}

/// The node of the key at a path.
pub(crate) fn key_node<'a>(alloc: Global, tree: &'a Tree, path: &[u16]) -> Result<&'a Node, Refusal>
    ensures named { IfOk result (λ _. names_of path.now ≡ Ok (path_names path.now)) }
    ensures key { IfOk result (λ node. row tree.now (folded_path (path_names path.now)) ≡ row_at node.now []) }
    ensures names { IfOk result (λ node.
        subkeys tree.now (folded_path (path_names path.now)) ≡ names_below [] node.now) }
    ensures refused { IfErr result (λ why. (why ≡ NoMemory) ⊎ LeadsNowhere path.now tree.now why) }
{
    let names = match names_of(alloc, path) {
        Ok(names) => names,
        Err(why) => return Err(why),
    };
    match node(tree, &names) {
        Some(node) => Ok(node),
        None => Err(Refusal::NotFound),
    }
}

// the value at an index of the key at a path
fn value_of_index<'a>(
    alloc: Global,
    tree: &'a Tree,
    path: &[u16],
    index: usize,
) -> Result<&'a Value, Refusal>
    ensures { MatchResult result (λ value. indexed_value path.now index tree.now ≡ Ok value.now)
        (λ why. (why ≡ NoMemory) ⊎ (indexed_value path.now index tree.now ≡ Err why)) }
{
    let node = match key_node(alloc, tree, path) {
        Ok(node) => node,
        Err(why) => return Err(why),
    };
    match node.key().values().at(index) {
        Some(value) => Ok(value),
        None => Err(Refusal::NotFound),
    }
}

// the value of a name of the key at a path
fn value_of_name<'a>(
    alloc: Global,
    tree: &'a Tree,
    path: &[u16],
    name: &[u16],
) -> Result<&'a Value, Refusal>
    ensures { MatchResult result (λ value. named_value path.now name.now tree.now ≡ Ok value.now)
        (λ why. (why ≡ NoMemory) ⊎ (named_value path.now name.now tree.now ≡ Err why)) }
{
    let node = match key_node(alloc, tree, path) {
        Ok(node) => node,
        Err(why) => return Err(why),
    };
    let name = Name::stored(alloc, name)?;
    match node.key().values().get(&name) {
        Some(value) => Ok(value),
        None => Err(Refusal::NotFound),
    }
}

// tells what the key at a path has
fn tell_info(alloc: Global, tree: &Tree, path: &[u16], info: &mut KeyInfo) -> u32
    ensures { TellsInfoOrNoMemory (coded (key_info path.now tree.now)) info.old info.new result }
{
    let node = match key_node(alloc, tree, path) {
        Ok(node) => node,
        Err(why) => return code_of(why),
    };
    *info = KeyInfo {
        subkeys: node.subkey_count() as u64,
        values: node.key().values().len() as u64,
        time: node.key().time(),
    };
    OK
}

/// Tells how many subkeys and values the key at a path has, and when it was last written.
#[unsafe(no_mangle)]
pub extern "C" fn regtx_hive_info(
    alloc: Global,
    hive: &mut Handle,
    path: &[u16],
    info: &mut KeyInfo,
) -> u32
    ensures same { tree_in hive.new ≡ tree_in hive.old }
    ensures told { TellsInfoOrNoMemory (asked (tree_in hive.old) (key_info path.now))
        info.old info.new result }
{
    let Some(block) = take(alloc, hive) else {
        return NOT_OPEN;
    };
    let code = tell_info(alloc, block.tree(), path, info);
    put(alloc, hive, Some(block));
    code
}

// tells the name of the subkey at an index
fn tell_key(
    alloc: Global,
    tree: &Tree,
    path: &[u16],
    index: usize,
    name: &mut [u16],
    len: &mut usize,
) -> u32
    ensures { CopiesOrNoMemory (coded (key_name path.now index tree.now))
        name.old name.new len.old len.new result }
{
    let node = match key_node(alloc, tree, path) {
        Ok(node) => node,
        Err(why) => return code_of(why),
    };
    let _ = node.key(); // for the prover
    match node.subkey(index) {
        Some(found) => copy(found.units(), name, len),
        None => code_of(Refusal::NotFound),
    }
}

/// Tells the name of the subkey at an index, in the order of names.
#[unsafe(no_mangle)]
pub extern "C" fn regtx_hive_key_at(
    alloc: Global,
    hive: &mut Handle,
    path: &[u16],
    index: usize,
    name: &mut [u16],
    len: &mut usize,
) -> u32
    ensures same { tree_in hive.new ≡ tree_in hive.old }
    ensures told { CopiesOrNoMemory (asked (tree_in hive.old) (key_name path.now index))
        name.old name.new len.old len.new result }
{
    let Some(block) = take(alloc, hive) else {
        return NOT_OPEN;
    };
    let code = tell_key(alloc, block.tree(), path, index, name, len);
    put(alloc, hive, Some(block));
    code
}

// tells the name of the value at an index
fn tell_value_name(
    alloc: Global,
    tree: &Tree,
    path: &[u16],
    index: usize,
    name: &mut [u16],
    len: &mut usize,
) -> u32
    ensures { CopiesOrNoMemory (coded (value_name path.now index tree.now))
        name.old name.new len.old len.new result }
{
    match value_of_index(alloc, tree, path, index) {
        Ok(value) => copy(value.name.units(), name, len),
        Err(why) => code_of(why),
    }
}

/// Tells the name of the value at an index, in the order of names.
#[unsafe(no_mangle)]
pub extern "C" fn regtx_hive_value_name_at(
    alloc: Global,
    hive: &mut Handle,
    path: &[u16],
    index: usize,
    name: &mut [u16],
    len: &mut usize,
) -> u32
    ensures same { tree_in hive.new ≡ tree_in hive.old }
    ensures told { CopiesOrNoMemory (asked (tree_in hive.old) (value_name path.now index))
        name.old name.new len.old len.new result }
{
    let Some(block) = take(alloc, hive) else {
        return NOT_OPEN;
    };
    let code = tell_value_name(alloc, block.tree(), path, index, name, len);
    put(alloc, hive, Some(block));
    code
}

// tells the type and the data of the value at an index
fn tell_value_at(
    alloc: Global,
    tree: &Tree,
    path: &[u16],
    index: usize,
    kind: &mut u32,
    data: &mut [u8],
    len: &mut usize,
) -> u32
    ensures { CopiesValueOrNoMemory (coded (indexed_value path.now index tree.now))
        kind.old kind.new data.old data.new len.old len.new result }
{
    match value_of_index(alloc, tree, path, index) {
        Ok(value) => {
            *kind = value.kind;
            copy(value.data.bytes(), data, len)
        }
        Err(why) => code_of(why),
    }
}

/// Tells the type and the data of the value at an index, in the order of names.
#[unsafe(no_mangle)]
pub extern "C" fn regtx_hive_value_at(
    alloc: Global,
    hive: &mut Handle,
    path: &[u16],
    index: usize,
    kind: &mut u32,
    data: &mut [u8],
    len: &mut usize,
) -> u32
    ensures same { tree_in hive.new ≡ tree_in hive.old }
    ensures told { CopiesValueOrNoMemory (asked (tree_in hive.old) (indexed_value path.now index))
        kind.old kind.new data.old data.new len.old len.new result }
{
    let Some(block) = take(alloc, hive) else {
        return NOT_OPEN;
    };
    let code = tell_value_at(alloc, block.tree(), path, index, kind, data, len);
    put(alloc, hive, Some(block));
    code
}

// tells the type and the data of the value of a name
fn tell_value(
    alloc: Global,
    tree: &Tree,
    path: &[u16],
    name: &[u16],
    kind: &mut u32,
    data: &mut [u8],
    len: &mut usize,
) -> u32
    ensures { CopiesValueOrNoMemory (coded (named_value path.now name.now tree.now))
        kind.old kind.new data.old data.new len.old len.new result }
{
    match value_of_name(alloc, tree, path, name) {
        Ok(value) => {
            *kind = value.kind;
            copy(value.data.bytes(), data, len)
        }
        Err(why) => code_of(why),
    }
}

/// Tells the type and the data of the value of a name.
#[unsafe(no_mangle)]
pub extern "C" fn regtx_hive_value(
    alloc: Global,
    hive: &mut Handle,
    path: &[u16],
    name: &[u16],
    kind: &mut u32,
    data: &mut [u8],
    len: &mut usize,
) -> u32
    ensures same { tree_in hive.new ≡ tree_in hive.old }
    ensures told { CopiesValueOrNoMemory (asked (tree_in hive.old) (named_value path.now name.now))
        kind.old kind.new data.old data.new len.old len.new result }
{
    let Some(block) = take(alloc, hive) else {
        return NOT_OPEN;
    };
    let code = tell_value(alloc, block.tree(), path, name, kind, data, len);
    put(alloc, hive, Some(block));
    code
}
