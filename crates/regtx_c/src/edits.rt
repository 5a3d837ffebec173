//! Edits of a hive in memory, each one operation. An edit that is refused changes nothing.
ghost use Rattle.std.specs.Prelude.{◌≡◌, ◌≢◌};
ghost use Rattle.refusals.specs.Answers.{IsOrNoMemory};
ghost use Rattle.regtx_c.specs.Handles.{tree_in};
ghost use Rattle.regtx_c.specs.Edits.{create_key, delete_key, set_value, delete_value, keys_made, value_place, EditsOrNoMemory, EditsOpen, TellsCount};

use crate::block::Block;
use crate::codes::{NOT_OPEN, OK, code_of};
use crate::handle::{Handle, put, take};
use refusals::Refusal;
use reg_names::{Name, Path, ValueName};
use reg_tree::{Data, Op, Tree};
use std::alloc::Global;

/// The number of the hive in an operation.
const HIVE: u8 = 0;

const _: () = prove!(HIVE == 0);

// edits a tree by an operation, if there is one
fn write(alloc: Global, tree: &mut Tree, op: Result<Op, Refusal>, time: u64) -> u32
    ensures { EditsOrNoMemory op time tree.old tree.new result }
{
    let op = match op {
        Ok(op) => op,
        Err(why) => return code_of(why),
    };
    match tree.write(alloc, &op, time) {
        Ok(Some(made)) => {
            *tree = made;
            OK
        }
        Ok(None) => OK,
        Err(why) => code_of(why),
    }
}

// edits the tree of a block, which is at its root then
fn write_in(alloc: Global, block: &mut Block, op: Result<Op, Refusal>, time: u64) -> u32
    ensures { EditsOrNoMemory op time block.old.tree block.new.tree result }
{
    block.way = Vec::new(alloc);
    write(alloc, &mut block.tree, op, time)
}

// edits the tree that is open by an operation, if there is one
fn edit(alloc: Global, hive: &mut Handle, op: Result<Op, Refusal>, time: u64) -> u32
    ensures { EditsOpen op time (tree_in hive.old) (tree_in hive.new) result }
{
    let Some(mut block) = take(alloc, hive) else {
        return NOT_OPEN;
    };
    let code = write_in(alloc, &mut block, op, time);
    put(alloc, hive, Some(block));
    code
}

// creates a key, and tells how many keys were made
fn create(alloc: Global, tree: &mut Tree, path: &[u16], time: u64, made: &mut usize) -> u32
    ensures edits { EditsOrNoMemory (create_key path.now) time tree.old tree.new result }
    ensures made { result ≡ OK → keys_made path.now tree.old ≡ Ok made.new }
    ensures unmade { result ≢ OK → made.new ≡ made.old }
{
    let path = match Path::parse(alloc, path) {
        Ok(path) => path,
        Err(why) => return code_of(why),
    };
    let levels = tree.missing_levels(&path);
    let op = Op::CreateKey { hive: HIVE, path };
    match tree.write(alloc, &op, time) {
        Ok(Some(new)) => {
            *tree = new;
            *made = levels;
            OK
        }
        Ok(None) => {
            *made = 0;
            OK
        }
        Err(why) => code_of(why),
    }
}

// the same in a block, which is at its root then
fn create_in(alloc: Global, block: &mut Block, path: &[u16], time: u64, made: &mut usize) -> u32
    ensures edits { EditsOrNoMemory (create_key path.now) time block.old.tree block.new.tree result }
    ensures made { result ≡ OK → keys_made path.now block.old.tree ≡ Ok made.new }
    ensures unmade { result ≢ OK → made.new ≡ made.old }
{
    block.way = Vec::new(alloc);
    create(alloc, &mut block.tree, path, time, made)
}

/// Creates the key at a path, and each key that is missing on the way to it. How many were made is told: none if the key
/// is there.
#[unsafe(no_mangle)]
pub extern "C" fn regtx_hive_create_key(
    alloc: Global,
    hive: &mut Handle,
    path: &[u16],
    time: u64,
    made: &mut usize,
) -> u32
    ensures edits { EditsOpen (create_key path.now) time (tree_in hive.old) (tree_in hive.new) result }
    ensures made { TellsCount (tree_in hive.old) (keys_made path.now) result made.old made.new }
{
    let Some(mut block) = take(alloc, hive) else {
        return NOT_OPEN;
    };
    let code = create_in(alloc, &mut block, path, time, made);
    put(alloc, hive, Some(block));
    code
}

// the deletion of a key
fn key_deletion(alloc: Global, path: &[u16]) -> Result<Op, Refusal>
    ensures { IsOrNoMemory result (delete_key path.now) }
{
    let path = match Path::parse(alloc, path) {
        Ok(path) => path,
        Err(why) => return Err(why),
    };
    Ok(Op::DeleteKey { hive: HIVE, path })
}

/// Deletes the key at a path, which has no subkeys.
#[unsafe(no_mangle)]
pub extern "C" fn regtx_hive_delete_key(
    alloc: Global,
    hive: &mut Handle,
    path: &[u16],
    time: u64,
) -> u32
    ensures { EditsOpen (delete_key path.now) time (tree_in hive.old) (tree_in hive.new) result }
{
    edit(alloc, hive, key_deletion(alloc, path), time)
}

// the path and the name of a value
fn value_names(alloc: Global, path: &[u16], name: &[u16]) -> Result<(Path, ValueName), Refusal>
    ensures { IsOrNoMemory result (value_place path.now name.now) }
{
    let path = match Path::parse(alloc, path) {
        Ok(path) => path,
        Err(why) => return Err(why),
    };
    match Name::value(alloc, name) {
        Ok(name) => Ok((path, name)),
        Err(why) => Err(why),
    }
}

// the write of a value
fn value_write(
    alloc: Global,
    path: &[u16],
    name: &[u16],
    kind: u32,
    data: &[u8],
) -> Result<Op, Refusal>
    ensures { IsOrNoMemory result (set_value path.now name.now kind data.now) }
{
    let (path, name) = match value_names(alloc, path, name) {
        Ok(names) => names,
        Err(why) => return Err(why),
    };
    let Ok(data) = Data::new(alloc, data) else {
        return Err(Refusal::NoMemory);
    };
    Ok(Op::SetValue {
        hive: HIVE,
        path,
        name,
        kind,
        data,
    })
}

/// Writes the value of a name, of the key at a path. A value that is there keeps the spelling of its name.
#[unsafe(no_mangle)]
pub extern "C" fn regtx_hive_set_value(
    alloc: Global,
    hive: &mut Handle,
    path: &[u16],
    name: &[u16],
    kind: u32,
    data: &[u8],
    time: u64,
) -> u32
    ensures { EditsOpen (set_value path.now name.now kind data.now) time (tree_in hive.old) (tree_in hive.new)
        result }
{
    edit(
        alloc,
        hive,
        value_write(alloc, path, name, kind, data),
        time,
    )
}

// the deletion of a value
fn value_deletion(alloc: Global, path: &[u16], name: &[u16]) -> Result<Op, Refusal>
    ensures { IsOrNoMemory result (delete_value path.now name.now) }
{
    match value_names(alloc, path, name) {
        Ok((path, name)) => Ok(Op::DeleteValue {
            hive: HIVE,
            path,
            name,
        }),
        Err(why) => Err(why),
    }
}

/// Deletes the value of a name, of the key at a path.
#[unsafe(no_mangle)]
pub extern "C" fn regtx_hive_delete_value(
    alloc: Global,
    hive: &mut Handle,
    path: &[u16],
    name: &[u16],
    time: u64,
) -> u32
    ensures { EditsOpen (delete_value path.now name.now) time (tree_in hive.old) (tree_in hive.new) result }
{
    edit(alloc, hive, value_deletion(alloc, path, name), time)
}
