//! Cursors: a place in a tree, which is stepped from key to key without paths.
ghost use Rattle.std.specs.Prelude.{◌≡◌, ◌⊎◌, [], None, Some, Ok, Err, IfOk, IfErr, IsOk, MatchResult, if◌then◌else◌};
ghost use Rattle.refusals.specs.declared.refusal.Refusal.TheVariants.{NoMemory, NotFound};
ghost use Rattle.regtx_c.specs.Codes.{refusal_code};
ghost use Rattle.regtx_c.specs.Handles.{asked, tree_in};
ghost use Rattle.regtx_c.specs.Places.{key_at, value_of, way_down, way_next, way_up};
ghost use Rattle.regtx_c.specs.Parts.{IsPart};
ghost use Rattle.regtx_c.specs.Cursors.{asked_there, key_path, place_in, IsAtKey, OnOpen, OpensOrNoMemory, Steps, StepsOrNoMemory, TellsKey, TellsValue};

use crate::block::Block;
use crate::codes::{NO_MEMORY, NOT_OPEN, OK, code_of};
use crate::cursor_handle::{CursorHandle, put_cursor, take_cursor};
use crate::handle::{Handle, put, take};
use crate::names::names_of;
use crate::reads::KeyInfo;
use crate::room::{copy, copy_both};
use crate::steps::{end, go_down, go_next, go_up, part};
use refusals::Refusal;
use reg_tree::Tree;
use std::alloc::{AllocError, Global};

/// What a value has beside its name and its data.
#[repr(C)]
#[derive(Clone, Copy)]
pub struct ValueInfo {
    /// The type number.
    pub kind: u32,
    /// How many units its name has.
    pub name_len: usize,
    /// How many bytes its data have.
    pub len: usize,
}

// the part of a tree at a path, in a block of its own
fn opened(alloc: Global, tree: &Tree, path: &[u16]) -> Result<Box<Block, Global>, Refusal>
    ensures found { IfOk result (λ block.
        IfOk (key_path path.now tree.now) (λ found. IsPart found.0 found.1 block.value.tree)) }
    ensures named { IfOk result (λ _. IsOk (key_path path.now tree.now)) }
    ensures way { IfOk result (λ block. block.value.way ≡ []) }
    ensures refused { IfErr result (λ why. (why ≡ NoMemory) ⊎ (key_path path.now tree.now ≡ Err why)) }
{
    let names = match names_of(alloc, path) {
        Ok(names) => names,
        Err(why) => return Err(why),
    };
    let Some(found) = part(alloc, tree, &names)? else {
        return Err(Refusal::NotFound);
    };
    let block = Block::boxed(alloc, found)?;
    Ok(block)
}

/// Opens a cursor at the key of a path. It keeps the hive's tree of now: what happens to the hive later is not seen by it.
/// It goes no higher than that key. What was open by the cursor before is closed.
#[unsafe(no_mangle)]
pub extern "C" fn regtx_cursor_open(
    alloc: Global,
    hive: &mut Handle,
    path: &[u16],
    cursor: &mut CursorHandle,
) -> u32
    ensures same { tree_in hive.new ≡ tree_in hive.old }
    ensures opens { OpensOrNoMemory (asked (tree_in hive.old) (key_path path.now))
        (place_in cursor.old) (place_in cursor.new) result }
{
    let Some(block) = take(alloc, hive) else {
        return NOT_OPEN;
    };
    let found = opened(alloc, block.tree(), path);
    put(alloc, hive, Some(block));
    match found {
        Ok(block) => {
            put_cursor(alloc, cursor, Some(block));
            OK
        }
        Err(why) => code_of(why),
    }
}

/// Closes a cursor, if it is open.
#[unsafe(no_mangle)]
pub extern "C" fn regtx_cursor_close(alloc: Global, cursor: &mut CursorHandle)
    ensures { place_in cursor.new ≡ None }
{
    put_cursor(alloc, cursor, None);
}

// the number of a step
fn step_code(found: Result<bool, AllocError>) -> u32
    ensures { MatchResult found
        (λ found. result ≡ (if found then OK else refusal_code NotFound)) (λ _. result ≡ NO_MEMORY) }
{
    match found {
        Ok(true) => OK,
        Ok(false) => code_of(Refusal::NotFound),
        Err(_) => NO_MEMORY,
    }
}

// steps to the first subkey
fn down(block: &mut Block) -> u32
    ensures steps { StepsOrNoMemory way_down block.old block.new result }
{
    let found = go_down(&block.tree, &mut block.way);
    step_code(found)
}

/// Steps a cursor to the first subkey of its key.
#[unsafe(no_mangle)]
pub extern "C" fn regtx_cursor_down(alloc: Global, cursor: &mut CursorHandle) -> u32
    ensures { OnOpen (StepsOrNoMemory way_down) (place_in cursor.old) (place_in cursor.new) result }
{
    let Some(mut block) = take_cursor(alloc, cursor) else {
        return NOT_OPEN;
    };
    let code = down(&mut block);
    put_cursor(alloc, cursor, Some(block));
    code
}

// steps to the next subkey of the key above
fn next(block: &mut Block) -> u32
    ensures steps { StepsOrNoMemory way_next block.old block.new result }
{
    let found = go_next(&block.tree, &mut block.way);
    step_code(found)
}

/// Steps a cursor to the next subkey of the key above its own, in the order of names.
#[unsafe(no_mangle)]
pub extern "C" fn regtx_cursor_next(alloc: Global, cursor: &mut CursorHandle) -> u32
    ensures { OnOpen (StepsOrNoMemory way_next) (place_in cursor.old) (place_in cursor.new) result }
{
    let Some(mut block) = take_cursor(alloc, cursor) else {
        return NOT_OPEN;
    };
    let code = next(&mut block);
    put_cursor(alloc, cursor, Some(block));
    code
}

// steps to the key above
fn up(block: &mut Block) -> u32
    ensures steps { Steps way_up block.old block.new result }
{
    if go_up(&block.tree, &mut block.way) {
        OK
    } else {
        code_of(Refusal::NotFound)
    }
}

/// Steps a cursor to the key above its own.
#[unsafe(no_mangle)]
pub extern "C" fn regtx_cursor_up(alloc: Global, cursor: &mut CursorHandle) -> u32
    ensures { OnOpen (Steps way_up) (place_in cursor.old) (place_in cursor.new) result }
{
    let Some(mut block) = take_cursor(alloc, cursor) else {
        return NOT_OPEN;
    };
    let code = up(&mut block);
    put_cursor(alloc, cursor, Some(block));
    code
}

// tells what the key of a place has, and its name
fn tell_key(block: &Block, info: &mut KeyInfo, name: &mut [u16], len: &mut usize) -> u32
    ensures key { IsAtKey (Some block.now) }
    ensures told { TellsKey (asked_there (Some block.now) key_at)
        info.old info.new name.old name.new len.old len.new result }
{
    let node = end(&block.tree, &block.way);
    let key = node.key();
    *info = KeyInfo {
        subkeys: node.subkey_count() as u64,
        values: key.values().len() as u64,
        time: key.time(),
    };
    copy(key.name().units(), name, len)
}

/// Tells how many subkeys and values the key of a cursor has, when it was last written, and its name.
#[unsafe(no_mangle)]
pub extern "C" fn regtx_cursor_key(
    alloc: Global,
    cursor: &mut CursorHandle,
    info: &mut KeyInfo,
    name: &mut [u16],
    len: &mut usize,
) -> u32
    ensures same { place_in cursor.new ≡ place_in cursor.old }
    ensures key { IsAtKey (place_in cursor.old) }
    ensures told { TellsKey (asked_there (place_in cursor.old) key_at)
        info.old info.new name.old name.new len.old len.new result }
{
    let Some(block) = take_cursor(alloc, cursor) else {
        return NOT_OPEN;
    };
    let code = tell_key(&block, info, name, len);
    put_cursor(alloc, cursor, Some(block));
    code
}

// tells all of the value at an index of the key of a place
fn tell_value(
    block: &Block,
    index: usize,
    value: &mut ValueInfo,
    name: &mut [u16],
    data: &mut [u8],
) -> u32
    ensures { TellsValue (asked_there (Some block.now) (value_of index))
        value.old value.new name.old name.new data.old data.new result }
{
    let node = end(&block.tree, &block.way);
    let Some(found) = node.key().values().at(index) else {
        return code_of(Refusal::NotFound);
    };
    let (units, bytes) = (found.name.units(), found.data.bytes());
    *value = ValueInfo {
        kind: found.kind,
        name_len: units.len(),
        len: bytes.len(),
    };
    copy_both(units, bytes, name, data)
}

/// Tells the type, the name and the data of the value at an index of the key of a cursor, in the order of names.
#[unsafe(no_mangle)]
pub extern "C" fn regtx_cursor_value(
    alloc: Global,
    cursor: &mut CursorHandle,
    index: usize,
    value: &mut ValueInfo,
    name: &mut [u16],
    data: &mut [u8],
) -> u32
    ensures same { place_in cursor.new ≡ place_in cursor.old }
    ensures told { TellsValue (asked_there (place_in cursor.old) (value_of index))
        value.old value.new name.old name.new data.old data.new result }
{
    let Some(block) = take_cursor(alloc, cursor) else {
        return NOT_OPEN;
    };
    let code = tell_value(&block, index, value, name, data);
    put_cursor(alloc, cursor, Some(block));
    code
}
