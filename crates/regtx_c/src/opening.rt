//! Opening and closing a hive.
ghost use Rattle.std.specs.Prelude.{◌≡◌, IfOk, IfErr};
ghost use Rattle.hive_file_reader.specs.Hives.{FileHoldsShallowTree};
ghost use Rattle.hive_file_reader.specs.Readings.{ShallowFileRefusedAs};
ghost use Rattle.regtx_c.specs.Handles.{tree_in};
ghost use Rattle.regtx_c.specs.Openings.{new_root, new_tree, IsMade, IsOpened};

use crate::block::Block;
use crate::codes::{NO_MEMORY, OK, code_of};
use crate::handle::{Handle, put};
use hive_file_reader::load_file_any_weight;
use refusals::Refusal;
use reg_names::Name;
use reg_tree::Tree;
use reg_tree_parts::{Data, Descriptor, Key, Node, Values};
use std::alloc::{AllocError, Global};

/// The number as which damage names the hive.
const HIVE: u8 = 0;

const _: () = prove!(HIVE == 0);

/// The name of a new hive's root: `ROOT`. Some programs read no hive whose root has none.
const ROOT_NAME: [u16; 4] = [0x52, 0x4f, 0x4f, 0x54];

/// The flags of a new hive's root: that of a root, and that it is not to be deleted.
const ROOT_FLAGS: u16 = 0x000c;

/// The shortest security descriptor: of revision 1, self-relative, without owner, group and lists.
const ROOT_DESCRIPTOR: [u8; 20] = [
    0x01, 0x00, 0x00, 0x80, 0, 0, 0, 0, 0, 0, 0, 0, 0, 0, 0, 0, 0, 0, 0, 0,
];

// a copy of bytes
fn copied(alloc: Global, bytes: &[u8]) -> Result<Vec<u8>, AllocError>
    ensures { IfOk result (λ copy. copy.items ≡ bytes.now) }
{
    bytes.to_vec(alloc)
}

/// The hive of a file in memory. Refused as [`load_file_any_weight`] is.
pub(crate) fn loaded(alloc: Global, copy: Vec<u8>) -> Result<Box<Block, Global>, Refusal>
    ensures holds { IfOk result (λ block. FileHoldsShallowTree copy.items block.value.tree) }
    ensures refused { IfErr result (ShallowFileRefusedAs 0 copy.items) }
{
    let held = match load_file_any_weight(alloc, copy, HIVE) {
        Ok(held) => held,
        Err(why) => return Err(why),
    };
    match Block::boxed(alloc, held.tree) {
        Ok(block) => Ok(block),
        Err(_) => Err(Refusal::NoMemory),
    }
}

// the hive of a file in memory, of which a copy is taken
fn loaded_copy(alloc: Global, file: &[u8]) -> Result<Box<Block, Global>, Refusal>
    ensures holds { IfOk result (λ block. FileHoldsShallowTree file.now block.value.tree) }
    ensures refused { IfErr result (ShallowFileRefusedAs 0 file.now) }
{
    let Ok(copy) = copied(alloc, file) else {
        return Err(Refusal::NoMemory);
    };
    loaded(alloc, copy)
}

/// Opens the hive that the bytes of a file hold. The bytes are read as a primary file without a log, and not kept. What
/// was open by the handle before is closed. The hive may have any weight.
///
/// Refused as `load_file_any_weight` is: the bytes hold no hive, or there is no memory. Then the handle stays as it was.
#[unsafe(no_mangle)]
pub extern "C" fn regtx_hive_open(alloc: Global, file: &[u8], hive: &mut Handle) -> u32
    ensures { IsOpened file.now (tree_in hive.old) (tree_in hive.new) result }
{
    match loaded_copy(alloc, file) {
        Ok(block) => {
            put(alloc, hive, Some(block));
            OK
        }
        Err(why) => code_of(why),
    }
}

// the root of a new hive
fn root_key(alloc: Global) -> Result<Key, AllocError>
    ensures { IfOk result (λ key. key ≡ new_root) }
{
    let name = Name::stored(alloc, &ROOT_NAME)?;
    let class = Data::new(alloc, &[])?;
    let descriptor = Descriptor::new(alloc, &ROOT_DESCRIPTOR)?;
    Key::new(alloc, name, class, ROOT_FLAGS, descriptor, 0, Values::new())
}

// the tree of a new hive
fn new_tree_of(alloc: Global) -> Result<Tree, AllocError>
    ensures { IfOk result (λ tree. tree ≡ new_tree) }
{
    let leaf = Node::leaf(root_key(alloc)?);
    Tree::from_root(alloc, leaf)
}

// a new hive
fn fresh(alloc: Global) -> Result<Box<Block, Global>, AllocError>
    ensures { IfOk result (λ block. block.value.tree ≡ new_tree) }
{
    Block::boxed(alloc, new_tree_of(alloc)?)
}

/// Opens a new hive, which has a root and nothing else. The root's name is `ROOT`. What was open by the handle before is
/// closed.
///
/// Refused with `NO_MEMORY` alone. Then the handle stays as it was.
#[unsafe(no_mangle)]
pub extern "C" fn regtx_hive_new(alloc: Global, hive: &mut Handle) -> u32
    ensures { IsMade (tree_in hive.old) (tree_in hive.new) result }
{
    match fresh(alloc) {
        Ok(block) => {
            put(alloc, hive, Some(block));
            OK
        }
        Err(_) => NO_MEMORY,
    }
}

/// Closes the hive that is open by the handle, if one is.
#[unsafe(no_mangle)]
pub extern "C" fn regtx_hive_close(alloc: Global, hive: &mut Handle)
    ensures { tree_in hive.new ≡ None }
{
    put(alloc, hive, None);
}
