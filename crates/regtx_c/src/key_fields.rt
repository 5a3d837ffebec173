//! What a key has beside its name, its time, its subkeys and its values: flags, a class and a security descriptor.
ghost use Rattle.std.specs.Prelude.{◌≡◌, ◌⊎◌, Ok, Err, MatchResult};
ghost use Rattle.refusals.specs.declared.refusal.Refusal.TheVariants.{NoMemory};
ghost use Rattle.regtx_c.specs.Handles.{asked, coded, tree_in};
ghost use Rattle.regtx_c.specs.Buffers.{CopiesOrNoMemory};
ghost use Rattle.regtx_c.specs.KeyFields.{key_row, key_flags, key_class, key_descriptor, TellsNumberOrNoMemory};

use crate::codes::{NOT_OPEN, OK, code_of};
use crate::handle::{Handle, put, take};
use crate::reads::key_node;
use crate::room::copy;
use refusals::Refusal;
use reg_tree::Tree;
use reg_tree_parts::Key;
use std::alloc::Global;

// the key at a path
fn key_of<'a>(alloc: Global, tree: &'a Tree, path: &[u16]) -> Result<&'a Key, Refusal>
    ensures { MatchResult result (λ key. key_row path.now tree.now ≡ Ok key.now)
        (λ why. (why ≡ NoMemory) ⊎ (key_row path.now tree.now ≡ Err why)) }
{
    match key_node(alloc, tree, path) {
        Ok(node) => Ok(node.key()),
        Err(why) => Err(why),
    }
}

// tells the flags of the key at a path
fn tell_flags(alloc: Global, tree: &Tree, path: &[u16], flags: &mut u16) -> u32
    ensures { TellsNumberOrNoMemory (coded (key_flags path.now tree.now)) flags.old flags.new result }
{
    match key_of(alloc, tree, path) {
        Ok(key) => {
            *flags = key.flags();
            OK
        }
        Err(why) => code_of(why),
    }
}

/// Tells the flags of the key at a path, as a hive file has them but for 0x0020: that one only says how its name is stored.
#[unsafe(no_mangle)]
pub extern "C" fn regtx_hive_flags(
    alloc: Global,
    hive: &mut Handle,
    path: &[u16],
    flags: &mut u16,
) -> u32
    ensures same { tree_in hive.new ≡ tree_in hive.old }
    ensures told { TellsNumberOrNoMemory (asked (tree_in hive.old) (key_flags path.now))
        flags.old flags.new result }
{
    let Some(block) = take(alloc, hive) else {
        return NOT_OPEN;
    };
    let code = tell_flags(alloc, block.tree(), path, flags);
    put(alloc, hive, Some(block));
    code
}

// tells the class of the key at a path
fn tell_class(alloc: Global, tree: &Tree, path: &[u16], class: &mut [u8], len: &mut usize) -> u32
    ensures { CopiesOrNoMemory (coded (key_class path.now tree.now))
        class.old class.new len.old len.new result }
{
    match key_of(alloc, tree, path) {
        Ok(key) => copy(key.class(), class, len),
        Err(why) => code_of(why),
    }
}

/// Tells the class of the key at a path: its bytes as a hive file has them, and none if the key has no class.
#[unsafe(no_mangle)]
pub extern "C" fn regtx_hive_class(
    alloc: Global,
    hive: &mut Handle,
    path: &[u16],
    class: &mut [u8],
    len: &mut usize,
) -> u32
    ensures same { tree_in hive.new ≡ tree_in hive.old }
    ensures told { CopiesOrNoMemory (asked (tree_in hive.old) (key_class path.now))
        class.old class.new len.old len.new result }
{
    let Some(block) = take(alloc, hive) else {
        return NOT_OPEN;
    };
    let code = tell_class(alloc, block.tree(), path, class, len);
    put(alloc, hive, Some(block));
    code
}

// tells the security descriptor of the key at a path
fn tell_descriptor(
    alloc: Global,
    tree: &Tree,
    path: &[u16],
    descriptor: &mut [u8],
    len: &mut usize,
) -> u32
    ensures { CopiesOrNoMemory (coded (key_descriptor path.now tree.now))
        descriptor.old descriptor.new len.old len.new result }
{
    match key_of(alloc, tree, path) {
        Ok(key) => copy(key.descriptor().bytes(), descriptor, len),
        Err(why) => code_of(why),
    }
}

/// Tells the security descriptor of the key at a path: its bytes as a hive file has them, and none if the key has none.
#[unsafe(no_mangle)]
pub extern "C" fn regtx_hive_descriptor(
    alloc: Global,
    hive: &mut Handle,
    path: &[u16],
    descriptor: &mut [u8],
    len: &mut usize,
) -> u32
    ensures same { tree_in hive.new ≡ tree_in hive.old }
    ensures told { CopiesOrNoMemory (asked (tree_in hive.old) (key_descriptor path.now))
        descriptor.old descriptor.new len.old len.new result }
{
    let Some(block) = take(alloc, hive) else {
        return NOT_OPEN;
    };
    let code = tell_descriptor(alloc, block.tree(), path, descriptor, len);
    put(alloc, hive, Some(block));
    code
}
