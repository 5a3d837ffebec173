//! The deletion of a key with all keys below it, whatever units their names have.
ghost use Rattle.std.specs.Prelude.{◌≡◌, ◌≢◌, true, List, ℕ, ◌∷◌, None, IfOk};
ghost use Rattle.reg_names.specs.Names.{folded, folded_path};
ghost use Rattle.reg_tree_parts.specs.Nodes.{row_at, root_name, IsNode};
ghost use Rattle.reg_tree.specs.Maps.{is_there, row};
ghost use Rattle.regtx_c.specs.Handles.{tree_in};
ghost use Rattle.regtx_c.specs.Deletions.{row_without, why_kept, DeletesNamed, DeletesOpen, DeletesTreeOrNoMemory};

use crate::block::Block;
use crate::codes::{NO_MEMORY, NOT_OPEN, OK, code_of};
use crate::fixed_keys::FixedKeys;
use crate::handle::{Handle, put, take};
use crate::names::names_of;
use key_walk::walk_below;
use refusals::Refusal;
use reg_names::Name;
use reg_tree::Tree;
use reg_tree_parts::Node;
use std::alloc::{AllocError, Global};

// why the key to which the names lead is not deleted with all below it, if it isn't the root
fn why_kept_at(tree: &Tree, names: &[Name]) -> Option<Refusal>
    ensures { result ≡ why_kept tree.now (folded_path names.now) }
{
    let mut found = FixedKeys::new();
    let Ok(there) = walk_below(&mut found, tree, names);
    if !there {
        return Some(Refusal::NotFound);
    }
    if found.are_met {
        return Some(Refusal::Fixed);
    }
    None
}

// the key without the one to which the names lead from it on, and all below that; the key above that is written
#[inline(never)] // so that each level takes little stack
fn without(
    alloc: Global,
    node: &Node,
    name: &Name,
    further: &[Name],
    moment: u64,
) -> Result<Node, AllocError>
    requires there { row_at node.now (folded name.now ∷ folded_path further.now) ≢ None }
    ensures rows { IfOk result (λ made. (path : List (List ℕ)) → row_at made path
        ≡ row_without (folded name.now ∷ folded_path further.now) moment path (row_at node.now path)) }
    ensures root { IfOk result (λ made. root_name made ≡ root_name node.now) }
    ensures node { IfOk result IsNode }
{
    let Some((next, rest)) = further.split_first() else {
        let key = node.key().with_time(moment)?;
        let left = node.without_child(alloc, key, name)?;
        return Ok(left);
    };
    let Some(child) = node.child(name) else {
        unreachable!();
    };
    let below = without(alloc, child, next, rest, moment)?;
    let key = node.key().clone()?;
    let made = node.with_new_child(alloc, key, below)?;
    Ok(made)
}

// the tree without the key to which the names lead, and all below that
fn tree_without(
    alloc: Global,
    tree: &Tree,
    name: &Name,
    further: &[Name],
    moment: u64,
) -> Result<Tree, AllocError>
    requires there { is_there tree.now (folded name.now ∷ folded_path further.now) ≡ true }
    ensures { IfOk result (λ made. (path : List (List ℕ)) → row made path
        ≡ row_without (folded name.now ∷ folded_path further.now) moment path (row tree.now path)) }
{
    let root = without(alloc, tree.root(), name, further, moment)?;
    Tree::from_root(alloc, root)
}

// deletes the key to which the names lead, with all below it
fn delete_named(alloc: Global, block: &mut Block, names: &[Name], time: u64) -> u32
    ensures { DeletesNamed (folded_path names.now) time block.old.tree block.new.tree result }
{
    let Some((name, further)) = names.split_first() else {
        return code_of(Refusal::Fixed);
    };
    if let Some(why) = why_kept_at(block.tree(), names) {
        return code_of(why);
    }
    match tree_without(alloc, block.tree(), name, further, time) {
        Ok(made) => {
            block.set_tree(alloc, made);
            OK
        }
        Err(_) => NO_MEMORY,
    }
}

// deletes the key at a path with all below it
fn delete(alloc: Global, block: &mut Block, path: &[u16], time: u64) -> u32
    ensures { DeletesTreeOrNoMemory path.now time block.old.tree block.new.tree result }
{
    let names = match names_of(alloc, path) {
        Ok(names) => names,
        Err(why) => return code_of(why),
    };
    delete_named(alloc, block, &names, time)
}

/// Deletes the key at a path with all keys below it.
#[unsafe(no_mangle)]
pub extern "C" fn regtx_hive_delete_tree(
    alloc: Global,
    hive: &mut Handle,
    path: &[u16],
    time: u64,
) -> u32
    ensures { DeletesOpen path.now time (tree_in hive.old) (tree_in hive.new) result }
{
    let Some(mut block) = take(alloc, hive) else {
        return NOT_OPEN;
    };
    let code = delete(alloc, &mut block, path, time);
    put(alloc, hive, Some(block));
    code
}
