//! Steps from key to key, along a way down from the root of a tree.
ghost use Rattle.std.specs.Prelude.{◌≡◌, true, false, IfOk, MatchOption, MatchResult};
ghost use Rattle.std.specs.FinMap as finite;
ghost use Rattle.reg_names.specs.Names.{folded_path};
ghost use Rattle.reg_tree_parts.specs.Nodes.{IsNode};
ghost use Rattle.reg_tree.specs.Maps.{is_there};
ghost use Rattle.regtx_c.specs.Parts.{IsPart};
ghost use Rattle.regtx_c.specs.Places.{way_down, way_next, way_up};
ghost use Rattle.regtx_c.specs.Ways.{Leads, end_of, indexes, FindsNext, StepsIf};

use crate::block::Step;
use reg_names::Name;
use reg_tree::Tree;
use reg_tree_parts::Node;
use std::alloc::{AllocError, Global};

// the same key, which shares all that it has
fn shared(key: &Node) -> Result<Node, AllocError>
    ensures same { IfOk result (λ same. same ≡ key.now) }
    ensures node { IsNode key.now }
{
    let row = key.key().clone()?;
    let same = key.with_key(row)?;
    Ok(same)
}

/// The key to which a way leads.
pub(crate) fn end<'a>(tree: &'a Tree, way: &'a [Step]) -> &'a Node
    requires { Leads tree.now way.now }
    ensures end { result.now ≡ end_of tree.now way.now }
    ensures root { IsNode (finite.entries tree.now) }
{
    let root = tree.root();
    match way.split_last() {
        Some((step, _)) => &step.key,
        None => root,
    }
}

/// Goes to the first subkey of the key. If there is none, the way stays.
pub(crate) fn go_down(tree: &Tree, way: &mut Vec<Step>) -> Result<bool, AllocError>
    requires { Leads tree.now way.old.items }
    ensures on { Leads tree.now way.new.items }
    ensures steps { MatchResult result
        (λ found. StepsIf tree.now (way_down (indexes way.old.items)) found way.old.items way.new.items)
        (λ _. way.new.items ≡ way.old.items) }
{
    let Some(subkey) = end(tree, way).subkey_at(0) else {
        return Ok(false);
    };
    let key = shared(subkey)?;
    way.push(Step { index: 0, key })?;
    Ok(true)
}

// the step to the next subkey of the key above, if there is one
fn next_step(tree: &Tree, way: &[Step]) -> Result<Option<Step>, AllocError>
    requires { Leads tree.now way.now }
    ensures { IfOk result (FindsNext tree.now way.now) }
{
    let Some((last, front)) = way.split_last() else {
        return Ok(None);
    };
    let above = end(tree, front);
    let _ = above.subkey_count(); // for the prover
    let index = last.index + 1;
    let Some(subkey) = above.subkey_at(index) else {
        return Ok(None);
    };
    let key = shared(subkey)?;
    Ok(Some(Step { index, key }))
}

/// Goes to the next subkey of the key above. If there is none, the way stays.
pub(crate) fn go_next(tree: &Tree, way: &mut Vec<Step>) -> Result<bool, AllocError>
    requires { Leads tree.now way.old.items }
    ensures on { Leads tree.now way.new.items }
    ensures steps { MatchResult result
        (λ found. StepsIf tree.now (way_next (indexes way.old.items)) found way.old.items way.new.items)
        (λ _. way.new.items ≡ way.old.items) }
{
    let Some(step) = next_step(tree, way)? else {
        return Ok(false);
    };
    let last = way.len() - 1;
    way[last] = step;
    Ok(true)
}

/// Goes to the key above. If the key is the root, the way stays.
pub(crate) fn go_up(tree: &Tree, way: &mut Vec<Step>) -> bool
    requires { Leads tree.now way.old.items }
    ensures on { Leads tree.now way.new.items }
    ensures steps { StepsIf tree.now (way_up (indexes way.old.items)) result way.old.items way.new.items }
{
    let _ = tree.root(); // for the prover
    let Some(_) = way.pop() else {
        return false;
    };
    true
}

/// The part of a tree at the key to which names lead, as a tree of its own. Nothing is there if there is no such key.
pub(crate) fn part(alloc: Global, tree: &Tree, names: &[Name]) -> Result<Option<Tree>, AllocError>
    ensures { IfOk result (λ found. MatchOption found
        (is_there tree.now (folded_path names.now) ≡ false)
        (λ part. (is_there tree.now (folded_path names.now) ≡ true)
        × IsPart tree.now (folded_path names.now) part)) }
{
    let Some(node) = tree.root().find(names) else {
        return Ok(None);
    };
    let root = shared(node)?;
    let part = Tree::from_root(alloc, root)?;
    Ok(Some(part))
}
