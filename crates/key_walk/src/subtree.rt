//! The walk over a part of a tree in memory.
ghost use Rattle.std.specs.Prelude.{◌≡◌, OnOk, IfOk, is_some};
ghost use Rattle.reg_names.specs.Names.{folded_path};
ghost use Rattle.reg_tree_parts.specs.Nodes.{row_at};
ghost use Rattle.reg_tree.specs.Maps.{is_there};
ghost use Rattle.key_walk.specs.KeyPaths.{names_on};
ghost use Rattle.key_walk.specs.SubtreeRows.{rows_below, rows_from};

use crate::key_path::KeyPath;
use crate::sink::KeySink;
use crate::tree::walk_node;
use reg_names::Name;
use reg_tree::Tree;
use reg_tree_parts::Node;

/// Hands a sink the key at this path and each key below it, in the order of folded paths, and answers whether the key is
/// there. If it isn't, no key is below its path. The first refusal of the sink ends the walk and is the answer.
pub fn walk_below<S: KeySink>(sink: &mut S, tree: &Tree, path: &[Name]) -> Result<bool, S::Error>
    ensures taken { OnOk result (S.Took sink.old sink.new
        (rows_below tree.now (folded_path path.now))) }
    ensures there { IfOk result (λ there. there ≡ is_there tree.now (folded_path path.now)) }
{
    walk_from(sink, &KeyPath::Root, tree.root(), path)
}

// the same for a key, to which this way leads, and a path from it on
fn walk_from<'a, S: KeySink>(
    sink: &mut S,
    way: &'a KeyPath<'a>,
    node: &'a Node,
    path: &[Name],
) -> Result<bool, S::Error>
    ensures taken { OnOk result (S.Took sink.old sink.new
        (rows_from (names_on way.now) node.now (folded_path path.now))) }
    ensures there { IfOk result (λ there. there
        ≡ is_some (row_at node.now (folded_path path.now))) }
{
    let _ = node.key(); // for the prover
    let _ = node.subkey_count(); // for the prover
    let Some((name, rest)) = path.split_first() else {
        walk_node(sink, way, node)?;
        return Ok(true);
    };
    let Some(subkey) = node.child(name) else {
        return Ok(false);
    };
    walk_from(
        sink,
        &KeyPath::Below(way, subkey.key().name()),
        subkey,
        rest,
    )
}
