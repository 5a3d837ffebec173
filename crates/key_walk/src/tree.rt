//! The walk over a tree in memory.
ghost use Rattle.std.specs.Prelude.{OnOk};
ghost use Rattle.key_walk.specs.KeyPaths.{names_on};
ghost use Rattle.key_walk.specs.KeyRows.{node_rows, tree_rows};

use crate::key_path::KeyPath;
use crate::sink::KeySink;
use reg_tree::Tree;
use reg_tree_parts::Node;

/// Hands a sink each key of a tree in the order of folded paths, the root first. The first refusal of the sink ends the
/// walk and is the answer.
pub fn walk_tree<S: KeySink>(sink: &mut S, tree: &Tree) -> Result<(), S::Error>
    ensures { OnOk result (S.Took sink.old sink.new (tree_rows tree.now)) }
{
    walk_node(sink, &KeyPath::Root, tree.root())
}

/// The same for a key, to which this way leads, and all keys below it.
pub fn walk_node<'a, S: KeySink>(
    sink: &mut S,
    path: &'a KeyPath<'a>,
    node: &'a Node,
) -> Result<(), S::Error>
    ensures { OnOk result (S.Took sink.old sink.new (node_rows (names_on path.now) node.now)) }
{
    sink.take(path, node.key())?;
    for index in 0..node.subkey_count() {
        let Some(subkey) = node.subkey_at(index) else {
            unreachable!();
        };
        let below = KeyPath::Below(path, subkey.key().name());
        walk_node(sink, &below, subkey)?;
    }
    Ok(())
}
