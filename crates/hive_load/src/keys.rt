//! Keys with all that is below them.
ghost use Rattle.std.specs.Prelude.{◌≡◌, ◌≤◌, ◌*◌, length, IfOk, MatchResult};
ghost use Rattle.hive_cells.specs.Bins.{Cells, Shows};
ghost use Rattle.reg_tree_parts.specs.Nodes.{subkey_entries, AreNodes, IsNode};
ghost use Rattle.hive_load_parts.specs.CellReads.{marks_of, Spreads};
ghost use Rattle.hive_load_parts.specs.Descriptors.{AreDescriptors};
ghost use Rattle.hive_load.specs.Answers.{LoadsKey, RefusesKey, LoadsKeys, RefusesKeys, LooksAreBounded};

use crate::siblings::node_of;
use hive_cells::{Image, Looks};
use hive_load_parts::{Descriptors, Flags, key};
use refusals::Refusal;
use reg_tree_parts::Node;
use std::alloc::Global;
use std::sync::Arc;

/// The key at an offset with all keys below it, which lie on fewer levels than `levels`.
#[cycle(levels)]
pub(crate) fn load_key(
    alloc: Global,
    image: &Image,
    seen: &mut Flags,
    looks: &mut Looks,
    known: &mut Descriptors,
    split: bool,
    levels: usize,
    at: u32,
) -> Result<Node, Refusal>
    requires covers { length image.now.bytes ≤ 8 * length seen.old }
    requires known { AreDescriptors image.now.bytes known.old }
    ensures answers { (cells : Cells) → Shows image.now.bytes cells → MatchResult result
        (λ node. LoadsKey split cells (marks_of seen.old) (marks_of seen.new) known.old known.new
        levels at node)
        (λ why. RefusesKey split cells (marks_of seen.old) levels at why) }
    ensures node { IfOk result IsNode }
    ensures covers { length seen.new ≡ length seen.old }
    ensures known { AreDescriptors image.now.bytes known.new }
    ensures spreads { Spreads image.now.bytes seen.old seen.new }
    ensures works { LooksAreBounded looks.old looks.new seen.old seen.new result }
{
    let (key, offsets) = match key(alloc, image, seen, looks, known, split, at) {
        Ok(read) => read,
        Err(refusal) => return Err(refusal),
    };
    if levels == 0 {
        return Err(Refusal::TooLarge);
    }
    let nodes = match load_keys(
        alloc,
        image,
        seen,
        looks,
        known,
        split,
        levels - 1,
        &offsets,
    ) {
        Ok(nodes) => nodes,
        Err(refusal) => return Err(refusal),
    };
    node_of(alloc, key, nodes)
}

// the keys at some offsets, one after another
#[cycle(levels)]
fn load_keys(
    alloc: Global,
    image: &Image,
    seen: &mut Flags,
    looks: &mut Looks,
    known: &mut Descriptors,
    split: bool,
    levels: usize,
    offsets: &[u32],
) -> Result<Vec<Arc<Node>>, Refusal>
    requires covers { length image.now.bytes ≤ 8 * length seen.old }
    requires known { AreDescriptors image.now.bytes known.old }
    ensures answers { (cells : Cells) → Shows image.now.bytes cells → MatchResult result
        (λ nodes. LoadsKeys split cells (marks_of seen.old) (marks_of seen.new) known.old known.new
        levels offsets.now (subkey_entries nodes.items))
        (λ why. RefusesKeys split cells (marks_of seen.old) levels offsets.now why) }
    ensures nodes { IfOk result (λ nodes. AreNodes (subkey_entries nodes.items)) }
    ensures covers { length seen.new ≡ length seen.old }
    ensures known { AreDescriptors image.now.bytes known.new }
    ensures spreads { Spreads image.now.bytes seen.old seen.new }
    ensures works { LooksAreBounded looks.old looks.new seen.old seen.new result }
{
    let mut nodes = Vec::new(alloc);
    for at in offsets {
        let node = match load_key(alloc, image, seen, looks, known, split, levels, *at) {
            Ok(node) => node,
            Err(refusal) => return Err(refusal),
        };
        nodes.push(Arc::new(alloc, node)?)?;
    }
    Ok(nodes)
}
