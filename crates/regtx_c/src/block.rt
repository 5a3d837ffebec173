//! What the block behind a handle of C contains.
ghost use Rattle.std.specs.Prelude.{◌≡◌, [], IfOk};

use reg_tree::Tree;
use reg_tree_parts::Node;
use std::alloc::{AllocError, Global};
use std::marker::Model;

/// A step from a key down to one of its subkeys.
#[derive(Drop)]
pub struct Step {
    /// Which subkey it is, in the order of names.
    pub(crate) index: usize,
    /// The subkey.
    pub(crate) key: Node,
}

/// A tree, and a place in it: the way from its root to a key. The way of a hive has no steps.
#[derive(Drop)]
pub struct Block {
    pub(crate) tree: Tree,
    pub(crate) way: Vec<Step>,
}

impl Model for Block {
    ghost use Rattle.regtx_c.specs.Places.{TreePlace, place_code};
    ghost use Rattle.regtx_c.specs.Ways.{indexes, Leads};

    ghost Value = { TreePlace };

    ghost coded = { place_code };

    ghost view = { λ inside. record { tree = inside.tree; way = indexes inside.way.items } };

    ghost invariant = { λ inside. Leads inside.tree inside.way.items };
}

impl Block {
    /// A tree in a block of its own, at its root.
    pub(crate) fn boxed(alloc: Global, tree: Tree) -> Result<Box<Block, Global>, AllocError>
        ensures tree { IfOk result (λ block. block.value.tree ≡ tree) }
        ensures way { IfOk result (λ block. block.value.way ≡ []) }
    {
        let way = Vec::new(alloc);
        Ok(Box::new(alloc, Block { tree, way })?)
    }

    /// The tree.
    pub(crate) fn tree(&self) -> &Tree
        ensures { result.now ≡ self.now.tree }
    {
        &self.tree
    }

    /// Puts another tree in its place, at whose root the block is then.
    pub(crate) fn set_tree(&mut self, alloc: Global, tree: Tree)
        ensures tree { self.new.tree ≡ tree }
        ensures way { self.new.way ≡ [] }
    {
        self.way = Vec::new(alloc);
        self.tree = tree;
    }
}
