//! One registry tree.
ghost use Rattle.std.specs.Prelude.{◌≡◌, ◌-◌, ◌≤◌, ◌==◌, length, List, [], ℕ, ◌++◌, IfSome, IfNone, IfOk, min, IfErr};
ghost use Rattle.reg_names.specs.Names.{folded_path};
ghost use Rattle.reg_tree_parts.specs.Nodes.{row_at, names_below, IsNode};
ghost use Rattle.std.specs.FinMap as finite;
ghost use Rattle.reg_tree.specs.Maps.{row, is_there, subkeys, missing, weight, IsTree};
ghost use Rattle.reg_tree.specs.Encodable.{IsEncodable};
ghost use Rattle.reg_tree.specs.Reads.{value_at, value_index, subkey_index, info_of, IsMissing};
ghost use Rattle.reg_tree.specs.Stamps.{time_at};

mod change;
mod edits;
mod judgement;
mod lists;
mod stamps;

use refusals::Refusal;
use reg_names::{Name, Path};
use reg_tree_parts::{Node, Value};
use std::alloc::{AllocError, Global};
use std::marker::Model;
use std::sync::Arc;

/// The tree of one hive: a map from folded paths to rows, each of which a hive file can encode.
///
/// A change makes a new tree, which shares all nodes off its path; a clone shares all of them.
pub struct Tree {
    root: Arc<Node>,
}

impl Drop for Tree {
    // one drop for all that own a tree, whose proofs see no more of it than that
    fn drop(self) {
        let Tree { root: _ } = self;
    }
}

impl Model for Tree {
    ghost use Rattle.std.specs.Coded.{coded_ℕ, coded_list};
    ghost use Rattle.std.specs.FinMap as finite;
    ghost use Rattle.std.specs.Arc.{arc_value};
    ghost use Rattle.reg_tree_parts.specs.Rows.{row_code};
    ghost use Rattle.reg_tree_parts.specs.Orders.{path_order};
    ghost use Rattle.reg_tree.specs.Maps.{TreeMap};
    ghost use Rattle.reg_tree.specs.Encodable.{IsRooted};

    ghost Value = { TreeMap };

    ghost coded = { finite.code (coded_list (coded_list coded_ℕ)) row_code };

    ghost view = { λ inside. finite.from_sorted (arc_value inside.root) };

    ghost invariant = { λ inside. IsRooted (arc_value inside.root) };
}

/// The flag of a key that is not to be deleted.
pub const NOT_DELETABLE: u16 = 0x0008;

const _: () = prove!(NOT_DELETABLE == 0x0008);

/// What a key has.
#[derive(Clone, Copy)]
pub struct Info {
    /// How many subkeys.
    pub subkeys: usize,
    /// How many values.
    pub values: usize,
    /// The moment of its last write.
    pub time: u64,
}

impl Tree {
    /// The tree of a root's node, for callers that read keys from a hive file.
    pub fn from_root(alloc: Global, root: Node) -> Result<Tree, AllocError>
        requires { IsEncodable (finite.from_sorted root) }
        ensures { IfOk result (λ tree. tree ≡ finite.from_sorted root) }
    {
        let _ = root.key(); // for the prover
        let root = Arc::new(alloc, root)?;
        Ok(Tree { root })
    }

    /// The root's node, which contains all keys. A hive file can encode them.
    pub fn root(&self) -> &Node
        ensures same { self.now ≡ finite.from_sorted result.now }
        ensures node { IsNode result.now }
        ensures tree { IsTree self.now }
        ensures encodable { IsEncodable self.now }
    {
        &self.root
    }

    /// The weight of the tree, or the greatest number of 64 bits if it is more.
    pub fn weight(&self) -> u64
        ensures { result ≡ min (weight self.now) u64.MAX }
    {
        self.root.weight()
    }

    /// How many keys are missing on the way to this path, its own included: what a creation would make.
    pub fn missing_levels(&self, path: &Path) -> usize
        ensures { result ≡ length (missing self.now (folded_path path.now)) }
    {
        let names = path.names();
        let (_, depth) = self.nearest(names);
        names.len() - depth
    }

    /// The value of this name. Refused with `NotFound` exactly if there is no such key or value.
    pub fn get_value(&self, path: &Path, name: &Name) -> Result<&Value, Refusal>
        ensures ok { IfOk result (λ value.
            value_at self.now (folded_path path.now) name.now ≡ Some value.now) }
        ensures refused { IfErr result
            (IsMissing (value_at self.now (folded_path path.now) name.now)) }
    {
        let Some(node) = self.node(path.names()) else {
            return Err(Refusal::NotFound);
        };
        match node.key().values().get(name) {
            Some(value) => Ok(value),
            None => Err(Refusal::NotFound),
        }
    }

    /// The value at this index, in the order of names. Refused with `NotFound` exactly if there is no such key or the
    /// index is past its last value.
    pub fn enum_value(&self, path: &Path, index: usize) -> Result<&Value, Refusal>
        ensures ok { IfOk result (λ value.
            value_index self.now (folded_path path.now) index ≡ Some value.now) }
        ensures refused { IfErr result
            (IsMissing (value_index self.now (folded_path path.now) index)) }
    {
        let Some(node) = self.node(path.names()) else {
            return Err(Refusal::NotFound);
        };
        match node.key().values().at(index) {
            Some(value) => Ok(value),
            None => Err(Refusal::NotFound),
        }
    }

    /// The name of the subkey at this index, in the order of names. Refused with `NotFound` exactly if there is no such
    /// key or the index is past its last subkey.
    pub fn enum_key(&self, path: &Path, index: usize) -> Result<&Name, Refusal>
        ensures ok { IfOk result (λ name.
            subkey_index self.now (folded_path path.now) index ≡ Some name.now) }
        ensures refused { IfErr result
            (IsMissing (subkey_index self.now (folded_path path.now) index)) }
    {
        let Some(node) = self.node(path.names()) else {
            return Err(Refusal::NotFound);
        };
        let _ = node.key(); // for the prover
        match node.subkey(index) {
            Some(name) => Ok(name),
            None => Err(Refusal::NotFound),
        }
    }

    /// How many subkeys and values the key has, and when it was last written. Refused with `NotFound` exactly if there
    /// is no such key.
    pub fn query_info(&self, path: &Path) -> Result<Info, Refusal>
        ensures ok { IfOk result (λ info. info_of self.now (folded_path path.now) ≡ Some info) }
        ensures refused { IfErr result (IsMissing (info_of self.now (folded_path path.now))) }
    {
        match self.node(path.names()) {
            Some(node) => Ok(Info {
                subkeys: node.subkey_count(),
                values: node.key().values().len(),
                time: node.key().time(),
            }),
            None => Err(Refusal::NotFound),
        }
    }

    /// When the key at this path was last written, or nothing if there is no such key. Takes no memory.
    pub fn time_at(&self, names: &[Name]) -> Option<u64>
        ensures { result ≡ time_at self.now (folded_path names.now) }
    {
        match self.node(names) {
            Some(node) => Some(node.key().time()),
            None => None,
        }
    }

    // the last key on the way along the path that is there, and how many of the names lead to it
    fn nearest(&self, path: &[Name]) -> (&Node, usize)
        ensures within { result.1 ≤ length path.now }
        ensures missing { length (missing self.now (folded_path path.now))
            ≡ length path.now - result.1 }
        ensures there { is_there self.now (folded_path path.now) ≡ (result.1 == length path.now) }
    {
        let (node, depth) = self.root.nearest(path);
        let _ = node.key(); // for the prover
        (node, depth)
    }

    // the node of the key at this path
    fn node(&self, path: &[Name]) -> Option<&Node>
        ensures found { IfSome result (λ node. (rest : List (List ℕ)) →
            row self.now (folded_path path.now ++ rest) ≡ row_at node.now rest) }
        ensures key { IfSome result (λ node. row self.now (folded_path path.now)
            ≡ row_at node.now []) }
        ensures names { IfSome result (λ node. subkeys self.now (folded_path path.now)
            ≡ names_below [] node.now) }
        ensures none { IfNone result ((rest : List (List ℕ)) →
            row self.now (folded_path path.now ++ rest) ≡ None) }
        ensures missing { IfNone result (row self.now (folded_path path.now) ≡ None) }
    {
        match self.root.find(path) {
            Some(node) => Some(node),
            None => None,
        }
    }
}

impl Clone for Tree {
    ghost is_clone = { λ old copy. copy ≡ old };

    fn clone(&self) -> Result<Tree, AllocError>
        ensures { IfOk result (λ copy. copy ≡ self.now) }
    {
        let root = self.root.clone()?;
        Ok(Tree { root })
    }
}
