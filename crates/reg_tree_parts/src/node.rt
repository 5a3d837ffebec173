//! Nodes: a key with its subkeys, which never changes once it is made.
ghost use Rattle.std.specs.Prelude.{◌≡◌, ℕ, ◌+◌, ◌<◌, ◌≤◌, T, false, List, [], ◌∷◌, ◌++◌, length, map, take, IfOk, IfSome, IfNone, min, slice_get};
ghost use Rattle.std.specs.FinMap.Entries.{is_sorted};
ghost use Rattle.std.specs.Ordering.{eq_by_cmp};
ghost use Rattle.std.specs.Option.{option_copied};
ghost use Rattle.reg_names.specs.Names.{folded, folded_path};
ghost use Rattle.reg_tree_parts.specs.Orders.{name_order};
ghost use Rattle.reg_tree_parts.specs.Rows.{Row};
ghost use Rattle.persistent_map.specs.Listings.{entries};
ghost use Rattle.persistent_map.specs.Children.{FitsMap};
ghost use Rattle.reg_tree_parts.specs.Nodes.{Entries, entries_of, entries_weight, subkey_entries, root_name, row_at, names_below, spelled_root, begins_path, branch_row, subkeys_of, HasSubkeys, IsNode, AreNodes};

use crate::descriptor::Descriptor;
use crate::key::Key;
use persistent_map::{MapEntry, SharedMap};
use reg_names::Name;
use std::alloc::{AllocError, Global};
use std::marker::Model;
use std::sync::Arc;

/// A key and all keys below it, shared by `Arc`.
///
/// The fields that are read of keys beside a change come first, next to the pointer's own counts.
pub struct Node {
    weight: u64,
    key: Key,
    subkeys: SharedMap<Node>,
}

impl Drop for Node {
    // one drop for all that own a node, whose proofs see no more of it than that
    fn drop(self) {
        let Node {
            weight: _,
            key: _,
            subkeys: _,
        } = self;
    }
}

impl Model for Node {
    ghost use Rattle.std.specs.Prelude.{length};
    ghost use Rattle.std.specs.Coded.{coded×, coded_ℕ, coded_list};
    ghost use Rattle.persistent_map.specs.Listings.{entries};
    ghost use Rattle.reg_tree_parts.specs.Rows.{row_code};
    ghost use Rattle.reg_tree_parts.specs.Nodes.{Entries, entries_of, root_name, NodeFits};

    ghost Value = { Entries };

    ghost coded = { coded_list (coded× (coded_list (coded_list coded_ℕ)) row_code) };

    ghost view = { λ inside. entries_of inside.key (entries root_name inside.subkeys) };

    ghost invariant = { λ inside. NodeFits inside.key inside.subkeys inside.weight };

    ghost size = { length };

    ghost use Rattle.reg_tree_parts.specs.NodeDecreases.{node_decreases};

    ghost size_decreases = { λ a h. node_decreases a };
}

impl Node {
    /// A key with these subkeys, which are in the order of their folded names.
    pub fn new(alloc: Global, key: Key, subkeys: Vec<Arc<Node>>) -> Result<Node, AllocError>
        requires nodes { AreNodes (subkey_entries subkeys.items) }
        requires rises { T (is_sorted name_order (subkey_entries subkeys.items)) }
        ensures is { IfOk result (λ made. made ≡ entries_of key (subkey_entries subkeys.items)) }
        ensures node { IfOk result IsNode }
    {
        let subkeys = SharedMap::from_vec(alloc, subkeys)?;
        Ok(Node::from_parts(key, subkeys))
    }

    /// The weight of the key and of all keys below it, or the greatest number of 64 bits if it is more.
    pub fn weight(&self) -> u64
        ensures { result ≡ min (entries_weight self.now) u64.MAX }
    {
        self.weight
    }

    /// The key itself.
    pub fn key(&self) -> &Key
        ensures here { row_at self.now [] ≡ Some result.now }
        ensures named { root_name self.now ≡ folded result.now.name }
        ensures spelled { spelled_root self.now ≡ result.now.name }
        ensures node { IsNode self.now }
    {
        &self.key
    }

    /// How many subkeys the key has.
    pub fn subkey_count(&self) -> usize
        ensures names { result ≡ length (names_below [] self.now) }
        ensures subkeys { result ≡ length (subkeys_of self.now) }
        ensures has { HasSubkeys self.now (subkeys_of self.now) }
    {
        self.subkeys.len()
    }

    /// The subkey at this index, in the order of names.
    pub fn subkey_at(&self, index: usize) -> Option<&Node>
        ensures at { option_copied result
            ≡ slice_get (map (λ subkey. subkey.1) (subkeys_of self.now)) index }
        ensures smaller { IfSome result (λ subkey. length subkey.now < length self.now) }
        ensures has { HasSubkeys self.now (subkeys_of self.now) }
    {
        let _ = &self.weight; // for the prover
        self.subkeys.at(index)
    }

    /// The subkey of this name.
    pub fn child(&self, name: &Name) -> Option<&Node>
        ensures found { IfSome result (λ child. (path : List (List ℕ)) →
            row_at self.now (folded name.now ∷ path) ≡ row_at child.now path) }
        ensures names { IfSome result (λ child. (path : List (List ℕ)) →
            names_below (folded name.now ∷ path) self.now ≡ names_below path child.now) }
        ensures named { IfSome result (λ child. root_name child.now ≡ folded name.now) }
        ensures none { IfNone result ((path : List (List ℕ)) →
            row_at self.now (folded name.now ∷ path) ≡ None) }
    {
        match self.subkeys.find(name) {
            Some(child) => Some(child),
            None => None,
        }
    }

    /// The key at this path from here on.
    pub fn find(&self, path: &[Name]) -> Option<&Node>
        ensures found { IfSome result (λ node. (rest : List (List ℕ)) →
            row_at self.now (folded_path path.now ++ rest) ≡ row_at node.now rest) }
        ensures names { IfSome result (λ node. names_below (folded_path path.now) self.now
            ≡ names_below [] node.now) }
        ensures none { IfNone result ((rest : List (List ℕ)) →
            row_at self.now (folded_path path.now ++ rest) ≡ None) }
    {
        match path.split_first() {
            None => Some(self),
            Some((name, rest)) => match self.child(name) {
                Some(child) => child.find(rest),
                None => None,
            },
        }
    }

    /// The deepest key that is there on the way along this path, and how many of its names lead to it.
    pub fn nearest(&self, path: &[Name]) -> (&Node, usize)
        ensures within { result.1 ≤ length path.now }
        ensures there { (rest : List (List ℕ)) →
            row_at self.now (folded_path (take result.1 path.now) ++ rest)
            ≡ row_at result.0.now rest }
        ensures missing { result.1 < length path.now → (rest : List (List ℕ)) →
            row_at self.now (folded_path (take (result.1 + 1) path.now) ++ rest) ≡ None }
    {
        match path.split_first() {
            None => (self, 0),
            Some((name, rest)) => match self.child(name) {
                Some(child) => {
                    let (node, depth) = child.nearest(rest);
                    (node, depth + 1)
                }
                None => (self, 0),
            },
        }
    }

    /// The key with another row of the same name, and the same subkeys.
    pub fn with_key(&self, key: Key) -> Result<Node, AllocError>
        requires { folded key.name ≡ root_name self.now }
        ensures here { IfOk result (λ made. row_at made [] ≡ Some key) }
        ensures below { IfOk result (λ made. (name : List ℕ) (rest : List (List ℕ)) →
            row_at made (name ∷ rest) ≡ row_at self.now (name ∷ rest)) }
        ensures named { IfOk result (λ made. root_name made ≡ root_name self.now) }
        ensures node { IfOk result IsNode }
    {
        let _ = &self.weight; // for the prover
        let subkeys = self.subkeys.share()?;
        Ok(Node::from_parts(key, subkeys))
    }

    // the key with this subkey, in place of one of its name if there is one
    fn with_child(&self, alloc: Global, key: Key, child: Arc<Node>) -> Result<Node, AllocError>
        requires named { folded key.name ≡ root_name self.now }
        requires node { IsNode child.value }
        ensures here { IfOk result (λ made. row_at made [] ≡ Some key) }
        ensures child { IfOk result (λ made. (rest : List (List ℕ)) →
            row_at made (root_name child.value ∷ rest) ≡ row_at child.value rest) }
        ensures others { IfOk result (λ made. (name : List ℕ) (rest : List (List ℕ)) →
            eq_by_cmp name_order name (root_name child.value) ≡ false → row_at made (name ∷ rest)
            ≡ row_at self.now (name ∷ rest)) }
        ensures root { IfOk result (λ made. root_name made ≡ root_name self.now) }
        ensures node { IfOk result IsNode }
    {
        let subkeys = self.subkeys.with(alloc, child)?;
        Ok(Node::from_parts(key, subkeys))
    }

    /// The key with another row of the same name, and with this subkey, in place of one of its name if there is one.
    pub fn with_new_child(&self, alloc: Global, key: Key, child: Node) -> Result<Node, AllocError>
        requires named { folded key.name ≡ root_name self.now }
        requires node { IsNode child }
        ensures here { IfOk result (λ made. row_at made [] ≡ Some key) }
        ensures child { IfOk result (λ made. (rest : List (List ℕ)) →
            row_at made (root_name child ∷ rest) ≡ row_at child rest) }
        ensures others { IfOk result (λ made. (name : List ℕ) (rest : List (List ℕ)) →
            eq_by_cmp name_order name (root_name child) ≡ false → row_at made (name ∷ rest)
            ≡ row_at self.now (name ∷ rest)) }
        ensures root { IfOk result (λ made. root_name made ≡ root_name self.now) }
        ensures node { IfOk result IsNode }
    {
        let child = Arc::new(alloc, child)?;
        self.with_child(alloc, key, child)
    }

    /// The key with another row of the same name, and without the subkey of this name.
    pub fn without_child(&self, alloc: Global, key: Key, name: &Name) -> Result<Node, AllocError>
        requires { folded key.name ≡ root_name self.now }
        ensures here { IfOk result (λ made. row_at made [] ≡ Some key) }
        ensures gone { IfOk result (λ made. (rest : List (List ℕ)) →
            row_at made (folded name.now ∷ rest) ≡ None) }
        ensures others { IfOk result (λ made. (other : List ℕ) (rest : List (List ℕ)) →
            eq_by_cmp name_order other (folded name.now) ≡ false → row_at made (other ∷ rest)
            ≡ row_at self.now (other ∷ rest)) }
        ensures root { IfOk result (λ made. root_name made ≡ root_name self.now) }
        ensures node { IfOk result IsNode }
    {
        let subkeys = self.subkeys.without(alloc, name)?;
        Ok(Node::from_parts(key, subkeys))
    }

    /// The name of the subkey at this index, in the order of names.
    pub fn subkey(&self, index: usize) -> Option<&Name>
        ensures { option_copied result ≡ slice_get (names_below [] self.now) index }
    {
        match self.subkeys.at(index) {
            Some(subkey) => Some(subkey.key().name()),
            None => None,
        }
    }

    // the key with this subkey in place of one of its name, and the same row
    #[inline(never)] // so that each level takes little stack
    pub(crate) fn with_subkey(&self, alloc: Global, subkey: Node) -> Result<Node, AllocError>
        requires node { IsNode subkey }
        ensures here { IfOk result (λ made. row_at made [] ≡ row_at self.now []) }
        ensures child { IfOk result (λ made. (rest : List (List ℕ)) →
            row_at made (root_name subkey ∷ rest) ≡ row_at subkey rest) }
        ensures others { IfOk result (λ made. (name : List ℕ) (rest : List (List ℕ)) →
            eq_by_cmp name_order name (root_name subkey) ≡ false → row_at made (name ∷ rest)
            ≡ row_at self.now (name ∷ rest)) }
        ensures root { IfOk result (λ made. root_name made ≡ root_name self.now) }
        ensures node { IfOk result IsNode }
    {
        let key = self.key.clone()?;
        self.with_new_child(alloc, key, subkey)
    }

    /// A key without subkeys.
    pub fn leaf(key: Key) -> Node
        ensures here { row_at result [] ≡ Some key }
        ensures alone { (name : List ℕ) (rest : List (List ℕ)) → row_at result (name ∷ rest) ≡ None }
        ensures root { root_name result ≡ folded key.name }
        ensures node { IsNode result }
    {
        Node::from_parts(key, SharedMap::new())
    }

    /// A new key of this name, and below it one new key of each further name, all with this descriptor.
    pub fn branch(
        alloc: Global,
        name: &Name,
        further: &[Name],
        descriptor: &Descriptor,
        time: u64,
    ) -> Result<Node, AllocError>
        ensures rows { IfOk result (λ made. (path : List (List ℕ)) → row_at made path
            ≡ branch_row name.now further.now descriptor.now time path) }
        ensures root { IfOk result (λ made. root_name made ≡ folded name.now) }
        ensures node { IfOk result IsNode }
    {
        let key = Key::fresh(name, descriptor, time)?;
        let Some((next, rest)) = further.split_first() else {
            return Ok(Node::leaf(key));
        };
        let child = Node::branch(alloc, next, rest, descriptor, time)?;
        let leaf = Node::leaf(key.clone()?);
        leaf.with_new_child(alloc, key, child)
    }

    // a key with these subkeys
    fn from_parts(key: Key, subkeys: SharedMap<Node>) -> Node
        requires nodes { AreNodes (entries root_name subkeys) }
        requires rises { T (is_sorted name_order (entries root_name subkeys)) }
        requires fits { FitsMap root_name entries_weight subkeys }
        ensures is { result ≡ entries_of key (entries root_name subkeys) }
        ensures node { IsNode result }
    {
        let weight = key.weight().saturating_add(subkeys.weight());
        Node {
            weight,
            key,
            subkeys,
        }
    }
}

impl MapEntry for Node {
    ghost key = { root_name };

    ghost entry_weight = { entries_weight };

    ghost over = { λ old new. new };

    fn name(&self) -> &Name {
        self.key.name()
    }

    fn weight(&self) -> u64 {
        self.weight
    }

    fn replaced_by(&self, alloc: Global, new: Arc<Node>) -> Result<Arc<Node>, AllocError>
        requires { root_name new.value ≡ root_name self.now }
        ensures over { IfOk result (λ made. made.value ≡ new.value) }
        ensures named { IfOk result (λ made. root_name made.value ≡ root_name self.now) }
    {
        let _ = alloc; // for the prover
        Ok(new)
    }
}
