//! The map: a node of entries, or five levels of nodes.
ghost use Rattle.std.specs.Prelude.{◌≡◌, T, not, ◌<◌, [], min, length, IfOk, IfSome, map, slice_get};
ghost use Rattle.std.specs.Option.{option_copied};
ghost use Rattle.std.specs.FinMap.Entries.{find, is_sorted, where_key};
ghost use Rattle.std.specs.Ordering.{eq_by_cmp};
ghost use Rattle.reg_names.specs.Names.{folded};
ghost use Rattle.persistent_map.specs.Orders.{name_order};
ghost use Rattle.persistent_map.specs.Listings.{entries, keyed_all, entry_list, children_entries, node_entries, level_4_entries};
ghost use Rattle.persistent_map.specs.Children.{total_weight, AreChildren, entry_kind, node_kind, level_4_kind, FitsMap};
ghost use Rattle.persistent_map.specs.Writes.{written, edited};

use crate::child::{Child, edit_in};
use crate::edit::MapEdit;
use crate::map_entry::MapEntry;
use crate::map_node::{MAX_CHILDREN, MapNode, node_of, nodes_of};
use reg_names::Name;
use std::alloc::{AllocError, Global};
use std::sync::Arc;

/// Entries in the order of their folded names, shared and never changed.
pub struct SharedMap<E> {
    repr: Repr<E>,
}

impl<E: Drop> Drop for SharedMap<E> {
    // one drop for all that own a map, whose proofs see no more of it than that
    fn drop(self) {
        let SharedMap { repr: _ } = self;
    }
}

#[derive(Drop)]
enum Repr<E> {
    Empty,
    Leaf(Arc<MapNode<E>>),
    Tree(Arc<MapNode<MapNode<MapNode<MapNode<MapNode<E>>>>>>),
}

impl<E: MapEntry> SharedMap<E> {
    /// A map of nothing, which takes no memory.
    pub fn new() -> SharedMap<E>
        ensures entries { entries E.key result ≡ [] }
        ensures fits { FitsMap E.key E.entry_weight result }
    {
        SharedMap { repr: Repr::Empty }
    }

    /// The same map, by another pointer.
    pub fn share(&self) -> Result<SharedMap<E>, AllocError>
        requires { FitsMap E.key E.entry_weight self.now }
        ensures entries { IfOk result (λ copy. entries E.key copy ≡ entries E.key self.now) }
        ensures fits { IfOk result (FitsMap E.key E.entry_weight) }
    {
        match &self.repr {
            Repr::Empty => Ok(SharedMap { repr: Repr::Empty }),
            Repr::Leaf(leaf) => {
                let repr = Repr::Leaf(leaf.clone()?);
                Ok(SharedMap { repr })
            }
            Repr::Tree(whole) => {
                let repr = Repr::Tree(whole.clone()?);
                Ok(SharedMap { repr })
            }
        }
    }

    /// How many entries there are.
    pub fn len(&self) -> usize
        requires { FitsMap E.key E.entry_weight self.now }
        ensures { result ≡ length (entries E.key self.now) }
    {
        match &self.repr {
            Repr::Empty => 0,
            Repr::Leaf(leaf) => leaf.count,
            Repr::Tree(whole) => whole.count,
        }
    }

    /// The weight of the entries together, or the greatest number of 64 bits if it is more.
    pub fn weight(&self) -> u64
        requires { FitsMap E.key E.entry_weight self.now }
        ensures { result ≡ min (total_weight E.entry_weight (entries E.key self.now)) u64.MAX }
    {
        match &self.repr {
            Repr::Empty => 0,
            Repr::Leaf(leaf) => leaf.weight,
            Repr::Tree(whole) => whole.weight,
        }
    }

    /// The entry of this name.
    pub fn find(&self, name: &Name) -> Option<&E>
        requires fits { FitsMap E.key E.entry_weight self.now }
        requires sorted { T (is_sorted name_order (entries E.key self.now)) }
        ensures found { option_copied result
            ≡ find name_order (folded name.now) (entries E.key self.now) }
        ensures named { IfSome result (λ entry. E.key entry.now ≡ folded name.now) }
    {
        match &self.repr {
            Repr::Empty => None,
            Repr::Leaf(leaf) => leaf.find(name),
            Repr::Tree(whole) => whole.find(name),
        }
    }

    /// The entry at this index, in the order of names.
    pub fn at(&self, index: usize) -> Option<&E>
        requires { FitsMap E.key E.entry_weight self.now }
        ensures { option_copied result ≡ slice_get (map (λ e. e.1) (entries E.key self.now)) index }
    {
        match &self.repr {
            Repr::Empty => None,
            Repr::Leaf(leaf) => leaf.at(index),
            Repr::Tree(whole) => whole.at(index),
        }
    }

    /// A map of these entries, which are in the order of their folded names.
    pub fn from_vec(alloc: Global, items: Vec<Arc<E>>) -> Result<SharedMap<E>, AllocError>
        ensures entries { IfOk result (λ made. entries E.key made ≡ keyed_all E.key items.items) }
        ensures fits { IfOk result (FitsMap E.key E.entry_weight) }
    {
        let made = of_entries(alloc, items)?;
        Ok(made)
    }

    /// The map with this entry under its name.
    pub fn with(&self, alloc: Global, new: Arc<E>) -> Result<SharedMap<E>, AllocError>
        requires fits { FitsMap E.key E.entry_weight self.now }
        requires sorted { T (is_sorted name_order (entries E.key self.now)) }
        ensures entries { IfOk result (λ made. entries E.key made
            ≡ written E.key E.over new.value (entries E.key self.now)) }
        ensures fits { IfOk result (FitsMap E.key E.entry_weight) }
    {
        self.edit(alloc, MapEdit::Put(new))
    }

    /// The map without the entry of this name.
    pub fn without(&self, alloc: Global, name: &Name) -> Result<SharedMap<E>, AllocError>
        requires fits { FitsMap E.key E.entry_weight self.now }
        requires sorted { T (is_sorted name_order (entries E.key self.now)) }
        ensures entries { IfOk result (λ made. entries E.key made ≡ where_key name_order (λ key. not
            (eq_by_cmp name_order (folded name.now) key)) (entries E.key self.now)) }
        ensures fits { IfOk result (FitsMap E.key E.entry_weight) }
    {
        self.edit(alloc, MapEdit::Remove(name))
    }

    // the map after an edit
    fn edit(&self, alloc: Global, edit: MapEdit<'_, E>) -> Result<SharedMap<E>, AllocError>
        requires fits { FitsMap E.key E.entry_weight self.now }
        requires sorted { T (is_sorted name_order (entries E.key self.now)) }
        ensures entries { IfOk result (λ made. entries E.key made
            ≡ edited E.key E.over edit.entry (entries E.key self.now)) }
        ensures fits { IfOk result (FitsMap E.key E.entry_weight) }
    {
        match &self.repr {
            Repr::Empty => SharedMap::from_vec(alloc, edit.of_nothing(alloc)?),
            Repr::Leaf(leaf) => of_entries(alloc, edit_in(alloc, &leaf.children, edit)?),
            Repr::Tree(whole) => of_level_4(alloc, edit_in(alloc, &whole.children, edit)?),
        }
    }
}

// a map of these entries
fn of_entries<E: MapEntry>(alloc: Global, items: Vec<Arc<E>>) -> Result<SharedMap<E>, AllocError>
    requires { AreChildren (entry_kind E.key E.entry_weight) items.items }
    ensures entries { IfOk result (λ made. entries E.key made
        ≡ children_entries (entry_list E.key) items.items) }
    ensures fits { IfOk result (FitsMap E.key E.entry_weight) }
{
    if items.is_empty() {
        return Ok(SharedMap { repr: Repr::Empty });
    }
    if items.len() <= MAX_CHILDREN {
        let repr = Repr::Leaf(node_of(alloc, items)?);
        return Ok(SharedMap { repr });
    }
    let made = of_leaf_nodes(alloc, nodes_of(alloc, items)?)?;
    Ok(made)
}

// a map of these nodes of entries
fn of_leaf_nodes<E: MapEntry>(
    alloc: Global,
    nodes: Vec<Arc<MapNode<E>>>,
) -> Result<SharedMap<E>, AllocError>
    requires { AreChildren (node_kind (entry_kind E.key E.entry_weight)) nodes.items }
    ensures entries { IfOk result (λ made. entries E.key made
        ≡ children_entries (node_entries (entry_list E.key)) nodes.items) }
    ensures fits { IfOk result (FitsMap E.key E.entry_weight) }
{
    let level_2 = nodes_of(alloc, nodes)?;
    let level_3 = nodes_of(alloc, level_2)?;
    let level_4 = nodes_of(alloc, level_3)?;
    let made = of_level_4(alloc, level_4)?;
    Ok(made)
}

// a map of these nodes of level 4
fn of_level_4<E: MapEntry>(
    alloc: Global,
    level_4: Vec<Arc<MapNode<MapNode<MapNode<MapNode<E>>>>>>,
) -> Result<SharedMap<E>, AllocError>
    requires { AreChildren (level_4_kind E.key E.entry_weight) level_4.items }
    ensures entries { IfOk result (λ made. entries E.key made
        ≡ children_entries (level_4_entries E.key) level_4.items) }
    ensures fits { IfOk result (FitsMap E.key E.entry_weight) }
{
    if level_4.is_empty() {
        return Ok(SharedMap { repr: Repr::Empty });
    }
    let repr = Repr::Tree(node_of(alloc, level_4)?);
    Ok(SharedMap { repr })
}
