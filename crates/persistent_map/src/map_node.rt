//! Nodes: a few children, with what is kept of them together.
ghost use Rattle.std.specs.Prelude.{◌≡◌, ◌<◌, [], ◌∷◌, ◌++◌, length, min, map, IfOk, OnOk, MatchOption, ◌≤◌, sum_by};
ghost use Rattle.std.specs.Arc.{arc_value};
ghost use Rattle.reg_names.specs.Names.{folded};
ghost use Rattle.persistent_map.specs.Listings.{children_entries, node_entries};
ghost use Rattle.persistent_map.specs.Children.{IsChildIndex, IsNth, IsChild, AreChildren, IsMore, node_kind};

use crate::child::Child;
use crate::map_entry::MapEntry;
use reg_names::Name;
use std::alloc::{AllocError, Global};
use std::sync::Arc;

/// Some children in order, each shared as one thing: another node has it by one more pointer. Beside them the node
/// keeps how many entries they have, what these weigh, and the name of the first entry.
///
/// The fields that are read of nodes beside a change come first, next to the pointer's own counts.
#[derive(Drop)]
pub struct MapNode<P> {
    pub(crate) count: usize,
    pub(crate) weight: u64,
    pub(crate) first: Name,
    pub(crate) children: Vec<Arc<P>>,
}

/// The most children of a node that is not the top of a map.
pub(crate) const MAX_CHILDREN: usize = 16;

/// Adds one thing. What `push` hands back if it is refused is dropped here, in one place for all that add.
pub(crate) fn add<T: Drop>(made: &mut Vec<Arc<T>>, item: Arc<T>) -> Result<(), AllocError>
    ensures { OnOk result (made.new.items ≡ made.old.items ++ (item ∷ [])) }
{
    made.push(item)?;
    Ok(())
}

/// Adds the same things.
pub(crate) fn extend<T: Drop>(made: &mut Vec<Arc<T>>, items: &[Arc<T>]) -> Result<(), AllocError>
    ensures { OnOk result
        (map arc_value made.new.items ≡ map arc_value made.old.items ++ map arc_value items.now) }
{
    made.extend_with_clones(items)?;
    Ok(())
}

// the same things
fn copied<T: Drop>(alloc: Global, items: &[Arc<T>]) -> Result<Vec<Arc<T>>, AllocError>
    ensures { IfOk result (λ made. map arc_value made.items ≡ map arc_value items.now) }
{
    let mut made = Vec::with_capacity(alloc, items.len())?;
    extend(&mut made, items)?;
    Ok(made)
}

/// The index of the child in which this name belongs.
pub(crate) fn child_index<E: MapEntry, P: Child<E>>(children: &[Arc<P>], name: &Name) -> usize
    requires { 0 < length children.now }
    ensures { IsChildIndex P.kind.first children.now (folded name.now) result }
{
    let mut low = 0;
    let mut high = children.len();
    while low + 1 < high {
        let middle = low + (high - low) / 2;
        if name.cmp(children[middle].first()).is_lt() {
            high = middle;
        } else {
            low = middle;
        }
    }
    low
}

/// The index of the child that has the entry at this index, and the entry's index in it.
pub(crate) fn nth<E: MapEntry, P: Child<E>>(
    children: &[Arc<P>],
    index: usize,
) -> Option<(usize, usize)>
    ensures { MatchOption result (sum_by P.kind.count (map arc_value children.now) ≤ index) (λ at.
        IsNth P.kind.count children.now index at.0 at.1) }
{
    let mut rest = index;
    for at in 0..children.len() {
        let count = children[at].count();
        if rest < count {
            return Some((at, rest));
        }
        rest -= count;
    }
    None
}

/// The nodes of these children.
pub(crate) fn nodes_of<E: MapEntry, P: Child<E>>(
    alloc: Global,
    children: Vec<Arc<P>>,
) -> Result<Vec<Arc<MapNode<P>>>, AllocError>
    requires { AreChildren P.kind children.items }
    ensures entries { IfOk result (λ made. children_entries (node_entries P.kind.list) made.items
        ≡ children_entries P.kind.list children.items) }
    ensures children { IfOk result (λ made. AreChildren (node_kind P.kind) made.items) }
{
    let mut made = Vec::new(alloc);
    add_nodes(alloc, &children, &mut made)?;
    Ok(made)
}

/// Adds the node of these children; the nodes of their halves if they are too many for one, and none if there are no
/// children.
pub(crate) fn add_node<E: MapEntry, P: Child<E>>(
    alloc: Global,
    children: Vec<Arc<P>>,
    made: &mut Vec<Arc<MapNode<P>>>,
) -> Result<(), AllocError>
    requires { AreChildren P.kind children.items }
    ensures { OnOk result (IsMore (node_kind P.kind) (children_entries P.kind.list children.items)
        made.old.items made.new.items) }
{
    if children.is_empty() || children.len() > MAX_CHILDREN {
        return add_nodes(alloc, &children, made);
    }
    add(made, node_of(alloc, children)?)
}

// adds the nodes of these children
fn add_nodes<E: MapEntry, P: Child<E>>(
    alloc: Global,
    children: &[Arc<P>],
    made: &mut Vec<Arc<MapNode<P>>>,
) -> Result<(), AllocError>
    requires { AreChildren P.kind children.now }
    ensures { OnOk result (IsMore (node_kind P.kind) (children_entries P.kind.list children.now)
        made.old.items made.new.items) }
{
    if children.is_empty() {
        return Ok(());
    }
    if children.len() <= MAX_CHILDREN {
        return add(made, node_of(alloc, copied(alloc, children)?)?);
    }
    let (front, back) = children.split_at(children.len() / 2);
    add_nodes(alloc, front, made)?;
    add_nodes(alloc, back, made)?;
    Ok(())
}

/// The node of these children. Refused also if the count exceeds 64 bits.
pub(crate) fn node_of<E: MapEntry, P: Child<E>>(
    alloc: Global,
    children: Vec<Arc<P>>,
) -> Result<Arc<MapNode<P>>, AllocError>
    requires some { 0 < length children.items }
    requires children { AreChildren P.kind children.items }
    ensures entries { IfOk result (λ made. node_entries P.kind.list (arc_value made)
        ≡ children_entries P.kind.list children.items) }
    ensures child { IfOk result (λ made. IsChild (node_kind P.kind) (arc_value made)) }
{
    let Totals { count, weight } = totals_of(&children)?;
    let first = children[0].first().clone()?;
    let made = Arc::new(
        alloc,
        MapNode {
            count,
            weight,
            first,
            children,
        },
    )?;
    Ok(made)
}

/// How many entries children have together, and what they weigh.
#[derive(Clone, Copy)]
pub(crate) struct Totals {
    count: usize,
    weight: u64,
}

/// The totals of these children. Refused if the count exceeds 64 bits.
pub(crate) fn totals_of<E: MapEntry, P: Child<E>>(children: &[Arc<P>]) -> Result<Totals, AllocError>
    ensures count { IfOk result (λ all.
        all.count ≡ sum_by P.kind.count (map arc_value children.now)) }
    ensures weight { IfOk result (λ all.
        all.weight ≡ min (sum_by P.kind.weight (map arc_value children.now)) u64.MAX) }
{
    let mut count = 0usize;
    let mut weight = 0u64;
    for child in children {
        count = match count.checked_add(child.count()) {
            Some(count) => count,
            None => return Err(AllocError),
        };
        weight = weight.saturating_add(child.entry_weight());
    }
    Ok(Totals { count, weight })
}
