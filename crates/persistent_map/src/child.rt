//! Children: an entry, or a node of children.
ghost use Rattle.std.specs.Prelude.{◌≡◌, T, map, ◌<◌, length, slice_get, IfOk, IfSome, OnOk};
ghost use Rattle.std.specs.Arc.{arc_value};
ghost use Rattle.std.specs.Option.{option_copied};
ghost use Rattle.std.specs.FinMap.Entries.{find, is_sorted};
ghost use Rattle.reg_names.specs.Names.{folded};
ghost use Rattle.persistent_map.specs.Orders.{name_order};
ghost use Rattle.persistent_map.specs.Listings.{entry_list, children_entries, node_entries};
ghost use Rattle.persistent_map.specs.Children.{ChildKind, entry_kind, node_kind, IsChild, AreChildren, IsMore};
ghost use Rattle.persistent_map.specs.Writes.{written, edited};

use crate::edit::MapEdit;
use crate::map_entry::MapEntry;
use crate::map_node::{MapNode, add, add_node, child_index, extend, nth, totals_of};
use reg_names::Name;
use std::alloc::{AllocError, Global};
use std::cmp::Ordering;
use std::sync::Arc;

/// A child of a node: it lists entries in the order of their folded names, and never changes.
pub trait Child<E: MapEntry>: Drop {
    /// What it lists, and what is kept beside that.
    ghost kind: { ChildKind E Self };

    /// The name of its first entry.
    fn first(&self) -> &Name
        ensures { folded result.now ≡ kind.first self.now };

    /// How many entries it has.
    fn count(&self) -> usize
        ensures { result ≡ kind.count self.now };

    /// What its entries weigh together, or the greatest number of 64 bits if it is more.
    fn entry_weight(&self) -> u64
        ensures { result ≡ kind.weight self.now };

    /// The entry of this name.
    fn find(&self, name: &Name) -> Option<&E>
        requires child { IsChild kind self.now }
        requires sorted { T (is_sorted name_order (kind.list self.now)) }
        ensures found { option_copied result
            ≡ find name_order (folded name.now) (kind.list self.now) }
        ensures named { IfSome result (λ entry. E.key entry.now ≡ folded name.now) };

    /// The entry at this index.
    fn at(&self, index: usize) -> Option<&E>
        requires { IsChild kind self.now }
        ensures { option_copied result
            ≡ slice_get (map (λ e. e.1) (kind.list self.now)) index };

    /// Adds the children of the entries after an edit.
    fn edit(
        this: &Arc<Self>,
        alloc: Global,
        edit: MapEdit<'_, E>,
        made: &mut Vec<Arc<Self>>,
    ) -> Result<(), AllocError>
        requires child { IsChild kind this.now.value }
        requires sorted { T (is_sorted name_order (kind.list this.now.value)) }
        ensures { OnOk result (IsMore kind (edited E.key E.over edit.entry (kind.list
            this.now.value)) made.old.items made.new.items) };
}

impl<E: MapEntry> Child<E> for E {
    ghost kind = { entry_kind E.key E.entry_weight };

    fn first(&self) -> &Name {
        self.name()
    }

    fn count(&self) -> usize {
        1
    }

    fn entry_weight(&self) -> u64 {
        self.weight()
    }

    fn find(&self, name: &Name) -> Option<&E> {
        if name.cmp(self.name()).is_eq() {
            Some(self)
        } else {
            None
        }
    }

    fn at(&self, index: usize) -> Option<&E> {
        if index == 0 { Some(self) } else { None }
    }

    fn edit(
        this: &Arc<E>,
        alloc: Global,
        edit: MapEdit<'_, E>,
        made: &mut Vec<Arc<E>>,
    ) -> Result<(), AllocError>
        requires child { IsChild (entry_kind E.key E.entry_weight) this.now.value }
        requires sorted { T (is_sorted name_order (entry_list E.key this.now.value)) }
        ensures { OnOk result (IsMore (entry_kind E.key E.entry_weight) (edited E.key E.over edit.entry
            (entry_list E.key this.now.value)) made.old.items made.new.items) }
    {
        match edit {
            MapEdit::Put(new) => put(alloc, this, new, made),
            MapEdit::Remove(name) => {
                if name.cmp(this.name()).is_eq() {
                    return Ok(());
                }
                add(made, this.clone()?)
            }
        }
    }
}

// adds an entry and a new one in their order, or what the new one makes of it if it has the same name
fn put<E: MapEntry>(
    alloc: Global,
    old: &Arc<E>,
    new: Arc<E>,
    made: &mut Vec<Arc<E>>,
) -> Result<(), AllocError>
    ensures { OnOk result (IsMore (entry_kind E.key E.entry_weight) (written E.key E.over new.value
        (entry_list E.key old.now.value)) made.old.items made.new.items) }
{
    match new.name().cmp(old.name()) {
        Ordering::Less => {
            add(made, new)?;
            add(made, old.clone()?)
        }
        Ordering::Equal => add(made, old.replaced_by(alloc, new)?),
        Ordering::Greater => {
            add(made, old.clone()?)?;
            add(made, new)
        }
    }
}

impl<E: MapEntry, P: Child<E>> Child<E> for MapNode<P> {
    ghost kind = { node_kind P.kind };

    fn first(&self) -> &Name {
        &self.first
    }

    fn count(&self) -> usize {
        self.count
    }

    fn entry_weight(&self) -> u64 {
        self.weight
    }

    fn find(&self, name: &Name) -> Option<&E> {
        let at = child_index(&self.children, name);
        self.children[at].find(name)
    }

    fn at(&self, index: usize) -> Option<&E> {
        match nth(&self.children, index) {
            Some((at, rest)) => self.children[at].at(rest),
            None => None,
        }
    }

    fn edit(
        this: &Arc<MapNode<P>>,
        alloc: Global,
        edit: MapEdit<'_, E>,
        made: &mut Vec<Arc<MapNode<P>>>,
    ) -> Result<(), AllocError>
        requires child { IsChild (node_kind P.kind) this.now.value }
        requires sorted { T (is_sorted name_order (node_entries P.kind.list this.now.value)) }
        ensures { OnOk result (IsMore (node_kind P.kind) (edited E.key E.over edit.entry
            (node_entries P.kind.list this.now.value)) made.old.items made.new.items) }
    {
        let children = edit_in(alloc, &this.children, edit)?;
        add_node(alloc, children, made)
    }
}

/// The children after an edit of their entries.
pub(crate) fn edit_in<E: MapEntry, P: Child<E>>(
    alloc: Global,
    children: &[Arc<P>],
    edit: MapEdit<'_, E>,
) -> Result<Vec<Arc<P>>, AllocError>
    requires children { AreChildren P.kind children.now }
    requires sorted { T (is_sorted name_order (children_entries P.kind.list children.now)) }
    requires some { 0 < length children.now }
    ensures entries { IfOk result (λ made. children_entries P.kind.list made.items
        ≡ edited E.key E.over edit.entry (children_entries P.kind.list children.now)) }
    ensures children { IfOk result (λ made. AreChildren P.kind made.items) }
{
    // reads each child before one is sought and pointers to them are taken, which would wait for the memory of one
    // after the other
    let _ = totals_of(children)?;
    let at = child_index(children, edit.name());
    let mut made = Vec::with_capacity(alloc, children.len().saturating_add(1))?;
    extend(&mut made, &children[..at])?;
    P::edit(&children[at], alloc, edit, &mut made)?;
    extend(&mut made, &children[at + 1..])?;
    Ok(made)
}
