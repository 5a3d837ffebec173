//! Subkeys of one key, in the order of their names.
ghost use Rattle.std.specs.Prelude.{◌≡◌, true, false, T, []};
ghost use Rattle.std.specs.List.Sorted.{IsPermutation};
ghost use Rattle.std.specs.FinMap.Entries.{is_sorted};
ghost use Rattle.reg_names.specs.Names.{folded};
ghost use Rattle.reg_tree_parts.specs.Orders.{name_order};
ghost use Rattle.hive_tree_model.specs.Lists.{IsIn, Once};
ghost use Rattle.hive_walk.specs.Siblings.{offsets_by_name, sibling_names, LacksNames};

use reg_names::Name;
use std::cmp::Ordering;

/// A subkey among those of one key: its name and its offset.
#[derive(Drop)]
pub(crate) struct Sibling {
    pub(crate) name: Name,
    pub(crate) at: u32,
}

// whether some sibling has no name
fn has_nameless(siblings: &[Sibling]) -> bool
    ensures some { result ≡ true → IsIn [] (sibling_names siblings.now) }
    ensures none { result ≡ false → IsIn [] (sibling_names siblings.now) → ⊥ }
{
    for sibling in siblings {
        if sibling.name.units().is_empty() {
            return true;
        }
    }
    false
}

// how two siblings compare by their names
fn by_name(one: &Sibling, other: &Sibling) -> Ordering
    ensures { result ≡ name_order (folded one.now.name) (folded other.now.name) }
{
    one.name.cmp(&other.name)
}

// whether the names of siblings rise
fn rises(siblings: &[Sibling]) -> bool
    ensures { result ≡ is_sorted name_order (offsets_by_name siblings.now) }
{
    for index in 1..siblings.len() {
        let order = by_name(&siblings[index - 1], &siblings[index]);
        if !order.is_lt() {
            return false;
        }
    }
    true
}

// brings siblings into the order of their names, if they aren't in it
fn sort(siblings: &mut [Sibling])
    ensures same { IsPermutation siblings.old siblings.new }
    ensures sorted { Once (sibling_names siblings.old) →
        T (is_sorted name_order (offsets_by_name siblings.new)) }
{
    if rises(siblings) {
        return;
    }
    siblings.sort_unstable_by(|one, other| by_name(one, other));
}

/// Siblings in the order of their names.
pub(crate) fn in_order(mut siblings: Vec<Sibling>) -> Vec<Sibling>
    ensures same { IsPermutation siblings.items result.items }
    ensures sorted { Once (sibling_names siblings.items) →
        T (is_sorted name_order (offsets_by_name result.items)) }
{
    sort(&mut siblings);
    siblings
}

/// Whether each sibling has a name, and no two have the same. It may change their order.
#[inline(never)] // so that each level takes little stack
pub(crate) fn are_named(siblings: &mut [Sibling]) -> bool
    ensures named { result ≡ true → IsIn [] (sibling_names siblings.old) → ⊥ }
    ensures apart { result ≡ true → Once (sibling_names siblings.old) }
    ensures not { result ≡ false → LacksNames (sibling_names siblings.old) }
{
    if has_nameless(siblings) {
        return false;
    }
    sort(siblings);
    rises(siblings)
}
