//! Nodes of the subkeys of one key, brought into the order of their names.
ghost use Rattle.std.specs.Prelude.{◌≡◌, ◌⊎◌, ◌↔◌, ℕ, [], true, false, List, T, IsTrue, IfOk, MatchResult, IfSome, IfNone};
ghost use Rattle.std.specs.Arc.{arc_value};
ghost use Rattle.std.specs.List.Sorted.{IsPermutation};
ghost use Rattle.std.specs.FinMap.Entries.{is_sorted};
ghost use Rattle.reg_tree_parts.specs.Orders.{name_order};
ghost use Rattle.reg_tree_parts.specs.Nodes.{Entries, entries_of, subkey_entries, AreNodes, IsNode, root_name};
ghost use Rattle.hive_tree_model.specs.Lists.{IsIn, Once};
ghost use Rattle.hive_load.specs.Nodes.{names_of, AreSiblings, NoSiblings};

use refusals::{Cause, Refusal};
use reg_tree_parts::{Key, Node};
use std::alloc::Global;
use std::cmp::Ordering;
use std::sync::Arc;

// whether some node has no name
fn has_nameless(nodes: &[Arc<Node>]) -> bool
    ensures some { result ≡ true → IsIn [] (names_of (subkey_entries nodes.now)) }
    ensures none { result ≡ false → IsIn [] (names_of (subkey_entries nodes.now)) → ⊥ }
{
    for node in nodes {
        if node.key().name().units().is_empty() {
            return true;
        }
    }
    false
}

// how two nodes compare by their names
fn by_name(one: &Arc<Node>, other: &Arc<Node>) -> Ordering
    ensures { result ≡ name_order (root_name (arc_value one.now)) (root_name (arc_value other.now)) }
{
    one.key().name().cmp(other.key().name())
}

// whether the names of nodes rise
fn rises(nodes: &[Arc<Node>]) -> bool
    ensures { result ≡ is_sorted name_order (subkey_entries nodes.now) }
{
    for index in 1..nodes.len() {
        let order = by_name(&nodes[index - 1], &nodes[index]);
        if !order.is_lt() {
            return false;
        }
    }
    true
}

// the nodes in the order of their names
fn sort(nodes: &mut [Arc<Node>])
    ensures same { IsPermutation nodes.old nodes.new }
    ensures sorted { Once (names_of (subkey_entries nodes.old)) →
        T (is_sorted name_order (subkey_entries nodes.new)) }
{
    nodes.sort_unstable_by(|one, other| by_name(one, other));
}

// the nodes in the order of their names, if no two have the same
fn in_order(mut nodes: Vec<Arc<Node>>) -> Option<Vec<Arc<Node>>>
    ensures sorted { IfSome result (λ sorted. IsPermutation nodes.items sorted.items
        × T (is_sorted name_order (subkey_entries sorted.items))) }
    ensures twice { IfNone result (Once (names_of (subkey_entries nodes.items)) → ⊥) }
{
    if rises(&nodes) {
        return Some(nodes);
    }
    sort(&mut nodes);
    if rises(&nodes) { Some(nodes) } else { None }
}

/// A key with these subkeys, in whatever order they are.
///
/// Refused with `BadName` exactly if a subkey has no name or two have the same, and with `NoMemory`.
pub(crate) fn node_of(alloc: Global, key: Key, nodes: Vec<Arc<Node>>) -> Result<Node, Refusal>
    requires { AreNodes (subkey_entries nodes.items) }
    ensures node { IfOk result IsNode }
    ensures made { MatchResult result
        (λ node. (sorted : List (List ℕ × Entries)) × (node ≡ entries_of key sorted)
        × AreSiblings (subkey_entries nodes.items) sorted)
        (λ why. NoSiblings (subkey_entries nodes.items) why) }
{
    if has_nameless(&nodes) {
        return Err(Refusal::from(Cause::BadName));
    }
    let Some(sorted) = in_order(nodes) else {
        return Err(Refusal::from(Cause::BadName));
    };
    Ok(Node::new(alloc, key, sorted)?)
}
