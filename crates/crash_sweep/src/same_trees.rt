//! Whether two stores' trees are the same.
use reg_tree::{Tree, Trees, Value};
use reg_tree_parts::{Key, Node, Values};

/// Whether all hives have the same trees, that of outcomes among them. Keys and values are the same with all their data,
/// and names in the same spelling.
pub(crate) fn are_same(mine: &Trees, theirs: &Trees) -> bool {
    mine.len() == theirs.len() && (0..mine.len()).all(|hive| is_same_in(mine, theirs, hive as u8))
}

// whether a hive has the same tree in both
fn is_same_in(mine: &Trees, theirs: &Trees, hive: u8) -> bool {
    match (mine.tree(hive), theirs.tree(hive)) {
        (Some(mine), Some(theirs)) => is_same_tree(mine, theirs),
        _ => false,
    }
}

fn is_same_tree(mine: &Tree, theirs: &Tree) -> bool {
    is_same_node(mine.root(), theirs.root())
}

// whether two keys have the same content, and so do the keys below them
fn is_same_node(mine: &Node, theirs: &Node) -> bool {
    if mine.subkey_count() != theirs.subkey_count() || !is_same_key(mine.key(), theirs.key()) {
        return false;
    }
    for index in 0..mine.subkey_count() {
        match (mine.subkey_at(index), theirs.subkey_at(index)) {
            (Some(mine), Some(theirs)) if is_same_node(mine, theirs) => {}
            _ => return false,
        }
    }
    true
}

// whether two keys have the same content, whatever is below them
fn is_same_key(mine: &Key, theirs: &Key) -> bool {
    mine.name().units() == theirs.name().units()
        && mine.class() == theirs.class()
        && mine.flags() == theirs.flags()
        && mine.descriptor().bytes() == theirs.descriptor().bytes()
        && mine.time() == theirs.time()
        && have_same_values(mine.values(), theirs.values())
}

fn have_same_values(mine: &Values, theirs: &Values) -> bool {
    if mine.len() != theirs.len() {
        return false;
    }
    for index in 0..mine.len() {
        match (mine.at(index), theirs.at(index)) {
            (Some(mine), Some(theirs)) if is_same_value(mine, theirs) => {}
            _ => return false,
        }
    }
    true
}

fn is_same_value(mine: &Value, theirs: &Value) -> bool {
    mine.name.units() == theirs.name.units()
        && mine.kind == theirs.kind
        && mine.data.bytes() == theirs.data.bytes()
}
