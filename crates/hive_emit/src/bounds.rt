//! Upper bounds that a key's record says: exact ones, of all its subkeys and values.
use reg_tree_parts::{Key, Node};

// the bytes of a unit in UTF-16
const UNIT: usize = 2;

/// What the longest of a key's subkeys and values have.
#[derive(Clone, Copy)]
pub(crate) struct RecordBounds {
    /// The most bytes of a subkey's name, as if in UTF-16, or 65,535 if it is more.
    pub subkey_name: u16,
    /// The most bytes of a subkey's class.
    pub subkey_class: u32,
    /// The most bytes of a value's name, as if in UTF-16.
    pub value_name: u32,
    /// The most bytes of a value's data.
    pub value_data: u32,
}

/// A length as a number of 32 bits, or the greatest such number.
pub(crate) fn clamped(len: usize) -> u32 {
    u32::try_from(len).unwrap_or(u32::MAX)
}

/// The bounds of a key.
pub(crate) fn bounds_of(node: &Node) -> RecordBounds {
    let mut bounds = RecordBounds {
        subkey_name: 0,
        subkey_class: 0,
        value_name: 0,
        value_data: 0,
    };
    for index in 0..node.subkey_count() {
        if let Some(subkey) = node.subkey_at(index) {
            add_subkey(&mut bounds, subkey.key());
        }
    }
    for index in 0..node.key().values().len() {
        if let Some(value) = node.key().values().at(index) {
            let name = clamped(value.name.units().len().saturating_mul(UNIT));
            bounds.value_name = bounds.value_name.max(name);
            bounds.value_data = bounds.value_data.max(clamped(value.data.bytes().len()));
        }
    }
    bounds
}

// raises bounds to the bounds of one subkey
fn add_subkey(bounds: &mut RecordBounds, key: &Key) {
    let name = key.name().units().len().saturating_mul(UNIT);
    let name = u16::try_from(name).unwrap_or(u16::MAX);
    bounds.subkey_name = bounds.subkey_name.max(name);
    bounds.subkey_class = bounds.subkey_class.max(clamped(key.class().len()));
}
