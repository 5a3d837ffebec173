//! Entries in the order of their folded names, shared and never changed.
#![tactic(auto)]

mod child;
mod edit;
mod map;
mod map_entry;
mod map_node;

pub use map::SharedMap;
pub use map_entry::MapEntry;
pub use map_node::MapNode;
