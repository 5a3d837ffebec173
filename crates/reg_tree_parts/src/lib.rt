//! The parts of a registry tree: shared bytes, values, keys, and the nodes that contain keys with their subkeys.
//!
//! A tree is seen as a list of entries, each a path and the row of the key at it. The code has nodes, shared by `Arc`,
//! which never change: a change makes new nodes along one path and shares all others. So a refused growth leaves the
//! old tree, untouched.
#![tactic(auto)]

mod data;
mod descriptor;
mod edit;
mod key;
mod node;
mod rare_fields;
mod value;
mod values;

pub use data::Data;
pub use descriptor::Descriptor;
pub use edit::NodeEdit;
pub use key::Key;
pub use node::Node;
pub use value::Value;
pub use values::Values;
