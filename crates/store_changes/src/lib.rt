//! The changes of a store at rest after a number, as lines that make them.
//!
//! [`follow_store`] opens a store as a run does, and writes nothing to its disk. It tells the changes that the store's
//! journal holds after a number, each as a served session tells it, and then `followed N`.
#![tactic(auto)]

mod held_changes;
mod report;

pub use report::follow_store;
