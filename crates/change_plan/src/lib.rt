//! The plan of one change: which operations a list of edits makes, each on the trees after those before it.
//!
//! An [`Edit`] is what a person asks for: an operation, a value that is to be so, one that is to be gone, a key that is
//! to be gone with all below it. A [`Plan`] takes edits one after another and keeps the operations of the change, and
//! the trees as they are after them. It writes nothing: whoever has the store commits the operations as one transaction.
#![tactic(auto)]

mod datum;
mod edit;
mod extension;
mod plan;
mod removal;

pub use edit::Edit;
pub use plan::Plan;
