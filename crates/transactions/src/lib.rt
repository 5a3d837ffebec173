//! The transactions of a store: what each keeps, what it sees, and what became of it.
//!
//! [`TxTable`] keeps them by the machine (`store_model`): a transaction's writes are private, it is read and judged by
//! its own view, and its claims keep others off what it changes. [`Store`] answers by it each event that makes no step.
#![tactic(auto)]

mod commit_log;
mod entry;
mod history;
mod prepared;
mod short;
mod store;
mod table;
mod view;

pub use prepared::{Next, Prepared};
pub use store::Store;
pub use table::{Holders, PendingOps, TxTable, TxWriteOutcome};
