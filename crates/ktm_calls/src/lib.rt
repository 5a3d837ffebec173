//! The registry as many threads call it: each call is one hold of one lock, or a few, and plain reads wait for nobody.
//!
//! A [`Registry`] is shared by reference among threads. Each has a [`Session`] of its own, by which it calls.
#![tactic(auto)]

mod asker;
mod calls;
mod durable_changes;
mod event_kind;
mod holding;
mod key;
pub mod laws;
mod locked;
mod receipt;
mod registry;
mod room;
mod session;
mod sight;
mod store_snapshot;
mod store_stats;
mod tx_calls;
mod waiting;
mod whole_transaction;

pub use asker::Asker;
pub use durable_changes::FollowRefusal;
pub use event_kind::EventKind;
pub use key::Key;
pub use locked::{Locked, Told};
pub use receipt::{Receipt, Stopped};
pub use registry::{Denied, Disposition, Ended, Registry, Turn};
pub use room::UsedRoom;
pub use session::{Session, SessionHandle};
pub use sight::Sight;
pub use store_snapshot::StoreSnapshot;
pub use store_stats::StoreStats;
pub use whole_transaction::{WholeCommit, WholeDenied};
