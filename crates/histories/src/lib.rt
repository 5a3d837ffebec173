//! The one history of a store that threads share: each event with its reply and with the store after it, in the order of
//! the holds of the lock. It exists in proofs alone: its length is a word under the lock, and beginnings of it that were
//! seen are carried by those who saw them.
#![tactic(auto)]

mod book;
pub mod laws;
mod noted;
mod permission;
mod start;

pub use book::{EventCount, SeenEvents};
pub use noted::{AnyEvent, Noted};
pub use permission::{Permission, PermissionPool, RequestCount, is_asked};
pub use start::Start;
