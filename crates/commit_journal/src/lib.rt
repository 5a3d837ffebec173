//! The commit journal: a file that keeps accepted changes after gates.
//!
//! After a header come bodies, one for each batch, each after a gate. The bodies up to the first gate that isn't open
//! count, and what is after that gate is free. A batch is written after the closed gate, with the next closed gate, and
//! synced. Only then its gate is opened, and synced. A trim closes the first gate. So a crash at any moment leaves the
//! changes before or those after; the contracts of [`Journal`] promise that.
#![tactic(auto)]

mod body;
mod buffer;
mod creation;
mod device;
mod extent;
mod ghost_log;
mod header;
mod journal;
mod last_changes;
pub mod laws;
mod layout;
mod moves;
mod reader;
mod scan;
mod sink;
mod store_layout;

pub use creation::JournalImage;
pub use journal::Journal;
pub use last_changes::LastChangePerHive;
pub use layout::{FIRST_GATE, MOST_BODY_BYTES, OPEN_GATE};
pub use scan::{OpenedJournal, StoreHeader};
pub use sink::ElementSink;
pub use store_layout::Layout;
