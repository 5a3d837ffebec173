//! The machine by which every store of this project is measured: what a store is asked, what it may answer, and what
//! it is then.
//!
//! An [`Event`] is asked, and a [`Reply`] is given. Which replies may be given, and what the store is afterwards, is
//! said by cases in `specs/Steps`, on the state of `specs/Machine`: the trees as they were opened, the changes accepted
//! since, sessions, transactions, and how far changes are durable. It knows no disk.
//!
//! [`laws`] says what follows from that for every store.
#![tactic(auto)]

mod bounds;
mod event;
mod handle;
pub mod laws;
mod queries;
pub mod room;
mod sessions;

pub use bounds::StoreBounds;
pub use disk_model::Progress;
pub use event::{Event, Question, ReadResult, Reply};
pub use handle::{NoSuchTransaction, Outcome, Tx, TxEndError};
pub use queries::{levels_made, look_up};
pub use sessions::{NoSeat, Sessions};
