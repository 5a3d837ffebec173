//! The driver of a store: opens the store that is on a disk, asks it events, and has it make its steps.
//!
//! [`open_store`] opens a store with session 0, and [`open_engine`] without a session; [`repaired`] ends the repair of one
//! that was opened. [`ask`] asks one event. [`wait`] makes steps of the journal until a change is durable.
//! [`run_until_idle`] makes all steps that have something to do, and [`next_step`] names the next one.
#![tactic(auto)]

mod background_work;
mod durable_wait;
mod engine_call;
mod store_opening;

pub use background_work::{BUSY_ROOM, frees_room, next_step, run_until_idle};
pub use durable_wait::wait;
pub use engine_call::ask;
pub use store_opening::{open_engine, open_store, repaired};
