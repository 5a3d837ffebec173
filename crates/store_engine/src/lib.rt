//! A store as those who share it see it: one event at a time, with what a crash at each moment leaves.
//!
//! [`StoreEngine`] says what any such store promises. `Engine` is one over each disk.
#![tactic(auto)]

mod engine_calls;
mod interface;

pub use interface::StoreEngine;
