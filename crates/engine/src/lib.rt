//! The engine: one journal, several hives and a store in memory, one event at a time.
//!
//! [`Engine::event`] answers any event of the machine, with at most one device call; [`Engine::run`] answers a list of
//! them. After a crash at any moment the files are those of one prefix of the accepted changes, which has each durable
//! change. The contracts of the two say so of each moment, for every disk.
#![tactic(auto)]

mod earlier_changes;
mod engine;
mod flushes;
mod folds;
pub mod laws;
mod parts;
mod run;
mod steps;
mod work;

pub use engine::Engine;
