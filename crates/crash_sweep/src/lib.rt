//! What a power cut leaves of one's own changes. A script is run over a store in memory. The power is cut after each
//! device call that writes, cuts or syncs a file, with each tear, and what is left is opened.
//!
//! [`sweep`] writes a table of that, call by call: which number opens, and between which two it has to be. The trees
//! that open are compared with those after that number of the script's changes.
#![tactic(auto)]

mod finding;
mod history;
mod same_trees;
mod sweep_error;
mod sweep_loop;
mod sweep_steps;
mod table;
mod watched_disk;

pub use sweep_loop::sweep;
