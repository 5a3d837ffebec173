//! The laboratory: what a loss of power leaves of one's own changes, step by step.
//!
//! [`lab`] runs a script over a store in memory, as `play` does, and takes further lines: single steps of the journal,
//! of a hive's flush and of a trim; a device that stops or fails at a chosen call; and losses of power. After a loss of
//! power what is left is opened, and its trees are written. What it writes is stated in `specs/Experiments`.
#![tactic(auto)]

mod device;
mod lab_run;
mod lab_state;
mod power_loss;
mod reply;

pub use lab_run::lab;
