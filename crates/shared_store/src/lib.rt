//! A store as a program of threads uses it: opened, shared, and closed when the program has ended.
//!
//! A [`Client`] is given the registry, for whatever engine and list of changes stand behind it. [`serve`] opens the
//! store, runs the client with a flusher beside it, and hands the disk back. What each thread reports is so in the history
//! that is left. A [`SessionClient`] has one session for each thread; [`InSession`] makes a client of it.
#![tactic(auto)]

mod account;
mod busy_gate;
mod client;
mod seat;
mod service;
mod session_client;
mod workers;

pub use account::Account;
pub use busy_gate::BusyGate;
pub use client::Client;
pub use service::{Served, serve};
pub use session_client::{InSession, SessionClient};
pub use workers::{Worker, run_workers};
