//! The flusher: it takes turns at a registry until it is told to stop, on a thread of its own beside the caller's work.
#![tactic(auto)]

mod gate;
mod threads;
mod turns;

pub use gate::{Gate, OpenGate};
pub use threads::{run_beside, try_run_beside};
pub use turns::{run_flusher, try_run_flusher};
