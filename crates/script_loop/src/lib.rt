//! The loop over the lines of a script: each line is read, answered, and its reply is written before the next is read.
//!
//! It knows no store. An [`Answerer`] says what a line means. [`run_lines`] carries a script from one of its lines to
//! its end, or to the line at which the answerer stops. [`run_script`] does the same for a script whose first lines make
//! its store.
//!
//! [`next_line`], [`end`] and [`wrong`] are its parts, for other kinds of runs: they read the lines of a script and
//! report how they end.
#![tactic(auto)]

mod answerer;
mod end_of_script;
mod history_limit;
mod line_loop;
mod lines;
mod new_store;

pub use answerer::{Answerer, LineTurn};
pub use end_of_script::{EndOfScript, end, refuse_script, wrong};
pub use history_limit::{HistoryLimit, read_history_limit};
pub use line_loop::{LoopEnd, run_lines};
pub use lines::next_line;
pub use new_store::{ScriptedStore, run_script};
