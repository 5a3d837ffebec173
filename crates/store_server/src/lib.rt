//! The service of a store to clients at the other ends of one pipe.
//!
//! A broker hands on what clients send, in frames, which `client_desks` puts on a desk for each. [`serve_desks`] opens the
//! store and serves each desk on a thread of its own: a client's session is opened as it comes, answers its lines, and ends
//! with it. Before its history is full the store is opened anew, and clients stay.
#![tactic(auto)]

mod client_lines;
mod client_visit;
mod clients;
mod following;
mod generations;
mod history_share;
pub mod laws;
mod news_gate;
mod open_transactions;
mod own_lines;
mod served_kind;
mod served_lines;
mod served_script;
mod session_ends;
mod subject;

pub use generations::serve_desks;
pub use session_ends::SessionEnds;
