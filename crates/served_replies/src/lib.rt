//! What a session of a served store is told beside replies to lines of a script: changes as they become durable, and
//! backups.
//!
//! [`ServedReply`] is one such reply, and writes its text. A change is told as the lines that make it.
#![tactic(auto)]

mod changes;
mod reply;

pub use reply::ServedReply;
