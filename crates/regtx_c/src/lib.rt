//! Hives in memory, for programs in C: a hive is opened from the bytes of a file, read, edited, and written as the bytes
//! of a file again. `regtx.h` declares each exported function.
//!
//! An export takes the hive out of its handle, uses it, and puts it back (`handle`). What it is asked for is a small
//! function over the tree. Each answers a number: `OK`, or that of a refusal (`codes`).
//!
//! What is promised: the tree in a handle is the one that the bytes hold, and then the one after each edit. Reads tell
//! what it has. A refusal leaves it, and is told exactly if it is true. Bytes that are written hold it.
#![tactic(auto)]

mod block;
mod code_names;
mod codes;
mod cursor_handle;
mod cursors;
mod deletion;
mod edits;
mod files;
mod fixed_keys;
mod handle;
mod key_fields;
pub mod laws;
mod loose;
mod names;
mod opening;
mod reads;
mod recovery;
mod room;
mod steps;
mod texts;
mod version;
