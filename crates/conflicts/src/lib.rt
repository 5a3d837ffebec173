//! Claims of transactions, and when they conflict.
//!
//! Each operation claims its key: by Shape if it makes or deletes the key, by Hold if it changes a value. Two claims
//! conflict if their keys are the same, or if one is a Shape and the other's key is below its key. Keys are compared by
//! hive and by folded names. The table of claims says which transactions hold a claim that conflicts with one more.
#![tactic(auto)]

mod claim;
mod index_keys;
pub mod laws;
pub mod skeleton_laws;
mod table;

pub use claim::{Claim, ClaimKind, claims, conflict};
pub use table::{ClaimOwner, ClaimTable};
