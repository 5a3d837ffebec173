//! What an export of hives says, as `apply` reads it: laws without code.
#![tactic(auto)]

pub mod laws;
