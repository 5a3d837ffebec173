//! The invariant of an engine over one journal and the files of several hives: what it keeps, what a crash leaves of
//! it, and why that is one prefix of its accepted changes.
//!
//! An engine is split into its machine, its journal's choice and its hives' (`specs/States`). What its calls of the
//! journal and of a hive say, each by its answer, keeps the invariant (`IsConsistent`). If journal and hives are on the
//! disk as they say, whatever a crash leaves is a prefix. There is no code: each function is a law, its contract.
#![tactic(auto)]

pub mod laws;
