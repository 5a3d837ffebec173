//! What a hive's two files hold, phase by phase of a flush and of a repair. No code: the definitions are in `specs/`,
//! and the laws below are contracts of functions without a body.
//!
//! A hive is a primary file and a log. A flush writes the log and syncs it. It raises the primary number, writes the
//! dirty pages and makes the primary file clean again, with a sync after each. A repair is the part from the pages on.
//! Each call of both takes the files from one phase to the next, or, if it fails, leaves them in theirs. In each phase,
//! whatever a crash leaves of the two files holds the old tree and number, or the new.
#![tactic(auto)]

pub mod laws;
