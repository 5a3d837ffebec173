//! What the definitions say, as contracts of functions without effect.
pub use crate::file_contents::{clean_primary_decides, log_repairs};
pub use crate::prefixes::{log_prefix_decides, repair_prefix_decides};
