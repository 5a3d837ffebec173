//! Which pages of a hive's bins data changed since they were last written (regf format, dirty vector).
//!
//! A page is 512 bytes of bins data. A [`DirtyVector`] is the set of the dirty pages of bins data of one
//! size; contracts see it as that set. It is kept in words of 64 bits, so that counting and marking go
//! word by word. Marking, asking and counting take no memory.
#![tactic(auto)]

mod bitmap;
mod marks;
mod page_diff;
mod vector;

pub use page_diff::mark_changes;
pub use vector::{DirtyVector, PAGE_BYTES};
