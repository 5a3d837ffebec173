//! Mending of hive bins data that are damaged, so that bins and cells tile them (regf format: hive bins; cells).
//!
//! [`mend`] takes any bytes and gives an [`Image`](hive_cells::Image) of them with a list of its gaps. A bin or a cell
//! that stands stays as it is. A page where no bin stands becomes a bin with one free cell. The bytes of a bin from the
//! first offset that is no cell, up to where cells go on, become one free cell. Whole data are left as they are.
#![tactic(auto)]

mod bins;
mod cells;
mod gap;
mod image;
mod restarts;
mod words;

pub use gap::{Gap, GapKind};
pub use image::{MendedImage, mend};
