//! Hive bins data with a savepoint: cells are changed where they lie, and all changes since the savepoint can be taken
//! back.
//!
//! A [`SavepointImage`] saves each page of 512 bytes before the page is first written. [`SavepointImage::roll_back`]
//! puts the saved pages back. [`SavepointImage::release`] sets the savepoint to what is there, and marks the saved pages
//! that differ. Both take no memory. A refused call changes nothing.
#![tactic(auto)]

mod changes;
mod image;
mod log;
mod marks;

pub use image::SavepointImage;
pub use log::UndoLog;
