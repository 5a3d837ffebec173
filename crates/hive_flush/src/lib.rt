//! The owner of a hive's two files: its tree in memory, the image that encodes it, and the steps of flush and repair.
#![tactic(auto)]

mod application;
mod batch_edit;
mod change_replay;
mod creation;
mod file;
mod flush_plan;
mod hive;
mod image;
pub mod laws;
mod opening;
mod renewal;

pub use crate::hive::HiveFile;
pub use crate::image::HiveImage;
