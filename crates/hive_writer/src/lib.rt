//! The device calls of a flush and of a repair of one hive, one a step.
//!
//! A [`HiveWriter`] knows the numbers of the hive's two files, and how far it is. It knows the base block as the
//! primary file has it and as it will be. It keeps no image. Whoever owns the bins data and their dirty pages hands
//! them in, the same ones from the first step of a flush to the last. Which tree an image encodes doesn't matter here.
//!
//! A flush writes the log in chunks of 65,536 bytes and syncs it. It writes the first sector of the primary file with
//! the raised number and syncs it. It writes each run of adjacent dirty pages, at most 65,536 bytes at once and
//! straight from the image, and syncs them. It writes the first sector with both numbers raised, and syncs it. A repair
//! is the part from the pages on. No step takes memory.
#![tactic(auto)]

mod calls;
mod device;
pub mod laws;
pub mod stage;
pub mod writer;

pub use crate::stage::{FlushStage, Purpose};
pub use crate::writer::HiveWriter;
