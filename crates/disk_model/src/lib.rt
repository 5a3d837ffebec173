//! Numbered files on a disk that may fail, and what a crash leaves of them.
//!
//! All that lasts rests on one trait, [`Disk`]: `len`, `read`, `write_at`, `cut` and `sync` on files with numbers. What
//! it promises is what a power cut may leave, file by file and call by call, and nothing about when a call succeeds.
//! For each file and each moment (a moment is a call) contracts know what was last synced and what a read gives. They
//! know which ranges were written since, and the least and the greatest length since; `specs/FileState` says what
//! follows for a crash. Only `sync` orders: once it has answered Ok, a crash leaves what a read gives.
//!
//! A first sector with a sum of its own may be torn like any other; `specs/Sector` says when what is left of it is
//! honest.
//!
//! [`MemDisk`] is files in memory that are such a disk, with nothing assumed. It fails as its [`Plan`] says, and
//! [`MemDisk::crashed`] is the disk after a power cut with one of three [`Tear`]s. [`laws`] says what the definitions
//! mean for parts that make at most one call, and for a life that ends in a fault without a crash.
#![tactic(auto)]

mod call_counts;
mod course;
mod disk;
mod history;
pub mod laws;
mod mem_disk;
mod mem_file;
mod pending_write;
mod plan;
mod progress;
mod tear;

pub use call_counts::CallCounts;
pub use disk::{Disk, Failed};
pub use mem_disk::{FILES, MemDisk};
pub use plan::{FailurePoints, Plan};
pub use progress::Progress;
pub use tear::Tear;
