//! Making a store: of new hives, of hives that are imported from files, or of what a store of the first layout recovers.
//!
//! [`make_new`] makes a store of 1 to 16 empty hives. An [`Import`] takes files one by one, each as the hive of the
//! next number, and makes a store of copies of their hives. [`upgrade`] makes a store with outcomes of one without them.
//! All report in a line: `ok`, or why there is no store. They work over any disk and writer, and an import over any
//! readers: whoever calls them chooses the store's files and opens those to be imported.
//!
//! What is promised: either a store of trees is reported, or a refusal. A store has the trees of new hives, or exactly
//! those of the files, in their order. A hive of a file keeps its bins data, root and minor version. A new hive follows,
//! for the outcomes of commits. On a disk that has answered as it should, whatever a crash leaves from then on recovers
//! the trees, at number 0. A refusal is that of the device, which failed; or nothing has changed on the disk, and the
//! refusal is that of the first file that holds no hive, or `NoMemory`. If every write succeeds, the line of that report
//! was written, and the status is its status.
#![tactic(auto)]

mod creation;
mod import;
mod layout_upgrade;

pub use creation::make_new;
pub use import::{Import, SourceFailed};
pub use layout_upgrade::upgrade;
