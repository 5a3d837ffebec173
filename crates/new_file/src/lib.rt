//! A new file, which is there whole or not at all.
//!
//! [`make`] writes its bytes under another name, its own with `.part` behind, and syncs them. Then it gives them the file's own
//! name, which fails if there is such a file. So a kill at any moment leaves no file of this name, or a whole one. It may leave
//! the other name. A [`SystemFile`] makes these calls of std's files, and keeps a record of them that only contracts read.
#![tactic(auto)]

mod calls;
mod making;
mod record;
mod system_file;

pub use calls::FileMaking;
pub use making::{MakeError, make};
pub use system_file::SystemFile;
