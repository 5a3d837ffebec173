//! The list of accepted changes and the trees after it, as many threads see them: one thread at a time adds a change
//! and publishes the trees, and readers wait for nobody.
#![tactic(auto)]

mod change_list;
mod origin;
mod publication;
mod publishing;
mod rule;
mod snapshot;

pub use change_list::{ChangeCount, SeenChanges};
pub use origin::Origin;
pub use publication::Publication;
pub use rule::{Entered, MOST_READERS, TreesReader};
pub use snapshot::TreesSnapshot;
