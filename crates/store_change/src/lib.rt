//! One change of a store: operations that are committed as one transaction, and are durable then.
//!
//! [`commit`] is for programs that change a store once and end, such as an installer. [`make_change`] does all that such a
//! program does with a store: it opens the store on a disk, makes a [`StoreChange`], tells how that ended, and has the
//! engine make all steps that are left. A power cut at any moment leaves all of the operations or none.
#![tactic(auto)]

mod aside;
mod change;
mod report;
mod transaction;
mod whole;

pub use aside::{bytes_aside, bytes_aside_in};
pub use change::StoreChange;
pub use report::{ChangeReport, make_change};
pub use whole::commit;
