//! Applies a registration file to a store, as one transaction.
//!
//! [`apply`] opens the store on a disk, makes the operations of the file's statements in order, each on the trees after
//! those before it, and commits them as one change. The first statement that is refused, or that is none, ends it:
//! nothing is accepted then. It writes one line, and answers the status. A power cut at any moment leaves all that the
//! file asks for or nothing. [`check`] tells each line that would be refused, and writes nothing to the disk.
#![tactic(auto)]

mod outcome;
mod place;
mod request;
mod run;
mod statements;
mod trial;

pub use outcome::ApplyOutcome;
pub use request::{ApplyRequest, UnitOfWork};
pub use run::{apply, change};
pub use trial::check;
