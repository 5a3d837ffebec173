//! The outcomes of commits that a store keeps: of each unit of work the number of its last commit, as values of one tree.
#![tactic(auto)]

mod commit_list;
mod kept_commit;
pub mod laws;
mod lookup;
mod operations;
mod units;

pub use commit_list::{COMMIT_KIND, CommitList, MOST_COMMITS};
pub use kept_commit::KeptCommit;
pub use lookup::number_in;
pub use operations::outcome_ops;
pub use units::{unit_name, unit_of};
