//! The commit of a unit of work that a store keeps.
ghost use Rattle.std.specs.Prelude.{◌≡◌, ◌⊎◌, ◌<◌, List, Ok, Err, IfOk, IfErr};
ghost use Rattle.refusals.specs.declared.refusal.Refusal.TheVariants.{NoMemory};
ghost use Rattle.disk_model.specs.ReadOnly.{OnlySyncs};
ghost use Rattle.commit_outcomes.specs.Commits.{Commit};
ghost use Rattle.commit_outcomes.specs.Trees.{HasCommits};
ghost use Rattle.recovery.specs.Recovered.{seen_in};
ghost use Rattle.store_values.specs.KeptCommits.{ReportsCommit, commit_answer};

use crate::change_result::ChangeResult;
use crate::reply::print_outcome;
use commit_outcomes::number_in;
use disk_model::Disk;
use refusals::Refusal;
use reg_tree::Tree;
use std::alloc::Global;
use std::io::{self, Write};
use store_hive::outcome_tree;
use uuid::Uuid;

/// Prints the number of the last commit of a unit of work, in a line. The journal and the two files of the hive of outcomes
/// are read and synced, and not written. No file of another hive is touched. The disk is handed back.
///
/// Refused, in a line that alone is printed, as [`outcome_tree`] is, also with `Unsupported` if the store keeps no
/// outcomes of commits; and with `NotFound` exactly if it keeps no commit of this unit.
pub fn find_commit<D: Disk, W: Write>(
    alloc: Global,
    disk: D,
    unit: &Uuid,
    writer: &mut W,
) -> (D, io::Result<ChangeResult>)
    ensures reports { IfOk result.1 (ReportsCommit (D.failures disk < D.failures result.0)
        (D.faithful result.0) (seen_in (D.state_at disk (D.clock disk))) unit.now
        (W.contents writer.old) (W.contents writer.new)) }
    ensures synced { D.faithful result.0 → OnlySyncs (D.state_at disk) (D.state_at result.0)
        (D.clock disk) (D.clock result.0) }
{
    store_hive::laws::as_the_store_recovers();
    let mut disk = disk;
    match outcome_tree(alloc, &mut disk) {
        Ok(tree) => {
            let told = print_outcome(commit_of(alloc, &tree, unit), writer);
            (disk, told)
        }
        Err(refusal) => {
            let told = print_outcome(Err(refusal), writer);
            (disk, told)
        }
    }
}

// the number of the commit of a unit of work that a tree of outcomes has
fn commit_of(alloc: Global, tree: &Tree, unit: &Uuid) -> Result<u64, Refusal>
    requires commits { (commits : List Commit) × HasCommits commits tree.now }
    ensures kept { IfOk result (λ number. commit_answer tree.now unit.now ≡ Ok number) }
    ensures refused { IfErr result (λ why. (why ≡ NoMemory) ⊎ (commit_answer tree.now unit.now ≡ Err why)) }
{
    match number_in(alloc, tree, unit)? {
        Some(number) => Ok(number),
        None => Err(Refusal::NotFound),
    }
}
