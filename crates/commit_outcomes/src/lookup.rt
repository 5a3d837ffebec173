//! The number of a unit of work's commit in a tree of outcomes.
ghost use Rattle.std.specs.Prelude.{◌≡◌, List, IfOk};
ghost use Rattle.commit_outcomes.specs.Commits.{Commit};
ghost use Rattle.commit_outcomes.specs.Trees as trees;
ghost use Rattle.commit_outcomes.specs.Trees.{HasCommits};

use crate::kept_commit::number_of;
use crate::units::unit_name;
use reg_tree::Tree;
use std::alloc::{AllocError, Global};
use uuid::Uuid;

/// The number of the commit of a unit of work that a tree of outcomes has, or nothing if it has none.
pub fn number_in(alloc: Global, tree: &Tree, unit: &Uuid) -> Result<Option<u64>, AllocError>
    ensures { IfOk result (λ number. (commits : List Commit) → HasCommits commits tree.now →
        number ≡ trees.number_in tree.now unit.now) }
{
    let name = unit_name(alloc, unit)?;
    match tree.root().key().values().get(name.name()) {
        Some(value) => Ok(number_of(value.data.bytes())),
        None => Ok(None),
    }
}
