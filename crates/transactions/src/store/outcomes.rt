//! The outcomes of commits that a store keeps, in the tree after those that calls may name.
ghost use Rattle.std.specs.Prelude.{◌≡◌, ◌⊎◌, ◌≤◌, ◌++◌, ◌∷◌, [], ℕ, length, map, min, nat_lt, slice_get, true, List, Some, None, IfOk, IfErr, IfSome};
ghost use Rattle.std.specs.Option.{option_copied, option_map};
ghost use Rattle.refusals.specs.declared.refusal.Refusal.TheVariants.{NoMemory, TooLarge};
ghost use Rattle.reg_tree.specs.Encodings.{ops_encoded_len};
ghost use Rattle.reg_tree.specs.Judgement.{any_outweighs};
ghost use Rattle.commit_outcomes.specs.Units.{unit_name};
ghost use Rattle.commit_outcomes.specs.Commits.{kept};
ghost use Rattle.store_model.specs.Invariant.{OutcomesFit};
ghost use Rattle.store_model.specs.Machine.{bounds_for, has_outcomes, outcome_tree, trees_now};
ghost use Rattle.transactions.specs.Prepared.{IsOutcomeChange, MayRecord, unit_ops};
ghost use Rattle.transactions.specs.Stores.{Answers, IsOutcomeTree, OutcomesAt};

use super::Store;
use crate::prepared::OutcomeChange;
use commit_outcomes::{CommitList, number_in, outcome_ops};
use refusals::Refusal;
use reg_tree::{Op, Tree, Trees};
use std::alloc::{AllocError, Global};
use store_model::{Event, Reply};
use uuid::Uuid;

// the commits of the tree of outcomes, if there is one after the first `hives`
pub(super) fn found_in(
    alloc: Global,
    trees: &Trees,
    hives: usize,
    number: u64,
) -> Result<Option<CommitList>, AllocError>
    requires { OutcomesFit (bounds_for hives) trees.now number }
    ensures { IfOk result (OutcomesAt hives trees.now number) }
{
    commit_outcomes::laws::trees_have_commits();
    let Some(tree) = tree_after(trees, hives) else {
        return Ok(None);
    };
    let Some(commits) = CommitList::of(alloc, tree, number)? else {
        unreachable!();
    };
    Ok(Some(commits))
}

// records the commit of a unit of work, if outcomes are kept; takes no memory
pub(super) fn record_commit(
    outcomes: &mut Option<CommitList>,
    unit: &Uuid,
    number: u64,
    earlier: Option<u64>,
)
    requires { IfSome outcomes.old (MayRecord unit.now number earlier) }
    ensures { outcomes.new
        ≡ option_map (λ commits. kept (commits ++ (number, unit_name unit.now) ∷ [])) outcomes.old }
{
    if let Some(commits) = outcomes {
        commits.record(unit, number, earlier);
    }
}

// the tree after the first `hives`, if there is one
fn tree_after(trees: &Trees, hives: usize) -> Option<&Tree>
    ensures { option_copied result ≡ slice_get trees.now hives }
{
    if trees.len() <= hives {
        return None;
    }
    trees.tree(hives as u8)
}

// the bytes of the encodings of operations, or the greatest number of 64 bits if they are more
fn text_len(ops: &[Op]) -> u64
    ensures { result ≡ min (ops_encoded_len ops.now) u64.MAX }
{
    let mut total = 0u64;
    for op in ops {
        total = total.saturating_add(op.text_len());
    }
    total
}

impl Store {
    /// How many hives calls may name: the first ones. A store that keeps outcomes has one tree more.
    pub fn hives(&self) -> usize
        ensures { result ≡ self.now.machine.bounds.hives }
    {
        self.bounds.hives
    }

    // the tree of outcomes among trees, if the store keeps outcomes
    pub(super) fn outcome_tree<'a>(&self, trees: &'a Trees) -> Option<&'a Tree>
        requires { length trees.now ≡ length self.now.machine.opened }
        ensures { IsOutcomeTree self.now.machine trees.now (option_copied result) }
    {
        match self.outcomes {
            Some(_) => tree_after(trees, self.bounds.hives),
            None => None,
        }
    }

    // what a commit of a unit of work adds to a change after which the trees are these
    pub(super) fn outcome_change(
        &self,
        unit: &Uuid,
        moment: u64,
        trees: Trees,
    ) -> Result<OutcomeChange, Refusal>
        requires many { length trees ≡ length self.now.machine.opened }
        requires same { outcome_tree self.now.machine.bounds trees
            ≡ outcome_tree self.now.machine.bounds (trees_now self.now.machine) }
        ensures ok { IfOk result (IsOutcomeChange self.now.machine unit.now moment trees) }
        ensures refused { IfErr result (λ why.
            ((any_outweighs trees (unit_ops self.now.machine unit.now) moment ≡ true)
            × (why ≡ TooLarge)) ⊎ (why ≡ NoMemory)) }
    {
        let Some(commits) = &self.outcomes else {
            return Ok(OutcomeChange {
                ops: Vec::new(self.alloc),
                text_len: 0,
                trees,
                earlier: None,
            });
        };
        commit_outcomes::laws::trees_have_commits();
        commit_outcomes::laws::units_have_names();
        commit_outcomes::laws::commits_are_kept();
        let Some(tree) = tree_after(&trees, self.bounds.hives) else {
            unreachable!();
        };
        let earlier = number_in(self.alloc, tree, unit)?;
        let hive = self.bounds.hives as u8;
        let number = self.table.number() + 1;
        let ops = outcome_ops(self.alloc, commits, hive, unit, number, earlier)?;
        let made = trees.apply_within(self.alloc, &ops, moment)?;
        Ok(OutcomeChange {
            text_len: text_len(&ops),
            ops,
            trees: made,
            earlier,
        })
    }

    // the number with which a unit of work committed, if the store keeps outcomes and has that one
    pub(super) fn outcome_of(&self, id: &Uuid) -> Result<Reply, Refusal>
        ensures { Answers self.now.machine (Event.OutcomeOf id.now) result self.now.machine }
    {
        let Some(tree) = self.outcome_tree(self.table.trees()) else {
            return Err(Refusal::Unsupported);
        };
        match number_in(self.alloc, tree, id)? {
            Some(number) => Ok(Reply::CommittedAs { number }),
            None => Err(Refusal::NotFound),
        }
    }
}
