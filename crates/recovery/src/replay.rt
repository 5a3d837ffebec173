//! The sink of an opening: it replays the journal's changes on the hives' trees as they are read.
ghost use Rattle.std.specs.Prelude.{◌≡◌, ◌<◌, ◌∷◌, [], get_or, length, map, replicate, slice_get, Some, IfOk, IfErr};
ghost use Rattle.refusals.specs.Answers.{RefusedFor};
ghost use Rattle.refusals.specs.declared.refusal.Refusal.TheVariants.{JournalDamaged};
ghost use Rattle.reg_tree.specs.Maps.{IsTree, TreeMap};
ghost use Rattle.reg_tree.specs.Sequences.{AreTrees};
ghost use Rattle.crash_model.specs.Changes.{replay};
ghost use Rattle.change_codec.specs.ModelChanges.{tree_rules};
ghost use Rattle.hive_flush.specs.HiveStates.{file_choice, memory_of};
ghost use Rattle.recovery.specs.Retained.{is_lacked, numbered_changes};

use crate::numbers::numbers_of;
use crate::replay_changes::after_change;
use crate::retained_changes::RetainedChanges;
use change_codec::EncodedChange;
use commit_journal::{ElementSink, LastChangePerHive};
use hive_flush::HiveFile;
use refusals::Refusal;
use reg_tree::Tree;
use std::alloc::{AllocError, Global};

/// The trees of a store's hives while its journal is scanned.
///
/// Each change is applied to the tree of each hive that lacks it, by the hive's own number. Only a change that some hive
/// lacks is kept, for the hive's next flush. Of the others nothing is left but, for each hive, the last number.
#[derive(Drop)]
pub(crate) struct Replay {
    alloc: Global,
    /// How many hives there are.
    count: u8,
    /// The hives' own numbers, in their order.
    pub numbers: Vec<u64>,
    /// Their trees, as many.
    pub trees: Vec<Tree>,
    /// The changes that some hive lacks.
    pub retained: RetainedChanges,
    /// For each hive the last change that names it.
    pub last_changes: LastChangePerHive,
    ghost many: { length numbers.items ≡ count },
    ghost all: { length trees.items ≡ count },
}

impl Replay {
    ghost use Rattle.recovery.specs.Replays.{SomeIllegal, TreesFollow, ops_lacked};

    /// No change is read: the hives' trees are those of their files.
    pub fn new(alloc: Global, hives: &[HiveFile], count: u8) -> Result<Replay, AllocError>
        requires many { length hives.now ≡ count }
        ensures numbers { IfOk result (λ replay.
            replay.numbers.items ≡ map (λ hive. (file_choice hive).now.1) hives.now) }
        ensures trees { IfOk result (λ replay.
            replay.trees.items ≡ map (λ hive. (memory_of hive).0) hives.now) }
        ensures are { IfOk result (λ replay. AreTrees replay.trees.items) }
        ensures retained { IfOk result (λ replay. numbered_changes replay.retained ≡ []) }
        ensures names { IfOk result (λ replay.
            replay.last_changes.last.items ≡ replicate (length hives.now) 0) }
    {
        Ok(Replay {
            alloc,
            count,
            numbers: numbers_of(alloc, hives)?,
            trees: trees_of(alloc, hives)?,
            retained: RetainedChanges::new(alloc),
            last_changes: LastChangePerHive::new(alloc, hives.len())?,
        })
    }

    // whether some hive lacks a change of this number
    fn is_lacked(&self, number: u64, change: &EncodedChange) -> bool
        ensures { result ≡ is_lacked self.now.numbers.items (number, change.now) }
    {
        let mut hives = change.hives();
        while let Some(hive) = hives.next() {
            if self.number_of(hive) < number {
                return true;
            }
        }
        false
    }

    // a hive's own number, or 0 if there is no such hive
    fn number_of(&self, hive: u8) -> u64
        ensures { result ≡ get_or self.now.numbers.items hive 0 }
    {
        let place = usize::from(hive);
        if place < self.numbers.len() {
            self.numbers[place]
        } else {
            0
        }
    }

    // the hives' trees with a change of this number applied
    fn trees_with(&self, number: u64, change: &EncodedChange) -> Result<Vec<Tree>, Refusal>
        ensures follow { IfOk result (λ trees. TreesFollow self.now.numbers.items
            ((number, change.now) ∷ []) self.now.trees.items trees.items) }
        ensures trees { IfOk result (λ trees. AreTrees trees.items) }
        ensures fails { IfErr result (RefusedFor JournalDamaged
            (SomeIllegal self.now.numbers.items self.now.trees.items (number, change.now))) }
    {
        let mut made = Vec::with_capacity(self.alloc, self.trees.len())?;
        for hive in 0..self.count {
            let tree = self.tree_with(hive, number, change)?;
            made.push_reserved(tree);
        }
        Ok(made)
    }

    // a hive's tree, with a change of this number applied if the hive lacks it
    fn tree_with(&self, hive: u8, number: u64, change: &EncodedChange) -> Result<Tree, Refusal>
        requires there { hive < length self.now.trees.items }
        ensures made { IfOk result (λ made. (tree : TreeMap) → slice_get self.now.trees.items hive ≡ Some tree →
            replay tree_rules (ops_lacked hive (get_or self.now.numbers.items hive 0)
            ((number, change.now) ∷ [])) tree ≡ Some made) }
        ensures tree { IfOk result IsTree }
        ensures fails { IfErr result (RefusedFor JournalDamaged
            (SomeIllegal self.now.numbers.items self.now.trees.items (number, change.now))) }
    {
        let place = usize::from(hive);
        let tree = self.trees[place].clone()?;
        if self.numbers[place] >= number {
            let _ = tree.root(); // for the prover
            return Ok(tree);
        }
        let made = after_change(self.alloc, tree, hive, change)?;
        let _ = made.root(); // for the prover
        Ok(made)
    }
}

impl ElementSink for Replay {
    ghost use Rattle.recovery.specs.Replays.{NotReplayed, Replays};
    ghost use Rattle.recovery.specs.ReplayLaws.{replays_none, replays_more};

    ghost Took = { λ before after changes. Replays before after changes };

    ghost Denies = { λ replay change why. NotReplayed replay change why };

    /// Replays a change. `JournalDamaged` if it isn't legal on the tree of a hive that lacks it.
    fn take(&mut self, number: u64, change: EncodedChange) -> Result<(), Refusal> {
        if !self.is_lacked(number, &change) {
            self.last_changes.count_one(&change, number);
            return Ok(());
        }
        let trees = self.trees_with(number, &change)?;
        self.retained.reserve(1)?;
        self.trees = trees;
        self.last_changes.count_one(&change, number);
        self.retained.push_reserved(number, change);
        Ok(())
    }

    ghost took_none = { λ replay. replays_none replay };

    ghost took_more = { λ before between after front rest one two.
        replays_more before between after front rest one two };
}

// the hives' trees, as their files have them
fn trees_of(alloc: Global, hives: &[HiveFile]) -> Result<Vec<Tree>, AllocError>
    ensures trees { IfOk result (λ trees. trees.items ≡ map (λ hive. (memory_of hive).0) hives.now) }
    ensures are { IfOk result (λ trees. AreTrees trees.items) }
{
    let mut trees = Vec::with_capacity(alloc, hives.len())?;
    for hive in hives {
        let tree = hive.tree().clone()?;
        let _ = tree.root(); // for the prover
        trees.push_reserved(tree);
    }
    Ok(trees)
}
