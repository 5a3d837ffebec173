//! The sink of a read: it replays the journal's changes on one hive's tree as they are read.
ghost use Rattle.std.specs.Prelude.{◌≡◌};

use crate::held_tree::HeldTree;
use crate::replay_changes::after_change;
use change_codec::EncodedChange;
use commit_journal::ElementSink;
use refusals::Refusal;
use reg_tree::Tree;
use std::alloc::Global;

/// The tree of one hive while the journal is scanned. Each change that the hive lacks is applied to it, by the hive's own
/// number. Of the changes nothing is kept.
#[derive(Drop)]
pub(crate) struct HiveReplay {
    alloc: Global,
    hive: u8,
    /// The hive's own number.
    pub number: u64,
    /// Its tree.
    pub tree: Tree,
}

impl HiveReplay {
    /// No change is read: the tree is that of the hive's files.
    pub fn new(alloc: Global, hive: u8, held: HeldTree) -> HiveReplay
        ensures hive { result.hive ≡ hive }
        ensures number { result.number ≡ held.number }
        ensures tree { result.tree ≡ held.tree }
    {
        HiveReplay {
            alloc,
            hive,
            number: held.number,
            tree: held.tree,
        }
    }
}

impl ElementSink for HiveReplay {
    ghost use Rattle.store_hive.specs.Replays.{NotReplayedOnHive, ReplaysOnHive};
    ghost use Rattle.store_hive.specs.ReplayLaws.{replays_more, replays_none};

    ghost Took = { λ before after changes. ReplaysOnHive before after changes };

    ghost Denies = { λ hive change why. NotReplayedOnHive hive change why };

    /// Replays a change. `JournalDamaged` if the hive lacks it and it isn't legal on its tree.
    fn take(&mut self, number: u64, change: EncodedChange) -> Result<(), Refusal> {
        if number <= self.number || !change.is_on(self.hive) {
            return Ok(());
        }
        self.tree = after_change(self.alloc, &self.tree, self.hive, &change)?;
        Ok(())
    }

    ghost took_none = { λ hive. replays_none hive };

    ghost took_more = { λ before between after front rest one two.
        replays_more before between after front rest one two };
}
