//! The keys and values of a tree, counted and weighed key by key.

use key_walk::{KeyPath, KeySink};
use reg_tree_parts::Key;
use std::convert::Infallible;

/// How many keys and values there are, and what they weigh together. Each is the greatest number of 64 bits if it is
/// more.
#[derive(Clone, Copy)]
pub struct KeyCounts {
    /// The keys, with the root.
    pub keys: u64,
    /// The values of all keys.
    pub values: u64,
    /// The weight of the tree.
    pub weight: u64,
}

impl KeyCounts {
    ghost use Rattle.hive_check.specs.KeyCounts.{no_keys};
    ghost use Rattle.std.specs.Prelude.{◌≡◌};

    /// No keys yet.
    pub fn new() -> KeyCounts
        ensures { result ≡ no_keys }
    {
        KeyCounts {
            keys: 0,
            values: 0,
            weight: 0,
        }
    }
}

impl KeySink for KeyCounts {
    ghost use Rattle.hive_check.specs.KeyCounts.{AddsKeys};
    ghost use Rattle.hive_check.specs.KeyCountLaws.{counts_none, counts_more};

    ghost Took = { λ old new keys. AddsKeys old new keys };

    type Error = Infallible;

    /// Counts a key.
    fn take(&mut self, _path: &KeyPath<'_>, key: &Key) -> Result<(), Infallible> {
        self.keys = self.keys.saturating_add(1);
        self.values = self.values.saturating_add(key.values().len() as u64);
        self.weight = self.weight.saturating_add(key.weight());
        Ok(())
    }

    ghost took_none = { λ counts. counts_none counts };

    ghost took_more = { λ before between after front rest one two.
        counts_more before between after front rest one two };
}
