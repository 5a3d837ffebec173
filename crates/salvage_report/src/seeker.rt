//! A look for a key among what a salvage finds.

use crate::paths::begins;
use hive_salvage::{Loss, SalvageSink};
use key_walk::KeyPath;
use reg_names::Name;
use reg_tree_parts::Key;
use std::convert::Infallible;

/// Notes whether there is a key at a path or below it.
#[derive(Drop)]
pub(crate) struct Seeker<'a> {
    pub(crate) path: &'a [Name],
    pub(crate) found: bool,
}

impl SalvageSink for Seeker<'_> {
    ghost use Rattle.salvage_report.specs.SinkLaws.{Sought, sought_none, sought_more};

    ghost Took = { λ old new events. Sought old.path.now new.path.now old.found new.found events };

    type Error = Infallible;

    fn found(&mut self, path: &KeyPath<'_>, _key: &Key) -> Result<(), Infallible> {
        self.found = self.found || begins(self.path, path);
        Ok(())
    }

    fn lost(&mut self, _path: &KeyPath<'_>, _loss: &Loss) -> Result<(), Infallible> {
        Ok(())
    }

    ghost took_none = { λ sink. sought_none sink.path.now sink.found };

    ghost took_more = { λ before between after front rest one two. sought_more before.path.now
        between.path.now after.path.now before.found between.found after.found front rest one two };
}
