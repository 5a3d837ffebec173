//! What a script's session sees of the store as a whole: it, as of a number, its durable changes, and how full
//! it is.
ghost use Rattle.std.specs.Prelude.{◌≡◌, ◌+◌, length, IfErr, IfOk};
ghost use Rattle.refusals.specs.declared.refusal.Refusal.TheVariants.{NoMemory};
ghost use Rattle.ktm_calls.specs.Snapshots.{AreDurableAfter, IsSnapshotOf, IsStatsOf, MayNotFollow};
ghost use Rattle.registry_lines.specs.Interpreters.{script_of};
ghost use Rattle.registry_lines.specs.Scripts.{AsksNothing};

use crate::caller::Caller;
use crate::script::Script;
use histories::Start;
use ktm_calls::{FollowRefusal, StoreSnapshot, StoreStats};
use refusals::Refusal;
use reg_tree::Element;
use std::sync::Wait;
use store_engine::StoreEngine;

impl<O: Start> Script<O> {
    /// How many hives lines may name.
    pub fn hives(&self) -> usize
        ensures { result ≡ O.hives }
    {
        self.session.hives()
    }

    /// The store after all that was accepted, which the session has seen then. Refused with `NoMemory`.
    pub fn snapshot<E: StoreEngine, R: Wait>(
        &mut self,
        caller: &Caller<'_, E, O, R>,
    ) -> Result<StoreSnapshot, Refusal>
        ensures quiet { AsksNothing (script_of self.old) (script_of self.new) }
        ensures snapshot { IfOk result (IsSnapshotOf O.store O.trees O.number O.hives (script_of self.new).session.seen.list) }
        ensures refused { IfErr result (λ why. why ≡ NoMemory) }
    {
        caller.registry.snapshot(caller.rt, &mut self.session)
    }

    /// The first of the durable changes after a number; none if no later one is durable.
    pub fn durable_changes<E: StoreEngine, R: Wait>(
        &mut self,
        caller: &Caller<'_, E, O, R>,
        after: u64,
    ) -> Result<Vec<Element>, FollowRefusal>
        ensures quiet { AsksNothing (script_of self.old) (script_of self.new) }
        ensures told { IfOk result (λ changes. AreDurableAfter O.start O.number after (script_of self.new).session.seen
            changes.items) }
        ensures refused { IfErr result (MayNotFollow O.start O.number after (script_of self.new).session.seen) }
    {
        caller
            .registry
            .durable_changes(caller.rt, &mut self.session, after)
    }

    /// How full the store is after all that was accepted, which the session has seen then; and how many wait.
    pub fn stats<E: StoreEngine, R: Wait>(&mut self, caller: &Caller<'_, E, O, R>) -> StoreStats
        ensures quiet { AsksNothing (script_of self.old) (script_of self.new) }
        ensures stats { IsStatsOf O.start O.number (script_of self.new).session.seen result }
    {
        caller.registry.stats(caller.rt, &mut self.session)
    }
}
