//! A store as of a number, of which a copy can be made while others go on.
ghost use Rattle.std.specs.Prelude.{◌≡◌, IfErr, IfOk};
ghost use Rattle.refusals.specs.declared.refusal.Refusal.TheVariants.{NoMemory};
ghost use Rattle.ktm_calls.specs.Moments.{SeesMore};
ghost use Rattle.ktm_calls.specs.Snapshots.{IsSnapshotOf};

use crate::asker::Asker;
use crate::locked::Locked;
use commit_journal::Layout;
use histories::Start;
use refusals::Refusal;
use reg_tree::Trees;
use std::sync::Wait;
use store_engine::StoreEngine;
use uuid::Uuid;

/// A store as of a number.
#[derive(Drop)]
pub struct StoreSnapshot {
    /// Its id.
    pub id: Uuid,
    /// Whether it keeps the outcomes of commits.
    pub layout: Layout,
    /// How many hives calls name.
    pub hives: usize,
    /// The number of the last change.
    pub number: u64,
    /// The trees after that change. With outcomes there is one more than calls name.
    pub trees: Trees,
}

impl<E: StoreEngine, O: Start> Locked<E, O> {
    /// The store after all that was accepted, which one who asks has seen then. It copies one pointer a hive.
    pub(crate) fn snapshot<R: Wait>(
        &self,
        rt: &R,
        mine: &mut Asker<O>,
    ) -> Result<StoreSnapshot, Refusal>
        ensures seen { SeesMore mine.old mine.new }
        ensures asked { mine.new.asked ≡ mine.old.asked }
        ensures snapshot { IfOk result (IsSnapshotOf O.store O.trees O.number O.hives mine.new.list) }
        ensures refused { IfErr result (λ why. why ≡ NoMemory) }
    {
        self.inform(rt, mine);
        self.is_of_registry(); // for the prover
        let engine = self.engine();
        engine.stays_within(); // for the prover
        let trees = engine.trees().try_clone(self.alloc())?;
        Ok(StoreSnapshot {
            id: engine.id(),
            layout: engine.layout(),
            hives: self.hives(),
            number: engine.last_number(),
            trees,
        })
    }
}
