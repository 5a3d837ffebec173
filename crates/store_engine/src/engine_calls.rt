//! The engine over a disk, as the registry uses it.
use crate::interface::StoreEngine;
use change_codec::EncodedChange;
use commit_journal::Layout;
use disk_model::Disk;
use engine::Engine;
use refusals::Refusal;
use reg_tree::Trees;
use store_model::{Event, Reply};
use transactions::Next;
use uuid::Uuid;

impl<D: Disk> StoreEngine for Engine<D> {
    ghost use Rattle.engine_invariant.specs.Prefixes.{IsSafeAt};
    ghost use Rattle.engine.specs.Shown.{engine_view};

    ghost state = { λ e. engine_view D.clock D.failures e };

    ghost prepared = { λ e. e.prepared };

    ghost store = { λ e. e.store };

    ghost faithful = { λ e. D.faithful e.disk };

    ghost safe = { λ e moment machine. IsSafeAt e.store (D.state_at e.disk) moment machine };

    fn event(&mut self, event: Event) -> Reply {
        engine_invariant::laws::crashes_leave_prefixes();
        Engine::event(self, event)
    }

    fn prepare(&mut self, event: Event) -> Result<Option<Next>, Refusal> {
        let next = Engine::prepare(self, event)?;
        Ok(next)
    }

    fn finish(&mut self) -> Reply {
        Engine::finish(self)
    }

    fn keeps_a_prefix(&self) {
        Engine::keeps_a_prefix(self)
    }

    fn stays_within(&self) {
        Engine::stays_within(self)
    }

    fn hives(&self) -> usize {
        usize::from(Engine::hives(self))
    }

    fn trees(&self) -> &Trees {
        Engine::trees(self)
    }

    fn durable(&self) -> u64 {
        Engine::durable(self)
    }

    fn last_number(&self) -> u64 {
        Engine::last_number(self)
    }

    fn changes_after(&self, number: u64) -> Result<&[EncodedChange], u64> {
        Engine::changes_after(self, number)
    }

    fn id(&self) -> Uuid {
        Engine::id(self)
    }

    fn layout(&self) -> Layout {
        Engine::layout(self)
    }

    fn has_pending(&self) -> bool {
        Engine::has_pending(self)
    }

    fn hive_with_work(&self, after: u8) -> Option<u8> {
        Engine::hive_with_work(self, after)
    }

    fn may_trim(&self) -> bool {
        Engine::may_trim(self)
    }

    fn room(&self) -> u64 {
        Engine::room(self)
    }
}
