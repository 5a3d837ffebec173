//! The fold of the history.
ghost use Rattle.engine.specs.Events.{PartsStep, StepAdvances};
ghost use Rattle.engine.specs.Parts.{IsSound};
ghost use Rattle.std.specs.Prelude.{◌≡◌, ◌≤◌, ◌-◌, false};
ghost use Rattle.recovery.specs.Retained.{HasRoom};
ghost use Rattle.store_model.specs.Machine.{last_number};
ghost use Rattle.store_model.specs.declared.event.Event.TheVariants as Event;

use crate::parts::Parts;
use disk_model::Disk;
use refusals::Refusal;
use store_model::Reply;

impl<D: Disk> Parts<D> {
    /// Folds the history, if each accepted change is durable. The changes that some hive lacks stay for its flush; room
    /// for them is made first. Makes no device call.
    pub fn fold(&mut self) -> Reply
        requires sound { IsSound self.old }
        ensures continues { PartsStep D.state_at D.clock D.failures D.faithful
            Event.Fold result self.old self.new }
        ensures advances { StepAdvances Event.Fold result self.old self.new }
    {
        if let Err(refusal) = self.check_not_faulted() {
            return Reply::Refused { refusal };
        }
        if self.has_pending() {
            return Reply::NotYet;
        }
        let retained = self.store.last_number() - self.store.retained();
        match self.opened.reserve(retained as usize) {
            Ok(()) => self.fold_reserved(),
            Err(_) => Reply::Refused {
                refusal: Refusal::NoMemory,
            },
        }
    }

    // the fold itself, with room for all changes of the history that are retained. Takes no memory
    fn fold_reserved(&mut self) -> Reply
        requires sound { IsSound self.old }
        requires works { self.old.store.machine.faulted ≡ false }
        requires all_durable { last_number self.old.store.machine ≤ self.old.store.machine.durable }
        requires room { HasRoom (last_number self.old.store.machine - self.old.store.retained)
            self.old.opened }
        ensures continues { PartsStep D.state_at D.clock D.failures D.faithful
            Event.Fold result self.old self.new }
        ensures advances { StepAdvances Event.Fold result self.old self.new }
    {
        engine_invariant::laws::folds_keep();
        let number = self.store.last_number();
        let retained = self.store.retained();
        let earlier = self.earlier.with(&self.store);
        let recent = self.store.fold();
        self.opened.append_reserved(retained, recent);
        self.earlier = earlier;
        Reply::Folded { number }
    }
}
