//! Whole runs of an engine.
ghost use Rattle.std.specs.Prelude.{◌≡◌, IfOk, OnErr};
ghost use Rattle.store_model.specs.Steps.{Run};
ghost use Rattle.commit_journal.specs.Journals.{store_of};
ghost use Rattle.engine_invariant.specs.Prefixes.{AreOnDisk, IsSafeAt};
ghost use Rattle.engine_invariant.specs.Runs.{AnswersInTurn, RunsSafely};
ghost use Rattle.engine.specs.Events.{parts_view};
ghost use Rattle.engine.specs.Parts.{IsSound};

use crate::parts::Parts;
use disk_model::Disk;
use std::alloc::{AllocError, Global};
use store_model::{Event, Reply};

impl<D: Disk> Parts<D> {
    /// Events, one after another, with their replies.
    pub fn run(&mut self, alloc: Global, events: Vec<Event>) -> Result<Vec<Reply>, AllocError>
        requires sound { IsSound self.old }
        requires on_disk { D.faithful self.old.disk →
            AreOnDisk self.old.journal self.old.hives.items
            (D.state_at self.old.disk (D.clock self.old.disk)) }
        ensures crashes { IfOk result (λ replies. D.faithful self.new.disk →
            RunsSafely (IsSafeAt (store_of self.old.journal) (D.state_at self.new.disk))
            (parts_view D.clock D.failures self.old) events.items replies.items
            (parts_view D.clock D.failures self.new)) }
        ensures answers { IfOk result (λ replies. AnswersInTurn
            (parts_view D.clock D.failures self.old) events.items replies.items
            (parts_view D.clock D.failures self.new)) }
        ensures run { IfOk result (λ replies.
            Run self.old.store.machine events.items replies.items self.new.store.machine) }
        ensures err { OnErr result (self.new ≡ self.old) }
        ensures sound { IsSound self.new }
        ensures on_disk { D.faithful self.new.disk → AreOnDisk self.new.journal self.new.hives.items
            (D.state_at self.new.disk (D.clock self.new.disk)) }
        ensures store { store_of self.new.journal ≡ store_of self.old.journal }
        ensures faithful { D.faithful self.new.disk → D.faithful self.old.disk }
    {
        engine_invariant::laws::crashes_leave_prefixes();
        engine_invariant::laws::safe_runs_go_on();
        let mut replies = Vec::with_capacity(alloc, events.len())?;
        for event in events {
            let reply = self.event(event);
            replies.push_reserved(reply);
        }
        Ok(replies)
    }
}
