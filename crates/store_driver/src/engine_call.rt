//! One question to a store.
ghost use Rattle.std.specs.Prelude.{◌≡◌};
ghost use Rattle.engine_invariant.specs.Progress.{HasPending, IsNotRefused, NearsDurable};
ghost use Rattle.store_model.specs.Steps.{Step};
ghost use Rattle.store_driver.specs.Later.{IsLater};

use disk_model::Disk;
use engine::Engine;
use store_model::{Event, Reply};

/// Asks a store one event. It promises only the part of the store's promises that callers of this crate rely on.
pub fn ask<D: Disk>(engine: &mut Engine<D>, event: Event) -> Reply
    ensures step { Step engine.old.machine event result engine.new.machine }
    ensures nears_durable { event ≡ Event.JournalStep → IsNotRefused result → HasPending engine.old.machine →
        NearsDurable engine.old.machine engine.old.left engine.new.machine engine.new.left }
    ensures left { ¬ (event ≡ Event.JournalStep) → ¬ (event ≡ Event.TrimStep) →
        engine.new.left ≡ engine.old.left }
    ensures later { IsLater D.faithful D.failures engine.old engine.new }
{
    engine.event(event)
}
