//! Steps that a store makes of its own accord: durable changes go into the hives, and the journal's room is freed.
ghost use Rattle.std.specs.Prelude.{IfSome, MatchOption};
ghost use Rattle.store_model.specs.Steps.{Step};
ghost use Rattle.store_model.specs.declared.event.Reply.{Reply as AnyReply};
ghost use Rattle.store_model.specs.declared.event.Reply.TheVariants.{Refused as WasRefused};
ghost use Rattle.store_driver.specs.Later.{IsLater};
ghost use Rattle.store_driver.specs.Work.{IsStep, WasMade, MakesSteps};

use crate::engine_call::ask;
use disk_model::Disk;
use engine::Engine;
use refusals::Refusal;
use refusals::limits::MOST_JOURNAL_BYTES;
use store_model::{Event, Reply};

/// The used room of the journal in bytes from which on a store frees it.
pub const BUSY_ROOM: u64 = MOST_JOURNAL_BYTES / 2;

/// Whether so much of the journal's room is used that a store frees it.
pub fn frees_room<D: Disk>(engine: &Engine<D>) -> bool {
    engine.room() >= BUSY_ROOM
}

/// Makes each step that has something to do, until none has: all accepted changes are durable then, the hives have
/// them, and the journal's room is free. The first refused step ends it: its refusal is the answer.
pub fn run_until_idle<D: Disk>(engine: &mut Engine<D>) -> Option<Refusal>
    ensures works { MakesSteps result engine.old.machine engine.new.machine }
    ensures later { IsLater D.faithful D.failures engine.old engine.new }
{
    for _ in 0..u64::MAX {
        let Some(event) = next_step(engine) else {
            return None;
        };
        if let Some(refusal) = make_step(engine, event) {
            return Some(refusal);
        }
    }
    None
}

// makes a step; the refusal, if it is refused
fn make_step<D: Disk>(engine: &mut Engine<D>, event: Event) -> Option<Refusal>
    ensures step { MatchOption result
        ((answer : AnyReply) × WasMade answer × Step engine.old.machine event answer engine.new.machine)
        (λ refusal. Step engine.old.machine event (WasRefused refusal) engine.new.machine) }
    ensures later { IsLater D.faithful D.failures engine.old engine.new }
{
    match ask(engine, event) {
        Reply::Refused { refusal } => Some(refusal),
        _ => None,
    }
}

/// The next step that has something to do: of the journal, of a hive's flush, or of a trim.
pub fn next_step<D: Disk>(engine: &Engine<D>) -> Option<Event>
    ensures { IfSome result IsStep }
{
    if engine.has_pending() {
        return Some(Event::JournalStep);
    }
    match engine.hive_with_work(u8::MAX) {
        Some(hive) => Some(Event::FlusherStep { hive }),
        None if engine.may_trim() => Some(Event::TrimStep),
        None => None,
    }
}
