//! Waits until a change is durable.
ghost use Rattle.std.specs.Prelude.{◌≡◌, ◌<◌, ◌≤◌, MatchResult, OnOk, Some, None};
ghost use Rattle.engine_invariant.specs.Progress.{steps_to_all};
ghost use Rattle.store_model.specs.Machine.{last_number};
ghost use Rattle.store_model.specs.Steps.{Step};
ghost use Rattle.store_driver.specs.Later.{IsLater};
ghost use Rattle.store_driver.specs.Waits.{IsWaited, IsAsked, IsStepped};

use crate::engine_call::ask;
use disk_model::Disk;
use engine::Engine;
use refusals::Refusal;
use store_model::{Event, Reply};

/// Makes steps of the journal until there is a receipt of the change of this number, which was accepted. Refused with
/// the refusal of the first question or step that is refused.
pub fn wait<D: Disk>(engine: &mut Engine<D>, number: u64) -> Result<(), Refusal>
    requires { number ≤ last_number engine.old.machine }
    ensures later { IsLater D.faithful D.failures engine.old engine.new }
    ensures waited { MatchResult result (λ _. IsWaited engine.old.machine number None engine.new.machine)
        (λ refusal. IsWaited engine.old.machine number (Some refusal) engine.new.machine) }
{
    while !has_receipt(engine, number)? {
        step(engine)?;
    }
    Ok(())
}

// whether there is a receipt of the change
fn has_receipt<D: Disk>(engine: &mut Engine<D>, number: u64) -> Result<bool, Refusal>
    ensures left { engine.new.left ≡ engine.old.left }
    ensures later { IsLater D.faithful D.failures engine.old engine.new }
    ensures asked { MatchResult result (λ has. IsAsked engine.old.machine number has engine.new.machine)
        (λ refusal. Step engine.old.machine (Event.Acked number) (Reply.Refused refusal)
        engine.new.machine) }
{
    match ask(engine, Event::Acked { number }) {
        Reply::Receipt { .. } => Ok(true),
        Reply::Refused { refusal } => Err(refusal),
        _ => Ok(false),
    }
}

// one step of the journal
fn step<D: Disk>(engine: &mut Engine<D>) -> Result<(), Refusal>
    ensures later { IsLater D.faithful D.failures engine.old engine.new }
    ensures made { MatchResult result (λ _. IsStepped engine.old.machine engine.new.machine)
        (λ refusal. Step engine.old.machine Event.JournalStep (Reply.Refused refusal)
        engine.new.machine) }
    ensures nears_durable { OnOk result (engine.old.machine.durable < last_number engine.old.machine →
        steps_to_all engine.new.machine engine.new.left
        < steps_to_all engine.old.machine engine.old.left) }
{
    match ask(engine, Event::JournalStep) {
        Reply::Refused { refusal } => Err(refusal),
        _ => Ok(()),
    }
}
