//! Opens the store that is on a disk.
ghost use Rattle.std.specs.Prelude.{◌≡◌, ◌<◌, ◌≤◌, [], IfOk, IfErr, OnOk, false};
ghost use Rattle.refusals.specs.declared.refusal.Refusal.TheVariants.{DiskFault, NoMemory};
ghost use Rattle.store_model.specs.Machine.{Machine};
ghost use Rattle.store_model.specs.Steps.{with_session};
ghost use Rattle.recovery.specs.Recovered.{IsRecovered, seen_in};
ghost use Rattle.recovery.specs.Repairs.{repairs_left};
ghost use Rattle.recovery.specs.Shown.{StoreIsRepaired, store_of};
ghost use Rattle.store_driver.specs.Later.{ReachedByEvents};
ghost use Rattle.store_driver.specs.Later.{IsLater};
ghost use Rattle.store_driver.specs.Openings.{BeginsAt, CrashesRecover, LifeReaches, HasFailedSince, HasLived, IsOpenedOn, IsRoomOf, LeavesLife, MayNotOpen, room_in, session_0};

use crate::engine_call::ask;
use disk_model::Disk;
use engine::Engine;
use recovery::{Opened, open};
use refusals::Refusal;
use std::alloc::Global;
use store_model::{Event, Reply};

/// Opens the store that is on a disk, with session 0 open, and answers the number of its last change. If the power went
/// while a hive was being written, the store is repaired.
///
/// Refused if memory is lacking, if the device fails, and with a refusal of the files only if they recover nothing. The
/// disk is handed back then, and whatever a crash leaves of it from then on recovers what the files recovered.
pub fn open_store<D: Disk>(alloc: Global, disk: D) -> Result<(Engine<D>, u64), (Refusal, D)>
    ensures ok { IfOk result (λ it. IsOpenedOn (D.faithful it.0.disk)
        (seen_in (D.state_at disk (D.clock disk))) it.0.store it.1 session_0 it.0.machine) }
    ensures failures { IfOk result (λ it. D.failures disk ≤ D.failures it.0.disk) }
    ensures err { IfErr result (λ back. MayNotOpen (D.failures disk < D.failures back.1)
        (D.faithful back.1) (seen_in (D.state_at disk (D.clock disk))) back.0) }
    ensures left { IfErr result (λ back. LeavesLife (D.failures disk < D.failures back.1)
        (D.faithful back.1) (D.state_at disk (D.clock disk)) (D.state_at back.1 (D.clock back.1))) }
{
    let (engine, number) = open_engine(alloc, disk)?;
    let begun = in_session_0(engine)?;
    begun.keeps_invariant(); // for the prover
    Ok((begun, number))
}

/// The same with no session open, for callers that have sessions of their own.
pub fn open_engine<D: Disk>(alloc: Global, disk: D) -> Result<(Engine<D>, u64), (Refusal, D)>
    ensures ok { IfOk result (λ it. IsOpenedOn (D.faithful it.0.disk)
        (seen_in (D.state_at disk (D.clock disk))) it.0.store it.1 [] it.0.machine) }
    ensures failures { IfOk result (λ it. D.failures disk ≤ D.failures it.0.disk) }
    ensures err { IfErr result (λ back. MayNotOpen (D.failures disk < D.failures back.1)
        (D.faithful back.1) (seen_in (D.state_at disk (D.clock disk))) back.0) }
    ensures left { IfErr result (λ back. LeavesLife (D.failures disk < D.failures back.1)
        (D.faithful back.1) (D.state_at disk (D.clock disk)) (D.state_at back.1 (D.clock back.1))) }
{
    let opened = repaired(found(alloc, disk)?)?;
    let number = opened.number();
    let engine = begun(alloc, opened)?;
    engine.keeps_invariant(); // for the prover
    Ok((engine, number))
}

// the store that is on a disk, as it was left
fn found<D: Disk>(alloc: Global, disk: D) -> Result<Opened<D>, (Refusal, D)>
    ensures works { IfOk result (λ opened. opened.failed ≡ false) }
    ensures recovered { IfOk result (λ opened. D.faithful opened.disk →
        IsRecovered (seen_in (D.state_at disk (D.clock disk)))
        (store_of opened) opened.found.number opened.found.trees) }
    ensures room { IfOk result (λ opened. D.faithful opened.disk →
        IsRoomOf (seen_in (D.state_at disk (D.clock disk))) (store_of opened) (room_in opened)) }
    ensures failures { IfOk result (λ opened. D.failures disk ≤ D.failures opened.disk) }
    ensures err { IfErr result (λ back. MayNotOpen (D.failures disk < D.failures back.1)
        (D.faithful back.1) (seen_in (D.state_at disk (D.clock disk))) back.0) }
    ensures left { IfErr result (λ back. LeavesLife (D.failures disk < D.failures back.1)
        (D.faithful back.1) (D.state_at disk (D.clock disk)) (D.state_at back.1 (D.clock back.1))) }
{
    open(alloc, disk)
}

/// The same store, of which no repair is left.
///
/// Refused with `DiskFault` if the device fails. The disk is handed back then, and whatever a crash leaves of it recovers
/// what was found.
pub fn repaired<D: Disk>(opened: Opened<D>) -> Result<Opened<D>, (Refusal, D)>
    requires works { opened.failed ≡ false }
    ensures whole { IfOk result StoreIsRepaired }
    ensures same { IfOk result (λ whole. (whole.found.number ≡ opened.found.number)
        × (whole.found.trees ≡ opened.found.trees) × (store_of whole ≡ store_of opened)
        × (room_in whole ≡ room_in opened)) }
    ensures failures { IfOk result (λ whole. D.failures opened.disk ≤ D.failures whole.disk) }
    ensures faithful { IfOk result (λ whole. D.faithful whole.disk → D.faithful opened.disk) }
    ensures err { IfErr result (λ back. (back.0 ≡ DiskFault)
        × (D.failures opened.disk < D.failures back.1)) }
    ensures back { IfErr result (λ back. D.faithful back.1 → D.faithful opened.disk) }
    ensures left { IfErr result (λ back. D.faithful back.1 → HasLived
        (D.failures opened.disk < D.failures back.1) (store_of opened) opened.found.number
        opened.found.trees (D.state_at back.1 (D.clock back.1))) }
    ensures kept { IfErr result (λ back. D.faithful back.1 → CrashesRecover (store_of opened)
        opened.found.number opened.found.trees (D.state_at back.1 (D.clock back.1))) }
{
    let mut opened = opened;
    while !opened.is_whole() {
        if let Err(why) = repair(&mut opened) {
            opened.keeps_what_was_found(); // for the prover
            return Err((why, opened.into_disk()));
        }
    }
    Ok(opened)
}

// one step of the repair
fn repair<D: Disk>(opened: &mut Opened<D>) -> Result<(), Refusal>
    requires works { opened.old.failed ≡ false }
    requires left { ¬ (StoreIsRepaired opened.old) }
    ensures works { OnOk result (opened.new.failed ≡ false) }
    ensures fewer { OnOk result (repairs_left opened.new.found.hives.items
        < repairs_left opened.old.found.hives.items) }
    ensures same { (opened.new.found.number ≡ opened.old.found.number)
        × (opened.new.found.trees ≡ opened.old.found.trees)
        × (store_of opened.new ≡ store_of opened.old)
        × (room_in opened.new ≡ room_in opened.old) }
    ensures faithful { D.faithful opened.new.disk → D.faithful opened.old.disk }
    ensures failures { D.failures opened.old.disk ≤ D.failures opened.new.disk }
    ensures err { IfErr result (λ why. (why ≡ DiskFault)
        × (D.failures opened.old.disk < D.failures opened.new.disk)) }
{
    opened.repair_step()?;
    Ok(())
}

// an engine over it
fn begun<D: Disk>(alloc: Global, opened: Opened<D>) -> Result<Engine<D>, (Refusal, D)>
    requires { StoreIsRepaired opened }
    ensures begins { IfOk result (λ engine. BeginsAt (store_of opened).hives opened.found.number
        opened.found.trees (room_in opened) [] engine.machine) }
    ensures store { IfOk result (λ engine. engine.store ≡ store_of opened) }
    ensures disk { IfOk result (λ engine. engine.disk ≡ opened.disk) }
    ensures err { IfErr result (λ back. back.0 ≡ NoMemory) }
    ensures back { IfErr result (λ back. D.faithful back.1 → D.faithful opened.disk) }
    ensures left { IfErr result (λ back. D.faithful back.1 → HasLived
        (D.failures opened.disk < D.failures back.1) (store_of opened) opened.found.number
        opened.found.trees (D.state_at back.1 (D.clock back.1))) }
{
    match Engine::new(alloc, opened) {
        Ok(engine) => Ok(engine),
        Err((why, opened)) => {
            opened.keeps_what_was_found(); // for the prover
            Err((why, opened.into_disk()))
        }
    }
}

// the same engine with session 0 open
fn in_session_0<D: Disk>(engine: Engine<D>) -> Result<Engine<D>, (Refusal, D)>
    ensures ok { IfOk result (λ it. (it.machine ≡ with_session engine.machine 0)
        × IsLater D.faithful D.failures engine it) }
    ensures err { IfErr result (λ back. back.0 ≡ NoMemory) }
    ensures back { IfErr result (λ back. D.faithful back.1 → D.faithful engine.disk) }
    ensures left { IfErr result (λ back. D.faithful back.1 → (last : Machine)
        × ReachedByEvents engine.machine last × LifeReaches (HasFailedSince engine.machine
        (D.failures engine.disk) (D.failures back.1)) engine.store last
        (D.state_at back.1 (D.clock back.1))) }
{
    let mut engine = engine;
    match ask(&mut engine, Event::StartSession { session: 0 }) {
        Reply::Done => Ok(engine),
        _ => {
            engine.keeps_a_prefix(); // for the prover
            engine.reads_a_prefix(); // for the prover
            Err((Refusal::NoMemory, engine.into_disk()))
        }
    }
}
