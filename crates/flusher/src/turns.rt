//! The turns of a flusher.
ghost use Rattle.std.specs.Prelude.{IfErr, IfOk};
ghost use Rattle.ktm_calls.specs.Denials.{IsTurnDenied};
ghost use Rattle.ktm_calls.specs.Waiting.{IsDone, IsFailedStep};

use crate::gate::Gate;
use disk_model::Progress;
use histories::Start;
use ktm_calls::{Denied, EventKind, Registry, Stopped, Told, Turn};
use std::sync::Wait;
use store_engine::StoreEngine;
use store_model::Reply;

/// Takes turns until it was told to stop and has nothing left to do, or a step is refused since the device failed. A
/// step for which there is no memory is made again. What comes back carries the history in which nothing was left.
pub fn run_flusher<E: StoreEngine, O: Start, G: Gate, R: Wait>(
    rt: &R,
    registry: &Registry<E, O>,
    gate: &G,
) -> Result<Stopped, Told>
    ensures stopped { IfOk result (IsDone O.history O.start) }
    ensures failed { IfErr result IsFailedStep }
{
    for _ in rt.forever() {
        match try_run_flusher(rt, registry, gate) {
            Ok(stopped) => return Ok(stopped),
            Err(Denied::NoMemory) => {}
            Err(Denied::Told(told)) => return Err(told),
        }
    }
    unreachable!()
}

/// The same, but a step for which there is no memory ends it, too.
pub fn try_run_flusher<E: StoreEngine, O: Start, G: Gate, R: Wait>(
    rt: &R,
    registry: &Registry<E, O>,
    gate: &G,
) -> Result<Stopped, Denied>
    ensures stopped { IfOk result (IsDone O.history O.start) }
    ensures denied { IfErr result IsTurnDenied }
{
    let mut least = gate.room();
    for _ in rt.forever() {
        gate.before_turn();
        if least > 0 {
            let _ = registry.wait_until_used(rt, least);
        }
        match registry.turn(rt) {
            Ok(Turn::Step(told)) => {
                if let Reply::Stepped { progress } = told.reply() {
                    gate.after_step(*progress);
                    least = room_before_next(rt, registry, gate, told.kind(), *progress);
                }
            }
            Ok(Turn::Stopped(stopped)) => return Ok(stopped),
            Err(denied) => return Err(denied),
        }
    }
    unreachable!()
}

// how many bytes of the journal's room are used before the turn after a step: what has begun goes on at once
fn room_before_next<E: StoreEngine, O: Start, G: Gate, R: Wait>(
    rt: &R,
    registry: &Registry<E, O>,
    gate: &G,
    kind: EventKind,
    progress: Progress,
) -> u64 {
    if progress == Progress::More {
        return 0;
    }
    match kind {
        EventKind::FlusherStep { hive: _ } => gate.room_after(registry.room(rt).bytes),
        EventKind::TrimStep => gate.room(),
        _ => 0,
    }
}
