//! A flusher on a thread of its own, beside the caller.
ghost use Rattle.std.specs.Prelude.{IfErr, IfOk};
ghost use Rattle.ktm_calls.specs.Denials.{IsTurnDenied};
ghost use Rattle.ktm_calls.specs.Waiting.{IsDone, IsFailedStep};

use crate::gate::Gate;
use crate::turns::{run_flusher, try_run_flusher};
use histories::Start;
use ktm_calls::{Denied, Registry, Stopped, Told};
use std::sync::Wait;
use std::thread::{self, Threads};
use store_engine::StoreEngine;

/// Runs a flusher on a thread of its own while `work` runs on the caller's, and tells it to stop after that. Ends when
/// both have.
///
/// If no thread can be made, the flusher runs after the work.
pub fn run_beside<
    E: StoreEngine + Send,
    O: Start + Send + Sync,
    G: Gate + Sync,
    R: Threads + Wait + Sync,
    T,
    F: FnOnce() -> T,
>(rt: &R, registry: &Registry<E, O>, gate: &G, work: F) -> (T, Result<Stopped, Told>)
    requires work { F.pre work }
    ensures done { F.post work result.0 }
    ensures stopped { IfOk result.1 (IsDone O.history O.start) }
    ensures failed { IfErr result.1 IsFailedStep }
{
    let (flushed, done) = thread::join(
        rt,
        || run_flusher(rt, registry, gate),
        || {
            let done = work();
            registry.stop_flusher(rt);
            done
        },
    );
    (done, flushed)
}

/// The same as [`run_beside`] for work that is lent, so that it is known what it leaves in its captures, and with a flusher that a step
/// for which there is no memory ends.
pub fn try_run_beside<
    E: StoreEngine + Send,
    O: Start + Send + Sync,
    G: Gate + Sync,
    R: Threads + Wait + Sync,
    T,
    F: FnMut() -> T,
>(rt: &R, registry: &Registry<E, O>, gate: &G, work: &mut F) -> (T, Result<Stopped, Denied>)
    requires work { F.pre work.old }
    ensures done { F.step work.old result.0 work.new }
    ensures stopped { IfOk result.1 (IsDone O.history O.start) }
    ensures denied { IfErr result.1 IsTurnDenied }
{
    let (flushed, done) = thread::join_mut(
        rt,
        &mut || try_run_flusher(rt, registry, gate),
        &mut || -> T
            requires { F.pre work.now }
            ensures { F.step work.entry.now result work.exit.now }
        {
            let done = work();
            registry.stop_flusher(rt);
            done
        },
    );
    (done, flushed)
}
