//! Runs a script over the store that is on a disk.
ghost use Rattle.std.specs.Prelude.{◌<◌, [], Some, true, false};
ghost use Rattle.store_driver.specs.Openings.{LeavesLife};
ghost use Rattle.registry_runner.specs.Running.{IsRun};

use crate::parts::{PartKind, PartStart, run_parts};
use crate::run_end::write_refusal;
use disk_model::Disk;
use reply_lines::Status;
use std::alloc::Global;
use std::io;
use std::io::{BufRead, Write};
use std::sync::Wait;
use std::thread::Threads;
use store_driver::open_engine;

/// Runs a script over the store that is on a disk: opens and repairs the store, prints `opened N` with the number of
/// its last change, and writes the replies to the script's lines. But no line makes a store. At the end all accepted
/// changes are made durable, and then a flusher on a thread of its own moves them into the hives. That is also done
/// after a line that is not understood, if the script can't be read on, and if a write fails. Each of the two is
/// reported only if it is refused. The last line reports a failure of the device in a step that no line asked for.
///
/// Before the store waits for the disk, and after each commit and flush, the replies so far are written out.
///
/// If no store is opened, or no script begins on it, the reason is written, and no line is read. The disk is handed back
/// in any case, even if a write fails. One history leads from the opening to the end: at each of its moments, whatever a
/// crash leaves recovers a beginning of what was accepted by then. So what is left is what a life of the store leaves, and
/// runs in a row are lives. `Err` says that a write failed, which ends the run.
pub fn run<D: Disk + Drop + Send, R: Threads + Wait + Sync, B: BufRead, W: Write>(
    rt: &R,
    alloc: Global,
    disk: D,
    reader: &mut B,
    writer: &mut W,
) -> (D, io::Result<Status>)
    ensures runs { IsRun D.faithful D.state_at D.clock D.failures disk result.0 true
        (B.remaining reader.old) (W.contents writer.old) (W.contents writer.new) result.1 }
    ensures left { LeavesLife (D.failures disk < D.failures result.0) (D.faithful result.0)
        (D.state_at disk (D.clock disk)) (D.state_at result.0 (D.clock result.0)) }
{
    run_on(rt, alloc, disk, true, reader, writer)
}

/// The same if the script can't be read at all: the store is opened, and then it is reported that the script can't be
/// read.
pub fn run_unread<D: Disk + Drop + Send, R: Threads + Wait + Sync, W: Write>(
    rt: &R,
    alloc: Global,
    disk: D,
    writer: &mut W,
) -> (D, io::Result<Status>)
    ensures runs { IsRun D.faithful D.state_at D.clock D.failures disk result.0 false
        (Some []) (W.contents writer.old) (W.contents writer.new) result.1 }
    ensures left { LeavesLife (D.failures disk < D.failures result.0) (D.faithful result.0)
        (D.state_at disk (D.clock disk)) (D.state_at result.0 (D.clock result.0)) }
{
    let mut nothing = b"".as_slice();
    run_on(rt, alloc, disk, false, &mut nothing, writer)
}

// runs the script of a reader, which is not read if it can't be
fn run_on<D: Disk + Drop + Send, R: Threads + Wait + Sync, B: BufRead, W: Write>(
    rt: &R,
    alloc: Global,
    disk: D,
    can_read: bool,
    reader: &mut B,
    writer: &mut W,
) -> (D, io::Result<Status>)
    ensures runs { IsRun D.faithful D.state_at D.clock D.failures disk result.0 can_read
        (B.remaining reader.old) (W.contents writer.old) (W.contents writer.new) result.1 }
    ensures left { LeavesLife (D.failures disk < D.failures result.0) (D.faithful result.0)
        (D.state_at disk (D.clock disk)) (D.state_at result.0 (D.clock result.0)) }
{
    match open_engine(alloc, disk) {
        Ok((engine, number)) => {
            let start = PartStart {
                kind: PartKind::Opened,
                number,
                limit: engine.history_limit(),
                can_read,
                line: 1,
                moment: 0,
            };
            let (engine, ran) = run_parts(rt, alloc, engine, start, reader, writer);
            engine.keeps_a_prefix(); // for the prover
            engine.reads_a_prefix(); // for the prover
            (engine.into_disk(), ran)
        }
        Err((why, disk)) => (disk, write_refusal(writer, why)),
    }
}
