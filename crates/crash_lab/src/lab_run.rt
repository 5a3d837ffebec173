//! Runs a script in a laboratory.
ghost use Rattle.std.specs.Prelude.{IfOk};
ghost use Rattle.crash_lab.specs.Runs.{IsExperiment};

use crate::lab_state::Laboratory;
use reply_lines::Status;
use script_loop::run_script;
use std::alloc::Global;
use std::io;
use std::io::{BufRead, Write};

/// Runs a script over a store in memory, whose power may go. Writes the replies to its lines, in order, each as soon as
/// its line is read. Only one line of the script is in memory at a time.
///
/// The lines are those of [`play`](script_runner::play), and those of a laboratory: a single step, a device that is to
/// stop or fail, a loss of power. After a loss of power what is left is opened, and its number and trees are written.
/// If it can't be opened, the reason is written, and nothing has changed.
///
/// `Err` says that a write failed, or that the device did otherwise than it was asked, which none does. It ends the run;
/// the program then ends with the status of a refusal.
pub fn lab<R: BufRead, W: Write>(
    alloc: Global,
    reader: &mut R,
    writer: &mut W,
) -> io::Result<Status>
    ensures { IfOk result (λ status. IsExperiment (R.remaining reader.old)
        (W.contents writer.old) (W.contents writer.new) status) }
{
    run_script::<Laboratory, R, W>(alloc, reader, writer)
}
