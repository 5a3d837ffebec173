//! How the run of a script ends, and what is written of it.
ghost use Rattle.std.specs.Prelude.{◌≡◌, ℕ, List, IfOk, codes};
ghost use Rattle.std.specs.Io.KnownBytes.{Appends};
ghost use Rattle.script_loop.specs.Ends.{EndsScript, wrong_text};

use refusals::Refusal;
use reply_lines::Status;
use std::io;
use std::io::Write;

/// Why there is no further line of a script.
#[derive(Clone, Copy)]
pub enum EndOfScript {
    /// The script was read to its end.
    Ended,
    /// The script can't be read on.
    Broken,
    /// Memory for the next line was refused.
    OutOfMemory,
}

/// Writes why there is no further line, and answers the status with which the run ends. Nothing is written for a script
/// that was read to its end.
pub fn end<W: Write>(writer: &mut W, end_of_script: EndOfScript) -> io::Result<Status>
    ensures { IfOk result (λ status. (text : List ℕ) × EndsScript end_of_script text status
        × Appends (W.contents writer.old) (W.contents writer.new) text) }
{
    match end_of_script {
        EndOfScript::Ended => Ok(Status::Clean),
        EndOfScript::Broken => {
            writer.write_all(b"cannot read script\n")?;
            Ok(Status::Refused)
        }
        EndOfScript::OutOfMemory => {
            writeln!(writer, "{}", Refusal::NoMemory)?;
            Ok(Status::Refused)
        }
    }
}

/// Writes that the line of this number is not understood, which ends a run. Lines are counted from 1.
pub fn wrong<W: Write>(writer: &mut W, number: u64) -> io::Result<Status>
    ensures { IfOk result (λ status. (status ≡ Status.Wrong)
        × Appends (W.contents writer.old) (W.contents writer.new) (wrong_text number)) }
{
    writeln!(writer, "line {number}: not understood")?;
    Ok(Status::Wrong)
}

/// Writes that a script can't be read at all. `Err` says that the write failed.
pub fn refuse_script<W: Write>(writer: &mut W) -> io::Result<Status>
    ensures { IfOk result (λ status. (status ≡ Status.Refused)
        × Appends (W.contents writer.old) (W.contents writer.new) (codes "cannot read script\n")) }
{
    writer.write_all(b"cannot read script\n")?;
    writer.flush()?;
    Ok(Status::Refused)
}
