//! What is written at the end of a run.
ghost use Rattle.std.specs.Prelude.{◌≡◌, ◌++◌, ◌∷◌, [], Option, Ok, IfErr, IfOk, IsOk, is_some};
ghost use Rattle.std.specs.Io.KnownBytes.{Appends, Keeps};
ghost use Rattle.refusals.specs.Refusals.{refusal_text};
ghost use Rattle.refusals.specs.declared.refusal.Refusal.{Refusal as AnyRefusal};
ghost use Rattle.reply_lines.specs.Statuses.{with_refusal};
ghost use Rattle.script_runner.specs.Plays.{is_refusal};
ghost use Rattle.ktm_calls.specs.Denials.{IsTurnDenied};
ghost use Rattle.registry_runner.specs.Running.{MayHaveEnded, flushed_text, undone, undone_text};

use ktm_calls::{Denied, Stopped};
use refusals::Refusal;
use reply_lines::{ReplyLine, Status};
use script_runner::is_refusal;
use std::io;
use std::io::Write;

/// Reports the flush of the end, if it was refused, and what is left undone.
pub fn finish<W: Write>(
    played: io::Result<Status>,
    flush: ReplyLine,
    left: Option<Refusal>,
    writer: &mut W,
) -> io::Result<Status>
    ensures reported { IfOk result (λ status. IfOk played (λ came_to.
        (status ≡ with_refusal (is_some left) (with_refusal (is_refusal flush) came_to))
        × Appends (W.contents writer.old) (W.contents writer.new)
        (flushed_text flush ++ undone_text left))) }
    ensures played { IsOk result → IsOk played }
{
    let played = write_flush_reply(writer, flush, played);
    write_undone(writer, left, played)
}

/// Writes out what was written, before the store waits for the disk.
pub fn written_out<W: Write>(writer: &mut W, played: io::Result<Status>) -> io::Result<Status>
    ensures same { IfOk result (λ status. (played ≡ Ok status)
        × Keeps (W.contents writer.old) (W.contents writer.new)) }
    ensures played { IsOk result → IsOk played }
{
    let came_to = played?;
    writer.flush()?;
    Ok(came_to)
}

/// What ended the steps that no line asked for: that the device failed in one of them; or what ended the flusher, except
/// `Faulted`, whose cause was reported then.
pub fn undone(has_failed: bool, flushed: Result<Stopped, Denied>) -> Option<Refusal>
    requires { IfErr flushed IsTurnDenied }
    ensures is { result ≡ undone has_failed flushed }
    ensures may { MayHaveEnded result }
{
    if has_failed {
        return Some(Refusal::DiskFault);
    }
    match flushed {
        Ok(_stopped) => None,
        Err(denied) => match denied.refusal() {
            Some(Refusal::Faulted) => None,
            ended => ended,
        },
    }
}

// writes the reply of the last flush if it is a refusal
fn write_flush_reply<W: Write>(
    writer: &mut W,
    reply: ReplyLine,
    played: io::Result<Status>,
) -> io::Result<Status>
    ensures reported { IfOk result (λ status. IfOk played (λ came_to.
        (status ≡ with_refusal (is_refusal reply) came_to)
        × Appends (W.contents writer.old) (W.contents writer.new) (flushed_text reply))) }
    ensures played { IsOk result → IsOk played }
{
    let came_to = played?;
    let is_refusal = is_refusal(&reply);
    if is_refusal {
        reply.write(writer)?;
    }
    Ok(came_to.after(is_refusal))
}

// writes what is left undone as the last line, and answers the run's status
fn write_undone<W: Write>(
    writer: &mut W,
    undone: Option<Refusal>,
    played: io::Result<Status>,
) -> io::Result<Status>
    ensures reported { IfOk result (λ status. IfOk played (λ came_to.
        (status ≡ with_refusal (is_some undone) came_to)
        × Appends (W.contents writer.old) (W.contents writer.new) (undone_text undone))) }
    ensures played { IsOk result → IsOk played }
{
    let came_to = played?;
    let status = match undone {
        Some(why) => {
            writeln!(writer, "{why}")?;
            came_to.after(true)
        }
        None => came_to,
    };
    writer.flush()?;
    Ok(status)
}

/// Writes the line of a refusal, which is the last one.
pub fn write_refusal<W: Write>(writer: &mut W, why: Refusal) -> io::Result<Status>
    ensures { IfOk result (λ status. (status ≡ Status.Refused)
        × Appends (W.contents writer.old) (W.contents writer.new) (refusal_text why ++ 10 ∷ [])) }
{
    writeln!(writer, "{why}")?;
    writer.flush()?;
    Ok(Status::Refused)
}
