//! The line of a refusal, and that of an end.
ghost use Rattle.std.specs.Prelude.{◌≡◌, IfOk, None, OnOk};
ghost use Rattle.std.specs.Io.KnownBytes.{Appends};
ghost use Rattle.reply_lines.specs.PrintedRefusals.{PrintsRefusal};
ghost use Rattle.store_values.specs.Outcomes.{PrintsOutcome, outcome_line, report_told, told_of};

use crate::change_result::ChangeResult;
use refusals::Refusal;
use reply_lines::{ReplyLine, Status};
use std::io::{self, Write};

/// Prints the line of a refusal.
pub(crate) fn print_refusal<W: Write>(writer: &mut W, refusal: Refusal) -> io::Result<Status>
    ensures { IfOk result (PrintsRefusal (W.contents writer.old) (W.contents writer.new) refusal) }
{
    ReplyLine::Refused { refusal }.write(writer)?;
    writer.flush()?;
    Ok(Status::Refused)
}

/// Prints the line of an end: the number of a change, or a refusal.
pub(crate) fn print_outcome<W: Write>(
    outcome: Result<u64, Refusal>,
    writer: &mut W,
) -> io::Result<ChangeResult>
    ensures { IfOk result (PrintsOutcome (W.contents writer.old) (W.contents writer.new) outcome None) }
{
    write_outcome(outcome, writer)?;
    writer.flush()?;
    Ok(told_of(outcome))
}

/// Writes that line.
pub(crate) fn write_outcome<W: Write>(
    outcome: Result<u64, Refusal>,
    writer: &mut W,
) -> io::Result<()>
    ensures { OnOk result (Appends (W.contents writer.old) (W.contents writer.new)
        (outcome_line outcome)) }
{
    match outcome {
        Ok(number) => ReplyLine::Committed { number }.write(writer),
        Err(refusal) => ReplyLine::Refused { refusal }.write(writer),
    }
}

// how an end is told
fn told_of(outcome: Result<u64, Refusal>) -> ChangeResult
    ensures { result ≡ told_of outcome }
{
    match outcome {
        Ok(_) => ChangeResult {
            status: Status::Clean,
            refusal: None,
        },
        Err(refusal) => ChangeResult {
            status: Status::Refused,
            refusal: Some(refusal),
        },
    }
}

/// How an end is told, with what is refused of the steps after it, if anything is.
pub(crate) fn report_told(
    outcome: Result<u64, Refusal>,
    refused_step: Option<Refusal>,
) -> ChangeResult
    ensures { result ≡ report_told outcome refused_step }
{
    let told = told_of(outcome);
    let status = match refused_step {
        Some(_) => Status::Refused,
        None => told.status,
    };
    ChangeResult {
        status,
        refusal: told.refusal,
    }
}
