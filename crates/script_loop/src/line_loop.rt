//! The loop over the lines of a script.
ghost use Rattle.std.specs.Prelude.{◌≡◌, ◌<◌, IfOk};
ghost use Rattle.script_loop.specs.Runs.{AnswersReadLine, EndsLoop, TakesNext, end_after};

use crate::answerer::{Answerer, LineTurn};
use crate::end_of_script::{EndOfScript, end, wrong};
use crate::lines::next_line;
use reply_lines::Status;
use std::io;
use std::io::{BufRead, Write};

/// How the loop over the lines ends.
pub enum LoopEnd<S> {
    /// No line is read any more. If that is to be told, it was written.
    Over {
        /// How the lines went.
        status: Status,
    },
    /// The answerer stopped after the reply to a line.
    Stopped {
        /// What is to be done before the next line.
        why: S,
        /// The number of the next line.
        next: u64,
        /// Whether a reply was a refusal.
        has_refusal: bool,
    },
}

impl<S> LoopEnd<S> {
    // the same after other lines, of which a reply may have been a refusal
    fn after(self, has_refusal: bool) -> LoopEnd<S>
        ensures { result ≡ end_after has_refusal self }
    {
        match self {
            LoopEnd::Over { status } => LoopEnd::Over {
                status: status.after(has_refusal),
            },
            LoopEnd::Stopped {
                why,
                next,
                has_refusal: later,
            } => LoopEnd::Stopped {
                why,
                next,
                has_refusal: has_refusal || later,
            },
        }
    }
}

/// The outcome of one line.
pub(crate) enum LineOutcome<S> {
    /// It was answered.
    Replied {
        /// Whether the reply was a refusal.
        is_refusal: bool,
    },
    /// The loop ends with it.
    Over {
        /// How it went from this line on.
        ended: LoopEnd<S>,
    },
}

/// Reads the lines of a script, the first of which has this number, and lets each be answered. It ends with the script,
/// with a line that is none or for which there is no memory, and if the answerer stops. Only one line is in memory at a
/// time, in the buffer.
///
/// `Err` says that a write failed, and then the last line may have been carried out.
pub fn run_lines<C, A: Answerer<C>, R: BufRead, W: Write>(
    answerer: &mut A,
    context: &C,
    first: u64,
    reader: &mut R,
    line: &mut Vec<u8>,
    writer: &mut W,
) -> io::Result<LoopEnd<A::Stop>>
    ensures { IfOk result (λ ended. EndsLoop A.answers A.stops A.is_none A.unanswered answerer.old first
        (R.remaining reader.old) (W.contents writer.old) ended answerer.new
        (R.remaining reader.new) (W.contents writer.new)) }
{
    let mut has_refusal = false;
    for number in first..u64::MAX {
        match take_next(answerer, context, reader, line, writer, number)? {
            LineOutcome::Replied { is_refusal } => has_refusal |= is_refusal,
            LineOutcome::Over { ended } => return Ok(ended.after(has_refusal)),
        }
    }
    // a script of so many lines isn't read further
    let status = end(writer, EndOfScript::Broken)?.after(has_refusal);
    Ok(LoopEnd::Over { status })
}

// reads the line of this number and lets it be answered
fn take_next<C, A: Answerer<C>, R: BufRead, W: Write>(
    answerer: &mut A,
    context: &C,
    reader: &mut R,
    line: &mut Vec<u8>,
    writer: &mut W,
    number: u64,
) -> io::Result<LineOutcome<A::Stop>>
    requires { number < u64.MAX }
    ensures { IfOk result (λ outcome. TakesNext A.answers A.stops A.is_none A.unanswered answerer.old number
        (R.remaining reader.old) (W.contents writer.old) outcome answerer.new
        (R.remaining reader.new) (W.contents writer.new)) }
{
    if let Err(end_of_script) = next_line(reader, line) {
        let status = end(writer, end_of_script)?;
        return Ok(LineOutcome::Over {
            ended: LoopEnd::Over { status },
        });
    }
    answer_line(answerer, context, line, writer, number)
}

/// Lets the line of this number be answered, which was read.
pub(crate) fn answer_line<C, A: Answerer<C>, W: Write>(
    answerer: &mut A,
    context: &C,
    line: &[u8],
    writer: &mut W,
    number: u64,
) -> io::Result<LineOutcome<A::Stop>>
    requires { number < u64.MAX }
    ensures { IfOk result (λ outcome. AnswersReadLine A.answers A.stops A.is_none A.unanswered answerer.old number
        line.now (W.contents writer.old) outcome answerer.new (W.contents writer.new)) }
{
    match answerer.answer(context, line, writer)? {
        LineTurn::Replied { is_refusal } => Ok(LineOutcome::Replied { is_refusal }),
        LineTurn::Stopped { is_refusal, why } => Ok(LineOutcome::Over {
            ended: LoopEnd::Stopped {
                why,
                next: number + 1,
                has_refusal: is_refusal,
            },
        }),
        LineTurn::NotUnderstood => {
            let status = wrong(writer, number)?;
            Ok(LineOutcome::Over {
                ended: LoopEnd::Over { status },
            })
        }
        LineTurn::NoMemory => {
            let status = end(writer, EndOfScript::OutOfMemory)?;
            Ok(LineOutcome::Over {
                ended: LoopEnd::Over { status },
            })
        }
    }
}
