//! A script that makes its store by its first line.
ghost use Rattle.std.specs.Prelude.{◌≡◌, ℕ, Some, None, IfOk, IfSome, IfNone};
ghost use Rattle.script_loop.specs.FirstLines.{hives_asked};
ghost use Rattle.script_loop.specs.NewStores.{IsRunOverNew, IsScriptRun};

use crate::answerer::Answerer;
use crate::end_of_script::{EndOfScript, end, wrong};
use crate::history_limit::{HistoryLimit, read_history_limit};
use crate::line_loop::{LineOutcome, LoopEnd, answer_line, run_lines};
use crate::lines::next_line;
use reply_lines::{ReplyLine, Status};
use std::alloc::{AllocError, Global};
use std::convert::Infallible;
use std::io;
use std::io::{BufRead, Write};

/// An [`Answerer`] over a store of its own, which the first line of a script makes.
pub trait ScriptedStore: Answerer<Global, Stop = Infallible> {
    /// It has just made its store, of so many hives.
    ghost is_made: { ℕ → Self → Type 0 };

    /// Its history may have so many changes from now on.
    ghost is_limited: { ℕ → Self → Self → Type 0 };

    /// The store of the script whose first line this is; or `None` if it is no such line. Refused only for lack of
    /// memory.
    fn begin(alloc: Global, line: &[u8]) -> Result<Option<Self>, AllocError>
        ensures none { IfOk result (λ made. IfNone made (hives_asked line.now ≡ None)) }
        ensures some { IfOk result (λ made. IfSome made (λ store. (hives : ℕ)
            × (hives_asked line.now ≡ Some hives) × is_made hives store)) };

    /// Sets how many changes a new store accepts until its history is folded.
    fn limit_history(&mut self, limit: HistoryLimit)
        requires { (hives : ℕ) × is_made hives self.old }
        ensures { is_limited limit self.old self.new };
}

/// Runs a script over a store of its own. Writes the replies to its lines, in order, each as soon as its line is read.
/// Only one line of the script is in memory at a time.
///
/// `Err` says that a write failed, which ends the run; the program then ends with the status of a refusal.
pub fn run_script<S: ScriptedStore + Drop, R: BufRead, W: Write>(
    alloc: Global,
    reader: &mut R,
    writer: &mut W,
) -> io::Result<Status>
    ensures { IfOk result (λ status. IsScriptRun S.is_made S.is_limited S.answers S.is_none
        (R.remaining reader.old) (W.contents writer.old) (W.contents writer.new) status) }
{
    let status = run::<S, R, W>(alloc, reader, writer)?;
    writer.flush()?;
    Ok(status)
}

fn run<S: ScriptedStore + Drop, R: BufRead, W: Write>(
    alloc: Global,
    reader: &mut R,
    writer: &mut W,
) -> io::Result<Status>
    ensures { IfOk result (λ status. IsScriptRun S.is_made S.is_limited S.answers S.is_none
        (R.remaining reader.old) (W.contents writer.old) (W.contents writer.new) status) }
{
    let mut line = Vec::new(alloc);
    match next_line(reader, &mut line) {
        Ok(()) => {}
        Err(EndOfScript::Ended) => return wrong(writer, 1),
        Err(end_of_script) => return end(writer, end_of_script),
    }
    match S::begin(alloc, &line) {
        Ok(Some(store)) => {
            let mut store = store;
            ReplyLine::Done.write(writer)?;
            run_over_new(alloc, &mut store, reader, &mut line, writer)
        }
        Ok(None) => wrong(writer, 1),
        Err(AllocError) => end(writer, EndOfScript::OutOfMemory),
    }
}

// runs the script of a new store from its second line on, which may be `history`
fn run_over_new<S: ScriptedStore, R: BufRead, W: Write>(
    alloc: Global,
    store: &mut S,
    reader: &mut R,
    line: &mut Vec<u8>,
    writer: &mut W,
) -> io::Result<Status>
    requires { (hives : ℕ) × S.is_made hives store.old }
    ensures { IfOk result (λ status. IsRunOverNew S.is_limited S.answers S.is_none store.old
        (R.remaining reader.old) (W.contents writer.old) (W.contents writer.new) status) }
{
    if let Err(end_of_script) = next_line(reader, line) {
        return end(writer, end_of_script);
    }
    match read_history_limit(alloc, line) {
        Ok(Some(limit)) => {
            store.limit_history(limit);
            ReplyLine::Done.write(writer)?;
            Ok(status_of(run_lines(store, &alloc, 3, reader, line, writer)?))
        }
        Ok(None) => match answer_line(store, &alloc, line, writer, 2)? {
            LineOutcome::Replied { is_refusal } => {
                let ended = run_lines(store, &alloc, 3, reader, line, writer)?;
                Ok(status_of(ended).after(is_refusal))
            }
            LineOutcome::Over { ended } => Ok(status_of(ended)),
        },
        Err(AllocError) => end(writer, EndOfScript::OutOfMemory),
    }
}

// how the lines went of a store that never stops
fn status_of(ended: LoopEnd<Infallible>) -> Status
    ensures { ended ≡ LoopEnd.Over result }
{
    match ended {
        LoopEnd::Over { status } => status,
        LoopEnd::Stopped { why, .. } => match why {},
    }
}
