//! Runs a script over a store of its own in memory.
ghost use Rattle.std.specs.Prelude.{◌≡◌, IfOk};
ghost use Rattle.script_runner.specs.Plays.{IsPlayed, is_refusal};

use crate::interpreter::Interpreter;
use crate::replies::is_device_reply;
use crate::store_setup::begin;
use disk_model::MemDisk;
use reply_lines::{ReplyLine, Status};
use script_loop::{Answerer, HistoryLimit, LineTurn, ScriptedStore, run_script};
use std::alloc::{AllocError, Global};
use std::convert::Infallible;
use std::io;
use std::io::{BufRead, Write};

impl Answerer<Global> for Interpreter<MemDisk> {
    type Stop = Infallible;

    ghost use Rattle.std.specs.Prelude.{◌≡◌, ⊤, None};
    ghost use Rattle.script_runner.specs.Interpreters.{script_of};
    ghost use Rattle.script_runner.specs.Plays.{PlaysLine};
    ghost use Rattle.script_runner.specs.Scripts.{line_asked};

    ghost answers = { λ old line text refused new. PlaysLine (script_of old) line text refused (script_of new) };

    ghost stops = { λ old line text refused why new. ⊥ };

    ghost is_none = { λ line. line_asked line ≡ None };

    ghost unanswered = { λ old new. ⊤ };

    fn answer<W: Write>(
        &mut self,
        alloc: &Global,
        line: &[u8],
        writer: &mut W,
    ) -> io::Result<LineTurn<Infallible>> {
        match self.reply_to(*alloc, line) {
            Ok(Some(reported)) => {
                if is_device_reply(&reported) {
                    // a disk in memory fails only if it finds no memory
                    return Ok(LineTurn::NoMemory);
                }
                reported.write(writer)?;
                let is_refusal = is_refusal(&reported);
                Ok(LineTurn::Replied { is_refusal })
            }
            Ok(None) => Ok(LineTurn::NotUnderstood),
            Err(AllocError) => Ok(LineTurn::NoMemory),
        }
    }
}

impl ScriptedStore for Interpreter<MemDisk> {
    ghost use Rattle.std.specs.Prelude.{◌≡◌};
    ghost use Rattle.script_runner.specs.Interpreters.{script_of};
    ghost use Rattle.script_runner.specs.Scripts.{fresh_script, limited};

    ghost is_made = { λ hives store. script_of store ≡ fresh_script hives };

    ghost is_limited = { λ limit old new. script_of new ≡ limited limit (script_of old) };

    fn begin(alloc: Global, line: &[u8]) -> Result<Option<Interpreter<MemDisk>>, AllocError> {
        match begin(alloc, line)? {
            Some(engine) => Ok(Some(Interpreter::new(alloc, engine))),
            None => Ok(None),
        }
    }

    fn limit_history(&mut self, limit: HistoryLimit) {
        Interpreter::limit_history(self, limit);
    }
}

/// Runs a script over a store in memory. Writes the replies to its lines, in order, each as soon as its line is read.
/// Only one line of the script is in memory at a time.
///
/// `Err` says that a write failed, which ends the run; the program then ends with the status of a refusal.
pub fn play<R: BufRead, W: Write>(
    alloc: Global,
    reader: &mut R,
    writer: &mut W,
) -> io::Result<Status>
    ensures { IfOk result (λ status. IsPlayed (R.remaining reader.old) (W.contents writer.old)
        (W.contents writer.new) status) }
{
    run_script::<Interpreter<MemDisk>, R, W>(alloc, reader, writer)
}

/// Whether a reply is a refusal.
pub fn is_refusal(reported: &ReplyLine) -> bool
    ensures { result ≡ is_refusal reported.now }
{
    match reported {
        ReplyLine::Refused { .. } => true,
        _ => false,
    }
}
