//! The lines of a part, one after another.
ghost use Rattle.std.specs.Prelude.{◌≡◌, IfOk, List, OnOk};
ghost use Rattle.std.specs.Io.KnownBytes.{Appends, Keeps};
ghost use Rattle.reply_lines.specs.Replies.{reply_line};
ghost use Rattle.script_runner.specs.Plays.{is_refusal};
ghost use Rattle.histories.specs.Points.{HistoryEntry};
ghost use Rattle.registry_lines.specs.Interpreters.{script_of};
ghost use Rattle.registry_runner.specs.Interpreters.{part_of};
ghost use Rattle.registry_runner.specs.PartLines.{Between};

use crate::history_use::HistoryUse;
use crate::parts::{NextPart, PartKind, PartStart};
use histories::Start;
use refusals::Refusal;
use registry_lines::{Caller, LineAnswer, Script, number_told};
use reply_lines::{ReplyLine, Status};
use script_loop::{Answerer, LineTurn, LoopEnd, run_lines};
use script_runner::is_refusal;
use std::alloc::AllocError;
use std::io;
use std::io::{BufRead, Write};
use std::sync::Wait;
use store_driver::BUSY_ROOM;
use store_engine::StoreEngine;

/// How a part's lines end.
pub enum LinesEnd {
    /// No line is read any more.
    Ended {
        /// How the run went so far.
        status: Status,
    },
    /// The history is to be folded.
    ToFold {
        /// With what the next part goes on.
        next: NextPart,
    },
}

// what came of the work between two lines
enum BetweenLines {
    // the script goes on; whether the device failed
    GoOn { has_failed: bool },
    // the history is to be folded
    ToFold,
}

/// The lines of a part: its script, and what is kept beside it.
pub struct PartLines<O: Start> {
    /// The script.
    pub script: Script<O>,
    /// How much of its history the part has used.
    pub history: HistoryUse,
    /// Whether the device failed in a step between two lines, which no line asked for.
    pub has_failed: bool,
}

impl<O: Start> Drop for PartLines<O> {
    // one drop for all that own them, whose proofs see no more of it than that
    fn drop(self) {
        let PartLines {
            script: _,
            history: _,
            has_failed: _,
        } = self;
    }
}

impl<O: Start> PartLines<O> {
    ghost use Rattle.std.specs.Prelude.{◌≡◌, true, IfOk, List};
    ghost use Rattle.histories.specs.Points.{HistoryEntry};
    ghost use Rattle.registry_lines.specs.Interpreters.{script_of};
    ghost use Rattle.registry_runner.specs.Interpreters.{part_of};
    ghost use Rattle.registry_runner.specs.Plays.{LinesCome};

    /// The lines of a part that begins so, before its first one.
    pub fn new(script: Script<O>, start: PartStart) -> PartLines<O>
        ensures script { result.script ≡ script }
        ensures first { result.history.first ≡ start.number }
        ensures limit { result.history.limit ≡ start.limit }
    {
        PartLines {
            script,
            history: HistoryUse::new(start),
            has_failed: false,
        }
    }

    /// Its script.
    pub fn into_script(self) -> Script<O>
        ensures { result ≡ self.script }
    {
        let PartLines {
            script,
            history: _,
            has_failed: _,
        } = self;
        script
    }

    /// Reads the lines, and writes the reply to each as soon as it is read.
    pub fn read<E: StoreEngine, R: Wait, B: BufRead, W: Write>(
        &mut self,
        caller: &Caller<'_, E, O, R>,
        start: PartStart,
        reader: &mut B,
        writer: &mut W,
    ) -> io::Result<LinesEnd>
        requires first { self.old.history.first ≡ O.number }
        requires limit { self.old.history.limit ≡ start.limit }
        ensures { (whole past : List HistoryEntry) → IfOk result (λ end. LinesCome whole start.limit true
            (part_of past O.sole O.start O.trees O.number O.hives self.old.script) start.line (B.remaining reader.old)
            (W.contents writer.old) end (script_of self.new.script) (B.remaining reader.new)
            (W.contents writer.new)) }
    {
        let mut line = Vec::new(caller.alloc);
        match run_lines(self, caller, start.line, reader, &mut line, writer)? {
            LoopEnd::Over { status } => Ok(LinesEnd::Ended { status }),
            LoopEnd::Stopped {
                why,
                next,
                has_refusal,
            } => {
                let next = next_part(&self.script, why, next, has_refusal);
                Ok(LinesEnd::ToFold { next })
            }
        }
    }
}

impl<'a, E: StoreEngine, O: Start, R: Wait> Answerer<Caller<'a, E, O, R>> for PartLines<O> {
    type Stop = PartKind;

    ghost use Rattle.std.specs.Prelude.{◌≡◌, None, List};
    ghost use Rattle.histories.specs.Points.{HistoryEntry};
    ghost use Rattle.script_runner.specs.Scripts.{line_asked};
    ghost use Rattle.registry_lines.specs.Interpreters.{script_of};
    ghost use Rattle.registry_runner.specs.Interpreters.{part_of};
    ghost use Rattle.registry_runner.specs.PartLines.{AnswersInPart, StopsInPart, OverHistory};

    ghost answers = { λ old line text refused new. OverHistory O.number old.history new.history ((past : List HistoryEntry) → AnswersInPart old.history.limit (part_of past O.sole O.start O.trees O.number O.hives old.script) line text refused (script_of new.script)) };

    ghost stops = { λ old line text refused why new. OverHistory O.number old.history new.history ((past : List HistoryEntry) → StopsInPart old.history.limit (part_of past O.sole O.start O.trees O.number O.hives old.script) line text refused why (script_of new.script)) };

    ghost is_none = { λ line. line_asked line ≡ None };

    ghost unanswered = { λ old new. script_of new.script ≡ script_of old.script };

    // Before the store waits for the disk, and after it, the replies so far are written out
    fn answer<W: Write>(
        &mut self,
        caller: &Caller<'a, E, O, R>,
        line: &[u8],
        writer: &mut W,
    ) -> io::Result<LineTurn<PartKind>> {
        let waits = waits(line);
        write_out(writer, waits)?;
        match self.script.reply_to(caller, line) {
            Ok(Some(LineAnswer::Reply { reply })) => {
                let is_refusal = write_reply(writer, &reply, waits)?;
                let told = number_told(&reply);
                match work_between_lines(
                    caller,
                    &mut self.script,
                    &mut self.history,
                    told,
                    writer,
                )? {
                    BetweenLines::GoOn { has_failed } => {
                        self.has_failed |= has_failed;
                        Ok(LineTurn::Replied { is_refusal })
                    }
                    BetweenLines::ToFold => Ok(LineTurn::Stopped {
                        is_refusal,
                        why: PartKind::Continued,
                    }),
                }
            }
            Ok(Some(LineAnswer::ToFold)) => Ok(LineTurn::Stopped {
                is_refusal: false,
                why: PartKind::Folded,
            }),
            Ok(None) => Ok(LineTurn::NotUnderstood),
            Err(AllocError) => Ok(LineTurn::NoMemory),
        }
    }
}

// with what the next part goes on, if the history is folded before the line of this number
fn next_part<O: Start>(script: &Script<O>, kind: PartKind, line: u64, has_refusal: bool) -> NextPart
    ensures { result ≡ record {
      kind = kind;
      line = line;
      moment = (script_of script.now).moment;
      has_refusal = has_refusal;
    } }
{
    NextPart {
        kind,
        line,
        moment: script.moment,
        has_refusal,
    }
}

// What the store does between two lines. It frees the journal's room, if half of it is used. And it folds its history
// if that is nearly full and the script has nothing that a fold ends: then a later line isn't refused since it is full.
fn work_between_lines<E: StoreEngine, O: Start, R: Wait, W: Write>(
    caller: &Caller<'_, E, O, R>,
    script: &mut Script<O>,
    history: &mut HistoryUse,
    told: u64,
    writer: &mut W,
) -> io::Result<BetweenLines>
    ensures between { (past : List HistoryEntry) → IfOk result (λ next. history.old.first ≡ O.number → Between history.old.limit
        (part_of past O.sole O.start O.trees O.number O.hives script.old) told next (script_of script.new)) }
    ensures kept { OnOk result (Keeps (W.contents writer.old) (W.contents writer.new)) }
    ensures same { (history.new.first ≡ history.old.first) × (history.new.limit ≡ history.old.limit) }
{
    let has_failed = free_room(caller, writer)?;
    if !history.is_due(told) || !script.has_nothing_to_end() {
        return Ok(BetweenLines::GoOn { has_failed });
    }
    writer.flush()?;
    match script.fold(caller) {
        LineAnswer::ToFold => Ok(BetweenLines::ToFold),
        LineAnswer::Reply { reply } => {
            history.put_off(told);
            let has_failed = has_failed || is_fault(&reply);
            Ok(BetweenLines::GoOn { has_failed })
        }
    }
}

// a reply that the device failed
fn is_fault(reply: &ReplyLine) -> bool {
    matches!(
        reply,
        ReplyLine::Refused {
            refusal: Refusal::DiskFault
        }
    )
}

// Frees the journal's room if half of it is used: all durable changes go into the hives, and then it is trimmed. Less
// would never lead to a trim while lines are written, for a trim needs each hive to have all that is durable. Answers
// whether the device failed in it.
fn free_room<E: StoreEngine, O: Start, R: Wait, W: Write>(
    caller: &Caller<'_, E, O, R>,
    writer: &mut W,
) -> io::Result<bool>
    ensures { OnOk result (Keeps (W.contents writer.old) (W.contents writer.new)) }
{
    if caller.registry.room(caller.rt).bytes < BUSY_ROOM {
        return Ok(false);
    }
    writer.flush()?;
    Ok(has_failed_freeing(caller))
}

// the device failed in the steps that free the journal's room. Other refusals of them are left to the end of the run
fn has_failed_freeing<E: StoreEngine, O: Start, R: Wait>(caller: &Caller<'_, E, O, R>) -> bool {
    match caller.registry.checkpoint(caller.rt) {
        Ok(_receipt) => false,
        Err(denied) => matches!(denied.refusal(), Some(Refusal::DiskFault)),
    }
}

// whether a line waits for the disk
fn waits(line: &[u8]) -> bool {
    line == b"flush".as_slice() || line == b"fold".as_slice() || line.starts_with(b"commit ")
}

// writes out what was written, if the store is about to wait for the disk
fn write_out<W: Write>(writer: &mut W, waits: bool) -> io::Result<()>
    ensures { OnOk result (Keeps (W.contents writer.old) (W.contents writer.new)) }
{
    if waits {
        writer.flush()?;
    }
    Ok(())
}

// writes a reply, and writes it out if the line waited for the disk; answers whether it is a refusal
fn write_reply<W: Write>(writer: &mut W, reply: &ReplyLine, waited: bool) -> io::Result<bool>
    ensures { IfOk result (λ refused. (refused ≡ is_refusal reply.now)
        × Appends (W.contents writer.old) (W.contents writer.new) (reply_line reply.now)) }
{
    reply.write(writer)?;
    if waited {
        writer.flush()?;
    }
    Ok(is_refusal(reply))
}
