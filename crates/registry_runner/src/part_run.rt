//! One part of a run: a script's lines over a registry, beside a flusher.
ghost use Rattle.std.specs.Prelude.{◌≡◌, ◌<◌, ℕ, List, [], Ok, true, IfErr, IfOk};
ghost use Rattle.std.specs.Io.KnownBytes.{Appends};
ghost use Rattle.store_model.specs.Machine.{Machine};
ghost use Rattle.histories.specs.Histories.{HasLedWith};
ghost use Rattle.histories.specs.Points.{HistoryEntry};
ghost use Rattle.ktm_calls.specs.Denials.{IsTurnDenied};
ghost use Rattle.ktm_calls.specs.Moments.{IsOf, SeesMore, no_sight};
ghost use Rattle.registry_lines.specs.Interpreters.{script_of};
ghost use Rattle.registry_runner.specs.Interpreters.{part_of};
ghost use Rattle.registry_runner.specs.Parts.{kind_text};
ghost use Rattle.registry_runner.specs.Plays.{IsUnread, LinesCome, PartComes};
ghost use Rattle.registry_lines.specs.Scripts.{IsBegun, MayProbe};
ghost use Rattle.registry_runner.specs.Running.{EndsPart, EndsPartAfter, MayBeUndone, MayHaveEnded};

use crate::gate::EndOfLines;
use crate::lines::{LinesEnd, PartLines};
use crate::parts::{NextPart, PartEnd, PartKind, PartStart};
use crate::run_end::{finish, undone, write_refusal, written_out};
use flusher::try_run_beside;
use histories::{EventCount, Permission, RequestCount, Start};
use ktm_calls::{Asker, Denied, Ended, Registry, Stopped};
use published_trees::{ChangeCount, SeenChanges};
use refusals::Refusal;
use registry_lines::{Caller, Script};
use reply_lines::{ReplyLine, Status};
use script_loop::{EndOfScript, end};
use std::alloc::Global;
use std::io;
use std::io::{BufRead, Write};
use std::sync::Wait;
use std::sync::ledger::Blank;
use std::thread::Threads;
use store_engine::StoreEngine;

/// Runs a part of a script over a registry of this engine, whose list of changes begins after the part's number. The
/// engine is handed back.
pub fn run_part<
    O: Start + Send + Sync,
    E: StoreEngine + Send,
    R: Threads + Wait + Sync,
    B: BufRead,
    W: Write,
>(
    rt: &R,
    alloc: Global,
    engine: E,
    blank: Blank,
    events: EventCount,
    count: ChangeCount,
    seen: SeenChanges,
    start: PartStart,
    reader: &mut B,
    writer: &mut W,
) -> (E, PartEnd)
    requires book { (count ≡ O.book) × (seen ≡ record { book = O.book; list = [] }) }
    requires events { events ≡ record { book = O.history; log = [] } }
    requires store { E.store engine ≡ O.store }
    requires start { E.state engine ≡ O.start }
    requires faithful { E.faithful engine → O.faithful }
    requires safe { (moment : ℕ) (machine : Machine) → O.safe moment machine → E.safe engine moment machine }
    requires engine { IsOf O.trees O.number O.hives (E.state engine).machine
        × ((E.state engine).machine.accepted ≡ []) × ((E.state engine).machine.sessions ≡ []) }
    requires number { start.number ≡ O.number }
    requires blank { (blank.name ≡ O.name) × (blank.parts ≡ O.parts) × (0 < blank.parts) }
    requires sole { O.sole ≡ true }
    ensures store { E.store result.0 ≡ O.store }
    ensures owner { IsOf O.trees O.number O.hives (E.state result.0).machine }
    ensures sessions { (E.state result.0).machine.sessions ≡ [] }
    ensures ends { HasLedWith O.start O.safe O.faithful (E.safe result.0) (E.faithful result.0) (E.state result.0)
        (λ history. EndsPartAfter history start O.sole O.start O.trees O.number O.hives (B.remaining reader.old)
        (W.contents writer.old) result.1 (B.remaining reader.new) (W.contents writer.new)) }
{
    engine.keeps_a_prefix(); // for the prover
    let (requests, share) = blank.open::<O>();
    let asker = Asker::first(&events, &seen, Permission::sole(share));
    let requests = RequestCount::new(requests);
    let registry = match Registry::<E, O>::new(alloc, rt, engine, events, requests, count, seen) {
        Ok(registry) => registry,
        Err((why, engine)) => {
            let ran = write_refusal(writer, why);
            return (engine, PartEnd::RunEnded { ran });
        }
    };
    let caller = Caller {
        rt,
        alloc,
        registry: &registry,
    };
    let (end, asker) = run_by(&caller, asker, start, reader, writer);
    let Ended {
        engine,
        events: _,
        durable: _,
    } = registry.end(rt, asker, Vec::new(alloc));
    (engine, end)
}

// begins a script in which this one asks, and runs it; who asked is handed out
fn run_by<
    O: Start + Send + Sync,
    E: StoreEngine + Send,
    R: Threads + Wait + Sync,
    B: BufRead,
    W: Write,
>(
    caller: &Caller<'_, E, O, R>,
    asker: Asker<O>,
    start: PartStart,
    reader: &mut B,
    writer: &mut W,
) -> (PartEnd, Asker<O>)
    requires first { asker ≡ no_sight }
    requires number { start.number ≡ O.number }
    ensures { (whole past : List HistoryEntry) → EndsPart whole past start O.sole O.start O.trees O.number O.hives result.1
        (B.remaining reader.old) (W.contents writer.old) result.0 (B.remaining reader.new) (W.contents writer.new) }
{
    match Script::begin(caller, asker, start.moment) {
        Ok(script) => run_begun(caller, script, start, reader, writer),
        Err((why, asker)) => {
            let ran = write_refusal(writer, why);
            (PartEnd::RunEnded { ran }, asker)
        }
    }
}

// runs a script that was begun
fn run_begun<
    O: Start + Send + Sync,
    E: StoreEngine + Send,
    R: Threads + Wait + Sync,
    B: BufRead,
    W: Write,
>(
    caller: &Caller<'_, E, O, R>,
    script: Script<O>,
    start: PartStart,
    reader: &mut B,
    writer: &mut W,
) -> (PartEnd, Asker<O>)
    requires begun { IsBegun O.sole O.start O.trees O.number O.hives no_sight start.moment (script_of script) }
    requires number { start.number ≡ O.number }
    ensures { (whole past : List HistoryEntry) → EndsPart whole past start O.sole O.start O.trees O.number O.hives result.1
        (B.remaining reader.old) (W.contents writer.old) result.0 (B.remaining reader.new) (W.contents writer.new) }
{
    let mut lines = PartLines::new(script, start);
    let gate = EndOfLines::new(caller.rt);
    let end = run_told(caller, &gate, &mut lines, start, reader, writer);
    (end, lines.into_script().into_asker())
}

// prints what the part prints first, and runs the script beside a flusher
fn run_told<
    O: Start + Send + Sync,
    E: StoreEngine + Send,
    R: Threads + Wait + Sync,
    B: BufRead,
    W: Write,
>(
    caller: &Caller<'_, E, O, R>,
    gate: &EndOfLines<'_, R>,
    lines: &mut PartLines<O>,
    start: PartStart,
    reader: &mut B,
    writer: &mut W,
) -> PartEnd
    requires begun { IsBegun O.sole O.start O.trees O.number O.hives no_sight start.moment (script_of lines.old.script) }
    requires first { lines.old.history.first ≡ O.number }
    requires limit { lines.old.history.limit ≡ start.limit }
    requires number { start.number ≡ O.number }
    ensures { (whole past : List HistoryEntry) → EndsPart whole past start O.sole O.start O.trees O.number O.hives
        (script_of lines.new.script).session.seen (B.remaining reader.old) (W.contents writer.old) result
        (B.remaining reader.new) (W.contents writer.new) }
{
    if let Err(error) = write_start(writer, start.kind, start.number) {
        return PartEnd::RunEnded { ran: Err(error) };
    }
    let (ended, flushed) = read_beside_flusher(caller, gate, lines, start, reader, writer);
    match ended {
        LinesEnded::ToFold { next } => PartEnd::ToFold { next },
        LinesEnded::AtEnd {
            played,
            has_failed,
            flush,
        } => {
            let ended = undone(has_failed, flushed);
            let left = left_undone(caller, &mut lines.script, ended);
            PartEnd::RunEnded {
                ran: finish(played, flush, left, writer),
            }
        }
    }
}

// what the end of a run reports, if this ended the steps that no line asked for
fn left_undone<O: Start, E: StoreEngine, R: Wait>(
    caller: &Caller<'_, E, O, R>,
    script: &mut Script<O>,
    ended: Option<Refusal>,
) -> Option<Refusal>
    requires { MayHaveEnded ended }
    ensures later { SeesMore (script_of script.old).session.seen (script_of script.new).session.seen }
    ensures probes { MayProbe O.sole (script_of script.old).session.seen (script_of script.new).session.seen }
    ensures may { MayBeUndone O.sole O.start O.trees O.number O.hives (script_of script.old).session.seen
        (script_of script.new).session.seen result }
{
    match ended {
        Some(Refusal::DiskFault) => Some(caller.step_refusal(
            &mut script.session,
            Refusal::DiskFault,
        )),
        other => other,
    }
}

// prints what a part prints first; what a line waited for is written out
fn write_start<W: Write>(writer: &mut W, kind: PartKind, number: u64) -> io::Result<()>
    ensures { IfOk result (λ _. Appends (W.contents writer.old) (W.contents writer.new)
        (kind_text kind number)) }
{
    match kind {
        PartKind::Opened => {
            writeln!(writer, "opened {number}")?;
        }
        PartKind::Folded => {
            ReplyLine::Folded { number }.write(writer)?;
            writer.flush()?;
        }
        PartKind::Continued => {}
    }
    Ok(())
}

// reads the lines to their end or to a fold while a flusher waits at the gate, and lets it work then
fn read_beside_flusher<
    O: Start + Send + Sync,
    E: StoreEngine + Send,
    R: Threads + Wait + Sync,
    B: BufRead,
    W: Write,
>(
    caller: &Caller<'_, E, O, R>,
    gate: &EndOfLines<'_, R>,
    lines: &mut PartLines<O>,
    start: PartStart,
    reader: &mut B,
    writer: &mut W,
) -> (LinesEnded, Result<Stopped, Denied>)
    requires first { lines.old.history.first ≡ O.number }
    requires limit { lines.old.history.limit ≡ start.limit }
    ensures ended { (whole past : List HistoryEntry) → PartComes whole start.limit start.can_read
        (part_of past O.sole O.start O.trees O.number O.hives lines.old.script) start.line
        (B.remaining reader.old) (W.contents writer.old) result.0 (script_of lines.new.script)
        (B.remaining reader.new) (W.contents writer.new) }
    ensures flushed { IfErr result.1 IsTurnDenied }
{
    try_run_beside(
        caller.rt,
        caller.registry,
        gate,
        &mut || -> LinesEnded
            requires { (lines.now.history.first ≡ O.number) × (lines.now.history.limit ≡ start.limit) }
            ensures { (whole past : List HistoryEntry) → PartComes whole start.limit start.can_read
                (part_of past O.sole O.start O.trees O.number O.hives lines.entry.now.script) start.line (B.remaining reader.entry.now)
                (W.contents writer.entry.now) result (script_of lines.exit.now.script)
                (B.remaining reader.exit.now) (W.contents writer.exit.now) }
        { read_to_end(caller, gate, lines, start, reader, writer) },
    )
}

// what came of a part's lines
enum LinesEnded {
    // no line is read any more, and all was flushed
    AtEnd {
        played: io::Result<Status>,
        has_failed: bool,
        flush: ReplyLine,
    },
    // the history is to be folded
    ToFold {
        next: NextPart,
    },
}

// reads the lines; at their end it writes out what was written, and makes all that was accepted durable; and then it
// lets the flusher work
fn read_to_end<O: Start, E: StoreEngine, R: Wait, B: BufRead, W: Write>(
    caller: &Caller<'_, E, O, R>,
    gate: &EndOfLines<'_, R>,
    lines: &mut PartLines<O>,
    start: PartStart,
    reader: &mut B,
    writer: &mut W,
) -> LinesEnded
    requires first { lines.old.history.first ≡ O.number }
    requires limit { lines.old.history.limit ≡ start.limit }
    ensures { (whole past : List HistoryEntry) → PartComes whole start.limit start.can_read
        (part_of past O.sole O.start O.trees O.number O.hives lines.old.script) start.line
        (B.remaining reader.old) (W.contents writer.old) result (script_of lines.new.script)
        (B.remaining reader.new) (W.contents writer.new) }
{
    let played = read_if(caller, lines, start, reader, writer);
    let status = match played {
        Ok(LinesEnd::ToFold { next }) => {
            gate.open();
            return LinesEnded::ToFold { next };
        }
        Ok(LinesEnd::Ended { status }) => Ok(status),
        Err(error) => Err(error),
    };
    let played = written_out(writer, status);
    let flush = lines.script.flush(caller);
    gate.open();
    LinesEnded::AtEnd {
        played,
        has_failed: lines.has_failed,
        flush,
    }
}

// reads the lines, or reports that they can't be read
fn read_if<O: Start, E: StoreEngine, R: Wait, B: BufRead, W: Write>(
    caller: &Caller<'_, E, O, R>,
    lines: &mut PartLines<O>,
    start: PartStart,
    reader: &mut B,
    writer: &mut W,
) -> io::Result<LinesEnd>
    requires first { lines.old.history.first ≡ O.number }
    requires limit { lines.old.history.limit ≡ start.limit }
    ensures { (whole past : List HistoryEntry) → IfOk result (λ end. LinesCome whole start.limit start.can_read
        (part_of past O.sole O.start O.trees O.number O.hives lines.old.script) start.line (B.remaining reader.old)
        (W.contents writer.old) end (script_of lines.new.script) (B.remaining reader.new)
        (W.contents writer.new)) }
{
    if start.can_read {
        return lines.read(caller, start, reader, writer);
    }
    unread(writer)
}

// reports that the lines can't be read
fn unread<W: Write>(writer: &mut W) -> io::Result<LinesEnd>
    ensures { IfOk result (IsUnread (W.contents writer.old) (W.contents writer.new)) }
{
    let status = end(writer, EndOfScript::Broken)?;
    Ok(LinesEnd::Ended { status })
}
