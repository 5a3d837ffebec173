//! The parts of a run: each calls a registry of its own, and the history is folded between two of them.
ghost use Rattle.std.specs.Prelude.{◌≡◌, [], false, true, IfErr, IfNone, IfOk, IfSome, IsOk, OnErr};
ghost use Rattle.reply_lines.specs.Statuses.{with_refusal};
ghost use Rattle.store_model.specs.Steps.{Step};
ghost use Rattle.store_model.specs.declared.event.Event.TheVariants as event;
ghost use Rattle.store_model.specs.declared.event.Reply.TheVariants as reply;
ghost use Rattle.histories.specs.Asked.{is_asked};
ghost use Rattle.histories.specs.Histories.{HasLedWith};
ghost use Rattle.registry_runner.specs.Folding.{HistoryStays, IsFoldedAt, IsIdle};
ghost use Rattle.registry_runner.specs.Parts.{MayNotFold};
ghost use Rattle.registry_runner.specs.Running.{IsOfStore, IsUnasked, RunsFrom};

use crate::part_run::run_part;
use crate::run_end::write_refusal;
use histories::EventCount;
use published_trees::ChangeCount;
use refusals::Refusal;
use reply_lines::Status;
use std::alloc::Global;
use std::io;
use std::io::{BufRead, Write};
use std::marker::Brand;
use std::sync::Wait;
use std::sync::ledger::Blank;
use std::thread::Threads;
use store_engine::StoreEngine;
use store_model::laws::openings_stay;
use store_model::{Event, Reply};

/// What a part prints as it begins.
#[derive(Clone, Copy)]
pub enum PartKind {
    /// `opened N`, with the number of the store's last change: the store was opened.
    Opened,
    /// `folded N`, with the same: a line folded the history.
    Folded,
    /// Nothing: the history was folded before it was full.
    Continued,
}

/// How a part begins.
#[derive(Clone, Copy)]
pub struct PartStart {
    /// What it prints first.
    pub kind: PartKind,
    /// The number of the store's last change.
    pub number: u64,
    /// How many changes the history may have.
    pub limit: u64,
    /// Whether the script can be read.
    pub can_read: bool,
    /// The number of the next line, from 1 on.
    pub line: u64,
    /// The moment of what follows.
    pub moment: u64,
}

/// With what the next part goes on, once the history is folded.
#[derive(Clone, Copy)]
pub struct NextPart {
    /// What it prints first.
    pub kind: PartKind,
    /// The number of the next line.
    pub line: u64,
    /// The moment of what follows.
    pub moment: u64,
    /// Whether a reply of the part was a refusal.
    pub has_refusal: bool,
}

/// How a part ends.
pub enum PartEnd {
    /// The run has ended. `Err` says that a write failed.
    RunEnded {
        /// How it went.
        ran: io::Result<Status>,
    },
    /// All that was accepted is durable and in the hives, and the history is to be folded.
    ToFold {
        /// With what the next part goes on.
        next: NextPart,
    },
}

/// Runs a script over an engine on which no registry was made: one part after another, each over a registry of its own.
/// The engine is handed back.
pub fn run_parts<E: StoreEngine + Send, R: Threads + Wait + Sync, B: BufRead, W: Write>(
    rt: &R,
    alloc: Global,
    engine: E,
    start: PartStart,
    reader: &mut B,
    writer: &mut W,
) -> (E, io::Result<Status>)
    requires engine { IsIdle (E.state engine).machine }
    requires number { start.number ≡ (E.state engine).machine.before }
    ensures store { E.store result.0 ≡ E.store engine }
    ensures owner { IsOfStore (E.state engine).machine.opened (E.state engine).machine.before
        (E.state engine).machine.bounds.hives (E.state result.0).machine }
    ensures runs { HasLedWith (E.state engine) (E.safe engine) (E.faithful engine)
        (E.safe result.0) (E.faithful result.0) (E.state result.0)
        (λ history. IfOk result.1 (λ status. RunsFrom history [] start true
        (E.state engine) (E.state engine).machine.opened
        (E.state engine).machine.before (E.state engine).machine.bounds.hives (B.remaining reader.old)
        (W.contents writer.old) (W.contents writer.new) status)) }
{
    let mut engine = engine;
    let mut start = start;
    let mut has_refusal = false;
    engine.keeps_a_prefix(); // for the prover
    for _ in rt.forever() {
        let (count, seen) = ChangeCount::open();
        let (ended, end) = run_part::<Brand, E, R, B, W>(
            rt,
            alloc,
            engine,
            Blank::new(1),
            EventCount::open(),
            count,
            seen,
            start,
            reader,
            writer,
        );
        engine = ended;
        let next = match end {
            PartEnd::RunEnded { ran } => return (engine, with_refusal(ran, has_refusal)),
            PartEnd::ToFold { next } => next,
        };
        has_refusal |= next.has_refusal;
        match fold(rt, &mut engine) {
            Ok(number) => start = start.after_fold(number, next),
            Err(why) => {
                let ran = write_refusal(writer, why);
                return (engine, with_refusal(ran, has_refusal));
            }
        }
    }
    unreachable!()
}

// a run that went so after replies of which one may have been a refusal
fn with_refusal(ran: io::Result<Status>, has_refusal: bool) -> io::Result<Status>
    ensures status { IfOk result (λ status. IfOk ran (λ later.
        status ≡ with_refusal has_refusal later)) }
    ensures same { IsOk result → IsOk ran }
{
    let status = ran?;
    Ok(status.after(has_refusal))
}

impl PartStart {
    // how the part begins that goes on after a fold at this number
    fn after_fold(self, number: u64, next: NextPart) -> PartStart
        ensures { result ≡ record self {
          kind = next.kind;
          number = number;
          line = next.line;
          moment = next.moment;
        } }
    {
        PartStart {
            kind: next.kind,
            number,
            limit: self.limit,
            can_read: self.can_read,
            line: next.line,
            moment: next.moment,
        }
    }
}

// Folds the history of an engine whose registry has ended. All was made durable before that. If some change isn't
// durable all the same, it is made so first.
fn fold<E: StoreEngine, R: Wait>(rt: &R, engine: &mut E) -> Result<u64, Refusal>
    requires sessions { (E.state engine.old).machine.sessions ≡ [] }
    ensures store { E.store engine.new ≡ E.store engine.old }
    ensures history { HasLedWith (E.state engine.old) (E.safe engine.old) (E.faithful engine.old)
        (E.safe engine.new) (E.faithful engine.new) (E.state engine.new)
        IsUnasked }
    ensures folded { IfOk result (IsFoldedAt (E.state engine.old).machine (E.state engine.new).machine) }
    ensures refused { IfErr result MayNotFold }
    ensures stays { OnErr result (HistoryStays (E.state engine.old).machine (E.state engine.new).machine) }
{
    openings_stay();
    engine.keeps_a_prefix(); // for the prover
    for _ in rt.forever() {
        if let Some(number) = ask_fold(engine)? {
            return Ok(number);
        }
        make_durable(engine)?;
    }
    unreachable!()
}

// asks for a fold, and answers its number; `None` if some accepted change isn't durable
fn ask_fold<E: StoreEngine>(engine: &mut E) -> Result<Option<u64>, Refusal>
    ensures store { E.store engine.new ≡ E.store engine.old }
    ensures history { HasLedWith (E.state engine.old) (E.safe engine.old) (E.faithful engine.old)
        (E.safe engine.new) (E.faithful engine.new) (E.state engine.new)
        IsUnasked }
    ensures folded { IfOk result (λ made. IfSome made (λ number.
        Step (E.state engine.old).machine event.Fold (reply.Folded number) (E.state engine.new).machine)) }
    ensures waits { IfOk result (λ made. IfNone made
        (HistoryStays (E.state engine.old).machine (E.state engine.new).machine)) }
    ensures refused { IfErr result MayNotFold }
    ensures stays { OnErr result (HistoryStays (E.state engine.old).machine (E.state engine.new).machine) }
{
    match put(engine, Event::Fold) {
        Reply::Folded { number } => Ok(Some(number)),
        Reply::Refused { refusal } => Err(refusal),
        _ => Ok(None),
    }
}

// makes one step of the journal
fn make_durable<E: StoreEngine>(engine: &mut E) -> Result<(), Refusal>
    ensures store { E.store engine.new ≡ E.store engine.old }
    ensures history { HasLedWith (E.state engine.old) (E.safe engine.old) (E.faithful engine.old)
        (E.safe engine.new) (E.faithful engine.new) (E.state engine.new)
        IsUnasked }
    ensures refused { IfErr result MayNotFold }
    ensures stays { HistoryStays (E.state engine.old).machine (E.state engine.new).machine }
{
    match put(engine, Event::JournalStep) {
        Reply::Refused { refusal } => Err(refusal),
        _ => Ok(()),
    }
}

// puts an event to an engine, which is the whole history from there on
fn put<E: StoreEngine>(engine: &mut E, event: Event) -> Reply
    requires unasked { is_asked event ≡ false }
    ensures store { E.store engine.new ≡ E.store engine.old }
    ensures step { Step (E.state engine.old).machine event result (E.state engine.new).machine }
    ensures history { HasLedWith (E.state engine.old) (E.safe engine.old) (E.faithful engine.old)
        (E.safe engine.new) (E.faithful engine.new) (E.state engine.new)
        IsUnasked }
{
    engine.keeps_a_prefix(); // for the prover
    engine.event(event)
}
