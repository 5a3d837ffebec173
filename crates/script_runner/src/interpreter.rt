//! A script over a store, asked line by line.
ghost use Rattle.std.specs.Prelude.{◌≡◌, ◌≤◌, ℕ, Some, None, MatchOption, IfOk, IfSome, IfNone, IfErr, OnErr, length};
ghost use Rattle.store_model.specs.Machine.{with_history};
ghost use Rattle.store_model.specs.Steps.{Step};
ghost use Rattle.script_syntax.specs.declared.line.Line.{Line as AnyLine};
ghost use Rattle.reply_lines.specs.declared.reply.ReplyLine.{ReplyLine as AnyReplyLine};
ghost use Rattle.script_runner.specs.Scripts.{Asks, Answers, AsksAndWaits, event_alone, event_inside, later_line, limited, line_asked, script_at};
ghost use Rattle.store_driver.specs.Later.{IsLater};
ghost use Rattle.script_runner.specs.Interpreters.{engine_of, script_of, reply_by};

mod single_steps;

use crate::labels::Labels;
use crate::operation::{Operation, operation_of};
use crate::replies::reply_of;
use disk_model::Disk;
use engine::Engine;
use refusals::Refusal;
use reply_lines::ReplyLine;
use script_loop::HistoryLimit;
use script_syntax::{Label, Line, Request, read_line};
use std::alloc::{AllocError, Global};
use store_driver::{ask, wait};
use store_model::{Event, Reply, Tx};
use uuid::Uuid;
use word_syntax::ParseError;

/// A script between two lines: its store, the current moment and session, and the transaction that each label names.
pub struct Interpreter<D: Disk> {
    engine: Engine<D>,
    moment: u64,
    session: u32,
    labels: Labels,
}

impl<D: Disk + Drop> Drop for Interpreter<D> {
    // one drop for all that own an interpreter, whose proofs see no more of it than this contract
    fn drop(self) {
        let Interpreter {
            engine: _,
            moment: _,
            session: _,
            labels: _,
        } = self;
    }
}

impl<D: Disk> Interpreter<D> {
    /// A script before its first line, over a store: no label names anything, and session 0 is the current one.
    pub fn new(alloc: Global, engine: Engine<D>) -> Interpreter<D>
        ensures script { script_of result ≡ script_at engine.machine }
        ensures engine { engine_of result ≡ engine }
    {
        Interpreter {
            engine,
            moment: 0,
            session: 0,
            labels: Labels::new(alloc),
        }
    }

    /// Sets how many changes the store accepts until its history is folded: not fewer than the history has.
    pub fn limit_history(&mut self, limit: HistoryLimit)
        requires { length (engine_of self.old).machine.accepted ≤ limit }
        ensures script { script_of self.new ≡ limited limit (script_of self.old) }
        ensures engine { engine_of self.new ≡ record (engine_of self.old) {
          machine = with_history limit (engine_of self.old).machine;
          prepared = None;
        } }
    {
        self.engine.limit_history(limit.changes());
    }

    /// The store.
    pub fn engine(&self) -> &Engine<D>
        ensures { result.now ≡ engine_of self.now }
    {
        &self.engine
    }

    /// Answers a further line of the script, or `None` if the bytes are no such line. Memory is refused only for
    /// reading the line, before anything is asked.
    pub fn reply_to(&mut self, alloc: Global, bytes: &[u8]) -> Result<Option<ReplyLine>, AllocError>
        ensures none { IfOk result (λ made. IfNone made
            ((line_asked bytes.now ≡ None) × (self.new ≡ self.old))) }
        ensures err { OnErr result (self.new ≡ self.old) }
        ensures some { IfOk result (λ made. IfSome made
            (λ reported. (asked : AnyLine) × (line_asked bytes.now ≡ Some asked)
            × Answers (script_of self.old) asked reported (script_of self.new))) }
        ensures later { IsLater D.faithful D.failures (engine_of self.old) (engine_of self.new) }
    {
        match read_line(alloc, bytes) {
            Ok(line) => Ok(self.answer(alloc, line)),
            Err(ParseError::NotUnderstood) => Ok(None),
            Err(ParseError::NoMemory) => Err(AllocError),
        }
    }

    /// Answers a line of the script, or `None` if it is `hives`, `history`, or a line that only a laboratory takes.
    pub fn answer(&mut self, alloc: Global, line: Line) -> Option<ReplyLine>
        ensures reported { MatchOption result ((later_line (Some line) ≡ None) × (self.new ≡ self.old))
            (λ reported. (later_line (Some line) ≡ Some line)
            × Answers (script_of self.old) line reported (script_of self.new)) }
        ensures later { IsLater D.faithful D.failures (engine_of self.old) (engine_of self.new) }
    {
        let reported = match line {
            Line::Hives { .. } | Line::History { .. } | Line::Served { .. } | Line::Lab { .. } =>
                return None,
            Line::At { moment } => {
                self.moment = moment;
                Ok(ReplyLine::Done)
            }
            Line::Session { number } => Ok(self.enter(number)),
            Line::End { number } => Ok(self.ask(Event::EndSession { session: number })),
            Line::Plain { request } => self.alone(alloc, request),
            Line::Inside { label, request } => self.inside(alloc, label, request),
            Line::Begin { label, id } => self.begin_as(alloc, label, id),
            Line::Commit { label } => self.commit(label),
            Line::Rollback { label } => self.rollback(label),
            Line::Close { label } => self.close(label),
            Line::Outcome { label } => self.outcome(label),
            Line::Kept { id } => Ok(self.ask(Event::OutcomeOf { id })),
            Line::Flush => Ok(self.flush()),
            Line::Fold => Ok(self.ask(Event::Fold)),
        };
        match reported {
            Ok(reported) => Some(reported),
            Err(refusal) => Some(ReplyLine::Refused { refusal }),
        }
    }

    // opens the session, and makes it the current one
    fn enter(&mut self, number: u32) -> ReplyLine
        ensures reported { Answers (script_of self.old) (Line.Session number) result (script_of self.new) }
        ensures later { IsLater D.faithful D.failures (engine_of self.old) (engine_of self.new) }
    {
        match self.event(Event::StartSession { session: number }) {
            Reply::Done => {
                self.session = number;
                ReplyLine::Done
            }
            answer => reply_of(answer),
        }
    }

    fn alone(&mut self, alloc: Global, request: Request) -> Result<ReplyLine, Refusal>
        ensures ok { IfOk result (λ reported. Answers (script_of self.old) (Line.Plain request) reported
            (script_of self.new)) }
        ensures refused { IfErr result (λ refusal.
            Answers (script_of self.old) (Line.Plain request) (ReplyLine.Refused refusal)
            (script_of self.new)) }
        ensures later { IsLater D.faithful D.failures (engine_of self.old) (engine_of self.new) }
    {
        let event = self.event_alone(operation_of(alloc, request)?);
        Ok(self.ask(event))
    }

    fn inside(
        &mut self,
        alloc: Global,
        label: Label,
        request: Request,
    ) -> Result<ReplyLine, Refusal>
        ensures ok { IfOk result (λ reported. Answers (script_of self.old)
            (Line.Inside label request) reported (script_of self.new)) }
        ensures refused { IfErr result (λ refusal.
            Answers (script_of self.old) (Line.Inside label request) (ReplyLine.Refused refusal)
            (script_of self.new)) }
        ensures later { IsLater D.faithful D.failures (engine_of self.old) (engine_of self.new) }
    {
        let asked = operation_of(alloc, request)?;
        let event = self.event_inside(self.tx(label)?, asked);
        Ok(self.ask(event))
    }

    // the request in the current session, at the moment of now
    fn event_alone(&self, asked: Operation) -> Event
        ensures { result ≡ event_alone (script_of self.now) asked }
    {
        let session = self.session;
        match asked {
            Operation::Write { op } => Event::Write {
                session,
                moment: self.moment,
                op,
            },
            Operation::Read {
                hive,
                path,
                question,
            } => Event::Read {
                session,
                hive,
                path,
                question,
            },
        }
    }

    // the same in a transaction
    fn event_inside(&self, tx: Tx, asked: Operation) -> Event
        ensures { result ≡ event_inside (script_of self.now) tx asked }
    {
        let session = self.session;
        match asked {
            Operation::Write { op } => Event::TxWrite {
                session,
                tx,
                moment: self.moment,
                op,
            },
            Operation::Read {
                hive,
                path,
                question,
            } => Event::TxRead {
                session,
                tx,
                hive,
                path,
                question,
            },
        }
    }

    // begins a transaction that the label names; room for the label is made first, so each transaction that is begun is
    // named
    fn begin_as(&mut self, alloc: Global, label: Label, id: Uuid) -> Result<ReplyLine, Refusal>
        ensures ok { IfOk result (λ reported. Answers (script_of self.old) (Line.Begin label id) reported
            (script_of self.new)) }
        ensures refused { IfErr result (λ refusal.
            Answers (script_of self.old) (Line.Begin label id) (ReplyLine.Refused refusal)
            (script_of self.new)) }
        ensures later { IsLater D.faithful D.failures (engine_of self.old) (engine_of self.new) }
    {
        self.labels.make_room(label)?;
        let session = self.session;
        match self.event(Event::Begin { session, id }) {
            Reply::Begun { tx } => {
                self.labels.name(label, tx);
                Ok(ReplyLine::Done)
            }
            answer => Ok(reply_of(answer)),
        }
    }

    fn commit(&mut self, label: Label) -> Result<ReplyLine, Refusal>
        ensures ok { IfOk result (λ reported. Answers (script_of self.old) (Line.Commit label) reported
            (script_of self.new)) }
        ensures refused { IfErr result (λ refusal.
            Answers (script_of self.old) (Line.Commit label) (ReplyLine.Refused refusal)
            (script_of self.new)) }
        ensures later { IsLater D.faithful D.failures (engine_of self.old) (engine_of self.new) }
    {
        let session = self.session;
        let moment = self.moment;
        let tx = self.tx(label)?;
        let event = Event::CommitAccept {
            session,
            tx,
            moment,
        };
        match self.ask_and_wait(event) {
            Ok(number) => Ok(ReplyLine::Committed { number }),
            Err(reported) => Ok(reported),
        }
    }

    fn rollback(&mut self, label: Label) -> Result<ReplyLine, Refusal>
        ensures ok { IfOk result (λ reported. Answers (script_of self.old) (Line.Rollback label) reported
            (script_of self.new)) }
        ensures refused { IfErr result (λ refusal.
            Answers (script_of self.old) (Line.Rollback label) (ReplyLine.Refused refusal)
            (script_of self.new)) }
        ensures later { IsLater D.faithful D.failures (engine_of self.old) (engine_of self.new) }
    {
        let session = self.session;
        let tx = self.tx(label)?;
        Ok(self.ask(Event::Rollback { session, tx }))
    }

    fn close(&mut self, label: Label) -> Result<ReplyLine, Refusal>
        ensures ok { IfOk result (λ reported. Answers (script_of self.old) (Line.Close label) reported
            (script_of self.new)) }
        ensures refused { IfErr result (λ refusal.
            Answers (script_of self.old) (Line.Close label) (ReplyLine.Refused refusal)
            (script_of self.new)) }
        ensures later { IsLater D.faithful D.failures (engine_of self.old) (engine_of self.new) }
    {
        let session = self.session;
        let tx = self.tx(label)?;
        Ok(self.ask(Event::Close { session, tx }))
    }

    fn outcome(&mut self, label: Label) -> Result<ReplyLine, Refusal>
        ensures ok { IfOk result (λ reported. Answers (script_of self.old) (Line.Outcome label) reported
            (script_of self.new)) }
        ensures refused { IfErr result (λ refusal.
            Answers (script_of self.old) (Line.Outcome label) (ReplyLine.Refused refusal)
            (script_of self.new)) }
        ensures later { IsLater D.faithful D.failures (engine_of self.old) (engine_of self.new) }
    {
        let session = self.session;
        let tx = self.tx(label)?;
        Ok(self.ask(Event::Outcome { session, tx }))
    }

    /// Makes all accepted changes durable, as the line `flush` does.
    pub fn flush(&mut self) -> ReplyLine
        ensures reported { Answers (script_of self.old) Line.Flush result (script_of self.new) }
        ensures later { IsLater D.faithful D.failures (engine_of self.old) (engine_of self.new) }
    {
        match self.ask_and_wait(Event::FlushAsk) {
            Ok(number) => ReplyLine::Flushed { number },
            Err(reported) => reported,
        }
    }

    // the transaction that the label names
    fn tx(&self, label: Label) -> Result<Tx, Refusal>
        ensures ok { IfOk result (λ tx. (script_of self.now).labels label ≡ Some tx) }
        ensures refused { IfErr result (λ refusal. ((script_of self.now).labels label ≡ None)
            × (refusal ≡ Refusal.NoSuchHandle)) }
    {
        match self.labels.tx(label) {
            Some(tx) => Ok(tx),
            None => Err(Refusal::NoSuchHandle),
        }
    }

    // asks the store one event; nothing else of the script changes
    fn event(&mut self, event: Event) -> Reply
        ensures step { Step self.old.engine.machine event result self.new.engine.machine }
        ensures rest { self.new ≡ record self.old { engine = self.new.engine } }
        ensures later { IsLater D.faithful D.failures (engine_of self.old) (engine_of self.new) }
    {
        ask(&mut self.engine, event)
    }

    /// Asks the store one event, whose answer is the reply: nothing else of the script changes.
    pub fn ask(&mut self, event: Event) -> ReplyLine
        ensures reported { Asks (script_of self.old) event result (script_of self.new) }
        ensures later { IsLater D.faithful D.failures (engine_of self.old) (engine_of self.new) }
    {
        reply_of(self.event(event))
    }

    // asks an event, and waits for the change whose number it answers; `Err` is the reply if it answers no number or
    // the wait is refused
    fn ask_and_wait(&mut self, event: Event) -> Result<u64, ReplyLine>
        ensures reported { (tell : ℕ → AnyReplyLine) → AsksAndWaits (script_of self.old) event tell
            (reply_by tell result) (script_of self.new) }
        ensures later { IsLater D.faithful D.failures (engine_of self.old) (engine_of self.new) }
    {
        match self.event(event) {
            Reply::Awaits { number } => match wait(&mut self.engine, number) {
                Ok(()) => Ok(number),
                Err(refusal) => Err(ReplyLine::Refused { refusal }),
            },
            answer => Err(reply_of(answer)),
        }
    }
}
