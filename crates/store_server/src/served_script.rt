//! A client's session between two lines, and its lines.
ghost use Rattle.std.specs.Prelude.{◌≡◌, ◌⊎◌, None, Some, IfErr, IfNone, IfOk, IfSome, MatchOption, OnErr};
ghost use Rattle.refusals.specs.declared.refusal.Refusal.{Refusal as AnyRefusal};
ghost use Rattle.reply_lines.specs.declared.reply.ReplyLine.TheVariants.{Refused};
ghost use Rattle.script_runner.specs.Scripts.{later_line, line_asked};
ghost use Rattle.script_syntax.specs.declared.line.Line.TheVariants as line;
ghost use Rattle.ktm_calls.specs.Moments.{SeesMore};
ghost use Rattle.registry_lines.specs.Interpreters.{script_of};
ghost use Rattle.registry_lines.specs.Scripts.{Answers};
ghost use Rattle.store_server.specs.Served.{AnswersBytes, AnswersServed, IsBeginRefusal, TellsDurablyKept, kind_of as kind_of_line};
ghost use Rattle.store_server.specs.Visits.{EndsSessionAs};
ghost use Rattle.store_server.specs.declared.served_kind.ServedKind.TheVariants.{Other};

use crate::history_share::HistoryShare;
use crate::open_transactions::OpenTransactions;
use crate::served_kind::{ServedKind, kind_of};
use crate::session_ends::SessionEnds;
use client_desks::{Desks, UnitRefusal, Units};
use client_frames::ClientPlace;
use histories::Start;
use ktm_calls::Asker;
use refusals::Refusal;
use registry_lines::{Caller, LineAnswer, Script};
use reply_lines::ReplyLine;
use script_runner::is_refusal;
use script_syntax::{Label, Line, read_line};
use std::alloc::{AllocError, Global};
use std::sync::Wait;
use store_engine::StoreEngine;
use uuid::Uuid;
use word_syntax::ParseError;

/// Where a session works: the place of its client, and what it shares with the sessions at other places.
#[derive(Drop)]
pub struct Workplace<'a, B> {
    /// The client's place.
    pub place: ClientPlace,
    /// The units of work that are active.
    pub units: &'a Units,
    /// What is left of the history.
    pub share: &'a HistoryShare,
    /// The desks of all clients.
    pub desks: &'a Desks,
    /// Where copies of the store are made.
    pub backups: &'a B,
}

impl<B> Workplace<'_, B> {
    // a unit of work isn't active here any more
    fn leave<R: Wait>(&self, rt: &R, unit: Uuid) {
        self.units.leave(rt, self.place, unit);
    }

    // so many transactions were closed
    fn close<R: Wait>(&self, rt: &R, count: usize) {
        self.share.close_transactions(rt, self.desks, count);
    }
}

/// A client's session between two lines: its script, and the transactions of it that aren't closed.
pub struct ServedScript<O: Start> {
    /// The script.
    pub script: Script<O>,
    /// The transactions.
    pub open: OpenTransactions,
}

impl<O: Start> Drop for ServedScript<O> {
    // one drop for all that own one, whose proofs see no more of it than that
    fn drop(self) {
        let ServedScript { script: _, open: _ } = self;
    }
}

// how a line ends a transaction, if it isn't refused
#[derive(Clone, Copy)]
enum Ending {
    // it is committed or rolled back
    Settled(Label),
    // it is closed
    Closed(Label),
    // it doesn't
    None,
}

impl<O: Start> ServedScript<O> {
    /// A session before its first line.
    pub fn new(alloc: Global, script: Script<O>) -> ServedScript<O>
        ensures { result.script ≡ script }
    {
        ServedScript {
            script,
            open: OpenTransactions::new(alloc),
        }
    }

    /// Answers a line, or `None` if the bytes are no line that a client may send. Memory is refused only for reading the
    /// line, before anything is asked.
    pub fn reply_to<E: StoreEngine, R: Wait, B>(
        &mut self,
        caller: &Caller<'_, E, O, R>,
        at: &Workplace<'_, B>,
        bytes: &[u8],
    ) -> Result<Option<ReplyLine>, AllocError>
        ensures none { IfOk result (λ made. IfNone made
            ((line_asked bytes.now ≡ None) × (script_of self.new.script ≡ script_of self.old.script))) }
        ensures err { OnErr result (script_of self.new.script ≡ script_of self.old.script) }
        ensures some { IfOk result (λ made. IfSome made
            (λ reported. AnswersBytes O.sole O.start O.trees O.number O.hives (script_of self.old.script) bytes.now reported
            (script_of self.new.script))) }
    {
        match read_line(caller.alloc, bytes) {
            Ok(line) => Ok(self.answer(caller, at, line)),
            Err(ParseError::NotUnderstood) => Ok(None),
            Err(ParseError::NoMemory) => Err(AllocError),
        }
    }

    /// Ends the session, with all of its transactions. Who asked in it comes back.
    pub fn finish<E: StoreEngine, R: Wait>(
        self,
        caller: &Caller<'_, E, O, R>,
    ) -> (Asker<O>, SessionEnds)
        ensures seen { SeesMore (script_of self.script).session.seen result.0 }
        ensures ended { EndsSessionAs O.sole O.start O.trees O.number O.hives (script_of self.script).session.seen result.0
            (script_of self.script).session.number result.1 }
    {
        let ServedScript { script, open: _ } = self;
        let (asker, ended) = script.finish(caller);
        match ended {
            Ok(_) => (asker, SessionEnds::Granted),
            Err(_) => (asker, SessionEnds::Denied),
        }
    }

    // answers a line, or `None` if it makes a script's store or only a laboratory takes it
    fn answer<E: StoreEngine, R: Wait, B>(
        &mut self,
        caller: &Caller<'_, E, O, R>,
        at: &Workplace<'_, B>,
        line: Line,
    ) -> Option<ReplyLine>
        ensures answered { MatchOption result
            ((later_line (Some line) ≡ None) × (script_of self.new.script ≡ script_of self.old.script))
            (λ reported. (later_line (Some line) ≡ Some line)
            × AnswersServed O.sole O.start O.trees O.number O.hives (script_of self.old.script) line reported
            (script_of self.new.script)) }
    {
        match kind_of(&line) {
            ServedKind::OfRun => Some(ReplyLine::Refused {
                refusal: Refusal::Unsupported,
            }),
            ServedKind::Kept { id } => Some(self.kept(caller, id)),
            ServedKind::Begin { label, id } => Some(self.begin(caller, at, label, id)),
            ServedKind::Other => self.answer_other(caller, at, line),
        }
    }

    // tells a unit's commit once it is durable: another session may have accepted it, and wait for that
    fn kept<E: StoreEngine, R: Wait>(&mut self, caller: &Caller<'_, E, O, R>, id: Uuid) -> ReplyLine
        ensures { TellsDurablyKept O.sole O.start O.trees O.number O.hives (script_of self.old.script) id result
            (script_of self.new.script) }
    {
        let found = self.script.kept(caller, id);
        if is_refusal(&found) {
            return found;
        }
        let flushed = self.script.flush(caller);
        if is_refusal(&flushed) {
            return flushed;
        }
        found
    }

    // begins a transaction, unless another session has its unit of work active
    fn begin<E: StoreEngine, R: Wait, B>(
        &mut self,
        caller: &Caller<'_, E, O, R>,
        at: &Workplace<'_, B>,
        label: Label,
        id: Uuid,
    ) -> ReplyLine
        ensures { Answers O.sole O.start O.trees O.number O.hives (script_of self.old.script) (line.Begin label id) result
            (script_of self.new.script)
            ⊎ ((why : AnyRefusal) × IsBeginRefusal why × (result ≡ Refused why)
            × (script_of self.new.script ≡ script_of self.old.script)) }
    {
        if let Err(refusal) = self.enter(caller, at, id) {
            return ReplyLine::Refused { refusal };
        }
        let reply = match self.script.begin_as(caller, label, id) {
            Ok(reply) => reply,
            Err(refusal) => ReplyLine::Refused { refusal },
        };
        if is_refusal(&reply) {
            at.leave(caller.rt, id);
            at.close(caller.rt, 1);
        } else {
            self.open.add(label, id);
        }
        reply
    }

    // Makes room for a transaction, and lets this place have its unit of work. While sessions are to rest none is begun: a
    // client that tries again is served by its next session
    fn enter<E: StoreEngine, R: Wait, B>(
        &mut self,
        caller: &Caller<'_, E, O, R>,
        at: &Workplace<'_, B>,
        id: Uuid,
    ) -> Result<(), Refusal>
        ensures same { self.new.script ≡ self.old.script }
        ensures refused { IfErr result IsBeginRefusal }
    {
        if let Err(why) = self.open.make_room() {
            return Err(why);
        }
        match at.units.enter(caller.rt, at.place, id) {
            Ok(()) => {}
            Err(UnitRefusal::Taken) => return Err(Refusal::Conflict),
            Err(UnitRefusal::NoMemory) => return Err(Refusal::NoMemory),
        }
        if at.share.open_transaction(caller.rt) {
            return Ok(());
        }
        at.leave(caller.rt, id);
        Err(Refusal::Conflict)
    }

    // answers a line as a run does
    fn answer_other<E: StoreEngine, R: Wait, B>(
        &mut self,
        caller: &Caller<'_, E, O, R>,
        at: &Workplace<'_, B>,
        line: Line,
    ) -> Option<ReplyLine>
        requires { kind_of_line line ≡ Other }
        ensures answered { MatchOption result
            ((later_line (Some line) ≡ None) × (script_of self.new.script ≡ script_of self.old.script))
            (λ reported. (later_line (Some line) ≡ Some line)
            × Answers O.sole O.start O.trees O.number O.hives (script_of self.old.script) line reported
            (script_of self.new.script)) }
    {
        let ending = ending_of(&line);
        match self.script.answer(caller, line)? {
            LineAnswer::Reply { reply } => {
                if !is_refusal(&reply) {
                    self.end_transaction(caller, at, ending);
                }
                Some(reply)
            }
            // a line that folds is of another kind
            LineAnswer::ToFold => unreachable!(),
        }
    }

    // a transaction was ended so: its unit of work isn't active any more
    fn end_transaction<E: StoreEngine, R: Wait, B>(
        &mut self,
        caller: &Caller<'_, E, O, R>,
        at: &Workplace<'_, B>,
        ending: Ending,
    )
        ensures { self.new.script ≡ self.old.script }
    {
        match ending {
            Ending::Settled(label) => {
                if let Some(unit) = self.open.settle(label) {
                    at.leave(caller.rt, unit);
                }
            }
            Ending::Closed(label) => {
                if let Some(closed) = self.open.close(label) {
                    if let Some(unit) = closed.unit {
                        at.leave(caller.rt, unit);
                    }
                    at.close(caller.rt, 1);
                }
            }
            Ending::None => {}
        }
    }
}

// how a line ends a transaction, if it isn't refused
fn ending_of(line: &Line) -> Ending {
    match line {
        Line::Commit { label } | Line::Rollback { label } => Ending::Settled(*label),
        Line::Close { label } => Ending::Closed(*label),
        _ => Ending::None,
    }
}
