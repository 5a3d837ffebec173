//! A script between two lines, and its lines.
ghost use Rattle.std.specs.Prelude.{◌≡◌, true, Some, None, IfErr, IfNone, IfOk, IfSome, MatchOption, OnErr};
ghost use Rattle.refusals.specs.declared.refusal.Refusal.TheVariants.{NoSuchHandle};
ghost use Rattle.script_syntax.specs.declared.line.Line.{Line as AnyLine};
ghost use Rattle.script_syntax.specs.declared.line.Line.TheVariants.{Inside, Plain};
ghost use Rattle.reply_lines.specs.declared.reply.ReplyLine.TheVariants.{Refused};
ghost use Rattle.script_runner.specs.Scripts.{later_line, line_asked};
ghost use Rattle.store_model.specs.declared.event.Event.TheVariants as event;
ghost use Rattle.ktm_calls.specs.Denials.{IsDenied, IsRefusal};
ghost use Rattle.ktm_calls.specs.Moments.{SeesMore, Tells};
ghost use Rattle.registry_lines.specs.Interpreters.{script_of};
ghost use Rattle.registry_lines.specs.Scripts.{Answers, AnswersLine, HasNothingToEnd, IsBegun, MayNotEnter};

use crate::caller::Caller;
use crate::labels::tx_of;
use crate::slots::Slots;
use histories::Start;
use ktm_calls::{Asker, Denied, Key, Session, SessionHandle, Told};
use refusals::Refusal;
use reg_names::Path;
use reply_lines::ReplyLine;
use script_runner::{Labels, operation_of};
use script_syntax::{Label, Line, Request, read_line};
use std::alloc::AllocError;
use std::sync::Wait;
use store_engine::StoreEngine;
use store_model::Tx;
use word_syntax::ParseError;

/// What is answered to a line.
pub enum LineAnswer {
    /// A reply.
    Reply {
        /// The reply.
        reply: ReplyLine,
    },
    /// The history is to be folded: all that was accepted is durable and in the hives.
    ToFold,
}

/// A script between two lines: the current moment and session, the other sessions that it opened, and the transaction
/// that each label names.
pub struct Script<O: Start> {
    /// The current moment.
    pub moment: u64,
    /// The labels; none before the first one.
    pub labels: Option<Labels>,
    /// The number of the current session, which may have ended.
    pub number: u32,
    /// Whether the current session is open.
    pub is_open: bool,
    /// The current session.
    pub session: Session<O>,
    /// The other sessions that are open, by the numbers that the script gave them.
    pub others: Slots<SessionHandle<O>>,
    /// A flush names a key, and nothing is judged of it.
    pub root: Key,
}

impl<O: Start> Drop for Script<O> {
    // one drop for all that own one, whose proofs see no more of it than that
    fn drop(self) {
        let Script {
            moment: _,
            labels: _,
            number: _,
            is_open: _,
            session: _,
            others: _,
            root: _,
        } = self;
    }
}

impl<O: Start> Script<O> {
    /// A script before its first line: no label names anything, and session 0 is opened and the current one, in which this
    /// one asks, after all that it has seen. Refused as that session is, and with `NoMemory`; who asked comes back then.
    pub fn begin<E: StoreEngine, R: Wait>(
        caller: &Caller<'_, E, O, R>,
        asker: Asker<O>,
        moment: u64,
    ) -> Result<Script<O>, (Refusal, Asker<O>)>
        ensures begun { IfOk result (λ script. IsBegun O.sole O.start O.trees O.number O.hives asker moment (script_of script)) }
        ensures refused { IfErr result (λ why.
            MayNotEnter O.sole O.start O.trees O.number O.hives asker why.1 why.0) }
    {
        let Ok(root) = Path::root(caller.alloc) else {
            return Err((Refusal::NoMemory, asker));
        };
        let root = Key::new(0, root);
        let session = caller.first_session(asker)?;
        Ok(Script {
            moment,
            labels: None,
            number: 0,
            is_open: true,
            session,
            others: Slots::new(caller.alloc),
            root,
        })
    }

    /// Who asked in its sessions.
    pub fn into_asker(self) -> Asker<O>
        ensures { result ≡ (script_of self).session.seen }
    {
        let Script {
            moment: _,
            labels: _,
            number: _,
            is_open: _,
            session,
            others: _,
            root: _,
        } = self;
        let (_handle, asker) = session.into_parts();
        asker
    }

    /// Ends the current session, with all of its transactions. It is gone also if that is refused; who asked in it comes
    /// back.
    pub fn finish<E: StoreEngine, R: Wait>(
        self,
        caller: &Caller<'_, E, O, R>,
    ) -> (Asker<O>, Result<Told, Denied>)
        ensures seen { SeesMore (script_of self).session.seen result.0 }
        ensures told { IfOk result.1 (λ t. Tells O.sole O.start O.trees O.number O.hives (script_of self).session.seen
            result.0 (event.EndSession (script_of self).session.number) t) }
        ensures granted { IfOk result.1 (λ t. ¬ (IsRefusal t.reply)) }
        ensures denied { IfErr result.1 (IsDenied O.sole O.start O.trees O.number O.hives
            (script_of self).session.seen result.0 (event.EndSession (script_of self).session.number)) }
    {
        let Script {
            moment: _,
            labels: _,
            number: _,
            is_open: _,
            session,
            others: _,
            root: _,
        } = self;
        caller.registry.end_session(caller.rt, session)
    }

    /// Answers a line, or `None` if the bytes are no such line. Memory is refused only for reading the line, before
    /// anything is asked.
    pub fn reply_to<E: StoreEngine, R: Wait>(
        &mut self,
        caller: &Caller<'_, E, O, R>,
        bytes: &[u8],
    ) -> Result<Option<LineAnswer>, AllocError>
        ensures none { IfOk result (λ made. IfNone made
            ((line_asked bytes.now ≡ None) × (self.new ≡ self.old))) }
        ensures err { OnErr result (self.new ≡ self.old) }
        ensures some { IfOk result (λ made. IfSome made
            (λ answer. (asked : AnyLine) × (line_asked bytes.now ≡ Some asked)
            × AnswersLine O.sole O.start O.trees O.number O.hives (script_of self.old) asked answer (script_of self.new))) }
    {
        match read_line(caller.alloc, bytes) {
            Ok(line) => Ok(self.answer(caller, line)),
            Err(ParseError::NotUnderstood) => Ok(None),
            Err(ParseError::NoMemory) => Err(AllocError),
        }
    }

    /// Answers a line, or `None` if it makes a script's store or only a laboratory takes it.
    pub fn answer<E: StoreEngine, R: Wait>(
        &mut self,
        caller: &Caller<'_, E, O, R>,
        line: Line,
    ) -> Option<LineAnswer>
        ensures answered { MatchOption result ((later_line (Some line) ≡ None) × (self.new ≡ self.old))
            (λ answer. (later_line (Some line) ≡ Some line)
            × AnswersLine O.sole O.start O.trees O.number O.hives (script_of self.old) line answer (script_of self.new)) }
    {
        let answered = match line {
            Line::Hives { .. } | Line::History { .. } | Line::Served { .. } | Line::Lab { .. } =>
                return None,
            Line::Fold => return Some(self.fold(caller)),
            Line::At { moment } => {
                self.moment = moment;
                Ok(ReplyLine::Done)
            }
            Line::Session { number } => self.enter(caller, number),
            Line::End { number } => self.end(caller, number),
            Line::Plain { request } => self.alone(caller, request),
            Line::Inside { label, request } => self.inside(caller, label, request),
            Line::Begin { label, id } => self.begin_as(caller, label, id),
            Line::Commit { label } => self.commit(caller, label),
            Line::Rollback { label } => self.rollback(caller, label),
            Line::Close { label } => self.close(caller, label),
            Line::Outcome { label } => self.outcome(caller, label),
            Line::Kept { id } => Ok(self.kept(caller, id)),
            Line::Flush => Ok(self.flush(caller)),
        };
        match answered {
            Ok(reply) => Some(LineAnswer::Reply { reply }),
            Err(refusal) => Some(LineAnswer::Reply {
                reply: ReplyLine::Refused { refusal },
            }),
        }
    }

    fn alone<E: StoreEngine, R: Wait>(
        &mut self,
        caller: &Caller<'_, E, O, R>,
        request: Request,
    ) -> Result<ReplyLine, Refusal>
        ensures ok { IfOk result (λ reported. Answers O.sole O.start O.trees O.number O.hives (script_of self.old) (Plain request)
            reported (script_of self.new)) }
        ensures refused { IfErr result (λ refusal. Answers O.sole O.start O.trees O.number O.hives (script_of self.old)
            (Plain request) (Refused refusal) (script_of self.new)) }
    {
        let asked = operation_of(caller.alloc, request)?;
        Ok(caller.reply_alone(&mut self.session, self.moment, asked))
    }

    fn inside<E: StoreEngine, R: Wait>(
        &mut self,
        caller: &Caller<'_, E, O, R>,
        label: Label,
        request: Request,
    ) -> Result<ReplyLine, Refusal>
        ensures ok { IfOk result (λ reported. Answers O.sole O.start O.trees O.number O.hives (script_of self.old) (Inside label request)
            reported (script_of self.new)) }
        ensures refused { IfErr result (λ refusal. Answers O.sole O.start O.trees O.number O.hives (script_of self.old)
            (Inside label request) (Refused refusal) (script_of self.new)) }
    {
        let asked = operation_of(caller.alloc, request)?;
        let tx = self.tx(label)?;
        Ok(caller.reply_inside(&mut self.session, self.moment, tx, asked))
    }

    // the transaction that the label names
    pub(crate) fn tx(&self, label: Label) -> Result<Tx, Refusal>
        ensures ok { IfOk result (λ tx. (script_of self.now).labels label ≡ Some tx) }
        ensures refused { IfErr result (λ refusal. ((script_of self.now).labels label ≡ None)
            × (refusal ≡ NoSuchHandle)) }
    {
        match tx_of(&self.labels, label) {
            Some(tx) => Ok(tx),
            None => Err(Refusal::NoSuchHandle),
        }
    }

    /// Whether a fold ends nothing of the script: session 0 alone is open, and is the current one, and there are no
    /// labels.
    pub fn has_nothing_to_end(&self) -> bool
        ensures { result ≡ true → HasNothingToEnd (script_of self.now) }
    {
        self.is_open && self.number == 0 && self.others.is_empty() && self.labels.is_none()
    }
}
