//! The lines of transactions, and the lines `flush` and `fold`.
ghost use Rattle.std.specs.Prelude.{IfErr, IfOk};
ghost use Rattle.script_syntax.specs.declared.line.Line.TheVariants.{Begin, Close, Commit, Flush, Fold, Kept, Outcome, Rollback};
ghost use Rattle.reply_lines.specs.declared.reply.ReplyLine.TheVariants.{Refused};
ghost use Rattle.registry_lines.specs.Interpreters.{script_of};
ghost use Rattle.registry_lines.specs.Heard.{GoesOn};
ghost use Rattle.registry_lines.specs.Scripts.{Answers, AnswersLine, InSession, MayNotStep, MayProbe};

use crate::caller::{Caller, denied_reply, reply_to};
use crate::labels::{make_room, name};
use crate::script::{LineAnswer, Script};
use histories::Start;
use ktm_calls::Denied;
use refusals::Refusal;
use reply_lines::ReplyLine;
use script_runner::{is_refusal, reply_of};
use script_syntax::Label;
use std::sync::Wait;
use store_engine::StoreEngine;
use uuid::Uuid;

impl<O: Start> Script<O> {
    /// Begins a transaction that the label names, as the line `begin` does. Room for the label is made first, so each
    /// transaction that is begun is named.
    pub fn begin_as<E: StoreEngine, R: Wait>(
        &mut self,
        caller: &Caller<'_, E, O, R>,
        label: Label,
        id: Uuid,
    ) -> Result<ReplyLine, Refusal>
        ensures ok { IfOk result (λ reported. Answers O.sole O.start O.trees O.number O.hives (script_of self.old) (Begin label id)
            reported (script_of self.new)) }
        ensures refused { IfErr result (λ refusal. Answers O.sole O.start O.trees O.number O.hives (script_of self.old)
            (Begin label id) (Refused refusal) (script_of self.new)) }
    {
        make_room(&mut self.labels, caller.alloc, label)?;
        match caller
            .registry
            .create_transaction(caller.rt, &mut self.session, id)
        {
            Ok((tx, _told)) => {
                name(&mut self.labels, label, tx);
                Ok(ReplyLine::Done)
            }
            Err(denied) => Ok(denied_reply(denied)),
        }
    }

    // A step of the journal for which there is no memory refuses the line: the script's end tries again.
    pub(crate) fn commit<E: StoreEngine, R: Wait>(
        &mut self,
        caller: &Caller<'_, E, O, R>,
        label: Label,
    ) -> Result<ReplyLine, Refusal>
        ensures ok { IfOk result (λ reported. Answers O.sole O.start O.trees O.number O.hives (script_of self.old) (Commit label)
            reported (script_of self.new)) }
        ensures refused { IfErr result (λ refusal. Answers O.sole O.start O.trees O.number O.hives (script_of self.old)
            (Commit label) (Refused refusal) (script_of self.new)) }
    {
        let tx = self.tx(label)?;
        match caller
            .registry
            .try_commit_transaction(caller.rt, &mut self.session, tx, self.moment)
        {
            Ok((receipt, _told)) => Ok(ReplyLine::Committed {
                number: receipt.number(),
            }),
            Err(denied) => Ok(denied_reply(denied)),
        }
    }

    pub(crate) fn rollback<E: StoreEngine, R: Wait>(
        &mut self,
        caller: &Caller<'_, E, O, R>,
        label: Label,
    ) -> Result<ReplyLine, Refusal>
        ensures ok { IfOk result (λ reported. Answers O.sole O.start O.trees O.number O.hives (script_of self.old) (Rollback label)
            reported (script_of self.new)) }
        ensures refused { IfErr result (λ refusal. Answers O.sole O.start O.trees O.number O.hives (script_of self.old)
            (Rollback label) (Refused refusal) (script_of self.new)) }
    {
        let tx = self.tx(label)?;
        let answer = caller
            .registry
            .rollback_transaction(caller.rt, &mut self.session, tx);
        Ok(reply_to(answer))
    }

    pub(crate) fn close<E: StoreEngine, R: Wait>(
        &mut self,
        caller: &Caller<'_, E, O, R>,
        label: Label,
    ) -> Result<ReplyLine, Refusal>
        ensures ok { IfOk result (λ reported. Answers O.sole O.start O.trees O.number O.hives (script_of self.old) (Close label)
            reported (script_of self.new)) }
        ensures refused { IfErr result (λ refusal. Answers O.sole O.start O.trees O.number O.hives (script_of self.old)
            (Close label) (Refused refusal) (script_of self.new)) }
    {
        let tx = self.tx(label)?;
        let answer = caller
            .registry
            .close_transaction(caller.rt, &mut self.session, tx);
        Ok(reply_to(answer))
    }

    pub(crate) fn outcome<E: StoreEngine, R: Wait>(
        &mut self,
        caller: &Caller<'_, E, O, R>,
        label: Label,
    ) -> Result<ReplyLine, Refusal>
        ensures ok { IfOk result (λ reported. Answers O.sole O.start O.trees O.number O.hives (script_of self.old) (Outcome label)
            reported (script_of self.new)) }
        ensures refused { IfErr result (λ refusal. Answers O.sole O.start O.trees O.number O.hives (script_of self.old)
            (Outcome label) (Refused refusal) (script_of self.new)) }
    {
        let tx = self.tx(label)?;
        match caller.registry.outcome(caller.rt, &mut self.session, tx) {
            Ok((_outcome, told)) => Ok(reply_of(told.into_reply())),
            Err(denied) => Ok(denied_reply(denied)),
        }
    }

    /// The number of a unit of work's commit, as the line `kept` tells it, by what the current session sees. No session
    /// needs to be open for it: if this one has ended, the registry itself is asked.
    pub fn kept<E: StoreEngine, R: Wait>(
        &mut self,
        caller: &Caller<'_, E, O, R>,
        id: Uuid,
    ) -> ReplyLine
        ensures { Answers O.sole O.start O.trees O.number O.hives (script_of self.old) (Kept id) result (script_of self.new) }
    {
        if self.is_open {
            return match self.session.outcome_of(&id) {
                Ok(number) => ReplyLine::Committed { number },
                Err(refusal) => ReplyLine::Refused { refusal },
            };
        }
        match caller.registry.outcome_of(caller.rt, &mut self.session, id) {
            Ok((_number, told)) => reply_of(told.into_reply()),
            Err(denied) => denied_reply(denied),
        }
    }

    /// Makes all accepted changes durable, as the line `flush` does.
    pub fn flush<E: StoreEngine, R: Wait>(&mut self, caller: &Caller<'_, E, O, R>) -> ReplyLine
        ensures { Answers O.sole O.start O.trees O.number O.hives (script_of self.old) Flush result (script_of self.new) }
    {
        match caller
            .registry
            .flush_key(caller.rt, &mut self.session, &self.root)
        {
            Ok((receipt, _told)) => ReplyLine::Flushed {
                number: receipt.number(),
            },
            Err(denied) => denied_reply(denied),
        }
    }

    /// Makes ready for a fold: makes all accepted changes durable, as the line `flush` does, and moves them into the
    /// hives. If one of the two is refused, that is the reply.
    pub fn fold<E: StoreEngine, R: Wait>(&mut self, caller: &Caller<'_, E, O, R>) -> LineAnswer
        ensures { AnswersLine O.sole O.start O.trees O.number O.hives (script_of self.old) Fold result (script_of self.new) }
    {
        let reply = self.flush(caller);
        if is_refusal(&reply) {
            return LineAnswer::Reply { reply };
        }
        match caller.registry.checkpoint(caller.rt) {
            Ok(_receipt) => LineAnswer::ToFold,
            Err(denied) => {
                let refusal = self.step_refusal(caller, denied);
                LineAnswer::Reply {
                    reply: ReplyLine::Refused { refusal },
                }
            }
        }
    }

    // the refusal to tell of a step that no line asked for
    fn step_refusal<E: StoreEngine, R: Wait>(
        &mut self,
        caller: &Caller<'_, E, O, R>,
        denied: Denied,
    ) -> Refusal
        ensures session { InSession (script_of self.old) (script_of self.new) }
        ensures goes_on { GoesOn (script_of self.old).session (script_of self.new).session }
        ensures probes { MayProbe O.sole (script_of self.old).session.seen (script_of self.new).session.seen }
        ensures may { MayNotStep O.sole O.start O.trees O.number O.hives (script_of self.old).session.seen
            (script_of self.new).session.seen result }
    {
        match denied.refusal() {
            Some(Refusal::DiskFault) => caller.step_refusal(&mut self.session, Refusal::DiskFault),
            Some(Refusal::Faulted) => caller.step_refusal(&mut self.session, Refusal::Faulted),
            _ => Refusal::NoMemory,
        }
    }
}
