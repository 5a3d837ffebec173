//! The lines that open and end sessions.
ghost use Rattle.std.specs.Prelude.{◌≡◌, ◌≢◌, ◌⊎◌, ℕ, ◌==◌, ◌&&◌, true, None, Some, IfErr, IfNone, IfOk, IfSome, OnErr, OnOk};
ghost use Rattle.script_syntax.specs.declared.line.Line.TheVariants as line;
ghost use Rattle.reply_lines.specs.declared.reply.ReplyLine.TheVariants.{Refused};
ghost use Rattle.ktm_calls.specs.Kinds.{Told as AnyTold};
ghost use Rattle.ktm_calls.specs.Denials.{IsOpened};
ghost use Rattle.registry_lines.specs.Heard.{GoesOn};
ghost use Rattle.registry_lines.specs.Interpreters.{script_of};
ghost use Rattle.registry_lines.specs.Scripts.{Answers, EndsNamed, IsNotFaulted, KeepsSessions, MayNotEnter, Switches, session_named};
ghost use Rattle.registry_lines.specs.Slots.{HasSlot, SameItems, TakesItem};

use crate::caller::{Caller, reply_to};
use crate::script::Script;
use histories::Start;
use ktm_calls::SessionHandle;
use refusals::Refusal;
use reply_lines::ReplyLine;
use std::alloc::AllocError;
use std::mem;
use std::sync::Wait;
use store_engine::StoreEngine;

impl<O: Start> Script<O> {
    // opens the session of this number unless it is open, and makes it the current one
    pub(crate) fn enter<E: StoreEngine, R: Wait>(
        &mut self,
        caller: &Caller<'_, E, O, R>,
        number: u32,
    ) -> Result<ReplyLine, Refusal>
        ensures ok { IfOk result (λ reported. Answers O.sole O.start O.trees O.number O.hives (script_of self.old) (line.Session number)
            reported (script_of self.new)) }
        ensures refused { IfErr result (λ refusal. Answers O.sole O.start O.trees O.number O.hives (script_of self.old)
            (line.Session number) (Refused refusal) (script_of self.new)) }
    {
        if self.is_current(number) {
            caller.check_not_faulted(&mut self.session)?;
            return Ok(ReplyLine::Done);
        }
        if self.make_room().is_err() {
            return Err(Refusal::NoMemory);
        }
        let handle = self.reach(caller, number)?;
        self.make_current(number, handle);
        Ok(ReplyLine::Done)
    }

    // whether the number names the session in which lines are asked
    fn is_current(&self, number: u32) -> bool
        ensures { result ≡ (self.now.is_open && (number == self.now.number)) }
    {
        self.is_open && number == self.number
    }

    // makes room for the current session among the others, if it is open
    fn make_room(&mut self) -> Result<(), AllocError>
        ensures rest { script_of self.new ≡ record (script_of self.old) { others = (script_of self.new).others } }
        ensures same { SameItems (script_of self.old).others (script_of self.new).others }
        ensures room { OnOk result (self.old.is_open ≡ true → HasSlot self.new.others self.old.number) }
    {
        if self.is_open {
            self.others.make_room(self.number)?;
        }
        Ok(())
    }

    // The handle of the session of this number, which isn't the current one: one of the others, or it is opened
    fn reach<E: StoreEngine, R: Wait>(
        &mut self,
        caller: &Caller<'_, E, O, R>,
        number: u32,
    ) -> Result<SessionHandle<O>, Refusal>
        ensures rest { script_of self.new ≡ record (script_of self.old) {
          session = (script_of self.new).session;
          others = (script_of self.new).others;
        } }
        ensures goes_on { GoesOn self.old.session self.new.session }
        ensures taken { OnOk result (TakesItem (script_of self.old).others (script_of self.new).others number) }
        ensures rooms { (other : ℕ) → other ≢ number → HasSlot self.old.others other → HasSlot self.new.others other }
        ensures reached { IfOk result (λ handle.
            (((script_of self.old).others number ≡ None) × (told : AnyTold)
            × IsOpened O.sole O.start O.trees O.number O.hives self.old.session.seen
            (record { number = handle; seen = self.new.session.seen }) told)
            ⊎ (((script_of self.old).others number ≡ Some handle)
            × IsNotFaulted O.sole O.start O.trees O.number O.hives self.old.session.seen self.new.session.seen)) }
        ensures same { OnErr result (SameItems (script_of self.old).others (script_of self.new).others) }
        ensures refused { IfErr result (MayNotEnter O.sole O.start O.trees O.number O.hives self.old.session.seen
            self.new.session.seen) }
    {
        if self.others.has(number) {
            caller.check_not_faulted(&mut self.session)?;
        }
        match self.others.take(number) {
            Some(handle) => Ok(handle),
            None => caller.open_handle(&mut self.session),
        }
    }

    // another session is the current one; the one before it is among the others, if it is open
    fn make_current(&mut self, number: u32, handle: SessionHandle<O>)
        requires room { self.old.is_open ≡ true → HasSlot self.old.others self.old.number }
        ensures { Switches (script_of self.old) (script_of self.new) number handle }
    {
        let number = mem::replace(&mut self.number, number);
        let handle = self.session.switch_to(handle);
        if mem::replace(&mut self.is_open, true) {
            self.others.put(number, handle);
        }
    }

    // ends the session of this number, if it is open
    pub(crate) fn end<E: StoreEngine, R: Wait>(
        &mut self,
        caller: &Caller<'_, E, O, R>,
        number: u32,
    ) -> Result<ReplyLine, Refusal>
        ensures ok { IfOk result (λ reported. Answers O.sole O.start O.trees O.number O.hives (script_of self.old) (line.End number)
            reported (script_of self.new)) }
        ensures refused { IfErr result (λ refusal. Answers O.sole O.start O.trees O.number O.hives (script_of self.old)
            (line.End number) (Refused refusal) (script_of self.new)) }
    {
        match self.take(number) {
            Some(handle) => {
                let answer = caller
                    .registry
                    .end_handle(caller.rt, handle, &mut self.session);
                Ok(reply_to(answer))
            }
            None => Err(Refusal::NoSuchHandle),
        }
    }

    // Takes the session of this number out of those that are open. After the current one, what follows is asked in a
    // session that isn't open
    fn take(&mut self, number: u32) -> Option<SessionHandle<O>>
        ensures taken { result ≡ session_named (script_of self.old) number }
        ensures some { IfSome result (λ _. EndsNamed (script_of self.old) (script_of self.new) number) }
        ensures none { IfNone result (KeepsSessions (script_of self.old) (script_of self.new)
            × (self.new.session ≡ self.old.session)) }
        ensures seen { self.new.session.seen ≡ self.old.session.seen }
    {
        let other = self.others.take(number);
        if self.is_current(number) {
            self.is_open = false;
            let closed = self.session.closed_handle();
            return Some(self.session.switch_to(closed));
        }
        other
    }
}
