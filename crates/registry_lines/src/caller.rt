//! The registry as a script calls it, and the replies to lines.
ghost use Rattle.std.specs.Prelude.{◌≡◌, ◌⊎◌, ℕ, Bool, List, IfErr, IfOk, OnOk};
ghost use Rattle.refusals.specs.declared.refusal.Refusal.TheVariants.{Faulted, NoMemory};
ghost use Rattle.reg_tree.specs.Maps.{TreeMap};
ghost use Rattle.engine_invariant.specs.Engines.{EngineView};
ghost use Rattle.published_trees.specs.declared.rule.TheConstants.{MOST_READERS};
ghost use Rattle.store_model.specs.declared.event.Event.{Event};
ghost use Rattle.store_model.specs.declared.event.Event.TheVariants as event;
ghost use Rattle.ktm_calls.specs.Denials.{IsDenied, IsOpened};
ghost use Rattle.ktm_calls.specs.Kinds.{Told as AnyTold};
ghost use Rattle.ktm_calls.specs.Moments.{Sight as AnySight};
ghost use Rattle.registry_lines.specs.Heard.{GoesOn, HearsAlone, HearsInside, denied_reply, told_reply};
ghost use Rattle.registry_lines.specs.Scripts.{EntersSession, IsNotFaulted, MayNotEnter, MayProbe, number_told as number_told_by};

use histories::Start;
use ktm_calls::{Asker, Denied, Key, Registry, Session, SessionHandle, Told};
use refusals::Refusal;
use reply_lines::ReplyLine;
use script_runner::{Operation, reply_of};
use std::alloc::Global;
use std::sync::Wait;
use store_engine::StoreEngine;
use store_model::{Reply, Tx};
use uuid::Uuid;

/// A registry, and with what it is called.
#[derive(Drop)]
pub struct Caller<'a, E: StoreEngine, O: Start, R> {
    /// By what it is waited.
    pub rt: &'a R,
    /// From where memory is taken.
    pub alloc: Global,
    /// The registry.
    pub registry: &'a Registry<E, O>,
}

impl<'a, E: StoreEngine, O: Start, R: Wait> Caller<'a, E, O, R> {
    /// The reply to a request alone, at a moment.
    pub fn reply_alone(&self, session: &mut Session<O>, moment: u64, asked: Operation) -> ReplyLine
        ensures { HearsAlone O.sole O.start O.trees O.number O.hives moment session.old asked result session.new }
    {
        match asked {
            Operation::Write { op } => {
                let answer = self.registry.write(self.rt, session, None, moment, op);
                reply_to(answer)
            }
            Operation::Read {
                hive,
                path,
                question,
            } => match session.look_up(&Key::new(hive, path), question) {
                Ok(found) => reply_of(Reply::Read { found }),
                Err(refusal) => ReplyLine::Refused { refusal },
            },
        }
    }

    /// The reply to a request in a transaction, at a moment.
    pub fn reply_inside(
        &self,
        session: &mut Session<O>,
        moment: u64,
        tx: Tx,
        asked: Operation,
    ) -> ReplyLine
        ensures { HearsInside O.sole O.start O.trees O.number O.hives moment tx session.old asked result session.new }
    {
        match asked {
            Operation::Write { op } => {
                let answer = self.registry.write(self.rt, session, Some(tx), moment, op);
                reply_to(answer)
            }
            Operation::Read {
                hive,
                path,
                question,
            } => {
                let key = Key {
                    hive,
                    path,
                    tx: None,
                };
                let answer = self
                    .registry
                    .look_up_transacted(self.rt, session, tx, &key, question);
                reply_to(answer)
            }
        }
    }

    /// Opens the first session, as this one asks. Refused as its event is; who asked comes back then.
    pub fn first_session(&self, asker: Asker<O>) -> Result<Session<O>, (Refusal, Asker<O>)>
        ensures opened { IfOk result (λ session. (told : AnyTold)
            × IsOpened O.sole O.start O.trees O.number O.hives asker session told) }
        ensures refused { IfErr result (λ why.
            MayNotEnter O.sole O.start O.trees O.number O.hives asker why.1 why.0) }
    {
        match self.registry.session(self.rt, asker) {
            Ok((session, _told)) => Ok(session),
            Err((denied, asker)) => Err((refusal_of(denied), asker)),
        }
    }

    /// Opens another session than this one.
    pub fn open_handle(&self, session: &mut Session<O>) -> Result<SessionHandle<O>, Refusal>
        ensures goes_on { GoesOn session.old session.new }
        ensures opened { IfOk result (λ handle. (told : AnyTold)
            × IsOpened O.sole O.start O.trees O.number O.hives session.old.seen
            (record { number = handle; seen = session.new.seen }) told) }
        ensures refused { IfErr result (MayNotEnter O.sole O.start O.trees O.number O.hives session.old.seen
            session.new.seen) }
    {
        match self.registry.open_handle(self.rt, session) {
            Ok((handle, _told)) => Ok(handle),
            Err(denied) => Err(refusal_of(denied)),
        }
    }

    /// Whether a session could be opened but for a seat. Refused with `Faulted` if the device has failed, and with
    /// `NoMemory`.
    pub fn check_not_faulted(&self, session: &mut Session<O>) -> Result<(), Refusal>
        ensures goes_on { GoesOn session.old session.new }
        ensures probes { MayProbe O.sole session.old.seen session.new.seen }
        ensures sound { OnOk result (IsNotFaulted O.sole O.start O.trees O.number O.hives session.old.seen
            session.new.seen) }
        ensures refused { IfErr result (MayNotEnter O.sole O.start O.trees O.number O.hives session.old.seen
            session.new.seen) }
    {
        match self.registry.probe(self.rt, session, Uuid::nil()) {
            Ok(_told) => Ok(()),
            Err(denied) => unless_closed(denied),
        }
    }

    /// The refusal to tell of a step that no line asked for, which was refused about the device so: that one if the store
    /// is faulted, which the session has seen then, and else want of memory.
    pub fn step_refusal(&self, session: &mut Session<O>, why: Refusal) -> Refusal
        ensures goes_on { GoesOn session.old session.new }
        ensures probes { MayProbe O.sole session.old.seen session.new.seen }
        ensures may { (result ≡ NoMemory) ⊎ ((result ≡ why)
            × MayNotEnter O.sole O.start O.trees O.number O.hives session.old.seen session.new.seen Faulted) }
    {
        match self.check_not_faulted(session) {
            Err(Refusal::Faulted) => why,
            _ => Refusal::NoMemory,
        }
    }
}

// the refusal of a question whether the store is faulted, unless it is that no session is open: the store isn't then
fn unless_closed(denied: Denied) -> Result<(), Refusal>
    ensures sound { OnOk result ((sole : Bool) (origin : EngineView) (trees : List TreeMap) (number hives : ℕ)
        (was is : AnySight) (id : List ℕ) →
        IsDenied sole origin trees number hives was is (event.Begin MOST_READERS id) denied →
        IsNotFaulted sole origin trees number hives was is) }
    ensures refused { IfErr result (λ why. (sole : Bool) (origin : EngineView) (trees : List TreeMap) (number hives : ℕ)
        (was is : AnySight) (id : List ℕ) →
        IsDenied sole origin trees number hives was is (event.Begin MOST_READERS id) denied →
        MayNotEnter sole origin trees number hives was is why) }
{
    match denied.refusal() {
        Some(Refusal::NoSuchHandle) => Ok(()),
        _ => Err(refusal_of(denied)),
    }
}

/// The reply to the line that made a call.
pub fn reply_to(answer: Result<Told, Denied>) -> ReplyLine
    ensures { result ≡ told_reply answer }
{
    match answer {
        Ok(told) => reply_of(told.into_reply()),
        Err(denied) => denied_reply(denied),
    }
}

/// The reply to the line whose call was denied.
pub fn denied_reply(denied: Denied) -> ReplyLine
    ensures { result ≡ denied_reply denied }
{
    match denied {
        Denied::NoMemory => ReplyLine::Refused {
            refusal: Refusal::NoMemory,
        },
        Denied::Told(told) => reply_of(told.into_reply()),
    }
}

// the refusal that a call was denied with. There is one in each denial
fn refusal_of(denied: Denied) -> Refusal
    ensures { (sole : Bool) (origin : EngineView) (trees : List TreeMap) (number hives : ℕ) (was is : AnySight) (event : Event) →
        EntersSession event → IsDenied sole origin trees number hives was is event denied →
        MayNotEnter sole origin trees number hives was is result }
{
    match denied.refusal() {
        Some(refusal) => refusal,
        None => Refusal::NoMemory,
    }
}

/// The number of a change that a reply tells, or 0.
pub fn number_told(reply: &ReplyLine) -> u64
    ensures { result ≡ number_told_by reply.now }
{
    match reply {
        ReplyLine::Accepted { number }
        | ReplyLine::Created { levels: _, number }
        | ReplyLine::Committed { number }
        | ReplyLine::Flushed { number } => *number,
        _ => 0,
    }
}
