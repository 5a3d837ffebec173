//! A script whose caller makes the steps of its store: what a commit and a flush ask, without the wait for it.
ghost use Rattle.std.specs.Prelude.{◌≡◌};
ghost use Rattle.store_model.specs.Steps.{Step};
ghost use Rattle.store_driver.specs.Later.{IsLater};
ghost use Rattle.script_runner.specs.Parting.{AsksFor, AsksForCommit};
ghost use Rattle.script_runner.specs.Interpreters.{engine_of, script_of};
ghost use Rattle.script_runner.specs.Scripts.{Asks, IsLabelled, script_at};

use super::Interpreter;
use crate::labels::Labels;
use crate::replies::reply_of;
use disk_model::Disk;
use engine::Engine;
use refusals::Refusal;
use reply_lines::ReplyLine;
use script_syntax::Label;
use std::alloc::Global;
use store_model::{Event, Reply};

impl<D: Disk> Interpreter<D> {
    /// Commits the transaction of the label, without waiting until the change is durable.
    pub fn accept(&mut self, label: Label) -> ReplyLine
        ensures reported { IsLabelled ((script_of self.old).labels label)
            (λ tx. Asks (script_of self.old) (Event.CommitAccept (script_of self.old).session tx
            (script_of self.old).moment) result (script_of self.new))
            (script_of self.old) result (script_of self.new) }
        ensures later { IsLater D.faithful D.failures (engine_of self.old) (engine_of self.new) }
    {
        let session = self.session;
        let moment = self.moment;
        match self.tx(label) {
            Ok(tx) => self.ask(Event::CommitAccept {
                session,
                tx,
                moment,
            }),
            Err(refusal) => ReplyLine::Refused { refusal },
        }
    }

    /// What the line `commit` asks: answers the number of the change to wait for, or the reply if there is no wait.
    pub fn ask_commit(&mut self, label: Label) -> Result<u64, ReplyLine>
        ensures asked { AsksForCommit (script_of self.old) label result (script_of self.new) }
        ensures later { IsLater D.faithful D.failures (engine_of self.old) (engine_of self.new) }
    {
        let session = self.session;
        let moment = self.moment;
        match self.tx(label) {
            Ok(tx) => self.ask_for(Event::CommitAccept {
                session,
                tx,
                moment,
            }),
            Err(refusal) => Err(ReplyLine::Refused { refusal }),
        }
    }

    /// What the line `flush` asks, likewise.
    pub fn ask_flush(&mut self) -> Result<u64, ReplyLine>
        ensures asked { AsksFor (script_of self.old) Event.FlushAsk result (script_of self.new) }
        ensures later { IsLater D.faithful D.failures (engine_of self.old) (engine_of self.new) }
    {
        self.ask_for(Event::FlushAsk)
    }

    /// Asks the store one event outside the lines: nothing else of the script changes.
    pub fn step(&mut self, event: Event) -> Reply
        ensures step { Step (engine_of self.old).machine event result (engine_of self.new).machine }
        ensures rest { script_of self.new
            ≡ record (script_of self.old) { machine = (script_of self.new).machine } }
        ensures later { IsLater D.faithful D.failures (engine_of self.old) (engine_of self.new) }
    {
        self.event(event)
    }

    // asks an event whose answer is a number to wait for, or the reply
    fn ask_for(&mut self, event: Event) -> Result<u64, ReplyLine>
        ensures asked { AsksFor (script_of self.old) event result (script_of self.new) }
        ensures later { IsLater D.faithful D.failures (engine_of self.old) (engine_of self.new) }
    {
        match self.event(event) {
            Reply::Awaits { number } => Ok(number),
            answer => Err(reply_of(answer)),
        }
    }
}

impl<D: Disk + Drop> Interpreter<D> {
    /// Continues over another store, at the same moment: no label names anything, and session 0 is the current one.
    pub fn reopen(&mut self, alloc: Global, engine: Engine<D>)
        ensures script { script_of self.new
            ≡ record (script_at engine.machine) { moment = (script_of self.old).moment } }
        ensures engine { engine_of self.new ≡ engine }
    {
        self.engine = engine;
        self.session = 0;
        self.labels = Labels::new(alloc);
    }
}
