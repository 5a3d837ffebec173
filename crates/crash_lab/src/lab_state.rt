//! A script in a laboratory, between two lines.
ghost use Rattle.std.specs.Prelude.{◌≡◌, ◌↔◌, true, Some, None, MatchOption, IfOk, IfSome, IfNone, OnErr};
ghost use Rattle.script_syntax.specs.declared.line.Line.{Line as AnyLine};
ghost use Rattle.script_runner.specs.Interpreters.{script_of};
ghost use Rattle.store_model.specs.Machine.{trees_now};
ghost use Rattle.crash_lab.specs.Devices.{GoesAsAsked};
ghost use Rattle.crash_lab.specs.LabStates.{lab_state_of};
ghost use Rattle.crash_lab.specs.Experiments.{Answered, AnswersLine, Crashes, Experiments, IsFlushedWhole, following_line, line_asked, tear_of};

use crate::device::{Device, has_just_begun};
use crate::power_loss::{Reopened, open_after_crash};
use crate::reply::LabReply;
use disk_model::{CallCounts, MemDisk, Tear};
use reg_tree::Trees;
use reply_lines::ReplyLine;
use script_loop::{Answerer, HistoryLimit, LineTurn, ScriptedStore};
use script_runner::{Interpreter, begin_on};
use script_syntax::{CrashTear, LabLine, Line, read_line};
use std::alloc::{AllocError, Global};
use std::convert::Infallible;
use std::io;
use std::io::{ErrorKind, Write};
use store_model::Event;
use word_syntax::ParseError;

/// A script over a disk in memory, and that disk's device.
pub(crate) struct Laboratory {
    alloc: Global,
    interpreter: Interpreter<MemDisk>,
    // of this store's history, and of those that are opened after it
    limit: HistoryLimit,
    device: Device,
}

impl Drop for Laboratory {
    // one drop for all that own a laboratory, whose proofs see no more of it than this contract
    fn drop(self) {
        let Laboratory {
            alloc: _,
            interpreter: _,
            limit: _,
            device: _,
        } = self;
    }
}

impl ScriptedStore for Laboratory {
    ghost use Rattle.crash_lab.specs.LabStates.{lab_state_of, IsLimited, IsNew};

    ghost is_made = { λ hives laboratory. IsNew hives (lab_state_of laboratory) };

    ghost is_limited = { λ limit old new. IsLimited limit (lab_state_of old) (lab_state_of new) };

    fn begin(alloc: Global, line: &[u8]) -> Result<Option<Laboratory>, AllocError> {
        let device = Device::new(alloc)?;
        match begin_on(alloc, line, device.plan()?)? {
            Some(engine) => {
                if !has_just_begun(engine.disk()) {
                    return Err(AllocError);
                }
                engine.keeps_a_prefix(); // for the prover
                let interpreter = Interpreter::new(alloc, engine);
                Ok(Some(Laboratory {
                    alloc,
                    interpreter,
                    limit: HistoryLimit::most(),
                    device,
                }))
            }
            None => Ok(None),
        }
    }

    // also after a loss of power
    fn limit_history(&mut self, limit: HistoryLimit) {
        self.interpreter.limit_history(limit);
        self.limit = limit;
        self.interpreter.engine().keeps_a_prefix(); // for the prover
    }
}

impl Answerer<Global> for Laboratory {
    type Stop = Infallible;

    ghost use Rattle.std.specs.Prelude.{◌≡◌, ⊤, None};
    ghost use Rattle.crash_lab.specs.Experiments.{line_asked};
    ghost use Rattle.crash_lab.specs.LabStates.{lab_state_of};
    ghost use Rattle.crash_lab.specs.Runs.{TriesLine};

    ghost answers = { λ old line text refused new. TriesLine (lab_state_of old) line text refused (lab_state_of new) };

    ghost stops = { λ old line text refused why new. ⊥ };

    ghost is_none = { λ line. line_asked line ≡ None };

    ghost unanswered = { λ old new. ⊤ };

    fn answer<W: Write>(
        &mut self,
        _alloc: &Global,
        line: &[u8],
        writer: &mut W,
    ) -> io::Result<LineTurn<Infallible>> {
        let counted = self.counts();
        self.device.begin_line();
        match self.reply_to(line) {
            Ok(Some(reported)) => {
                if !self.has_gone_as_asked(counted, &reported) {
                    // no run comes here: the disk takes what its plan has as soon as the line begins
                    return Err(io::Error::from(ErrorKind::Other));
                }
                reported.write(self.hives(), self.trees(), writer)?;
                let is_refusal = reported.is_refusal();
                Ok(LineTurn::Replied { is_refusal })
            }
            Ok(None) => Ok(LineTurn::NotUnderstood),
            Err(AllocError) => Ok(LineTurn::NoMemory),
        }
    }
}

impl Laboratory {
    // the trees after all accepted changes, also those of hives that calls don't name
    fn trees(&self) -> &Trees
        ensures { result.now ≡ trees_now (lab_state_of self.now).script.machine }
    {
        self.interpreter.engine().trees()
    }

    // how many hives calls name
    fn hives(&self) -> usize
        ensures { result ≡ (lab_state_of self.now).script.machine.bounds.hives }
    {
        usize::from(self.interpreter.engine().hives())
    }

    // how many calls of the disk there were
    fn counts(&self) -> CallCounts
        ensures { result ≡ (lab_state_of self.now).counts }
    {
        self.interpreter.engine().disk().counts()
    }

    // Whether the device did at the line what was asked of it, if so many calls were counted before. The engine's
    // contract forgets which plan its disk has and which calls it makes, so they are looked at.
    fn has_gone_as_asked(&self, before: CallCounts, reported: &LabReply) -> bool
        ensures { result ≡ true → GoesAsAsked (lab_state_of self.now).points before reported.now
            (lab_state_of self.now).counts }
    {
        let disk = self.interpreter.engine().disk();
        if reported.tells_of_device() && disk.counts().failures == 0 {
            return false;
        }
        disk.has_gone(self.device.points(), reported.counts_before(before))
    }

    // answers a further line of the script, or `None` if the bytes are no such line. Memory is refused only for reading
    // the line, before anything is asked
    fn reply_to(&mut self, bytes: &[u8]) -> Result<Option<LabReply>, AllocError>
        ensures none { IfOk result (λ made. IfNone made (line_asked bytes.now ≡ None)) }
        ensures some { IfOk result (λ made. IfSome made (λ reported. (asked : AnyLine)
            × (line_asked bytes.now ≡ Some asked)
            × Answered (lab_state_of self.old) asked reported (lab_state_of self.new))) }
    {
        match read_line(self.alloc, bytes) {
            Ok(line) => Ok(self.answer(line)),
            Err(ParseError::NotUnderstood) => Ok(None),
            Err(ParseError::NoMemory) => Err(AllocError),
        }
    }

    // answers a line, or `None` if it is `hives`, `history` or one of served sessions; what a loss of power would leave then is known
    fn answer(&mut self, line: Line) -> Option<LabReply>
        ensures { MatchOption result (following_line (Some line) ≡ None)
            (λ reported. (following_line (Some line) ≡ Some line)
            × Answered (lab_state_of self.old) line reported (lab_state_of self.new)) }
    {
        let reported = self.reply(line);
        self.interpreter.engine().keeps_a_prefix();
        reported
    }

    // the reply to a line, or `None` if it is `hives`, `history` or one of served sessions
    fn reply(&mut self, line: Line) -> Option<LabReply>
        ensures { MatchOption result (following_line (Some line) ≡ None)
            (λ reported. (following_line (Some line) ≡ Some line)
            × AnswersLine (lab_state_of self.old) line reported (lab_state_of self.new)) }
    {
        match line {
            Line::Lab { line } => Some(self.experiment(line)),
            line => match self.interpreter.answer(self.alloc, line) {
                Some(reported) => Some(LabReply::OneLine { reported }),
                None => None,
            },
        }
    }

    // the reply to a line that only a laboratory takes
    fn experiment(&mut self, line: LabLine) -> LabReply
        ensures { Experiments (lab_state_of self.old) line result (lab_state_of self.new) }
    {
        match line {
            LabLine::Accept { label } => reported(self.interpreter.accept(label)),
            LabLine::JournalStep => reported(self.interpreter.ask(Event::JournalStep)),
            LabLine::FlusherStep { hive } => reported(
                self.interpreter.ask(Event::FlusherStep { hive }),
            ),
            LabLine::TrimStep => reported(self.interpreter.ask(Event::TrimStep)),
            LabLine::FlushWhole { hive } => reported(self.flush_whole(hive)),
            LabLine::StopAt { call } => {
                let counted = self.counts();
                self.device.stop_at(counted, call);
                reported(ReplyLine::Done)
            }
            LabLine::FailAt { call } => {
                let counted = self.counts();
                self.device.fail_at(counted, call);
                reported(ReplyLine::Done)
            }
            LabLine::Crash { tear } => self.crash(tear_of(tear)),
        }
    }

    // makes steps of a hive's flush until one is not answered with `more`
    fn flush_whole(&mut self, hive: u8) -> ReplyLine
        ensures reported { IsFlushedWhole (script_of self.old.interpreter) hive result
            (script_of self.new.interpreter) }
        ensures device { self.new.device ≡ self.old.device }
        ensures limit { self.new.limit ≡ self.old.limit }
    {
        for _made in 0..u64::MAX {
            let reported = self.interpreter.ask(Event::FlusherStep { hive });
            if !is_more(&reported) {
                return reported;
            }
        }
        // no flush has so many steps
        ReplyLine::StepMore
    }

    // the power goes, and what is left is opened; if that is refused, nothing has changed
    fn crash(&mut self, tear: Tear) -> LabReply
        ensures { Crashes tear (lab_state_of self.old) result (lab_state_of self.new) }
    {
        match open_after_crash(
            self.alloc,
            self.interpreter.engine().disk(),
            tear,
            self.limit,
        ) {
            Ok(
                Reopened {
                    engine,
                    number,
                    device,
                },
            ) => {
                self.interpreter.reopen(self.alloc, engine);
                self.device = device;
                LabReply::Opened { number }
            }
            Err(refusal) => reported(ReplyLine::Refused { refusal }),
        }
    }
}

// whether the reply to a step is `more`
fn is_more(reported: &ReplyLine) -> bool
    ensures { (result ≡ true) ↔ (reported.now ≡ ReplyLine.StepMore) }
{
    matches!(reported, ReplyLine::StepMore)
}

fn reported(reported: ReplyLine) -> LabReply
    ensures { result ≡ LabReply.OneLine reported }
{
    LabReply::OneLine { reported }
}

fn tear_of(tear: CrashTear) -> Tear
    ensures { result ≡ tear_of tear }
{
    match tear {
        CrashTear::Old => Tear::Old,
        CrashTear::New => Tear::New,
        CrashTear::Torn => Tear::Torn,
    }
}
