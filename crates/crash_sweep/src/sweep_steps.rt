//! A run of a script whose power is cut after each device call.
use crate::finding::{NumberRange, SweepRow, findings_per_tear};
use crate::history::TreeHistory;
use crate::sweep_error::SweepError;
use crate::table::SweepTable;
use crate::watched_disk::WatchedMemDisk;
use disk_model::Plan;
use engine::Engine;
use refusals::Refusal;
use reply_lines::{ReplyLine, Status};
use script_loop::read_history_limit;
use script_runner::{Interpreter, begin_on, is_refusal};
use script_syntax::{Label, Line, read_line};
use std::alloc::Global;
use std::io::Write;
use std::sync::Arc;
use store_driver::{frees_room, next_step, open_store};
use store_model::{Event, Reply};
use word_syntax::ParseError;

/// A run of a script, and the table of what opens after each of its device calls.
pub(crate) struct Run {
    alloc: Global,
    interpreter: Interpreter<WatchedMemDisk>,
    history: TreeHistory,
    acknowledged: u64,
    seen: u64,
    table: SweepTable,
    has_refusal: bool,
}

impl Drop for Run {
    // one drop for all that own a run, whose proofs see no more of it than this contract
    fn drop(self) {
        let Run {
            alloc: _,
            interpreter: _,
            history: _,
            acknowledged: _,
            seen: _,
            table: _,
            has_refusal: _,
        } = self;
    }
}

/// The run of the script whose first line these bytes are, or `None` if they are no such line. The calls that make its
/// store are not swept.
pub(crate) fn begun(alloc: Global, bytes: &[u8]) -> Result<Option<Run>, SweepError> {
    let plan = Arc::new(alloc, Plan::new())?;
    let Some(engine) = begin_on(alloc, bytes, plan)? else {
        return Ok(None);
    };
    // what was just made opens, except for lack of memory
    match open_store(alloc, WatchedMemDisk::new(engine.into_disk())) {
        Ok((engine, _)) => Ok(Some(Run::new(alloc, engine)?)),
        Err(_) => Err(SweepError::NoMemory),
    }
}

impl Run {
    fn new(alloc: Global, engine: Engine<WatchedMemDisk>) -> Result<Run, SweepError> {
        let history = TreeHistory::new(alloc, engine.trees())?;
        let seen = engine.disk().changes();
        Ok(Run {
            alloc,
            interpreter: Interpreter::new(alloc, engine),
            history,
            acknowledged: 0,
            seen,
            table: SweepTable::new(),
            has_refusal: false,
        })
    }

    /// Takes the line of this number, and cuts the power after each call that it makes. Answers whether the line is
    /// understood. The reply is written if the line waits for the device or is refused.
    pub(crate) fn take<W: Write>(
        &mut self,
        bytes: &[u8],
        number: u64,
        writer: &mut W,
    ) -> Result<bool, SweepError> {
        let line = match read_line(self.alloc, bytes) {
            Ok(line) => line,
            Err(ParseError::NotUnderstood) => return Ok(false),
            Err(ParseError::NoMemory) => return Err(SweepError::NoMemory),
        };
        let Some((told, waits)) = self.answer(line, writer)? else {
            return Ok(false);
        };
        if waits || is_refusal(&told) {
            self.table.write_waiting(writer)?;
            write!(writer, "line {number}: ")?;
            self.write_reply(&told, writer)?;
        }
        self.free_room(writer)?;
        Ok(true)
    }

    /// Takes the second line, which may be `history`, likewise.
    pub(crate) fn take_second<W: Write>(
        &mut self,
        bytes: &[u8],
        writer: &mut W,
    ) -> Result<bool, SweepError> {
        match read_history_limit(self.alloc, bytes)? {
            Some(limit) if self.interpreter.engine().history_len() <= limit.changes() => {
                self.interpreter.limit_history(limit);
                Ok(true)
            }
            _ => self.take(bytes, 2, writer),
        }
    }

    // the line's reply, and whether it waits for the device; `None` if the line is not one of this run
    fn answer<W: Write>(
        &mut self,
        line: Line,
        writer: &mut W,
    ) -> Result<Option<(ReplyLine, bool)>, SweepError> {
        match line {
            Line::Commit { label } => Ok(Some((self.commit(label, writer)?, true))),
            Line::Flush => Ok(Some((self.flush(writer)?, true))),
            line => match self.interpreter.answer(self.alloc, line) {
                Some(told) => {
                    self.keep(&told)?;
                    Ok(Some((told, false)))
                }
                None => Ok(None),
            },
        }
    }

    // writes a reply, and notes whether it is a refusal
    fn write_reply<W: Write>(
        &mut self,
        told: &ReplyLine,
        writer: &mut W,
    ) -> Result<(), SweepError> {
        self.has_refusal |= is_refusal(told);
        told.write(writer)?;
        Ok(())
    }

    // keeps the trees after a change that a reply reports
    fn keep(&mut self, told: &ReplyLine) -> Result<(), SweepError> {
        match told {
            ReplyLine::Created { number, .. } | ReplyLine::Accepted { number } => {
                self.keep_number(*number)
            }
            _ => Ok(()),
        }
    }

    // keeps the trees after the change of this number, which is the last one
    fn keep_number(&mut self, number: u64) -> Result<(), SweepError> {
        let trees = self.interpreter.engine().trees();
        self.history.keep(self.alloc, number, trees)?;
        Ok(())
    }

    fn commit<W: Write>(&mut self, label: Label, writer: &mut W) -> Result<ReplyLine, SweepError> {
        match self.interpreter.ask_commit(label) {
            Ok(number) => {
                self.keep_number(number)?;
                match self.wait(number, writer)? {
                    None => Ok(ReplyLine::Committed { number }),
                    Some(refusal) => Ok(ReplyLine::Refused { refusal }),
                }
            }
            Err(told) => Ok(told),
        }
    }

    fn flush<W: Write>(&mut self, writer: &mut W) -> Result<ReplyLine, SweepError> {
        match self.interpreter.ask_flush() {
            Ok(number) => match self.wait(number, writer)? {
                None => Ok(ReplyLine::Flushed { number }),
                Some(refusal) => Ok(ReplyLine::Refused { refusal }),
            },
            Err(told) => Ok(told),
        }
    }

    // makes steps of the journal until there is a receipt of this change, or the refusal that comes before that
    fn wait<W: Write>(
        &mut self,
        number: u64,
        writer: &mut W,
    ) -> Result<Option<Refusal>, SweepError> {
        for _ in 0..u64::MAX {
            // a receipt that is there before the power goes is a promise
            let receipt = self.has_receipt(number);
            self.cut(writer)?;
            match receipt {
                Ok(true) => return Ok(None),
                Ok(false) => {}
                Err(refusal) => return Ok(Some(refusal)),
            }
            if let Some(refusal) = self.step(Event::JournalStep, writer)? {
                return Ok(Some(refusal));
            }
        }
        Ok(None)
    }

    // whether there is a receipt of the change of this number, which is acknowledged by that
    fn has_receipt(&mut self, number: u64) -> Result<bool, Refusal> {
        match self.interpreter.step(Event::Acked { number }) {
            Reply::Receipt { .. } => {
                self.acknowledged = self.acknowledged.max(number);
                Ok(true)
            }
            Reply::Refused { refusal } => Err(refusal),
            _ => Ok(false),
        }
    }

    // makes a step; if it is refused the power is cut, and the refusal is answered
    fn step<W: Write>(
        &mut self,
        event: Event,
        writer: &mut W,
    ) -> Result<Option<Refusal>, SweepError> {
        match self.interpreter.step(event) {
            Reply::Refused { refusal } => {
                self.cut(writer)?;
                Ok(Some(refusal))
            }
            _ => Ok(None),
        }
    }

    // cuts the power, if a device call was made since the last cut
    fn cut<W: Write>(&mut self, writer: &mut W) -> Result<(), SweepError> {
        let disk = self.interpreter.engine().disk();
        let Some(change) = disk.last() else {
            return Ok(());
        };
        if disk.changes() == self.seen {
            return Ok(());
        }
        self.seen = disk.changes();
        let bounds = NumberRange {
            low: self.acknowledged,
            high: self.history.last(),
        };
        let found = findings_per_tear(self.alloc, disk.disk(), &self.history, bounds)?;
        let row = SweepRow {
            change,
            found,
            bounds,
        };
        self.table.add(row, writer)?;
        Ok(())
    }

    // moves all changes into the hives and frees the journal's room, if much of that is used
    fn free_room<W: Write>(&mut self, writer: &mut W) -> Result<(), SweepError> {
        if frees_room(self.interpreter.engine()) {
            self.run_until_idle(writer)?;
        }
        Ok(())
    }

    // makes each step that has something to do, until none has, or one is refused
    fn run_until_idle<W: Write>(&mut self, writer: &mut W) -> Result<Option<Refusal>, SweepError> {
        for _ in 0..u64::MAX {
            let Some(event) = next_step(self.interpreter.engine()) else {
                return Ok(None);
            };
            if let Some(refusal) = self.step(event, writer)? {
                return Ok(Some(refusal));
            }
            self.cut(writer)?;
        }
        Ok(None)
    }

    /// Ends the run after the script's last line: all changes are made durable and moved into the hives, the journal's
    /// room is freed, and the table's sum is written.
    pub(crate) fn finish<W: Write>(&mut self, writer: &mut W) -> Result<Status, SweepError> {
        let told = self.flush(writer)?;
        self.table.write_waiting(writer)?;
        writer.write_all(b"at the end: ")?;
        self.write_reply(&told, writer)?;
        if let Some(refusal) = self.run_until_idle(writer)? {
            self.table.write_waiting(writer)?;
            writer.write_all(b"behind it: ")?;
            self.write_reply(&ReplyLine::Refused { refusal }, writer)?;
        }
        self.table.write_waiting(writer)?;
        self.table.write_sum(writer)?;
        let is_clean = self.table.outside() == 0 && !self.has_refusal;
        Ok(if is_clean {
            Status::Clean
        } else {
            Status::Refused
        })
    }
}
