//! A reader that reports how much of it was read.
ghost use Rattle.std.specs.Prelude.{◌≡◌};

use crate::line::ProgressLine;
use crate::work_stage::WorkStage;
use std::io::{self, Eprint, Read};
use std::time::Clock;

/// A reader that reports to a line, if there is one, the bytes that were read from it. It gives what the reader within
/// gives.
#[derive(Drop)]
pub struct WatchedReader<'a, T, R> {
    reader: T,
    line: Option<&'a ProgressLine<'a, R>>,
    // what begins when it is first read, if it is a stage of its own
    work_stage: Option<WorkStage>,
}

impl<'a, T: Read + Drop, R: Eprint + Clock> WatchedReader<'a, T, R> {
    /// Reports what is read from here on, if there is a line: it gives what the reader would give. The stage, if there
    /// is one, begins when it is first read; otherwise it reports to the line's stage.
    pub fn new(
        reader: T,
        line: Option<&'a ProgressLine<'a, R>>,
        work_stage: Option<WorkStage>,
    ) -> WatchedReader<'a, T, R>
        ensures { ⟦<WatchedReader<'a, T, R> as Read>⟧.remaining result ≡ T.remaining reader }
    {
        WatchedReader {
            reader,
            line,
            work_stage,
        }
    }

    // begins the stage, if it has not begun
    fn begin(&mut self)
        ensures { self.new.reader ≡ self.old.reader }
    {
        if let (Some(line), Some(work_stage)) = (self.line, self.work_stage.take()) {
            line.begin(work_stage);
        }
    }

    // reports that `count` more bytes were read
    fn count(&self, count: usize) {
        if let Some(line) = self.line {
            line.advance(count as u64);
        }
    }
}

impl<'a, T: Read + Drop, R: Eprint + Clock> Read for WatchedReader<'a, T, R> {
    ghost remaining = { λ watched_reader. T.remaining watched_reader.reader };

    fn read(&mut self, buf: &mut [u8]) -> io::Result<usize> {
        self.begin();
        let count = self.reader.read(buf)?;
        self.count(count);
        Ok(count)
    }
}
