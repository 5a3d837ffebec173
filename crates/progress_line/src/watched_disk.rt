//! A disk that reports how much was moved from it or to it.
ghost use Rattle.std.specs.Prelude.{◌≡◌, ℕ};

use crate::line::ProgressLine;
use disk_model::{Disk, Failed};
use std::io::Eprint;
use std::time::Clock;

/// The bytes that a line shows.
#[derive(Clone, Copy, Debug, PartialEq, Eq)]
pub enum Moved {
    /// Those that are read.
    Read,
    /// Those that are written.
    Written,
}

/// A disk that reports to a line, if there is one, the bytes that were read from it or written to it. Otherwise it is
/// the disk within.
#[derive(Drop)]
pub struct WatchedDisk<'a, D, R> {
    disk: D,
    moved: Moved,
    line: Option<&'a ProgressLine<'a, R>>,
}

impl<'a, D: Disk + Drop, R: Eprint + Clock> WatchedDisk<'a, D, R> {
    /// Reports these bytes from here on, if there is a line.
    pub fn new(
        disk: D,
        moved: Moved,
        line: Option<&'a ProgressLine<'a, R>>,
    ) -> WatchedDisk<'a, D, R>
        ensures states { (k f : ℕ) →
            ⟦<WatchedDisk<'a, D, R> as Disk>⟧.state_at result k f ≡ D.state_at disk k f }
        ensures clock { ⟦<WatchedDisk<'a, D, R> as Disk>⟧.clock result ≡ D.clock disk }
        ensures failures { ⟦<WatchedDisk<'a, D, R> as Disk>⟧.failures result ≡ D.failures disk }
        ensures faithful { ⟦<WatchedDisk<'a, D, R> as Disk>⟧.faithful result → D.faithful disk }
        ensures allowed { D.faithful disk → ⟦<WatchedDisk<'a, D, R> as Disk>⟧.faithful result }
    {
        WatchedDisk { disk, moved, line }
    }

    /// The disk within.
    pub fn into_disk(self) -> D
        ensures { result ≡ self.entry.disk }
    {
        self.disk
    }

    // reports that `count` bytes were moved so
    fn count(&self, moved: Moved, count: usize) {
        if let Some(line) = self.line {
            if moved == self.moved {
                line.advance(count as u64);
            }
        }
    }
}

impl<'a, D: Disk + Drop, R: Eprint + Clock> Disk for WatchedDisk<'a, D, R> {
    ghost state_at = { λ w. D.state_at w.disk };

    ghost clock = { λ w. D.clock w.disk };

    ghost failures = { λ w. D.failures w.disk };

    ghost faithful = { λ w. D.faithful w.disk };

    ghost sound = { λ w k f faithful within. D.sound w.disk k f faithful within };

    fn len(&mut self, file: u32) -> Result<u64, Failed> {
        self.disk.len(file)
    }

    fn read(&mut self, file: u32, offset: u64, buffer: &mut [u8]) -> Result<usize, Failed> {
        let count = self.disk.read(file, offset, buffer)?;
        self.count(Moved::Read, count);
        Ok(count)
    }

    fn write_at(&mut self, file: u32, offset: u64, bytes: &[u8]) -> Result<(), Failed> {
        self.disk.write_at(file, offset, bytes)?;
        self.count(Moved::Written, bytes.len());
        Ok(())
    }

    fn cut(&mut self, file: u32, len: u64) -> Result<(), Failed> {
        self.disk.cut(file, len)
    }

    fn sync(&mut self, file: u32) -> Result<(), Failed> {
        self.disk.sync(file)
    }
}
