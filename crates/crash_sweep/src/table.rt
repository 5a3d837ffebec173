//! The table of a sweep: a row for each cut. Neighbouring rows that say the same are one row.
use crate::finding::{Finding, NumberRange, SweepRow};
use crate::watched_disk::{ChangeKind, FileChange};
use file_disk::FileName;
use std::io;
use std::io::Write;

/// How many openings there are of each cut.
const TEARS: u64 = 3;

/// A table that is being written: the rows that wait to be written as one row, and how many were added.
#[derive(Drop)]
pub(crate) struct SweepTable {
    waiting: Option<Rows>,
    cuts: u64,
    outside: u64,
}

/// Cuts after neighbouring calls that say the same.
#[derive(Clone, Copy)]
struct Rows {
    first: u64,
    last: u64,
    row: SweepRow,
}

impl SweepTable {
    /// A table without a row.
    pub(crate) fn new() -> SweepTable {
        SweepTable {
            waiting: None,
            cuts: 0,
            outside: 0,
        }
    }

    /// Adds the row of the cut after the next call. Writes the waiting rows if it says something else than they do.
    pub(crate) fn add<W: Write>(&mut self, row: SweepRow, writer: &mut W) -> io::Result<()> {
        self.cuts = self.cuts.saturating_add(1);
        for finding in &row.found.each() {
            if !finding.is_within() {
                self.outside = self.outside.saturating_add(1);
            }
        }
        let call = self.cuts;
        if let Some(rows) = &mut self.waiting {
            if rows.row == row {
                rows.last = call;
                return Ok(());
            }
        }
        self.write_waiting(writer)?;
        self.waiting = Some(Rows {
            first: call,
            last: call,
            row,
        });
        Ok(())
    }

    /// Writes the rows that wait.
    pub(crate) fn write_waiting<W: Write>(&mut self, writer: &mut W) -> io::Result<()> {
        match self.waiting.take() {
            Some(rows) => rows.write(writer),
            None => Ok(()),
        }
    }

    /// How many openings were not what they have to be.
    pub(crate) fn outside(&self) -> u64 {
        self.outside
    }

    /// Writes how many cuts and openings there were, and how many of those were not what they have to be.
    pub(crate) fn write_sum<W: Write>(&self, writer: &mut W) -> io::Result<()> {
        let openings = self.cuts.saturating_mul(TEARS);
        write!(writer, "{} cuts, {openings} openings: ", self.cuts)?;
        match self.outside {
            0 => writeln!(writer, "all within their bounds"),
            outside => writeln!(writer, "{outside} not within their bounds"),
        }
    }
}

/// Writes the line above the rows.
pub(crate) fn write_heading<W: Write>(writer: &mut W) -> io::Result<()> {
    writer.write_all(b" behind call  that did           old       new      torn  within\n")
}

impl Rows {
    fn write<W: Write>(&self, writer: &mut W) -> io::Result<()> {
        if self.first == self.last {
            write!(writer, "{:>12}", self.first)?;
        } else {
            write!(writer, "{:>5} to {:>3}", self.first, self.last)?;
        }
        write_change(writer, self.row.change)?;
        for finding in &self.row.found.each() {
            write_finding(writer, *finding)?;
        }
        let NumberRange { low, high } = self.row.bounds;
        writeln!(writer, "  {low} to {high}")
    }
}

// writes what a call did, by the name that the file has in the folder of a store; a file may be one of the hive of
// outcomes
fn write_change<W: Write>(writer: &mut W, change: FileChange) -> io::Result<()> {
    let verb = match change.kind {
        ChangeKind::Write => "write",
        ChangeKind::Cut => "cut",
        ChangeKind::Sync => "sync",
    };
    // names have as many characters as that of a hive's file, or three fewer
    let blank = if change.file == 0 { "   " } else { "" };
    let name = FileName {
        number: change.file,
    };
    write!(writer, "  {verb:<5} {name}{blank}")
}

// writes what opens; what must not open is marked
fn write_finding<W: Write>(writer: &mut W, finding: Finding) -> io::Result<()> {
    match finding {
        Finding::Within { number } => write!(writer, "  {number:>8}"),
        Finding::Outside { number } => write!(writer, "  {number:>7}!"),
        Finding::OtherTrees { number } => write!(writer, "  {number:>7}?"),
        Finding::Nothing { refusal } => write!(writer, "  {refusal}!"),
    }
}
