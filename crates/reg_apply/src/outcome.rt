//! How the application of a file ended.
ghost use Rattle.std.specs.Prelude.{◌≡◌, None, OnOk, IfOk, Some};
ghost use Rattle.std.specs.Io.KnownBytes.{Appends};
ghost use Rattle.reg_apply.specs.Applied.{PrintsApplication};
ghost use Rattle.reg_apply.specs.Outcomes.{outcome_line, outcome_status, outcome_text};
ghost use Rattle.reg_apply.specs.Checks.{is_refusal};

use refusals::Refusal;
use reg_file::{Fault, FaultKind};
use reply_lines::Status;
use std::fmt;
use std::io::{self, Write};

/// How it ended. Its text is the line that is printed.
#[derive(Clone, Copy, Debug, PartialEq, Eq)]
pub enum ApplyOutcome {
    /// The change of this number has all that the file asks for, and is durable. The number is 0 if the file asks for
    /// nothing that isn't so already.
    Applied {
        /// The change's number.
        number: u64,
    },
    /// The file is none, or has a line that is no statement.
    BadFile {
        /// What is wrong, and where.
        fault: Fault,
    },
    /// The path of a statement lies in no hive of the store.
    NoHive {
        /// The number of the statement's first line.
        line: u64,
    },
    /// A statement was refused.
    Denied {
        /// The number of the statement's first line.
        line: u64,
        /// Why.
        refusal: Refusal,
    },
    /// The store wasn't opened, or the commit was refused.
    Refused {
        /// Why.
        refusal: Refusal,
    },
}

impl ApplyOutcome {
    /// The status with which a command ends that printed this.
    pub fn status(&self) -> Status
        ensures { result ≡ outcome_status self.now }
    {
        match self {
            ApplyOutcome::Applied { .. } => Status::Clean,
            ApplyOutcome::BadFile { fault } => match fault.kind {
                FaultKind::TooLarge => Status::Refused,
                _ => Status::Wrong,
            },
            ApplyOutcome::NoHive { .. } => Status::Wrong,
            ApplyOutcome::Denied { .. } | ApplyOutcome::Refused { .. } => Status::Refused,
        }
    }

    /// Whether that is the status of a refusal.
    pub(crate) fn is_refusal(&self) -> bool
        ensures { result ≡ is_refusal self.now }
    {
        matches!(self.status(), Status::Refused)
    }

    /// Writes it in a line.
    pub(crate) fn write_line<W: Write>(&self, writer: &mut W) -> io::Result<()>
        ensures { OnOk result (Appends (W.contents writer.old) (W.contents writer.new)
            (outcome_line self.now)) }
    {
        writeln!(writer, "{self}")
    }

    /// Writes it in a line, with which all is written; answers the status.
    pub(crate) fn print<W: Write>(&self, writer: &mut W) -> io::Result<Status>
        ensures { IfOk result (PrintsApplication (W.contents writer.old) (W.contents writer.new)
            self.now None) }
    {
        self.write_line(writer)?;
        writer.flush()?;
        Ok(self.status())
    }
}

impl fmt::Display for ApplyOutcome {
    ghost output = { λ outcome. Some (outcome_text outcome) };

    fn fmt<W: fmt::Write>(&self, f: &mut fmt::Formatter<W>) -> fmt::Result {
        match self {
            ApplyOutcome::Applied { number } => write!(f, "applied {number}"),
            ApplyOutcome::BadFile { fault } => write!(f, "{fault}"),
            ApplyOutcome::NoHive { line } => write!(f, "line {line}: no hive"),
            ApplyOutcome::Denied { line, refusal } => write!(f, "line {line}: {refusal}"),
            ApplyOutcome::Refused { refusal } => write!(f, "{refusal}"),
        }
    }
}
