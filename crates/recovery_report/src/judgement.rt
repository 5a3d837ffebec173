//! The file that a recovery makes, and what is found of it.
ghost use Rattle.std.specs.Prelude.{◌≡◌, option_map};
ghost use Rattle.hive_check.specs.Findings.{IsReportOf};
ghost use Rattle.recovery_report.specs.Outcomes.{HasNumber, IsFileOf, IsOutcomeOfBytes, file_for, status_for, verdict_of};

use base_block::SequenceNumber;
use hive_check::{Finding, HiveReport, report_of};
use hive_walk::ImageError;
use refusals::Refusal;
use reply_lines::Status;
use std::alloc::Global;

/// The file that a recovery makes. It is clean.
#[derive(Drop)]
pub struct RecoveredFile {
    /// All its bytes.
    pub bytes: Vec<u8>,
    /// Both its sequence numbers.
    pub number: SequenceNumber,
    /// Whether nothing was applied, since the hive was closed. These are then its bytes without what followed the bins data.
    pub was_clean: bool,
    /// What a check finds of it.
    pub report: HiveReport,
}

/// What comes of a recovery.
#[derive(Drop)]
pub enum RecoveryOutcome {
    /// A file that holds a tree of any weight.
    Whole(RecoveredFile),
    /// A file that holds none, for what is found of it.
    NotWhole(RecoveredFile),
    /// No file, for this reason.
    Refused(Refusal),
}

/// Whether the result of a recovery has to be a whole hive.
#[derive(Clone, Copy, PartialEq, Eq)]
pub enum Wholeness {
    /// It has to be.
    Demanded,
    /// It may hold no tree.
    Waived,
}

impl RecoveryOutcome {
    /// The file that is to be made, if there is one.
    pub fn file(&self, wholeness: Wholeness) -> Option<&RecoveredFile>
        ensures { option_map (λ file. file.now) result ≡ file_for wholeness self.now }
    {
        match (self, wholeness) {
            (RecoveryOutcome::Whole(file), _) => Some(file),
            (RecoveryOutcome::NotWhole(file), Wholeness::Waived) => Some(file),
            (RecoveryOutcome::NotWhole(_), Wholeness::Demanded)
            | (RecoveryOutcome::Refused(_), _) => None,
        }
    }

    /// The status of a check: whether the result is a hive of a tree within the limits.
    pub fn status(&self) -> Status
        ensures { result ≡ status_for self.now }
    {
        match self {
            RecoveryOutcome::Whole(file) | RecoveryOutcome::NotWhole(file) => file.report.status(),
            RecoveryOutcome::Refused(_) => Status::Refused,
        }
    }
}

/// What a finding says of a file.
#[derive(Clone, Copy)]
pub(crate) enum Verdict {
    /// It holds a tree.
    Whole,
    /// It holds none.
    NotWhole,
    /// Memory was wanting.
    NotKnown,
}

/// What comes of recovered bytes of a clean file with this number, which are those of the hive as it was if nothing was applied.
pub(crate) fn judged(
    alloc: Global,
    bytes: Vec<u8>,
    number: SequenceNumber,
    was_clean: bool,
) -> RecoveryOutcome
    requires { HasNumber bytes.items number }
    ensures { IsOutcomeOfBytes bytes.items was_clean result }
{
    let report = match report_of(alloc, &mut bytes.as_slice()) {
        Ok(report) => report,
        Err(_) => return RecoveryOutcome::Refused(Refusal::NoMemory),
    };
    let verdict = verdict_on(&report.finding);
    let file = RecoveredFile {
        bytes,
        number,
        was_clean,
        report,
    };
    match verdict {
        Verdict::Whole => RecoveryOutcome::Whole(file),
        Verdict::NotWhole => RecoveryOutcome::NotWhole(file),
        Verdict::NotKnown => RecoveryOutcome::Refused(Refusal::NoMemory),
    }
}

// what a finding says of a file
fn verdict_on(finding: &Finding) -> Verdict
    ensures { result ≡ verdict_of finding.now }
{
    match finding {
        Finding::Walked(..) => Verdict::Whole,
        Finding::Refused(Refusal::NoMemory) | Finding::Unwalked(_, ImageError::NoMemory) => {
            Verdict::NotKnown
        }
        Finding::Refused(_) | Finding::Untiled(_) | Finding::Unwalked(_, ImageError::Fault(_)) => {
            Verdict::NotWhole
        }
    }
}
