//! The check itself.
ghost use Rattle.std.specs.Prelude.{◌≡◌, IfOk, IfSome, OnOk, Err};
ghost use Rattle.std.specs.Io.KnownBytes.{Keeps};
ghost use Rattle.hive_check.specs.declared.check.CheckError.TheVariants.{CannotRead, Write};
ghost use Rattle.hive_check.specs.declared.finding.HiveReport.{HiveReport};
ghost use Rattle.hive_check.specs.Findings.{IsReportOf, status_of};
ghost use Rattle.hive_check.specs.ReportTexts.{PrintsReport};

use crate::block_report::is_of_log;
use crate::block_text::write_block;
use crate::finding::{HiveReport, report_of};
use crate::finding_text::write_finding;
use reply_lines::Status;
use std::alloc::Global;
use std::io::{self, Read, Write};

/// Why a check ended before its report was printed whole.
#[derive(Debug, Drop)]
pub enum CheckError {
    /// The file can't be read, or read on. Nothing was printed.
    CannotRead,
    /// A write failed.
    Write(io::Error),
}

impl From<io::Error> for CheckError {
    ghost from_gives = { λ error made. made ≡ Write error };

    fn from(error: io::Error) -> CheckError {
        CheckError::Write(error)
    }
}

/// Prints a report of a hive's primary file, read from where the reader is, and answers its status: clean exactly if the
/// report ends with `whole`. Bytes after the bins data are left unread.
///
/// The report has the base block's fields if the file is a hive by its signature; the cells if bins and cells tile the
/// bins data; the keys, values and weight if they encode a tree. If the file isn't whole, it ends with the first refusal
/// that was met, with its offset in the file and the key if it has one, and with what to do. A tree over the weight of a
/// store's is no damage: the report says that it is too large.
pub fn check_hive<R: Read, W: Write>(
    alloc: Global,
    reader: &mut R,
    writer: &mut W,
) -> Result<Status, CheckError>
    ensures reports { IfOk result (λ status. (report : HiveReport)
        × IfSome (R.remaining reader.old) (λ file. IsReportOf file report)
        × PrintsReport report (W.contents writer.old) (W.contents writer.new)
        × (status ≡ status_of report)) }
    ensures unread { result ≡ Err CannotRead → Keeps (W.contents writer.old) (W.contents writer.new) }
{
    let report = match report_of(alloc, reader) {
        Ok(report) => report,
        Err(_) => return Err(CheckError::CannotRead),
    };
    write_report(writer, &report)?;
    Ok(report.status())
}

/// Prints what is found of a hive's file, as [`check_hive`] does.
pub fn write_report<W: Write>(writer: &mut W, report: &HiveReport) -> io::Result<()>
    ensures { OnOk result (PrintsReport report.now (W.contents writer.old) (W.contents writer.new)) }
{
    write_block(writer, &report.block)?;
    write_finding(writer, is_of_log(&report.block), &report.finding)?;
    writer.flush()
}
