//! The lines of a recovery's report.
ghost use Rattle.std.specs.Prelude.{◌≡◌, ◌+◌, ◌<◌, ◌^◌, length, OnOk};
ghost use Rattle.std.specs.Io.KnownBytes.{Appends};
ghost use Rattle.recovery_report.specs.ReportTexts.{state_text, version_text, numbers_text, whole_line, block_line, entries_text, missing_text, log_line, log_lines, log_text, run_line, run_lines, pages_line, steps_text, ending_text, file_text, not_whole_text, all_the_same_text, is_log_file, PrintsResult};

use crate::judgement::{RecoveredFile, RecoveryOutcome, Wholeness};
use crate::outcome::PagesRun;
use crate::report::{LogReport, PagesReport, Recovery};
use base_block::{BaseBlock, SequenceNumber, Signature};
use hive_check::{is_log, write_reason, write_report, write_unread};
use hive_recovery::{EntryNumbers, LogEnding, LogRun};
use std::io::{self, Write};

/// Writes all lines of a recovery but the last: the base block, each log, and each run of entries that was applied.
pub fn write_steps<W: Write>(writer: &mut W, found: &Recovery) -> io::Result<()>
    ensures { OnOk result (Appends (W.contents writer.old) (W.contents writer.new) (steps_text found.now)) }
{
    write_block(writer, &found.block)?;
    write_logs(writer, 1, &found.logs)?;
    write_runs(writer, &found.runs)?;
    write_pages(writer, found.pages)
}

/// Writes the last line: what came of a recovery. If a file is made that isn't whole, the line before says why it isn't.
pub fn write_ending<W: Write>(
    writer: &mut W,
    wholeness: Wholeness,
    outcome: &RecoveryOutcome,
) -> io::Result<()>
    ensures { OnOk result (Appends (W.contents writer.old) (W.contents writer.new) (ending_text wholeness outcome.now)) }
{
    match outcome {
        RecoveryOutcome::Whole(file) => {
            write_file(writer, file.was_clean, file.number)?;
            writer.write_all(b"\n")
        }
        RecoveryOutcome::NotWhole(file) => write_not_whole(writer, wholeness, file),
        RecoveryOutcome::Refused(why) => writeln!(writer, "{why}"),
    }
}

/// Writes what a check prints of the result: its report; or why there is none, and what to do.
pub fn write_result<W: Write>(writer: &mut W, found: &Recovery) -> io::Result<()>
    ensures { OnOk result (PrintsResult found.now.block found.now.outcome (W.contents writer.old) (W.contents writer.new)) }
{
    match &found.outcome {
        RecoveryOutcome::Whole(file) => write_report(writer, &file.report),
        RecoveryOutcome::NotWhole(file) => write_report(writer, &file.report),
        RecoveryOutcome::Refused(why) => write_unread(writer, is_log_file(&found.block), *why),
    }
}

// whether a file is a log by its base block
fn is_log_file(block: &Option<BaseBlock>) -> bool
    ensures { result ≡ is_log_file block.now }
{
    match block {
        Some(block) => block.signature == Signature::REGF && block.sum_is_right && is_log(block),
        None => false,
    }
}

// what was made, and its number
fn write_file<W: Write>(writer: &mut W, was_clean: bool, number: SequenceNumber) -> io::Result<()>
    ensures { OnOk result (Appends (W.contents writer.old) (W.contents writer.new) (file_text was_clean number.0)) }
{
    let number = number.0;
    if was_clean {
        write!(writer, "clean {number}")
    } else {
        write!(writer, "recovered {number}")
    }
}

// why a file isn't whole; and what was made, if it needn't be
fn write_not_whole<W: Write>(
    writer: &mut W,
    wholeness: Wholeness,
    file: &RecoveredFile,
) -> io::Result<()>
    ensures { OnOk result (Appends (W.contents writer.old) (W.contents writer.new) (not_whole_text wholeness file.now)) }
{
    write_reason(writer, &file.report.finding)?;
    match wholeness {
        Wholeness::Demanded => writer.write_all(b"\n"),
        Wholeness::Waived => write_all_the_same(writer, file.was_clean, file.number),
    }
}

// the end of a line, and what was made though it isn't whole
fn write_all_the_same<W: Write>(
    writer: &mut W,
    was_clean: bool,
    number: SequenceNumber,
) -> io::Result<()>
    ensures { OnOk result (Appends (W.contents writer.old) (W.contents writer.new) (all_the_same_text was_clean number.0)) }
{
    writer.write_all(b"\n")?;
    write_file(writer, was_clean, number)?;
    writer.write_all(b", not whole\n")
}

// the base block, if there is one
fn write_block<W: Write>(writer: &mut W, block: &Option<BaseBlock>) -> io::Result<()>
    ensures { OnOk result (Appends (W.contents writer.old) (W.contents writer.new) (block_line block.now)) }
{
    match block {
        Some(block) if block.signature != Signature::REGF => {
            writer.write_all(b"torn base block: letters\n")
        }
        Some(block) if !block.sum_is_right => writer.write_all(b"torn base block: sum\n"),
        Some(block) => write_whole(writer, block),
        None => Ok(()),
    }
}

// a base block that isn't torn
fn write_whole<W: Write>(writer: &mut W, block: &BaseBlock) -> io::Result<()>
    ensures { OnOk result (Appends (W.contents writer.old) (W.contents writer.new) (whole_line block.now)) }
{
    write_version(writer, block.major, block.minor)?;
    write_numbers(writer, block.primary, block.secondary)?;
    write_state(writer, block.is_clean())
}

fn write_version<W: Write>(writer: &mut W, major: u32, minor: u32) -> io::Result<()>
    ensures { OnOk result (Appends (W.contents writer.old) (W.contents writer.new) (version_text major minor)) }
{
    write!(writer, "hive {major}.{minor}")
}

fn write_numbers<W: Write>(
    writer: &mut W,
    primary: SequenceNumber,
    secondary: SequenceNumber,
) -> io::Result<()>
    ensures { OnOk result (Appends (W.contents writer.old) (W.contents writer.new) (numbers_text primary.0 secondary.0)) }
{
    let primary = primary.0;
    let secondary = secondary.0;
    write!(writer, ", numbers {primary} and {secondary}")
}

fn write_state<W: Write>(writer: &mut W, is_clean: bool) -> io::Result<()>
    ensures { OnOk result (Appends (W.contents writer.old) (W.contents writer.new) (state_text is_clean)) }
{
    if is_clean {
        writer.write_all(b", clean\n")
    } else {
        writer.write_all(b", not clean\n")
    }
}

// logs, which are numbered from one on
fn write_logs<W: Write>(writer: &mut W, number: usize, logs: &[LogReport]) -> io::Result<()>
    requires { number + length logs.now < 2 ^ 64 }
    ensures { OnOk result (Appends (W.contents writer.old) (W.contents writer.new) (log_lines number logs.now)) }
{
    match logs.split_first() {
        None => Ok(()),
        Some((log, rest)) => {
            write_log(writer, number, log)?;
            write_logs(writer, number + 1, rest)
        }
    }
}

// a log of a number
fn write_log<W: Write>(writer: &mut W, number: usize, log: &LogReport) -> io::Result<()>
    ensures { OnOk result (Appends (W.contents writer.old) (W.contents writer.new) (log_line number log.now)) }
{
    write!(writer, "log {number}: ")?;
    write_entries(writer, log.numbers)?;
    write_log_end(writer, log.pages, log.ending)?;
    write_missing(writer, log.missing)
}

// how a log ended, or what it is as one of pages
fn write_log_end<W: Write>(writer: &mut W, pages: PagesReport, ending: LogEnding) -> io::Result<()>
    ensures { OnOk result (Appends (W.contents writer.old) (W.contents writer.new) (log_text pages ending)) }
{
    match pages {
        PagesReport::Other => write!(writer, "{ending}"),
        PagesReport::Faulty(why) => write!(writer, "{why}"),
        PagesReport::Whole(count) => write!(writer, "{count} pages"),
    }
}

fn write_entries<W: Write>(writer: &mut W, numbers: Option<EntryNumbers>) -> io::Result<()>
    ensures { OnOk result (Appends (W.contents writer.old) (W.contents writer.new) (entries_text numbers)) }
{
    match numbers {
        Some(numbers) => {
            let first = numbers.first.0;
            let last = numbers.last.0;
            write!(writer, "entries {first} to {last}, then ")
        }
        None => Ok(()),
    }
}

fn write_missing<W: Write>(writer: &mut W, missing: Option<SequenceNumber>) -> io::Result<()>
    ensures { OnOk result (Appends (W.contents writer.old) (W.contents writer.new) (missing_text missing)) }
{
    match missing {
        Some(number) => {
            let number = number.0;
            writeln!(writer, ", {number} is missing")
        }
        None => writer.write_all(b"\n"),
    }
}

// runs that were applied
fn write_runs<W: Write>(writer: &mut W, runs: &[LogRun]) -> io::Result<()>
    ensures { OnOk result (Appends (W.contents writer.old) (W.contents writer.new) (run_lines runs.now)) }
{
    match runs.split_first() {
        None => Ok(()),
        Some((run, rest)) => {
            write_run(writer, run)?;
            write_runs(writer, rest)
        }
    }
}

fn write_run<W: Write>(writer: &mut W, run: &LogRun) -> io::Result<()>
    ensures { OnOk result (Appends (W.contents writer.old) (W.contents writer.new) (run_line run.now)) }
{
    let first = run.first.0;
    let last = run.last.0;
    write!(writer, "applied {first} to {last}")?;
    let log = run.log;
    writeln!(writer, " of log {log}")
}

// the pages that were applied, if any were
fn write_pages<W: Write>(writer: &mut W, pages: Option<PagesRun>) -> io::Result<()>
    ensures { OnOk result (Appends (W.contents writer.old) (W.contents writer.new) (pages_line pages)) }
{
    match pages {
        Some(run) => {
            let count = run.count;
            write!(writer, "applied {count} pages")?;
            let number = run.number.0;
            writeln!(writer, " of number {number}")
        }
        None => Ok(()),
    }
}
