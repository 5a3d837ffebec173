//! What the word `recover` does, and those beside it: a hive's file and its logs are read, and the recovered hive's file is made.
//!
//! `recovery_report` recovers, over bytes in memory. Nothing is written but the new file.
use crate::command_error::CommandError;
use crate::ending::Ending;
use crate::files::{Source, Trouble, last_error};
use crate::hint::Hint;
use crate::input_file::opened;
use crate::made_file::make_file;
use crate::tasks::RecoveryTask;
use crate::terminal::TerminalOutput;
use hive_recovery::{RecoveryLimits, read_log};
use recovery_report::{
    Recovery, RecoveryOutcome, Wholeness, recover, write_ending, write_result, write_steps,
};
use refusals::Refusal;
use refusals::limits::MOST_BINS_BYTES;
use reply_lines::Status;
use std::alloc::Global;
use std::fs::File;
use std::io::{self, BufWriter, Eprint, Input, Read, Write};
use std::rt::Files;

/// The most logs of a hive.
pub const MOST_LOGS: usize = 8;

/// The bytes of a hive's file up to the end of the largest bins data. None of what follows is part of a hive.
pub const MOST_FILE_BYTES: usize = 4_096 + MOST_BINS_BYTES;

/// The most bytes of a log: twice those of the largest bins data.
const MOST_LOG_BYTES: usize = 2 * MOST_BINS_BYTES;

/// Recovers the hive in a file by 1 to 8 logs. The last path is that of the new file, which may not be there.
pub fn recover_hive<'a, R: Files<File = File> + Input + Print + Eprint + AllocGlobal>(
    rt: &R,
    output: TerminalOutput,
    asked: &RecoveryTask<'a>,
) -> Result<Ending, CommandError<'a>> {
    let Some((out, logs)) = asked.paths.split_last() else {
        return Err(CommandError::WrongWords);
    };
    let found = recovery_of(rt, asked.hive, logs, asked.limits)?;
    let mut writer = BufWriter::new(rt.alloc(), io::writer(rt))?;
    if let Err(error) = write_steps(&mut writer, &found) {
        return Ok(Ending::Replied(output.status(rt, Err(error))));
    }
    // if that fails, the writer keeps the lines, and its last flush tells whether they were written
    let _ = writer.flush();
    let ending = finish(rt, rt.alloc(), &found.outcome, asked.wholeness, *out)?;
    let ended = write_ending(&mut writer, asked.wholeness, &found.outcome);
    match ended.and_then(|_| writer.flush()) {
        Ok(()) => Ok(ending),
        Err(error) => Ok(Ending::Replied(output.status(rt, Err(error)))),
    }
}

// makes the new file, if there is one
fn finish<'a, R: Files<File = File>>(
    rt: &R,
    alloc: Global,
    outcome: &RecoveryOutcome,
    wholeness: Wholeness,
    out: &'a str,
) -> Result<Ending, CommandError<'a>> {
    match outcome.file(wholeness) {
        Some(file) => {
            make_file(rt, alloc, out, &file.bytes)?;
            Ok(ending_of(outcome))
        }
        None => Ok(Ending::Replied(Status::Refused)),
    }
}

// how the program ends if the new file is there
fn ending_of(outcome: &RecoveryOutcome) -> Ending {
    match outcome {
        RecoveryOutcome::NotWhole(_) => Ending::NotWhole,
        RecoveryOutcome::Whole(_) | RecoveryOutcome::Refused(_) => Ending::Replied(Status::Clean),
    }
}

/// Prints what a recovery of the hive in a file by 1 to 8 logs would do, and a report of the result. Nothing is written.
pub fn check_recovery<'a, R: Files + Input + Print + Eprint + AllocGlobal>(
    rt: &R,
    output: TerminalOutput,
    hive: &'a str,
    logs: &[&'a str],
) -> Result<Status, CommandError<'a>> {
    let found = recovery_of(rt, hive, logs, RecoveryLimits::NONE)?;
    let mut writer = BufWriter::new(rt.alloc(), io::writer(rt))?;
    let steps = write_steps(&mut writer, &found);
    let told = steps.and_then(|_| write_result(&mut writer, &found));
    let ended = told.and_then(|_| writer.flush());
    Ok(output.status(rt, ended.map(|_| found.outcome.status())))
}

// what comes of the hive and the logs in files, of which there are 1 to 8
fn recovery_of<'a, R: Files + Input + AllocGlobal>(
    rt: &R,
    hive: &'a str,
    paths: &[&'a str],
    limits: RecoveryLimits,
) -> Result<Recovery, CommandError<'a>> {
    if paths.is_empty() || paths.len() > MOST_LOGS {
        return Err(CommandError::WrongWords);
    }
    let alloc = rt.alloc();
    let file = bytes_of(rt, hive, MOST_FILE_BYTES)?;
    let mut contents = Vec::new(alloc);
    for path in paths {
        let bytes = bytes_of(rt, *path, MOST_LOG_BYTES + 1)?;
        if bytes.len() > MOST_LOG_BYTES {
            return Err(CommandError::Refused(Refusal::TooLarge));
        }
        contents.push(bytes)?;
    }
    let mut logs = Vec::new(alloc);
    for bytes in &contents {
        match read_log(alloc, bytes) {
            Ok(log) => logs.push(log)?,
            Err(why) => return Err(CommandError::Refused(why)),
        }
    }
    match recover(alloc, &file, &logs, limits) {
        Ok(found) => Ok(found),
        Err(why) => Err(CommandError::Refused(why)),
    }
}

/// The first bytes of a file, at most so many.
pub fn bytes_of<'a, R: Files + Input + AllocGlobal>(
    rt: &R,
    path: &'a str,
    most: usize,
) -> Result<Vec<u8>, CommandError<'a>> {
    let trouble = Trouble::new(None);
    let mut bytes = Vec::new(rt.alloc());
    let mut file = Source::new(opened(rt, path)?, &trouble).take(most as u64);
    match file.read_to_end(&mut bytes) {
        Ok(_) => Ok(bytes),
        Err(error) if error.kind() == io::ErrorKind::OutOfMemory => {
            Err(CommandError::Refused(Refusal::NoMemory))
        }
        Err(_) => Err(CommandError::CannotReadFile(Hint::denied(path, last_error(&trouble)))),
    }
}
