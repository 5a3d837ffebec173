//! What the word `check` does with files: the folder of a store, or a hive's file, alone or with its logs.
//!
//! `store_check` reports a store, over the folder as a disk that is only read, and `hive_check` a hive's file.
use crate::command_error::CommandError;
use crate::files::{Source, Target, Trouble, last_error};
use crate::hint::Hint;
use crate::input_file::{is_folder, opened};
use crate::recover_command::check_recovery;
use crate::script_commands::{hint_at, store_in};
use crate::store_disk::StoreDisk;
use crate::terminal::TerminalOutput;
use file_disk::LockError;
use hive_check::{CheckError, check_hive};
use reply_lines::Status;
use std::io::{self, BufWriter, Eprint, Input};
use std::rt::Files;
use store_check::check_store;

/// Prints a report of a store or of a hive's file; or of what a recovery of the hive by its logs would give, if there are some.
pub fn check<
    'a,
    R: Files + Input + Print + Eprint + AllocGlobal,
    D: StoreDisk + Drop,
    F: FnOnce(&'a str) -> Result<D, LockError> + Drop,
>(
    rt: &R,
    output: TerminalOutput,
    opener: F,
    source: &'a str,
    logs: &[&'a str],
) -> Result<Status, CommandError<'a>>
    requires { F.pre opener source }
{
    if !logs.is_empty() {
        return check_recovery(rt, output, source, logs);
    }
    if is_folder(rt, source) {
        report_store(rt, output, opener, source)
    } else {
        report_hive(rt, output, source)
    }
}

// prints a report of the store in a folder
fn report_store<
    'a,
    R: Print + Eprint + AllocGlobal,
    D: StoreDisk + Drop,
    F: FnOnce(&'a str) -> Result<D, LockError>,
>(rt: &R, output: TerminalOutput, opener: F, folder: &'a str) -> Result<Status, CommandError<'a>>
    requires { F.pre opener folder }
{
    let alloc = rt.alloc();
    let disk = store_in(opener(folder), folder)?;
    let mut writer = BufWriter::new(alloc, io::writer(rt))?;
    let (disk, told) = check_store(alloc, disk, &mut writer);
    hint_at(rt, output, folder, &disk, &told);
    Ok(output.status(rt, told))
}

// prints a report of the hive in the file of this path
fn report_hive<'a, R: Files + Input + Print + Eprint + AllocGlobal>(
    rt: &R,
    output: TerminalOutput,
    path: &'a str,
) -> Result<Status, CommandError<'a>> {
    let alloc = rt.alloc();
    let trouble = Trouble::new(None);
    let mut writer = BufWriter::new(alloc, Target::new(io::writer(rt), &trouble))?;
    let mut file = Source::new(opened(rt, path)?, &trouble);
    match check_hive(alloc, &mut file, &mut writer) {
        Ok(status) => Ok(status),
        Err(CheckError::CannotRead) => Err(CommandError::CannotReadFile(Hint::denied(
            path,
            last_error(&trouble),
        ))),
        Err(CheckError::Write(error)) => Ok(output.status(rt, Err(error))),
    }
}
