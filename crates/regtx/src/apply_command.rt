//! What the words `apply` and `apply-check` do with files: a registration file, and the folder of the store that it is
//! applied to, or on which it is tried.
//!
//! `reg_file` reads the file's bytes, and `reg_apply` applies or checks it and prints how that ended, over the folder as a
//! disk.
use crate::command_error::CommandError;
use crate::files::{Source, Trouble, last_error};
use crate::hint::Hint;
use crate::input_file::opened;
use crate::script_commands::{hint_at, store_in};
use crate::store_disk::StoreDisk;
use crate::terminal::TerminalOutput;
use file_disk::LockError;
use reg_apply::{ApplyRequest, UnitOfWork, apply, check};
use reg_file::{RegFile, parse};
use reg_prefixes::{Prefixes, WordError};
use reply_lines::Status;
use std::alloc::{AllocError, Global};
use std::io::{self, BufWriter, Eprint, ErrorKind, Input, Read};
use std::rt::Files;
use std::time::{Clock, SystemTime, UNIX_EPOCH};
use uuid::Uuid;

/// The year 1970 as a moment: 100 nanoseconds since the year 1601.
const UNIX_MOMENT: u64 = 116_444_736_000_000_000;

/// The word before a unit of work that is to be done once.
const ONCE: &str = "once";

/// Applies a registration file to the store in a folder, which no other program has open until this ends. The words
/// name prefixes; the last one may be the unit of work that the change is for, with `once` before it.
pub fn apply_file<
    'a,
    R: Files + Input + Print + Eprint + Clock + AllocGlobal,
    D: StoreDisk + Drop,
    F: FnOnce(&'a str) -> Result<D, LockError>,
>(
    rt: &R,
    output: TerminalOutput,
    opener: F,
    folder: &'a str,
    path: &'a str,
    words: &[&'a str],
) -> Result<Status, CommandError<'a>>
    requires { F.pre opener folder }
{
    let alloc = rt.alloc();
    let (words, unit) = parted(words);
    let prefixes = understood(Prefixes::new(alloc, words))?;
    let file = read_file(rt, path)?;
    let request = ApplyRequest {
        prefixes: &prefixes,
        moment: moment_now(rt),
        unit,
    };
    let disk = store_in(opener(folder), folder)?;
    let mut writer = BufWriter::new(alloc, io::writer(rt))?;
    let (disk, applied) = apply(alloc, disk, &request, file, &mut writer);
    hint_at(rt, output, folder, &disk, &applied);
    Ok(output.status(rt, applied))
}

/// Prints which lines of a registration file the store in a folder would refuse. The store is only read. The words name
/// prefixes.
pub fn check_file<
    'a,
    R: Files + Input + Print + Eprint + AllocGlobal,
    D: StoreDisk + Drop,
    F: FnOnce(&'a str) -> Result<D, LockError>,
>(
    rt: &R,
    output: TerminalOutput,
    opener: F,
    folder: &'a str,
    path: &'a str,
    words: &[&'a str],
) -> Result<Status, CommandError<'a>>
    requires { F.pre opener folder }
{
    let alloc = rt.alloc();
    let prefixes = understood(Prefixes::new(alloc, words))?;
    let file = read_file(rt, path)?;
    let disk = store_in(opener(folder), folder)?;
    let mut writer = BufWriter::new(alloc, io::writer(rt))?;
    let (disk, checked) = check(alloc, disk, &prefixes, file, &mut writer);
    hint_at(rt, output, folder, &disk, &checked);
    Ok(output.status(rt, checked))
}

// the words that name prefixes, and the unit of work
fn parted<'a, 'b>(words: &'b [&'a str]) -> (&'b [&'a str], UnitOfWork) {
    let Some((last, front)) = words.split_last() else {
        return (words, UnitOfWork::Own);
    };
    let Ok(id) = Uuid::parse_str(last) else {
        return (words, UnitOfWork::Own);
    };
    match front.split_last() {
        Some((word, prefixes)) if *word == ONCE => (prefixes, UnitOfWork::Once(id)),
        _ => (front, UnitOfWork::Again(id)),
    }
}

/// The prefixes that words name, or why they name none.
pub fn understood<'a>(prefixes: Result<Prefixes, WordError>) -> Result<Prefixes, CommandError<'a>> {
    match prefixes {
        Ok(prefixes) => Ok(prefixes),
        Err(WordError::NotUnderstood) => Err(CommandError::WrongWords),
        Err(WordError::NoMemory) => Err(CommandError::from(AllocError)),
    }
}

// the statements of the registration file of this path
fn read_file<'a, R: Files + Input + AllocGlobal>(
    rt: &R,
    path: &'a str,
) -> Result<RegFile, CommandError<'a>> {
    let trouble = Trouble::new(None);
    let mut source = Source::new(opened(rt, path)?, &trouble);
    let mut bytes = Vec::new(rt.alloc());
    match source.read_to_end(&mut bytes) {
        Ok(_) => Ok(parse(rt.alloc(), &bytes)?),
        Err(error) if error.kind() == ErrorKind::OutOfMemory => Err(CommandError::from(error)),
        Err(_) => Err(CommandError::CannotReadFile(Hint::denied(path, last_error(&trouble)))),
    }
}

/// The clock as a moment, or 0 if it shows none of this form.
pub fn moment_now<R: Clock>(rt: &R) -> u64 {
    let Ok(now) = SystemTime::now(rt) else {
        return 0;
    };
    let Ok(since_1970) = now.duration_since(UNIX_EPOCH) else {
        return 0;
    };
    let moments = since_1970.as_nanos() / 100;
    match u64::try_from(moments) {
        Ok(moments) => moments.checked_add(UNIX_MOMENT).unwrap_or(0),
        Err(_) => 0,
    }
}
