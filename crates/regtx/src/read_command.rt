//! What the words `get`, `get-raw` and `ls` do with files: the folder of a store, or a hive's file.
//!
//! `store_values` prints, over the folder as a disk that is only read, or over the file.
use crate::command_error::CommandError;
use crate::files::{Source, Trouble, last_error};
use crate::hint::Hint;
use crate::input_file::{is_file, opened};
use crate::key_words::{key_named, value_named};
use crate::store_disk::StoreDisk;
use crate::terminal::TerminalOutput;
use crate::value_commands::{DEFAULT, Reading, read_store};
use file_disk::LockError;
use reply_lines::Status;
use std::io::{self, BufWriter, Eprint, Input};
use std::rt::Files;
use store_export::Selection;
use store_values::{FileReadError, get_file_value, list_file_key};

/// Prints a value or the lines of a key of the store in a folder, which is only read; or of a hive's file, which is hive 0.
pub fn read_source<
    'a,
    R: Files + Input + Print + Eprint + AllocGlobal,
    D: StoreDisk + Drop,
    F: FnOnce(&'a str) -> Result<D, LockError> + Drop,
>(
    rt: &R,
    output: TerminalOutput,
    opener: F,
    source: &'a str,
    reading: Reading<'a>,
) -> Result<Status, CommandError<'a>>
    requires { F.pre opener source }
{
    if is_file(rt, source) {
        read_hive(rt, output, source, reading)
    } else {
        read_store(rt, output, opener, source, reading)
    }
}

// prints a value or the lines of a key of the hive in the file of this path
fn read_hive<'a, R: Files + Input + Print + Eprint + AllocGlobal>(
    rt: &R,
    output: TerminalOutput,
    path: &'a str,
    reading: Reading<'a>,
) -> Result<Status, CommandError<'a>> {
    let trouble = Trouble::new(None);
    match print_reading(rt, path, &trouble, reading)? {
        Ok(status) => Ok(status),
        Err(FileReadError::CannotRead) => Err(CommandError::CannotReadFile(Hint::denied(
            path,
            last_error(&trouble),
        ))),
        Err(FileReadError::Write(error)) => Ok(output.status(rt, Err(error))),
    }
}

// the same, and what was printed; `trouble` tells why the file can't be read
fn print_reading<'a, R: Files + Input + Print + AllocGlobal>(
    rt: &R,
    file: &'a str,
    trouble: &Trouble,
    reading: Reading<'a>,
) -> Result<Result<Status, FileReadError>, CommandError<'a>> {
    let alloc = rt.alloc();
    match reading {
        Reading::Value { key, name, form } => {
            let (Selection { hive, path }, name) = value_named(
                alloc,
                key,
                name.unwrap_or(DEFAULT),
            )?;
            let mut reader = Source::new(opened(rt, file)?, trouble);
            let mut writer = BufWriter::new(alloc, io::writer(rt))?;
            Ok(get_file_value(alloc, &mut reader, hive, &path, &name, form, &mut writer))
        }
        Reading::Key { key } => {
            let Selection { hive, path } = key_named(alloc, key)?;
            let mut reader = Source::new(opened(rt, file)?, trouble);
            let mut writer = BufWriter::new(alloc, io::writer(rt))?;
            Ok(list_file_key(alloc, &mut reader, hive, &path, &mut writer))
        }
    }
}
