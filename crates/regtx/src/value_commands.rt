//! What the words for one key or value do with the store in a folder: a value is read, a key is listed, and a value or a
//! key is written or deleted.
//!
//! `value_syntax` reads and writes values as people write them, and `store_values` does the work, over the folder as a
//! disk.
use crate::apply_command::moment_now;
use crate::command_error::CommandError;
use crate::hint::{Hint, Why};
use crate::key_words::{key_named, value_named};
use crate::script_commands::{hint_at, store_in};
use crate::store_disk::StoreDisk;
use crate::terminal::TerminalOutput;
use crate::value_file::value_bytes;
use file_disk::LockError;
use refusals::Refusal;
use reg_tree::Data;
use reply_lines::Status;
use std::alloc::Global;
use std::io::{self, BufWriter, Eprint, Input};
use std::rt::Files;
use std::time::Clock;
use store_export::Selection;
use store_values::{Change, ChangeResult, ValueForm, change_store, get_value, list_key};
use value_syntax::{Datum, parse, type_number};
use word_syntax::ParseError;

/// The word for the empty name, which the default value has.
pub const DEFAULT: &str = "@";

/// What is read of a store or of a hive's file.
#[derive(Clone, Copy)]
pub enum Reading<'a> {
    /// `get SOURCE HIVE:PATH [NAME]`, or `get-raw`: a value, the default one if no name is given.
    Value {
        /// The word that names the key.
        key: &'a str,
        /// The word that is the value's name.
        name: Option<&'a str>,
        /// How it is printed.
        form: ValueForm,
    },
    /// `ls SOURCE HIVE:PATH`: the subkeys and values of a key.
    Key {
        /// The word that names the key.
        key: &'a str,
    },
}

/// What is changed in a store.
#[derive(Clone, Copy)]
pub enum Writing<'a> {
    /// `set DIR HIVE:PATH NAME TYPE VALUE`: a value is written.
    Set {
        /// The word that names the key.
        key: &'a str,
        /// The word that is the value's name.
        name: &'a str,
        /// The word for its type.
        kind: &'a str,
        /// The text of its data.
        text: &'a str,
    },
    /// `set-raw DIR HIVE:PATH NAME TYPE FILE`: a value is written, with the bytes of a file.
    SetData {
        /// The word that names the key.
        key: &'a str,
        /// The word that is the value's name.
        name: &'a str,
        /// The word for its type.
        kind: &'a str,
        /// The word that names the file.
        file: &'a str,
    },
    /// `create DIR HIVE:PATH`: a key is created.
    CreateKey {
        /// The word that names the key.
        key: &'a str,
    },
    /// `del DIR HIVE:PATH NAME`: a value is deleted.
    DeleteValue {
        /// The word that names the key.
        key: &'a str,
        /// The word that is the value's name.
        name: &'a str,
    },
    /// `del DIR HIVE:PATH`: a key without subkeys is deleted.
    DeleteKey {
        /// The word that names the key.
        key: &'a str,
    },
    /// `del-tree DIR HIVE:PATH`: a key is deleted with all keys below it.
    DeleteTree {
        /// The word that names the key.
        key: &'a str,
    },
}

/// Prints a value or the lines of a key of the store in a folder, which is only read.
pub fn read_store<
    'a,
    R: Print + Eprint + AllocGlobal,
    D: StoreDisk + Drop,
    F: FnOnce(&'a str) -> Result<D, LockError>,
>(
    rt: &R,
    output: TerminalOutput,
    opener: F,
    folder: &'a str,
    reading: Reading<'a>,
) -> Result<Status, CommandError<'a>>
    requires { F.pre opener folder }
{
    let alloc = rt.alloc();
    match reading {
        Reading::Value { key, name, form } => {
            let (Selection { hive, path }, name) = value_named(
                alloc,
                key,
                name.unwrap_or(DEFAULT),
            )?;
            let disk = store_in(opener(folder), folder)?;
            let mut writer = BufWriter::new(alloc, io::writer(rt))?;
            let (disk, told) = get_value(alloc, disk, hive, &path, &name, form, &mut writer);
            Ok(ended(rt, output, folder, &disk, told))
        }
        Reading::Key { key } => {
            let Selection { hive, path } = key_named(alloc, key)?;
            let disk = store_in(opener(folder), folder)?;
            let mut writer = BufWriter::new(alloc, io::writer(rt))?;
            let (disk, told) = list_key(alloc, disk, hive, &path, &mut writer);
            Ok(ended(rt, output, folder, &disk, told))
        }
    }
}

/// Makes a change of the store in a folder, which no other program has open until this ends.
pub fn write_store<
    'a,
    R: Files + Input + Print + Eprint + Clock + AllocGlobal,
    D: StoreDisk + Drop,
    F: FnOnce(&'a str) -> Result<D, LockError>,
>(
    rt: &R,
    output: TerminalOutput,
    opener: F,
    folder: &'a str,
    writing: Writing<'a>,
) -> Result<Status, CommandError<'a>>
    requires { F.pre opener folder }
{
    let alloc = rt.alloc();
    let change = change_of(rt, writing)?;
    let moment = moment_now(rt);
    let disk = store_in(opener(folder), folder)?;
    let mut writer = BufWriter::new(alloc, io::writer(rt))?;
    let (disk, told) = change_store(alloc, disk, moment, change, &mut writer);
    if let Ok(ChangeResult { refusal, .. }) = told {
        output.hint(rt, hint_of(writing, refusal));
    }
    Ok(ended(rt, output, folder, &disk, status_of(told)))
}

// which word deletes a key, if its subkeys keep it
fn hint_of<'a>(writing: Writing<'a>, refusal: Option<Refusal>) -> Option<Hint<'a>> {
    match (writing, refusal) {
        (Writing::DeleteKey { key }, Some(Refusal::HasSubkeys)) => {
            Some(Hint::of(key, Why::HasSubkeys))
        }
        _ => None,
    }
}

// the change that words ask for
fn change_of<'a, R: Files + Input + AllocGlobal>(
    rt: &R,
    writing: Writing<'a>,
) -> Result<Change, CommandError<'a>> {
    let alloc = rt.alloc();
    match writing {
        Writing::Set {
            key,
            name,
            kind,
            text,
        } => set_value(alloc, key, name, datum_of(alloc, kind, text)?),
        Writing::SetData {
            key,
            name,
            kind,
            file,
        } => {
            let Some(kind) = type_number(kind) else {
                return Err(CommandError::WrongWord(kind));
            };
            let data = Data::from_vec(value_bytes(rt, file)?)?;
            set_value(alloc, key, name, Datum { kind, data })
        }
        Writing::CreateKey { key } => {
            let Selection { hive, path } = key_named(alloc, key)?;
            Ok(Change::CreateKey { hive, path })
        }
        Writing::DeleteValue { key, name } => {
            let (Selection { hive, path }, name) = value_named(alloc, key, name)?;
            Ok(Change::DeleteValue { hive, path, name })
        }
        Writing::DeleteKey { key } => {
            let Selection { hive, path } = key_named(alloc, key)?;
            Ok(Change::DeleteKey { hive, path })
        }
        Writing::DeleteTree { key } => {
            let Selection { hive, path } = key_named(alloc, key)?;
            Ok(Change::DeleteTree { hive, path })
        }
    }
}

// the write of a value
fn set_value<'a>(
    alloc: Global,
    key: &'a str,
    name: &'a str,
    datum: Datum,
) -> Result<Change, CommandError<'a>> {
    let (Selection { hive, path }, name) = value_named(alloc, key, name)?;
    Ok(Change::SetValue {
        hive,
        path,
        name,
        datum,
    })
}

// the type and the data that words spell
fn datum_of<'a>(alloc: Global, kind: &str, text: &str) -> Result<Datum, CommandError<'a>> {
    match parse(alloc, kind, text) {
        Ok(datum) => Ok(datum),
        Err(ParseError::NoMemory) => Err(CommandError::Refused(Refusal::NoMemory)),
        Err(ParseError::NotUnderstood) => Err(CommandError::WrongWords),
    }
}

/// The status of what was told, if it could be.
pub fn status_of(told: io::Result<ChangeResult>) -> io::Result<Status> {
    match told {
        Ok(told) => Ok(told.status),
        Err(error) => Err(error),
    }
}

/// The status of what was told. A terminal shows what the system refused.
pub fn ended<'a, R: Print + Eprint + AllocGlobal, D: StoreDisk>(
    rt: &R,
    output: TerminalOutput,
    folder: &'a str,
    disk: &D,
    told: io::Result<Status>,
) -> Status {
    hint_at(rt, output, folder, disk, &told);
    output.status(rt, told)
}
