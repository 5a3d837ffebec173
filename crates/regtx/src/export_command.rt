//! What the words `export`, `export-utf8`, `export-json` and `export-tsv` do with files: the folder of a store, or a hive's file.
//!
//! `store_export` prints, over the folder as a disk that is only read, or over the file.
use crate::apply_command::understood;
use crate::command_error::CommandError;
use crate::files::{Source, Target, Trouble, last_error};
use crate::hint::Hint;
use crate::input_file::{is_folder, opened};
use crate::key_words::key_named;
use crate::script_commands::{hint_at, store_in};
use crate::store_disk::StoreDisk;
use crate::tasks::ExportForm;
use crate::terminal::TerminalOutput;
use file_disk::LockError;
use reg_prefixes::Prefixes;
use reply_lines::Status;
use std::io::{self, BufWriter, Eprint, Input};
use std::rt::Files;
use store_export::{
    Encoding, ExportError, ExportRequest, Form, Selection, export_hive, export_store,
};

/// Prints a store or a hive's file, or a key of it with all below it. The first of the words may name the key,
/// `HIVE:PATH`; the others name prefixes, which a registration file alone has.
pub fn export<
    'a,
    R: Files + Input + Print + Eprint + AllocGlobal,
    D: StoreDisk + Drop,
    F: FnOnce(&'a str) -> Result<D, LockError>,
>(
    rt: &R,
    output: TerminalOutput,
    opener: F,
    source: &'a str,
    form: ExportForm,
    words: &[&'a str],
) -> Result<Status, CommandError<'a>>
    requires { F.pre opener source }
{
    let alloc = rt.alloc();
    let (key, words) = parted(words);
    if let Some(word) = words.first() {
        if !has_prefixes(form) {
            return Err(CommandError::WrongWord(word));
        }
    }
    let prefixes = understood(Prefixes::of_hives(alloc, words))?;
    let selection = match key {
        Some(word) => Some(key_named(alloc, word)?),
        None => None,
    };
    let request = request_of(form, selection.as_ref(), &prefixes);
    if is_folder(rt, source) {
        print_store(rt, output, opener, source, &request)
    } else {
        print_hive(rt, output, source, &request)
    }
}

// whether paths are shown behind prefixes in this form
fn has_prefixes(form: ExportForm) -> bool {
    matches!(form, ExportForm::Reg | ExportForm::RegUtf8)
}

// the word that names a key, which begins with a digit, and the words after it
fn parted<'a, 'b>(words: &'b [&'a str]) -> (Option<&'a str>, &'b [&'a str]) {
    match words.split_first() {
        Some((first, rest)) if begins_with_digit(first) => (Some(*first), rest),
        _ => (None, words),
    }
}

fn begins_with_digit(word: &str) -> bool {
    word.as_bytes()
        .first()
        .is_some_and(|byte| byte.is_ascii_digit())
}

fn request_of<'b>(
    form: ExportForm,
    selection: Option<&'b Selection>,
    prefixes: &'b Prefixes,
) -> ExportRequest<'b> {
    let form = match form {
        ExportForm::Reg => Form::Reg(Encoding::Utf16),
        ExportForm::RegUtf8 => Form::Reg(Encoding::Utf8),
        ExportForm::Json => Form::Json,
        ExportForm::Tsv => Form::Tsv,
    };
    ExportRequest {
        form,
        selection,
        prefixes,
    }
}

// prints the store in a folder
fn print_store<
    'a,
    R: Print + Eprint + AllocGlobal,
    D: StoreDisk + Drop,
    F: FnOnce(&'a str) -> Result<D, LockError>,
>(
    rt: &R,
    output: TerminalOutput,
    opener: F,
    folder: &'a str,
    request: &ExportRequest<'_>,
) -> Result<Status, CommandError<'a>>
    requires { F.pre opener folder }
{
    let alloc = rt.alloc();
    let disk = store_in(opener(folder), folder)?;
    let mut writer = BufWriter::new(alloc, io::writer(rt))?;
    let (disk, exported) = export_store(alloc, disk, request, &mut writer);
    let told = written(exported);
    hint_at(rt, output, folder, &disk, &told);
    Ok(output.status(rt, told))
}

// prints the hive in the file of this path
fn print_hive<'a, R: Files + Input + Print + Eprint + AllocGlobal>(
    rt: &R,
    output: TerminalOutput,
    path: &'a str,
    request: &ExportRequest<'_>,
) -> Result<Status, CommandError<'a>> {
    let alloc = rt.alloc();
    let trouble = Trouble::new(None);
    let mut writer = BufWriter::new(alloc, Target::new(io::writer(rt), &trouble))?;
    let mut file = Source::new(opened(rt, path)?, &trouble);
    match export_hive(alloc, &mut file, request, &mut writer) {
        Err(ExportError::CannotRead) => Err(CommandError::CannotReadFile(Hint::denied(
            path,
            last_error(&trouble),
        ))),
        exported => Ok(output.status(rt, written(exported))),
    }
}

// the status of an export; an export that isn't written whole has none
fn written(exported: Result<Status, ExportError>) -> io::Result<Status> {
    match exported {
        Ok(status) => Ok(status),
        Err(ExportError::Write(error)) => Err(error),
        Err(ExportError::Refused(_)) | Err(ExportError::CannotRead) => Ok(Status::Refused),
    }
}
