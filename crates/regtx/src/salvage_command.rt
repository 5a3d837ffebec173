//! What the word `salvage` does, and those beside it: what is left of a damaged hive's file is printed, and what isn't is told.
//!
//! `salvage_report` prints. Standard error has the lines of losses, whether it is a terminal or not.
use crate::command_error::CommandError;
use crate::ending::Ending;
use crate::key_words::key_named;
use crate::recover_command::{MOST_FILE_BYTES, bytes_of};
use crate::tasks::ExportForm;
use crate::terminal::TerminalOutput;
use refusals::Refusal;
use reg_names::Name;
use reg_prefixes::Prefixes;
use reply_lines::Status;
use salvage_report::{
    DamagedHive, ReportError, Totals, is_found, print_json, print_reg, print_tsv, write_gap,
    write_notes, write_totals,
};
use std::alloc::Global;
use std::io::{self, BufWriter, Eprint, ErrorKind, Input, Write};
use std::rt::Files;
use store_export::{Encoding, Selection};

/// The number as which the hive of a file is printed.
const HIVE: u8 = 0;

/// The most bytes that are read of a file. Of a longer one the bins data are too large.
const MOST_READ_BYTES: usize = MOST_FILE_BYTES + 4_096;

/// Prints what is left of the hive in a file, or of a key of it with all below it, which the first of the words may name.
pub fn salvage_hive<'a, R: Files + Input + Print + Eprint + AllocGlobal>(
    rt: &R,
    output: TerminalOutput,
    file: &'a str,
    form: ExportForm,
    words: &[&'a str],
) -> Result<Ending, CommandError<'a>> {
    let selection = selection_of(rt.alloc(), words)?;
    let path = match &selection {
        None => &[],
        Some(Selection { hive, path }) if *hive == HIVE => path.names(),
        Some(_) => return Err(CommandError::Refused(Refusal::NotFound)),
    };
    let hive = damaged_hive(rt, file)?;
    if !path.is_empty() {
        seek(rt.alloc(), &hive, path)?;
    }
    match printed(rt, &hive, form, path) {
        Ok(true) => Ok(Ending::Replied(Status::Clean)),
        Ok(false) => Ok(Ending::LeftOut),
        Err(ReportError::Refused(why)) => Err(CommandError::Refused(why)),
        Err(ReportError::Write(error)) if error.kind() == ErrorKind::OutOfMemory => {
            Err(CommandError::Refused(Refusal::NoMemory))
        }
        Err(ReportError::Write(error)) => Ok(Ending::Replied(output.status(rt, Err(error)))),
    }
}

// the key that a word names, if there is one
fn selection_of<'a>(
    alloc: Global,
    words: &[&'a str],
) -> Result<Option<Selection>, CommandError<'a>> {
    match words {
        [] => Ok(None),
        [word] => Ok(Some(key_named(alloc, word)?)),
        [_, word, ..] => Err(CommandError::WrongWord(word)),
    }
}

// refused with `NotFound` if no key at a path or below it is found
fn seek<'a>(alloc: Global, hive: &DamagedHive, path: &[Name]) -> Result<(), CommandError<'a>> {
    match is_found(alloc, hive, path) {
        Ok(true) => Ok(()),
        Ok(false) => Err(CommandError::Refused(Refusal::NotFound)),
        Err(why) => Err(CommandError::Refused(why)),
    }
}

// the hive in the file of this path
fn damaged_hive<'a, R: Files + Input + AllocGlobal>(
    rt: &R,
    path: &'a str,
) -> Result<DamagedHive, CommandError<'a>> {
    let file = bytes_of(rt, path, MOST_READ_BYTES)?;
    match DamagedHive::opened(rt.alloc(), file) {
        Ok(hive) => Ok(hive),
        Err(why) => Err(CommandError::Refused(why)),
    }
}

// prints it, and whether nothing was left out
fn printed<R: Print + Eprint + AllocGlobal>(
    rt: &R,
    hive: &DamagedHive,
    form: ExportForm,
    path: &[Name],
) -> Result<bool, ReportError> {
    tell_state(rt, hive)?;
    let totals = print_keys(rt, hive, form, path)?;
    let is_whole = hive.is_whole() && totals.is_whole();
    if !is_whole {
        tell_totals(rt, hive, &totals)?;
    }
    Ok(is_whole)
}

// the lines of the file's state and of its gaps
fn tell_state<R: Eprint + AllocGlobal>(rt: &R, hive: &DamagedHive) -> io::Result<()> {
    let mut losses = BufWriter::new(rt.alloc(), ErrorLines { rt })?;
    write_notes(&mut losses, &hive.state)?;
    for gap in &hive.gaps {
        write_gap(&mut losses, *gap)?;
    }
    losses.flush()
}

// the last line
fn tell_totals<R: Eprint + AllocGlobal>(
    rt: &R,
    hive: &DamagedHive,
    totals: &Totals,
) -> io::Result<()> {
    let mut losses = BufWriter::new(rt.alloc(), ErrorLines { rt })?;
    write_totals(&mut losses, totals, hive.lost_bytes())?;
    losses.flush()
}

// prints the keys, and tells what isn't read of them
fn print_keys<R: Print + Eprint + AllocGlobal>(
    rt: &R,
    hive: &DamagedHive,
    form: ExportForm,
    path: &[Name],
) -> Result<Totals, ReportError> {
    let mut losses = BufWriter::new(rt.alloc(), ErrorLines { rt })?;
    let mut writer = BufWriter::new(rt.alloc(), io::writer(rt))?;
    let totals = print_form(rt.alloc(), hive, form, path, &mut writer, &mut losses)?;
    writer.flush()?;
    losses.flush()?;
    Ok(totals)
}

// prints the keys in a form
fn print_form<W: Write, L: Write>(
    alloc: Global,
    hive: &DamagedHive,
    form: ExportForm,
    path: &[Name],
    writer: &mut W,
    losses: &mut L,
) -> Result<Totals, ReportError> {
    match form {
        ExportForm::Reg => {
            print_registration(alloc, hive, Encoding::Utf16, path, writer, losses)
        }
        ExportForm::RegUtf8 => {
            print_registration(alloc, hive, Encoding::Utf8, path, writer, losses)
        }
        ExportForm::Json => print_json(alloc, hive, path, writer, losses),
        ExportForm::Tsv => print_tsv(alloc, hive, path, writer, losses),
    }
}

// prints a registration file, behind the prefix that a file's hive has
fn print_registration<W: Write, L: Write>(
    alloc: Global,
    hive: &DamagedHive,
    encoding: Encoding,
    path: &[Name],
    writer: &mut W,
    losses: &mut L,
) -> Result<Totals, ReportError> {
    let prefixes = match Prefixes::of_hives(alloc, &[]) {
        Ok(prefixes) => prefixes,
        Err(_) => return Err(ReportError::Refused(Refusal::NoMemory)),
    };
    let prefix = prefixes.shown(HIVE).unwrap_or(&[]);
    print_reg(alloc, hive, encoding, prefix, path, writer, losses)
}

// standard error, as what lines are written into
#[derive(Drop)]
struct ErrorLines<'a, R> {
    rt: &'a R,
}

impl<R: Eprint> Write for ErrorLines<'_, R> {
    fn write(&mut self, buf: &[u8]) -> io::Result<usize> {
        match str::from_utf8(buf) {
            Ok(text) => {
                eprint!(self.rt; "{text}")?;
                Ok(buf.len())
            }
            Err(_) => Err(ErrorKind::InvalidData.into()),
        }
    }

    fn flush(&mut self) -> io::Result<()> {
        Ok(())
    }
}
