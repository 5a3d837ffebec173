//! What is printed of a hive's file.
ghost use Rattle.std.specs.Prelude.{◌≡◌, ◌++◌, IfOk, IfSome, OnOk};
ghost use Rattle.std.specs.List.{flat_map};
ghost use Rattle.std.specs.FinMap as finite;
ghost use Rattle.std.specs.Io.KnownBytes.{Appends};
ghost use Rattle.store_values.specs.Answers.{key_lines, subkey_line, value_line};
ghost use Rattle.reply_lines.specs.declared.status.Status;
ghost use Rattle.store_values.specs.FileAnswers.{ReportsFileKey, ReportsFileValue};
ghost use Rattle.store_values.specs.FileLookups.{PrintsMissing};

use crate::file_lookup::{key_in_file, value_in_file};
use crate::key_lines::{write_subkey, write_value};
use crate::read::write_in;
use crate::reply::print_refusal;
use crate::value_form::ValueForm;
use hive_file_reader::ReadError;
use reg_names::{Name, Path, ValueName};
use reg_tree_parts::{Key, Values};
use reply_lines::Status;
use std::alloc::Global;
use std::io::{self, Read, Write};

/// Why nothing is printed of a hive's file, or not all.
#[derive(Debug, Drop)]
pub enum FileReadError {
    /// The file can't be read, or read on. Nothing was printed.
    CannotRead,
    /// A write failed.
    Write(io::Error),
}

impl From<io::Error> for FileReadError {
    fn from(error: io::Error) -> FileReadError {
        FileReadError::Write(error)
    }
}

/// Prints a value of a clean hive's file in a form, as [`get_value`](crate::get_value) prints one of a store. The file is
/// hive 0. Only what leads to the value is read: the keys on the way, the names of their subkeys, and the names of the key's
/// values. All else may be damaged.
///
/// Refused, in a line that alone is printed, as `read_image` refuses a file; with `NotFound` if all that could have a name
/// of the path or the value's was read and has it not; with `HiveDamaged` and a cause, or `Unsupported`, if something of it
/// can't be read; and with `NoMemory`.
pub fn get_file_value<R: Read, W: Write>(
    alloc: Global,
    reader: &mut R,
    hive: u8,
    path: &Path,
    name: &ValueName,
    form: ValueForm,
    writer: &mut W,
) -> Result<Status, FileReadError>
    ensures reports { IfOk result (λ status. IfSome (R.remaining reader.old) (λ file.
        ReportsFileValue form hive path.now name.now file (W.contents writer.old) (W.contents writer.new) status)) }
{
    match value_in_file(alloc, reader, hive, path, name) {
        Ok(value) => {
            write_in(writer, form, &value)?;
            writer.flush()?;
            Ok(Status::Clean)
        }
        Err(error) => print_missing(writer, error),
    }
}

/// Prints a line for each subkey of a key of a clean hive's file and then for each of its values, as
/// [`list_key`](crate::list_key) prints those of a store. The file is hive 0. The key is read whole; of its subkeys, and
/// of all keys beside the way to it, only the names are.
///
/// Refused, in a line that alone is printed, as [`get_file_value`] is.
pub fn list_file_key<R: Read, W: Write>(
    alloc: Global,
    reader: &mut R,
    hive: u8,
    path: &Path,
    writer: &mut W,
) -> Result<Status, FileReadError>
    ensures reports { IfOk result (λ status. IfSome (R.remaining reader.old) (λ file.
        ReportsFileKey hive path.now file (W.contents writer.old) (W.contents writer.new) status)) }
{
    match key_in_file(alloc, reader, hive, path) {
        Ok(found) => Ok(print_key(writer, &found.0, &found.1)?),
        Err(error) => print_missing(writer, error),
    }
}

// prints why nothing is found in a file, if it could be read
fn print_missing<W: Write>(writer: &mut W, error: ReadError) -> Result<Status, FileReadError>
    ensures { IfOk result (PrintsMissing (W.contents writer.old) (W.contents writer.new) error) }
{
    match error {
        ReadError::Refused(refusal) => Ok(print_refusal(writer, refusal)?),
        ReadError::SourceFailed => Err(FileReadError::CannotRead),
    }
}

// prints the lines of a key with subkeys of these names
fn print_key<W: Write>(writer: &mut W, names: &[Name], key: &Key) -> io::Result<Status>
    ensures { IfOk result (λ status. Appends (W.contents writer.old) (W.contents writer.new)
        (key_lines names.now (finite.values key.now.values)) × (status ≡ Status.Clean)) }
{
    write_key(writer, names, key)?;
    writer.flush()?;
    Ok(Status::Clean)
}

// the lines of a key with subkeys of these names
fn write_key<W: Write>(writer: &mut W, names: &[Name], key: &Key) -> io::Result<()>
    ensures { OnOk result (Appends (W.contents writer.old) (W.contents writer.new)
        (key_lines names.now (finite.values key.now.values))) }
{
    write_names(writer, names)?;
    write_all_values(writer, key.values())
}

// a line for each subkey
fn write_names<W: Write>(writer: &mut W, names: &[Name]) -> io::Result<()>
    ensures { OnOk result (Appends (W.contents writer.old) (W.contents writer.new)
        (flat_map subkey_line names.now)) }
{
    for name in names {
        write_subkey(writer, name)?;
    }
    Ok(())
}

// a line for each value
fn write_all_values<W: Write>(writer: &mut W, values: &Values) -> io::Result<()>
    ensures { OnOk result (Appends (W.contents writer.old) (W.contents writer.new)
        (flat_map value_line (finite.values values.now))) }
{
    for index in 0..values.len() {
        let Some(value) = values.at(index) else {
            unreachable!();
        };
        write_value(writer, value)?;
    }
    Ok(())
}
