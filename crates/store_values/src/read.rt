//! What is read of a store: of one hive, without the others.
ghost use Rattle.std.specs.Prelude.{◌<◌, IfOk, OnOk};
ghost use Rattle.std.specs.Io.KnownBytes.{Appends};
ghost use Rattle.disk_model.specs.ReadOnly.{OnlySyncs};
ghost use Rattle.recovery.specs.Recovered.{seen_in};
ghost use Rattle.store_values.specs.Answers.{PrintsAnswer, ReportsAnswer, key_answer, value_answer, value_text};

use crate::key_lines::{write_datum_line, write_subkeys, write_values};
use crate::reply::print_refusal;
use crate::value_form::ValueForm;
use disk_model::Disk;
use refusals::Refusal;
use reg_names::{Path, ValueName};
use reg_tree::{Tree, Value};
use reply_lines::Status;
use std::alloc::Global;
use std::io::{self, Write};
use std::mem::forget;
use store_hive::named_tree;

/// Prints a value in a form: its type and data in a line, or its data alone. The journal and the hive's own two files are
/// read and synced, and not written. No file of another hive is touched. The disk is handed back. The tree that is read is
/// the one that an opening of the whole store recovers, if it recovers anything
/// ([`laws::as_the_store_recovers`](store_hive::laws::as_the_store_recovers)).
///
/// The memory of the hive's tree isn't given back. A program that prints one value ends then, and taking the tree apart
/// would take it a tenth more time.
///
/// Refused, in a line that alone is printed, as [`named_tree`] is; and with `NotFound` if there is no such key or value.
pub fn get_value<D: Disk, W: Write>(
    alloc: Global,
    disk: D,
    hive: u8,
    path: &Path,
    name: &ValueName,
    form: ValueForm,
    writer: &mut W,
) -> (D, io::Result<Status>)
    ensures reports { IfOk result.1 (ReportsAnswer (D.failures disk < D.failures result.0)
        (D.faithful result.0) (seen_in (D.state_at disk (D.clock disk))) hive
        (value_answer form path.now name.now) (W.contents writer.old) (W.contents writer.new)) }
    ensures synced { D.faithful result.0 → OnlySyncs (D.state_at disk) (D.state_at result.0)
        (D.clock disk) (D.clock result.0) }
{
    store_hive::laws::as_the_store_recovers();
    let mut disk = disk;
    match named_tree(alloc, &mut disk, hive) {
        Ok(tree) => {
            let status = print_value(writer, &tree, path, name, form);
            forget(tree);
            (disk, status)
        }
        Err(refusal) => {
            let status = print_refusal(writer, refusal);
            (disk, status)
        }
    }
}

/// Prints a line for each subkey of a key and then for each of its values, in their orders. Files are read and synced,
/// and memory isn't given back, as by [`get_value`]. The disk is handed back.
///
/// Refused, in a line that alone is printed, as [`named_tree`] is; and with `NotFound` if there is no such key.
pub fn list_key<D: Disk, W: Write>(
    alloc: Global,
    disk: D,
    hive: u8,
    path: &Path,
    writer: &mut W,
) -> (D, io::Result<Status>)
    ensures reports { IfOk result.1 (ReportsAnswer (D.failures disk < D.failures result.0)
        (D.faithful result.0) (seen_in (D.state_at disk (D.clock disk))) hive
        (key_answer path.now) (W.contents writer.old) (W.contents writer.new)) }
    ensures synced { D.faithful result.0 → OnlySyncs (D.state_at disk) (D.state_at result.0)
        (D.clock disk) (D.clock result.0) }
{
    store_hive::laws::as_the_store_recovers();
    let mut disk = disk;
    match named_tree(alloc, &mut disk, hive) {
        Ok(tree) => {
            let status = print_key(writer, &tree, path);
            forget(tree);
            (disk, status)
        }
        Err(refusal) => {
            let status = print_refusal(writer, refusal);
            (disk, status)
        }
    }
}

// prints a value of a tree
fn print_value<W: Write>(
    writer: &mut W,
    tree: &Tree,
    path: &Path,
    name: &ValueName,
    form: ValueForm,
) -> io::Result<Status>
    ensures { IfOk result (PrintsAnswer (value_answer form path.now name.now tree.now)
        (W.contents writer.old) (W.contents writer.new)) }
{
    match tree.get_value(path, name.name()) {
        Ok(value) => {
            write_in(writer, form, value)?;
            writer.flush()?;
            Ok(Status::Clean)
        }
        Err(_) => print_refusal(writer, Refusal::NotFound),
    }
}

/// Writes a value in a form.
pub(crate) fn write_in<W: Write>(writer: &mut W, form: ValueForm, value: &Value) -> io::Result<()>
    ensures { OnOk result (Appends (W.contents writer.old) (W.contents writer.new)
        (value_text form value.now)) }
{
    match form {
        ValueForm::Line => write_datum_line(writer, value),
        ValueForm::Data => writer.write_all(value.data.bytes()),
    }
}

// prints the lines of a key of a tree
fn print_key<W: Write>(writer: &mut W, tree: &Tree, path: &Path) -> io::Result<Status>
    ensures { IfOk result (PrintsAnswer (key_answer path.now tree.now)
        (W.contents writer.old) (W.contents writer.new)) }
{
    let Ok(info) = tree.query_info(path) else {
        return print_refusal(writer, Refusal::NotFound);
    };
    write_subkeys(writer, tree, path, info.subkeys)?;
    write_values(writer, tree, path, info.values)?;
    writer.flush()?;
    Ok(Status::Clean)
}
