//! Keys as lines of tab-separated fields.
ghost use Rattle.std.specs.Prelude.{◌++◌, OnOk, codes};
ghost use Rattle.std.specs.List.{flat_map};
ghost use Rattle.std.specs.FinMap as finite;
ghost use Rattle.std.specs.Io.KnownBytes.{Appends};
ghost use Rattle.key_walk.specs.KeyPaths.{names_on};
ghost use Rattle.reg_export.specs.Fields.{name_field};
ghost use Rattle.reg_export.specs.TypeNames.{type_name};
ghost use Rattle.tree_printer.specs.Printed.{Printed, printed_none, printed_more};
ghost use Rattle.reg_export.specs.Meanings.{meant};
ghost use Rattle.reg_export.specs.TsvTexts.{tsv_key_fields, tsv_key_lines, tsv_value_fields, tsv_value_line, tsv_meaning};

use crate::meaning::{Meaning, data_meaning};
use crate::tsv_names::{write_name_field, write_path_field};
use crate::type_name::write_type;
use crate::unit_form::{UnitForm, write_byte_units};
use key_walk::{KeyPath, KeySink};
use reg_tree_parts::{Key, Value};
use reply_lines::write_data;
use std::io;
use std::io::Write;

/// Prints keys as lines of six fields, with a tab between each two: a line for each key, and after it one for each of
/// its values. It takes no memory.
///
/// Lines end with LF. The fields are the hive's number with the path, the moment of the key's last write as a FILETIME,
/// the value's name, its type, its data as hex digits, and what the data mean by their type. The last four are empty in
/// the line of a key. Names are UTF-8; a control character, `%` and half of a pair of surrogates are `%` and four hex
/// digits there. The other fields are ASCII.
#[derive(Drop)]
pub struct TsvSink<'a, W> {
    /// What is written into.
    pub writer: &'a mut W,
    /// The number of the hive whose keys come now.
    pub hive: u8,
}

impl<W: Write> KeySink for TsvSink<'_, W> {
    ghost Took = { λ old new keys. Printed tsv_key_lines (W.contents old.writer.now)
        (W.contents new.writer.now) old.hive new.hive old.writer.ghost_name
        new.writer.ghost_name keys };

    type Error = io::Error;

    /// Prints the lines of a key. `Err` says that a write failed.
    #[inline(never)] // so that each level takes little stack
    fn take(&mut self, path: &KeyPath<'_>, key: &Key) -> io::Result<()> {
        write_key(self.writer, self.hive, path, key)
    }

    ghost took_none = { λ sink. printed_none tsv_key_lines (W.contents sink.writer.now) sink.hive
        sink.writer.ghost_name };

    ghost took_more = { λ before between after front rest one two. printed_more tsv_key_lines
        (W.contents before.writer.now) (W.contents between.writer.now)
        (W.contents after.writer.now) before.hive between.hive after.hive
        before.writer.ghost_name between.writer.ghost_name after.writer.ghost_name front rest one
        two };
}

// the lines of a key
fn write_key<W: Write>(writer: &mut W, hive: u8, path: &KeyPath<'_>, key: &Key) -> io::Result<()>
    ensures { OnOk result (Appends (W.contents writer.old) (W.contents writer.new)
        (tsv_key_lines hive (names_on path.now, key.now))) }
{
    write_key_fields(writer, hive, path, key)?;
    writer.write_all(b"\t\t\t\t\n")?;
    write_values(writer, hive, path, key)
}

// the lines of a key's values
fn write_values<W: Write>(writer: &mut W, hive: u8, path: &KeyPath<'_>, key: &Key) -> io::Result<()>
    ensures { OnOk result (Appends (W.contents writer.old) (W.contents writer.new)
        (flat_map (tsv_value_line (tsv_key_fields hive (names_on path.now, key.now)))
        (finite.values key.now.values))) }
{
    let values = key.values();
    for index in 0..values.len() {
        let Some(value) = values.at(index) else {
            unreachable!();
        };
        write_value(writer, hive, path, key, value)?;
    }
    Ok(())
}

// the line of a value
fn write_value<W: Write>(
    writer: &mut W,
    hive: u8,
    path: &KeyPath<'_>,
    key: &Key,
    value: &Value,
) -> io::Result<()>
    ensures { OnOk result (Appends (W.contents writer.old) (W.contents writer.new)
        (tsv_value_line (tsv_key_fields hive (names_on path.now, key.now)) value.now)) }
{
    write_key_fields(writer, hive, path, key)?;
    write_value_fields(writer, value)?;
    writer.write_all(b"\n")
}

// the fields with which each line of a key begins
fn write_key_fields<W: Write>(
    writer: &mut W,
    hive: u8,
    path: &KeyPath<'_>,
    key: &Key,
) -> io::Result<()>
    ensures { OnOk result (Appends (W.contents writer.old) (W.contents writer.new)
        (tsv_key_fields hive (names_on path.now, key.now))) }
{
    write!(writer, "{hive}:")?;
    write_path_field(writer, path)?;
    write!(writer, "\t{}", key.time())
}

// the fields of a value
fn write_value_fields<W: Write>(writer: &mut W, value: &Value) -> io::Result<()>
    ensures { OnOk result (Appends (W.contents writer.old) (W.contents writer.new)
        (tsv_value_fields value.now)) }
{
    write_name_and_type(writer, value)?;
    let bytes = value.data.bytes();
    write_data(writer, bytes)?;
    writer.write_all(b"\t")?;
    write_meaning(writer, data_meaning(value.kind, bytes))
}

// the fields of a name and a type, and the tab after them
fn write_name_and_type<W: Write>(writer: &mut W, value: &Value) -> io::Result<()>
    ensures { OnOk result (Appends (W.contents writer.old) (W.contents writer.new)
        (codes "\t" ++ name_field value.now.name ++ codes "\t" ++ type_name value.now.kind
        ++ codes "\t")) }
{
    writer.write_all(b"\t")?;
    write_name_field(writer, value.name.units())?;
    writer.write_all(b"\t")?;
    write_type(writer, value.kind)?;
    writer.write_all(b"\t")
}

// the field of what data mean
fn write_meaning<W: Write>(writer: &mut W, meaning: Meaning<'_>) -> io::Result<()>
    ensures { OnOk result (Appends (W.contents writer.old) (W.contents writer.new)
        (tsv_meaning (meant meaning.entry))) }
{
    match meaning {
        Meaning::Text(bytes) => write_byte_units(writer, UnitForm::Tsv, bytes),
        Meaning::NoTexts => Ok(()),
        Meaning::Texts(bytes) => write_byte_units(writer, UnitForm::Tsv, bytes),
        Meaning::Number(number) => write!(writer, "{number}"),
        Meaning::WideNumber(number) => write!(writer, "{number}"),
        Meaning::Unknown => Ok(()),
    }
}
