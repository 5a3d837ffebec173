//! Values in a registration file.
ghost use Rattle.std.specs.Prelude.{◌≡◌, ◌*◌, ◌+◌, ◌-◌, ◌^◌, min, OnOk, length};
ghost use Rattle.std.specs.List.{flat_map};
ghost use Rattle.std.specs.FinMap as finite;
ghost use Rattle.reg_export.specs.Encodings.{Prints};
ghost use Rattle.reg_export.specs.RegTexts.{escaped_unit, value_head, value_name_text, reg_value_line};

use crate::encoding::{Encoding, write_text};
use crate::reg_data::write_data;
use crate::reg_units::write_quoted_units;
use reg_tree_parts::{Value, Values};
use std::io;
use std::io::Write;

/// Writes the lines of values, in the order of their names.
pub(crate) fn write_values<W: Write>(
    writer: &mut W,
    encoding: Encoding,
    values: &Values,
) -> io::Result<()>
    ensures { OnOk result (Prints encoding (W.contents writer.old) (W.contents writer.new)
        (flat_map reg_value_line (finite.values values.now))) }
{
    for index in 0..values.len() {
        let Some(value) = values.at(index) else {
            unreachable!();
        };
        write_value(writer, encoding, value)?;
    }
    Ok(())
}

fn write_value<W: Write>(writer: &mut W, encoding: Encoding, value: &Value) -> io::Result<()>
    ensures { OnOk result (Prints encoding (W.contents writer.old) (W.contents writer.new)
        (reg_value_line value.now)) }
{
    let name = value.name.units();
    write_head(writer, encoding, name)?;
    write_data(
        writer,
        encoding,
        head_columns(name),
        value.kind,
        value.data.bytes(),
    )?;
    write_text(writer, encoding, b"\r\n")
}

// what stands before the data of a value of this name
fn write_head<W: Write>(writer: &mut W, encoding: Encoding, name: &[u16]) -> io::Result<()>
    ensures { OnOk result (Prints encoding (W.contents writer.old) (W.contents writer.new)
        (value_head name.now)) }
{
    write_name(writer, encoding, name)?;
    write_text(writer, encoding, b"=")
}

// the name of a value
fn write_name<W: Write>(writer: &mut W, encoding: Encoding, name: &[u16]) -> io::Result<()>
    ensures { OnOk result (Prints encoding (W.contents writer.old) (W.contents writer.new)
        (value_name_text name.now)) }
{
    if name.is_empty() {
        return write_text(writer, encoding, b"@");
    }
    write_text(writer, encoding, b"\"")?;
    write_quoted_units(writer, encoding, name)?;
    write_text(writer, encoding, b"\"")
}

// how many units stand before the data of a value of this name, or the greatest number of 64 bits if that is less
fn head_columns(name: &[u16]) -> usize
    ensures { result ≡ min (length (value_head name.now)) usize.MAX }
{
    if name.is_empty() {
        return 2;
    }
    let mut columns: usize = 3;
    for unit in name {
        columns = columns.saturating_add(escaped_columns(*unit));
    }
    columns
}

// how many units stand for this one within quotes
fn escaped_columns(unit: u16) -> usize
    ensures { result ≡ length (escaped_unit unit) }
{
    match unit {
        0x22 | 0x5c => 2,
        _ => 1,
    }
}
