//! The fields that the line of a key alone has in JSON.
ghost use Rattle.std.specs.Prelude.{◌++◌, OnOk, codes};
ghost use Rattle.std.specs.Io.KnownBytes.{Appends};
ghost use Rattle.hex.specs.Hex.{encode_lower};
ghost use Rattle.reg_export.specs.ByteUnits.{units_of};
ghost use Rattle.reg_export.specs.JsonTexts.{json_class, json_descriptor, json_own_fields, json_string};

use crate::json_value::write_hex;
use crate::unit_form::{UnitForm, write_byte_units};
use reg_tree_parts::Key;
use std::io;
use std::io::Write;

/// Writes flags, class and descriptor of a key. A class or a descriptor without bytes has no field.
pub(crate) fn write_own_fields<W: Write>(writer: &mut W, key: &Key) -> io::Result<()>
    ensures { OnOk result (Appends (W.contents writer.old) (W.contents writer.new)
        (json_own_fields key.now)) }
{
    write!(writer, ",\"flags\":{}", key.flags())?;
    write_class(writer, key.class())?;
    write_descriptor(writer, key.descriptor().bytes())
}

// a class of whole units is a text; any other is its bytes
fn write_class<W: Write>(writer: &mut W, bytes: &[u8]) -> io::Result<()>
    ensures { OnOk result (Appends (W.contents writer.old) (W.contents writer.new)
        (json_class bytes.now)) }
{
    if bytes.is_empty() {
        return Ok(());
    }
    if bytes.len() % 2 == 0 {
        write_class_text(writer, bytes)
    } else {
        write_class_bytes(writer, bytes)
    }
}

fn write_class_text<W: Write>(writer: &mut W, bytes: &[u8]) -> io::Result<()>
    ensures { OnOk result (Appends (W.contents writer.old) (W.contents writer.new)
        (codes ",\"class\":" ++ json_string (units_of bytes.now))) }
{
    writer.write_all(b",\"class\":\"")?;
    write_byte_units(writer, UnitForm::Json, bytes)?;
    writer.write_all(b"\"")
}

fn write_class_bytes<W: Write>(writer: &mut W, bytes: &[u8]) -> io::Result<()>
    ensures { OnOk result (Appends (W.contents writer.old) (W.contents writer.new)
        (codes ",\"class_hex\":\"" ++ encode_lower bytes.now ++ codes "\"")) }
{
    writer.write_all(b",\"class_hex\":\"")?;
    write_hex(writer, bytes)?;
    writer.write_all(b"\"")
}

fn write_descriptor<W: Write>(writer: &mut W, bytes: &[u8]) -> io::Result<()>
    ensures { OnOk result (Appends (W.contents writer.old) (W.contents writer.new)
        (json_descriptor bytes.now)) }
{
    if bytes.is_empty() {
        return Ok(());
    }
    writer.write_all(b",\"descriptor\":\"")?;
    write_hex(writer, bytes)?;
    writer.write_all(b"\"")
}
