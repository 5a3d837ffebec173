//! The fields of a value in a line of JSON.
ghost use Rattle.std.specs.Prelude.{OnOk, ◌++◌, codes};
ghost use Rattle.std.specs.Io.KnownBytes.{Appends};
ghost use Rattle.hex.specs.Hex.{encode_lower};
ghost use Rattle.reg_export.specs.ByteUnits.{units_of};
ghost use Rattle.reg_export.specs.TypeNames.{type_name};
ghost use Rattle.reg_export.specs.Meanings.{parted, meant};
ghost use Rattle.reg_export.specs.JsonTexts.{json_string, json_texts, json_meaning, json_value_fields};

use crate::meaning::{Meaning, data_meaning};
use crate::type_name::write_type;
use crate::unit_form::{UnitForm, write_byte_units, write_units};
use reg_tree_parts::Value;
use reply_lines::write_data;
use std::io;
use std::io::Write;

/// Writes the fields of a value: its name, its type, its data, and what they mean.
pub(crate) fn write_fields<W: Write>(writer: &mut W, value: &Value) -> io::Result<()>
    ensures { OnOk result (Appends (W.contents writer.old) (W.contents writer.new)
        (json_value_fields value.now)) }
{
    write_name_and_type(writer, value)?;
    let bytes = value.data.bytes();
    write_hex(writer, bytes)?;
    writer.write_all(b"\"")?;
    write_meaning(writer, data_meaning(value.kind, bytes))
}

// the fields of a name and a type, and the beginning of the data's
fn write_name_and_type<W: Write>(writer: &mut W, value: &Value) -> io::Result<()>
    ensures { OnOk result (Appends (W.contents writer.old) (W.contents writer.new)
        (codes ",\"name\":" ++ json_string value.now.name ++ codes ",\"type\":\""
        ++ type_name value.now.kind ++ codes "\",\"data\":\"")) }
{
    writer.write_all(b",\"name\":\"")?;
    write_units(writer, UnitForm::Json, value.name.units())?;
    writer.write_all(b"\",\"type\":\"")?;
    write_type(writer, value.kind)?;
    writer.write_all(b"\",\"data\":\"")
}

/// Writes bytes as pairs of hex digits.
pub(crate) fn write_hex<W: Write>(writer: &mut W, bytes: &[u8]) -> io::Result<()>
    ensures { OnOk result (Appends (W.contents writer.old) (W.contents writer.new)
        (encode_lower bytes.now)) }
{
    if bytes.is_empty() {
        return Ok(());
    }
    write_data(writer, bytes)
}

// the field of what data mean
fn write_meaning<W: Write>(writer: &mut W, meaning: Meaning<'_>) -> io::Result<()>
    ensures { OnOk result (Appends (W.contents writer.old) (W.contents writer.new)
        (json_meaning (meant meaning.entry))) }
{
    match meaning {
        Meaning::Text(bytes) => write_text(writer, bytes),
        Meaning::NoTexts => writer.write_all(b",\"texts\":[]"),
        Meaning::Texts(bytes) => write_texts(writer, bytes),
        Meaning::Number(number) => write!(writer, ",\"number\":{number}"),
        Meaning::WideNumber(number) => write!(writer, ",\"number\":\"{number}\""),
        Meaning::Unknown => Ok(()),
    }
}

// the field of a text, by the bytes of its units
fn write_text<W: Write>(writer: &mut W, bytes: &[u8]) -> io::Result<()>
    ensures { OnOk result (Appends (W.contents writer.old) (W.contents writer.new)
        (codes ",\"text\":" ++ json_string (units_of bytes.now))) }
{
    writer.write_all(b",\"text\":\"")?;
    write_byte_units(writer, UnitForm::Json, bytes)?;
    writer.write_all(b"\"")
}

// the field of texts, by the bytes of their units
fn write_texts<W: Write>(writer: &mut W, bytes: &[u8]) -> io::Result<()>
    ensures { OnOk result (Appends (W.contents writer.old) (W.contents writer.new)
        (json_texts (parted (units_of bytes.now)))) }
{
    writer.write_all(b",\"texts\":[\"")?;
    write_byte_units(writer, UnitForm::JsonTexts, bytes)?;
    writer.write_all(b"\"]")
}
