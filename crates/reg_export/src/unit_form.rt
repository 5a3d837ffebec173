//! Units of names and of data, in JSON and in TSV.
ghost use Rattle.std.specs.Prelude.{OnOk};
ghost use Rattle.std.specs.List.{flat_map};
ghost use Rattle.std.specs.Io.KnownBytes.{Appends};
ghost use Rattle.reg_export.specs.ByteUnits.{units_of};
ghost use Rattle.reg_export.specs.UnitForms.{form_text, json_unit, meaning_unit};

use crate::byte_units::first_unit;
use reply_lines::{write_data, write_name};
use std::io;
use std::io::Write;

/// How a unit is written.
#[derive(Clone, Copy)]
pub(crate) enum UnitForm {
    /// In a string of JSON.
    Json,
    /// In strings of JSON, one after the other: a unit 0 is between two of them.
    JsonTexts,
    /// In the last field of a line of TSV.
    Tsv,
}

/// Writes units.
#[inline(never)] // so that each level takes little stack
pub(crate) fn write_units<W: Write>(writer: &mut W, form: UnitForm, units: &[u16]) -> io::Result<()>
    ensures { OnOk result (Appends (W.contents writer.old) (W.contents writer.new)
        (flat_map (form_text form) units.now)) }
{
    for unit in units {
        write_unit(writer, form, *unit)?;
    }
    Ok(())
}

/// Writes the units of bytes, two bytes each.
pub(crate) fn write_byte_units<W: Write>(
    writer: &mut W,
    form: UnitForm,
    bytes: &[u8],
) -> io::Result<()>
    ensures { OnOk result (Appends (W.contents writer.old) (W.contents writer.new)
        (flat_map (form_text form) (units_of bytes.now))) }
{
    let mut rest = bytes;
    while let Some((unit, others)) = first_unit(rest) {
        write_unit(writer, form, unit)?;
        rest = others;
    }
    Ok(())
}

fn write_unit<W: Write>(writer: &mut W, form: UnitForm, unit: u16) -> io::Result<()>
    ensures { OnOk result (Appends (W.contents writer.old) (W.contents writer.new)
        (form_text form unit)) }
{
    match form {
        UnitForm::Json => write_json(writer, unit),
        UnitForm::JsonTexts => match unit {
            0 => writer.write_all(b"\",\""),
            _ => write_json(writer, unit),
        },
        UnitForm::Tsv => match unit {
            0x20 => writer.write_all(b" "),
            0x40 => writer.write_all(b"@"),
            _ => write_name(writer, &[unit]),
        },
    }
}

// a unit of a string of JSON
fn write_json<W: Write>(writer: &mut W, unit: u16) -> io::Result<()>
    ensures { OnOk result (Appends (W.contents writer.old) (W.contents writer.new)
        (json_unit unit)) }
{
    match unit {
        0x22 => writer.write_all(b"\\\""),
        0x5c => writer.write_all(b"\\\\"),
        0x20..=0x7e => writer.write_all(&[unit as u8]),
        _ => {
            writer.write_all(b"\\u")?;
            write_data(writer, &unit.to_be_bytes())
        }
    }
}
