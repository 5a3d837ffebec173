//! Units of names and of data in a registration file.
ghost use Rattle.std.specs.Prelude.{OnOk};
ghost use Rattle.std.specs.List.{flat_map};
ghost use Rattle.reg_export.specs.ByteUnits.{units_of};
ghost use Rattle.reg_export.specs.Characters.{IsFirst, units_in};
ghost use Rattle.reg_export.specs.Encodings.{Prints};
ghost use Rattle.reg_export.specs.RegTexts.{escaped_unit};

use crate::byte_units::first_unit;
use crate::characters::{First, first_of};
use crate::encoding::{Encoding, write_pair, write_text, write_unit};
use std::io;
use std::io::Write;

/// Writes units as they are.
#[inline(never)] // so that each level takes little stack
pub(crate) fn write_plain_units<W: Write>(
    writer: &mut W,
    encoding: Encoding,
    units: &[u16],
) -> io::Result<()>
    ensures { OnOk result (Prints encoding (W.contents writer.old) (W.contents writer.new)
        units.now) }
{
    let mut rest = units;
    while let Some((first, others)) = first_of(rest) {
        write_plain(writer, encoding, first)?;
        rest = others;
    }
    Ok(())
}

/// Writes units within quotes.
pub(crate) fn write_quoted_units<W: Write>(
    writer: &mut W,
    encoding: Encoding,
    units: &[u16],
) -> io::Result<()>
    ensures { OnOk result (Prints encoding (W.contents writer.old) (W.contents writer.new)
        (flat_map escaped_unit units.now)) }
{
    let mut rest = units;
    while let Some((first, others)) = first_of(rest) {
        write_quoted(writer, encoding, first)?;
        rest = others;
    }
    Ok(())
}

/// Writes the units of bytes within quotes. In UTF-8 a surrogate is refused with `InvalidInput`, also one of a pair.
pub(crate) fn write_quoted_byte_units<W: Write>(
    writer: &mut W,
    encoding: Encoding,
    bytes: &[u8],
) -> io::Result<()>
    ensures { OnOk result (Prints encoding (W.contents writer.old) (W.contents writer.new)
        (flat_map escaped_unit (units_of bytes.now))) }
{
    let mut rest = bytes;
    while let Some((unit, others)) = first_unit(rest) {
        write_escaped(writer, encoding, unit)?;
        rest = others;
    }
    Ok(())
}

fn write_plain<W: Write>(writer: &mut W, encoding: Encoding, first: First) -> io::Result<()>
    requires { IsFirst first }
    ensures { OnOk result (Prints encoding (W.contents writer.old) (W.contents writer.new)
        (units_in first)) }
{
    match first {
        First::Pair(high, low) => write_pair(writer, encoding, high, low),
        First::Single(unit) => write_unit(writer, encoding, unit),
    }
}

fn write_quoted<W: Write>(writer: &mut W, encoding: Encoding, first: First) -> io::Result<()>
    requires { IsFirst first }
    ensures { OnOk result (Prints encoding (W.contents writer.old) (W.contents writer.new)
        (flat_map escaped_unit (units_in first))) }
{
    match first {
        First::Pair(high, low) => write_pair(writer, encoding, high, low),
        First::Single(unit) => write_escaped(writer, encoding, unit),
    }
}

fn write_escaped<W: Write>(writer: &mut W, encoding: Encoding, unit: u16) -> io::Result<()>
    ensures { OnOk result (Prints encoding (W.contents writer.old) (W.contents writer.new)
        (escaped_unit unit)) }
{
    match unit {
        0x22 => write_text(writer, encoding, b"\\\""),
        0x5c => write_text(writer, encoding, b"\\\\"),
        _ => write_unit(writer, encoding, unit),
    }
}
