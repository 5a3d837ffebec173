//! Names in a field between tabs.
ghost use Rattle.std.specs.Prelude.{OnOk};
ghost use Rattle.std.specs.Io.KnownBytes.{Appends};
ghost use Rattle.key_walk.specs.KeyPaths.{names_on};
ghost use Rattle.reg_export.specs.Characters.{IsFirst};
ghost use Rattle.reg_export.specs.Fields.{field_text, field_unit, first_field, name_field, path_field};

use crate::characters::{First, first_of, pair_char, write_found};
use key_walk::KeyPath;
use reply_lines::write_name;
use std::io;
use std::io::Write;

/// Writes the names of a path with a backslash between each two.
pub(crate) fn write_path_field<W: Write>(writer: &mut W, path: &KeyPath<'_>) -> io::Result<()>
    ensures { OnOk result (Appends (W.contents writer.old) (W.contents writer.new)
        (path_field (names_on path.now))) }
{
    match path {
        KeyPath::Root => Ok(()),
        KeyPath::Below(above, name) => match above {
            KeyPath::Root => write_name_field(writer, name.units()),
            KeyPath::Below(..) => {
                write_path_field(writer, above)?;
                writer.write_all(b"\\")?;
                write_name_field(writer, name.units())
            }
        },
    }
}

/// Writes a name: its characters in UTF-8, but a control character, `%`, and half of a pair of surrogates as `%` and four
/// hex digits; the empty name as `@`, and the name `@` as `%0040`.
#[inline(never)] // so that each level takes little stack
pub(crate) fn write_name_field<W: Write>(writer: &mut W, name: &[u16]) -> io::Result<()>
    ensures { OnOk result (Appends (W.contents writer.old) (W.contents writer.new)
        (name_field name.now)) }
{
    match name {
        [] => writer.write_all(b"@"),
        [0x40] => writer.write_all(b"%0040"),
        _ => write_units(writer, name),
    }
}

fn write_units<W: Write>(writer: &mut W, units: &[u16]) -> io::Result<()>
    ensures { OnOk result (Appends (W.contents writer.old) (W.contents writer.new)
        (field_text units.now)) }
{
    let mut rest = units;
    while let Some((first, others)) = first_of(rest) {
        write_first(writer, first)?;
        rest = others;
    }
    Ok(())
}

fn write_first<W: Write>(writer: &mut W, first: First) -> io::Result<()>
    requires { IsFirst first }
    ensures { OnOk result (Appends (W.contents writer.old) (W.contents writer.new)
        (first_field first)) }
{
    match first {
        First::Pair(high, low) => write_found(writer, pair_char(high, low)),
        First::Single(unit) => write_single(writer, unit),
    }
}

// a unit that is in no pair
fn write_single<W: Write>(writer: &mut W, unit: u16) -> io::Result<()>
    ensures { OnOk result (Appends (W.contents writer.old) (W.contents writer.new)
        (field_unit unit)) }
{
    match unit {
        0x20 => writer.write_all(b" "),
        0x40 => writer.write_all(b"@"),
        0x80..=0xd7ff | 0xe000..=0xffff => write_found(writer, char::from_u32(u32::from(unit))),
        _ => write_name(writer, &[unit]),
    }
}
