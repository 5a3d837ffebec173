//! The names that lead to a key, in a registration file and in JSON.
ghost use Rattle.std.specs.Prelude.{OnOk, ◌++◌, codes};
ghost use Rattle.std.specs.List.{flat_map, join_with_byte};
ghost use Rattle.std.specs.Io.KnownBytes.{Appends};
ghost use Rattle.key_walk.specs.KeyPaths.{names_on};
ghost use Rattle.reg_export.specs.Encodings.{Prints};
ghost use Rattle.reg_export.specs.UnitForms.{json_unit};

use crate::encoding::{Encoding, write_text};
use crate::reg_units::write_plain_units;
use crate::unit_form::{UnitForm, write_units};
use key_walk::KeyPath;
use std::io;
use std::io::Write;

/// Writes each name of a path after a backslash.
pub(crate) fn write_path<W: Write>(
    writer: &mut W,
    encoding: Encoding,
    path: &KeyPath<'_>,
) -> io::Result<()>
    ensures { OnOk result (Prints encoding (W.contents writer.old) (W.contents writer.new)
        (flat_map (λ name. codes "\\" ++ name) (names_on path.now))) }
{
    let KeyPath::Below(above, name) = path else {
        return Ok(());
    };
    write_path(writer, encoding, above)?;
    write_text(writer, encoding, b"\\")?;
    write_plain_units(writer, encoding, name.units())
}

/// Writes the names of a path within a string of JSON, with a backslash between each two.
pub(crate) fn write_json_path<W: Write>(writer: &mut W, path: &KeyPath<'_>) -> io::Result<()>
    ensures { OnOk result (Appends (W.contents writer.old) (W.contents writer.new)
        (flat_map json_unit (join_with_byte 92 (names_on path.now)))) }
{
    match path {
        KeyPath::Root => Ok(()),
        KeyPath::Below(above, name) => match above {
            KeyPath::Root => write_units(writer, UnitForm::Json, name.units()),
            KeyPath::Below(..) => {
                write_json_path(writer, above)?;
                writer.write_all(b"\\\\")?;
                write_units(writer, UnitForm::Json, name.units())
            }
        },
    }
}
