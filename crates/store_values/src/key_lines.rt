//! The lines of a key's subkeys and values.
ghost use Rattle.std.specs.Prelude.{◌≡◌, OnOk, length};
ghost use Rattle.std.specs.List.{flat_map};
ghost use Rattle.std.specs.Io.KnownBytes.{Appends};
ghost use Rattle.reg_names.specs.Names.{folded_path};
ghost use Rattle.store_values.specs.Answers.{datum_line, subkey_line, value_line};
ghost use Rattle.store_values.specs.Listed.{subkeys_at, values_at};

use reg_names::{Name, Path};
use reg_tree::{Tree, Value};
use reply_lines::write_name;
use std::io::{self, Write};
use value_syntax::write_datum;

/// Prints a line for each subkey of a key, in their order.
pub(crate) fn write_subkeys<W: Write>(
    writer: &mut W,
    tree: &Tree,
    path: &Path,
    count: usize,
) -> io::Result<()>
    requires { count ≡ length (subkeys_at tree.now (folded_path path.now)) }
    ensures { OnOk result (Appends (W.contents writer.old) (W.contents writer.new)
        (flat_map subkey_line (subkeys_at tree.now (folded_path path.now)))) }
{
    for index in 0..count {
        let Ok(name) = tree.enum_key(path, index) else {
            unreachable!();
        };
        write_subkey(writer, name)?;
    }
    Ok(())
}

/// Writes the line of a subkey.
pub(crate) fn write_subkey<W: Write>(writer: &mut W, name: &Name) -> io::Result<()>
    ensures { OnOk result (Appends (W.contents writer.old) (W.contents writer.new) (subkey_line name.now)) }
{
    writer.write_all(b"key ")?;
    write_name(writer, name.units())?;
    writer.write_all(b"\n")
}

/// Prints a line for each value of a key, in their order.
pub(crate) fn write_values<W: Write>(
    writer: &mut W,
    tree: &Tree,
    path: &Path,
    count: usize,
) -> io::Result<()>
    requires { count ≡ length (values_at tree.now (folded_path path.now)) }
    ensures { OnOk result (Appends (W.contents writer.old) (W.contents writer.new)
        (flat_map value_line (values_at tree.now (folded_path path.now)))) }
{
    for index in 0..count {
        let Ok(value) = tree.enum_value(path, index) else {
            unreachable!();
        };
        write_value(writer, value)?;
    }
    Ok(())
}

/// Writes the line of a value.
pub(crate) fn write_value<W: Write>(writer: &mut W, value: &Value) -> io::Result<()>
    ensures { OnOk result (Appends (W.contents writer.old) (W.contents writer.new)
        (value_line value.now)) }
{
    writer.write_all(b"value ")?;
    write_name(writer, value.name.units())?;
    writer.write_all(b" ")?;
    write_datum_line(writer, value)
}

/// Prints the line of a value's type and data.
pub(crate) fn write_datum_line<W: Write>(writer: &mut W, value: &Value) -> io::Result<()>
    ensures { OnOk result (Appends (W.contents writer.old) (W.contents writer.new)
        (datum_line value.now)) }
{
    write_datum(writer, value.kind, value.data.bytes())?;
    writer.write_all(b"\n")
}
