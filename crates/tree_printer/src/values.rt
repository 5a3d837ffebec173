//! The lines of a key's values.
ghost use Rattle.std.specs.Prelude.{OnOk};
ghost use Rattle.std.specs.Io.KnownBytes.{Appends};
ghost use Rattle.std.specs.List.{flat_map};
ghost use Rattle.std.specs.FinMap as finite;
ghost use Rattle.tree_printer.specs.TreeTexts.{value_line};

use reg_tree_parts::{Value, Values};
use reply_lines::{write_data, write_name};
use std::io;
use std::io::Write;

/// Writes a line for each value, in the order of their names.
pub(crate) fn write_values<W: Write>(writer: &mut W, values: &Values) -> io::Result<()>
    ensures { OnOk result (Appends (W.contents writer.old) (W.contents writer.new)
        (flat_map value_line (finite.values values.now))) }
{
    for index in 0..values.len() {
        let Some(value) = values.at(index) else {
            unreachable!();
        };
        write_value(writer, value)?;
    }
    Ok(())
}

fn write_value<W: Write>(writer: &mut W, value: &Value) -> io::Result<()>
    ensures { OnOk result (Appends (W.contents writer.old) (W.contents writer.new)
        (value_line value.now)) }
{
    writer.write_all(b"val ")?;
    write_name(writer, value.name.units())?;
    write!(writer, " {} ", value.kind)?;
    write_data(writer, value.data.bytes())?;
    writer.write_all(b"\n")
}
