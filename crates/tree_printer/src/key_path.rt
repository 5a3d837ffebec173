//! The text of a path.
ghost use Rattle.std.specs.Prelude.{◌∷◌, OnOk};
ghost use Rattle.std.specs.List.{flat_map};
ghost use Rattle.std.specs.Io.KnownBytes.{Appends};
ghost use Rattle.reply_lines.specs.Replies.{name_text};
ghost use Rattle.tree_printer.specs.TreeTexts.{path_text};
ghost use Rattle.key_walk.specs.KeyPaths.{names_on};

use key_walk::KeyPath;
use reg_names::Name;
use reply_lines::write_name;
use std::io;
use std::io::Write;

/// Writes the names of a path with a backslash between each two.
pub fn write_path<W: Write>(writer: &mut W, names: &[Name]) -> io::Result<()>
    ensures { OnOk result (Appends (W.contents writer.old) (W.contents writer.new)
        (path_text names.now)) }
{
    match names.split_first() {
        None => Ok(()),
        Some((first, others)) => {
            write_name(writer, first.units())?;
            write_others(writer, others)
        }
    }
}

// writes the names of a path after its first one, each after a backslash
fn write_others<W: Write>(writer: &mut W, names: &[Name]) -> io::Result<()>
    ensures { OnOk result (Appends (W.contents writer.old) (W.contents writer.new)
        (flat_map (λ name. 92 ∷ name_text name) names.now)) }
{
    for name in names {
        writer.write_all(b"\\")?;
        write_name(writer, name.units())?;
    }
    Ok(())
}

/// Writes the names on the way to a key with a backslash between each two.
pub fn write_key_path<W: Write>(writer: &mut W, key_path: &KeyPath<'_>) -> io::Result<()>
    ensures { OnOk result (Appends (W.contents writer.old) (W.contents writer.new)
        (path_text (names_on key_path.now))) }
{
    match key_path {
        KeyPath::Root => Ok(()),
        KeyPath::Below(above, name) => match above {
            KeyPath::Root => write_name(writer, name.units()),
            KeyPath::Below(..) => {
                write_key_path(writer, above)?;
                writer.write_all(b"\\")?;
                write_name(writer, name.units())
            }
        },
    }
}
