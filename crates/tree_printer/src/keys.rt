//! The lines of keys.
ghost use Rattle.std.specs.Prelude.{OnOk};
ghost use Rattle.std.specs.Io.KnownBytes.{Appends};
ghost use Rattle.key_walk.specs.KeyPaths.{names_on};
ghost use Rattle.tree_printer.specs.TreeTexts.{key_lines, named_lines, tree_text};
ghost use Rattle.tree_printer.specs.Printed.{Printed, printed_none, printed_more};

use crate::key_path::write_key_path;
use crate::values::write_values;
use key_walk::{KeyPath, KeySink, walk_tree};
use reg_tree::Tree;
use reg_tree_parts::Key;
use std::io;
use std::io::Write;

/// Writes the text of a tree, as the hive of this number. First comes a line for the hive. Then for each key in the
/// order of paths come its line and a line for each of its values, in the order of their names. It takes no memory.
/// `Err` says that a write failed.
pub fn write_tree<W: Write>(writer: &mut W, hive: u8, tree: &Tree) -> io::Result<()>
    ensures { OnOk result (Appends (W.contents writer.old) (W.contents writer.new)
        (tree_text hive tree.now)) }
{
    writeln!(writer, "hive {hive}")?;
    walk_tree(&mut KeyLines { writer, hive }, tree)
}

// prints the lines of keys
#[derive(Drop)]
struct KeyLines<'a, W> {
    writer: &'a mut W,
    hive: u8,
}

impl<W: Write> KeySink for KeyLines<'_, W> {
    ghost Took = { λ old new keys. Printed named_lines (W.contents old.writer.now)
        (W.contents new.writer.now) old.hive new.hive old.writer.ghost_name
        new.writer.ghost_name keys };

    type Error = io::Error;

    #[inline(never)] // so that each level takes little stack
    fn take(&mut self, path: &KeyPath<'_>, key: &Key) -> io::Result<()> {
        write_key(self.writer, self.hive, path, key)
    }

    ghost took_none = { λ sink. printed_none named_lines (W.contents sink.writer.now) sink.hive
        sink.writer.ghost_name };

    ghost took_more = { λ before between after front rest one two. printed_more named_lines
        (W.contents before.writer.now) (W.contents between.writer.now)
        (W.contents after.writer.now) before.hive between.hive after.hive
        before.writer.ghost_name between.writer.ghost_name after.writer.ghost_name front rest one
        two };
}

// writes the line of a key, to which this way leads, and the lines of its values
fn write_key<W: Write>(writer: &mut W, hive: u8, path: &KeyPath<'_>, key: &Key) -> io::Result<()>
    ensures { OnOk result (Appends (W.contents writer.old) (W.contents writer.new)
        (key_lines hive (names_on path.now) key.now)) }
{
    write!(writer, "key {hive}:")?;
    write_key_path(writer, path)?;
    writeln!(writer, " {}", key.time())?;
    write_values(writer, key.values())
}
