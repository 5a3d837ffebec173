//! The keys of a tree in memory, and of a part of it, as lines.
ghost use Rattle.std.specs.Prelude.{OnOk};
ghost use Rattle.std.specs.List.{flat_map};
ghost use Rattle.std.specs.Io.KnownBytes.{Appends};
ghost use Rattle.reg_names.specs.Names.{folded_path};
ghost use Rattle.key_walk.specs.KeyRows.{tree_rows};
ghost use Rattle.key_walk.specs.SubtreeRows.{rows_below};
ghost use Rattle.reg_export.specs.TsvTexts.{tsv_key_lines};
ghost use Rattle.store_export.specs.Exports.{PrintsLines};

use key_walk::{walk_below, walk_tree};
use reg_export::{JsonSink, TsvSink};
use reg_names::Name;
use reg_tree::Tree;
use std::io::{self, Write};

pub(crate) fn print_json<W: Write>(writer: &mut W, hive: u8, tree: &Tree) -> io::Result<()>
    ensures { OnOk result (PrintsLines hive (tree_rows tree.now) (W.contents writer.old)
        (W.contents writer.new)) }
{
    walk_tree(&mut JsonSink { writer, hive }, tree)
}

pub(crate) fn print_json_below<W: Write>(
    writer: &mut W,
    hive: u8,
    tree: &Tree,
    path: &[Name],
) -> io::Result<()>
    ensures { OnOk result (PrintsLines hive (rows_below tree.now (folded_path path.now))
        (W.contents writer.old) (W.contents writer.new)) }
{
    match walk_below(&mut JsonSink { writer, hive }, tree, path) {
        Ok(_) => Ok(()),
        Err(error) => Err(error),
    }
}

pub(crate) fn print_tsv<W: Write>(writer: &mut W, hive: u8, tree: &Tree) -> io::Result<()>
    ensures { OnOk result (Appends (W.contents writer.old) (W.contents writer.new)
        (flat_map (tsv_key_lines hive) (tree_rows tree.now))) }
{
    walk_tree(&mut TsvSink { writer, hive }, tree)
}

pub(crate) fn print_tsv_below<W: Write>(
    writer: &mut W,
    hive: u8,
    tree: &Tree,
    path: &[Name],
) -> io::Result<()>
    ensures { OnOk result (Appends (W.contents writer.old) (W.contents writer.new)
        (flat_map (tsv_key_lines hive) (rows_below tree.now (folded_path path.now)))) }
{
    match walk_below(&mut TsvSink { writer, hive }, tree, path) {
        Ok(_) => Ok(()),
        Err(error) => Err(error),
    }
}
