//! Keys as the lines of a registration file.
ghost use Rattle.std.specs.Prelude.{◌++◌, OnOk, codes};
ghost use Rattle.key_walk.specs.KeyPaths.{names_on};
ghost use Rattle.reg_export.specs.Encodings.{Prints, PrintsFile};
ghost use Rattle.reg_export.specs.RegTexts.{line, reg_header, reg_path, reg_key_lines};
ghost use Rattle.reg_export.specs.SinkLaws.{RegPrinted, reg_printed_none, reg_printed_more};

use crate::encoding::{Encoding, write_mark, write_text};
use crate::key_names::write_path;
use crate::reg_value::write_values;
use key_walk::{KeyPath, KeySink};
use reg_tree_parts::Key;
use std::io;
use std::io::Write;

/// Writes what stands before the keys of a registration file: a mark if it is UTF-16, the line of version 5, and an
/// empty line.
pub fn write_reg_header<W: Write>(writer: &mut W, encoding: Encoding) -> io::Result<()>
    ensures { OnOk result (PrintsFile encoding (W.contents writer.old) (W.contents writer.new)
        reg_header) }
{
    write_mark(writer, encoding)?;
    write_text(
        writer,
        encoding,
        b"Windows Registry Editor Version 5.00\r\n\r\n",
    )
}

/// Prints keys as lines of a registration file, each key behind the prefix of its hive. It takes no memory.
///
/// It is for a file that was begun in this encoding by [`write_reg_header`], and for names that a
/// [`NameScan`](crate::NameScan) finds fit for it. A name with the unit 0, 10 or 13 is printed as it is, and makes the
/// file another one.
#[derive(Drop)]
pub struct RegSink<'a, W> {
    /// What is written into.
    pub writer: &'a mut W,
    /// How the file's units become bytes.
    pub encoding: Encoding,
    /// What stands before the paths of the keys that come now, such as `HKEY_LOCAL_MACHINE\SOFTWARE`: units that are
    /// bytes from 0x20 to 0x7e.
    pub prefix: &'a [u8],
}

impl<W: Write> KeySink for RegSink<'_, W> {
    ghost Took = { λ old new keys. RegPrinted (W.contents old.writer.now)
        (W.contents new.writer.now) old.encoding new.encoding old.prefix.now
        new.prefix.now old.writer.ghost_name new.writer.ghost_name keys };

    type Error = io::Error;

    /// Prints the lines of a key. `Err` says that a write failed, or that in UTF-8 half of a pair of surrogates stands in
    /// a name.
    #[inline(never)] // so that each level takes little stack
    fn take(&mut self, path: &KeyPath<'_>, key: &Key) -> io::Result<()> {
        write_key(self.writer, self.encoding, self.prefix, path, key)
    }

    ghost took_none = { λ sink. reg_printed_none (W.contents sink.writer.now) sink.encoding
        sink.prefix.now sink.writer.ghost_name };

    ghost took_more = { λ before between after front rest one two. reg_printed_more
        (W.contents before.writer.now) (W.contents between.writer.now)
        (W.contents after.writer.now) before.encoding between.encoding after.encoding
        before.prefix.now between.prefix.now after.prefix.now
        before.writer.ghost_name between.writer.ghost_name after.writer.ghost_name front rest one
        two };
}

// the lines of a key
fn write_key<W: Write>(
    writer: &mut W,
    encoding: Encoding,
    prefix: &[u8],
    path: &KeyPath<'_>,
    key: &Key,
) -> io::Result<()>
    ensures { OnOk result (Prints encoding (W.contents writer.old) (W.contents writer.new)
        (reg_key_lines prefix.now (names_on path.now, key.now))) }
{
    write_key_line(writer, encoding, prefix, path)?;
    write_values(writer, encoding, key.values())?;
    write_text(writer, encoding, b"\r\n")
}

// the line of a key's path
fn write_key_line<W: Write>(
    writer: &mut W,
    encoding: Encoding,
    prefix: &[u8],
    path: &KeyPath<'_>,
) -> io::Result<()>
    ensures { OnOk result (Prints encoding (W.contents writer.old) (W.contents writer.new)
        (line (codes "[" ++ reg_path prefix.now (names_on path.now) ++ codes "]"))) }
{
    write_text(writer, encoding, b"[")?;
    write_text(writer, encoding, prefix)?;
    write_path(writer, encoding, path)?;
    write_text(writer, encoding, b"]\r\n")
}
