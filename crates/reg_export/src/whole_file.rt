//! Whole registration files of hives in memory.
ghost use Rattle.std.specs.Prelude.{◌≡◌, ◌↔◌, OnOk, map, false};
ghost use Rattle.std.specs.List.{flat_map};
ghost use Rattle.std.specs.Io.KnownBytes.{Appends, Keeps};
ghost use Rattle.reg_export.specs.Encodings.{Prints, PrintsFile};
ghost use Rattle.reg_export.specs.RegTexts.{reg_hive_lines, reg_units};
ghost use Rattle.reg_export.specs.NameTests.{can_show};
ghost use Rattle.reg_export.specs.Scans.{scan_with, new_scan};
ghost use Rattle.reg_export.specs.RegFiles.{file_names, reg_text};
ghost use Rattle.reg_export.specs.Hives.{keys_of};

use crate::encoding::Encoding;
use crate::name_scan::NameScan;
use crate::reg_sink::{RegSink, write_reg_header};
use key_walk::walk_tree;
use reg_tree::Tree;
use std::io;
use std::io::Write;

/// A hive whose keys a file shows, and the prefix of their paths.
#[derive(Clone, Copy)]
pub struct HiveKeys<'a> {
    /// The prefix: units that are bytes from 0x20 to 0x7e, such as those that `reg_prefixes` shows.
    pub prefix: &'a [u8],
    /// The hive's tree.
    pub tree: &'a Tree,
}

/// Why a registration file is not written to its end.
#[derive(Debug, Drop)]
pub enum RegFileError {
    /// A file in this encoding can't show a name of a key or a value: it has the unit 0, 10 or 13, or in UTF-8 half of a
    /// pair of surrogates. Nothing was written.
    BadName,
    /// A write failed. What was written before it stays written.
    Write(io::Error),
}

impl From<io::Error> for RegFileError {
    ghost use Rattle.reg_export.specs.declared.whole_file.RegFileError.TheVariants.{Write};

    ghost from_gives = { λ error made. made ≡ Write error };

    fn from(error: io::Error) -> RegFileError {
        RegFileError::Write(error)
    }
}

/// Writes the registration file of these hives, in this order and encoding. It takes no memory.
pub fn write_reg<W: Write>(
    writer: &mut W,
    encoding: Encoding,
    hives: &[HiveKeys<'_>],
) -> Result<(), RegFileError>
    ensures text { OnOk result (Appends (W.contents writer.old) (W.contents writer.new)
        (reg_text encoding (map keys_of hives.now))) }
    ensures bad_name { (result ≡ Err RegFileError.BadName)
        ↔ (can_show encoding (file_names (map keys_of hives.now)) ≡ false) }
    ensures unwritten { result ≡ Err RegFileError.BadName →
        Keeps (W.contents writer.old) (W.contents writer.new) }
{
    let scan = scan_hives(hives);
    if !scan.can_show(encoding) {
        return Err(RegFileError::BadName);
    }
    write_file(writer, encoding, hives)?;
    Ok(())
}

// what the names of hives mean for a file
fn scan_hives(hives: &[HiveKeys<'_>]) -> NameScan
    ensures { result ≡ scan_with new_scan (file_names (map keys_of hives.now)) }
{
    let mut scan = NameScan::new();
    for hive in hives {
        let Ok(()) = walk_tree(&mut scan, hive.tree);
    }
    scan
}

// the whole file in this encoding
fn write_file<W: Write>(
    writer: &mut W,
    encoding: Encoding,
    hives: &[HiveKeys<'_>],
) -> io::Result<()>
    ensures { OnOk result (PrintsFile encoding (W.contents writer.old) (W.contents writer.new)
        (reg_units (map keys_of hives.now))) }
{
    write_reg_header(writer, encoding)?;
    write_hives(writer, encoding, hives)
}

// the lines of hives
fn write_hives<W: Write>(
    writer: &mut W,
    encoding: Encoding,
    hives: &[HiveKeys<'_>],
) -> io::Result<()>
    ensures { OnOk result (Prints encoding (W.contents writer.old) (W.contents writer.new)
        (flat_map reg_hive_lines (map keys_of hives.now))) }
{
    for hive in hives {
        write_hive(writer, encoding, hive)?;
    }
    Ok(())
}

// the lines of a hive's keys
fn write_hive<W: Write>(writer: &mut W, encoding: Encoding, hive: &HiveKeys<'_>) -> io::Result<()>
    ensures { OnOk result (Prints encoding (W.contents writer.old) (W.contents writer.new)
        (reg_hive_lines (keys_of hive.now))) }
{
    walk_tree(
        &mut RegSink {
            writer,
            encoding,
            prefix: hive.prefix,
        },
        hive.tree,
    )
}
