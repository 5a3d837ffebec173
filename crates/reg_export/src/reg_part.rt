//! Registration files of a part of a hive in memory.
ghost use Rattle.std.specs.Prelude.{◌≡◌, ◌↔◌, ◌∷◌, [], OnOk, IfOk, IsTrue, false, true};
ghost use Rattle.std.specs.Bool.{OnTrue, OnFalse};
ghost use Rattle.std.specs.List.{flat_map};
ghost use Rattle.std.specs.Io.KnownBytes.{Appends, Keeps};
ghost use Rattle.reg_names.specs.Names.{folded_path};
ghost use Rattle.reg_tree.specs.Maps.{is_there};
ghost use Rattle.reg_export.specs.Encodings.{Prints, PrintsFile};
ghost use Rattle.reg_export.specs.RegTexts.{reg_hive_lines, reg_units};
ghost use Rattle.reg_export.specs.NameTests.{can_show};
ghost use Rattle.reg_export.specs.Scans.{scan_with, new_scan, shown_names};
ghost use Rattle.reg_export.specs.RegFiles.{file_names, reg_text};
ghost use Rattle.reg_export.specs.Hives.{keys_below};

use crate::encoding::Encoding;
use crate::name_scan::NameScan;
use crate::reg_sink::{RegSink, write_reg_header};
use crate::whole_file::{HiveKeys, RegFileError};
use key_walk::walk_below;
use reg_names::Name;
use std::io;
use std::io::Write;

/// Writes the registration file of the key at a path of a hive and of all keys below it in this encoding, and answers
/// whether the key is there. If it isn't, nothing is written. It takes no memory.
pub fn write_reg_below<W: Write>(
    writer: &mut W,
    encoding: Encoding,
    hive: &HiveKeys<'_>,
    path: &[Name],
) -> Result<bool, RegFileError>
    ensures there { IfOk result (λ there. there
        ≡ is_there hive.now.tree.now (folded_path path.now)) }
    ensures text { IfOk result (λ there. OnTrue there
        (Appends (W.contents writer.old) (W.contents writer.new)
        (reg_text encoding (keys_below hive.now (folded_path path.now) ∷ [])))) }
    ensures missing { IfOk result (λ there. OnFalse there
        (Keeps (W.contents writer.old) (W.contents writer.new))) }
    ensures bad_name { (result ≡ Err RegFileError.BadName) ↔ (can_show encoding
        (file_names (keys_below hive.now (folded_path path.now) ∷ [])) ≡ false) }
    ensures unwritten { result ≡ Err RegFileError.BadName →
        Keeps (W.contents writer.old) (W.contents writer.new) }
{
    let (scan, there) = scan_part(hive, path);
    if !scan.can_show(encoding) {
        return Err(RegFileError::BadName);
    }
    if !there {
        return Ok(false);
    }
    write_part(writer, encoding, hive, path)?;
    Ok(true)
}

// what the names of a part mean for a file, and whether its key is there
fn scan_part(hive: &HiveKeys<'_>, path: &[Name]) -> (NameScan, bool)
    ensures scan { result.0 ≡ scan_with new_scan
        (file_names (keys_below hive.now (folded_path path.now) ∷ [])) }
    ensures there { result.1 ≡ is_there hive.now.tree.now (folded_path path.now) }
{
    let mut scan = NameScan::new();
    let Ok(there) = walk_below(&mut scan, hive.tree, path);
    (scan, there)
}

// the whole file of a part in this encoding
fn write_part<W: Write>(
    writer: &mut W,
    encoding: Encoding,
    hive: &HiveKeys<'_>,
    path: &[Name],
) -> io::Result<()>
    ensures { OnOk result (PrintsFile encoding (W.contents writer.old) (W.contents writer.new)
        (reg_units (keys_below hive.now (folded_path path.now) ∷ []))) }
{
    write_reg_header(writer, encoding)?;
    write_lines(writer, encoding, hive, path)
}

// the lines of a part
fn write_lines<W: Write>(
    writer: &mut W,
    encoding: Encoding,
    hive: &HiveKeys<'_>,
    path: &[Name],
) -> io::Result<()>
    ensures { OnOk result (Prints encoding (W.contents writer.old) (W.contents writer.new)
        (reg_hive_lines (keys_below hive.now (folded_path path.now)))) }
{
    match walk_below(
        &mut RegSink {
            writer,
            encoding,
            prefix: hive.prefix,
        },
        hive.tree,
        path,
    ) {
        Ok(_) => Ok(()),
        Err(error) => Err(error),
    }
}
