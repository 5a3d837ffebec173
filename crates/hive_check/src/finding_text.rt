//! The lines that show what is found of the bins data of a hive's file.
ghost use Rattle.std.specs.Prelude.{◌+◌, ◌++◌, [], codes, OnOk};
ghost use Rattle.std.specs.Io.KnownBytes.{Appends};
ghost use Rattle.refusals.specs.Refusals.{refusal_text};
ghost use Rattle.tree_printer.specs.TreeTexts.{path_text};
ghost use Rattle.key_walk.specs.KeyPaths.{names_on};
ghost use Rattle.hive_check.specs.ReportTexts.{cells_line, finding_text, free_text, image_lines, key_text, keys_line, keys_lines, weight_line, offset_text, refused_lines, tile_lines, weight_verdict, advice_line, unread_lines, reason_text, tile_reason, image_reason};

use crate::advice::{advice, file_advice};
use crate::cell_counts::{BINS_AT, CellCounts, TileFault};
use crate::finding::Finding;
use crate::key_counts::KeyCounts;
use hive_walk::{Fault, ImageError};
use key_walk::KeyPath;
use refusals::limits::MOST_WEIGHT;
use refusals::{Cause, Refusal};
use reg_names::Name;
use std::io::{self, Write};
use tree_printer::write_key_path;

/// Writes the lines of a finding, of which the last is `whole` or what to do. The file may be a log by its base block.
pub fn write_finding<W: Write>(writer: &mut W, is_log: bool, finding: &Finding) -> io::Result<()>
    ensures { OnOk result (Appends (W.contents writer.old) (W.contents writer.new)
        (finding_text is_log finding.now)) }
{
    match finding {
        Finding::Refused(refusal) => write_unread(writer, is_log, *refusal),
        Finding::Untiled(fault) => write_tile_fault(writer, *fault),
        Finding::Unwalked(cells, error) => {
            write_cells(writer, cells)?;
            write_image_error(writer, error)
        }
        Finding::Walked(cells, keys) => {
            write_cells(writer, cells)?;
            write_keys(writer, keys)?;
            write_verdict(writer, keys.weight)
        }
    }
}

/// Writes why a file holds no tree, and where that stands in it; nothing if it holds one. No line is ended.
pub fn write_reason<W: Write>(writer: &mut W, finding: &Finding) -> io::Result<()>
    ensures { OnOk result (Appends (W.contents writer.old) (W.contents writer.new)
        (reason_text finding.now)) }
{
    match finding {
        Finding::Refused(refusal) => write_refusal(writer, *refusal),
        Finding::Untiled(fault) => write_tile_reason(writer, *fault),
        Finding::Unwalked(_, error) => write_image_reason(writer, error),
        Finding::Walked(..) => Ok(()),
    }
}

// where bins and cells don't tile
fn write_tile_reason<W: Write>(writer: &mut W, fault: TileFault) -> io::Result<()>
    ensures { OnOk result (Appends (W.contents writer.old) (W.contents writer.new)
        (tile_reason fault)) }
{
    match fault {
        TileFault::Bin { at } => write_placed(writer, Refusal::from(Cause::BadBin), at),
        TileFault::Cell { at } => write_placed(writer, Refusal::from(Cause::BadCell), at),
    }
}

// a refusal, and an offset in the file
fn write_placed<W: Write>(writer: &mut W, refusal: Refusal, at: usize) -> io::Result<()>
    ensures { OnOk result (Appends (W.contents writer.old) (W.contents writer.new)
        (refusal_text refusal ++ offset_text at)) }
{
    write_refusal(writer, refusal)?;
    write_offset(writer, at)
}

// why there is no tree, and where
fn write_image_reason<W: Write>(writer: &mut W, error: &ImageError) -> io::Result<()>
    ensures { OnOk result (Appends (W.contents writer.old) (W.contents writer.new)
        (image_reason error.now)) }
{
    match error {
        ImageError::NoMemory => write_refusal(writer, Refusal::NoMemory),
        ImageError::Fault(fault) => write_fault_reason(writer, fault),
    }
}

// a fault of a key, and where it stands
fn write_fault_reason<W: Write>(writer: &mut W, fault: &Fault) -> io::Result<()>
    ensures { OnOk result (Appends (W.contents writer.old) (W.contents writer.new)
        (refusal_text fault.now.refusal ++ (offset_text (4096 + fault.now.at) ++ key_text fault.now.path.items))) }
{
    write_refusal(writer, fault.refusal)?;
    let at = BINS_AT + fault.at as usize;
    write_offset(writer, at)?;
    write_key(writer, &fault.path)
}

/// Writes why nothing is found of a file's bins data, which may be a log by its base block, and what to do.
pub fn write_unread<W: Write>(writer: &mut W, is_log: bool, refusal: Refusal) -> io::Result<()>
    ensures { OnOk result (Appends (W.contents writer.old) (W.contents writer.new)
        (unread_lines is_log refusal)) }
{
    let advice = file_advice(is_log, refusal);
    write_refusal(writer, refusal)?;
    writeln!(writer, "\n{advice}")
}

// a refusal without a place, and what to do
fn write_refused<W: Write>(writer: &mut W, refusal: Refusal) -> io::Result<()>
    ensures { OnOk result (Appends (W.contents writer.old) (W.contents writer.new)
        (refused_lines refusal [])) }
{
    write_refusal(writer, refusal)?;
    write_advice(writer, refusal)
}

// the refusal, without a line's end
fn write_refusal<W: Write>(writer: &mut W, refusal: Refusal) -> io::Result<()>
    ensures { OnOk result (Appends (W.contents writer.old) (W.contents writer.new)
        (refusal_text refusal)) }
{
    write!(writer, "{refusal}")
}

// the end of a refusal's line, and what to do
fn write_advice<W: Write>(writer: &mut W, refusal: Refusal) -> io::Result<()>
    ensures { OnOk result (Appends (W.contents writer.old) (W.contents writer.new)
        (codes "\n" ++ advice_line refusal)) }
{
    let advice = advice(refusal);
    writeln!(writer, "\n{advice}")
}

// a place in the file
fn write_offset<W: Write>(writer: &mut W, at: usize) -> io::Result<()>
    ensures { OnOk result (Appends (W.contents writer.old) (W.contents writer.new)
        (offset_text at)) }
{
    write!(writer, " at 0x{at:x}")
}

// where bins and cells don't tile
fn write_tile_fault<W: Write>(writer: &mut W, fault: TileFault) -> io::Result<()>
    ensures { OnOk result (Appends (W.contents writer.old) (W.contents writer.new)
        (tile_lines fault)) }
{
    match fault {
        TileFault::Bin { at } => write_at(writer, Refusal::from(Cause::BadBin), at),
        TileFault::Cell { at } => write_at(writer, Refusal::from(Cause::BadCell), at),
    }
}

// a refusal at an offset in the file
fn write_at<W: Write>(writer: &mut W, refusal: Refusal, at: usize) -> io::Result<()>
    ensures { OnOk result (Appends (W.contents writer.old) (W.contents writer.new)
        (refused_lines refusal (offset_text at))) }
{
    write_refusal(writer, refusal)?;
    write_offset(writer, at)?;
    write_advice(writer, refusal)
}

// why there is no tree
fn write_image_error<W: Write>(writer: &mut W, error: &ImageError) -> io::Result<()>
    ensures { OnOk result (Appends (W.contents writer.old) (W.contents writer.new)
        (image_lines error.now)) }
{
    match error {
        ImageError::NoMemory => write_refused(writer, Refusal::NoMemory),
        ImageError::Fault(fault) => write_fault(writer, fault),
    }
}

// a fault of a key
fn write_fault<W: Write>(writer: &mut W, fault: &Fault) -> io::Result<()>
    ensures { OnOk result (Appends (W.contents writer.old) (W.contents writer.new)
        (refused_lines fault.now.refusal (offset_text (4096 + fault.now.at) ++ key_text fault.now.path.items))) }
{
    write_refusal(writer, fault.refusal)?;
    write_offset(writer, BINS_AT + fault.at as usize)?;
    write_key(writer, &fault.path)?;
    write_advice(writer, fault.refusal)
}

// the key to which names lead
fn write_key<W: Write>(writer: &mut W, names: &[Name]) -> io::Result<()>
    ensures { OnOk result (Appends (W.contents writer.old) (W.contents writer.new)
        (key_text names.now)) }
{
    if names.is_empty() {
        return writer.write_all(b" in the root");
    }
    writer.write_all(b" in ")?;
    write_path(writer, &KeyPath::Root, names)
}

// the path to a key, to which names lead from another on
fn write_path<W: Write>(writer: &mut W, above: &KeyPath<'_>, names: &[Name]) -> io::Result<()>
    ensures { OnOk result (Appends (W.contents writer.old) (W.contents writer.new)
        (path_text (names_on above.now ++ names.now))) }
{
    match names.split_first() {
        None => write_key_path(writer, &*above),
        Some((name, rest)) => write_path(writer, &KeyPath::Below(&*above, name), rest),
    }
}

// the cells, and the free ones
fn write_cells<W: Write>(writer: &mut W, cells: &CellCounts) -> io::Result<()>
    ensures { OnOk result (Appends (W.contents writer.old) (W.contents writer.new)
        (cells_line cells.now)) }
{
    let all = cells.all;
    write!(writer, "{all} cells, ")?;
    write_free(writer, cells.free, cells.free_bytes)
}

fn write_free<W: Write>(writer: &mut W, free: usize, free_bytes: usize) -> io::Result<()>
    ensures { OnOk result (Appends (W.contents writer.old) (W.contents writer.new)
        (free_text free free_bytes)) }
{
    write!(writer, "{free} free with ")?;
    writeln!(writer, "{free_bytes} bytes")
}

// the keys and values, and their weight
fn write_keys<W: Write>(writer: &mut W, counts: &KeyCounts) -> io::Result<()>
    ensures { OnOk result (Appends (W.contents writer.old) (W.contents writer.new)
        (keys_lines counts.now)) }
{
    write_key_count(writer, counts.keys, counts.values)?;
    write_weight(writer, counts.weight)
}

fn write_key_count<W: Write>(writer: &mut W, keys: u64, values: u64) -> io::Result<()>
    ensures { OnOk result (Appends (W.contents writer.old) (W.contents writer.new)
        (keys_line keys values)) }
{
    writeln!(writer, "{keys} keys, {values} values")
}

fn write_weight<W: Write>(writer: &mut W, weight: u64) -> io::Result<()>
    ensures { OnOk result (Appends (W.contents writer.old) (W.contents writer.new)
        (weight_line weight)) }
{
    writeln!(writer, "weight {weight} of {MOST_WEIGHT}")
}

// the last line, if there is a tree
fn write_verdict<W: Write>(writer: &mut W, weight: u64) -> io::Result<()>
    ensures { OnOk result (Appends (W.contents writer.old) (W.contents writer.new)
        (weight_verdict weight)) }
{
    if weight <= MOST_WEIGHT {
        writer.write_all(b"whole\n")
    } else {
        writer.write_all(b"too large for a store: `export` prints it\n")
    }
}
