//! The lines that show a hive's base block.
ghost use Rattle.std.specs.Prelude.{List, ℕ, OnOk};
ghost use Rattle.std.specs.Io.KnownBytes.{Appends};
ghost use Rattle.hive_check.specs.BlockTexts.{IsBlockText, IsMomentText, PrintsBlock, head_text, numbers_line, store_line, sum_line, right_sum_text, type_text, version_line, bins_line, written_line};

use crate::block_report::BlockReport;
use crate::cell_counts::BINS_AT;
use base_block::BaseBlock;
use reg_export::utc_text;
use std::io::{self, Write};

/// Writes the lines of a base block, if there is one.
pub fn write_block<W: Write>(writer: &mut W, report: &Option<BlockReport>) -> io::Result<()>
    ensures { OnOk result ((text : List ℕ) × IsBlockText report.now text
        × Appends (W.contents writer.old) (W.contents writer.new) text) }
{
    match report {
        Some(report) => write_fields(writer, report),
        None => Ok(()),
    }
}

// the lines of a base block
fn write_fields<W: Write>(writer: &mut W, report: &BlockReport) -> io::Result<()>
    ensures { OnOk result (PrintsBlock report.now (W.contents writer.old) (W.contents writer.new)) }
{
    write_head(writer, report)?;
    write_moment(writer, report.block.last_written)?;
    write_store(writer, &report.block)
}

// the lines before the moment
fn write_head<W: Write>(writer: &mut W, report: &BlockReport) -> io::Result<()>
    ensures { OnOk result (Appends (W.contents writer.old) (W.contents writer.new)
        (head_text report.now)) }
{
    write_version(writer, &report.block)?;
    write_bins(writer, &report.block)?;
    write_sum(writer, report)?;
    write_numbers(writer, &report.block)
}

// versions, type and format
fn write_version<W: Write>(writer: &mut W, block: &BaseBlock) -> io::Result<()>
    ensures { OnOk result (Appends (W.contents writer.old) (W.contents writer.new)
        (version_line block.now)) }
{
    let major = block.major;
    let minor = block.minor;
    write!(writer, "version {major}.{minor}")?;
    write_type(writer, block.file_type.0, block.format)
}

fn write_type<W: Write>(writer: &mut W, file_type: u32, format: u32) -> io::Result<()>
    ensures { OnOk result (Appends (W.contents writer.old) (W.contents writer.new)
        (type_text file_type format)) }
{
    writeln!(writer, ", type {file_type}, format {format}")
}

// the size of the bins data, and the root's offset in the file
fn write_bins<W: Write>(writer: &mut W, block: &BaseBlock) -> io::Result<()>
    ensures { OnOk result (Appends (W.contents writer.old) (W.contents writer.new)
        (bins_line block.now)) }
{
    let bins_size = block.bins_size;
    write!(writer, "bins {bins_size} bytes, root at ")?;
    let root = BINS_AT + block.root as usize;
    writeln!(writer, "0x{root:x}")
}

// the sum, and the right one if it is wrong
fn write_sum<W: Write>(writer: &mut W, report: &BlockReport) -> io::Result<()>
    ensures { OnOk result (Appends (W.contents writer.old) (W.contents writer.new)
        (sum_line report.now)) }
{
    let sum = report.sum;
    write!(writer, "sum 0x{sum:x}")?;
    write_right_sum(writer, report.block.sum_is_right, report.right_sum)
}

// the right sum if it is another, and the line's end
fn write_right_sum<W: Write>(writer: &mut W, sum_is_right: bool, right_sum: u32) -> io::Result<()>
    ensures { OnOk result (Appends (W.contents writer.old) (W.contents writer.new)
        (right_sum_text sum_is_right right_sum)) }
{
    if sum_is_right {
        writer.write_all(b"\n")
    } else {
        writeln!(writer, ", should be 0x{right_sum:x}")
    }
}

// both numbers, and whether the block is clean
fn write_numbers<W: Write>(writer: &mut W, block: &BaseBlock) -> io::Result<()>
    ensures { OnOk result (Appends (W.contents writer.old) (W.contents writer.new)
        (numbers_line block.now)) }
{
    let primary = block.primary.0;
    let secondary = block.secondary.0;
    if block.is_clean() {
        writeln!(writer, "numbers {primary} and {secondary}, clean")
    } else {
        writeln!(writer, "numbers {primary} and {secondary}, not clean")
    }
}

// when the hive was written last
fn write_moment<W: Write>(writer: &mut W, time: u64) -> io::Result<()>
    ensures { OnOk result ((moment : List ℕ) × IsMomentText time moment
        × Appends (W.contents writer.old) (W.contents writer.new) (written_line moment)) }
{
    match utc_text(time) {
        Some(text) => write_written(writer, text.as_str()),
        None => writeln!(writer, "written {time}"),
    }
}

fn write_written<W: Write>(writer: &mut W, moment: &str) -> io::Result<()>
    ensures { OnOk result (Appends (W.contents writer.old) (W.contents writer.new)
        (written_line moment.now)) }
{
    writeln!(writer, "written {moment}")
}

// the store's id and the number of the last change, if the hive is one of a store
fn write_store<W: Write>(writer: &mut W, block: &BaseBlock) -> io::Result<()>
    ensures { OnOk result (Appends (W.contents writer.old) (W.contents writer.new)
        (store_line block.now)) }
{
    if block.store.is_nil() {
        return Ok(());
    }
    let store = block.store;
    let applied = block.applied.0;
    writeln!(writer, "store {store}, applied {applied}")
}
