//! The lines of a store's hives.
ghost use Rattle.std.specs.Prelude.{◌≡◌, ◌<◌, length, OnOk};
ghost use Rattle.std.specs.Io.KnownBytes.{Appends};
ghost use Rattle.recovery.specs.Retained.{numbered_changes};
ghost use Rattle.store_check.specs.StoreTexts.{applied_text, half_written_text, hive_line, hive_lines, hive_text, lacks_text, pages_text, repair_of, repair_text, state_line};

use hive_flush::HiveFile;
use recovery::RetainedChanges;
use std::io::{self, Write};

/// Writes the lines of hives, of which calls name the first `named`. They may lack some of the changes.
pub fn write_hives<W: Write>(
    writer: &mut W,
    named: u8,
    changes: &RetainedChanges,
    hives: &[HiveFile],
) -> io::Result<()>
    requires few { length hives.now < 256 }
    ensures { OnOk result (Appends (W.contents writer.old) (W.contents writer.new)
        (hive_lines named 0 (numbered_changes changes.now) hives.now)) }
{
    for hive in 0..hives.len() {
        write_hive(writer, named, changes, hive as u8, &hives[hive])?;
    }
    Ok(())
}

// the line of a hive
fn write_hive<W: Write>(
    writer: &mut W,
    named: u8,
    changes: &RetainedChanges,
    hive: u8,
    file: &HiveFile,
) -> io::Result<()>
    ensures { OnOk result (Appends (W.contents writer.old) (W.contents writer.new)
        (hive_line named hive (numbered_changes changes.now) file.now)) }
{
    let applied = file.applied();
    let count = changes.count_lacked(hive, applied);
    write_line(writer, named, hive, applied, repair_of(file), count)
}

// how many pages of a hive's file a repair writes, if a repair is left
fn repair_of(file: &HiveFile) -> Option<usize>
    ensures { result ≡ repair_of file.now }
{
    if file.is_whole() {
        return None;
    }
    Some(file.dirty_pages())
}

// the same, by numbers
fn write_line<W: Write>(
    writer: &mut W,
    named: u8,
    hive: u8,
    applied: u64,
    repair: Option<usize>,
    count: usize,
) -> io::Result<()>
    ensures { OnOk result (Appends (W.contents writer.old) (W.contents writer.new)
        (state_line named hive applied repair count)) }
{
    write_applied(writer, named, hive, applied)?;
    write_repair(writer, repair)?;
    write_lacks(writer, count)
}

// a hive, and the number of the last change in its files
fn write_applied<W: Write>(writer: &mut W, named: u8, hive: u8, applied: u64) -> io::Result<()>
    ensures { OnOk result (Appends (W.contents writer.old) (W.contents writer.new)
        (applied_text named hive applied)) }
{
    write_which(writer, named, hive)?;
    write!(writer, ": applied {applied}")
}

// a hive by its number, if calls name it
fn write_which<W: Write>(writer: &mut W, named: u8, hive: u8) -> io::Result<()>
    ensures { OnOk result (Appends (W.contents writer.old) (W.contents writer.new)
        (hive_text named hive)) }
{
    if hive < named {
        write!(writer, "hive {hive}")
    } else {
        writer.write_all(b"outcomes")
    }
}

// whether a hive's file is half written, and how many pages of it its log repairs
fn write_repair<W: Write>(writer: &mut W, repair: Option<usize>) -> io::Result<()>
    ensures { OnOk result (Appends (W.contents writer.old) (W.contents writer.new)
        (repair_text repair)) }
{
    match repair {
        None => Ok(()),
        Some(pages) => write_half_written(writer, pages),
    }
}

fn write_half_written<W: Write>(writer: &mut W, pages: usize) -> io::Result<()>
    ensures { OnOk result (Appends (W.contents writer.old) (W.contents writer.new)
        (half_written_text pages)) }
{
    writer.write_all(b", half written")?;
    write_pages(writer, pages)
}

// how many pages of a half written file its log repairs, if there are any
fn write_pages<W: Write>(writer: &mut W, pages: usize) -> io::Result<()>
    ensures { OnOk result (Appends (W.contents writer.old) (W.contents writer.new)
        (pages_text pages)) }
{
    if pages == 0 {
        Ok(())
    } else if pages == 1 {
        writer.write_all(b" in 1 page")
    } else {
        write!(writer, " in {pages} pages")
    }
}

// what a hive's files lack
fn write_lacks<W: Write>(writer: &mut W, count: usize) -> io::Result<()>
    ensures { OnOk result (Appends (W.contents writer.old) (W.contents writer.new)
        (lacks_text count)) }
{
    if count == 0 {
        writer.write_all(b", has all changes\n")
    } else if count == 1 {
        writer.write_all(b", lacks 1 change; the next run moves it in\n")
    } else {
        writeln!(
            writer,
            ", lacks {count} changes; the next run moves them in"
        )
    }
}
