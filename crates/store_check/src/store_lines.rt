//! The lines of a store.
ghost use Rattle.std.specs.Prelude.{◌<◌, length, OnOk};
ghost use Rattle.std.specs.Io.KnownBytes.{Appends};
ghost use Rattle.store_check.specs.StoreTexts.{head_lines, id_line, journal_line, number_lines, refusal_lines, store_text};

use crate::advice::advice;
use crate::hive_lines::write_hives;
use recovery::RecoveredStore;
use refusals::Refusal;
use refusals::limits::MOST_JOURNAL_BYTES;
use std::io::{self, Write};
use uuid::Uuid;

/// Writes the lines of what was found of a store.
pub fn write_store<W: Write>(writer: &mut W, found: &RecoveredStore) -> io::Result<()>
    requires few { length found.now.hives.items < 256 }
    ensures { OnOk result (Appends (W.contents writer.old) (W.contents writer.new)
        (store_text found.now)) }
{
    write_head(writer, found)?;
    write_hives(writer, found.journal.hives(), &found.opened, &found.hives)?;
    writer.write_all(b"whole\n")
}

// the lines before those of the hives
fn write_head<W: Write>(writer: &mut W, found: &RecoveredStore) -> io::Result<()>
    ensures { OnOk result (Appends (W.contents writer.old) (W.contents writer.new)
        (head_lines found.now)) }
{
    write_id(writer, found.journal.id())?;
    write_number(writer, found.number, found.journal.hives())?;
    write_journal(writer, found.journal.used())
}

fn write_id<W: Write>(writer: &mut W, id: Uuid) -> io::Result<()>
    ensures { OnOk result (Appends (W.contents writer.old) (W.contents writer.new)
        (id_line id)) }
{
    writeln!(writer, "store {id}")
}

// the number of the last change, and of hives that calls name
fn write_number<W: Write>(writer: &mut W, number: u64, hives: u8) -> io::Result<()>
    ensures { OnOk result (Appends (W.contents writer.old) (W.contents writer.new)
        (number_lines number hives)) }
{
    writeln!(writer, "number {number}\nhives {hives}")
}

// the room that is used in the journal
fn write_journal<W: Write>(writer: &mut W, used: u64) -> io::Result<()>
    ensures { OnOk result (Appends (W.contents writer.old) (W.contents writer.new)
        (journal_line used)) }
{
    writeln!(writer, "journal {used} of {MOST_JOURNAL_BYTES} bytes")
}

/// Writes the lines of a refusal: why, and what to do.
pub fn write_refusal<W: Write>(writer: &mut W, refusal: Refusal) -> io::Result<()>
    ensures { OnOk result (Appends (W.contents writer.old) (W.contents writer.new)
        (refusal_lines refusal)) }
{
    let advice = advice(refusal);
    write!(writer, "{refusal}")?;
    writeln!(writer, "\n{advice}")
}
