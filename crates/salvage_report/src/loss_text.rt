//! The lines that tell what isn't read.
ghost use Rattle.std.specs.Prelude.{◌+◌, ◌++◌, codes, OnOk};
ghost use Rattle.std.specs.Fmt.{decimal};
ghost use Rattle.std.specs.Io.KnownBytes.{Appends};
ghost use Rattle.key_walk.specs.KeyPaths.{names_on};
ghost use Rattle.salvage_report.specs.LossTexts.{clean_note, missing_note, sum_note, subkey_text, gap_line, key_text, kind_text, loss_line, part_text, place_text, left_out_text, printed_text, totals_line, unshown_line, why_text};

use crate::damaged_hive::HiveState;
use crate::totals::Totals;
use hive_mending::{Gap, GapKind};
use hive_salvage::{Loss, Part};
use key_walk::KeyPath;
use refusals::Refusal;
use std::io::{self, Write};
use tree_printer::write_key_path;

/// The offset of the bins data in a hive's file.
pub(crate) const BINS_AT: u64 = 4096;

const _: () = prove!(BINS_AT == 4096);

/// Writes the line of a loss of the key to which a way leads: an offset in the file, the cause, and the part.
pub(crate) fn write_loss<W: Write>(
    writer: &mut W,
    path: &KeyPath<'_>,
    loss: &Loss,
) -> io::Result<()>
    ensures { OnOk result (Appends (W.contents writer.old) (W.contents writer.new)
        (loss_line (names_on path.now) loss.now)) }
{
    write_place(writer, loss.at)?;
    write_why(writer, loss.why)?;
    write_part(writer, loss.part)?;
    write_key(writer, path)
}

/// Writes the line of a key that is read, but has a name that a registration file can't show.
pub(crate) fn write_unshown<W: Write>(writer: &mut W, path: &KeyPath<'_>) -> io::Result<()>
    ensures { OnOk result (Appends (W.contents writer.old) (W.contents writer.new)
        (unshown_line (names_on path.now))) }
{
    writer.write_all(b"BadName names of ")?;
    write_key(writer, path)
}

// a place in the file, and a blank
fn write_place<W: Write>(writer: &mut W, at: u32) -> io::Result<()>
    ensures { OnOk result (Appends (W.contents writer.old) (W.contents writer.new)
        (place_text at)) }
{
    let place = BINS_AT + at as u64;
    write!(writer, "0x{place:x} ")
}

// why something isn't read
fn write_why<W: Write>(writer: &mut W, why: Refusal) -> io::Result<()>
    ensures { OnOk result (Appends (W.contents writer.old) (W.contents writer.new)
        (why_text why)) }
{
    match why {
        Refusal::HiveDamaged { cause, .. } => write!(writer, "{cause}"),
        Refusal::Unsupported => writer.write_all(b"Unsupported"),
        Refusal::TooLarge => writer.write_all(b"TooLarge"),
        _ => write!(writer, "{why}"),
    }
}

// what isn't read, and a blank before and after it
fn write_part<W: Write>(writer: &mut W, part: Part) -> io::Result<()>
    ensures { OnOk result (Appends (W.contents writer.old) (W.contents writer.new)
        (part_text part)) }
{
    match part {
        Part::Class => writer.write_all(b" class of "),
        Part::Descriptor => writer.write_all(b" descriptor of "),
        Part::ValueList => writer.write_all(b" list of values of "),
        Part::ValueCount => writer.write_all(b" number of values of "),
        Part::Value(place) => write_number(writer, b" value ", place, b" of "),
        Part::SubkeyList => writer.write_all(b" list of keys below "),
        Part::Leaf(place) => write_number(writer, b" list ", place, b" of keys below "),
        Part::SubkeyCount => writer.write_all(b" number of keys below "),
        Part::Subkey { leaf, place } => write_subkey(writer, leaf, place),
        Part::Security => writer.write_all(b" security cells of "),
    }
}

// a subkey by its place in a list, which is named if it isn't the first one
fn write_subkey<W: Write>(writer: &mut W, leaf: u32, place: u32) -> io::Result<()>
    ensures { OnOk result (Appends (W.contents writer.old) (W.contents writer.new)
        (subkey_text leaf place)) }
{
    if leaf == 0 {
        return write_number(writer, b" key ", place, b" below ");
    }
    write_number(writer, b" key ", place, b" of")?;
    write_number(writer, b" list ", leaf, b" below ")
}

// a place among others, counted from 1 on, between words
fn write_number<W: Write>(writer: &mut W, before: &[u8], place: u32, after: &[u8]) -> io::Result<()>
    ensures { OnOk result (Appends (W.contents writer.old) (W.contents writer.new)
        (before.now ++ (decimal (place + 1) ++ after.now))) }
{
    writer.write_all(before)?;
    let number = place as u64 + 1;
    write!(writer, "{number}")?;
    writer.write_all(after)
}

// the key to which a way leads, and the line's end
fn write_key<W: Write>(writer: &mut W, path: &KeyPath<'_>) -> io::Result<()>
    ensures { OnOk result (Appends (W.contents writer.old) (W.contents writer.new)
        (key_text (names_on path.now))) }
{
    if let KeyPath::Root = path {
        return writer.write_all(b"the root\n");
    }
    write_key_path(writer, path)?;
    writer.write_all(b"\n")
}

/// Writes the line of a gap in the bins data: an offset in the file, what isn't there, and how many bytes it has.
pub fn write_gap<W: Write>(writer: &mut W, gap: Gap) -> io::Result<()>
    ensures { OnOk result (Appends (W.contents writer.old) (W.contents writer.new)
        (gap_line gap)) }
{
    write_place(writer, gap.at)?;
    write_kind(writer, gap.kind)?;
    let bytes = gap.bytes;
    writeln!(writer, "{bytes} bytes")
}

/// Writes the lines that tell the state of a file: that it isn't clean, that a sum is wrong, and how much is missing.
pub fn write_notes<W: Write>(writer: &mut W, state: &HiveState) -> io::Result<()>
    ensures { OnOk result (Appends (W.contents writer.old) (W.contents writer.new)
        (clean_note state.now ++ (sum_note state.now ++ missing_note state.now))) }
{
    write_clean_note(writer, state)?;
    write_sum_note(writer, state)?;
    write_missing_note(writer, state)
}

fn write_clean_note<W: Write>(writer: &mut W, state: &HiveState) -> io::Result<()>
    ensures { OnOk result (Appends (W.contents writer.old) (W.contents writer.new)
        (clean_note state.now)) }
{
    if state.is_clean {
        return Ok(());
    }
    writer.write_all(b"not clean: changes in its logs are missing\n")
}

fn write_sum_note<W: Write>(writer: &mut W, state: &HiveState) -> io::Result<()>
    ensures { OnOk result (Appends (W.contents writer.old) (W.contents writer.new)
        (sum_note state.now)) }
{
    if state.sum_is_right {
        return Ok(());
    }
    writer.write_all(b"wrong sum: the base block may be damaged\n")
}

fn write_missing_note<W: Write>(writer: &mut W, state: &HiveState) -> io::Result<()>
    ensures { OnOk result (Appends (W.contents writer.old) (W.contents writer.new)
        (missing_note state.now)) }
{
    if state.missing_bytes == 0 {
        return Ok(());
    }
    let at = state.bins_bytes.saturating_add(BINS_AT);
    let bytes = state.missing_bytes;
    writeln!(writer, "0x{at:x} Truncated {bytes} bytes")
}

fn write_kind<W: Write>(writer: &mut W, kind: GapKind) -> io::Result<()>
    ensures { OnOk result (Appends (W.contents writer.old) (W.contents writer.new)
        (kind_text kind)) }
{
    match kind {
        GapKind::BadBin => writer.write_all(b"BadBin "),
        GapKind::BadCell => writer.write_all(b"BadCell "),
    }
}

/// Writes the last line: how much was printed, and how much was left out, with the bytes of gaps.
pub fn write_totals<W: Write>(writer: &mut W, totals: &Totals, bytes: u64) -> io::Result<()>
    ensures { OnOk result (Appends (W.contents writer.old) (W.contents writer.new)
        (totals_line totals.now bytes)) }
{
    write_printed(writer, totals)?;
    write_left_out(writer, totals)?;
    let parts = totals.lost_parts;
    writeln!(writer, "{parts} other parts, {bytes} bytes")
}

// how much was printed
fn write_printed<W: Write>(writer: &mut W, totals: &Totals) -> io::Result<()>
    ensures { OnOk result (Appends (W.contents writer.old) (W.contents writer.new)
        (printed_text totals.now)) }
{
    let keys = totals.keys;
    let values = totals.values;
    write!(writer, "salvaged {keys} keys, {values} values; left out ")
}

// how many keys and values were left out
fn write_left_out<W: Write>(writer: &mut W, totals: &Totals) -> io::Result<()>
    ensures { OnOk result (Appends (W.contents writer.old) (W.contents writer.new)
        (left_out_text totals.now)) }
{
    let keys = totals.lost_keys;
    let values = totals.lost_values;
    write!(writer, "{keys} keys, {values} values, ")
}
