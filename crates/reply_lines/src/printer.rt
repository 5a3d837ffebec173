//! Names and data as text: what replies and printed trees are made of. Nothing here takes memory.
ghost use Rattle.std.specs.Prelude.{◌∷◌, ◌≤◌, OnOk, length};
ghost use Rattle.std.specs.Io.KnownBytes.{Appends};
ghost use Rattle.std.specs.List.{flat_map};
ghost use Rattle.std.specs.Int.{w16, to_be_bytes};
ghost use Rattle.hex.specs.Hex.{encode_lower};
ghost use Rattle.reply_lines.specs.Replies.{unit_text, name_text, data_text};

use std::io;
use std::io::Write;

/// Bytes that are written as hex digits at once.
const PIECE: usize = 512;

/// Writes a name: the units 0x21 to 0x7e but `%` as they are, each other as `%` and four hex digits; the empty name as
/// `@`, and the name `@` as `%0040`.
pub fn write_name<W: Write>(writer: &mut W, name: &[u16]) -> io::Result<()>
    ensures { OnOk result (Appends (W.contents writer.old) (W.contents writer.new)
        (name_text name.now)) }
{
    match name {
        [] => writer.write_all(b"@"),
        [0x40] => writer.write_all(b"%0040"),
        _ => write_units(writer, name),
    }
}

fn write_units<W: Write>(writer: &mut W, units: &[u16]) -> io::Result<()>
    ensures { OnOk result (Appends (W.contents writer.old) (W.contents writer.new)
        (flat_map unit_text units.now)) }
{
    for unit in units {
        write_unit(writer, *unit)?;
    }
    Ok(())
}

fn write_unit<W: Write>(writer: &mut W, unit: u16) -> io::Result<()>
    ensures { OnOk result (Appends (W.contents writer.old) (W.contents writer.new)
        (unit_text unit)) }
{
    match unit {
        0x21..=0x24 | 0x26..=0x7e => writer.write_all(&[unit as u8]),
        _ => write_escape(writer, unit),
    }
}

// the unit by its number
fn write_escape<W: Write>(writer: &mut W, unit: u16) -> io::Result<()>
    ensures { OnOk result (Appends (W.contents writer.old) (W.contents writer.new)
        (37 ∷ encode_lower (to_be_bytes w16 unit))) }
{
    writer.write_all(b"%")?;
    write_hex(writer, &unit.to_be_bytes())
}

/// Writes bytes as pairs of hex digits, or `-` for none.
pub fn write_data<W: Write>(writer: &mut W, bytes: &[u8]) -> io::Result<()>
    ensures { OnOk result (Appends (W.contents writer.old) (W.contents writer.new)
        (data_text bytes.now)) }
{
    if bytes.is_empty() {
        writer.write_all(b"-")
    } else {
        write_hex(writer, bytes)
    }
}

// the bytes as pairs of hex digits, a chunk at a time
fn write_hex<W: Write>(writer: &mut W, bytes: &[u8]) -> io::Result<()>
    ensures { OnOk result (Appends (W.contents writer.old) (W.contents writer.new)
        (encode_lower bytes.now)) }
{
    let mut rest = bytes;
    while !rest.is_empty() {
        let (piece, others) = rest.split_at(rest.len().min(PIECE));
        write_piece(writer, piece)?;
        rest = others;
    }
    Ok(())
}

// at most a chunk of bytes as pairs of hex digits
fn write_piece<W: Write>(writer: &mut W, piece: &[u8]) -> io::Result<()>
    requires { length piece.now ≤ PIECE }
    ensures { OnOk result (Appends (W.contents writer.old) (W.contents writer.new)
        (encode_lower piece.now)) }
{
    let mut digits = [0u8; 2 * PIECE];
    let digits = &mut digits[..2 * piece.len()];
    if hex::encode_to_slice(piece, digits).is_err() {
        unreachable!()
    }
    writer.write_all(digits)
}
