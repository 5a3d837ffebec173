//! Types and data of values in a registration file.
ghost use Rattle.std.specs.Prelude.{◌≡◌, ◌+◌, ◌*◌, ◌≤◌, ◌++◌, ℕ, List, OnOk, IfOk, length};
ghost use Rattle.arrayvec.specs.ArrayVec.{array_vec_len};
ghost use Rattle.hex.specs.Hex.{encode_lower};
ghost use Rattle.std.specs.List.{flat_map, list_all};
ghost use Rattle.reg_names.specs.Printable.{is_printable};
ghost use Rattle.reg_export.specs.ByteUnits.{units_of, is_plain_text, front_units};
ghost use Rattle.reg_export.specs.Encodings.{Prints};
ghost use Rattle.reg_export.specs.RegTexts.{data_text, number_text, list_text, list_label, byte_list, quoted, next_byte, separator, next_column, at_columns};

use crate::block::{BLOCK_BYTES, Block, add};
use crate::byte_units::first_unit;
use crate::encoding::{Encoding, write_text};
use crate::reg_units::write_quoted_byte_units;
use arrayvec::ArrayString;
use std::fmt::Write as _;
use std::io::{ErrorKind, Write};
use std::{fmt, io};

/// The type of a text with its terminator.
const TEXT: u32 = 1;

/// The type of bytes.
const BINARY: u32 = 3;

/// The type of a number of 32 bits.
const NUMBER: u32 = 4;

/// The bytes of the longest label of a list, `hex(ffffffff):`.
const LONGEST_LABEL: usize = 14;

/// The last column at which a byte may stand.
const LAST_COLUMN: usize = 76;

/// The column of the first byte of a line that is not the first.
const LINE_START: usize = 2;

/// The columns of a byte and the comma after it.
const BYTE_COLUMNS: usize = 3;

/// The most bytes of text that a byte after another takes: a comma, a line's end, two blanks and two digits.
const NEXT_BYTES: usize = 8;

/// Writes type and data of a value, whose line has so many units before them.
pub(crate) fn write_data<W: Write>(
    writer: &mut W,
    encoding: Encoding,
    column: usize,
    kind: u32,
    bytes: &[u8],
) -> io::Result<()>
    ensures { OnOk result (Prints encoding (W.contents writer.old) (W.contents writer.new)
        (data_text column kind bytes.now)) }
{
    if kind == TEXT && is_plain(bytes) {
        return write_quoted(writer, encoding, &bytes[..bytes.len() - 2]);
    }
    match (kind, bytes) {
        (NUMBER, [a, b, c, d]) => {
            write_number(writer, encoding, u32::from_le_bytes([*a, *b, *c, *d]))
        },
        _ => write_list(writer, encoding, column, kind, bytes),
    }
}

// whether the bytes are a text with its terminator, all of whose units are 0x20 to 0x7e
fn is_plain(bytes: &[u8]) -> bool
    ensures { result ≡ is_plain_text bytes.now }
{
    bytes.len() % 2 == 0 && bytes.ends_with(&[0, 0]) && are_plain_units(&bytes[..bytes.len() - 2])
}

// whether all units of the bytes are 0x20 to 0x7e
fn are_plain_units(bytes: &[u8]) -> bool
    ensures { result ≡ list_all is_printable (units_of bytes.now) }
{
    let mut rest = bytes;
    while let Some((unit, others)) = first_unit(rest) {
        if !matches!(unit, 0x20..=0x7e) {
            return false;
        }
        rest = others;
    }
    true
}

// the units of the bytes in quotes
fn write_quoted<W: Write>(writer: &mut W, encoding: Encoding, bytes: &[u8]) -> io::Result<()>
    ensures { OnOk result (Prints encoding (W.contents writer.old) (W.contents writer.new)
        (quoted (units_of bytes.now))) }
{
    write_text(writer, encoding, b"\"")?;
    write_quoted_byte_units(writer, encoding, bytes)?;
    write_text(writer, encoding, b"\"")
}

// a number of 32 bits
fn write_number<W: Write>(writer: &mut W, encoding: Encoding, number: u32) -> io::Result<()>
    ensures { OnOk result (Prints encoding (W.contents writer.old) (W.contents writer.new)
        (number_text number)) }
{
    write_text(writer, encoding, b"dword:")?;
    write_digits(writer, encoding, &number.to_be_bytes(), &mut [0; 8])
}

// the bytes as pairs of hex digits, which are made in a place of that many
fn write_digits<W: Write>(
    writer: &mut W,
    encoding: Encoding,
    bytes: &[u8],
    digits: &mut [u8],
) -> io::Result<()>
    requires { length digits.old ≡ 2 * length bytes.now }
    ensures { OnOk result (Prints encoding (W.contents writer.old) (W.contents writer.new)
        (encode_lower bytes.now)) }
{
    if hex::encode_to_slice(bytes, digits).is_err() {
        unreachable!()
    }
    write_text(writer, encoding, digits)
}

// the bytes as a list of this type, which begins at this column
fn write_list<W: Write>(
    writer: &mut W,
    encoding: Encoding,
    column: usize,
    kind: u32,
    bytes: &[u8],
) -> io::Result<()>
    ensures { OnOk result (Prints encoding (W.contents writer.old) (W.contents writer.new)
        (list_text column kind bytes.now)) }
{
    let Ok(label) = label_of(kind) else {
        return Err(io::Error::from(ErrorKind::InvalidInput));
    };
    let label = label.as_str().as_bytes();
    write_text(writer, encoding, label)?;
    write_bytes(writer, encoding, column.saturating_add(label.len()), bytes)
}

// what says that a list of this type follows
fn label_of(kind: u32) -> Result<ArrayString<LONGEST_LABEL>, fmt::Error>
    ensures { IfOk result (λ label. label.bytes ≡ list_label kind) }
{
    let mut label = ArrayString::new();
    if kind == BINARY {
        write!(label, "hex:")?;
        return Ok(label);
    }
    write!(label, "hex({kind:x}):")?;
    Ok(label)
}

// the bytes, parted by commas; the first stands at this column
fn write_bytes<W: Write>(
    writer: &mut W,
    encoding: Encoding,
    column: usize,
    bytes: &[u8],
) -> io::Result<()>
    ensures { OnOk result (Prints encoding (W.contents writer.old) (W.contents writer.new)
        (byte_list column bytes.now)) }
{
    let Some((first, rest)) = bytes.split_first() else {
        return Ok(());
    };
    write_digits(writer, encoding, &[*first], &mut [0; 2])?;
    write_next_bytes(writer, encoding, column_after(column), rest)
}

// bytes after another, the first of them at this column; they are written a block at a time
fn write_next_bytes<W: Write>(
    writer: &mut W,
    encoding: Encoding,
    column: usize,
    bytes: &[u8],
) -> io::Result<()>
    ensures { OnOk result (Prints encoding (W.contents writer.old) (W.contents writer.new)
        (flat_map next_byte (at_columns column bytes.now))) }
{
    let mut column = column;
    let mut block = Block::new();
    for byte in bytes {
        make_room(writer, encoding, &mut block)?;
        add_next_byte(&mut block, column, *byte);
        column = column_after(column);
    }
    write_text(writer, encoding, block.as_slice())
}

// writes the text of a block that has no room for another byte
fn make_room<W: Write>(writer: &mut W, encoding: Encoding, block: &mut Block) -> io::Result<()>
    ensures room { OnOk result (array_vec_len block.new + 8 ≤ 128) }
    ensures printed { OnOk result ((text : List ℕ)
        × Prints encoding (W.contents writer.old) (W.contents writer.new) text
        × (text ++ block.new.items ≡ block.old.items)) }
{
    if block.len() > BLOCK_BYTES - NEXT_BYTES {
        write_text(writer, encoding, block.as_slice())?;
        block.clear();
    }
    Ok(())
}

// a byte after another, at this column
fn add_next_byte(block: &mut Block, column: usize, byte: u8)
    requires room { array_vec_len block.old + 8 ≤ 128 }
    ensures { block.new.items ≡ block.old.items ++ next_byte (column, byte) }
{
    let mut digits = [0; 2];
    if hex::encode_to_slice(&[byte], &mut digits).is_err() {
        unreachable!()
    }
    add(block, separator(column));
    add(block, &digits);
}

// what stands before a byte at this column and after another
fn separator(column: usize) -> &'static [u8]
    ensures text { result.now ≡ separator column }
    ensures fits { length result.now ≤ 6 }
{
    match column {
        LINE_START => b",\\\r\n  ".as_slice(),
        _ => b",".as_slice(),
    }
}

// the column of the byte after the one at this column
fn column_after(column: usize) -> usize
    ensures { result ≡ next_column column }
{
    if column > LAST_COLUMN - BYTE_COLUMNS {
        LINE_START
    } else {
        column + BYTE_COLUMNS
    }
}
