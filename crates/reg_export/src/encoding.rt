//! How the units of a registration file become bytes.
ghost use Rattle.std.specs.Prelude.{◌≡◌, ◌+◌, ◌≤◌, ◌++◌, ℕ, List, OnOk, ◌∷◌, []};
ghost use Rattle.arrayvec.specs.ArrayVec.{array_vec_len};
ghost use Rattle.std.specs.List.{flat_map, list_all};
ghost use Rattle.std.specs.Int.{w16, to_le_bytes};
ghost use Rattle.std.specs.Io.KnownBytes.{Appends};
ghost use Rattle.reg_export.specs.Characters.{IsSurrogatePair};
ghost use Rattle.reg_export.specs.Encodings.{Prints, is_ascii, mark};

use crate::block::{BLOCK_BYTES, Block, add};
use crate::characters::{pair_char, write_found};
use std::io;
use std::io::{ErrorKind, Write};

/// How the units of a registration file become bytes.
#[derive(Clone, Copy, Debug, PartialEq, Eq)]
pub enum Encoding {
    /// UTF-8 without a mark, which is ASCII if all units are. Half of a pair of surrogates alone is refused with the
    /// error `InvalidInput`.
    Utf8,
    /// Two bytes a unit, the low one first, after the mark FF FE.
    Utf16,
}

/// Writes what stands before the first unit.
pub(crate) fn write_mark<W: Write>(writer: &mut W, encoding: Encoding) -> io::Result<()>
    ensures { OnOk result (Appends (W.contents writer.old) (W.contents writer.new) (mark encoding)) }
{
    match encoding {
        Encoding::Utf8 => Ok(()),
        Encoding::Utf16 => writer.write_all(&[0xff, 0xfe]),
    }
}

/// Writes a unit that is in no pair of surrogates.
pub(crate) fn write_unit<W: Write>(writer: &mut W, encoding: Encoding, unit: u16) -> io::Result<()>
    ensures { OnOk result (Prints encoding (W.contents writer.old) (W.contents writer.new)
        (unit ∷ [])) }
{
    match encoding {
        Encoding::Utf8 => write_single(writer, unit),
        Encoding::Utf16 => write_wide_unit(writer, unit),
    }
}

/// Writes a pair of surrogates.
pub(crate) fn write_pair<W: Write>(
    writer: &mut W,
    encoding: Encoding,
    high: u16,
    low: u16,
) -> io::Result<()>
    requires { IsSurrogatePair high low }
    ensures { OnOk result (Prints encoding (W.contents writer.old) (W.contents writer.new)
        (high ∷ low ∷ [])) }
{
    match encoding {
        Encoding::Utf8 => write_joined(writer, high, low),
        Encoding::Utf16 => {
            write_wide_unit(writer, high)?;
            write_wide_unit(writer, low)
        }
    }
}

/// Writes units that are bytes, such as an ASCII text. In UTF-8 a byte past 0x7f is refused with `InvalidInput`.
#[inline(never)] // so that each level takes little stack
pub(crate) fn write_text<W: Write>(
    writer: &mut W,
    encoding: Encoding,
    text: &[u8],
) -> io::Result<()>
    ensures { OnOk result (Prints encoding (W.contents writer.old) (W.contents writer.new)
        text.now) }
{
    match encoding {
        Encoding::Utf8 => write_ascii(writer, text),
        Encoding::Utf16 => write_wide(writer, text),
    }
}

// a unit as UTF-8, if it is a character
fn write_single<W: Write>(writer: &mut W, unit: u16) -> io::Result<()>
    ensures { OnOk result (Prints Encoding.Utf8 (W.contents writer.old) (W.contents writer.new)
        (unit ∷ [])) }
{
    write_found(writer, char::from_u32(u32::from(unit)))
}

// a pair of surrogates as UTF-8
fn write_joined<W: Write>(writer: &mut W, high: u16, low: u16) -> io::Result<()>
    requires { IsSurrogatePair high low }
    ensures { OnOk result (Prints Encoding.Utf8 (W.contents writer.old) (W.contents writer.new)
        (high ∷ low ∷ [])) }
{
    write_found(writer, pair_char(high, low))
}

// ASCII as it is
fn write_ascii<W: Write>(writer: &mut W, text: &[u8]) -> io::Result<()>
    ensures { OnOk result (Prints Encoding.Utf8 (W.contents writer.old) (W.contents writer.new)
        text.now) }
{
    if !are_ascii(text) {
        return Err(io::Error::from(ErrorKind::InvalidInput));
    }
    writer.write_all(text)
}

// whether all bytes are ASCII
fn are_ascii(text: &[u8]) -> bool
    ensures { result ≡ list_all is_ascii text.now }
{
    text.iter().all(|byte| *byte < 0x80)
}

// a unit as two bytes
fn write_wide_unit<W: Write>(writer: &mut W, unit: u16) -> io::Result<()>
    ensures { OnOk result (Prints Encoding.Utf16 (W.contents writer.old) (W.contents writer.new)
        (unit ∷ [])) }
{
    writer.write_all(&unit.to_le_bytes())
}

// two bytes for each unit, a block at a time
fn write_wide<W: Write>(writer: &mut W, text: &[u8]) -> io::Result<()>
    ensures { OnOk result (Appends (W.contents writer.old) (W.contents writer.new)
        (flat_map (to_le_bytes w16) text.now)) }
{
    let mut block = Block::new();
    for byte in text {
        make_room(writer, &mut block)?;
        add(&mut block, &u16::from(*byte).to_le_bytes());
    }
    writer.write_all(block.as_slice())
}

// writes the bytes of a block that has no room for another unit
fn make_room<W: Write>(writer: &mut W, block: &mut Block) -> io::Result<()>
    ensures room { OnOk result (array_vec_len block.new + 2 ≤ 128) }
    ensures written { OnOk result ((text : List ℕ) × Appends (W.contents writer.old) (W.contents writer.new) text
        × (text ++ block.new.items ≡ block.old.items)) }
{
    if block.len() > BLOCK_BYTES - 2 {
        writer.write_all(block.as_slice())?;
        block.clear();
    }
    Ok(())
}
