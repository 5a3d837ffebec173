//! A value as words.
ghost use Rattle.std.specs.Prelude.{◌≡◌, ◌++◌, ◌==◌, ◌&&◌, ◌||◌, OnOk, length, codes};
ghost use Rattle.reg_export.specs.ByteUnits.{ends_in_zero, front_units};
ghost use Rattle.std.specs.Fmt.{decimal};
ghost use Rattle.std.specs.Io.KnownBytes.{Appends};
ghost use Rattle.hex.specs.Hex.{encode_lower};
ghost use Rattle.value_syntax.specs.Printed.{datum_text, hex_word, is_terminated, is_text, is_list, are_texts, shown_text, char_text};

use crate::characters::{are_shown, first_char, has_separator};
use crate::datum::{EXPAND_TEXT, NUMBER, TEXT, TEXTS, WIDE_NUMBER};
use crate::type_word::BYTES;
use reply_lines::write_data;
use std::io;
use std::io::Write;

/// Writes a value as words: the word for its type, a blank, and the text of its data. It takes no memory.
///
/// A text is written as such if each of its characters can be shown on one line; a list of texts, if also no text has
/// `\` before `0`. Numbers are decimal. What has no such words is bytes of its type, `hex(T)`.
pub fn write_datum<W: Write>(writer: &mut W, kind: u32, bytes: &[u8]) -> io::Result<()>
    ensures { OnOk result (Appends (W.contents writer.old) (W.contents writer.new)
        (datum_text kind bytes.now)) }
{
    if kind == TEXT && is_text(bytes) {
        return write_text(writer, b"sz ", front(bytes));
    }
    if kind == EXPAND_TEXT && is_text(bytes) {
        return write_text(writer, b"expand ", front(bytes));
    }
    if kind == TEXTS && is_list(bytes) {
        return write_text(writer, b"multi ", front(front(bytes)));
    }
    match (kind, bytes) {
        (NUMBER, [a, b, c, d]) => {
            let number = u32::from_le_bytes([*a, *b, *c, *d]);
            write!(writer, "dword {number}")
        }
        (WIDE_NUMBER, [a, b, c, d, e, f, g, h]) => {
            let number = u64::from_le_bytes([*a, *b, *c, *d, *e, *f, *g, *h]);
            write!(writer, "qword {number}")
        }
        _ => write_bytes(writer, kind, bytes),
    }
}

// whether the bytes are whole units, of which the last is 0
fn is_terminated(bytes: &[u8]) -> bool
    ensures { result ≡ is_terminated bytes.now }
{
    bytes.len() % 2 == 0 && bytes.ends_with(&[0, 0])
}

// whether the bytes are a text and its terminator, and the text can be shown
fn is_text(bytes: &[u8]) -> bool
    ensures { result ≡ is_text bytes.now }
{
    is_terminated(bytes) && are_shown(front(bytes), false)
}

// whether the bytes are a list of texts, and all of them can be shown
fn is_list(bytes: &[u8]) -> bool
    ensures { result ≡ is_list bytes.now }
{
    is_terminated(bytes) && is_list_front(front(bytes))
}

// whether the bytes before the last unit of a list are none, or texts that can be shown
fn is_list_front(bytes: &[u8]) -> bool
    ensures { result ≡ (length bytes.now == 0
        || (ends_in_zero bytes.now && are_texts (front_units bytes.now))) }
{
    bytes.is_empty() || (bytes.ends_with(&[0, 0]) && are_texts(front(bytes)))
}

// whether the units can be shown as texts with a unit 0 between each two
fn are_texts(bytes: &[u8]) -> bool
    ensures { result ≡ are_texts bytes.now }
{
    !bytes.is_empty() && are_shown(bytes, true) && !has_separator(bytes)
}

// the bytes before the last unit
fn front(bytes: &[u8]) -> &[u8]
    ensures { result.now ≡ front_units bytes.now }
{
    &bytes[..bytes.len().saturating_sub(2)]
}

// the word for a type and a blank, and the characters of the units in bytes
fn write_text<W: Write>(writer: &mut W, word: &[u8], bytes: &[u8]) -> io::Result<()>
    ensures { OnOk result (Appends (W.contents writer.old) (W.contents writer.new)
        (word.now ++ shown_text bytes.now)) }
{
    writer.write_all(word)?;
    let mut rest = bytes;
    while let Some((c, others)) = first_char(rest) {
        write_char(writer, c)?;
        rest = others;
    }
    Ok(())
}

// a character; the one between two texts is `\0`
fn write_char<W: Write>(writer: &mut W, c: Option<char>) -> io::Result<()>
    ensures { OnOk result (Appends (W.contents writer.old) (W.contents writer.new) (char_text c)) }
{
    match c {
        Some('\0') => writer.write_all(b"\\0"),
        Some(c) => {
            let mut bytes = [0; 4];
            writer.write_all(c.encode_utf8(&mut bytes).as_bytes())
        }
        None => Ok(()),
    }
}

// the bytes of a type as pairs of hex digits
fn write_bytes<W: Write>(writer: &mut W, kind: u32, bytes: &[u8]) -> io::Result<()>
    ensures { OnOk result (Appends (W.contents writer.old) (W.contents writer.new)
        (hex_word kind ++ codes " " ++ encode_lower bytes.now)) }
{
    write_hex_word(writer, kind)?;
    writer.write_all(b" ")?;
    if bytes.is_empty() {
        return Ok(());
    }
    write_data(writer, bytes)
}

// the word for bytes of a type
fn write_hex_word<W: Write>(writer: &mut W, kind: u32) -> io::Result<()>
    ensures { OnOk result (Appends (W.contents writer.old) (W.contents writer.new) (hex_word kind)) }
{
    match kind {
        BYTES => writer.write_all(b"hex"),
        _ => write!(writer, "hex({kind:x})"),
    }
}
