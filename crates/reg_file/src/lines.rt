//! The lines of a file in units of UTF-16.
ghost use Rattle.std.specs.Prelude.{◌≡◌, ◌∷◌, ◌+◌, ◌*◌, ◌==◌, ◌<◌, ◌≤◌, ◌++◌, [], Some, None, length, IfOk, OnOk, ◌⊎◌, flat_map, chars, map};
ghost use Rattle.std.specs.Option.{option_copied};
ghost use Rattle.std.specs.List.{position};
ghost use Rattle.std.specs.Char.Escape.{encode_utf16};
ghost use Rattle.reg_file.specs.CodePage.{ansi_unit};
ghost use Rattle.reg_file.specs.Lines.{lines_left, parts, parts_left, file_lines, is_ansi, unit_of, utf16_lines, utf8_line, onto_lines};
ghost use Rattle.reg_file.specs.Views.{bytes_left, lines_of, left_of, ReadsLine, LeavesLess, ReadsFirst};

use crate::code_page::ansi_unit;
use crate::header::is_old_header;
use std::alloc::{AllocError, Global};

/// The byte and the unit between two lines.
const LINE_FEED: u8 = b'\n';

/// How a file's text is encoded.
#[derive(Clone, Copy)]
pub(crate) enum Encoding {
    Utf8,
    /// Little-endian; a surrogate may stand alone.
    Utf16,
    /// Windows' code page 1252.
    Ansi,
}

/// The lines of a file that are left: none, or those of these bytes.
#[derive(Drop)]
pub(crate) struct Lines<'a> {
    pub(crate) encoding: Encoding,
    pub(crate) rest: Option<&'a [u8]>,
}

/// What comes of the next line.
#[derive(Clone, Copy)]
pub(crate) enum NextLine {
    /// Its units were read.
    Text,
    /// It isn't well formed in the file's encoding.
    NotText,
    /// There is none.
    End,
}

impl<'a> Lines<'a> {
    /// The lines of a file: UTF-16 and UTF-8 behind their marks; without a mark the code page, if the first line is the
    /// header of the old form, else UTF-8.
    pub(crate) fn new(alloc: Global, bytes: &'a [u8]) -> Result<Lines<'a>, AllocError>
        ensures lines { IfOk result (λ lines. lines_of lines ≡ file_lines bytes.now) }
        ensures left { IfOk result (λ lines. left_of lines ≤ length bytes.now + 1) }
    {
        if bytes.starts_with(&[0xff, 0xfe]) {
            return Ok(Lines {
                encoding: Encoding::Utf16,
                rest: Some(&bytes[2..]),
            });
        }
        if bytes.starts_with(&[0xef, 0xbb, 0xbf]) {
            return Ok(Lines {
                encoding: Encoding::Utf8,
                rest: Some(&bytes[3..]),
            });
        }
        let rest = Some(bytes);
        if is_ansi(alloc, bytes)? {
            let encoding = Encoding::Ansi;
            return Ok(Lines { encoding, rest });
        }
        let encoding = Encoding::Utf8;
        Ok(Lines { encoding, rest })
    }

    /// Reads the next line in place of the one in `line`.
    pub(crate) fn next_line(&mut self, line: &mut Vec<u16>) -> Result<NextLine, AllocError>
        ensures line { IfOk result (λ next. ReadsLine self.old next line.new.items self.new) }
        ensures left { IfOk result (λ next. LeavesLess self.old next self.new) }
    {
        line.clear();
        let Some(bytes) = self.rest else {
            return Ok(NextLine::End);
        };
        let (next, rest) = match self.encoding {
            Encoding::Utf8 => read_utf8(line, bytes)?,
            Encoding::Utf16 => read_utf16(line, bytes)?,
            Encoding::Ansi => read_ansi(line, bytes)?,
        };
        self.rest = rest;
        Ok(next)
    }
}

// whether the first line is the header of the old form
fn is_ansi(alloc: Global, bytes: &[u8]) -> Result<bool, AllocError>
    ensures { IfOk result (λ test. test ≡ is_ansi bytes.now) }
{
    let (first, _) = first_line(bytes);
    let mut line = Vec::new(alloc);
    push_ansi(&mut line, first)?;
    Ok(is_old_header(&line))
}

// a line of the code page, and the bytes behind its line feed, if it has one
fn read_ansi<'a>(
    line: &mut Vec<u16>,
    bytes: &'a [u8],
) -> Result<(NextLine, Option<&'a [u8]>), AllocError>
    requires { line.old.items ≡ [] }
    ensures line { IfOk result (λ read. ReadsFirst Encoding.Ansi bytes.now read line.new.items) }
    ensures left { IfOk result (λ read. bytes_left (option_copied read.1) ≤ length bytes.now) }
{
    let (first, rest) = first_line(bytes);
    push_ansi(line, first)?;
    Ok((NextLine::Text, rest))
}

// a text of the code page in units of UTF-16
fn push_ansi(line: &mut Vec<u16>, bytes: &[u8]) -> Result<(), AllocError>
    ensures { OnOk result (line.new.items ≡ line.old.items ++ map ansi_unit bytes.now) }
{
    for byte in bytes {
        line.push(ansi_unit(*byte))?;
    }
    Ok(())
}

// a line of UTF-8, and the bytes behind its line feed, if it has one
fn read_utf8<'a>(
    line: &mut Vec<u16>,
    bytes: &'a [u8],
) -> Result<(NextLine, Option<&'a [u8]>), AllocError>
    requires { line.old.items ≡ [] }
    ensures line { IfOk result (λ read. ReadsFirst Encoding.Utf8 bytes.now read line.new.items) }
    ensures left { IfOk result (λ read. bytes_left (option_copied read.1) ≤ length bytes.now) }
{
    let (first, rest) = first_line(bytes);
    match str::from_utf8(first) {
        Ok(text) => {
            push_text(line, text)?;
            Ok((NextLine::Text, rest))
        }
        Err(_) => Ok((NextLine::NotText, rest)),
    }
}

// the bytes before the first line feed, and those behind it, if there is one
fn first_line(bytes: &[u8]) -> (&[u8], Option<&[u8]>)
    ensures lines { parts bytes.now ≡ result.0.now ∷ parts_left (option_copied result.1) }
    ensures left { bytes_left (option_copied result.1) ≤ length bytes.now }
{
    match line_feed_in(bytes) {
        Some(at) => (&bytes[..at], Some(&bytes[at + 1..])),
        None => (bytes, None),
    }
}

// the index of the first line feed
fn line_feed_in(bytes: &[u8]) -> Option<usize>
    ensures { result ≡ position (λ byte. byte == 10) bytes.now }
{
    bytes.iter().position(|byte| *byte == LINE_FEED)
}

// a text in units of UTF-16
fn push_text(line: &mut Vec<u16>, text: &str) -> Result<(), AllocError>
    ensures { OnOk result (line.new.items ≡ line.old.items ++ flat_map encode_utf16 (chars text.now)) }
{
    for c in text.chars() {
        let mut pair = [0; 2];
        line.extend_from_slice(c.encode_utf16(&mut pair))?;
    }
    Ok(())
}

// a line of UTF-16, and the bytes behind its line feed, if it has one
fn read_utf16<'a>(
    line: &mut Vec<u16>,
    bytes: &'a [u8],
) -> Result<(NextLine, Option<&'a [u8]>), AllocError>
    requires { line.old.items ≡ [] }
    ensures line { IfOk result (λ read. ReadsFirst Encoding.Utf16 bytes.now read line.new.items) }
    ensures left { IfOk result (λ read. bytes_left (option_copied read.1) ≤ length bytes.now) }
{
    let mut rest = bytes;
    while let Some((low, others)) = rest.split_first() {
        let Some((high, behind)) = others.split_first() else {
            return Ok((NextLine::NotText, None));
        };
        let unit = u16::from(*low) + 256 * u16::from(*high);
        if unit == u16::from(LINE_FEED) {
            return Ok((NextLine::Text, Some(behind)));
        }
        line.push(unit)?;
        rest = behind;
    }
    Ok((NextLine::Text, None))
}
