//! Reads the lines that only a session of a served store takes.
ghost use Rattle.std.specs.Prelude.{◌≡◌};
ghost use Rattle.std.specs.Option.{option_copied};
ghost use Rattle.word_syntax.specs.Parts.{parts_of};
ghost use Rattle.script_syntax.specs.Lines.{backup_line, follow_line, served_line};
ghost use Rattle.word_syntax.specs.Reads.{Reads};

use crate::line::Line;
use crate::line_parser::alone;
use crate::numbers::number;
use crate::requests::{key_ref_alone, request_with};
use crate::served_line::ServedLine;
use crate::word_parser::name;
use crate::words::one_word;
use std::alloc::Global;
use word_syntax::ParseError;

/// A line that only a session of a served store takes, or a request alone.
pub(crate) fn served_line(
    alloc: Global,
    verb: &[u8],
    rest: Option<&[u8]>,
) -> Result<Line, ParseError>
    ensures { Reads result (served_line verb.now (parts_of 32 (option_copied rest.entry))) }
{
    if verb == b"backup".as_slice() {
        backup(alloc, one_word(rest)?)
    } else if verb == b"follow".as_slice() {
        follow(one_word(rest)?)
    } else if verb == b"watch".as_slice() {
        let key_ref = key_ref_alone(alloc, rest)?;
        Ok(served(ServedLine::Watch { key_ref }))
    } else if verb == b"stats".as_slice() {
        alone(served(ServedLine::Stats), rest)
    } else {
        let request = request_with(alloc, verb, rest)?;
        Ok(Line::Plain { request })
    }
}

fn served(line: ServedLine) -> Line
    ensures { result ≡ Line.Served line }
{
    Line::Served { line }
}

fn backup(alloc: Global, word: &[u8]) -> Result<Line, ParseError>
    ensures { Reads result (backup_line word.now) }
{
    let name = name(alloc, word)?;
    Ok(served(ServedLine::Backup { name }))
}

fn follow(word: &[u8]) -> Result<Line, ParseError>
    ensures { Reads result (follow_line word.now) }
{
    match number(word, u64::MAX) {
        Some(number) => Ok(served(ServedLine::Follow { number })),
        None => Err(ParseError::NotUnderstood),
    }
}
