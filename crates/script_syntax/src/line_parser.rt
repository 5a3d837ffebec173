//! Reads the lines of a script.
ghost use Rattle.std.specs.Prelude.{◌≡◌};
ghost use Rattle.std.specs.Option.{option_copied};
ghost use Rattle.word_syntax.specs.Parts.{parts_of};
ghost use Rattle.script_syntax.specs.Lines.{line_of, hives_line, history_line, at_line, session_line, end_line, alone, begin_line, inside_line, kept_line, label_in, transaction_line};
ghost use Rattle.word_syntax.specs.Reads.{Reads};

use crate::lab_line_parser::step_line;
use crate::label::Label;
use crate::line::Line;
use crate::numbers::number;
use crate::requests::request;
use crate::word_parser::{label, small_number, uuid, whole_number};
use crate::words::{first_word, next_word, one_word, two_words};
use refusals::limits::{MOST_HISTORY, MOST_HIVES};
use std::alloc::Global;
use word_syntax::ParseError;

/// Parses one line, without the byte that ends it.
///
/// Refused with `NotUnderstood` exactly if the bytes are no line. A name or a path in a line may be no name that a call
/// takes: the call judges that.
pub fn read_line(alloc: Global, bytes: &[u8]) -> Result<Line, ParseError>
    ensures { Reads result (line_of bytes.now) }
{
    let (verb, rest) = first_word(bytes);
    if verb == b"hives".as_slice() {
        hives(one_word(rest)?)
    } else if verb == b"history".as_slice() {
        history(one_word(rest)?)
    } else if verb == b"at".as_slice() {
        at(one_word(rest)?)
    } else if verb == b"session".as_slice() {
        session(one_word(rest)?)
    } else if verb == b"end".as_slice() {
        end(one_word(rest)?)
    } else if verb == b"flush".as_slice() {
        alone(Line::Flush, rest)
    } else if verb == b"fold".as_slice() {
        alone(Line::Fold, rest)
    } else {
        transaction_line(alloc, verb, rest)
    }
}

// a line of a transaction or of a unit of work, a laboratory's, one of a served store, or a request alone
fn transaction_line(alloc: Global, verb: &[u8], rest: Option<&[u8]>) -> Result<Line, ParseError>
    ensures { Reads result (transaction_line verb.now (parts_of 32 (option_copied rest.entry))) }
{
    if verb == b"tx".as_slice() {
        inside(alloc, rest)
    } else if verb == b"begin".as_slice() {
        begin(two_words(rest)?)
    } else if verb == b"commit".as_slice() {
        let label = label_alone(rest)?;
        Ok(Line::Commit { label })
    } else if verb == b"rollback".as_slice() {
        let label = label_alone(rest)?;
        Ok(Line::Rollback { label })
    } else if verb == b"close".as_slice() {
        let label = label_alone(rest)?;
        Ok(Line::Close { label })
    } else if verb == b"outcome".as_slice() {
        let label = label_alone(rest)?;
        Ok(Line::Outcome { label })
    } else if verb == b"kept".as_slice() {
        kept(one_word(rest)?)
    } else {
        step_line(alloc, verb, rest)
    }
}

fn hives(count: &[u8]) -> Result<Line, ParseError>
    ensures { Reads result (hives_line count.now) }
{
    match small_number(count, MOST_HIVES as u8)? {
        0 => Err(ParseError::NotUnderstood),
        count => Ok(Line::Hives { count }),
    }
}

fn history(limit: &[u8]) -> Result<Line, ParseError>
    ensures { Reads result (history_line limit.now) }
{
    match number(limit, MOST_HISTORY) {
        None | Some(0) => Err(ParseError::NotUnderstood),
        Some(limit) => Ok(Line::History { limit }),
    }
}

fn at(moment: &[u8]) -> Result<Line, ParseError>
    ensures { Reads result (at_line moment.now) }
{
    match number(moment, u64::MAX) {
        Some(moment) => Ok(Line::At { moment }),
        None => Err(ParseError::NotUnderstood),
    }
}

fn session(word: &[u8]) -> Result<Line, ParseError>
    ensures { Reads result (session_line word.now) }
{
    let number = whole_number(word)?;
    Ok(Line::Session { number })
}

fn end(word: &[u8]) -> Result<Line, ParseError>
    ensures { Reads result (end_line word.now) }
{
    let number = whole_number(word)?;
    Ok(Line::End { number })
}

/// A line of one word, after which nothing follows.
pub(crate) fn alone(line: Line, rest: Option<&[u8]>) -> Result<Line, ParseError>
    ensures { Reads result (alone line (parts_of 32 (option_copied rest.entry))) }
{
    match rest {
        None => Ok(line),
        Some(_) => Err(ParseError::NotUnderstood),
    }
}

fn begin(words: (&[u8], &[u8])) -> Result<Line, ParseError>
    ensures { Reads result (begin_line (words.entry.0.now, words.entry.1.now)) }
{
    let label = label(words.0)?;
    let id = uuid(words.1)?;
    Ok(Line::Begin { label, id })
}

fn kept(word: &[u8]) -> Result<Line, ParseError>
    ensures { Reads result (kept_line word.now) }
{
    let id = uuid(word)?;
    Ok(Line::Kept { id })
}

fn inside(alloc: Global, rest: Option<&[u8]>) -> Result<Line, ParseError>
    ensures { Reads result (inside_line (parts_of 32 (option_copied rest.entry))) }
{
    let (word, asked) = next_word(rest)?;
    let label = label(word)?;
    let request = request(alloc, asked)?;
    Ok(Line::Inside { label, request })
}

/// The label that is alone after a blank.
pub(crate) fn label_alone(rest: Option<&[u8]>) -> Result<Label, ParseError>
    ensures { Reads result (label_in (parts_of 32 (option_copied rest.entry))) }
{
    label(one_word(rest)?)
}
