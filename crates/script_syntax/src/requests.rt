//! Reads what a line asks of a key.
ghost use Rattle.std.specs.Prelude.{◌≡◌};
ghost use Rattle.std.specs.Option.{option_copied};
ghost use Rattle.word_syntax.specs.Parts.{parts_of};
ghost use Rattle.script_syntax.specs.Lines.{key_ref_in, named_in, set_request, request_with, request_of_words};
ghost use Rattle.word_syntax.specs.Reads.{Reads};

use crate::line::{KeyRef, Request, Text};
use crate::word_parser::{data, key_ref, name, whole_number};
use crate::words::{four_words, next_word, one_word, two_words};
use std::alloc::Global;
use word_syntax::ParseError;

/// The request after a blank.
pub(crate) fn request(alloc: Global, rest: Option<&[u8]>) -> Result<Request, ParseError>
    ensures { Reads result (request_of_words (parts_of 32 (option_copied rest.entry))) }
{
    let (verb, rest) = next_word(rest)?;
    request_with(alloc, verb, rest)
}

/// The request whose first word is `verb`, with what follows that word's blank.
pub(crate) fn request_with(
    alloc: Global,
    verb: &[u8],
    rest: Option<&[u8]>,
) -> Result<Request, ParseError>
    ensures { Reads result (request_with verb.now (parts_of 32 (option_copied rest.entry))) }
{
    if verb == b"create".as_slice() {
        let key_ref = key_ref_alone(alloc, rest)?;
        Ok(Request::Create { key_ref })
    } else if verb == b"delete".as_slice() {
        let key_ref = key_ref_alone(alloc, rest)?;
        Ok(Request::Delete { key_ref })
    } else if verb == b"set".as_slice() {
        set(alloc, four_words(rest)?)
    } else if verb == b"unset".as_slice() {
        let (key_ref, name) = key_ref_and_name(alloc, rest)?;
        Ok(Request::Unset { key_ref, name })
    } else if verb == b"get".as_slice() {
        let (key_ref, name) = key_ref_and_name(alloc, rest)?;
        Ok(Request::Get { key_ref, name })
    } else if verb == b"keys".as_slice() {
        let key_ref = key_ref_alone(alloc, rest)?;
        Ok(Request::Keys { key_ref })
    } else if verb == b"values".as_slice() {
        let key_ref = key_ref_alone(alloc, rest)?;
        Ok(Request::Values { key_ref })
    } else if verb == b"info".as_slice() {
        let key_ref = key_ref_alone(alloc, rest)?;
        Ok(Request::Info { key_ref })
    } else {
        Err(ParseError::NotUnderstood)
    }
}

/// The key that is alone after a blank.
pub(crate) fn key_ref_alone(alloc: Global, rest: Option<&[u8]>) -> Result<KeyRef, ParseError>
    ensures { Reads result (key_ref_in (parts_of 32 (option_copied rest.entry))) }
{
    key_ref(alloc, one_word(rest)?)
}

fn key_ref_and_name(alloc: Global, rest: Option<&[u8]>) -> Result<(KeyRef, Text), ParseError>
    ensures { Reads result (named_in (parts_of 32 (option_copied rest.entry))) }
{
    let words = two_words(rest)?;
    let key_ref = key_ref(alloc, words.0)?;
    let name = name(alloc, words.1)?;
    Ok((key_ref, name))
}

fn set(alloc: Global, words: (&[u8], &[u8], &[u8], &[u8])) -> Result<Request, ParseError>
    ensures { Reads result (set_request (
      words.entry.0.now,
      words.entry.1.now,
      words.entry.2.now,
      words.entry.3.now,
    )) }
{
    let key_ref = key_ref(alloc, words.0)?;
    let name = name(alloc, words.1)?;
    let kind = whole_number(words.2)?;
    let data = data(alloc, words.3)?;
    Ok(Request::Set {
        key_ref,
        name,
        kind,
        data,
    })
}
