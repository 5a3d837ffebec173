//! What one word parses to: units, names, keys, numbers, labels and bytes.
ghost use Rattle.std.specs.Prelude.{◌≡◌, ◌++◌, ◌∷◌, Some, None, IfOk, MatchResult, map};
ghost use Rattle.script_syntax.specs.Words.{units_of, escaped, AddsEscaped, name_of, key_ref_of, data_of, number_of, label_of, uuid_of};
ghost use Rattle.word_syntax.specs.Reads.{Reads, RefusedAs};

use crate::label::Label;
use crate::line::{KeyRef, Text};
use crate::numbers::number;
use hex::FromHexError;
use reg_tree::Data;
use std::alloc::{AllocError, Global};
use uuid::Uuid;
use word_syntax::{ParseError, first_part};

/// The byte that four hex digits of one unit follow.
const ESCAPE: u8 = b'%';

/// The byte between a hive's number and a path.
const COLON: u8 = b':';

/// A hive's number and a path's text: `HIVE:PATH`, parted by the first colon.
pub(crate) fn key_ref(alloc: Global, word: &[u8]) -> Result<KeyRef, ParseError>
    ensures { Reads result (key_ref_of word.now) }
{
    let (hive, Some(path)) = first_part(word, COLON) else {
        return Err(ParseError::NotUnderstood);
    };
    let hive = small_number(hive, u8::MAX)?;
    let path = text(alloc, path)?;
    Ok(KeyRef { hive, path })
}

/// A number of at most `most`, which is one of 8 bits.
pub(crate) fn small_number(word: &[u8], most: u8) -> Result<u8, ParseError>
    ensures { Reads result (number_of most word.now) }
{
    match number(word, u64::from(most)) {
        Some(number) => Ok(number as u8),
        None => Err(ParseError::NotUnderstood),
    }
}

/// A number of 32 bits.
pub(crate) fn whole_number(word: &[u8]) -> Result<u32, ParseError>
    ensures { Reads result (number_of u32.MAX word.now) }
{
    match number(word, u64::from(u32::MAX)) {
        Some(number) => Ok(number as u32),
        None => Err(ParseError::NotUnderstood),
    }
}

/// The label of a transaction.
pub(crate) fn label(word: &[u8]) -> Result<Label, ParseError>
    ensures { Reads result (label_of word.now) }
{
    match Label::read(word) {
        Some(label) => Ok(label),
        None => Err(ParseError::NotUnderstood),
    }
}

/// A UUID in any of its text forms.
pub(crate) fn uuid(word: &[u8]) -> Result<Uuid, ParseError>
    ensures { Reads result (uuid_of word.now) }
{
    match Uuid::try_parse_ascii(word) {
        Ok(id) => Ok(id),
        Err(_) => Err(ParseError::NotUnderstood),
    }
}

/// The name of a value: `@` is the empty one, which has no other spelling.
pub(crate) fn name(alloc: Global, word: &[u8]) -> Result<Text, ParseError>
    ensures { Reads result (name_of word.now) }
{
    if word == b"@".as_slice() {
        return Ok(Text::new(Vec::new(alloc)));
    }
    if word.is_empty() {
        return Err(ParseError::NotUnderstood);
    }
    text(alloc, word)
}

/// Bytes as pairs of hex digits, at least one pair, in either case; `-` for none.
pub(crate) fn data(alloc: Global, word: &[u8]) -> Result<Data, ParseError>
    ensures { Reads result (data_of word.now) }
{
    if word == b"-".as_slice() {
        return Ok(Data::from_vec(Vec::new(alloc))?);
    }
    if word.is_empty() {
        return Err(ParseError::NotUnderstood);
    }
    match hex::decode(alloc, word) {
        Ok(bytes) => Ok(Data::from_vec(bytes)?),
        Err(FromHexError::OutOfMemory) => Err(ParseError::NoMemory),
        Err(_) => Err(ParseError::NotUnderstood),
    }
}

/// Units: `%` and four hex digits is that unit, any other byte is the unit of its number.
pub(crate) fn text(alloc: Global, word: &[u8]) -> Result<Text, ParseError>
    ensures { Reads result (units_of word.now) }
{
    let mut units = Vec::with_capacity(alloc, word.len())?;
    let (first, mut rest) = first_part(word, ESCAPE);
    push_bytes(&mut units, first)?;
    while let Some(escapes) = rest {
        let (part, others) = first_part(escapes, ESCAPE);
        push_escaped(&mut units, part)?;
        rest = others;
    }
    Ok(Text::new(units))
}

// the unit that a part begins with in four hex digits, and the units of what follows
fn push_escaped(units: &mut Vec<u16>, part: &[u8]) -> Result<(), ParseError>
    ensures { MatchResult result (λ _. AddsEscaped part.now units.old.items units.new.items)
        (λ parse_error. RefusedAs parse_error (escaped part.now)) }
{
    if part.len() < 4 {
        return Err(ParseError::NotUnderstood);
    }
    let (digits, rest) = part.split_at(4);
    let mut pair = [0u8; 2];
    if hex::decode_to_slice(digits, &mut pair).is_err() {
        return Err(ParseError::NotUnderstood);
    }
    units.push(u16::from_be_bytes(pair))?;
    push_bytes(units, rest)?;
    Ok(())
}

// each byte as the unit of its number
fn push_bytes(units: &mut Vec<u16>, bytes: &[u8]) -> Result<(), AllocError>
    ensures { IfOk result (λ _. units.new.items ≡ units.old.items ++ bytes.now) }
{
    for byte in bytes {
        units.push(u16::from(*byte))?;
    }
    Ok(())
}
