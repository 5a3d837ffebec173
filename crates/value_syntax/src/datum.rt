//! Type and data of a value, from words.
ghost use Rattle.std.specs.Prelude.{◌≡◌, IfOk};
ghost use Rattle.std.specs.Int.{w32, w64, to_le_bytes};
ghost use Rattle.std.specs.Option.{option_map};
ghost use Rattle.word_syntax.specs.Reads.{Reads};
ghost use Rattle.value_syntax.specs.TypeWords.{number_of, type_number, type_of};
ghost use Rattle.value_syntax.specs.Data.{datum_with, datum_in, datum_of};

use crate::hex_pairs::hex_bytes;
use crate::numbers::number;
use crate::text_data::{text_data, texts_data};
use crate::type_word::{TypeWord, type_word};
use reg_tree::Data;
use std::alloc::{AllocError, Global};
use word_syntax::ParseError;

/// The type of a text with its terminator.
pub(crate) const TEXT: u32 = 1;

/// The type of a text with its terminator, which has names of variables.
pub(crate) const EXPAND_TEXT: u32 = 2;

/// The type of a number of 32 bits, the low byte first.
pub(crate) const NUMBER: u32 = 4;

/// The type of a list of texts.
pub(crate) const TEXTS: u32 = 7;

/// The type of a number of 64 bits, the low byte first.
pub(crate) const WIDE_NUMBER: u32 = 11;

/// Type and data of a value.
#[derive(Drop)]
pub struct Datum {
    /// The number of the type.
    pub kind: u32,
    /// The data.
    pub data: Data,
}

/// What two words spell: the word for a type, and the text of the data.
///
/// - `sz` and `expand`: a text.
/// - `dword` and `qword`: a decimal number, or hex digits after `0x`, within 32 or 64 bits.
/// - `multi`: texts with the two characters `\0` between each two. No characters are no texts.
/// - `hex`, and `hex(T)` for the type T of 1 to 8 hex digits: pairs of hex digits, between which commas may stand. No
///   characters are no bytes.
///
/// Refused with `NotUnderstood` exactly if the words are none.
pub fn parse(alloc: Global, word: &str, text: &str) -> Result<Datum, ParseError>
    ensures { Reads result (datum_of word.now text.now) }
{
    match type_word(word.as_bytes()) {
        Some(type_word) => datum_in(alloc, type_word, text),
        None => Err(ParseError::NotUnderstood),
    }
}

/// The number of the type that a word names, if it is one for a type: 1 for `sz`, 2 for `expand`, 3 for `hex`, 4 for
/// `dword`, 7 for `multi`, 11 for `qword`, and T for `hex(T)`.
pub fn type_number(word: &str) -> Option<u32>
    ensures { result ≡ option_map type_number (type_of word.now) }
{
    let number = match type_word(word.as_bytes())? {
        TypeWord::Text => TEXT,
        TypeWord::ExpandText => EXPAND_TEXT,
        TypeWord::Number => NUMBER,
        TypeWord::WideNumber => WIDE_NUMBER,
        TypeWord::Texts => TEXTS,
        TypeWord::Bytes(kind) => kind,
    };
    Some(number)
}

fn datum_in(alloc: Global, type_word: TypeWord, text: &str) -> Result<Datum, ParseError>
    ensures { Reads result (datum_in type_word text.now) }
{
    match type_word {
        TypeWord::Text => Ok(datum_with(TEXT, text_data(alloc, text)?)?),
        TypeWord::ExpandText => Ok(datum_with(EXPAND_TEXT, text_data(alloc, text)?)?),
        TypeWord::Number => number_datum(alloc, text),
        TypeWord::WideNumber => wide_number_datum(alloc, text),
        TypeWord::Texts => Ok(datum_with(TEXTS, texts_data(alloc, text)?)?),
        TypeWord::Bytes(kind) => Ok(datum_with(kind, hex_bytes(alloc, text)?)?),
    }
}

fn number_datum(alloc: Global, text: &str) -> Result<Datum, ParseError>
    ensures { Reads result (option_map (λ n. datum_with NUMBER (to_le_bytes w32 n))
        (number_of u32.MAX text.now)) }
{
    let Some(number) = number(u64::from(u32::MAX), text.as_bytes()) else {
        return Err(ParseError::NotUnderstood);
    };
    let data = Data::new(alloc, &(number as u32).to_le_bytes())?;
    Ok(Datum { kind: NUMBER, data })
}

fn wide_number_datum(alloc: Global, text: &str) -> Result<Datum, ParseError>
    ensures { Reads result (option_map (λ n. datum_with WIDE_NUMBER (to_le_bytes w64 n))
        (number_of u64.MAX text.now)) }
{
    let Some(number) = number(u64::MAX, text.as_bytes()) else {
        return Err(ParseError::NotUnderstood);
    };
    let data = Data::new(alloc, &number.to_le_bytes())?;
    Ok(Datum {
        kind: WIDE_NUMBER,
        data,
    })
}

fn datum_with(kind: u32, bytes: Vec<u8>) -> Result<Datum, AllocError>
    ensures { IfOk result (λ made. made ≡ datum_with kind bytes.items) }
{
    let data = Data::from_vec(bytes)?;
    Ok(Datum { kind, data })
}
