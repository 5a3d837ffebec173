//! The words for types.
ghost use Rattle.std.specs.Prelude.{◌≡◌};
ghost use Rattle.std.specs.Option.{option_copied, option_map, option_and_then};
ghost use Rattle.value_syntax.specs.TypeWords.{bracketed, kind_of, type_of};

use crate::numbers::number_in;

/// The type of bytes.
pub(crate) const BYTES: u32 = 3;

/// Hex digits of the longest number of a type.
const MOST_DIGITS: usize = 8;

/// What a word for a type says of a value.
#[derive(Clone, Copy)]
pub(crate) enum TypeWord {
    /// `sz`: a text.
    Text,
    /// `expand`: a text with names of variables.
    ExpandText,
    /// `dword`: a number of 32 bits.
    Number,
    /// `qword`: a number of 64 bits.
    WideNumber,
    /// `multi`: a list of texts.
    Texts,
    /// `hex` and `hex(T)`: bytes of the type of this number.
    Bytes(u32),
}

/// What a word says of a value, if it is one for a type.
pub(crate) fn type_word(word: &[u8]) -> Option<TypeWord>
    ensures { result ≡ type_of word.now }
{
    if word == b"sz".as_slice() {
        Some(TypeWord::Text)
    } else if word == b"expand".as_slice() {
        Some(TypeWord::ExpandText)
    } else if word == b"dword".as_slice() {
        Some(TypeWord::Number)
    } else if word == b"qword".as_slice() {
        Some(TypeWord::WideNumber)
    } else if word == b"multi".as_slice() {
        Some(TypeWord::Texts)
    } else if word == b"hex".as_slice() {
        Some(TypeWord::Bytes(BYTES))
    } else {
        typed_bytes(word)
    }
}

// `hex(T)`
fn typed_bytes(word: &[u8]) -> Option<TypeWord>
    ensures { result ≡ option_map (λ kind. TypeWord.Bytes kind)
        (option_and_then kind_of (bracketed word.now)) }
{
    match kind(in_brackets(word)?) {
        Some(kind) => Some(TypeWord::Bytes(kind)),
        None => None,
    }
}

// what is in the brackets
fn in_brackets(word: &[u8]) -> Option<&[u8]>
    ensures { option_copied result ≡ bracketed word.now }
{
    match word.strip_prefix(b"hex(".as_slice()) {
        Some(rest) => rest.strip_suffix(b")".as_slice()),
        None => None,
    }
}

// the number of a type
fn kind(digits: &[u8]) -> Option<u32>
    ensures { result ≡ kind_of digits.now }
{
    if digits.len() > MOST_DIGITS {
        return None;
    }
    match number_in(16, u64::from(u32::MAX), digits) {
        Some(number) => Some(number as u32),
        None => None,
    }
}
