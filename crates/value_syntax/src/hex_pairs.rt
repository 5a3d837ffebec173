//! Bytes as pairs of hex digits.
ghost use Rattle.std.specs.Prelude.{◌≡◌, ◌++◌, ℕ, List, MatchResult};
ghost use Rattle.word_syntax.specs.Reads.{ReadsAs, RefusedAs};
ghost use Rattle.value_syntax.specs.Data.{hex_bytes, pair_bytes};
ghost use Rattle.value_syntax.specs.Steps.{AddsPairs};

use hex::FromHexError;
use std::alloc::Global;
use word_syntax::ParseError;

/// The bytes of pairs of hex digits in either case, between which commas may stand. Nothing is no bytes.
pub(crate) fn hex_bytes(alloc: Global, text: &str) -> Result<Vec<u8>, ParseError>
    ensures { ReadsAs (λ made. made.items) result (hex_bytes text.now) }
{
    let mut bytes = Vec::new(alloc);
    if text.is_empty() {
        return Ok(bytes);
    }
    for part in text.split(',') {
        push_pairs(alloc, &mut bytes, part.as_bytes())?;
    }
    Ok(bytes)
}

// one pair or more
fn push_pairs(alloc: Global, bytes: &mut Vec<u8>, part: &[u8]) -> Result<(), ParseError>
    ensures { MatchResult result (λ _. AddsPairs part.now bytes.old.items bytes.new.items)
        (λ parse_error. RefusedAs parse_error (pair_bytes part.now)) }
{
    if part.is_empty() {
        return Err(ParseError::NotUnderstood);
    }
    match hex::decode(alloc, part) {
        Ok(decoded) => Ok(bytes.extend_from_slice(&decoded)?),
        Err(FromHexError::OutOfMemory) => Err(ParseError::NoMemory),
        Err(_) => Err(ParseError::NotUnderstood),
    }
}
