//! The characters of names, one after another.
ghost use Rattle.std.specs.Prelude.{◌≡◌, ◌<◌, ◌∷◌, ◌++◌, [], Some, MatchOption, IfSome, IsSomeAnd, OnOk, length};
ghost use Rattle.std.specs.Bool.{OnTrue, OnFalse};
ghost use Rattle.std.specs.Char.{encode_utf8};
ghost use Rattle.std.specs.Char.Utf16.{surrogate_pair_char};
ghost use Rattle.std.specs.Io.KnownBytes.{Appends};
ghost use Rattle.reg_export.specs.Characters.{IsFirst, IsSurrogatePair, IsWhole, units_in};
ghost use Rattle.reg_export.specs.NameTests.{are_chars};

use std::io;
use std::io::{ErrorKind, Write};

/// What stands first among units.
#[derive(Clone, Copy)]
pub(crate) enum First {
    /// The high and the low surrogate of a pair, which is one character.
    Pair(u16, u16),
    /// A unit that is in no pair: a character, or half of a pair.
    Single(u16),
}

/// What stands first among units, and the units after it.
pub(crate) fn first_of(units: &[u16]) -> Option<(First, &[u16])>
    ensures parts { MatchOption result (units.now ≡ [])
        (λ parts. units_in parts.0 ++ parts.1.now ≡ units.now) }
    ensures first { IfSome result (λ parts. IsFirst parts.0) }
    ensures whole { IfSome result (λ parts. IsWhole parts.0 parts.1.now) }
    ensures shorter { IfSome result (λ parts. length parts.1.now < length units.now) }
{
    let Some((unit, rest)) = units.split_first() else {
        return None;
    };
    let Some((next, others)) = rest.split_first() else {
        return Some((First::Single(*unit), rest));
    };
    if is_pair(*unit, *next) {
        return Some((First::Pair(*unit, *next), others));
    }
    Some((First::Single(*unit), rest))
}

// whether two units are a pair of surrogates
fn is_pair(high: u16, low: u16) -> bool
    ensures is { OnTrue result (IsSurrogatePair high low) }
    ensures isnt { OnFalse result (¬ (IsSurrogatePair high low)) }
{
    0xd800 <= high && high < 0xdc00 && 0xdc00 <= low && low < 0xe000
}

/// The character of a pair of surrogates.
pub(crate) fn pair_char(high: u16, low: u16) -> Option<char>
    requires { IsSurrogatePair high low }
    ensures { result ≡ Some (surrogate_pair_char high low) }
{
    let high = u32::from(high) - 0xd800;
    let low = u32::from(low) - 0xdc00;
    char::from_u32(0x1_0000 + high * 0x400 + low)
}

/// Writes a character as UTF-8. If there is none, that is the error `InvalidInput`.
pub(crate) fn write_found<W: Write>(writer: &mut W, found: Option<char>) -> io::Result<()>
    ensures { OnOk result (IsSomeAnd found (λ c.
        Appends (W.contents writer.old) (W.contents writer.new) (encode_utf8 c))) }
{
    let Some(c) = found else {
        return Err(io::Error::from(ErrorKind::InvalidInput));
    };
    let mut bytes = [0; 4];
    writer.write_all(c.encode_utf8(&mut bytes).as_bytes())
}

/// Whether units are characters: no half of a pair of surrogates stands alone.
pub(crate) fn are_chars(units: &[u16]) -> bool
    ensures { result ≡ are_chars units.now }
{
    let mut rest = units;
    while let Some((first, others)) = first_of(rest) {
        if !is_char(first) {
            return false;
        }
        rest = others;
    }
    true
}

// whether it is a character
fn is_char(first: First) -> bool
    requires { IsFirst first }
    ensures { result ≡ are_chars (units_in first) }
{
    match first {
        First::Pair(..) => true,
        First::Single(unit) => is_single_char(unit),
    }
}

// whether a unit that stands alone is a character
fn is_single_char(unit: u16) -> bool
    ensures { result ≡ are_chars (unit ∷ []) }
{
    if unit < 0xd800 || 0xe000 <= unit {
        return true;
    }
    false
}
