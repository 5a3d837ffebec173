//! The characters in the data of texts.
ghost use Rattle.std.specs.Prelude.{◌≡◌, ◌<◌, ◌∷◌, [], MatchOption, IfSome, length};
ghost use Rattle.std.specs.List.{list_all};
ghost use Rattle.value_syntax.specs.Printed.{is_shown, is_shown_in, text_chars, has_separator, begins_with_char};

use reg_export::first_unit;

/// The first character of the units in bytes, or none for a surrogate that has no partner; and the bytes after it.
pub(crate) fn first_char(bytes: &[u8]) -> Option<(Option<char>, &[u8])>
    ensures chars { MatchOption result (text_chars bytes.now ≡ [])
        (λ first. text_chars bytes.now ≡ first.0 ∷ text_chars first.1.now) }
    ensures shorter { IfSome result (λ first. length first.1.now < length bytes.now) }
{
    let Some((unit, rest)) = first_unit(bytes) else {
        return None;
    };
    let high = code_of(unit);
    if high < 0xd800 || 0xe000 <= high {
        return Some((char::from_u32(high), rest));
    }
    if 0xdc00 <= high {
        return Some((None, rest));
    }
    match first_unit(rest) {
        Some((unit, others)) => {
            let low = code_of(unit);
            if low < 0xdc00 || 0xe000 <= low {
                return Some((None, rest));
            }
            let code = 0x1_0000 + (high - 0xd800) * 0x400 + (low - 0xdc00);
            Some((char::from_u32(code), others))
        }
        None => Some((None, rest)),
    }
}

// the number of a unit
fn code_of(unit: u16) -> u32
    ensures same { result ≡ unit }
    ensures bound { result < 0x1_0000 }
{
    u32::from(unit)
}

/// Whether all characters can be shown on a line; among texts also the character 0, which ends one.
pub(crate) fn are_shown(bytes: &[u8], among_texts: bool) -> bool
    ensures { result ≡ list_all (is_shown_in among_texts) (text_chars bytes.now) }
{
    let mut rest = bytes;
    while let Some((c, others)) = first_char(rest) {
        if !is_shown_in(among_texts, c) {
            return false;
        }
        rest = others;
    }
    true
}

fn is_shown_in(among_texts: bool, c: Option<char>) -> bool
    ensures { result ≡ is_shown_in among_texts c }
{
    match c {
        Some('\0') => among_texts,
        Some(c) => is_shown(c),
        None => false,
    }
}

// no control character, none that ends a line or turns its direction
fn is_shown(c: char) -> bool
    ensures { result ≡ is_shown c }
{
    !c.is_control() && !matches!(c, '\u{2028}'..='\u{202e}' | '\u{2066}'..='\u{2069}')
}

/// Whether `\` stands before `0` somewhere.
pub(crate) fn has_separator(bytes: &[u8]) -> bool
    ensures { result ≡ has_separator (text_chars bytes.now) }
{
    let mut rest = bytes;
    while let Some((c, others)) = first_char(rest) {
        if c == Some('\\') && begins_with_zero(others) {
            return true;
        }
        rest = others;
    }
    false
}

fn begins_with_zero(bytes: &[u8]) -> bool
    ensures { result ≡ begins_with_char 48 (text_chars bytes.now) }
{
    matches!(first_char(bytes), Some((Some('0'), _)))
}
