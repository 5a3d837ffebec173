//! Numbers in words.
ghost use Rattle.std.specs.Prelude.{◌≡◌, ◌≤◌};
ghost use Rattle.std.specs.List.{list_all};
ghost use Rattle.std.specs.Char.{is_digit};
ghost use Rattle.value_syntax.specs.TypeWords.{number_in, number_of};

/// The number that a word spells, if it is at most `most`: hex digits after `0x`, else decimal digits. A sign is no
/// digit.
pub(crate) fn number(most: u64, word: &[u8]) -> Option<u64>
    ensures { result ≡ number_of most word.now }
{
    match word.strip_prefix(b"0x".as_slice()) {
        Some(digits) => number_in(16, most, digits),
        None => number_in(10, most, word),
    }
}

/// The number that one or more digits of a base parse to, if it is at most `most`.
pub(crate) fn number_in(base: u32, most: u64, word: &[u8]) -> Option<u64>
    requires low { 2 ≤ base }
    requires high { base ≤ 36 }
    ensures { result ≡ number_in base most word.now }
{
    if word.is_empty() || !are_digits(base, word) {
        return None;
    }
    let Ok(text) = str::from_utf8(word) else {
        return None;
    };
    match u64::from_str_radix(text, base) {
        Ok(value) if value <= most => Some(value),
        _ => None,
    }
}

fn are_digits(base: u32, word: &[u8]) -> bool
    requires low { 2 ≤ base }
    requires high { base ≤ 36 }
    ensures { result ≡ list_all (λ c. is_digit c base) word.now }
{
    word.iter().all(|byte| char::from(*byte).is_digit(base))
}
