//! Numbers and bytes that words parse to.
ghost use Rattle.std.specs.Prelude.{◌≡◌};
ghost use Rattle.std.specs.List.{list_all};
ghost use Rattle.std.specs.Char.{is_ascii_digit};
ghost use Rattle.script_syntax.specs.Words.{number_of};

/// The number that one or more decimal digits parse to, if it is at most `most`. A sign is no digit; leading zeros are
/// allowed.
pub(crate) fn number(word: &[u8], most: u64) -> Option<u64>
    ensures { result ≡ number_of most word.now }
{
    if word.is_empty() || !are_digits(word) {
        return None;
    }
    let Ok(text) = str::from_utf8(word) else {
        return None;
    };
    match text.parse::<u64>() {
        Ok(value) if value <= most => Some(value),
        _ => None,
    }
}

fn are_digits(word: &[u8]) -> bool
    ensures { result ≡ list_all is_ascii_digit word.now }
{
    word.iter().all(|byte| byte.is_ascii_digit())
}
