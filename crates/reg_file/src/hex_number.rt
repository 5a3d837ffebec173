//! Hex digits.
ghost use Rattle.std.specs.Prelude.{◌≡◌, ◌<◌, ◌^◌, IfSome};
ghost use Rattle.std.specs.Option.{option_map};
ghost use Rattle.reg_file.specs.Scanning.{digit_of, digits_from, number_at};
ghost use Rattle.reg_file.specs.Views.{number_view};

/// Digits of the longest number.
const MOST_DIGITS: usize = 8;

/// The value of a hex digit in either case.
pub(crate) fn digit(unit: u16) -> Option<u8>
    ensures value { result ≡ digit_of unit }
    ensures bound { IfSome result (λ digit. digit < 16) }
{
    match unit {
        0x30..=0x39 => Some((unit - 0x30) as u8),
        0x41..=0x46 => Some((unit - 0x37) as u8),
        0x61..=0x66 => Some((unit - 0x57) as u8),
        _ => None,
    }
}

/// The number that a line begins with, of 1 to 8 hex digits, and what is behind it.
pub(crate) fn number(line: &[u16]) -> Option<(u32, &[u16])>
    ensures { option_map number_view result ≡ number_at line.now }
{
    let Some((unit, others)) = line.split_first() else {
        return None;
    };
    let Some(first) = digit(*unit) else {
        return None;
    };
    digits_behind(u32::from(first), others)
}

// the number goes on with as many digits as there are
fn digits_behind(first: u32, line: &[u16]) -> Option<(u32, &[u16])>
    requires { first < 16 }
    ensures { option_map number_view result ≡ digits_from 7 first line.now }
{
    let mut number = first;
    let mut left = MOST_DIGITS - 1;
    let mut rest = line;
    while let Some((unit, others)) = rest.split_first() {
        let Some(digit) = digit(*unit) else {
            return Some((number, rest));
        };
        if left == 0 {
            return None;
        }
        number = 16 * number + u32::from(digit);
        left -= 1;
        rest = others;
    }
    Some((number, rest))
}
