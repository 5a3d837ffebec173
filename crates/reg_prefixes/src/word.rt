//! What a word says that names a prefix.
ghost use Rattle.std.specs.Prelude.{◌≡◌, ◌==◌, position, IfOk};
ghost use Rattle.std.specs.Option.{option_map};
ghost use Rattle.std.specs.Result.{is_ok};
ghost use Rattle.reg_names.specs.Names.{path_of};
ghost use Rattle.reg_prefixes.specs.Words.{parted, named_behind, target_of, hive_number, two_digits, decimal_digit, may_begin, is_sound};
ghost use Rattle.reg_prefixes.specs.Views.{parted_view, target_view};

use crate::units::wide;
use refusals::Refusal;
use reg_names::Path;
use std::alloc::{AllocError, Global};

/// The most that a word says of a hive's number.
const LAST_HIVE: u16 = 15;

const _: () = prove!(LAST_HIVE == 15);

/// A key of a hive, as a word names it.
#[derive(Clone, Copy)]
pub(crate) struct Target<'a> {
    /// The hive's number.
    pub(crate) hive: u8,
    /// The key's path; empty for the root.
    pub(crate) key: &'a [u8],
}

/// The bytes before the first `=` behind which a hive's number is all, or stands before a colon; and what is named there.
pub(crate) fn parted(word: &[u8]) -> Option<(&[u8], Target<'_>)>
    ensures { option_map parted_view result ≡ parted word.now }
{
    let mut at = 0;
    let mut rest = word;
    while let Some((unit, behind)) = rest.split_first() {
        if let Some(target) = named_behind(*unit, behind) {
            return Some((&word[..at], target));
        }
        at += 1;
        rest = behind;
    }
    None
}

// what is named behind this byte, if it is an equals sign
fn named_behind(byte: u8, behind: &[u8]) -> Option<Target<'_>>
    ensures { option_map target_view result ≡ named_behind byte behind.now }
{
    if byte == b'=' {
        target_of(behind)
    } else {
        None
    }
}

// the key that `HIVE` or `HIVE:PATH` names
fn target_of(text: &[u8]) -> Option<Target<'_>>
    ensures { option_map target_view result ≡ target_of text.now }
{
    match colon_in(text) {
        Some(at) => named(&text[..at], &text[at + 1..]),
        None => named(text, &[]),
    }
}

// the index of the first colon
fn colon_in(text: &[u8]) -> Option<usize>
    ensures { result ≡ position (λ byte. byte == 58) text.now }
{
    text.iter().position(|byte| *byte == b':')
}

// a key of the hive of this number
fn named<'a>(digits: &[u8], key: &'a [u8]) -> Option<Target<'a>>
    ensures { option_map target_view result
        ≡ option_map (λ hive. (hive, key.now)) (hive_number digits.now) }
{
    match hive_number(digits) {
        Some(hive) => Some(Target { hive, key }),
        None => None,
    }
}

// the number of one or two digits, if it is a hive's
fn hive_number(digits: &[u8]) -> Option<u8>
    ensures { result ≡ hive_number digits.now }
{
    match digits {
        [one] => decimal_digit(*one),
        [ten, one] => two_digits(decimal_digit(*ten), decimal_digit(*one)),
        _ => None,
    }
}

fn decimal_digit(byte: u8) -> Option<u8>
    ensures { result ≡ decimal_digit byte }
{
    match byte {
        0x30..=0x39 => Some(byte - 0x30),
        _ => None,
    }
}

fn two_digits(ten: Option<u8>, one: Option<u8>) -> Option<u8>
    ensures { result ≡ two_digits ten one }
{
    let (Some(ten), Some(one)) = (ten, one) else {
        return None;
    };
    let number = 10 * u16::from(ten) + u16::from(one);
    if number <= LAST_HIVE {
        Some(number as u8)
    } else {
        None
    }
}

/// Whether these are a prefix and a path of a key: paths that calls take, of which the first begins with no minus and no
/// digit, as words of other meaning do.
pub(crate) fn is_sound(alloc: Global, text: &[u8], key: &[u8]) -> Result<bool, AllocError>
    ensures { IfOk result (λ sound. sound ≡ is_sound text.now key.now) }
{
    if !may_begin(text) || !is_path(alloc, text)? {
        return Ok(false);
    }
    is_path(alloc, key)
}

fn may_begin(text: &[u8]) -> bool
    ensures { result ≡ may_begin text.now }
{
    match text.first() {
        Some(first) => *first != b'-' && decimal_digit(*first).is_none(),
        None => false,
    }
}

// whether a text is the path of a key, as calls take it
fn is_path(alloc: Global, text: &[u8]) -> Result<bool, AllocError>
    ensures { IfOk result (λ test. test ≡ is_ok (path_of text.now)) }
{
    let units = wide(alloc, text)?;
    match Path::parse(alloc, &units) {
        Ok(_) => Ok(true),
        Err(Refusal::NoMemory) => Err(AllocError),
        Err(_) => Ok(false),
    }
}
