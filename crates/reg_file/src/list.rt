//! Lists of bytes: pairs of hex digits with commas between them.
ghost use Rattle.std.specs.Prelude.{◌≡◌, IfOk, IfSome, MatchOption, ◌∷◌, ◌<◌, ◌≤◌, length, ◌+◌, ◌*◌, Some, None};
ghost use Rattle.reg_file.specs.Scanning.{Before, Behind, list_at, list_scan, onto_list, pair_at, goes_on, digit_of};
ghost use Rattle.std.specs.Option.{option_map};
ghost use Rattle.reg_file.specs.Views.{list_view, number_view};

use crate::blanks::{ends_statement, is_blank, without_blanks, without_end};
use crate::hex_number::digit;
use crate::text::ValueData;
use std::alloc::AllocError;

/// What comes of a list on one line.
#[derive(Clone, Copy)]
pub(crate) enum ListEnd {
    /// The list ends with the line.
    Whole,
    /// A backslash stands at the end: the list goes on on the next line.
    Broken,
    /// It is no list.
    Wrong,
}

/// Adds the bytes of a list's first line, which may be empty.
pub(crate) fn read_first(bytes: &mut ValueData, line: &[u16]) -> Result<ListEnd, AllocError>
    ensures { IfOk result (λ end. list_view end bytes.new ≡ onto_list bytes.old (list_scan line.now)) }
{
    if ends_statement(line) {
        return Ok(ListEnd::Whole);
    }
    read_list(bytes, line)
}

/// Adds the bytes of a line of a list to those before it.
pub(crate) fn read_list(bytes: &mut ValueData, line: &[u16]) -> Result<ListEnd, AllocError>
    ensures { IfOk result (λ end. list_view end bytes.new
        ≡ onto_list bytes.old (list_at Before line.now)) }
{
    let mut rest = line;
    while let Some((unit, others)) = rest.split_first() {
        if is_blank(*unit) {
            rest = others;
            continue;
        }
        if *unit == 0x5c {
            return Ok(if ends_statement(others) {
                ListEnd::Broken
            } else {
                ListEnd::Wrong
            });
        }
        let Some((byte, behind)) = pair(rest) else {
            return Ok(ListEnd::Wrong);
        };
        bytes.push(byte)?;
        let Some((comma, more)) = behind.split_first() else {
            return Ok(ListEnd::Whole);
        };
        if *comma != 0x2c {
            return Ok(if ends_statement(behind) {
                ListEnd::Whole
            } else {
                ListEnd::Wrong
            });
        }
        rest = more;
    }
    Ok(ListEnd::Wrong)
}

// the byte of a pair of digits, and what is behind it
fn pair(line: &[u16]) -> Option<(u8, &[u16])>
    ensures found { option_map number_view result ≡ pair_at line.now }
    ensures shorter { IfSome result (λ found. length found.1.now < length line.now) }
{
    let Some((first, others)) = line.split_first() else {
        return None;
    };
    let Some((second, rest)) = others.split_first() else {
        return None;
    };
    match (digit(*first), digit(*second)) {
        (Some(high), Some(low)) => Some((16 * high + low, rest)),
        _ => None,
    }
}

/// Whether a line of a list that is wrong goes on on the next line: a backslash ends it, behind a comma, a colon or
/// nothing.
pub(crate) fn goes_on(line: &[u16]) -> bool
    ensures { result ≡ goes_on line.now }
{
    let Some((0x5c, front)) = without_end(line).split_last() else {
        return false;
    };
    matches!(without_blanks(front).last(), None | Some(0x2c | 0x3a))
}
