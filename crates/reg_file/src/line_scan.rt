//! Lines, each by itself or as a further line of a statement.
ghost use Rattle.std.specs.Prelude.{◌≡◌, IfOk};
ghost use Rattle.reg_file.specs.Reading.{first_scan, line_scan, bytes_scan};
ghost use Rattle.reg_file.specs.Scanning.{onto_list, list_at, Before};

use crate::blanks::{is_tail, skip_blanks};
use crate::key_line::scan_key;
use crate::list::read_list;
use crate::scan::{Pending, Scan};
use crate::text::{Utf16Text, ValueData};
use crate::value_line::{scan_bytes, scan_text, scan_value, scan_wrong};
use std::alloc::{AllocError, Global};

/// What a line comes to behind those of a statement that goes on, if there is one; `old` is the old form.
pub(crate) fn scan_line(
    alloc: Global,
    old: bool,
    pending: Option<Pending>,
    line: &[u16],
) -> Result<Scan, AllocError>
    ensures { IfOk result (λ scan. scan ≡ line_scan old pending line.now) }
{
    match pending {
        None => scan_first(alloc, old, skip_blanks(line)),
        Some(Pending::Text { name, text }) => scan_text(alloc, name, text, line),
        Some(Pending::List { name, kind, bytes }) => {
            scan_list(alloc, old, name, kind, bytes, line)
        }
        Some(Pending::WrongList) => Ok(scan_wrong(line)),
    }
}

// the first line of something, without the blanks before it
fn scan_first(alloc: Global, old: bool, line: &[u16]) -> Result<Scan, AllocError>
    ensures { IfOk result (λ scan. scan ≡ first_scan old line.now) }
{
    if is_tail(line) {
        return Ok(Scan::Nothing);
    }
    match line {
        [0x5b, inside @ ..] => scan_key(alloc, inside),
        _ => scan_value(alloc, old, line),
    }
}

// a further line of a list
fn scan_list(
    alloc: Global,
    old: bool,
    name: Utf16Text,
    kind: u32,
    bytes: ValueData,
    line: &[u16],
) -> Result<Scan, AllocError>
    ensures { IfOk result (λ scan. scan
        ≡ bytes_scan old name kind line.now (onto_list bytes (list_at Before line.now))) }
{
    let mut bytes = bytes;
    let end = read_list(&mut bytes, line)?;
    scan_bytes(alloc, old, name, kind, bytes, end, line)
}
