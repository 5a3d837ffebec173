//! Lines that name a key.
ghost use Rattle.std.specs.Prelude.{◌≡◌, ◌≤◌, IfOk, length, reverse};
ghost use Rattle.reg_file.specs.Scanning.{from_bracket};
ghost use Rattle.reg_file.specs.Reading.{key_scan, key_between, without_separator};

use crate::blanks::ends_statement;
use crate::scan::Scan;
use crate::statement::Statement;
use crate::text::Utf16Text;
use std::alloc::{AllocError, Global};

/// What a line comes to, by its units behind the opening bracket. The path ends at the last closing one.
pub(crate) fn scan_key(alloc: Global, line: &[u16]) -> Result<Scan, AllocError>
    ensures { IfOk result (λ scan. scan ≡ key_scan line.now) }
{
    let front = up_to_bracket(line);
    let Some((_, inside)) = front.split_last() else {
        return Ok(Scan::NotUnderstood);
    };
    if !ends_statement(&line[front.len()..]) {
        return Ok(Scan::NotUnderstood);
    }
    scan_inside(alloc, inside)
}

// the units up to the last closing bracket and with it; none if there is no bracket
fn up_to_bracket(line: &[u16]) -> &[u16]
    ensures front { reverse result.now ≡ from_bracket (reverse line.now) }
    ensures within { length result.now ≤ length line.now }
{
    let mut front = line;
    while let Some((unit, others)) = front.split_last() {
        if *unit == 0x5d {
            return front;
        }
        front = others;
    }
    front
}

// what stands between the brackets: a minus first deletes the key
fn scan_inside(alloc: Global, inside: &[u16]) -> Result<Scan, AllocError>
    ensures { IfOk result (λ scan. scan ≡ key_between inside.now) }
{
    let statement = match inside.split_first() {
        Some((0x2d, path)) => Statement::DeleteKey {
            path: Utf16Text::copy(alloc, without_separator(path))?,
        },
        _ => Statement::CreateKey {
            path: Utf16Text::copy(alloc, without_separator(inside))?,
        },
    };
    Ok(Scan::Complete { statement })
}

// a path without one backslash at its end
fn without_separator(path: &[u16]) -> &[u16]
    ensures { result.now ≡ without_separator path.now }
{
    match path.split_last() {
        Some((0x5c, front)) => front,
        _ => path,
    }
}
