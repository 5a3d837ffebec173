//! The first line of a file.
ghost use Rattle.std.specs.Prelude.{◌≡◌};
ghost use Rattle.reg_file.specs.Headers.{header_of, is_header, is_old_header};

use crate::blanks::{ends_line, skip_blanks, strip};

/// Whether a line is a header, and if it is that of the old form.
pub(crate) fn header(line: &[u16]) -> Option<bool>
    ensures { result ≡ header_of line.now }
{
    if is_old_header(line) {
        Some(true)
    } else if is_header(b"Windows Registry Editor Version 5.00".as_slice(), line) {
        Some(false)
    } else {
        None
    }
}

/// Whether a line is the header of the old form.
pub(crate) fn is_old_header(line: &[u16]) -> bool
    ensures { result ≡ is_old_header line.now }
{
    is_header(b"REGEDIT4".as_slice(), line)
}

fn is_header(text: &[u8], line: &[u16]) -> bool
    ensures { result ≡ is_header text.now line.now }
{
    match strip(text, skip_blanks(line)) {
        Some(rest) => ends_line(rest),
        None => false,
    }
}
