//! Blanks, the end of a line, remarks, and text that stands as it is.
ghost use Rattle.std.specs.Prelude.{◌≡◌, ◌≤◌, length, reverse};
ghost use Rattle.std.specs.Option.{option_copied};
ghost use Rattle.reg_file.specs.Scanning.{is_blank, skip_blanks, ends_line, is_tail, ends_statement, strip, backwards, skip_return};

/// The units that a line begins with are blanks and tabs: those behind them.
pub(crate) fn skip_blanks(line: &[u16]) -> &[u16]
    ensures { result.now ≡ skip_blanks line.now }
{
    let mut rest = line;
    while let Some((unit, others)) = rest.split_first() {
        if !is_blank(*unit) {
            return rest;
        }
        rest = others;
    }
    rest
}

/// Whether a line may end here: with blanks and a carriage return at most.
pub(crate) fn ends_line(rest: &[u16]) -> bool
    ensures { result ≡ ends_line rest.now }
{
    matches!(skip_blanks(rest), [] | [0x0d])
}

/// Whether a statement may end here: behind blanks the line ends, or a remark begins.
pub(crate) fn ends_statement(rest: &[u16]) -> bool
    ensures { result ≡ ends_statement rest.now }
{
    is_tail(skip_blanks(rest))
}

/// Whether these units are the end of a line, or a remark: a semicolon and what follows it.
pub(crate) fn is_tail(units: &[u16]) -> bool
    ensures { result ≡ is_tail units.now }
{
    matches!(units, [] | [0x0d] | [0x3b, ..])
}

/// The units behind an ASCII text, if the line begins with it.
pub(crate) fn strip<'a>(text: &[u8], line: &'a [u16]) -> Option<&'a [u16]>
    ensures { option_copied result ≡ strip text.now line.now }
{
    let mut rest = line;
    let mut wanted = text;
    while let Some((byte, more)) = wanted.split_first() {
        let Some((unit, others)) = rest.split_first() else {
            return None;
        };
        if *unit != u16::from(*byte) {
            return None;
        }
        wanted = more;
        rest = others;
    }
    Some(rest)
}

/// The line without what may end it: one carriage return, and the blanks before it.
pub(crate) fn without_end(line: &[u16]) -> &[u16]
    ensures { reverse result.now ≡ backwards line.now }
{
    match line.split_last() {
        Some((0x0d, front)) => without_blanks(front),
        _ => without_blanks(line),
    }
}

/// The line without the blanks that end it.
pub(crate) fn without_blanks(line: &[u16]) -> &[u16]
    ensures { reverse result.now ≡ skip_blanks (reverse line.now) }
{
    let mut front = line;
    while let Some((unit, others)) = front.split_last() {
        if !is_blank(*unit) {
            return front;
        }
        front = others;
    }
    front
}

/// A blank or a tab.
pub(crate) fn is_blank(unit: u16) -> bool
    ensures { result ≡ is_blank unit }
{
    unit == 0x20 || unit == 0x09
}
