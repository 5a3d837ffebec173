//! Text in quotes.
ghost use Rattle.std.specs.Prelude.{◌≡◌, ◌==◌, ◌||◌, IfOk, false};
ghost use Rattle.reg_file.specs.Scanning.{quote_at, onto_quote};
ghost use Rattle.reg_file.specs.Views.{quote_view};

use crate::text::Utf16Text;
use std::alloc::AllocError;

/// What comes of text in quotes on one line.
#[derive(Drop)]
pub(crate) enum QuoteEnd<'a> {
    /// The quote that closes it came, with these units behind it.
    Closed(&'a [u16]),
    /// The line ended before.
    Open,
    /// It is no text in quotes: a backslash stands before anything but a quote or a backslash, or a unit is 0.
    Wrong,
}

/// Adds the units of text that goes on on this line to those before it.
pub(crate) fn read_quote<'a>(
    text: &mut Utf16Text,
    line: &'a [u16],
) -> Result<QuoteEnd<'a>, AllocError>
    ensures { IfOk result (λ end. quote_view end text.new
        ≡ onto_quote text.old (quote_at false line.now)) }
{
    let mut rest = line;
    let mut escaped = false;
    while let Some((unit, others)) = rest.split_first() {
        rest = others;
        let unit = *unit;
        if escaped {
            if !is_escaped(unit) {
                return Ok(QuoteEnd::Wrong);
            }
            text.push(unit)?;
            escaped = false;
        } else if unit == 0x22 {
            return Ok(QuoteEnd::Closed(rest));
        } else if unit == 0x5c {
            escaped = true;
        } else if unit == 0 {
            return Ok(QuoteEnd::Wrong);
        } else {
            text.push(unit)?;
        }
    }
    Ok(if escaped {
        QuoteEnd::Wrong
    } else {
        QuoteEnd::Open
    })
}

// what may follow a backslash
fn is_escaped(unit: u16) -> bool
    ensures { result ≡ (unit == 34 || unit == 92) }
{
    unit == 0x22 || unit == 0x5c
}
