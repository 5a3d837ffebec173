//! Whether a text begins with a prefix, small letters taken as large ones.
ghost use Rattle.std.specs.Prelude.{◌≡◌};
ghost use Rattle.reg_prefixes.specs.Places.{begins, is_parted};

use reg_names::folded_unit;

/// The unit between two names: the backslash.
pub(crate) const SEPARATOR: u16 = 0x5c;

const _: () = prove!(SEPARATOR == 0x5c);

/// Whether a path's text is the prefix, or begins with the prefix and a backslash.
pub(crate) fn begins(prefix: &[u8], text: &[u16]) -> bool
    ensures { result ≡ begins prefix.now text.now }
{
    let mut rest = text;
    for unit in prefix {
        let [next, more @ ..] = rest else {
            return false;
        };
        if folded_unit(u16::from(*unit)) != folded_unit(*next) {
            return false;
        }
        rest = more;
    }
    is_parted(rest)
}

// whether nothing follows, or a backslash
fn is_parted(rest: &[u16]) -> bool
    ensures { result ≡ is_parted rest.now }
{
    match rest.first() {
        Some(unit) => *unit == SEPARATOR,
        None => true,
    }
}
