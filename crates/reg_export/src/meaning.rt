//! What the data of a value mean by its type.
ghost use Rattle.std.specs.Prelude.{◌≡◌, if◌then◌else◌};
ghost use Rattle.reg_export.specs.ByteUnits.{units_of, are_whole, ends_in_zero, front_units};
ghost use Rattle.reg_export.specs.Meanings.{Text, Texts, Unknown, parted, meant, meaning_of, texts_of, unterminated};

/// What the data of a value mean.
#[derive(Clone, Copy)]
pub(crate) enum Meaning<'a> {
    /// A text, by the bytes of its units.
    Text(&'a [u8]),
    /// No texts.
    NoTexts,
    /// Texts, by the bytes of their units, with a unit 0 between each two.
    Texts(&'a [u8]),
    /// A number.
    Number(u32),
    /// A number that needs 64 bits.
    WideNumber(u64),
    /// Nothing that the type says.
    Unknown,
}

/// What data mean by the number of their type.
pub(crate) fn data_meaning(kind: u32, bytes: &[u8]) -> Meaning<'_>
    ensures { meant result ≡ meaning_of kind bytes.now }
{
    match (kind, bytes) {
        (1 | 2 | 6, _) => text(bytes),
        (7, _) => texts(bytes),
        (4, [a, b, c, d]) => Meaning::Number(u32::from_le_bytes([*a, *b, *c, *d])),
        (5, [a, b, c, d]) => Meaning::Number(u32::from_be_bytes([*a, *b, *c, *d])),
        (11, [a, b, c, d, e, f, g, h]) => {
            Meaning::WideNumber(u64::from_le_bytes([*a, *b, *c, *d, *e, *f, *g, *h]))
        }
        _ => Meaning::Unknown,
    }
}

fn text(bytes: &[u8]) -> Meaning<'_>
    ensures { meant result ≡ (if are_whole bytes.now then Text
        (units_of (unterminated bytes.now)) else Unknown) }
{
    if bytes.len() % 2 != 0 {
        return Meaning::Unknown;
    }
    Meaning::Text(bytes.strip_suffix(&[0, 0]).unwrap_or(bytes))
}

fn texts(bytes: &[u8]) -> Meaning<'_>
    ensures { meant result ≡ texts_of bytes.now }
{
    if bytes == [0, 0].as_slice() {
        return Meaning::NoTexts;
    }
    if bytes.len() % 2 == 0 && bytes.ends_with(&[0, 0]) {
        return texts_before(&bytes[..bytes.len() - 2]);
    }
    Meaning::Unknown
}

// texts, which end in a unit 0
fn texts_before(bytes: &[u8]) -> Meaning<'_>
    ensures { meant result ≡ (if ends_in_zero bytes.now then Texts
        (parted (units_of (front_units bytes.now))) else Unknown) }
{
    if bytes.ends_with(&[0, 0]) {
        return Meaning::Texts(&bytes[..bytes.len() - 2]);
    }
    Meaning::Unknown
}
