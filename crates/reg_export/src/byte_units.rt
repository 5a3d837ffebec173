//! The UTF-16 units in bytes.
ghost use Rattle.std.specs.Prelude.{◌≡◌, ◌<◌, ◌∷◌, [], MatchOption, IfSome, length};
ghost use Rattle.reg_export.specs.ByteUnits.{units_of};

/// The first unit of bytes, the low byte of it first, and the bytes after it.
pub fn first_unit(bytes: &[u8]) -> Option<(u16, &[u8])>
    ensures parts { MatchOption result (units_of bytes.now ≡ [])
        (λ parts. units_of bytes.now ≡ parts.0 ∷ units_of parts.1.now) }
    ensures shorter { IfSome result (λ parts. length parts.1.now < length bytes.now) }
{
    match bytes.split_first_chunk::<2>() {
        Some((pair, rest)) => Some((u16::from_le_bytes(*pair), rest)),
        None => None,
    }
}
