//! The parts of a text between separators.
ghost use Rattle.std.specs.Prelude.{◌≡◌, ◌∷◌, ◌==◌, ◌<◌, length, IfSome};
ghost use Rattle.std.specs.Option.{option_copied};
ghost use Rattle.std.specs.List.{slice_split, position};
ghost use Rattle.word_syntax.specs.Parts.{parts_of, before, behind};

/// The bytes before the first separator, and those after it if there is one.
pub fn first_part(bytes: &[u8], separator: u8) -> (&[u8], Option<&[u8]>)
    ensures before { result.0.now ≡ before separator bytes.now }
    ensures behind { option_copied result.1 ≡ behind separator bytes.now }
    ensures parts { slice_split (λ byte. byte == separator) bytes.now
        ≡ result.0.now ∷ parts_of separator (option_copied result.1) }
    ensures shorter { IfSome result.1 (λ rest. length rest.now < length bytes.now) }
{
    match separator_in(bytes, separator) {
        Some(at) => (&bytes[..at], Some(&bytes[at + 1..])),
        None => (bytes, None),
    }
}

// the index of the first separator
fn separator_in(bytes: &[u8], separator: u8) -> Option<usize>
    ensures { result ≡ position (λ byte. byte == separator) bytes.now }
{
    bytes.iter().position(|byte| *byte == separator)
}
