//! What is written parses to what it was: a law.
ghost use Rattle.std.specs.Prelude.{◌≡◌, ◌<◌, ◌^◌, ℕ, List, Some};
ghost use Rattle.hex.specs.Hex.{IsBytes};
ghost use Rattle.value_syntax.specs.Data.{datum_with};
ghost use Rattle.value_syntax.specs.Printed.{datum_on, datum_text};

/// The words of a value, parted at the first blank, parse to its type and data.
pub fn written_words_parse_back()
    ensures { (kind : ℕ) (bytes : List ℕ) → kind < 2 ^ 32 → IsBytes bytes →
        datum_on (datum_text kind bytes) ≡ Some (datum_with kind bytes) }
{}
