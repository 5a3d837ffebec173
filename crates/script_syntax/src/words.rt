//! The words of a line.
ghost use Rattle.std.specs.Prelude.{◌≡◌, ◌∷◌, [], ◌==◌, MatchResult};
ghost use Rattle.std.specs.Option.{option_copied};
ghost use Rattle.std.specs.List.{slice_split};
ghost use Rattle.word_syntax.specs.Parts.{parts_of};
ghost use Rattle.word_syntax.specs.Reads.{ReadsAs};
ghost use Rattle.script_syntax.specs.Lines.{one_of, two_of, four_of};

use word_syntax::{ParseError, first_part};

/// The blank between two words.
const BLANK: u8 = b' ';

/// The first word of a line, and what follows its blank if there is one.
pub(crate) fn first_word(line: &[u8]) -> (&[u8], Option<&[u8]>)
    ensures { slice_split (λ byte. byte == 32) line.now
        ≡ result.0.now ∷ parts_of 32 (option_copied result.1) }
{
    first_part(line, BLANK)
}

/// The one word after a blank.
pub(crate) fn one_word(rest: Option<&[u8]>) -> Result<&[u8], ParseError>
    ensures { ReadsAs (λ word. word.now) result (one_of (parts_of 32 (option_copied rest.entry))) }
{
    match next_word(rest)? {
        (word, None) => Ok(word),
        (_, Some(_)) => Err(ParseError::NotUnderstood),
    }
}

/// The two words after a blank.
pub(crate) fn two_words(rest: Option<&[u8]>) -> Result<(&[u8], &[u8]), ParseError>
    ensures { ReadsAs (λ found. (found.0.now, found.1.now)) result
        (two_of (parts_of 32 (option_copied rest.entry))) }
{
    let (first, rest) = next_word(rest)?;
    let second = one_word(rest)?;
    Ok((first, second))
}

/// The four words after a blank.
pub(crate) fn four_words(rest: Option<&[u8]>) -> Result<(&[u8], &[u8], &[u8], &[u8]), ParseError>
    ensures { ReadsAs (λ found. (found.0.now, found.1.now, found.2.now, found.3.now)) result
        (four_of (parts_of 32 (option_copied rest.entry))) }
{
    let (first, rest) = next_word(rest)?;
    let (second, rest) = next_word(rest)?;
    let (third, fourth) = two_words(rest)?;
    Ok((first, second, third, fourth))
}

/// The first word after a blank, and what follows its blank if there is one.
pub(crate) fn next_word(rest: Option<&[u8]>) -> Result<(&[u8], Option<&[u8]>), ParseError>
    ensures { MatchResult result (λ found. parts_of 32 (option_copied rest.entry)
        ≡ found.0.now ∷ parts_of 32 (option_copied found.1))
        (λ parse_error. (parse_error ≡ ParseError.NotUnderstood)
        × (parts_of 32 (option_copied rest.entry) ≡ [])) }
{
    match rest {
        Some(rest) => Ok(first_word(rest)),
        None => Err(ParseError::NotUnderstood),
    }
}
