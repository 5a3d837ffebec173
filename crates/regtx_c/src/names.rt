//! Names by which a read looks for a key or a value. Those of a file may have any units, and are found by them.
ghost use Rattle.std.specs.Prelude.{◌≡◌, ◌==◌, ◌⊎◌, ◌∷◌, ◌++◌, [], ◌<◌, length, position, true, false, Ok, Err, IfSome, IfNone, MatchResult};
ghost use Rattle.std.specs.List.{list_all, slice_split};
ghost use Rattle.refusals.specs.Answers.{RefusedFor};
ghost use Rattle.refusals.specs.declared.refusal.Refusal.TheVariants.{BadName, NoMemory};
ghost use Rattle.reg_names.specs.Names.{path_names};
ghost use Rattle.regtx_c.specs.Questions.{has_units, names_of};

use refusals::Refusal;
use refusals::limits::MOST_PATH_NAMES;
use reg_names::Name;
use std::alloc::Global;

/// The unit between two names of a path's text: the backslash.
const SEPARATOR: u16 = 0x5c;

const _: () = prove!(SEPARATOR == 0x5c);

/// The names in a path's text, joined by one backslash each; the empty text has none.
///
/// Refused with `BadName` exactly if a name is empty. Else refused with `TooDeep` exactly if they are more than 512.
pub(crate) fn names_of(alloc: Global, text: &[u16]) -> Result<Vec<Name>, Refusal>
    ensures { MatchResult result
        (λ names. (names.items ≡ path_names text.now) × (names_of text.now ≡ Ok names.items))
        (λ why. (why ≡ NoMemory) ⊎ (names_of text.now ≡ Err why)) }
{
    let names = match parts(alloc, text) {
        Ok(names) => names,
        Err(why) => return Err(why),
    };
    if names.len() > MOST_PATH_NAMES {
        return Err(Refusal::TooDeep);
    }
    Ok(names)
}

// the names in the text, none of them empty
fn parts(alloc: Global, text: &[u16]) -> Result<Vec<Name>, Refusal>
    ensures { MatchResult result
        (λ names. (names.items ≡ path_names text.now) × (list_all has_units names.items ≡ true))
        (RefusedFor BadName (list_all has_units (path_names text.now) ≡ false)) }
{
    if text.is_empty() {
        Ok(Vec::new(alloc))
    } else {
        names_between(alloc, text)
    }
}

// the parts of the text between its separators, none of them empty
fn names_between(alloc: Global, text: &[u16]) -> Result<Vec<Name>, Refusal>
    ensures { MatchResult result
        (λ names. (names.items ≡ slice_split (λ unit. unit == SEPARATOR) text.now)
        × (list_all has_units names.items ≡ true))
        (RefusedFor BadName (list_all has_units (slice_split (λ unit. unit == SEPARATOR) text.now) ≡ false)) }
{
    let mut names = Vec::new(alloc);
    let mut rest = text;
    while let Some((part, others)) = split_first(rest) {
        push_name(alloc, &mut names, part)?;
        rest = others;
    }
    push_name(alloc, &mut names, rest)?;
    Ok(names)
}

// the units before the first separator of the text and those after it, if it has one
fn split_first(text: &[u16]) -> Option<(&[u16], &[u16])>
    ensures parts { IfSome result (λ parts. slice_split (λ unit. unit == SEPARATOR) text.now
        ≡ parts.0.now ∷ slice_split (λ unit. unit == SEPARATOR) parts.1.now) }
    ensures shorter { IfSome result (λ parts. length parts.1.now < length text.now) }
    ensures whole { IfNone result (slice_split (λ unit. unit == SEPARATOR) text.now ≡ text.now ∷ []) }
{
    match separator_in(text) {
        Some(at) => Some((&text[..at], &text[at + 1..])),
        None => None,
    }
}

// where the first separator is
fn separator_in(text: &[u16]) -> Option<usize>
    ensures { result ≡ position (λ unit. unit == SEPARATOR) text.now }
{
    text.iter().position(|unit| *unit == SEPARATOR)
}

// adds the name of these units, if there are any
fn push_name(alloc: Global, names: &mut Vec<Name>, units: &[u16]) -> Result<(), Refusal>
    ensures { MatchResult result
        (λ _. (names.new.items ≡ names.old.items ++ units.now ∷ []) × (has_units units.now ≡ true))
        (RefusedFor BadName (has_units units.now ≡ false)) }
{
    if units.is_empty() {
        return Err(Refusal::BadName);
    }
    let name = Name::stored(alloc, units)?;
    names.push(name)?;
    Ok(())
}
