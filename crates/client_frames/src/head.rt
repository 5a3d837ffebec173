//! The head of a frame, as it is read.
ghost use Rattle.std.specs.Prelude.{◌≡◌, ◌≢◌, ◌≤◌, ◌<◌, ◌∷◌, ◌++◌, ℕ, length, slice_index, MatchOption, IsTrue, ◌↔◌};
ghost use Rattle.std.specs.Fmt.{decimal};
ghost use Rattle.std.specs.List.{list_all};
ghost use Rattle.std.specs.Char.{is_ascii_digit};
ghost use Rattle.client_frames.specs.declared.place.TheConstants.{LAST_PLACE};
ghost use Rattle.client_frames.specs.Heads.{IsFrameHead, IsNoHead, IsNoNumber, IsNoDataHead, IsDataHead, IsHeadOf, IsOtherWord, Lacks, head_text};

use crate::piece::PIECE_BYTES;
use crate::place::{ClientPlace, LAST_PLACE};

/// The most bytes of a head, which `data 30 65536` has.
pub(crate) const LONGEST_HEAD: usize = 13;

/// What a head says.
#[derive(Clone, Copy)]
pub(crate) enum Head {
    Ready,
    Open { place: ClientPlace },
    Data { place: ClientPlace, count: usize },
    More { place: ClientPlace },
    End { place: ClientPlace },
    Gone { place: ClientPlace },
}

/// What the text of a head says, or `None` if it is none.
pub(crate) fn parse_head(text: &[u8]) -> Option<Head>
    ensures { MatchOption result (IsNoHead text.now)
        (λ head. IsFrameHead head × (text.now ≡ head_text head)) }
{
    let Some((word, rest)) = cut_at_blank(text) else {
        return match text {
            b"ready" => Some(Head::Ready),
            _ => None,
        };
    };
    if word == b"data".as_slice() {
        return parse_data_head(rest);
    }
    let place = parse_place(rest)?;
    parse_word(word, place)
}

// the head of this word and place, if it isn't one of bytes
fn parse_word(word: &[u8], place: ClientPlace) -> Option<Head>
    ensures { MatchOption result (IsOtherWord word.now) (λ head. IsHeadOf head word.now place) }
{
    if word == b"open".as_slice() {
        Some(Head::Open { place })
    } else if word == b"more".as_slice() {
        Some(Head::More { place })
    } else if word == b"end".as_slice() {
        Some(Head::End { place })
    } else if word == b"gone".as_slice() {
        Some(Head::Gone { place })
    } else {
        None
    }
}

// the head of a frame of bytes, by what follows its word
fn parse_data_head(text: &[u8]) -> Option<Head>
    ensures { MatchOption result (IsNoDataHead text.now) (IsDataHead text.now) }
{
    let (place, count) = cut_at_blank(text)?;
    let place = parse_place(place)?;
    let count = parse_number(count, PIECE_BYTES)?;
    if count == 0 {
        return None;
    }
    Some(Head::Data { place, count })
}

fn parse_place(text: &[u8]) -> Option<ClientPlace>
    ensures { MatchOption result (IsNoNumber LAST_PLACE text.now)
        (λ place. (place ≤ LAST_PLACE) × (text.now ≡ decimal place)) }
{
    let number = parse_number(text, usize::from(LAST_PLACE))?;
    ClientPlace::new(number as u8)
}

// the number that is written so, up to this one: digits, with no zero before others
fn parse_number(text: &[u8], most: usize) -> Option<usize>
    ensures { MatchOption result (IsNoNumber most text.now)
        (λ number. (number ≤ most) × (text.now ≡ decimal number)) }
{
    if is_padded(text) {
        return None;
    }
    if !are_digits(text) {
        return None;
    }
    let Ok(digits) = str::from_utf8(text) else {
        return None;
    };
    match digits.parse::<usize>() {
        Ok(number) if number <= most => Some(number),
        _ => None,
    }
}

// whether a zero stands before other bytes
fn is_padded(text: &[u8]) -> bool
    ensures { IsTrue result ↔ (1 < length text.now) × (slice_index text.now 0 ≡ 48) }
{
    text.len() > 1 && text[0] == b'0'
}

fn are_digits(text: &[u8]) -> bool
    ensures { result ≡ list_all is_ascii_digit text.now }
{
    text.iter().all(|byte| byte.is_ascii_digit())
}

// what is before the first blank, and what is after it
fn cut_at_blank(text: &[u8]) -> Option<(&[u8], &[u8])>
    ensures { MatchOption result (Lacks 32 text.now)
        (λ parts. Lacks 32 parts.0.now × (text.now ≡ parts.0.now ++ 32 ∷ parts.1.now)) }
{
    let at = text.iter().position(|byte| *byte == b' ')?;
    Some((&text[..at], &text[at + 1..]))
}
