//! Why a word or a line was not read.
ghost use Rattle.std.specs.Prelude.{◌≡◌};
ghost use Rattle.word_syntax.specs.declared.parse_error.ParseError.TheVariants.{NoMemory};

use std::alloc::{AllocError, AllocFailed};

/// Why a word or a line was not read.
#[derive(Clone, Copy, Debug, PartialEq, Eq)]
pub enum ParseError {
    /// Memory was asked for and not given.
    NoMemory,
    /// The bytes spell nothing that was asked for.
    NotUnderstood,
}

impl From<AllocError> for ParseError {
    ghost from_gives = { λ _ parse_error. parse_error ≡ NoMemory };

    fn from(_error: AllocError) -> ParseError {
        ParseError::NoMemory
    }
}

impl<T: Drop> From<AllocFailed<T>> for ParseError {
    ghost from_gives = { λ _ parse_error. parse_error ≡ NoMemory };

    fn from(_error: AllocFailed<T>) -> ParseError {
        ParseError::NoMemory
    }
}
