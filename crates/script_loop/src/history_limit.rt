//! How many changes a store accepts until its history is folded, by a script's second line.
ghost use Rattle.std.specs.Prelude.{◌≡◌, ◌≤◌, IfOk};
ghost use Rattle.refusals.specs.declared.limits.TheConstants.{MOST_HISTORY};
ghost use Rattle.script_loop.specs.FirstLines.{history_asked};

use refusals::limits::MOST_HISTORY;
use script_syntax::{Line, read_line};
use std::alloc::{AllocError, Global};
use std::marker::Model;
use word_syntax::ParseError;

/// How many changes a history has at most: 1 to 1,048,576.
#[derive(Clone, Copy)]
pub struct HistoryLimit(u64);

impl Model for HistoryLimit {
    ghost use Rattle.std.specs.Prelude.{◌≤◌, ℕ};
    ghost use Rattle.refusals.specs.declared.limits.TheConstants.{MOST_HISTORY};

    ghost Value = { ℕ };

    ghost view = { λ inside. inside.0 };

    ghost inverse = { λ changes. record { 0 = changes } };

    ghost invariant = { λ inside. (1 ≤ inside.0) × (inside.0 ≤ MOST_HISTORY) };
}

impl HistoryLimit {
    /// The limit of a store whose script sets none: 1,048,576 changes.
    pub fn most() -> HistoryLimit
        ensures { result ≡ MOST_HISTORY }
    {
        HistoryLimit(MOST_HISTORY)
    }

    /// The number of changes.
    pub fn changes(self) -> u64
        ensures changes { result ≡ self }
        ensures some { 1 ≤ result }
        ensures most { result ≤ MOST_HISTORY }
    {
        self.0
    }
}

/// The limit that a script's second line asks for, or `None` if the bytes are no `history` line. Refused only for lack
/// of memory for reading the line.
pub fn read_history_limit(alloc: Global, bytes: &[u8]) -> Result<Option<HistoryLimit>, AllocError>
    ensures { IfOk result (λ limit. limit ≡ history_asked bytes.now) }
{
    script_syntax::grammar::parses_what_is_printed();
    match read_line(alloc, bytes) {
        Ok(Line::History { limit }) => Ok(Some(HistoryLimit(limit))),
        Ok(_) | Err(ParseError::NotUnderstood) => Ok(None),
        Err(ParseError::NoMemory) => Err(AllocError),
    }
}
