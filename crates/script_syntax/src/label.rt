//! The labels of a script's transactions.
ghost use Rattle.std.specs.Prelude.{◌≡◌};
ghost use Rattle.std.specs.List.{list_all};
ghost use Rattle.std.specs.Char.{is_ascii_alphanumeric};

use std::marker::Model;

/// Bytes of the longest label.
pub const LONGEST_LABEL: usize = 16;

/// A label of a transaction in a script: 1 to 16 ASCII letters or digits, filled up with zeros. It takes no memory. Two
/// labels are the same if their bytes are: a letter in upper case differs from the letter in lower case.
#[derive(Clone, Copy)]
pub struct Label([u8; LONGEST_LABEL]);

impl Model for Label {
    ghost use Rattle.std.specs.Prelude.{List, ℕ};

    ghost Value = { List ℕ };

    ghost view = { λ inside. inside.0 };

    ghost inverse = { λ bytes. record { 0 = bytes } };
}

impl Label {
    ghost use Rattle.script_syntax.specs.Words.{label_of};

    /// The label that a word is, if it is one.
    pub(crate) fn read(word: &[u8]) -> Option<Label>
        ensures { result ≡ label_of word.now }
    {
        if word.is_empty() || word.len() > LONGEST_LABEL || !are_letters(word) {
            return None;
        }
        let mut bytes = [0; LONGEST_LABEL];
        bytes[..word.len()].copy_from_slice(word);
        Some(Label(bytes))
    }

    /// The letters and digits in order, and zeros after them.
    pub fn bytes(self) -> [u8; LONGEST_LABEL]
        ensures { result ≡ self }
    {
        self.0
    }
}

fn are_letters(word: &[u8]) -> bool
    ensures { result ≡ list_all is_ascii_alphanumeric word.now }
{
    word.iter().all(|byte| byte.is_ascii_alphanumeric())
}
