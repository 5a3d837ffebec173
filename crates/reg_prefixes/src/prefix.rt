//! One prefix, and the word that names it.
ghost use Rattle.std.specs.Prelude.{◌≡◌, ◌⊎◌, IfOk, IfErr, Some, None};
ghost use Rattle.reg_prefixes.specs.Words.{meaning_of, word_meaning, default_meaning};
ghost use Rattle.reg_prefixes.specs.declared.prefix.WordError.TheVariants.{NoMemory, NotUnderstood};

use crate::word::{is_sound, parted};
use std::alloc::{AllocError, AllocFailed, Global};

/// The text with which paths begin that lead to a key of a hive, and below it.
#[derive(Drop)]
pub struct Prefix {
    /// The text's units, each of which is a byte from 0x20 to 0x7e: names joined by one backslash each.
    pub text: Vec<u8>,
    /// The hive's number.
    pub hive: u8,
    /// The key's path, of the same form; empty for the root.
    pub key: Vec<u8>,
}

/// Why words are no prefixes.
#[derive(Clone, Copy, Debug, PartialEq, Eq)]
pub enum WordError {
    /// A word is none, or the prefixes may not stand beside each other.
    NotUnderstood,
    /// Memory was not given.
    NoMemory,
}

impl From<AllocError> for WordError {
    ghost from_gives = { λ _ error. error ≡ NoMemory };

    fn from(_: AllocError) -> WordError {
        WordError::NoMemory
    }
}

impl<T: Drop> From<AllocFailed<T>> for WordError {
    ghost from_gives = { λ _ error. error ≡ NoMemory };

    fn from(_: AllocFailed<T>) -> WordError {
        WordError::NoMemory
    }
}

impl Prefix {
    /// The prefix of a word `PREFIX=HIVE` or `PREFIX=HIVE:PATH`, parted at the first `=` behind which a hive's number is
    /// all, or stands before a colon. HIVE is a number of one or two digits, at most 15. PREFIX and PATH are paths that
    /// calls take: at most 512 names of 1 to 255 units from 0x20 to 0x7e, joined by one backslash each. PREFIX isn't
    /// empty, and begins with no `-` and no digit.
    ///
    /// Refused with `NotUnderstood` if the word is none; and with `NoMemory`.
    pub fn parse(alloc: Global, word: &str) -> Result<Prefix, WordError>
        ensures parsed { IfOk result (λ prefix. word_meaning word.now ≡ Some (meaning_of prefix)) }
        ensures refused { IfErr result (λ error. (error ≡ NoMemory)
            ⊎ ((error ≡ NotUnderstood) × (word_meaning word.now ≡ None))) }
    {
        let Some((name, target)) = parted(word.as_bytes()) else {
            return Err(WordError::NotUnderstood);
        };
        if !is_sound(alloc, name, target.key)? {
            return Err(WordError::NotUnderstood);
        }
        let text = name.to_vec(alloc)?;
        let key = target.key.to_vec(alloc)?;
        Ok(Prefix {
            text,
            hive: target.hive,
            key,
        })
    }

    /// The prefix that each hive has, `HIVE` with its number.
    pub(crate) fn of_hive(alloc: Global, hive: u8) -> Result<Prefix, AllocError>
        ensures { IfOk result (λ prefix. meaning_of prefix ≡ default_meaning hive) }
    {
        let text = format!(in alloc; "HIVE{hive}")?.into_bytes();
        let key = Vec::new(alloc);
        Ok(Prefix { text, hive, key })
    }
}
