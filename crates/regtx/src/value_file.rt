//! Files whose bytes are the data of a value.
use crate::command_error::CommandError;
use crate::files::{Source, Trouble, last_error};
use crate::hint::Hint;
use crate::input_file::opened;
use refusals::Refusal;
use refusals::limits::MOST_VALUE_BYTES;
use std::io::{ErrorKind, Input, Read};
use std::rt::Files;

/// The bytes of the file that a word names. Refused with `TooLarge` if they are more than a value may have; one of these
/// is read then, and no more.
pub fn value_bytes<'a, R: Files + Input + AllocGlobal>(
    rt: &R,
    word: &'a str,
) -> Result<Vec<u8>, CommandError<'a>> {
    let trouble = Trouble::new(None);
    let source = Source::new(opened(rt, word)?, &trouble);
    let mut bytes = Vec::new(rt.alloc());
    match source
        .take(MOST_VALUE_BYTES as u64 + 1)
        .read_to_end(&mut bytes)
    {
        Ok(_) if bytes.len() <= MOST_VALUE_BYTES => Ok(bytes),
        Ok(_) => Err(CommandError::Refused(Refusal::TooLarge)),
        Err(error) if error.kind() == ErrorKind::OutOfMemory => Err(CommandError::from(error)),
        Err(_) => Err(CommandError::CannotReadFile(Hint::denied(word, last_error(&trouble)))),
    }
}
