//! Words of the command line that name a key or a value. They are spelled as in a script, but for blanks: a blank stands
//! for itself.
use crate::command_error::CommandError;
use refusals::Refusal;
use reg_names::{Name, Path, ValueName};
use script_syntax::{KeyRef, Line, Request, Text, read_line};
use std::alloc::{AllocError, Global};
use store_export::Selection;
use word_syntax::ParseError;

/// A blank in a script's spelling, in which it would end a word.
const BLANK: &[u8] = b"%0020";

/// The key that a word `HIVE:PATH` names.
pub fn key_named<'a>(alloc: Global, word: &'a str) -> Result<Selection, CommandError<'a>> {
    let key_ref = key_ref_of(alloc, word)?;
    key_of(alloc, &key_ref)
}

/// The key that a word `HIVE:PATH` names, and the name of a value that another word is; `@` is the empty name.
pub fn value_named<'a>(
    alloc: Global,
    word: &'a str,
    name: &'a str,
) -> Result<(Selection, ValueName), CommandError<'a>> {
    let key_ref = key_ref_of(alloc, word)?;
    let units = name_text_of(alloc, name)?;
    let key = key_of(alloc, &key_ref)?;
    match Name::value(alloc, units.units()) {
        Ok(name) => Ok((key, name)),
        Err(refusal) => Err(CommandError::Refused(refusal)),
    }
}

// what a word `HIVE:PATH` says, which may be no key's path
fn key_ref_of<'a>(alloc: Global, word: &'a str) -> Result<KeyRef, CommandError<'a>> {
    let mut line = b"keys ".to_vec(alloc)?;
    push_word(&mut line, word)?;
    match read_line(alloc, &line) {
        Ok(
            Line::Plain {
                request: Request::Keys { key_ref },
            },
        ) => Ok(key_ref),
        Err(ParseError::NoMemory) => Err(CommandError::Refused(Refusal::NoMemory)),
        _ => Err(CommandError::WrongWord(word)),
    }
}

// the units that a word spells, which may be no value's name
fn name_text_of<'a>(alloc: Global, word: &'a str) -> Result<Text, CommandError<'a>> {
    let mut line = b"get 0: ".to_vec(alloc)?;
    push_word(&mut line, word)?;
    match read_line(alloc, &line) {
        Ok(
            Line::Plain {
                request: Request::Get { key_ref: _, name },
            },
        ) => Ok(name),
        Err(ParseError::NoMemory) => Err(CommandError::Refused(Refusal::NoMemory)),
        _ => Err(CommandError::WrongWord(word)),
    }
}

// the same, of a word that was read
fn key_of<'a>(alloc: Global, key_ref: &KeyRef) -> Result<Selection, CommandError<'a>> {
    match Path::parse(alloc, key_ref.path.units()) {
        Ok(path) => Ok(Selection {
            hive: key_ref.hive,
            path,
        }),
        Err(refusal) => Err(CommandError::Refused(refusal)),
    }
}

// a word as a script spells it
fn push_word(line: &mut Vec<u8>, word: &str) -> Result<(), AllocError> {
    for byte in word.as_bytes() {
        match byte {
            b' ' => line.extend_from_slice(BLANK)?,
            _ => line.push(*byte)?,
        }
    }
    Ok(())
}
