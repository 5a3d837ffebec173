//! Files that the words name to be read: by their paths, or standard input.
use crate::command_error::CommandError;
use crate::hint::Hint;
use refusals::Refusal;
use std::fs::{self, File};
use std::io::{self, ErrorKind, Input, Read};
use std::rt::Files;

/// The word for standard input.
const STANDARD_INPUT: &str = "-";

/// The path of standard input, by which a socket can't be opened.
const STANDARD_INPUT_PATH: &str = "/dev/stdin";

/// A file that is read. [`open_input`] opens it.
#[derive(Drop)]
pub enum InputFile<F, S> {
    /// A file that was opened by its path.
    Named(F),
    /// Standard input.
    Standard(S),
}

impl<F: Read + Drop, S: Read + Drop> Read for InputFile<F, S> {
    fn read(&mut self, buf: &mut [u8]) -> io::Result<usize> {
        match self {
            InputFile::Named(file) => file.read(buf),
            InputFile::Standard(file) => file.read(buf),
        }
    }
}

/// Whether a word names standard input: `-`, or its path. A file that is called `-` is written `./-`.
pub fn is_standard_input(word: &str) -> bool {
    word == STANDARD_INPUT || word == STANDARD_INPUT_PATH
}

/// The file that a word names, to be read.
pub fn open_input<R: Files + Input>(
    rt: &R,
    word: &str,
) -> io::Result<InputFile<R::File, R::Reader>> {
    if is_standard_input(word) {
        return Ok(InputFile::Standard(rt.reader()));
    }
    Ok(InputFile::Named(File::open(rt, word)?))
}

/// The same, for a command that can't do without it.
pub fn opened<'a, R: Files + Input>(
    rt: &R,
    word: &'a str,
) -> Result<InputFile<R::File, R::Reader>, CommandError<'a>> {
    match open_input(rt, word) {
        Ok(file) => Ok(file),
        Err(error) if error.kind() == ErrorKind::OutOfMemory => {
            Err(CommandError::Refused(Refusal::NoMemory))
        }
        Err(error) => Err(CommandError::CannotReadFile(Hint::denied(word, error))),
    }
}

/// Whether a word names a folder.
pub fn is_folder<R: Files>(rt: &R, word: &str) -> bool {
    match fs::metadata(rt, word) {
        Ok(metadata) => metadata.is_dir() && !is_standard_input(word),
        Err(_) => false,
    }
}

/// Whether a word names a file that can be read, such as standard input, and no folder.
pub fn is_file<R: Files>(rt: &R, word: &str) -> bool {
    match fs::metadata(rt, word) {
        Ok(metadata) => !metadata.is_dir() || is_standard_input(word),
        Err(_) => is_standard_input(word),
    }
}

/// The length of the plain file that a word names; of any other file it isn't known.
pub fn length_of<R: Files>(rt: &R, word: &str) -> Option<u64> {
    let path = if is_standard_input(word) {
        STANDARD_INPUT_PATH
    } else {
        word
    };
    match fs::metadata(rt, path) {
        Ok(metadata) if metadata.is_file() => Some(metadata.len()),
        _ => None,
    }
}
