//! What the program says if it can't begin its work.
use crate::hint::{Hint, Why};
use refusals::Refusal;
use reply_lines::Status;
use std::alloc::{AllocError, AllocFailed};
use std::io;
use thiserror::Error;

/// Why the program can't begin its work. Its text is what the program prints; a hint says more at a terminal.
#[derive(Debug, Drop, Error)]
pub enum CommandError<'a> {
    /// The words of the command line are not understood, a request for help or version among them.
    #[error("wrong words")]
    WrongWords,
    /// This word of the command line is not understood.
    #[error("wrong words")]
    WrongWord(&'a str),
    /// A file that the command line names can't be read.
    #[error("cannot read file")]
    CannotReadFile(Hint<'a>),
    /// A new file that the command line names can't be made, written or synced, or it is there already.
    #[error("cannot write file")]
    CannotWriteFile(Hint<'a>),
    /// No store can be made in the folder that the command line names: the folder can't be made or locked, or it has a
    /// store.
    #[error("cannot make store")]
    CannotMakeStore(Hint<'a>),
    /// The folder that the command line names can't be locked: another program has it, or the system refuses it.
    #[error("cannot open store")]
    CannotOpenStore(Hint<'a>),
    /// Memory was asked for and not given.
    #[error("{0}")]
    Refused(Refusal),
}

impl<'a> CommandError<'a> {
    /// The status that the program ends with.
    pub fn status(&self) -> Status {
        match self {
            CommandError::WrongWords | CommandError::WrongWord(_) => Status::Wrong,
            CommandError::CannotReadFile(_)
            | CommandError::CannotWriteFile(_)
            | CommandError::CannotMakeStore(_)
            | CommandError::CannotOpenStore(_)
            | CommandError::Refused(_) => Status::Refused,
        }
    }

    /// What a terminal shows beside the text.
    pub fn hint(&self) -> Option<Hint<'a>> {
        match self {
            CommandError::CannotReadFile(hint)
            | CommandError::CannotWriteFile(hint)
            | CommandError::CannotMakeStore(hint)
            | CommandError::CannotOpenStore(hint) => Some(*hint),
            CommandError::WrongWord(word) => Some(Hint::of(word, Why::NotUnderstood)),
            CommandError::WrongWords | CommandError::Refused(_) => None,
        }
    }
}

impl<'a> From<AllocError> for CommandError<'a> {
    fn from(_error: AllocError) -> CommandError<'a> {
        CommandError::Refused(Refusal::NoMemory)
    }
}

impl<'a, T: Drop> From<AllocFailed<T>> for CommandError<'a> {
    fn from(_error: AllocFailed<T>) -> CommandError<'a> {
        CommandError::Refused(Refusal::NoMemory)
    }
}

impl<'a> From<io::Error> for CommandError<'a> {
    fn from(error: io::Error) -> CommandError<'a> {
        match error.kind() {
            io::ErrorKind::OutOfMemory => CommandError::Refused(Refusal::NoMemory),
            _ => CommandError::WrongWords,
        }
    }
}

impl<'a> From<clap::Error> for CommandError<'a> {
    fn from(error: clap::Error) -> CommandError<'a> {
        match error.kind() {
            clap::error::ErrorKind::OutOfMemory => CommandError::Refused(Refusal::NoMemory),
            _ => CommandError::WrongWords,
        }
    }
}
