//! Lines at a terminal: why what the words ask for can't be done.
use crate::store_disk::StoreDisk;
use file_disk::{Denial, FileName, LockError};
use std::alloc::Global;
use std::fmt;
use std::io::{self, Eprint, ErrorKind};

/// Why a file or a folder can't be used.
#[derive(Clone, Copy, Debug)]
pub enum Why<'a> {
    /// The system refuses it.
    Denied(io::Error),
    /// It is a key with subkeys, which another command deletes.
    HasSubkeys,
    /// Another program has it.
    InUse,
    /// Another program has it, and serves it at the socket of this path.
    ServedAt(&'a str),
    /// It is there already.
    IsThere,
    /// There is no such file.
    NoFile,
    /// There is no such folder.
    NoFolder,
    /// The word isn't understood.
    NotUnderstood,
    /// What is being written under this name is there already, with `.part` behind the name.
    PartIsThere,
}

/// Such a line, for example `regtx: store/hive00.log: Permission denied`.
#[derive(Clone, Copy, Debug)]
pub struct Hint<'a> {
    // what the line is about: a path, a word of the command line, or other words
    subject: &'a str,
    // the file of a store, if the path is that of the store's folder
    file: Option<FileName>,
    why: Why<'a>,
}

impl<'a> Hint<'a> {
    /// Why what a path names can't be used.
    pub fn of(subject: &'a str, why: Why<'a>) -> Hint<'a> {
        Hint {
            subject,
            file: None,
            why,
        }
    }

    /// Why the system refuses what a path names.
    pub fn denied(subject: &'a str, error: io::Error) -> Hint<'a> {
        Hint::of(subject, Why::Denied(error))
    }

    /// Why replies can't be written.
    pub fn unwritten(error: io::Error) -> Hint<'static> {
        Hint::denied("replies can't be written", error)
    }

    /// That a folder has a journal already.
    pub fn of_journal(folder: &'a str) -> Hint<'a> {
        let journal = FileName { number: 0 };
        Hint::of_store(folder, Some(journal), Why::IsThere)
    }

    // why a file of the store in a folder can't be used, or the folder
    fn of_store(folder: &'a str, file: Option<FileName>, why: Why<'a>) -> Hint<'a> {
        Hint {
            subject: folder,
            file,
            why,
        }
    }

    /// Why a folder can't be locked; none for lack of memory.
    pub fn of_lock_error(folder: &'a str, lock_error: &LockError) -> Option<Hint<'a>> {
        match lock_error {
            LockError::NoMemory => None,
            LockError::InUse => Some(Hint::of(folder, Why::InUse)),
            LockError::Denied(error) => Some(Hint::denied(folder, *error)),
        }
    }

    /// The folder, if another program has it.
    pub fn folder_in_use(&self) -> Option<&'a str> {
        match self.why {
            Why::InUse => Some(self.subject),
            _ => None,
        }
    }

    /// That another program serves this at the socket of a path.
    pub fn served_at(&self, socket: &'a str) -> Hint<'a> {
        Hint {
            subject: self.subject,
            file: self.file,
            why: Why::ServedAt(socket),
        }
    }

    /// What the system refused of the files of a store, if it refused anything.
    pub fn of_denial(folder: &'a str, denial: Option<Denial>) -> Option<Hint<'a>> {
        denial.map(|denial| Hint::of_store(folder, denial.file, Why::Denied(denial.error)))
    }

    /// What is missing of a store, if anything.
    pub fn of_absence<D: StoreDisk>(folder: &'a str, disk: &D) -> Option<Hint<'a>> {
        if !disk.is_there() {
            return Some(Hint::of(folder, Why::NoFolder));
        }
        let file = disk.first_missing()?;
        Some(Hint::of_store(folder, Some(file), Why::NoFile))
    }

    /// Writes the line to standard error. What can't be written, or gets no memory, is left out.
    pub fn say<R: Eprint>(&self, rt: &R, alloc: Global) {
        if let Ok(line) = self.line(alloc) {
            let _ = eprintln!(rt; "{line}");
        }
    }

    fn line(&self, alloc: Global) -> io::Result<String> {
        let reason = self.why.reason(alloc)?;
        let mut line = String::new(alloc);
        write!(line, "regtx: {}", self.subject)?;
        if let Some(file) = self.file {
            write!(line, "/{file}")?;
        }
        write!(line, ": {reason}")?;
        Ok(line)
    }
}

impl Why<'_> {
    // in words, without the number that the system's error has
    fn reason(self, alloc: Global) -> io::Result<String> {
        let mut words = String::new(alloc);
        match self {
            Why::Denied(error) if error.kind() == ErrorKind::StaleNetworkFileHandle => {
                words.push_str("the folder isn't at its path any more")?
            }
            Why::Denied(error) => write!(words, "{error}")?,
            Why::HasSubkeys => words.push_str("has subkeys; del-tree deletes all of it")?,
            Why::InUse => words.push_str("another program has it")?,
            Why::ServedAt(socket) => write!(words, "another program has it, served at {socket}")?,
            Why::IsThere => words.push_str("is there already")?,
            Why::NoFile => words.push_str("no such file")?,
            Why::NoFolder => words.push_str("no such folder")?,
            Why::NotUnderstood => words.push_str("not understood")?,
            Why::PartIsThere => {
                words.push_str("with .part behind is there already: a run left it that was killed")?
            }
        }
        if let Some(end) = words.find(" (os error ") {
            words.truncate(end);
        }
        Ok(words)
    }
}
