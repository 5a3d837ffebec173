//! The files of a store in a folder, by their names.
ghost use Rattle.std.specs.Prelude.{◌≡◌, ◌≤◌, length, IfOk};

use std::alloc::{AllocError, AllocFailed, Global};
use std::fmt;
use std::fs::{self, File, OpenOptions, TryLockError};
use std::io::{self, ErrorKind};
use std::os::unix::fs::{FileExt, MetadataExt};
use std::rt::Files;

/// How many files the folder of a store may have: a journal, two files for each of 16 hives, and two for the hive of
/// outcomes. Others read as empty, and a write of one fails.
pub const MOST_FILES: u32 = 35;

/// The name in its folder of the file of this number: `journal`, `hive00.dat`, `hive00.log`, `hive01.dat`, and so on.
#[derive(Clone, Copy, Debug, PartialEq, Eq)]
pub struct FileName {
    /// The number.
    pub number: u32,
}

impl fmt::Display for FileName {
    fn fmt<W: fmt::Write>(&self, f: &mut fmt::Formatter<W>) -> fmt::Result {
        if self.number == 0 {
            return write!(f, "journal");
        }
        let hive = (self.number - 1) / 2;
        let ending = if self.number % 2 == 1 { "dat" } else { "log" };
        write!(f, "hive{hive:02}.{ending}")
    }
}

// the longest name of a file, with the slash before it, in bytes
const LONGEST_NAME: usize = 11;

/// What the system refused of a locked folder.
#[derive(Clone, Copy, Debug)]
pub struct Denial {
    /// The file of the refused call; none if it was a sync of the folder itself.
    pub file: Option<FileName>,
    /// Its error. The kind `StaleNetworkFileHandle` says that the folder isn't at its path any more.
    pub error: io::Error,
}

/// Why a folder can't be locked.
#[derive(Debug, Drop)]
pub enum LockError {
    /// Memory was not given.
    NoMemory,
    /// Another program has it.
    InUse,
    /// The system refused it.
    Denied(io::Error),
}

impl From<AllocError> for LockError {
    fn from(_: AllocError) -> LockError {
        LockError::NoMemory
    }
}

impl<T: Drop> From<AllocFailed<T>> for LockError {
    fn from(_: AllocFailed<T>) -> LockError {
        LockError::NoMemory
    }
}

impl From<io::Error> for LockError {
    fn from(error: io::Error) -> LockError {
        if error.kind() == ErrorKind::OutOfMemory {
            LockError::NoMemory
        } else {
            LockError::Denied(error)
        }
    }
}

/// What the files of a folder are opened for.
#[derive(Clone, Copy, PartialEq, Eq)]
pub(crate) enum Access {
    /// They are read and written, and made by the first write.
    ReadWrite,
    /// They are only read, so that they may be those of somebody else, or lie on a medium that takes no writes. A write
    /// or a cut fails.
    ReadOnly,
}

/// A folder whose files are opened as they are first asked for and stay open. A file that isn't there reads as empty,
/// and is made by the first write.
///
/// Until this is dropped, no other program that locks folders in this way can lock it to write. To read it, others can if
/// this only reads it too. A file is opened by the folder's path: if another folder is there by then, or none, the call
/// fails, and no file of the other one is read or written. An empty file is made in it only if the folder is moved between
/// the look at it and the making of a file.
#[derive(Drop)]
pub(crate) struct Folder<R: Files<File = File> + Drop> {
    rt: R,
    access: Access,
    // the folder's path, and the path of a file that is being opened, for which there is room
    folder: String,
    path: String,
    // the folder itself, which is locked; none if it wasn't there, and then no file is
    handle: Option<File>,
    files: Vec<Option<File>>,
    // a crash may take a file's name out of the folder: a run was ended after it had made the file and before it synced
    // the folder, or this one has made it
    has_news: bool,
    // what the system refused first
    denial: Option<Denial>,
    // the first file that was read and wasn't there, if each store has it
    missing_file: Option<FileName>,
}

impl<R: Files<File = File> + Drop> Folder<R> {
    /// Locks a folder, with others if it is only read. One that isn't there has no files, and none can be made in it, also
    /// if somebody makes the folder later: nothing locks it. What isn't a folder is refused.
    pub(crate) fn open_locked(
        rt: R,
        alloc: Global,
        folder: &str,
        access: Access,
    ) -> Result<Folder<R>, LockError> {
        let path = String::with_capacity(alloc, folder.len().saturating_add(LONGEST_NAME))?;
        let handle = match File::open(&rt, folder) {
            Ok(handle) => Some(handle),
            Err(error) if error.kind() == ErrorKind::NotFound => None,
            Err(error) => return Err(error.into()),
        };
        if let Some(handle) = &handle {
            if !handle.metadata()?.is_dir() {
                return Err(LockError::Denied(ErrorKind::NotADirectory.into()));
            }
            lock(handle, access)?;
        }
        let mut files = Vec::with_capacity(alloc, MOST_FILES as usize)?;
        for _file in 0..MOST_FILES {
            files.push(None)?;
        }
        Ok(Folder {
            rt,
            access,
            folder: String::from_str(alloc, folder)?,
            path,
            handle,
            files,
            has_news: true,
            denial: None,
            missing_file: None,
        })
    }

    /// Whether the folder was there as it was opened.
    pub(crate) fn is_there(&self) -> bool {
        self.handle.is_some()
    }

    /// What the system refused first of the calls below. What it refuses of a [`size`](Folder::size) is left out.
    pub(crate) fn denial(&self) -> Option<Denial> {
        self.denial
    }

    /// The first file that was measured or read below and wasn't there, of the journal and the hives' primary files.
    pub(crate) fn missing_file(&self) -> Option<FileName> {
        self.missing_file
    }

    /// The length of a file in bytes.
    pub(crate) fn len(&mut self, number: u32) -> io::Result<u64> {
        let told = self.size(number);
        let length = self.record_denial(Some(number), told)?;
        self.look_for(number);
        Ok(length)
    }

    /// Reads from an offset on, as many bytes as there are and the buffer takes: answers how many.
    pub(crate) fn read(&mut self, number: u32, offset: u64, buffer: &mut [u8]) -> io::Result<usize>
        ensures count { IfOk result (λ n. n ≤ length buffer.old) }
    {
        let told = self.read_part(number, offset, buffer);
        let count = self.record_denial(Some(number), told)?;
        self.look_for(number);
        Ok(count)
    }

    /// Writes all of the bytes at an offset. A file that isn't there is made.
    pub(crate) fn write(&mut self, number: u32, offset: u64, bytes: &[u8]) -> io::Result<()> {
        let told = self.write_all(number, offset, bytes);
        self.record_denial(Some(number), told)
    }

    /// Makes a file `length` bytes long. One that isn't there is made, unless it is to be empty.
    pub(crate) fn cut(&mut self, number: u32, length: u64) -> io::Result<()> {
        let told = self.resize(number, length);
        self.record_denial(Some(number), told)
    }

    /// Syncs a file. Syncs the folder too if it is the first sync since the folder was locked or since a file was made.
    /// Without this a crash may leave the folder without the file. What is synced are the bytes and the length
    /// (`fdatasync`), not the moment of the last change, which nothing reads.
    pub(crate) fn sync(&mut self, number: u32) -> io::Result<()> {
        let told = self.sync_bytes(number);
        if self.record_denial(Some(number), told)? {
            let told = self.sync_names();
            self.record_denial(None, told)?;
        }
        Ok(())
    }

    /// The length of a file in bytes, which isn't remembered.
    pub(crate) fn size(&mut self, number: u32) -> io::Result<u64> {
        match self.find(number)? {
            Some(file) => Ok(file.metadata()?.len()),
            None => Ok(0),
        }
    }

    fn read_part(&mut self, number: u32, offset: u64, buffer: &mut [u8]) -> io::Result<usize>
        ensures count { IfOk result (λ n. n ≤ length buffer.old) }
    {
        let Some(file) = self.find(number)? else {
            return Ok(0);
        };
        let there = file.metadata()?.len().saturating_sub(offset);
        let count = there.min(buffer.len() as u64) as usize;
        file.read_exact_at(&mut buffer[..count], offset)?;
        Ok(count)
    }

    fn write_all(&mut self, number: u32, offset: u64, bytes: &[u8]) -> io::Result<()> {
        if bytes.is_empty() {
            return Ok(());
        }
        self.make(number)?.write_all_at(bytes, offset)
    }

    fn resize(&mut self, number: u32, length: u64) -> io::Result<()> {
        if length == 0 && self.find(number)?.is_none() {
            return Ok(());
        }
        self.make(number)?.set_len(length)
    }

    // syncs a file's bytes; answers whether the file is there
    fn sync_bytes(&mut self, number: u32) -> io::Result<bool> {
        let access = self.access;
        match self.find(number)? {
            Some(file) => {
                synced(access, file.sync_data())?;
                Ok(true)
            }
            None => Ok(false),
        }
    }

    // syncs the folder, if a crash may take a name out of it
    fn sync_names(&mut self) -> io::Result<()> {
        if let Some(handle) = &self.handle {
            if self.has_news {
                synced(self.access, handle.sync_all())?;
                self.has_news = false;
            }
        }
        Ok(())
    }

    // remembers what the system refused first, of a file or of the folder itself
    fn record_denial<T: Drop>(&mut self, number: Option<u32>, told: io::Result<T>) -> io::Result<T>
        ensures { result ≡ told }
    {
        if let Err(error) = &told {
            if self.denial.is_none() {
                let file = number.map(|number| FileName { number });
                self.denial = Some(Denial {
                    file,
                    error: *error,
                });
            }
        }
        told
    }

    // remembers the first file that isn't there, though each store has it; an odd number is a primary file's
    fn look_for(&mut self, number: u32) {
        let is_of_each_store = number == 0 || number % 2 == 1;
        if is_of_each_store && self.missing_file.is_none() && self.is_closed(number) {
            self.missing_file = Some(FileName { number });
        }
    }

    // the file of a number, if it is there
    fn find(&mut self, number: u32) -> io::Result<Option<&File>> {
        if self.is_closed(number) {
            let how = File::options();
            self.open(number, how)?;
        }
        Ok(self.opened(number))
    }

    // The file of a number, which is made if it isn't there. The folder was looked at when the file was looked for. If it is
    // moved before the file is made, the look after that refuses; an empty file stays in the folder that took its place,
    // since whoever removed it by its path might remove another file.
    fn make(&mut self, number: u32) -> io::Result<&File> {
        if self.access == Access::ReadOnly {
            return Err(ErrorKind::ReadOnlyFilesystem.into());
        }
        if self.find(number)?.is_none() {
            let mut how = File::options();
            how.create(true);
            self.open(number, how)?;
            self.has_news = true;
        }
        self.opened(number).ok_or(ErrorKind::NotFound.into())
    }

    fn is_closed(&self, number: u32) -> bool {
        self.opened(number).is_none()
    }

    fn opened(&self, number: u32) -> Option<&File> {
        match self.files.get(number as usize) {
            Some(slot) => slot.as_ref(),
            None => None,
        }
    }

    // opens a file to read and, if the access allows it, to write, if it is there or is made; there is none after the
    // last one, and none in a folder that isn't locked
    fn open(&mut self, number: u32, how: OpenOptions) -> io::Result<()> {
        if number >= MOST_FILES || self.handle.is_none() {
            return Ok(());
        }
        let mut how = how;
        how.read(true).write(self.access == Access::ReadWrite);
        self.name(number)?;
        let opened = how.open(&self.rt, self.path.as_str());
        self.look_whether_it_is_there()?;
        match opened {
            Ok(file) => {
                if let Some(slot) = self.files.get_mut(number as usize) {
                    *slot = Some(file);
                }
                Ok(())
            }
            Err(error) if error.kind() == ErrorKind::NotFound => Ok(()),
            Err(error) => Err(error),
        }
    }

    // refuses if the locked folder isn't at its path any more: then what was opened by the path isn't its file
    fn look_whether_it_is_there(&self) -> io::Result<()> {
        let Some(handle) = &self.handle else {
            return Ok(());
        };
        let locked = handle.metadata()?;
        match fs::metadata(&self.rt, self.folder.as_str()) {
            Ok(found) if (found.dev(), found.ino()) == (locked.dev(), locked.ino()) => Ok(()),
            Ok(_) => Err(ErrorKind::StaleNetworkFileHandle.into()),
            Err(error) if error.kind() == ErrorKind::NotFound => {
                Err(ErrorKind::StaleNetworkFileHandle.into())
            }
            Err(error) => Err(error),
        }
    }

    // sets the path to the path of a file
    fn name(&mut self, number: u32) -> io::Result<()> {
        self.path.clear();
        self.path.push_str(self.folder.as_str())?;
        write!(self.path, "/{}", FileName { number })?;
        Ok(())
    }
}

// what a sync of a file or a folder answered; a medium that takes no writes has nothing to sync, and may say so
fn synced(access: Access, told: io::Result<()>) -> io::Result<()> {
    match told {
        Err(error) if access == Access::ReadOnly && has_no_sync(error.kind()) => Ok(()),
        told => told,
    }
}

// whether this is the answer of a medium that takes no writes to a sync
fn has_no_sync(kind: ErrorKind) -> bool {
    matches!(
        kind,
        ErrorKind::ReadOnlyFilesystem | ErrorKind::InvalidInput
    )
}

// takes the lock on a folder, if no other program has it; programs that only read share it
fn lock(handle: &File, access: Access) -> Result<(), LockError> {
    let locked = match access {
        Access::ReadWrite => handle.try_lock(),
        Access::ReadOnly => handle.try_lock_shared(),
    };
    match locked {
        Ok(()) => Ok(()),
        Err(TryLockError::WouldBlock) => Err(LockError::InUse),
        Err(TryLockError::Error(error)) => Err(error.into()),
    }
}
