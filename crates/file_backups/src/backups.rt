//! The folder in which copies of a store are made that is served.
//!
//! Of real files it is trusted that they are what they answer, and that the system keeps what it has synced, a folder's
//! entries too. A copy lies in a folder that was made for it, so its files were not there before.

use file_disk::{FileDisk, LockError, Unknown, sync_parent};
use ktm_calls::StoreSnapshot;
use refusals::Refusal;
use std::alloc::Global;
use std::fs::{self, File};
use std::io::{self, ErrorKind};
use std::rt::Files;
use store_backup::{BackupFolder, write_copy};

/// The most bytes of a backup's name.
const MOST_NAME_BYTES: usize = 255;

/// The folder of backups, if one was named.
#[derive(Drop)]
pub struct BackupsIn<'r, 'f, R> {
    rt: &'r R,
    folder: Option<&'f str>,
}

impl<'r, 'f, R: Files<File = File>> BackupsIn<'r, 'f, R> {
    /// The folder of this path, or none.
    pub fn new(rt: &'r R, folder: Option<&'f str>) -> BackupsIn<'r, 'f, R> {
        BackupsIn { rt, folder }
    }
}

impl<R: Files<File = File>> BackupFolder for BackupsIn<'_, '_, R> {
    ghost use Rattle.file_backups.specs.Backups.{CopyIsLeft};

    ghost holds = { CopyIsLeft };

    fn save(&self, alloc: Global, name: &[u16], snapshot: &StoreSnapshot) -> Result<(), Refusal> {
        let Some(folder) = self.folder else {
            return Err(Refusal::Unsupported);
        };
        if !is_backup_name(name) {
            return Err(Refusal::BadName);
        }
        let path = path_in(alloc, folder, name)?;
        make_new_folder(self.rt, &path)?;
        let opened: Result<FileDisk<&R, Unknown>, LockError> = FileDisk::open_locked(
            self.rt, alloc, &path,
        );
        match opened {
            Ok(mut disk) => write_copy(alloc, &mut disk, snapshot),
            Err(LockError::NoMemory) => Err(Refusal::NoMemory),
            Err(_) => Err(Refusal::DiskFault),
        }
    }
}

// whether a backup may have this name: 1 to 255 letters, digits, full stops, low lines and hyphens, the first no full stop
fn is_backup_name(name: &[u16]) -> bool {
    if name.is_empty() || name.len() > MOST_NAME_BYTES || name[0] == u16::from(b'.') {
        return false;
    }
    name.iter().all(|unit| is_name_unit(*unit))
}

fn is_name_unit(unit: u16) -> bool {
    match u8::try_from(unit) {
        Ok(byte) => byte.is_ascii_alphanumeric() || matches!(byte, b'.' | b'_' | b'-'),
        Err(_) => false,
    }
}

// the path of a name in a folder
fn path_in(alloc: Global, folder: &str, name: &[u16]) -> Result<String, Refusal> {
    let mut path = String::new(alloc);
    path.push_str(folder)?;
    path.push('/')?;
    for unit in name {
        match u8::try_from(*unit) {
            Ok(byte) => path.push(char::from(byte))?,
            Err(_) => return Err(Refusal::BadName),
        }
    }
    Ok(path)
}

// makes a folder where nothing is, so that a power cut leaves it
fn make_new_folder<R: Files<File = File>>(rt: &R, path: &str) -> Result<(), Refusal> {
    let made = match fs::create_dir(rt, path) {
        Ok(()) => sync_parent(rt, path),
        Err(error) => Err(error),
    };
    made.map_err(refusal_of)
}

// the refusal that the system's error is told by
fn refusal_of(error: io::Error) -> Refusal {
    match error.kind() {
        ErrorKind::AlreadyExists => Refusal::Conflict,
        ErrorKind::OutOfMemory => Refusal::NoMemory,
        _ => Refusal::DiskFault,
    }
}
