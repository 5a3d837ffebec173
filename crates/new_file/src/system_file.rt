//! The calls of std's files by which a file is made.

use crate::calls::FileMaking;
use crate::record::{Asked, Record, noted};
use std::alloc::{AllocError, Global};
use std::fs::{self, File};
use std::io::{self, ErrorKind, Write};
use std::path::Path;
use std::rt::Files;

/// What stands behind the name of a file that is being made.
const PART_ENDING: &str = ".part";

/// The folder of a name that tells none.
const THIS_FOLDER: &str = ".";

/// A file that is to be made at a path, and its part.
#[derive(Drop)]
pub struct SystemFile<'a, R: Files<File = File>> {
    rt: &'a R,
    path: &'a str,
    part: String,
    opened: Option<File>,
    calls: Record,
}

impl<'a, R: Files<File = File>> SystemFile<'a, R> {
    ghost use Rattle.std.specs.Prelude.{◌≡◌, ◌∷◌, [], true, false, IfOk, OnOk, OnErr};
    ghost use Rattle.new_file.specs.Records.{call_of, calls_in};

    /// The file that is to be made at a path. Nothing is done yet.
    pub fn new(rt: &'a R, alloc: Global, path: &'a str) -> Result<SystemFile<'a, R>, AllocError>
        ensures { IfOk result (λ file. calls_in file.calls ≡ []) }
    {
        let mut part = String::from_str(alloc, path)?;
        part.push_str(PART_ENDING)?;
        Ok(SystemFile {
            rt,
            path,
            part,
            opened: None,
            calls: Record::Begun,
        })
    }

    // notes what came of a call
    fn told(&mut self, asked: Asked, answer: io::Result<()>) -> io::Result<()>
        ensures done { OnOk result (calls_in self.new.calls ≡ call_of asked true ∷ calls_in self.old.calls) }
        ensures failed { OnErr result (calls_in self.new.calls ≡ call_of asked false ∷ calls_in self.old.calls) }
    {
        match answer {
            Ok(()) => {
                self.calls.note(asked, true);
                Ok(())
            }
            Err(error) => {
                self.calls.note(asked, false);
                Err(error)
            }
        }
    }
}

impl<R: Files<File = File>> FileMaking for SystemFile<'_, R> {
    ghost use Rattle.new_file.specs.Records.{calls_in};

    ghost calls = { λ file. calls_in file.calls };

    fn look(&mut self) -> io::Result<bool> {
        match fs::symlink_metadata(self.rt, self.path) {
            Ok(_) => {
                self.calls.note(Asked::Look, true);
                Ok(true)
            }
            Err(error) => {
                self.calls.note(Asked::Look, false);
                if error.kind() == ErrorKind::NotFound {
                    Ok(false)
                } else {
                    Err(error)
                }
            }
        }
    }

    fn create(&mut self) -> io::Result<()> {
        match File::create_new(self.rt, self.part.as_str()) {
            Ok(file) => {
                self.opened = Some(file);
                self.calls.note(Asked::Create, true);
                Ok(())
            }
            Err(error) => {
                self.calls.note(Asked::Create, false);
                Err(error)
            }
        }
    }

    fn write(&mut self, bytes: &[u8]) -> io::Result<()> {
        let answer = match &mut self.opened {
            Some(file) => file.write_all(bytes),
            None => Err(ErrorKind::NotFound.into()),
        };
        self.told(Asked::Write(noted(bytes)), answer)
    }

    fn sync(&mut self) -> io::Result<()> {
        let answer = match &self.opened {
            Some(file) => file.sync_all(),
            None => Err(ErrorKind::NotFound.into()),
        };
        self.told(Asked::Sync, answer)
    }

    fn link(&mut self) -> io::Result<()> {
        let answer = fs::hard_link(self.rt, self.part.as_str(), self.path);
        self.told(Asked::Link, answer)
    }

    fn rename(&mut self) -> io::Result<()> {
        let answer = fs::rename(self.rt, self.part.as_str(), self.path);
        self.told(Asked::Rename, answer)
    }

    fn remove_part(&mut self) -> io::Result<()> {
        let answer = fs::remove_file(self.rt, self.part.as_str());
        self.told(Asked::RemovePart, answer)
    }

    fn sync_folder(&mut self) -> io::Result<()> {
        let folder = match Path::new(self.path).parent() {
            Some(folder) if !folder.as_str().is_empty() => folder.as_str(),
            _ => THIS_FOLDER,
        };
        let answer = match File::open(self.rt, folder) {
            Ok(folder) => folder.sync_all(),
            Err(error) => Err(error),
        };
        self.told(Asked::SyncFolder, answer)
    }
}
