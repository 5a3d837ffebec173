//! The files of a store as a disk.
ghost use Rattle.std.specs.Prelude.{◌≡◌, ◌∷◌, IsErr};
ghost use Rattle.file_disk.specs.Records.{calls_in};

use crate::folder::{Access, Denial, FileName, Folder, LockError, MOST_FILES};
use crate::record::{Call, Record, noted};
use crate::world::World;
use disk_model::{Disk, Failed};
use std::alloc::Global;
use std::fs::File;
use std::marker::PhantomData;
use std::rt::Files;

/// The files of a store in a folder. A file that isn't there reads as empty. Its sync and its cut to nothing do
/// nothing, and the first write makes it. The first sync of a file syncs the folder too, and so does the first one
/// after a file was made. So names that an earlier run left are kept too. The journal is `journal`, and hive 0 has the
/// files `hive00.dat` and `hive00.log`, and so on.
///
/// Until this is dropped, no other program that locks folders in this way can lock the folder, unless both only read it.
/// If the folder was moved by the time a file is first opened, the call fails, also if another folder is at its path.
///
/// What is proved of its files has a premise: each answer of the system is one that they allow, from what the world `W`
/// says that they first hold.
#[derive(Drop)]
pub struct FileDisk<R: Files<File = File> + Drop, W: World> {
    folder: Folder<R>,
    calls: Record,
    world: PhantomData<W>,
}

impl<R: Files<File = File> + Drop, W: World> FileDisk<R, W> {
    /// Locks a folder, which may be missing: then its files read as empty and none can be made, also if the folder is
    /// made later.
    ///
    /// Refused if another program has it, if it is no folder, if the system refuses it, and for want of memory.
    pub fn open_locked(rt: R, alloc: Global, folder: &str) -> Result<FileDisk<R, W>, LockError> {
        FileDisk::open(rt, alloc, folder, Access::ReadWrite)
    }

    /// The same for a folder whose files are only read: none is written or made, and each write and cut fails. The files
    /// may be such as this program isn't allowed to write, or lie on a medium that takes no writes. Several programs may
    /// read a folder at once. Refused if another one has it to write.
    pub fn open_read_only(rt: R, alloc: Global, folder: &str) -> Result<FileDisk<R, W>, LockError> {
        FileDisk::open(rt, alloc, folder, Access::ReadOnly)
    }

    fn open(
        rt: R,
        alloc: Global,
        folder: &str,
        access: Access,
    ) -> Result<FileDisk<R, W>, LockError> {
        Ok(FileDisk {
            folder: Folder::open_locked(rt, alloc, folder, access)?,
            calls: Record::Begun,
            world: PhantomData,
        })
    }

    /// How many bytes the journal and the hives have, without the hives' logs: what an opening reads, if nothing is to
    /// be repaired. A file that can't be measured counts nothing.
    pub fn store_bytes(&mut self) -> u64
        ensures { self.new.calls ≡ self.old.calls }
    {
        (0..MOST_FILES)
            .filter(|number| *number == 0 || *number % 2 == 1)
            .map(|number| self.folder.size(number).unwrap_or(0))
            .fold(0, u64::saturating_add)
    }
}

impl<R: Files<File = File> + Drop, W: World> FileDisk<R, W> {
    /// Whether the folder was there as this was opened.
    pub fn has_folder(&self) -> bool {
        self.folder.is_there()
    }

    /// What the system refused first since then.
    pub fn denial(&self) -> Option<Denial> {
        self.folder.denial()
    }

    /// The first file that was read and wasn't there, of those that each store has: the journal and the hives' primary
    /// files.
    pub fn missing_file(&self) -> Option<FileName> {
        self.folder.missing_file()
    }
}

impl<R: Files<File = File> + Drop, W: World> Disk for FileDisk<R, W> {
    ghost use Rattle.file_disk.specs.Records.{AreFaithful, calls_in, failures_in, states};
    ghost use Rattle.file_disk.specs.Sound.{sound_states};
    ghost use Rattle.std.specs.Prelude.{length};

    ghost state_at = { λ d. states W.World.seen (calls_in d.calls) };

    ghost clock = { λ d. length (calls_in d.calls) };

    ghost failures = { λ d. failures_in (calls_in d.calls) };

    ghost faithful = { λ d. AreFaithful W.World.seen (calls_in d.calls) };

    ghost sound = { λ d k f faithful le. sound_states W.World.seen (calls_in d.calls) faithful k f };

    fn len(&mut self, file: u32) -> Result<u64, Failed> {
        match self.folder.len(file) {
            Ok(length) => {
                self.calls.note(Call::Measured { file, length });
                Ok(length)
            }
            Err(_) => self.denied(),
        }
    }

    fn read(&mut self, file: u32, offset: u64, buffer: &mut [u8]) -> Result<usize, Failed> {
        let before = noted(buffer);
        match self.folder.read(file, offset, buffer) {
            Ok(count) => {
                let after = noted(buffer);
                self.calls.note(Call::Read {
                    file,
                    offset,
                    before,
                    after,
                    count,
                });
                Ok(count)
            }
            Err(_) => self.denied(),
        }
    }

    fn write_at(&mut self, file: u32, offset: u64, bytes: &[u8]) -> Result<(), Failed> {
        let failed = self.folder.write(file, offset, bytes).is_err();
        let bytes = noted(bytes);
        self.calls.note(Call::Written {
            file,
            offset,
            bytes,
            failed,
        });
        if failed { Err(Failed) } else { Ok(()) }
    }

    fn cut(&mut self, file: u32, len: u64) -> Result<(), Failed> {
        let failed = self.folder.cut(file, len).is_err();
        self.calls.note(Call::Cut {
            file,
            length: len,
            failed,
        });
        if failed { Err(Failed) } else { Ok(()) }
    }

    fn sync(&mut self, file: u32) -> Result<(), Failed> {
        match self.folder.sync(file) {
            Ok(()) => {
                self.calls.note(Call::Synced { file });
                Ok(())
            }
            Err(_) => self.denied(),
        }
    }
}

impl<R: Files<File = File> + Drop, W: World> FileDisk<R, W> {
    // notes that a call failed which changes nothing
    fn denied<T>(&mut self) -> Result<T, Failed>
        ensures noted { calls_in self.new.calls ≡ Call.Denied ∷ calls_in self.old.calls }
        ensures err { IsErr result }
    {
        self.calls.note(Call::Denied);
        Err(Failed)
    }
}
