//! A disk in memory that reports which change of a file was made last.
ghost use Rattle.std.specs.Prelude.{◌≡◌};

use disk_model::{Disk, Failed, MemDisk};

/// What is done to a file that a power cut may undo, or that keeps it from doing so.
#[derive(Clone, Copy, Debug, PartialEq, Eq)]
pub(crate) enum ChangeKind {
    /// Bytes are written.
    Write,
    /// The file gets a given length.
    Cut,
    /// What was written and cut is made durable.
    Sync,
}

/// One device call that changes a file, or makes its changes durable.
#[derive(Clone, Copy, Debug, PartialEq, Eq)]
pub(crate) struct FileChange {
    /// What is done.
    pub kind: ChangeKind,
    /// The file's number.
    pub file: u32,
}

/// A disk in memory, and how many changes were made of it.
#[derive(Drop)]
pub(crate) struct WatchedMemDisk {
    disk: MemDisk,
    changes: u64,
    last: Option<FileChange>,
}

impl WatchedMemDisk {
    /// The disk, of which no change was seen yet.
    pub(crate) fn new(disk: MemDisk) -> WatchedMemDisk
        ensures { result.disk ≡ disk }
    {
        WatchedMemDisk {
            disk,
            changes: 0,
            last: None,
        }
    }

    /// The disk.
    pub(crate) fn disk(&self) -> &MemDisk
        ensures { result.now ≡ self.now.disk }
    {
        &self.disk
    }

    /// How many changes were seen.
    pub(crate) fn changes(&self) -> u64 {
        self.changes
    }

    /// The last change that was seen.
    pub(crate) fn last(&self) -> Option<FileChange> {
        self.last
    }

    // sees a change
    fn see(&mut self, kind: ChangeKind, file: u32)
        ensures { self.new.disk ≡ self.old.disk }
    {
        self.changes = self.changes.saturating_add(1);
        self.last = Some(FileChange { kind, file });
    }
}

impl Disk for WatchedMemDisk {
    ghost use Rattle.disk_model.specs.MemSound.{sound-states};

    ghost state_at = { λ w. ⟦<MemDisk as Disk>⟧.state_at w.disk };

    ghost clock = { λ w. ⟦<MemDisk as Disk>⟧.clock w.disk };

    ghost failures = { λ w. ⟦<MemDisk as Disk>⟧.failures w.disk };

    ghost faithful = { λ w. ⟦<MemDisk as Disk>⟧.faithful w.disk };

    ghost sound = { λ w k f _ _. sound-states w.disk.past w.disk.files.items k f };

    fn len(&mut self, file: u32) -> Result<u64, Failed> {
        self.disk.len(file)
    }

    fn read(&mut self, file: u32, offset: u64, buffer: &mut [u8]) -> Result<usize, Failed> {
        self.disk.read(file, offset, buffer)
    }

    fn write_at(&mut self, file: u32, offset: u64, bytes: &[u8]) -> Result<(), Failed> {
        self.see(ChangeKind::Write, file);
        self.disk.write_at(file, offset, bytes)
    }

    fn cut(&mut self, file: u32, len: u64) -> Result<(), Failed> {
        self.see(ChangeKind::Cut, file);
        self.disk.cut(file, len)
    }

    fn sync(&mut self, file: u32) -> Result<(), Failed> {
        self.see(ChangeKind::Sync, file);
        self.disk.sync(file)
    }
}
