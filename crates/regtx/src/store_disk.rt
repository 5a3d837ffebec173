//! The files of a store in a folder, as a disk that hints speak of.
use disk_model::Disk;
use file_disk::{Denial, FileDisk, FileName, Unknown};
use std::fs::File;
use std::rt::Files;

/// A disk over the files of a store in a folder.
///
/// Commands are generic in it, for `main` alone knows that it may go to another thread.
pub trait StoreDisk: Disk {
    /// How many bytes an opening reads, if nothing is to be repaired.
    fn bytes(&mut self) -> u64;

    /// What the system refused first.
    fn first_denial(&self) -> Option<Denial>;

    /// Whether the folder was there.
    fn is_there(&self) -> bool;

    /// The first file that was read and wasn't there, of those that each store has.
    fn first_missing(&self) -> Option<FileName>;
}

impl<R: Files<File = File> + Drop> StoreDisk for FileDisk<R, Unknown> {
    fn bytes(&mut self) -> u64 {
        self.store_bytes()
    }

    fn first_denial(&self) -> Option<Denial> {
        self.denial()
    }

    fn is_there(&self) -> bool {
        self.has_folder()
    }

    fn first_missing(&self) -> Option<FileName> {
        self.missing_file()
    }
}
