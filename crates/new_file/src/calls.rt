//! The calls by which a file is made.
ghost use Rattle.std.specs.Prelude.{◌≡◌, ◌∷◌, true, false, List, IfOk, OnOk, OnErr};
ghost use Rattle.new_file.specs.Calls.{Call, looked, created, written, synced, linked, renamed, removed, kept};

use std::io;

/// The calls by which a file is made: under another name first, as its part, and then under its own.
///
/// A call that failed may have been done, or a part of it.
pub trait FileMaking {
    /// The calls so far, the last one first.
    ghost calls: { Self → List Call };

    /// Looks whether something has the file's name.
    fn look(&mut self) -> io::Result<bool>
        ensures told { IfOk result (λ there. calls self.new ≡ looked there ∷ calls self.old) }
        ensures failed { OnErr result (calls self.new ≡ looked false ∷ calls self.old) };

    /// Makes the part, empty, where nothing has its name.
    fn create(&mut self) -> io::Result<()>
        ensures done { OnOk result (calls self.new ≡ created true ∷ calls self.old) }
        ensures failed { OnErr result (calls self.new ≡ created false ∷ calls self.old) };

    /// Puts all these bytes behind those of the part.
    fn write(&mut self, bytes: &[u8]) -> io::Result<()>
        ensures done { OnOk result (calls self.new ≡ written bytes.now true ∷ calls self.old) }
        ensures failed { OnErr result (calls self.new ≡ written bytes.now false ∷ calls self.old) };

    /// Puts the part's bytes on the disk.
    fn sync(&mut self) -> io::Result<()>
        ensures done { OnOk result (calls self.new ≡ synced true ∷ calls self.old) }
        ensures failed { OnErr result (calls self.new ≡ synced false ∷ calls self.old) };

    /// Gives the part the file's name beside its own. Fails if something has that.
    fn link(&mut self) -> io::Result<()>
        ensures done { OnOk result (calls self.new ≡ linked true ∷ calls self.old) }
        ensures failed { OnErr result (calls self.new ≡ linked false ∷ calls self.old) };

    /// Gives the part the file's name in the place of its own. What has that name is lost.
    fn rename(&mut self) -> io::Result<()>
        ensures done { OnOk result (calls self.new ≡ renamed true ∷ calls self.old) }
        ensures failed { OnErr result (calls self.new ≡ renamed false ∷ calls self.old) };

    /// Takes the part's own name away.
    fn remove_part(&mut self) -> io::Result<()>
        ensures done { OnOk result (calls self.new ≡ removed true ∷ calls self.old) }
        ensures failed { OnErr result (calls self.new ≡ removed false ∷ calls self.old) };

    /// Puts the names in the folder on the disk.
    fn sync_folder(&mut self) -> io::Result<()>
        ensures done { OnOk result (calls self.new ≡ kept true ∷ calls self.old) }
        ensures failed { OnErr result (calls self.new ≡ kept false ∷ calls self.old) };
}
