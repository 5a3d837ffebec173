//! What the system was asked as a file was made, and whether it did it. Only contracts read it, and it takes no memory.
ghost use Rattle.std.specs.Prelude.{◌≡◌, ◌∷◌};
ghost use Rattle.new_file.specs.Records.{bytes_in};

use std::snapshot::Snapshot;

/// Bytes that went over in a call.
#[derive(Drop)]
pub(crate) enum Bytes {
    None,
    /// Bytes, and one after them.
    Then(Snapshot<Bytes>, u8),
}

/// What was asked.
#[derive(Drop)]
pub(crate) enum Asked {
    Look,
    Create,
    Write(Snapshot<Bytes>),
    Sync,
    Link,
    Rename,
    RemovePart,
    SyncFolder,
}

/// The calls, each with whether it was done, and of a look whether something was there.
#[derive(Drop)]
pub(crate) enum Record {
    Begun,
    /// Calls, and one after them.
    Then(Snapshot<Record>, Asked, bool),
}

impl Record {
    ghost use Rattle.new_file.specs.Records.{calls_in, call_of};

    /// One call more.
    pub fn note(&mut self, asked: Asked, done: bool)
        ensures { calls_in self.new ≡ call_of asked done ∷ calls_in self.old }
    {
        *self = Record::Then(Snapshot::of(self), asked, done);
    }
}

/// The bytes as a record keeps them.
pub(crate) fn noted(bytes: &[u8]) -> Snapshot<Bytes>
    ensures { bytes_in result.value ≡ bytes.now }
{
    let mut kept = Bytes::None;
    for byte in bytes {
        kept = Bytes::Then(Snapshot::of(&kept), *byte);
    }
    Snapshot::of(&kept)
}
