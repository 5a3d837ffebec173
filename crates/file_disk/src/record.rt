//! What a disk over files was asked and what it answered. Only contracts read it, and it takes no memory.
ghost use Rattle.std.specs.Prelude.{◌≡◌, ◌∷◌};
ghost use Rattle.file_disk.specs.Records.{bytes_in};

use std::snapshot::Snapshot;

/// Bytes that went over in a call.
#[derive(Drop)]
pub(crate) enum Bytes {
    None,
    /// Bytes, and one after them.
    Then(Snapshot<Bytes>, u8),
}

/// A call of the device and its answer.
#[derive(Drop)]
pub(crate) enum Call {
    /// The length of a file was reported.
    Measured {
        file: u32,
        length: u64,
    },
    /// A file was read from an offset on into a buffer. The buffer's bytes before and after the call are kept, and how
    /// many bytes came.
    Read {
        file: u32,
        offset: u64,
        before: Snapshot<Bytes>,
        after: Snapshot<Bytes>,
        count: usize,
    },
    /// Bytes were written at an offset of a file, or a part of them if the call failed.
    Written {
        file: u32,
        offset: u64,
        bytes: Snapshot<Bytes>,
        failed: bool,
    },
    /// A file was made this long, or may have been if the call failed.
    Cut {
        file: u32,
        length: u64,
        failed: bool,
    },
    /// A file was synced.
    Synced {
        file: u32,
    },
    /// A call that changes nothing failed.
    Denied,
}

/// The calls of a disk.
#[derive(Drop)]
pub(crate) enum Record {
    Begun,
    /// Calls, and one after them.
    Then(Snapshot<Record>, Call),
}

impl Record {
    ghost use Rattle.file_disk.specs.Records.{calls_in};

    /// One call more.
    pub fn note(&mut self, call: Call)
        ensures { calls_in self.new ≡ call ∷ calls_in self.old }
    {
        *self = Record::Then(Snapshot::of(self), call);
    }
}

/// The bytes as a record keeps them.
pub(crate) fn noted(bytes: &[u8]) -> Snapshot<Bytes>
    ensures { bytes_in result.value ≡ bytes.now }
{
    let mut kept = Bytes::None;
    for byte in bytes {
        kept = Bytes::Then(Snapshot::of(&kept), *byte);
    }
    Snapshot::of(&kept)
}
