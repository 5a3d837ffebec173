//! Types for the fields of a base block.

ghost use Rattle.base_block.specs.Numbers.{number_after};
ghost use Rattle.std.specs.Prelude.{◌≡◌, ◌↔◌, ◌⊎◌, IsTrue};

/// The four bytes that a hive file begins with, as a little-endian number.
#[derive(Clone, Copy, PartialEq, Eq)]
pub struct Signature(pub u32);

impl Signature {
    /// The letters `regf`, with which each hive file and log begins.
    pub const REGF: Signature = Signature(0x6667_6572);
}

/// A sequence number: how often the file was begun to be written, or written whole. After
/// 4,294,967,295 comes 0.
#[derive(Clone, Copy, PartialEq, Eq)]
pub struct SequenceNumber(pub u32);

impl SequenceNumber {
    /// The number that follows, 0 after the greatest.
    pub fn next(self) -> SequenceNumber
        ensures { result.0 ≡ number_after self.0 }
    {
        SequenceNumber(self.0.wrapping_add(1))
    }
}

/// What a file is: a primary file, or a log.
#[derive(Clone, Copy, PartialEq, Eq)]
pub struct FileType(pub u32);

impl FileType {
    /// A primary file.
    pub const PRIMARY: FileType = FileType(0);
    /// A log of dirty pages.
    pub const LOG: FileType = FileType(1);
    /// A log of dirty pages, by another number.
    pub const OTHER_LOG: FileType = FileType(2);

    /// Whether this is a log, by either number.
    pub fn is_log(self) -> bool
        ensures { IsTrue result ↔ (self.0 ≡ 1) ⊎ (self.0 ≡ 2) }
    {
        self == FileType::LOG || self == FileType::OTHER_LOG
    }
}

/// The number of the last accepted change that a hive has; 0 if it has none.
#[derive(Clone, Copy)]
pub struct AppliedNumber(pub u64);
