//! How the program ends.
use reply_lines::Status;

/// The status that says that a unit of work isn't kept.
const NOT_KEPT: u8 = 3;

/// The status that says that a file was made which is no whole hive.
const NOT_WHOLE: u8 = 3;

/// The status that says that something of a damaged hive was left out.
const LEFT_OUT: u8 = 3;

/// How the program ends.
#[derive(Clone, Copy, Debug, PartialEq, Eq)]
pub enum Ending {
    /// As the replies say that were printed.
    Replied(Status),
    /// `kept` has found no commit of the unit of work.
    NotKept,
    /// `recover-damaged` has made a file that is no whole hive.
    NotWhole,
    /// `salvage` has printed a hive, and told what isn't printed of it.
    LeftOut,
}

impl Ending {
    /// The number with which the program ends.
    pub fn code(self) -> u8 {
        match self {
            Ending::Replied(status) => status.code(),
            Ending::NotKept => NOT_KEPT,
            Ending::NotWhole => NOT_WHOLE,
            Ending::LeftOut => LEFT_OUT,
        }
    }
}
