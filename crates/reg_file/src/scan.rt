//! What a line comes to.

use crate::statement::Statement;
use crate::text::{Utf16Text, ValueData};

/// A statement that goes on on the next line.
#[derive(Drop)]
pub(crate) enum Pending {
    /// A text whose closing quote hasn't come.
    Text {
        /// The value's name.
        name: Utf16Text,
        /// The text so far, with the line feed.
        text: Utf16Text,
    },
    /// A list of bytes.
    List {
        /// The value's name.
        name: Utf16Text,
        /// The type's number.
        kind: u32,
        /// The bytes so far.
        bytes: ValueData,
    },
    /// A list with something in it that is no byte: its lines are still taken.
    WrongList,
}

/// What a line comes to.
#[derive(Drop)]
pub(crate) enum Scan {
    /// It is empty, or a remark.
    Nothing,
    /// A statement ends with it.
    Complete {
        /// The statement.
        statement: Statement,
    },
    /// Its statement goes on.
    GoesOn {
        /// What there is of it.
        pending: Pending,
    },
    /// It is none of these.
    NotUnderstood,
}
