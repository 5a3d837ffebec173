//! The replies to the lines of a script, and their text.
ghost use Rattle.std.specs.Prelude.{OnOk};
ghost use Rattle.std.specs.Io.KnownBytes.{Appends};
ghost use Rattle.reply_lines.specs.Replies.{reply_line, names_text};

use crate::printer::{write_data, write_name};
use refusals::Refusal;
use reg_names::Name;
use reg_tree::{Data, Names};
use std::io;
use std::io::Write;

/// What a line of a script is answered.
pub enum ReplyLine {
    /// `ok`: what was asked for is done.
    Done,
    /// `created LEVELS accepted N`: LEVELS keys were made, by the change of number N.
    Created {
        /// How many keys were made.
        levels: usize,
        /// The change's number.
        number: u64,
    },
    /// `created LEVELS`: LEVELS keys were made in a transaction.
    CreatedInside {
        /// How many keys were made.
        levels: usize,
    },
    /// `opened`: the key was there.
    Opened,
    /// `accepted N`: the change of this number was accepted.
    Accepted {
        /// The change's number.
        number: u64,
    },
    /// `value TYPE HEX`: a value.
    Value {
        /// The value's type number.
        kind: u32,
        /// The value's data.
        data: Data,
    },
    /// `keys COUNT NAME..`: the names of subkeys.
    Keys {
        /// The names, in their order.
        names: Names,
    },
    /// `values COUNT NAME..`: the names of values.
    Values {
        /// The names, in their order.
        names: Names,
    },
    /// `info SUBKEYS VALUES TIME`: what a key has.
    Info {
        /// How many subkeys.
        subkeys: usize,
        /// How many values.
        values: usize,
        /// The moment of its last write.
        time: u64,
    },
    /// `committed N`: the transaction's change has this number, and is durable; 0 if there was
    /// none.
    Committed {
        /// The change's number.
        number: u64,
    },
    /// `flushed N`: every change up to this number is durable.
    Flushed {
        /// The number of the last change.
        number: u64,
    },
    /// `folded N`: the history was folded.
    Folded {
        /// The number of the last change.
        number: u64,
    },
    /// `notyet`: the history was not folded, because an accepted change is not durable yet.
    NotYet,
    /// `idle`: a step had nothing to do.
    StepIdle,
    /// `more`: a step was made, and its work isn't done by it.
    StepMore,
    /// `done`: a step was made, and its work is done by it.
    StepDone,
    /// `active`: the transaction has not ended.
    StillActive,
    /// `committed`: the transaction ended with a commit.
    HasCommitted,
    /// `rolledback`: the transaction ended without effect.
    RolledBack,
    /// `E` with its number, a blank and its name: a refusal.
    Refused {
        /// Why the line was refused.
        refusal: Refusal,
    },
}

impl Drop for ReplyLine {
    // one drop for all that own a reply, whose proofs see no more of it than this contract
    fn drop(self) {
        match self {
            ReplyLine::Value { kind: _, data: _ } => {}
            ReplyLine::Keys { names: _ } | ReplyLine::Values { names: _ } => {}
            ReplyLine::Created {
                levels: _,
                number: _,
            } => {}
            ReplyLine::CreatedInside { levels: _ } => {}
            ReplyLine::Info {
                subkeys: _,
                values: _,
                time: _,
            } => {}
            ReplyLine::Accepted { number: _ }
            | ReplyLine::Committed { number: _ }
            | ReplyLine::Flushed { number: _ }
            | ReplyLine::Folded { number: _ } => {}
            ReplyLine::Refused { refusal: _ } => {}
            ReplyLine::Done
            | ReplyLine::Opened
            | ReplyLine::NotYet
            | ReplyLine::StepIdle
            | ReplyLine::StepMore
            | ReplyLine::StepDone
            | ReplyLine::StillActive
            | ReplyLine::HasCommitted
            | ReplyLine::RolledBack => {}
        }
    }
}

impl ReplyLine {
    /// Writes the reply's text and the byte that ends its line. It takes no memory.
    pub fn write<W: Write>(&self, writer: &mut W) -> io::Result<()>
        ensures { OnOk result (Appends (W.contents writer.old) (W.contents writer.new)
            (reply_line self.now)) }
    {
        match self {
            ReplyLine::Done => writeln!(writer, "ok"),
            ReplyLine::Created { levels, number } => {
                writeln!(writer, "created {levels} accepted {number}")
            }
            ReplyLine::CreatedInside { levels } => writeln!(writer, "created {levels}"),
            ReplyLine::Opened => writeln!(writer, "opened"),
            ReplyLine::Accepted { number } => writeln!(writer, "accepted {number}"),
            ReplyLine::Value { kind, data } => write_value(writer, *kind, data),
            ReplyLine::Keys { names } => write_keys(writer, names),
            ReplyLine::Values { names } => write_values(writer, names),
            ReplyLine::Info {
                subkeys,
                values,
                time,
            } => writeln!(writer, "info {subkeys} {values} {time}"),
            ReplyLine::Committed { number } => writeln!(writer, "committed {number}"),
            ReplyLine::Flushed { number } => writeln!(writer, "flushed {number}"),
            ReplyLine::Folded { number } => writeln!(writer, "folded {number}"),
            ReplyLine::NotYet => writeln!(writer, "notyet"),
            ReplyLine::StepIdle => writeln!(writer, "idle"),
            ReplyLine::StepMore => writeln!(writer, "more"),
            ReplyLine::StepDone => writeln!(writer, "done"),
            ReplyLine::StillActive => writeln!(writer, "active"),
            ReplyLine::HasCommitted => writeln!(writer, "committed"),
            ReplyLine::RolledBack => writeln!(writer, "rolledback"),
            ReplyLine::Refused { refusal } => writeln!(writer, "{refusal}"),
        }
    }
}

fn write_value<W: Write>(writer: &mut W, kind: u32, data: &Data) -> io::Result<()>
    ensures { OnOk result (Appends (W.contents writer.old) (W.contents writer.new)
        (reply_line (ReplyLine.Value kind «data».now))) }
{
    write!(writer, "value {kind} ")?;
    write_data(writer, data.bytes())?;
    writer.write_all(b"\n")
}

fn write_keys<W: Write>(writer: &mut W, names: &Names) -> io::Result<()>
    ensures { OnOk result (Appends (W.contents writer.old) (W.contents writer.new)
        (reply_line (ReplyLine.Keys names.now))) }
{
    write!(writer, "keys {}", names.list().len())?;
    write_names(writer, names.list())?;
    writer.write_all(b"\n")
}

fn write_values<W: Write>(writer: &mut W, names: &Names) -> io::Result<()>
    ensures { OnOk result (Appends (W.contents writer.old) (W.contents writer.new)
        (reply_line (ReplyLine.Values names.now))) }
{
    write!(writer, "values {}", names.list().len())?;
    write_names(writer, names.list())?;
    writer.write_all(b"\n")
}

// each name after a blank
fn write_names<W: Write>(writer: &mut W, names: &[Name]) -> io::Result<()>
    ensures { OnOk result (Appends (W.contents writer.old) (W.contents writer.new)
        (names_text names.now)) }
{
    for name in names {
        writer.write_all(b" ")?;
        write_name(writer, name.units())?;
    }
    Ok(())
}
