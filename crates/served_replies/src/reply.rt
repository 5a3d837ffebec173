//! What is told, and its text.
ghost use Rattle.std.specs.Prelude.{OnOk};
ghost use Rattle.std.specs.Io.KnownBytes.{Appends};
ghost use Rattle.served_replies.specs.ServedReplies.{clients_text, served_text, stats_text, store_text};

use crate::changes::write_change;
use reg_tree::Element;
use reply_lines::ReplyLine;
use std::io;
use std::io::Write;

/// What a session of a served store is told.
#[derive(Drop)]
pub enum ServedReply {
    /// A reply to a line that scripts have too.
    Line {
        /// The reply.
        reply: ReplyLine,
    },
    /// `saved N`: a backup was made, which opens at this number.
    Saved {
        /// The number.
        number: u64,
    },
    /// `change N MOMENT LINES UNIT`, and the lines that make it: a change is durable.
    Change {
        /// Its number.
        number: u64,
        /// The change.
        change: Element,
    },
    /// `watching N`: each change after this number is told that meets a key.
    Watching {
        /// The number.
        number: u64,
    },
    /// `changed N`: a change is durable that meets the key.
    Changed {
        /// Its number.
        number: u64,
    },
    /// `followed N`: no more is told; all changes up to this number were.
    Followed {
        /// The number.
        number: u64,
    },
    /// `E2 NotFound after N`: the changes that were asked for aren't told. Those after this number can be.
    NotFound {
        /// The number.
        after: u64,
    },
    /// `stats number N durable D room R clients C waiting W`: how full the store is, and who waits.
    Stats {
        /// The number of the last change.
        number: u64,
        /// The number of the last durable change.
        durable: u64,
        /// How many bytes of the journal's room are used.
        room: u64,
        /// How many clients have a place.
        clients: u64,
        /// How many of them wait until a change is durable.
        waiting: u64,
    },
}

impl ServedReply {
    /// Writes the text, each line with the byte that ends it. Calls name the first `named` hives. It takes no memory.
    pub fn write<W: Write>(&self, writer: &mut W, named: usize) -> io::Result<()>
        ensures { OnOk result (Appends (W.contents writer.old) (W.contents writer.new)
            (served_text named self.now)) }
    {
        match self {
            ServedReply::Line { reply } => reply.write(writer),
            ServedReply::Saved { number } => writeln!(writer, "saved {number}"),
            ServedReply::Change { number, change } => write_change(writer, named, *number, change),
            ServedReply::Watching { number } => writeln!(writer, "watching {number}"),
            ServedReply::Changed { number } => writeln!(writer, "changed {number}"),
            ServedReply::Followed { number } => writeln!(writer, "followed {number}"),
            ServedReply::NotFound { after } => writeln!(writer, "E2 NotFound after {after}"),
            ServedReply::Stats {
                number,
                durable,
                room,
                clients,
                waiting,
            } => write_stats(writer, *number, *durable, *room, *clients, *waiting),
        }
    }
}

// how full a store is, and who waits
fn write_stats<W: Write>(
    writer: &mut W,
    number: u64,
    durable: u64,
    room: u64,
    clients: u64,
    waiting: u64,
) -> io::Result<()>
    ensures { OnOk result (Appends (W.contents writer.old) (W.contents writer.new)
        (stats_text number durable room clients waiting)) }
{
    write_store(writer, number, durable, room)?;
    write_clients(writer, clients, waiting)
}

// how full a store is
fn write_store<W: Write>(writer: &mut W, number: u64, durable: u64, room: u64) -> io::Result<()>
    ensures { OnOk result (Appends (W.contents writer.old) (W.contents writer.new)
        (store_text number durable room)) }
{
    write!(writer, "stats number {number}")?;
    write!(writer, " durable {durable}")?;
    write!(writer, " room {room}")
}

// who waits
fn write_clients<W: Write>(writer: &mut W, clients: u64, waiting: u64) -> io::Result<()>
    ensures { OnOk result (Appends (W.contents writer.old) (W.contents writer.new)
        (clients_text clients waiting)) }
{
    write!(writer, " clients {clients}")?;
    writeln!(writer, " waiting {waiting}")
}
