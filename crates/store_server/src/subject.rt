//! What a session is told of durable changes.
ghost use Rattle.std.specs.Prelude.{◌≡◌, ◌↔◌, ◌+◌, ◌<◌, ◌^◌, IsTrue, List, [], OnOk, length};
ghost use Rattle.std.specs.Prelude.{Option as AnyOption};
ghost use Rattle.std.specs.Io.KnownBytes.{Appends};
ghost use Rattle.served_replies.specs.ServedReplies.{served_texts};
ghost use Rattle.served_replies.specs.declared.reply.ServedReply.{ServedReply as AnyReply};
ghost use Rattle.store_server.specs.Following.{TellsOne, TellsSubject, MeetsKey, AnyMeetsKey, before};

use reg_names::Path;
use reg_tree::{Element, Op};
use served_replies::ServedReply;
use std::io;
use std::io::Write;

/// Of which changes a session is told, and how.
#[derive(Drop)]
pub enum Subject {
    /// Of each, by the lines that make it.
    All,
    /// Of those that have an operation on a key or below it, by their numbers.
    Key {
        /// The key's hive.
        hive: u8,
        /// Its path.
        path: Path,
    },
}

impl Subject {
    /// Tells the changes after a number. Calls name the first `named` hives.
    pub fn tell<W: Write>(
        &self,
        writer: &mut W,
        named: usize,
        after: u64,
        changes: Vec<Element>,
    ) -> io::Result<()>
        requires within { after + length changes.items < 2 ^ 64 }
        ensures { OnOk result ((told : List AnyReply) × TellsSubject self.now after changes.items told
            × Appends (W.contents writer.old) (W.contents writer.new) (served_texts named told)) }
    {
        let mut number = after;
        for change in changes {
            number += 1;
            self.tell_one(writer, named, number, change)?;
        }
        Ok(())
    }

    // tells a change by its number, if it is to be told
    fn tell_one<W: Write>(
        &self,
        writer: &mut W,
        named: usize,
        number: u64,
        change: Element,
    ) -> io::Result<()>
        ensures { OnOk result ((one : AnyOption AnyReply) × TellsOne self.now number change one
            × Appends (W.contents writer.old) (W.contents writer.new) (served_texts named (before one []))) }
    {
        match self.reply(number, change) {
            Some(reply) => reply.write(writer, named),
            None => Ok(()),
        }
    }

    // what is told of a change, if anything
    fn reply(&self, number: u64, change: Element) -> Option<ServedReply>
        ensures { TellsOne self.now number change result }
    {
        match self {
            Subject::All => Some(ServedReply::Change { number, change }),
            Subject::Key { hive, path } if any_meets_key(*hive, path, change.ops.list()) => {
                Some(ServedReply::Changed { number })
            }
            Subject::Key { .. } => None,
        }
    }
}

// whether one of some operations is on a key or below it
fn any_meets_key(hive: u8, path: &Path, ops: &[Op]) -> bool
    ensures { IsTrue result ↔ AnyMeetsKey hive path.now ops.now }
{
    ops.iter().any(|op| meets_key(hive, path, op))
}

fn meets_key(hive: u8, path: &Path, op: &Op) -> bool
    ensures { IsTrue result ↔ MeetsKey hive path.now op.now }
{
    op.hive() == hive && path.begins(op.path())
}
