//! What is told of the changes.
ghost use Rattle.std.specs.Prelude.{◌≡◌, ◌+◌, ◌<◌, ◌≤◌, length, take, IfOk, OnOk, []};
ghost use Rattle.std.specs.Io.KnownBytes.{Appends};
ghost use Rattle.disk_model.specs.ReadOnly.{OnlySyncs};
ghost use Rattle.commit_journal.specs.Numbered.{numbered};
ghost use Rattle.recovery.specs.Recovered.{seen_in};
ghost use Rattle.served_replies.specs.ServedReplies.{served_text, served_texts};
ghost use Rattle.served_replies.specs.declared.reply.ServedReply.{ServedReply as AnyReply};
ghost use Rattle.store_changes.specs.Followed.{told_changes};
ghost use Rattle.store_changes.specs.Reports.{FollowsStore, PrintsChanges};

use crate::held_changes::{HeldChanges, held_changes};
use change_codec::EncodedChange;
use disk_model::Disk;
use refusals::Refusal;
use reply_lines::{ReplyLine, Status};
use served_replies::ServedReply;
use std::alloc::Global;
use std::io::{self, Write};

/// Tells the changes after a number that the journal of the store on a disk holds, in order and each once, and then
/// `followed` with the store's number. The disk is read and synced, and not written; it is handed back.
///
/// Refused alone, by a line:
///
/// - with `E2 NotFound after M` exactly if the number is above the store's, which M is then; or if it is below M, the
///   number before the first change that the journal holds, or the store's own if it holds none;
/// - as an opening is of which the store is refused.
///
/// `E1 NoMemory` may come after some of the changes. `Err` is a failed write.
pub fn follow_store<D: Disk, W: Write>(
    alloc: Global,
    disk: D,
    after: u64,
    writer: &mut W,
) -> (D, io::Result<Status>)
    ensures tells { IfOk result.1 (FollowsStore (D.failures disk < D.failures result.0)
        (D.faithful result.0) (seen_in (D.state_at disk (D.clock disk))) after
        (W.contents writer.old) (W.contents writer.new)) }
    ensures synced { D.faithful result.0 → OnlySyncs (D.state_at disk) (D.state_at result.0)
        (D.clock disk) (D.clock result.0) }
{
    match held_changes(alloc, disk) {
        Ok((disk, held)) => {
            let told = tell_after(alloc, writer, &held, after);
            (disk, told)
        }
        Err((refusal, disk)) => {
            let told = tell_last(writer, 0, &refused(refusal), Status::Refused);
            (disk, told)
        }
    }
}

// tells the changes after a number, or why they aren't told
fn tell_after<W: Write>(
    alloc: Global,
    writer: &mut W,
    held: &HeldChanges,
    after: u64,
) -> io::Result<Status>
    ensures { IfOk result (PrintsChanges held.now.named held.now.base held.now.changes.items after
        (W.contents writer.old) (W.contents writer.new)) }
{
    let named = usize::from(held.named);
    if after < held.base {
        let last = ServedReply::NotFound { after: held.base };
        return tell_last(writer, named, &last, Status::Refused);
    }
    if after > held.number {
        let last = ServedReply::NotFound { after: held.number };
        return tell_last(writer, named, &last, Status::Refused);
    }
    let rest = &held.changes[(after - held.base) as usize..];
    let told = tell_changes(alloc, writer, named, after, rest)?;
    if told < rest.len() {
        return tell_last(writer, named, &refused(Refusal::NoMemory), Status::Refused);
    }
    let last = ServedReply::Followed {
        number: held.number,
    };
    tell_last(writer, named, &last, Status::Clean)
}

// tells changes, the first of which has the number after this one, and answers how many: all, unless memory is wanting
fn tell_changes<W: Write>(
    alloc: Global,
    writer: &mut W,
    named: usize,
    after: u64,
    changes: &[EncodedChange],
) -> io::Result<usize>
    requires within { after + length changes.now ≤ u64.MAX }
    ensures { IfOk result (λ count. (count ≤ length changes.now)
        × Appends (W.contents writer.old) (W.contents writer.new)
        (served_texts named (told_changes (take count (numbered after changes.now))))) }
{
    for (count, change) in changes.iter().enumerate() {
        let Ok(change) = change.read(alloc) else {
            return Ok(count);
        };
        let number = after + count as u64 + 1;
        ServedReply::Change { number, change }.write(writer, named)?;
    }
    Ok(changes.len())
}

// tells what is told at last
fn tell_last<W: Write>(
    writer: &mut W,
    named: usize,
    last: &ServedReply,
    status: Status,
) -> io::Result<Status>
    ensures { IfOk result (λ its. Appends (W.contents writer.old) (W.contents writer.new)
        (served_text named last.now) × (its ≡ status)) }
{
    last.write(writer, named)?;
    writer.flush()?;
    Ok(status)
}

// a refusal as it is told
fn refused(refusal: Refusal) -> ServedReply
    ensures { result ≡ AnyReply.Line (ReplyLine.Refused refusal) }
{
    ServedReply::Line {
        reply: ReplyLine::Refused { refusal },
    }
}
