//! Making a store of trees, and reporting whether it is made.
ghost use Rattle.std.specs.Prelude.{◌≡◌, ◌+◌, ◌<◌, ◌≤◌, List, replicate, IfOk, IfErr, OnOk, MatchResult, Ok, Err, Result};
ghost use Rattle.refusals.specs.declared.limits.TheConstants.{MOST_HIVES};
ghost use Rattle.refusals.specs.declared.refusal.Refusal.{Refusal};
ghost use Rattle.refusals.specs.declared.refusal.Refusal.TheVariants.{NoMemory};
ghost use Rattle.reg_tree.specs.Fresh.{fresh_tree};
ghost use Rattle.reg_tree.specs.Maps.{TreeMap};
ghost use Rattle.hive_files.specs.Frames.{TouchesOwnFiles};
ghost use Rattle.recovery.specs.Created.{IsOfStore};
ghost use Rattle.store_create.specs.Creations.{IsNewStore, IsNotMade, OutcomeIsWritten};

use disk_model::Disk;
use recovery::create;
use refusals::Refusal;
use reg_tree::Trees;
use reply_lines::{ReplyLine, Status};
use std::alloc::Global;
use std::io;
use std::io::Write;
use uuid::Uuid;

/// Makes a store of `hives` empty hives, 1 to 16, under an id, and writes whether it is made: `ok`, or the refusal's
/// line. Answers the status. Each hive has a root without a name, values and subkeys. So has one hive more, which the
/// store has for the outcomes of commits. What the store's files contained before is lost.
///
/// The text reports `NoMemory`: nothing has changed on the disk then. It reports `DiskFault` if the device failed:
/// nothing is promised of the store's files then. `Err` says that a write to the writer failed; the same holds of the
/// disk then.
pub fn make_new<D: Disk, W: Write>(
    alloc: Global,
    disk: &mut D,
    id: Uuid,
    hives: usize,
    writer: &mut W,
) -> io::Result<Status>
    requires some { 1 ≤ hives }
    requires few { hives ≤ MOST_HIVES }
    ensures made { (outcome : Result (List TreeMap) Refusal)
        × IfOk result (OutcomeIsWritten (W.contents writer.old) (W.contents writer.new) outcome)
        × MatchResult outcome
        (λ trees. (trees ≡ replicate hives fresh_tree) × (D.faithful disk.new →
        IsNewStore id trees (D.state_at disk.new (D.clock disk.new))))
        (IsNotMade (D.failures disk.old < D.failures disk.new) (disk.new ≡ disk.old)
        (λ why. why ≡ NoMemory)) }
    ensures stays { TouchesOwnFiles (IsOfStore (hives + 1)) (D.state_at disk.old) (D.state_at disk.new)
        (D.clock disk.old) (D.clock disk.new) }
    ensures faithful { D.faithful disk.new → D.faithful disk.old }
{
    let made = make_fresh(alloc, disk, id, hives);
    write_outcome(writer, made)
}

// makes a store of `hives` empty hives
fn make_fresh<D: Disk>(alloc: Global, disk: &mut D, id: Uuid, hives: usize) -> Result<(), Refusal>
    requires some { 1 ≤ hives }
    requires few { hives ≤ MOST_HIVES }
    ensures made { OnOk result (D.faithful disk.new →
        IsNewStore id (replicate hives fresh_tree) (D.state_at disk.new (D.clock disk.new))) }
    ensures refused { IfErr result (IsNotMade (D.failures disk.old < D.failures disk.new)
        (disk.new ≡ disk.old) (λ why. why ≡ NoMemory)) }
    ensures stays { TouchesOwnFiles (IsOfStore (hives + 1)) (D.state_at disk.old) (D.state_at disk.new)
        (D.clock disk.old) (D.clock disk.new) }
    ensures faithful { D.faithful disk.new → D.faithful disk.old }
{
    let trees = Trees::new(alloc, hives)?;
    create(alloc, disk, id, &trees)
}

/// Writes whether a store was made, and answers the status. The line is written out at once. It takes no memory.
pub(crate) fn write_outcome<W: Write>(
    writer: &mut W,
    made: Result<(), Refusal>,
) -> io::Result<Status>
    ensures outcome { IfOk result (λ status. MatchResult made
        (λ _. (trees : List TreeMap) →
        OutcomeIsWritten (W.contents writer.old) (W.contents writer.new) (Ok trees) status)
        (λ why. OutcomeIsWritten (W.contents writer.old) (W.contents writer.new) (Err why) status)) }
{
    let (reply, status) = match made {
        Ok(()) => (ReplyLine::Done, Status::Clean),
        Err(refusal) => (ReplyLine::Refused { refusal }, Status::Refused),
    };
    reply.write(writer)?;
    writer.flush()?;
    Ok(status)
}
