//! Making a store with outcomes of a store without them.
ghost use Rattle.std.specs.Prelude.{◌≡◌, ◌+◌, ◌<◌, ℕ, List, IfErr, IfOk, MatchResult, OnOk, Result};
ghost use Rattle.refusals.specs.declared.limits.TheConstants.{MOST_HIVES};
ghost use Rattle.refusals.specs.declared.refusal.Refusal.{Refusal};
ghost use Rattle.reg_tree.specs.Maps.{TreeMap};
ghost use Rattle.commit_journal.specs.declared.store_layout.Layout.TheVariants.{HivesAlone};
ghost use Rattle.hive_files.specs.Frames.{RefusalHasCause, TouchesOwnFiles};
ghost use Rattle.recovery.specs.Created.{IsOfStore};
ghost use Rattle.recovery.specs.Recovered.{IsRecovered, seen_in};
ghost use Rattle.recovery.specs.Shown.{StoreIsRepaired, store_of};
ghost use Rattle.store_create.specs.Creations.{IsNotMade, OutcomeIsWritten};
ghost use Rattle.store_create.specs.Upgrades.{AreNotUpgraded, IsUpgraded, UpgradeKeepsStore};

use crate::creation::write_outcome;
use commit_journal::Layout;
use disk_model::Disk;
use recovery::{Opened, create, open};
use refusals::Refusal;
use reply_lines::Status;
use std::alloc::Global;
use std::io;
use std::io::Write;
use store_driver::repaired;

/// Makes a store with outcomes on a target disk, of the store without them that is on a source disk: with its id and
/// its trees, at number 0. Writes whether it is made: `ok`, or the refusal's line. Answers the source disk and the
/// status. If the power went while a hive of the source was being written, the source is repaired. What the target's
/// files contained before is lost.
///
/// The text reports the refusal of the source's files as [`open`] does, if they recover nothing; `Unsupported`, if their
/// store has outcomes; `TooLarge`, if a tree is over the weight; or `NoMemory`; or `DiskFault`, if the source's device
/// failed. Nothing has changed on the target then. It also reports `DiskFault` if the target's device failed: nothing is
/// promised of the target's files then. `Err` says that a write to the writer failed; the same holds of the disks then.
///
/// The source keeps its store, whatever is reported: each file is as it was or synced, or whatever a crash leaves of
/// them recovers the same number and trees.
pub fn upgrade<O: Disk, N: Disk, W: Write>(
    alloc: Global,
    source: O,
    target: &mut N,
    writer: &mut W,
) -> (O, io::Result<Status>)
    ensures made { (outcome : Result (List TreeMap) Refusal)
        × IfOk result.1 (OutcomeIsWritten (W.contents writer.old) (W.contents writer.new) outcome)
        × MatchResult outcome
        (IsUpgraded (O.faithful result.0) (O.state_at source (O.clock source))
        (O.state_at result.0 (O.clock result.0)) (N.faithful target.new)
        (N.state_at target.new (N.clock target.new)))
        (IsNotMade (N.failures target.old < N.failures target.new) (target.new ≡ target.old)
        (RefusalHasCause (O.failures source < O.failures result.0)
        (AreNotUpgraded (O.faithful result.0) (seen_in (O.state_at source (O.clock source)))))) }
    ensures kept { O.faithful result.0 → UpgradeKeepsStore (O.state_at source (O.clock source))
        (O.state_at result.0 (O.clock result.0)) }
    ensures stays { TouchesOwnFiles (IsOfStore (MOST_HIVES + 1)) (N.state_at target.old)
        (N.state_at target.new) (N.clock target.old) (N.clock target.new) }
    ensures source_faithful { O.faithful result.0 → O.faithful source }
    ensures faithful { N.faithful target.new → N.faithful target.old }
{
    let (source, made) = make_upgraded(alloc, source, target);
    let status = write_outcome(writer, made);
    (source, status)
}

// makes the store, and hands the source back
fn make_upgraded<O: Disk, N: Disk>(
    alloc: Global,
    source: O,
    target: &mut N,
) -> (O, Result<(), Refusal>)
    ensures made { OnOk result.1 ((trees : List TreeMap) × IsUpgraded (O.faithful result.0)
        (O.state_at source (O.clock source)) (O.state_at result.0 (O.clock result.0))
        (N.faithful target.new) (N.state_at target.new (N.clock target.new)) trees) }
    ensures refused { IfErr result.1
        (IsNotMade (N.failures target.old < N.failures target.new) (target.new ≡ target.old)
        (RefusalHasCause (O.failures source < O.failures result.0)
        (AreNotUpgraded (O.faithful result.0) (seen_in (O.state_at source (O.clock source)))))) }
    ensures kept { O.faithful result.0 → UpgradeKeepsStore (O.state_at source (O.clock source))
        (O.state_at result.0 (O.clock result.0)) }
    ensures stays { TouchesOwnFiles (IsOfStore (MOST_HIVES + 1)) (N.state_at target.old)
        (N.state_at target.new) (N.clock target.old) (N.clock target.new) }
    ensures source_faithful { O.faithful result.0 → O.faithful source }
    ensures faithful { N.faithful target.new → N.faithful target.old }
{
    match open_alone(alloc, source) {
        Ok(opened) => {
            opened.keeps_what_was_found(); // for the prover
            let (source, found) = opened.into_parts();
            let made = create(alloc, target, found.journal.id(), &found.trees);
            (source, made)
        }
        Err((why, source)) => (source, Err(why)),
    }
}

// the store that is on a disk, of which no repair is left; it has no outcomes
fn open_alone<D: Disk>(alloc: Global, disk: D) -> Result<Opened<D>, (Refusal, D)>
    ensures alone { IfOk result (λ opened. (store_of opened).layout ≡ HivesAlone) }
    ensures whole { IfOk result StoreIsRepaired }
    ensures recovered { IfOk result (λ opened. D.faithful opened.disk →
        IsRecovered (seen_in (D.state_at disk (D.clock disk)))
        (store_of opened) opened.found.number opened.found.trees) }
    ensures faithful { IfOk result (λ opened. D.faithful opened.disk → D.faithful disk) }
    ensures err { IfErr result (λ back. RefusalHasCause (D.failures disk < D.failures back.1)
        (AreNotUpgraded (D.faithful back.1) (seen_in (D.state_at disk (D.clock disk)))) back.0) }
    ensures kept { IfErr result (λ back. D.faithful back.1 →
        UpgradeKeepsStore (D.state_at disk (D.clock disk)) (D.state_at back.1 (D.clock back.1))) }
    ensures back { IfErr result (λ back. D.faithful back.1 → D.faithful disk) }
{
    let opened = open(alloc, disk)?;
    match opened.layout() {
        Layout::HivesAlone => repaired(opened),
        Layout::WithOutcomes => Err((Refusal::Unsupported, opened.into_disk())),
    }
}
