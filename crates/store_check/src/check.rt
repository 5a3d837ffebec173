//! The check itself.
ghost use Rattle.std.specs.Prelude.{◌≡◌, ◌<◌, IfOk};
ghost use Rattle.std.specs.Io.KnownBytes.{Appends};
ghost use Rattle.disk_model.specs.ReadOnly.{OnlySyncs};
ghost use Rattle.recovery.specs.Recovered.{seen_in};
ghost use Rattle.recovery.specs.Invariant.{InvariantHolds};
ghost use Rattle.store_check.specs.Reports.{ReportsStore};
ghost use Rattle.store_check.specs.StoreTexts.{refusal_lines, store_text};

use crate::store_lines::{write_refusal, write_store};
use disk_model::Disk;
use recovery::{RecoveredStore, open};
use refusals::Refusal;
use reply_lines::Status;
use std::alloc::Global;
use std::io::{self, Write};

/// Prints what an opening of the store on a disk finds, and answers the status: clean if the store is opened. The disk
/// is read and synced, and not written; it is handed back. `Err` is a failed write of the report.
///
/// A store whose hives' files lack changes of the journal is whole: the next run moves them in. A store that isn't
/// opened is reported by its refusal, as of [`open`], and what to do.
pub fn check_store<D: Disk, W: Write>(
    alloc: Global,
    disk: D,
    writer: &mut W,
) -> (D, io::Result<Status>)
    ensures reports { IfOk result.1 (λ status. ReportsStore (D.failures disk < D.failures result.0)
        (D.faithful result.0) (seen_in (D.state_at disk (D.clock disk)))
        (D.state_at result.0 (D.clock result.0))
        (W.contents writer.old) (W.contents writer.new) status) }
    ensures synced { D.faithful result.0 → OnlySyncs (D.state_at disk) (D.state_at result.0)
        (D.clock disk) (D.clock result.0) }
{
    match open(alloc, disk) {
        Ok(opened) => {
            let (disk, found) = opened.into_parts();
            let status = print_found(writer, &found);
            (disk, status)
        }
        Err((refusal, disk)) => (disk, print_refused(writer, refusal)),
    }
}

// prints what was found
fn print_found<W: Write>(writer: &mut W, found: &RecoveredStore) -> io::Result<Status>
    requires kept { InvariantHolds found.now }
    ensures { IfOk result (λ status. Appends (W.contents writer.old) (W.contents writer.new)
        (store_text found.now) × (status ≡ Status.Clean)) }
{
    let _hives = found.journal.hives(); // for the prover
    write_store(writer, found)?;
    writer.flush()?;
    Ok(Status::Clean)
}

// prints why the store isn't opened
fn print_refused<W: Write>(writer: &mut W, refusal: Refusal) -> io::Result<Status>
    ensures { IfOk result (λ status. Appends (W.contents writer.old) (W.contents writer.new)
        (refusal_lines refusal) × (status ≡ Status.Refused)) }
{
    write_refusal(writer, refusal)?;
    writer.flush()?;
    Ok(Status::Refused)
}
