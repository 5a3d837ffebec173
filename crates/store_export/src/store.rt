//! The export of a store.
ghost use Rattle.std.specs.Prelude.{◌<◌, IfOk, take};
ghost use Rattle.disk_model.specs.ReadOnly.{OnlySyncs};
ghost use Rattle.recovery.specs.Recovered.{seen_in};
ghost use Rattle.recovery.specs.Shown.{store_of};
ghost use Rattle.store_export.specs.Reports.{ReportsExport, ReportsOrNot};

use crate::report::{ExportError, reported};
use crate::request::ExportRequest;
use crate::trees::print_trees;
use disk_model::Disk;
use recovery::{Opened, open};
use refusals::Refusal;
use reply_lines::Status;
use std::alloc::Global;
use std::io::Write;

/// Prints the trees that an opening of the store on a disk finds, of the hives that calls name, or a key of one of them
/// with all below it. The disk is read and synced, and not written; it is handed back.
///
/// Refused, in a line that alone is printed, as an opening is; with `NotFound` if the key isn't there; and with
/// `BadName` if a registration file can't show a name.
pub fn export_store<D: Disk, W: Write>(
    alloc: Global,
    disk: D,
    request: &ExportRequest<'_>,
    writer: &mut W,
) -> (D, Result<Status, ExportError>)
    ensures reports { IfOk result.1 (λ status. ReportsExport (D.failures disk < D.failures result.0)
        (D.faithful result.0) (seen_in (D.state_at disk (D.clock disk))) request.now
        (W.contents writer.old) (W.contents writer.new) status) }
    ensures synced { D.faithful result.0 → OnlySyncs (D.state_at disk) (D.state_at result.0)
        (D.clock disk) (D.clock result.0) }
{
    match open(alloc, disk) {
        Ok(opened) => {
            let status = print_named(alloc, writer, &opened, request);
            (opened.into_disk(), status)
        }
        Err((refusal, disk)) => (disk, reported(writer, Err(ExportError::Refused(refusal)))),
    }
}

// prints the trees of the hives that calls name
fn print_named<D: Disk, W: Write>(
    alloc: Global,
    writer: &mut W,
    opened: &Opened<D>,
    request: &ExportRequest<'_>,
) -> Result<Status, ExportError>
    ensures { IfOk result (ReportsOrNot request.now
        (take (store_of opened.now).hives opened.now.found.trees)
        (W.contents writer.old) (W.contents writer.new)) }
{
    match opened.named_trees(alloc) {
        Ok(trees) => {
            let printed = print_trees(alloc, writer, &trees, request);
            reported(writer, printed)
        }
        Err(_) => reported(writer, Err(ExportError::Refused(Refusal::NoMemory))),
    }
}
