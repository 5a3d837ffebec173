//! The trial of a file: which of its lines a store would refuse.
ghost use Rattle.std.specs.Prelude.{◌≡◌, ◌<◌, ◌++◌, List, Option, None, IfOk, OnOk, take};
ghost use Rattle.std.specs.List.{flat_map, list_any};
ghost use Rattle.std.specs.Io.KnownBytes.{Appends};
ghost use Rattle.disk_model.specs.ReadOnly.{OnlySyncs};
ghost use Rattle.recovery.specs.Recovered.{seen_in};
ghost use Rattle.recovery.specs.Shown.{store_of};
ghost use Rattle.reg_apply.specs.declared.place.Place.{Place as AnyPlace};
ghost use Rattle.reg_apply.specs.declared.outcome.ApplyOutcome.{ApplyOutcome as AnyOutcome};
ghost use Rattle.reg_apply.specs.Checks.{ChecksFile, ChecksOrNot, PrintsCheck, ReportsCheck, TellsDenial, TriesStatement, TriesStatements, check_status, is_refusal};
ghost use Rattle.reg_apply.specs.Outcomes.{outcome_line};

use crate::outcome::ApplyOutcome;
use crate::place::{Denial, Place};
use crate::statements::{Stop, take};
use change_plan::Plan;
use disk_model::Disk;
use recovery::{Opened, open};
use refusals::Refusal;
use reg_file::{NumberedStatement, RegFile, Statement};
use reg_prefixes::Prefixes;
use reply_lines::Status;
use std::alloc::{AllocError, Global};
use std::io::{self, Write};
use store_change::bytes_aside_in;

/// Tries all statements of a file on the trees that an opening of the store finds, each on those before it that were
/// taken, and writes a line for each that is refused, as [`apply`](crate::apply) tells it; then one for the file's fault,
/// if it has one. If nothing is told, it writes `ok`.
///
/// After a key that is refused no key is current. The disk is read and synced, and not written; it is handed back.
pub fn check<D: Disk, W: Write>(
    alloc: Global,
    disk: D,
    prefixes: &Prefixes,
    file: RegFile,
    writer: &mut W,
) -> (D, io::Result<Status>)
    ensures reports { IfOk result.1 (ReportsCheck (D.failures disk < D.failures result.0)
        (D.faithful result.0) (seen_in (D.state_at disk (D.clock disk))) prefixes.now file
        (W.contents writer.old) (W.contents writer.new)) }
    ensures synced { D.faithful result.0 → OnlySyncs (D.state_at disk) (D.state_at result.0)
        (D.clock disk) (D.clock result.0) }
{
    match open(alloc, disk) {
        Ok(opened) => {
            let status = check_opened(alloc, &opened, prefixes, file, writer);
            (opened.into_disk(), status)
        }
        Err((refusal, disk)) => (disk, ApplyOutcome::Refused { refusal }.print(writer)),
    }
}

// the same of an opened store
fn check_opened<D: Disk, W: Write>(
    alloc: Global,
    opened: &Opened<D>,
    prefixes: &Prefixes,
    file: RegFile,
    writer: &mut W,
) -> io::Result<Status>
    ensures { IfOk result (ChecksOrNot prefixes.now
        (take (store_of opened.now).hives opened.now.found.trees) opened.now.found.trees file
        (W.contents writer.old) (W.contents writer.new)) }
{
    match told_of(alloc, opened, prefixes, file) {
        Ok(told) => print_told(&told, writer),
        Err(_) => {
            let refusal = Refusal::NoMemory;
            ApplyOutcome::Refused { refusal }.print(writer)
        }
    }
}

// what is told of a file
fn told_of<D: Disk>(
    alloc: Global,
    opened: &Opened<D>,
    prefixes: &Prefixes,
    file: RegFile,
) -> Result<Vec<ApplyOutcome>, AllocError>
    ensures { IfOk result (λ told. ChecksFile prefixes.now
        (take (store_of opened.now).hives opened.now.found.trees) opened.now.found.trees file
        told.items) }
{
    let named = opened.named_trees(alloc)?;
    let hives = named.len();
    let aside = bytes_aside_in(hives, opened.trees().len());
    let mut plan = Plan::new(alloc, named, 0, aside);
    let RegFile { statements, fault } = file;
    let mut told = try_all(alloc, prefixes, hives, &mut plan, statements.into_vec())?;
    if let Some(fault) = fault {
        told.push(ApplyOutcome::BadFile { fault })?;
    }
    Ok(told)
}

// what is told of statements
fn try_all(
    alloc: Global,
    prefixes: &Prefixes,
    hives: usize,
    plan: &mut Plan,
    statements: Vec<NumberedStatement>,
) -> Result<Vec<ApplyOutcome>, AllocError>
    ensures { IfOk result (λ told. (last : Option AnyPlace) × TriesStatements prefixes.now hives None
        plan.old statements.items last told.items plan.new) }
{
    let mut told = Vec::new(alloc);
    let mut current = None;
    for numbered in statements {
        let line = numbered.line;
        let (next, denial) = try_one(alloc, prefixes, hives, plan, current, numbered.statement);
        current = next;
        tell(&mut told, line, denial)?;
    }
    Ok(told)
}

// tells why the statement on a line isn't taken, if it isn't
fn tell(told: &mut Vec<ApplyOutcome>, line: u64, denial: Option<Denial>) -> Result<(), AllocError>
    ensures { OnOk result ((one : List AnyOutcome) × TellsDenial line denial one
        × (told.new.items ≡ told.old.items ++ one)) }
{
    match denial {
        Some(denial) => Ok(told.push(Stop { line, denial }.outcome())?),
        None => Ok(()),
    }
}

// tries a statement: the key that is current after it, and why it isn't taken, if it isn't
fn try_one(
    alloc: Global,
    prefixes: &Prefixes,
    hives: usize,
    plan: &mut Plan,
    current: Option<Place>,
    statement: Statement,
) -> (Option<Place>, Option<Denial>)
    ensures { TriesStatement prefixes.now hives current plan.old statement result.0 result.1 plan.new }
{
    let names_key = matches!(
        &statement,
        Statement::CreateKey { .. } | Statement::DeleteKey { .. }
    );
    match take(alloc, prefixes, hives, plan, current.as_ref(), statement) {
        Ok(next) => (next, None),
        Err(denial) if names_key => (None, Some(denial)),
        Err(denial) => (current, Some(denial)),
    }
}

// writes what is told
fn print_told<W: Write>(told: &[ApplyOutcome], writer: &mut W) -> io::Result<Status>
    ensures { IfOk result (PrintsCheck (W.contents writer.old) (W.contents writer.new) told.now) }
{
    if told.is_empty() {
        writer.write_all(b"ok\n")?;
        writer.flush()?;
        return Ok(Status::Clean);
    }
    write_lines(told, writer)?;
    writer.flush()?;
    Ok(status_of(told))
}

// writes a line for each that is told
fn write_lines<W: Write>(told: &[ApplyOutcome], writer: &mut W) -> io::Result<()>
    ensures { OnOk result (Appends (W.contents writer.old) (W.contents writer.new)
        (flat_map outcome_line told.now)) }
{
    for outcome in told {
        outcome.write_line(writer)?;
    }
    Ok(())
}

// the status of what is told
fn status_of(told: &[ApplyOutcome]) -> Status
    ensures { result ≡ check_status told.now }
{
    if told.is_empty() {
        Status::Clean
    } else if has_refusal(told) {
        Status::Refused
    } else {
        Status::Wrong
    }
}

// whether a refusal is told
fn has_refusal(told: &[ApplyOutcome]) -> bool
    ensures { result ≡ list_any is_refusal told.now }
{
    told.iter().any(|outcome| outcome.is_refusal())
}
