//! The application from the opening of the store to its end.
ghost use Rattle.std.specs.Prelude.{◌≡◌, ◌<◌, true};
ghost use Rattle.recovery.specs.Recovered.{seen_in};
ghost use Rattle.store_model.specs.Machine.{is_open};
ghost use Rattle.store_driver.specs.Later.{IsLater};
ghost use Rattle.reg_apply.specs.declared.request.UnitOfWork.TheVariants.{Once};
ghost use Rattle.reg_apply.specs.Applied.{EndsApplication, EndsFor, EndsOnce, ReportsApplication, report_status, unit_of};

use crate::outcome::ApplyOutcome;
use crate::request::{ApplyRequest, UnitOfWork};
use crate::statements::take_all;
use change_plan::Plan;
use disk_model::Disk;
use engine::Engine;
use refusals::Refusal;
use reg_file::RegFile;
use reply_lines::Status;
use std::alloc::Global;
use std::io::{self, Write};
use store_change::{ChangeReport, StoreChange, bytes_aside, commit, make_change};
use store_driver::ask;
use store_model::{Event, Reply};
use uuid::Uuid;

/// Opens the store on a disk, applies a file to it as one transaction, and writes one line: how it ended. If the file
/// was applied, the changes that a hive lacks go into the hive; what is refused of that is written in a line more.
///
/// For [`UnitOfWork::Once`] nothing is changed if the store keeps a commit of this unit: its number is told. A store that keeps
/// no outcomes of commits refuses it with `Unsupported`.
///
/// The disk is handed back. After a power cut at any moment an opening finds all that the file asks for, or nothing of
/// it.
pub fn apply<D: Disk, W: Write>(
    alloc: Global,
    disk: D,
    request: &ApplyRequest<'_>,
    file: RegFile,
    writer: &mut W,
) -> (D, io::Result<Status>)
    ensures { ReportsApplication D.faithful (seen_in (D.state_at disk (D.clock disk)))
        (D.state_at disk (D.clock disk)) request.now.prefixes.now request.now.moment request.now.unit file
        (W.contents writer.old) (W.contents writer.new) result.1 (D.failures disk < D.failures result.0)
        (D.faithful result.0) (D.state_at result.0) (D.clock result.0) }
{
    let (disk, report) = make_change(alloc, disk, Application { request, file }, writer);
    match report {
        Ok(report) => (disk, Ok(report_status(&report))),
        Err(error) => (disk, Err(error)),
    }
}

// the status of an application, with what is refused of the steps after it, if anything is
fn report_status(report: &ChangeReport<ApplyOutcome>) -> Status
    ensures { result ≡ report_status report.now.outcome report.now.refused_step }
{
    match report.refused_step {
        Some(_) => Status::Refused,
        None => report.outcome.status(),
    }
}

// the application of a file, as a change of a store
#[derive(Drop)]
struct Application<'a> {
    request: &'a ApplyRequest<'a>,
    file: RegFile,
}

impl StoreChange for Application<'_> {
    ghost use Rattle.std.specs.Prelude.{◌≡◌, OnOk};
    ghost use Rattle.std.specs.Io.KnownBytes.{Appends};
    ghost use Rattle.reg_apply.specs.declared.outcome.ApplyOutcome.TheVariants.{Refused};
    ghost use Rattle.reg_apply.specs.Outcomes.{is_applied, outcome_line};
    ghost use Rattle.reg_apply.specs.Applied.{AsksTaken, EndsFor, unit_of};

    type Outcome = ApplyOutcome;

    ghost moment = { λ it. it.request.now.moment };

    ghost may_ask = { λ it. AsksTaken it.request.now.prefixes.now it.request.now.moment
        (unit_of it.request.now.unit) it.file };

    ghost can_end = { λ it. EndsFor it.request.now.unit it.request.now.prefixes.now
        it.request.now.moment it.file };

    ghost is_made = { is_applied };

    ghost refusal_of = { λ why. Refused why };

    ghost line = { outcome_line };

    fn make<D: Disk>(self, alloc: Global, engine: &mut Engine<D>, number: u64) -> ApplyOutcome {
        let Application { request, file } = self;
        change(alloc, engine, number, request, file)
    }

    fn is_made(outcome: &ApplyOutcome) -> bool
        ensures { result ≡ is_applied outcome.now }
    {
        matches!(outcome, ApplyOutcome::Applied { .. })
    }

    fn refusal_of(refusal: Refusal) -> ApplyOutcome
        ensures { result ≡ Refused refusal }
    {
        ApplyOutcome::Refused { refusal }
    }

    fn write_line<W: Write>(outcome: &ApplyOutcome, writer: &mut W) -> io::Result<()>
        ensures { OnOk result (Appends (W.contents writer.old) (W.contents writer.new)
            (outcome_line outcome.now)) }
    {
        outcome.write_line(writer)
    }
}

/// Applies a file to an opened store as one transaction, whose last change has this number; nothing is changed if the
/// file is to be applied once for a unit of work and the store keeps a commit of it.
pub fn change<D: Disk>(
    alloc: Global,
    engine: &mut Engine<D>,
    number: u64,
    request: &ApplyRequest<'_>,
    file: RegFile,
) -> ApplyOutcome
    requires open { is_open engine.old.machine 0 ≡ true }
    ensures ends { EndsFor request.now.unit request.now.prefixes.now request.now.moment file engine.old.machine
        result engine.new.machine }
    ensures later { IsLater D.faithful D.failures engine.old engine.new }
{
    match request.unit {
        UnitOfWork::Own => change_anyway(alloc, engine, number, request, file),
        UnitOfWork::Again(_) => change_anyway(alloc, engine, number, request, file),
        UnitOfWork::Once(unit) => change_once(alloc, engine, number, request, unit, file),
    }
}

// applies a file to an opened store, unless that keeps a commit of the unit of work
fn change_once<D: Disk>(
    alloc: Global,
    engine: &mut Engine<D>,
    number: u64,
    request: &ApplyRequest<'_>,
    unit: Uuid,
    file: RegFile,
) -> ApplyOutcome
    requires open { is_open engine.old.machine 0 ≡ true }
    requires work { request.now.unit ≡ Once unit }
    ensures ends { EndsOnce unit request.now.prefixes.now request.now.moment file engine.old.machine
        result engine.new.machine }
    ensures later { IsLater D.faithful D.failures engine.old engine.new }
{
    match ask(engine, Event::OutcomeOf { id: unit }) {
        Reply::CommittedAs { number } => ApplyOutcome::Applied { number },
        Reply::Refused { refusal } => match refusal {
            Refusal::NotFound => change_anyway(alloc, engine, number, request, file),
            _ => ApplyOutcome::Refused { refusal },
        },
        _ => unreachable!(),
    }
}

// applies a file to an opened store, whatever commits it keeps
fn change_anyway<D: Disk>(
    alloc: Global,
    engine: &mut Engine<D>,
    number: u64,
    request: &ApplyRequest<'_>,
    file: RegFile,
) -> ApplyOutcome
    requires open { is_open engine.old.machine 0 ≡ true }
    ensures ends { EndsApplication request.now.prefixes.now request.now.moment (unit_of request.now.unit) file
        engine.old.machine result engine.new.machine }
    ensures later { IsLater D.faithful D.failures engine.old engine.new }
{
    let RegFile { statements, fault } = file;
    let Ok(trees) = engine.named_trees(alloc) else {
        return ApplyOutcome::Refused {
            refusal: Refusal::NoMemory,
        };
    };
    let hives = trees.len();
    let mut plan = Plan::new(alloc, trees, request.moment, bytes_aside(engine));
    if let Err(stop) = take_all(
        alloc,
        request.prefixes,
        hives,
        &mut plan,
        statements.into_vec(),
    ) {
        return stop.outcome();
    }
    if let Some(fault) = fault {
        return ApplyOutcome::BadFile { fault };
    }
    let id = request.unit_of_work(number);
    match commit(engine, id, request.moment, plan.into_ops()) {
        Ok(number) => ApplyOutcome::Applied { number },
        Err(refusal) => ApplyOutcome::Refused { refusal },
    }
}
