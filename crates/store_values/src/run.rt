//! A change from the opening of the store to its end.
ghost use Rattle.std.specs.Prelude.{◌≡◌, ◌<◌, true};
ghost use Rattle.recovery.specs.Recovered.{seen_in};
ghost use Rattle.store_model.specs.Machine.{is_open};
ghost use Rattle.store_driver.specs.Later.{IsLater};
ghost use Rattle.store_values.specs.Outcomes.{EndsChange, ReportsChange};

use crate::change::Change;
use crate::change_result::ChangeResult;
use crate::edits::planned;
use crate::reply::{report_told, write_outcome};
use disk_model::Disk;
use engine::Engine;
use refusals::Refusal;
use std::alloc::Global;
use std::io::{self, Write};
use store_change::{StoreChange, bytes_aside, commit, make_change};
use uuid::Uuid;

/// Opens the store on a disk, makes a change at a moment (100 nanoseconds since the year 1601), and writes one line: the
/// number of the change, or why it is refused. If the change was made, it goes into the hives; what is refused of that
/// is written in a line more.
///
/// The disk is handed back. The change is one transaction, and durable when it is told. After a power cut at any moment
/// an opening finds all of it or nothing.
///
/// Refused as an opening is. A value is written as a key is created and a value is written, so with `TooDeep` if more
/// than 32 keys are missing. A deletion is refused with `NotFound` if the key or value isn't there, and with `Fixed` if
/// the key is the root; that of a key alone with `HasSubkeys` if it has subkeys, and that of a key with all below it as
/// deletions of the keys below it are.
pub fn change_store<D: Disk, W: Write>(
    alloc: Global,
    disk: D,
    moment: u64,
    change: Change,
    writer: &mut W,
) -> (D, io::Result<ChangeResult>)
    ensures { ReportsChange D.faithful (seen_in (D.state_at disk (D.clock disk)))
        (D.state_at disk (D.clock disk)) moment change (W.contents writer.old) (W.contents writer.new)
        result.1 (D.failures disk < D.failures result.0) (D.faithful result.0)
        (D.state_at result.0) (D.clock result.0) }
{
    let (disk, report) = make_change(alloc, disk, TimedChange { moment, change }, writer);
    match report {
        Ok(report) => (disk, Ok(report_told(report.outcome, report.refused_step))),
        Err(error) => (disk, Err(error)),
    }
}

// a change at a moment
#[derive(Drop)]
struct TimedChange {
    moment: u64,
    change: Change,
}

impl StoreChange for TimedChange {
    ghost use Rattle.std.specs.Prelude.{◌≡◌, Err, OnOk};
    ghost use Rattle.std.specs.Io.KnownBytes.{Appends};
    ghost use Rattle.store_values.specs.Outcomes.{AsksPlanned, EndsChange, is_committed, outcome_line};

    type Outcome = Result<u64, Refusal>;

    ghost moment = { λ it. it.moment };

    ghost may_ask = { λ it. AsksPlanned it.moment it.change };

    ghost can_end = { λ it. EndsChange it.moment it.change };

    ghost is_made = { is_committed };

    ghost refusal_of = { λ why. Err why };

    ghost line = { outcome_line };

    fn make<D: Disk>(
        self,
        alloc: Global,
        engine: &mut Engine<D>,
        number: u64,
    ) -> Result<u64, Refusal> {
        let TimedChange { moment, change } = self;
        make(alloc, engine, number, moment, change)
    }

    fn is_made(outcome: &Result<u64, Refusal>) -> bool
        ensures { result ≡ is_committed outcome.now }
    {
        outcome.is_ok()
    }

    fn refusal_of(refusal: Refusal) -> Result<u64, Refusal>
        ensures { result ≡ Err refusal }
    {
        Err(refusal)
    }

    fn write_line<W: Write>(outcome: &Result<u64, Refusal>, writer: &mut W) -> io::Result<()>
        ensures { OnOk result (Appends (W.contents writer.old) (W.contents writer.new)
            (outcome_line outcome.now)) }
    {
        write_outcome(*outcome, writer)
    }
}

// makes a change of an opened store, whose last change has this number; answers the number of the new one
fn make<D: Disk>(
    alloc: Global,
    engine: &mut Engine<D>,
    number: u64,
    moment: u64,
    change: Change,
) -> Result<u64, Refusal>
    requires open { is_open engine.old.machine 0 ≡ true }
    ensures ends { EndsChange moment change engine.old.machine result engine.new.machine }
    ensures later { IsLater D.faithful D.failures engine.old engine.new }
{
    let Ok(trees) = engine.named_trees(alloc) else {
        return Err(Refusal::NoMemory);
    };
    match planned(alloc, trees, bytes_aside(engine), moment, change) {
        Ok(plan) => {
            let id = Uuid::from_u64_pair(moment, number);
            commit(engine, id, moment, plan.into_ops())
        }
        Err(refusal) => Err(refusal),
    }
}
