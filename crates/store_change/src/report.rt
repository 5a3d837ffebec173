//! A change from the opening of the store to its end.
ghost use Rattle.std.specs.Prelude.{◌≡◌, ◌<◌, ◌++◌, ◌∷◌, [], None, Option, IfOk, OnOk};
ghost use Rattle.std.specs.Io.KnownBytes.{Appends};
ghost use Rattle.refusals.specs.Refusals.{refusal_text};
ghost use Rattle.refusals.specs.declared.refusal.Refusal.{Refusal as AnyRefusal};
ghost use Rattle.recovery.specs.Recovered.{seen_in};
ghost use Rattle.store_driver.specs.Later.{IsLater};
ghost use Rattle.store_change.specs.Commits.{KeepsAccepted};
ghost use Rattle.store_change.specs.Reports.{AllOrNothing, ChangesStore, Finishes, report_text};

use crate::change::StoreChange;
use disk_model::Disk;
use engine::Engine;
use refusals::Refusal;
use std::alloc::Global;
use std::io::{self, Write};
use store_driver::{open_store, run_until_idle};

/// How a change of a store ended, as it was told.
#[derive(Drop)]
pub struct ChangeReport<O> {
    /// How the change ended.
    pub outcome: O,
    /// What is refused of the steps after a change that was made, if anything is.
    pub refused_step: Option<Refusal>,
}

/// Opens the store on a disk, makes a change of it, and writes one line: how that ended. If the change was made, it goes
/// into the hives; what is refused of that is written in a line more.
///
/// The disk is handed back. After a power cut at any moment an opening finds all that the change asks for, or nothing of
/// it; and all of it once its end was told, if that says that it was made.
pub fn make_change<D: Disk, C: StoreChange, W: Write>(
    alloc: Global,
    disk: D,
    change: C,
    writer: &mut W,
) -> (D, io::Result<ChangeReport<C::Outcome>>)
    ensures changes { (outcome : C.Outcome) × (refused : Option AnyRefusal) × ChangesStore D.faithful
        (seen_in (D.state_at disk (D.clock disk))) (D.state_at disk (D.clock disk)) (C.can_end change)
        (AllOrNothing (C.may_ask change) (C.moment change)) C.is_made C.refusal_of outcome refused
        result.1 (D.failures disk < D.failures result.0) (D.faithful result.0)
        (D.state_at result.0) (D.clock result.0) × IfOk result.1 (λ report.
        (report.outcome ≡ outcome) × (report.refused_step ≡ refused)
        × Appends (W.contents writer.old) (W.contents writer.new) (report_text (C.line outcome) refused)) }
{
    match open_store(alloc, disk) {
        Ok((engine, number)) => {
            let mut engine = engine;
            let outcome = change.make(alloc, &mut engine, number);
            let told = report_outcome::<D, C, W>(&mut engine, outcome, writer);
            engine.keeps_a_prefix(); // for the prover
            engine.reads_a_prefix(); // for the prover
            (engine.into_disk(), told)
        }
        Err((refusal, disk)) => (disk, report_refusal::<C, W>(refusal, writer)),
    }
}

// writes how it ended; if the change was made, also makes all steps that are left, and writes what is refused of that
fn report_outcome<D: Disk, C: StoreChange, W: Write>(
    engine: &mut Engine<D>,
    outcome: C::Outcome,
    writer: &mut W,
) -> io::Result<ChangeReport<C::Outcome>>
    ensures finishes { IfOk result (λ report. (report.outcome ≡ outcome)
        × Finishes (C.is_made outcome) report.refused_step engine.old.machine engine.new.machine) }
    ensures printed { IfOk result (λ report. Appends (W.contents writer.old)
        (W.contents writer.new) (report_text (C.line outcome) report.refused_step)) }
    ensures kept { KeepsAccepted engine.old.machine engine.new.machine }
    ensures later { IsLater D.faithful D.failures engine.old engine.new }
{
    tell::<C, W>(&outcome, writer)?;
    let refused_step = finish(engine, C::is_made(&outcome));
    if let Some(refusal) = refused_step {
        tell_refusal(refusal, writer)?;
    }
    Ok(ChangeReport {
        outcome,
        refused_step,
    })
}

// writes why no store was opened
fn report_refusal<C: StoreChange, W: Write>(
    refusal: Refusal,
    writer: &mut W,
) -> io::Result<ChangeReport<C::Outcome>>
    ensures refused { IfOk result (λ report. (report.outcome ≡ C.refusal_of refusal)
        × (report.refused_step ≡ None)) }
    ensures printed { IfOk result (λ report. Appends (W.contents writer.old)
        (W.contents writer.new) (report_text (C.line report.outcome) report.refused_step)) }
{
    let outcome = C::refusal_of(refusal);
    tell::<C, W>(&outcome, writer)?;
    Ok(ChangeReport {
        outcome,
        refused_step: None,
    })
}

// makes all steps that are left, if a change was made; the refusal, if one is refused
fn finish<D: Disk>(engine: &mut Engine<D>, is_made: bool) -> Option<Refusal>
    ensures finishes { Finishes is_made result engine.old.machine engine.new.machine }
    ensures kept { KeepsAccepted engine.old.machine engine.new.machine }
    ensures later { IsLater D.faithful D.failures engine.old engine.new }
{
    if is_made {
        run_until_idle(engine)
    } else {
        None
    }
}

// writes the line that tells an outcome
fn tell<C: StoreChange, W: Write>(outcome: &C::Outcome, writer: &mut W) -> io::Result<()>
    ensures { OnOk result (Appends (W.contents writer.old) (W.contents writer.new)
        (C.line outcome.now)) }
{
    C::write_line(outcome, writer)?;
    writer.flush()?;
    Ok(())
}

// writes the line of a refusal
fn tell_refusal<W: Write>(refusal: Refusal, writer: &mut W) -> io::Result<()>
    ensures { OnOk result (Appends (W.contents writer.old) (W.contents writer.new)
        (refusal_text refusal ++ 10 ∷ [])) }
{
    writeln!(writer, "{refusal}")?;
    writer.flush()?;
    Ok(())
}
