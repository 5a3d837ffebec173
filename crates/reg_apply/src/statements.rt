//! The statements of a file, taken into a plan.
ghost use Rattle.std.specs.Prelude.{◌≡◌, None, Option, IfOk, IfErr, OnOk};
ghost use Rattle.std.specs.Option.{option_copied};
ghost use Rattle.reg_apply.specs.declared.place.Place.{Place as AnyPlace};
ghost use Rattle.reg_apply.specs.Applied.{StopsSo};
ghost use Rattle.reg_apply.specs.Statements.{DeniesStatement, StopsAt, TakesStatements, TakesStatement};

use crate::outcome::ApplyOutcome;
use crate::place::{Denial, Place, edit_of};
use change_plan::Plan;
use reg_file::{Fault, FaultKind, NumberedStatement, Statement};
use reg_prefixes::Prefixes;
use std::alloc::Global;

/// The first statement whose edit isn't taken.
#[derive(Clone, Copy, Debug, PartialEq, Eq)]
pub(crate) struct Stop {
    /// The number of its first line.
    pub(crate) line: u64,
    /// Why.
    pub(crate) denial: Denial,
}

impl Stop {
    /// How it ends an application.
    pub(crate) fn outcome(self) -> ApplyOutcome
        ensures { StopsSo self.line self.denial result }
    {
        let line = self.line;
        match self.denial {
            Denial::NoHive => ApplyOutcome::NoHive { line },
            Denial::NoKey => ApplyOutcome::BadFile {
                fault: Fault {
                    line,
                    kind: FaultKind::NoKey,
                },
            },
            Denial::Refused(refusal) => ApplyOutcome::Denied { line, refusal },
        }
    }
}

/// Takes the edits of all statements into a plan.
pub(crate) fn take_all(
    alloc: Global,
    prefixes: &Prefixes,
    hives: usize,
    plan: &mut Plan,
    statements: Vec<NumberedStatement>,
) -> Result<(), Stop>
    ensures taken { OnOk result ((last : Option AnyPlace) ×
        TakesStatements prefixes.now hives None plan.old statements.items last plan.new) }
    ensures stopped { IfErr result (λ stop.
        StopsAt prefixes.now hives plan.old statements.items stop.line stop.denial) }
{
    let mut current = None;
    for numbered in statements {
        let line = numbered.line;
        match take(
            alloc,
            prefixes,
            hives,
            plan,
            current.as_ref(),
            numbered.statement,
        ) {
            Ok(next) => current = next,
            Err(denial) => return Err(Stop { line, denial }),
        }
    }
    Ok(())
}

/// Takes the edit of a statement; answers the key that is current after it. One that isn't taken leaves the plan as it
/// was.
pub(crate) fn take(
    alloc: Global,
    prefixes: &Prefixes,
    hives: usize,
    plan: &mut Plan,
    current: Option<&Place>,
    statement: Statement,
) -> Result<Option<Place>, Denial>
    ensures taken { IfOk result (λ next. TakesStatement prefixes.now hives (option_copied current.entry)
        plan.old statement next plan.new) }
    ensures denied { IfErr result
        (DeniesStatement prefixes.now hives (option_copied current.entry) plan.old statement) }
    ensures kept { IfErr result (λ denial. plan.new ≡ plan.old) }
{
    let (edit, next) = edit_of(alloc, prefixes, hives, current, statement)?;
    plan.take(alloc, edit)?;
    Ok(next)
}
