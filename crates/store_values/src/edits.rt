//! The edits that a change asks for, taken into a plan.
ghost use Rattle.std.specs.Prelude.{◌≡◌, ◌⊎◌, ◌≤◌, IfOk, IfErr};
ghost use Rattle.refusals.specs.declared.refusal.Refusal.TheVariants.{NoMemory};
ghost use Rattle.store_model.specs.declared.room.TheConstants.{MOST_OUTCOME_BYTES};
ghost use Rattle.change_plan.specs.declared.edit.Edit.TheVariants.{Operation};
ghost use Rattle.change_plan.specs.Plans.{NotTaken, TakesEdit};
ghost use Rattle.store_values.specs.Changes.{ChangeIsDenied, ChangeIsPlanned, StopsEdits, TakesEdits, edits_of};
ghost use Rattle.store_values.specs.declared.change.Change.TheVariants as asked;

use crate::change::Change;
use change_plan::{Edit, Plan};
use refusals::Refusal;
use reg_names::{Path, ValueName};
use reg_tree::{Op, Trees};
use std::alloc::Global;
use value_syntax::Datum;

/// The plan of a change on these trees, at this moment, with so many bytes set aside for what its commit adds.
///
/// Refused with `NotFound` if a key is to be deleted with all below it that isn't there, and as the edits are.
pub(crate) fn planned(
    alloc: Global,
    trees: Trees,
    aside: u64,
    moment: u64,
    change: Change,
) -> Result<Plan, Refusal>
    requires few { aside ≤ MOST_OUTCOME_BYTES }
    ensures planned { IfOk result (ChangeIsPlanned trees aside moment change) }
    ensures denied { IfErr result (ChangeIsDenied trees aside moment change) }
{
    match change {
        Change::SetValue {
            hive,
            path,
            name,
            datum,
        } => set_value(
            alloc,
            Plan::new(alloc, trees, moment, aside),
            hive,
            path,
            name,
            datum,
        ),
        Change::CreateKey { hive, path } => {
            let plan = Plan::new(alloc, trees, moment, aside);
            operation(alloc, plan, Op::CreateKey { hive, path })
        }
        Change::DeleteValue { hive, path, name } => {
            let plan = Plan::new(alloc, trees, moment, aside);
            operation(alloc, plan, Op::DeleteValue { hive, path, name })
        }
        Change::DeleteKey { hive, path } => {
            let plan = Plan::new(alloc, trees, moment, aside);
            operation(alloc, plan, Op::DeleteKey { hive, path })
        }
        Change::DeleteTree { hive, path } => {
            if trees.query_info(hive, &path).is_err() {
                return Err(Refusal::NotFound);
            }
            let plan = Plan::new(alloc, trees, moment, aside);
            taken(alloc, plan, Edit::RemoveKey { hive, path })
        }
    }
}

// a plan with one operation more
fn operation(alloc: Global, plan: Plan, op: Op) -> Result<Plan, Refusal>
    ensures taken { IfOk result (TakesEdit plan (Operation op)) }
    ensures refused { IfErr result (NotTaken plan (Operation op)) }
{
    taken(alloc, plan, Edit::Operation { op })
}

// the creation of a key and the write of a value
fn set_value(
    alloc: Global,
    plan: Plan,
    hive: u8,
    path: Path,
    name: ValueName,
    datum: Datum,
) -> Result<Plan, Refusal>
    ensures taken { IfOk result (TakesEdits plan (edits_of (asked.SetValue hive path name datum))) }
    ensures refused { IfErr result (λ why. (why ≡ NoMemory)
        ⊎ StopsEdits plan (edits_of (asked.SetValue hive path name datum)) why) }
{
    let op = Op::CreateKey {
        hive,
        path: path.clone()?,
    };
    let plan = operation(alloc, plan, op)?;
    let Datum { kind, data } = datum;
    let edit = Edit::WriteValue {
        hive,
        path,
        name,
        kind,
        data,
    };
    taken(alloc, plan, edit)
}

// a plan with one edit more
fn taken(alloc: Global, plan: Plan, edit: Edit) -> Result<Plan, Refusal>
    ensures taken { IfOk result (TakesEdit plan edit) }
    ensures refused { IfErr result (NotTaken plan edit) }
{
    let mut plan = plan;
    plan.take(alloc, edit)?;
    Ok(plan)
}
