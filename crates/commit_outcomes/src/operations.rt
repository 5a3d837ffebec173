//! The operations that record a commit in a tree of outcomes.
ghost use Rattle.std.specs.Prelude.{◌≡◌, ◌↔◌, ◌<◌, ℕ, Some, IfOk, Contains};
ghost use Rattle.std.specs.List.{AllByRecursion};
ghost use Rattle.std.specs.Option.{option_map};
ghost use Rattle.reg_tree.specs.Maps.{TreeMap};
ghost use Rattle.commit_outcomes.specs.Units as units;
ghost use Rattle.commit_outcomes.specs.Trees.{HasCommits};
ghost use Rattle.commit_outcomes.specs.Operations as operations;
ghost use Rattle.commit_outcomes.specs.CommitLists.{named_commit, first_out};

use crate::commit_list::{COMMIT_KIND, CommitList, MOST_COMMITS};
use crate::kept_commit::{KeptCommit, NUMBER_BYTES};
use crate::units::unit_name;
use byteorder::{ByteOrder, LittleEndian};
use reg_names::Path;
use reg_tree::{Data, Op};
use std::alloc::{AllocError, Global};
use uuid::Uuid;

/// The operations that record the commit of a unit of work in the tree of outcomes, which is that of this hive and has
/// these commits.
///
/// `earlier` is the number of the commit of this unit that is listed, if one is.
pub fn outcome_ops(
    alloc: Global,
    list: &CommitList,
    hive: u8,
    unit: &Uuid,
    number: u64,
    earlier: Option<u64>,
) -> Result<Vec<Op>, AllocError>
    requires above { AllByRecursion (λ c. c.0 < number) list.now }
    requires earlier { (n : ℕ) → (earlier ≡ Some n) ↔ Contains list.now (n, units.unit_name unit.now) }
    ensures { IfOk result (λ ops. (tree : TreeMap) → HasCommits list.now tree →
        ops.items ≡ operations.outcome_ops hive tree (number, units.unit_name unit.now)) }
{
    let mut ops = Vec::with_capacity(alloc, 2)?;
    ops.push(record_op(alloc, hive, unit, number)?)?;
    if let Some(oldest) = surplus(list, earlier) {
        ops.push(forget_op(alloc, hive, &oldest.unit)?)?;
    }
    Ok(ops)
}

// the commit that one more makes too many
fn surplus(list: &CommitList, earlier: Option<u64>) -> Option<&KeptCommit>
    ensures { option_map (λ commit. named_commit commit.now) result ≡ first_out list.now earlier }
{
    if earlier.is_none() && list.len() == MOST_COMMITS {
        list.oldest()
    } else {
        None
    }
}

// the value of a commit is written
fn record_op(alloc: Global, hive: u8, unit: &Uuid, number: u64) -> Result<Op, AllocError>
    ensures { IfOk result (λ op. op ≡ operations.record_op hive (number, units.unit_name unit.now)) }
{
    let path = Path::root(alloc)?;
    let name = unit_name(alloc, unit)?;
    let mut bytes = [0; NUMBER_BYTES];
    LittleEndian::write_u64(&mut bytes, number);
    let data = Data::new(alloc, &bytes)?;
    Ok(Op::SetValue {
        hive,
        path,
        name,
        kind: COMMIT_KIND,
        data,
    })
}

// the value of a unit's commit is deleted
fn forget_op(alloc: Global, hive: u8, unit: &Uuid) -> Result<Op, AllocError>
    ensures { IfOk result (λ op. op ≡ operations.forget_op hive (units.unit_name unit.now)) }
{
    let path = Path::root(alloc)?;
    let name = unit_name(alloc, unit)?;
    Ok(Op::DeleteValue { hive, path, name })
}
