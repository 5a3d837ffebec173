//! A change replayed on the tree of a hive, if it is legal there.
ghost use Rattle.std.specs.Prelude.{◌≡◌, ◌⊎◌, map, true, false, Some, None, IfOk, IfErr};
ghost use Rattle.refusals.specs.Answers.{RefusedFor};
ghost use Rattle.refusals.specs.declared.refusal.Refusal.TheVariants.{JournalDamaged, NoMemory};
ghost use Rattle.crash_model.specs.Changes.{on_hive, replay};
ghost use Rattle.change_codec.specs.ModelChanges.{tree_rules, timed, timed_element};

use change_codec::EncodedChange;
use refusals::Refusal;
use reg_tree::{Op, Tree};
use std::alloc::Global;

/// The tree after the operations on a hive of a change, each at the change's moment. Of the change only these are read.
///
/// Refused with `JournalDamaged` exactly if one isn't legal in its turn, also because it opens a key that is there; and
/// with `NoMemory`.
pub(crate) fn after_change(
    alloc: Global,
    tree: &Tree,
    hive: u8,
    change: &EncodedChange,
) -> Result<Tree, Refusal>
    ensures made { IfOk result (λ made.
        replay tree_rules (on_hive hive (timed_element change.now)) tree.now ≡ Some made) }
    ensures fails { IfErr result (RefusedFor JournalDamaged
        (replay tree_rules (on_hive hive (timed_element change.now)) tree.now ≡ None)) }
{
    let ops = change.ops_on(alloc, hive)?;
    let tree = tree.clone()?;
    after_ops(alloc, tree, hive, &ops, change.moment())
}

// the tree after the operations on a hive among some, at one moment
fn after_ops(alloc: Global, tree: Tree, hive: u8, ops: &[Op], moment: u64) -> Result<Tree, Refusal>
    ensures made { IfOk result (λ made.
        replay tree_rules (on_hive hive (map (timed moment) ops.now)) tree ≡ Some made) }
    ensures fails { IfErr result (RefusedFor JournalDamaged
        (replay tree_rules (on_hive hive (map (timed moment) ops.now)) tree ≡ None)) }
{
    let mut made = tree;
    for op in ops {
        if op.hive() == hive {
            made = after_op(alloc, &made, op, moment)?;
        }
    }
    Ok(made)
}

// the tree after an operation that is legal on it
fn after_op(alloc: Global, tree: &Tree, op: &Op, moment: u64) -> Result<Tree, Refusal>
    ensures made { IfOk result (λ made. (tree_rules.legal (moment, op.now) tree.now ≡ true)
        × (made ≡ tree_rules.apply (moment, op.now) tree.now)) }
    ensures fails { IfErr result (RefusedFor JournalDamaged
        (tree_rules.legal (moment, op.now) tree.now ≡ false)) }
{
    match tree.write(alloc, op, moment) {
        Ok(Some(made)) => Ok(made),
        Ok(None) => Err(Refusal::JournalDamaged),
        Err(why) => Err(as_journal_damage(why)),
    }
}

// the refusal of a journal for a change that is refused so: `NoMemory` stays
fn as_journal_damage(why: Refusal) -> Refusal
    ensures memory { why ≡ NoMemory → result ≡ NoMemory }
    ensures either { (result ≡ NoMemory) ⊎ (result ≡ JournalDamaged) }
{
    if why == Refusal::NoMemory {
        return why;
    }
    Refusal::JournalDamaged
}
