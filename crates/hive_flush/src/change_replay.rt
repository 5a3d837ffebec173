//! Changes, replayed on one hive's tree, and carried out in its image as long as they can be done in place.
ghost use Rattle.std.specs.Prelude.{◌≡◌, map, IfErr, IfOk};
ghost use Rattle.crash_model.specs.Changes.{applied, on_hive, ops_on};
ghost use Rattle.change_codec.specs.ModelChanges.{tree_rules, timed, timed_element, timed_elements};
ghost use Rattle.refusals.specs.declared.refusal.Refusal.TheVariants.{NoMemory};
ghost use Rattle.reg_tree.specs.Judgement.{changed};
ghost use Rattle.hive_flush.specs.Replays.{EncodesIfDone};
ghost use Rattle.hive_flush.specs.Times.{time_after};

use change_codec::EncodedChange;
use hive_edit::{Edit, Presence, edit_in_place};
use hive_savepoint::SavepointImage;
use refusals::Refusal;
use refusals::limits::MOST_WEIGHT;
use reg_tree::{Legality, Op, Tree};
use std::alloc::Global;

/// A tree that operations led to, and whether all of them were done in an image.
#[derive(Drop)]
pub(crate) struct Replay {
    pub(crate) tree: Tree,
    pub(crate) edit: Edit,
}

/// The tree after the operations on a hive of some changes, one after another, each at its change's moment. They are
/// done in the image too, as long as they can be, and the image's savepoint stays.
///
/// Refused with `NoMemory` alone. Some of them may be done in the image then.
pub(crate) fn replay_changes(
    alloc: Global,
    image: &mut SavepointImage,
    root: u32,
    hive: u8,
    start: Replay,
    changes: &[EncodedChange],
) -> Result<Replay, Refusal>
    requires encodes { EncodesIfDone start.edit image.old.bytes root start.tree }
    ensures tree { IfOk result (λ made. made.tree
        ≡ applied tree_rules (ops_on hive (timed_elements changes.now)) start.tree) }
    ensures encodes { IfOk result (λ made. EncodesIfDone made.edit image.new.bytes root made.tree) }
    ensures saved { image.new.saved ≡ image.old.saved }
    ensures refused { IfErr result (λ why. why ≡ NoMemory) }
{
    let mut made = start;
    for change in changes {
        made = after_change(alloc, image, root, hive, made, change)?;
    }
    Ok(made)
}

// the tree after a change's operations on a hive; only these operations are read
fn after_change(
    alloc: Global,
    image: &mut SavepointImage,
    root: u32,
    hive: u8,
    made: Replay,
    change: &EncodedChange,
) -> Result<Replay, Refusal>
    requires encodes { EncodesIfDone made.edit image.old.bytes root made.tree }
    ensures tree { IfOk result (λ next. next.tree
        ≡ applied tree_rules (on_hive hive (timed_element change.now)) made.tree) }
    ensures encodes { IfOk result (λ next. EncodesIfDone next.edit image.new.bytes root next.tree) }
    ensures saved { image.new.saved ≡ image.old.saved }
    ensures refused { IfErr result (λ why. why ≡ NoMemory) }
{
    // a change's hives alone show sooner that it is elsewhere
    if !change.is_on(hive) {
        return Ok(made);
    }
    let ops = change.ops_on(alloc, hive)?;
    after_ops(alloc, image, root, hive, made, &ops, change.moment())
}

// the tree after the operations on a hive among some, at one moment
fn after_ops(
    alloc: Global,
    image: &mut SavepointImage,
    root: u32,
    hive: u8,
    start: Replay,
    ops: &[Op],
    moment: u64,
) -> Result<Replay, Refusal>
    requires encodes { EncodesIfDone start.edit image.old.bytes root start.tree }
    ensures tree { IfOk result (λ made. made.tree
        ≡ applied tree_rules (on_hive hive (map (timed moment) ops.now)) start.tree) }
    ensures encodes { IfOk result (λ made. EncodesIfDone made.edit image.new.bytes root made.tree) }
    ensures saved { image.new.saved ≡ image.old.saved }
    ensures refused { IfErr result (λ why. why ≡ NoMemory) }
{
    let mut made = start;
    for op in ops {
        if op.hive() == hive {
            made = after_op(alloc, image, root, made, op, moment)?;
        }
    }
    Ok(made)
}

// the tree after an operation at a moment
fn after_op(
    alloc: Global,
    image: &mut SavepointImage,
    root: u32,
    made: Replay,
    op: &Op,
    moment: u64,
) -> Result<Replay, Refusal>
    requires encodes { EncodesIfDone made.edit image.old.bytes root made.tree }
    ensures tree { IfOk result (λ next. next.tree ≡ changed made.tree op.now moment) }
    ensures encodes { IfOk result (λ next. EncodesIfDone next.edit image.new.bytes root next.tree) }
    ensures saved { image.new.saved ≡ image.old.saved }
    ensures refused { IfErr result (λ why. why ≡ NoMemory) }
{
    let edit = edit_on(alloc, image, root, &made, op, moment)?;
    let tree = made.tree.apply(alloc, op, moment)?;
    Ok(Replay { tree, edit })
}

// Does an operation in an image in which all before it were done. If as much as the image's length was changed, it is
// cheaper to make the image anew. An operation that may not be carried out changes nothing.
fn edit_on(
    alloc: Global,
    image: &mut SavepointImage,
    root: u32,
    made: &Replay,
    op: &Op,
    moment: u64,
) -> Result<Edit, Refusal>
    requires encodes { EncodesIfDone made.now.edit image.old.bytes root made.now.tree }
    ensures encodes { IfOk result (λ how. EncodesIfDone how image.new.bytes root
        (changed made.now.tree op.now moment)) }
    ensures saved { image.new.saved ≡ image.old.saved }
    ensures refused { IfErr result (λ why. why ≡ NoMemory) }
{
    let Edit::Done = made.edit else {
        return Ok(Edit::Rebuild);
    };
    if image.changed_bytes() > image.len() || made.tree.weight() > MOST_WEIGHT {
        return Ok(Edit::Rebuild);
    }
    match made.tree.judge(op) {
        Ok(Legality::Legal) => {
            let _ = made.tree.root(); // for the prover
            let presence = Presence::of(&made.tree, op);
            edit_in_place(alloc, image, root, &presence, op, moment)
        }
        Ok(Legality::Opened) => Ok(Edit::Done),
        Err(_) => Ok(Edit::Done),
    }
}

/// The moment of the last change that has an operation on a hive, or else one that is given.
pub(crate) fn last_moment(hive: u8, changes: &[EncodedChange], otherwise: u64) -> u64
    ensures { result ≡ time_after hive changes.now otherwise }
{
    let mut left = changes;
    'changes: while let Some((change, before)) = left.split_last() {
        if change.is_on(hive) {
            return change.moment();
        }
        left = before;
    }
    otherwise
}
