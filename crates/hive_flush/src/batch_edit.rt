//! Changes that are done in an image, all of them or none.
ghost use Rattle.std.specs.Prelude.{◌≡◌, ◌++◌, IfErr, IfOk, OnErr};
ghost use Rattle.base_block.specs.declared.block.TheConstants.{MINOR_VERSION};
ghost use Rattle.refusals.specs.declared.refusal.Refusal.TheVariants.{NoMemory};
ghost use Rattle.hive_edit.specs.declared.outcome.Edit.TheVariants as edit;
ghost use Rattle.hive_records.specs.Images.{BinsEncodeTree};
ghost use Rattle.hive_load.specs.Limits.{BinsEncodeTreeInLimits};
ghost use Rattle.hive_flush.specs.HiveStates.{tree_after_changes};
ghost use Rattle.hive_flush.specs.Replays.{EncodesIfDone};

use crate::change_replay::{Replay, replay_changes};
use change_codec::EncodedChange;
use hive_edit::Edit;
use hive_savepoint::SavepointImage;
use refusals::Refusal;
use refusals::limits::MOST_WEIGHT;
use reg_tree::Tree;
use std::alloc::Global;

/// The tree that changes from two slices lead to, on a hive with a tree that an image encodes from a root on. Answers
/// `Done` if the image encodes that tree now. It answers `Rebuild` and leaves the image as it was if the changes can't
/// be done in place, or the tree is over the weight.
///
/// Refused with `NoMemory` alone, and then the image is as it was.
pub(crate) fn edit_batch(
    alloc: Global,
    image: &mut SavepointImage,
    root: u32,
    hive: u8,
    tree: Tree,
    first: &[EncodedChange],
    then: &[EncodedChange],
) -> Result<Replay, Refusal>
    requires savepoint { image.old.saved ≡ image.old.bytes }
    requires encodes { BinsEncodeTree image.old.bytes root MINOR_VERSION tree }
    ensures tree { IfOk result (λ made. made.tree
        ≡ tree_after_changes hive (first.now ++ then.now) tree) }
    ensures done { IfOk result (λ made. made.edit ≡ edit.Done →
        BinsEncodeTreeInLimits image.new.bytes root MINOR_VERSION made.tree) }
    ensures undone { IfOk result (λ made. made.edit ≡ edit.Rebuild → image.new ≡ image.old) }
    ensures saved { image.new.saved ≡ image.old.saved }
    ensures refused { IfErr result (λ why. why ≡ NoMemory) }
    ensures err { OnErr result (image.new ≡ image.old) }
{
    match replay_batch(alloc, image, root, hive, tree, first, then) {
        Ok(made) => Ok(keep_within_limits(image, root, made)),
        Err(why) => {
            image.roll_back();
            Err(why)
        }
    }
}

// changes from two slices, replayed
fn replay_batch(
    alloc: Global,
    image: &mut SavepointImage,
    root: u32,
    hive: u8,
    tree: Tree,
    first: &[EncodedChange],
    then: &[EncodedChange],
) -> Result<Replay, Refusal>
    requires encodes { BinsEncodeTree image.old.bytes root MINOR_VERSION tree }
    ensures tree { IfOk result (λ made. made.tree
        ≡ tree_after_changes hive (first.now ++ then.now) tree) }
    ensures encodes { IfOk result (λ made. EncodesIfDone made.edit image.new.bytes root made.tree) }
    ensures saved { image.new.saved ≡ image.old.saved }
    ensures refused { IfErr result (λ why. why ≡ NoMemory) }
{
    let edit = Edit::Done;
    let made = replay_changes(alloc, image, root, hive, Replay { tree, edit }, first)?;
    replay_changes(alloc, image, root, hive, made, then)
}

// rolls an image back unless it was edited up to a tree within the weight
fn keep_within_limits(image: &mut SavepointImage, root: u32, made: Replay) -> Replay
    requires encodes { EncodesIfDone made.edit image.old.bytes root made.tree }
    ensures tree { result.tree ≡ made.tree }
    ensures done { result.edit ≡ edit.Done →
        BinsEncodeTreeInLimits image.new.bytes root MINOR_VERSION result.tree }
    ensures undone { result.edit ≡ edit.Rebuild →
        image.new ≡ record { bytes = image.old.saved; saved = image.old.saved } }
    ensures saved { image.new.saved ≡ image.old.saved }
{
    if made.edit == Edit::Done && made.tree.weight() <= MOST_WEIGHT {
        let _ = made.tree.root(); // for the prover
        return made;
    }
    image.roll_back();
    let edit = Edit::Rebuild;
    Replay {
        tree: made.tree,
        edit,
    }
}
