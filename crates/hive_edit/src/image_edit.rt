//! One operation on an image alone, in place or by an image that is made anew.
ghost use Rattle.std.specs.Prelude.{◌≡◌, ◌≤◌, true, length, Ok, OnOk, OnErr, IfErr, MatchResult};
ghost use Rattle.base_block.specs.declared.block.TheConstants.{MINOR_VERSION};
ghost use Rattle.refusals.specs.declared.limits.TheConstants.{MOST_WEIGHT};
ghost use Rattle.refusals.specs.declared.refusal.Refusal.TheVariants.{NoMemory};
ghost use Rattle.reg_tree.specs.Maps.{TreeMap, weight};
ghost use Rattle.reg_tree.specs.Operations.{tree_after};
ghost use Rattle.reg_tree.specs.Judgement.{legal_in};
ghost use Rattle.reg_tree.specs.declared.op.Legality.TheVariants.{Legal};
ghost use Rattle.dirty_vector.specs.Changes.{ChangesAreMarked};
ghost use Rattle.hive_records.specs.Images.{BinsEncodeTree};
ghost use Rattle.hive_load.specs.Limits.{BinsEncodeTreeInLimits};
ghost use Rattle.hive_edit.specs.declared.outcome.Edit.TheVariants as edit;

use crate::operation::edit_in_place;
use crate::outcome::Edit;
use crate::presence::Presence;
use base_block::MINOR_VERSION;
use dirty_vector::{DirtyVector, mark_changes};
use hive_cells::Looks;
use hive_emit::{Emitted, emit};
use hive_load::load;
use hive_savepoint::SavepointImage;
use refusals::Refusal;
use reg_tree::{Op, Tree};
use std::alloc::Global;

/// Carries out an operation in an image, and marks the pages that it writes. The operation is legal in the tree that
/// the image encodes from the root on, and the tree is within the limits. What isn't done in place is done by an image
/// that is made anew: the root's offset may be another then. The savepoint is what the image has, before and after.
///
/// It reads the whole image for its tree. Whoever keeps the tree calls [`edit_in_place`].
///
/// Refused with `NoMemory` alone. Image, root and pages are as they were then.
pub fn edit(
    alloc: Global,
    image: &mut SavepointImage,
    root: &mut u32,
    pages: &mut DirtyVector,
    op: &Op,
    moment: u64,
) -> Result<(), Refusal>
    requires savepoint { image.old.saved ≡ image.old.bytes }
    requires sizes { pages.old.bins_size ≡ length image.old.bytes }
    requires stands { (tree : TreeMap)
        × BinsEncodeTreeInLimits image.old.bytes root.old MINOR_VERSION tree
        × (legal_in tree op.now ≡ Ok Legal) }
    ensures stands { OnOk result ((tree : TreeMap) →
        BinsEncodeTreeInLimits image.old.bytes root.old MINOR_VERSION tree →
        BinsEncodeTree image.new.bytes root.new MINOR_VERSION (tree_after tree op.now moment)) }
    ensures marks { OnOk result (ChangesAreMarked image.old.bytes pages.old image.new.bytes
        pages.new) }
    ensures sizes { OnOk result (pages.new.bins_size ≡ length image.new.bytes) }
    ensures savepoint { image.new.saved ≡ image.new.bytes }
    ensures refused { IfErr result (λ why. why ≡ NoMemory) }
    ensures image { OnErr result (image.new ≡ image.old) }
    ensures root { OnErr result (root.new ≡ root.old) }
    ensures pages { OnErr result (pages.new ≡ pages.old) }
{
    hive_records::laws::one_tree();
    reg_tree::laws::weights_stay();
    let tree = load_tree(alloc, image, *root)?;
    let after = tree.apply(alloc, op, moment)?;
    let presence = Presence::of(&tree, op);
    match edit_in_place(alloc, image, *root, &presence, op, moment) {
        Ok(Edit::Done) => {
            image.release(pages);
            Ok(())
        }
        Ok(Edit::Rebuild) => {
            image.roll_back();
            rebuild(alloc, image, root, pages, &after)
        }
        Err(why) => {
            image.roll_back();
            Err(why)
        }
    }
}

// the tree that an image encodes
fn load_tree(alloc: Global, image: &SavepointImage, root: u32) -> Result<Tree, Refusal>
    requires { (tree : TreeMap) × BinsEncodeTreeInLimits image.now.bytes root MINOR_VERSION tree }
    ensures { MatchResult result (λ tree.
        BinsEncodeTreeInLimits image.now.bytes root MINOR_VERSION tree) (λ why. why ≡ NoMemory) }
{
    match load(alloc, image.image(), root, MINOR_VERSION, &mut Looks::new()) {
        Ok(tree) => Ok(tree),
        Err(why) => Err(why),
    }
}

// makes an image anew for a tree, no shorter than it was, and marks the pages that differ
fn rebuild(
    alloc: Global,
    image: &mut SavepointImage,
    root: &mut u32,
    pages: &mut DirtyVector,
    tree: &Tree,
) -> Result<(), Refusal>
    requires savepoint { image.old.saved ≡ image.old.bytes }
    requires sizes { pages.old.bins_size ≡ length image.old.bytes }
    requires light { weight tree.now ≤ MOST_WEIGHT }
    ensures stands { OnOk result (BinsEncodeTree image.new.bytes root.new MINOR_VERSION tree.now) }
    ensures marks { OnOk result (ChangesAreMarked image.old.bytes pages.old image.new.bytes
        pages.new) }
    ensures sizes { OnOk result (pages.new.bins_size ≡ length image.new.bytes) }
    ensures savepoint { image.new.saved ≡ image.new.bytes }
    ensures refused { IfErr result (λ why. why ≡ NoMemory) }
    ensures image { OnErr result (image.new ≡ image.old) }
    ensures root { OnErr result (root.new ≡ root.old) }
    ensures pages { OnErr result (pages.new ≡ pages.old) }
{
    image.tiles(); // for the prover
    let least = pages.bins_size() as u32;
    let mut made = emit(alloc, tree, least)?;
    made.image.tiles(0); // for the prover
    mark_changes(pages, image.bytes(), made.image.bytes());
    *root = made.root;
    image.replace(made.image);
    Ok(())
}
