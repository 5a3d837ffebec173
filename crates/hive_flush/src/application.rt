//! What a hive takes into memory.
ghost use Rattle.std.specs.Prelude.{◌≡◌, ◌<◌, ◌≤◌, ◌++◌, ℕ, List, true, None, length, Err, IfErr, IfOk, OnOk, OnErr};
ghost use Rattle.refusals.specs.declared.limits.TheConstants.{MOST_BINS_BYTES, MOST_WEIGHT};
ghost use Rattle.refusals.specs.declared.refusal.Refusal.TheVariants.{NoMemory, TooLarge};
ghost use Rattle.reg_tree.specs.Maps.{TreeMap, weight};
ghost use Rattle.dirty_vector.specs.Pages.{is_bins_size};
ghost use Rattle.base_block.specs.declared.block.TheConstants.{MINOR_VERSION};
ghost use Rattle.reg_tree.specs.declared.element.Element.{Element as Change};
ghost use Rattle.hive_emit.specs.Forms.{IsFormed};
ghost use Rattle.hive_load.specs.Limits.{BinsEncodeTreeInLimits};
ghost use Rattle.hive_flush.specs.Decoders.{IsRefusedFor};
ghost use Rattle.hive_flush.specs.HiveStates.{ChangesAreLegalOn, IsBroken, HiveIsRepaired, KeepsMatch, file_choice, tree_after_changes, memory_of, hive_number, store_of};
ghost use Rattle.hive_flush.specs.Times.{time_after, time_of};

use crate::batch_edit::edit_batch;
use crate::change_replay::last_moment;
use crate::flush_plan::{plan_fits, plan_for};
use crate::hive::HiveFile;
use change_codec::EncodedChange;
use dirty_vector::mark_changes;
use hive_cells::Image;
use hive_edit::Edit;
use hive_emit::{Emitted, emit};
use refusals::Refusal;
use reg_tree::Tree;
use std::alloc::Global;

impl HiveFile {
    /// Absorbs changes into memory, one after another, from two slices: those after the number in memory up to `upto`.
    /// They are done in place in the image, as long as they can be and it isn't cheaper to make the image anew.
    /// A flush that begins then writes the tree that they lead to. Its last written time is the moment of the last of
    /// them that has an operation on this hive; the time stays if none has. No flush is on its way, and no repair is
    /// left.
    ///
    /// Refused with `NoMemory`. Refused with `TooLarge` only if the tree that they lead to is over the weight, which
    /// legal changes never leave. A refusal changes nothing.
    pub fn absorb(
        &mut self,
        alloc: Global,
        first: &[EncodedChange],
        then: &[EncodedChange],
        upto: u64,
    ) -> Result<(), Refusal>
        requires whole { HiveIsRepaired self.old }
        requires rest { (file_choice self.old).next ≡ None }
        requires ahead { (memory_of self.old).1 ≤ upto }
        ensures memory { OnOk result (memory_of self.new ≡ (
          tree_after_changes (hive_number self.old) (first.now ++ then.now) (memory_of self.old).0,
          upto,
        )) }
        ensures time { OnOk result (time_of self.new ≡ time_after (hive_number self.old)
            (first.now ++ then.now) (time_of self.old)) }
        ensures refused { IfErr result (IsRefusedFor (weight (tree_after_changes (hive_number self.old)
            (first.now ++ then.now) (memory_of self.old).0))) }
        ensures legal { ChangesAreLegalOn (hive_number self.old) (first.now ++ then.now)
            (memory_of self.old).0 → IfErr result (λ why. why ≡ NoMemory) }
        ensures light { OnOk result (weight (memory_of self.new).0 ≤ MOST_WEIGHT) }
        ensures err { OnErr result (self.new ≡ self.old) }
        ensures files { file_choice self.new ≡ file_choice self.old }
        ensures on { KeepsMatch self.old self.new }
        ensures place { hive_number self.new ≡ hive_number self.old }
        ensures store { store_of self.new ≡ store_of self.old }
        ensures whole { HiveIsRepaired self.new }
        ensures sound { IsBroken self.new → IsBroken self.old }
    {
        legal_is_light(&self.tree); // for the prover
        hive_load::laws::one_encoding();
        hive_records::laws::one_tree();
        self.image.tiles(); // for the prover
        let hive = self.writer.hive;
        let root = self.writer.block.root;
        let time = last_moment(hive, first, self.writer.block.last_written);
        let time = last_moment(hive, then, time);
        let tree = self.tree.clone()?;
        match edit_batch(alloc, &mut self.image, root, hive, tree, first, then) {
            Ok(made) => match made.edit {
                Edit::Done => {
                    self.image.release(&mut self.pages);
                    let size = self.pages.bins_size() as u32;
                    plan_for(&mut self.writer, root, size, time, upto);
                    self.tree = made.tree;
                    plan_fits(&self.writer, self.image.bytes(), &self.pages); // for the prover
                    Ok(())
                }
                Edit::Rebuild => self.rebuild(alloc, made.tree, time, upto),
            },
            Err(why) => Err(why),
        }
    }

    // takes a tree into memory with a new image
    fn rebuild(&mut self, alloc: Global, tree: Tree, time: u64, number: u64) -> Result<(), Refusal>
        requires whole { HiveIsRepaired self.old }
        requires rest { (file_choice self.old).next ≡ None }
        requires ahead { (memory_of self.old).1 ≤ number }
        ensures memory { OnOk result (memory_of self.new ≡ (tree, number)) }
        ensures time { OnOk result (time_of self.new ≡ time) }
        ensures refused { IfErr result (IsRefusedFor (weight tree)) }
        ensures err { OnErr result (self.new ≡ self.old) }
        ensures files { file_choice self.new ≡ file_choice self.old }
        ensures on { KeepsMatch self.old self.new }
        ensures place { hive_number self.new ≡ hive_number self.old }
        ensures store { store_of self.new ≡ store_of self.old }
        ensures whole { HiveIsRepaired self.new }
        ensures sound { IsBroken self.new → IsBroken self.old }
    {
        let least = self.pages.bins_size();
        let Emitted { image, root } = encoded_tree(alloc, &tree, least)?;
        self.install(tree, image, root, time, number);
        Ok(())
    }

    /// Takes a tree into memory, with an image that encodes it from a root on, and the moment and number of its last
    /// change. No flush is on its way, and the image is no shorter than the one before. The pages that differ are
    /// marked. What is in the files stays. Takes no memory.
    pub fn install(&mut self, tree: Tree, image: Image, root: u32, time: u64, number: u64)
        requires whole { HiveIsRepaired self.old }
        requires rest { (file_choice self.old).next ≡ None }
        requires ahead { (memory_of self.old).1 ≤ number }
        requires stands { BinsEncodeTreeInLimits image.bytes root MINOR_VERSION tree }
        requires size { is_bins_size (length image.bytes) ≡ true }
        requires larger { length self.old.image.bytes ≤ length image.bytes }
        ensures memory { memory_of self.new ≡ (tree, number) }
        ensures time { time_of self.new ≡ time }
        ensures files { file_choice self.new ≡ file_choice self.old }
        ensures on { KeepsMatch self.old self.new }
        ensures place { hive_number self.new ≡ hive_number self.old }
        ensures store { store_of self.new ≡ store_of self.old }
        ensures whole { HiveIsRepaired self.new }
        ensures sound { IsBroken self.new → IsBroken self.old }
    {
        hive_records::laws::one_tree();
        let mut image = image;
        mark_changes(&mut self.pages, self.image.bytes(), image.bytes());
        plan_for(&mut self.writer, root, image.len() as u32, time, number);
        self.image.replace(image);
        self.tree = tree;
        plan_fits(&self.writer, self.image.bytes(), &self.pages); // for the prover
    }
}

/// An image of at least a size that encodes a tree, and the root's cell in it. Refused with `TooLarge` exactly if the
/// tree is over the weight. Otherwise refused with `NoMemory`.
pub(crate) fn encoded_tree(
    alloc: Global,
    tree: &Tree,
    least_size: usize,
) -> Result<Emitted, Refusal>
    requires least { 4096 ≤ least_size }
    requires most { least_size ≤ MOST_BINS_BYTES }
    ensures stands { IfOk result (λ made.
        BinsEncodeTreeInLimits made.image.bytes made.root MINOR_VERSION tree.now) }
    ensures formed { IfOk result (λ made. IsFormed made.image.bytes made.root tree.now) }
    ensures size { IfOk result (λ made. is_bins_size (length made.image.bytes) ≡ true) }
    ensures least { IfOk result (λ made. least_size ≤ length made.image.bytes) }
    ensures refused { IfErr result (IsRefusedFor (weight tree.now)) }
    ensures heavy { MOST_WEIGHT < weight tree.now → result ≡ Err TooLarge }
{
    let _ = tree.root(); // for the prover
    let emitted = emit(alloc, tree, least_size as u32)?;
    emitted.image.tiles(0); // for the prover
    Ok(emitted)
}

// a law: changes that are legal leave a tree within the weight
fn legal_is_light(tree: &Tree)
    requires { weight tree.now ≤ MOST_WEIGHT }
    ensures { (hive : ℕ) (changes : List Change) → ChangesAreLegalOn hive changes tree.now →
        weight (tree_after_changes hive changes tree.now) ≤ MOST_WEIGHT }
{
    reg_tree::laws::weights_stay();
    reg_tree::laws::trees_stay();
    let _ = tree.root(); // for the prover
}
