//! Writes: operations that are judged and carried out at once, and lists of them within the limit of weight.
ghost use Rattle.std.specs.Prelude.{◌≡◌, ◌<◌, ◌⊎◌, length, slice_set, true, false, IfOk, IfErr, OnOk};
ghost use Rattle.reg_names.specs.Names.{folded_path};
ghost use Rattle.reg_tree.specs.Judgement.{legal, applied, applied_one, outweighs, any_outweighs, IsWritten};
ghost use Rattle.reg_tree.specs.Stamps.{stamped};
ghost use Rattle.reg_tree.specs.TreeLists.{levels_made};

use super::Trees;
use crate::op::Op;
use crate::tree::Tree;
use refusals::Refusal;
use reg_names::Name;
use std::alloc::{AllocError, Global};

impl Trees {
    /// The trees after the operation at this moment, and how many keys the operation made, if it is a creation; or
    /// nothing if it opens a key. Refused exactly as [`Trees::legal`] says: the operation is judged and carried out in
    /// one go, which makes the nodes of its path once.
    pub fn write_counted(
        &self,
        alloc: Global,
        op: &Op,
        moment: u64,
    ) -> Result<Option<(Trees, Option<usize>)>, Refusal>
        ensures ok { IfOk result (IsWritten (legal self.now op.now)
            (applied_one self.now op.now moment, levels_made self.now op.now)) }
        ensures refused { IfErr result (λ refusal.
            (legal self.now op.now ≡ Err refusal) ⊎ (refusal ≡ Refusal.NoMemory)) }
    {
        let Some(tree) = self.tree(op.hive()) else {
            return Err(Refusal::NotFound);
        };
        match tree.write_counted(alloc, op, moment)? {
            Some((made, levels)) => Ok(Some((self.with_tree(alloc, op.hive(), made)?, levels))),
            None => Ok(None),
        }
    }

    /// As [`Trees::write_counted`], without the count.
    pub fn write(&self, alloc: Global, op: &Op, moment: u64) -> Result<Option<Trees>, Refusal>
        ensures ok { IfOk result
            (IsWritten (legal self.now op.now) (applied_one self.now op.now moment)) }
        ensures refused { IfErr result (λ refusal.
            (legal self.now op.now ≡ Err refusal) ⊎ (refusal ≡ Refusal.NoMemory)) }
    {
        match self.write_counted(alloc, op, moment)? {
            Some((made, _)) => Ok(Some(made)),
            None => Ok(None),
        }
    }

    /// The trees in which the key at this path was written at this moment, and all else stays; if there is no such hive
    /// or key, the same trees.
    pub fn stamped(
        &self,
        alloc: Global,
        hive: u8,
        names: &[Name],
        moment: u64,
    ) -> Result<Trees, AllocError>
        ensures { IfOk result (λ made.
            made ≡ stamped self.now hive (folded_path names.now) moment) }
    {
        match self.tree(hive) {
            Some(tree) => {
                let made = tree.stamped(alloc, names, moment)?;
                self.with_tree(alloc, hive, made)
            }
            None => self.try_clone(alloc),
        }
    }

    // the trees with another tree as this hive's
    fn with_tree(&self, alloc: Global, hive: u8, tree: Tree) -> Result<Trees, AllocError>
        requires { hive < length self.now }
        ensures { IfOk result (λ made. made ≡ slice_set self.now hive tree) }
    {
        let mut trees = self.try_clone(alloc)?;
        trees.hives[usize::from(hive)] = tree;
        Ok(trees)
    }

    /// The trees after the operations in order, all at this moment, as [`Trees::apply_ops`] makes them. Refused with
    /// `TooLarge` exactly if a creation or a value that is written leaves its hive's tree with a weight over
    /// 16,777,216; the operations after it don't matter. Refused also with `NoMemory`.
    pub fn apply_within(&self, alloc: Global, ops: &[Op], moment: u64) -> Result<Trees, Refusal>
        ensures ok { IfOk result (λ made.
            (any_outweighs self.now ops.now moment ≡ false)
            × (made ≡ applied self.now ops.now moment)) }
        ensures refused { IfErr result (λ refusal.
            ((any_outweighs self.now ops.now moment ≡ true) × (refusal ≡ Refusal.TooLarge))
            ⊎ (refusal ≡ Refusal.NoMemory)) }
    {
        let mut made = self.try_clone(alloc)?;
        for op in ops {
            made.apply_one_within(alloc, op, moment)?;
        }
        Ok(made)
    }

    // one operation more, if it leaves its hive's tree within the limit of weight
    fn apply_one_within(&mut self, alloc: Global, op: &Op, moment: u64) -> Result<(), Refusal>
        ensures ok { OnOk result
            ((outweighs self.old op.now moment ≡ false)
            × (self.new ≡ applied_one self.old op.now moment)) }
        ensures refused { IfErr result (λ refusal.
            ((outweighs self.old op.now moment ≡ true) × (refusal ≡ Refusal.TooLarge))
            ⊎ (refusal ≡ Refusal.NoMemory)) }
    {
        let hive = usize::from(op.hive());
        if hive < self.hives.len() {
            let tree = self.hives[hive].apply(alloc, op, moment)?;
            if tree.is_over(op) {
                return Err(Refusal::TooLarge);
            }
            self.hives[hive] = tree;
        }
        Ok(())
    }
}
