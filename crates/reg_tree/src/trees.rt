//! The trees of all hives of a store.
ghost use Rattle.std.specs.Prelude.{◌≡◌, ◌≤◌, length, replicate, IfOk, slice_get};
ghost use Rattle.refusals.specs.declared.limits.TheConstants.{MOST_TREES};
ghost use Rattle.std.specs.Option.{option_copied};
ghost use Rattle.refusals.specs.Answers.{IsOrNoMemory};
ghost use Rattle.reg_tree.specs.Fresh.{fresh_tree};
ghost use Rattle.reg_tree.specs.Judgement.{legal, applied, applied_one};

mod reads;
mod writes;

use crate::element::Element;
use crate::op::{Legality, Op};
use crate::tree::Tree;
use refusals::Refusal;
use std::alloc::{AllocError, Global};
use std::marker::Model;

/// The trees of all hives, by the hives' numbers: 1 to 17 of them.
///
/// A change makes new trees, which share all that stays.
pub struct Trees {
    hives: Vec<Tree>,
}

impl Drop for Trees {
    // one drop for all that own trees, whose proofs see no more of it than that
    fn drop(self) {
        let Trees { hives: _ } = self;
    }
}

impl Model for Trees {
    ghost use Rattle.std.specs.Prelude.{List};
    ghost use Rattle.std.specs.Coded.{coded_ℕ, coded_list};
    ghost use Rattle.std.specs.FinMap as finite;
    ghost use Rattle.reg_tree_parts.specs.Rows.{row_code};
    ghost use Rattle.reg_tree.specs.Maps.{TreeMap};

    ghost Value = { List TreeMap };

    ghost coded = { coded_list (finite.code (coded_list (coded_list coded_ℕ)) row_code) };

    ghost view = { λ inside. inside.hives.items };

    ghost use Rattle.std.specs.Prelude.{◌≤◌, length};
    ghost use Rattle.refusals.specs.declared.limits.TheConstants.{MOST_TREES};

    ghost invariant = { λ inside. (1 ≤ length inside.hives.items)
        × (length inside.hives.items ≤ MOST_TREES) };
}

impl Trees {
    /// The trees of this many new hives.
    pub fn new(alloc: Global, hives: usize) -> Result<Trees, AllocError>
        requires some { 1 ≤ hives }
        requires few { hives ≤ MOST_TREES }
        ensures { IfOk result (λ trees. trees ≡ replicate hives fresh_tree) }
    {
        let mut made = Vec::with_capacity(alloc, hives)?;
        for _hive in 0..hives {
            made.push(Tree::fresh(alloc)?)?;
        }
        Ok(Trees { hives: made })
    }

    /// These trees, by the numbers of their hives.
    pub fn from_vec(hives: Vec<Tree>) -> Trees
        requires some { 1 ≤ length hives.items }
        requires few { length hives.items ≤ MOST_TREES }
        ensures { result ≡ hives.items }
    {
        Trees { hives }
    }

    /// How many hives there are: 1 to 17.
    pub fn len(&self) -> usize
        ensures all { result ≡ length self.now }
        ensures some { 1 ≤ result }
        ensures few { result ≤ MOST_TREES }
    {
        self.hives.len()
    }

    /// The tree of a hive.
    pub fn tree(&self, hive: u8) -> Option<&Tree>
        ensures { option_copied result ≡ slice_get self.now hive }
    {
        self.hives.get(usize::from(hive))
    }

    /// The same trees; it copies one pointer a hive.
    pub fn try_clone(&self, alloc: Global) -> Result<Trees, AllocError>
        ensures { IfOk result (λ copy. copy ≡ self.now) }
    {
        let mut hives = Vec::with_capacity(alloc, self.hives.len())?;
        for tree in &self.hives {
            hives.push(tree.clone()?)?;
        }
        Ok(Trees { hives })
    }

    /// Whether the operation is legal, or its first refusal: `NotFound` for a hive that isn't there, and else the one
    /// that [`Tree::legal`] gives.
    pub fn legal(&self, alloc: Global, op: &Op) -> Result<Legality, Refusal>
        ensures { IsOrNoMemory result (legal self.now op.now) }
    {
        match self.tree(op.hive()) {
            Some(tree) => tree.legal(alloc, op),
            None => Err(Refusal::NotFound),
        }
    }

    /// The trees after the element: its operations in order, all at its moment. An operation that may not be
    /// carried out changes nothing; weights are not looked at.
    pub fn apply(&self, alloc: Global, element: &Element) -> Result<Trees, AllocError>
        ensures { IfOk result (λ made. made ≡ applied self.now element.now.ops element.now.moment) }
    {
        self.apply_ops(alloc, element.ops.list(), element.moment)
    }

    /// The trees after the operations in order, all at this moment. An operation that may not be carried out
    /// changes nothing; weights are not looked at.
    pub fn apply_ops(&self, alloc: Global, ops: &[Op], moment: u64) -> Result<Trees, AllocError>
        ensures { IfOk result (λ made. made ≡ applied self.now ops.now moment) }
    {
        let mut made = self.try_clone(alloc)?;
        for op in ops {
            made.apply_one(alloc, op, moment)?;
        }
        Ok(made)
    }

    // one operation more
    fn apply_one(&mut self, alloc: Global, op: &Op, moment: u64) -> Result<(), AllocError>
        ensures { IfOk result (λ _. self.new ≡ applied_one self.old op.now moment) }
    {
        let hive = usize::from(op.hive());
        if hive < self.hives.len() {
            let made = self.hives[hive].apply(alloc, op, moment)?;
            self.hives[hive] = made;
        }
        Ok(())
    }
}
