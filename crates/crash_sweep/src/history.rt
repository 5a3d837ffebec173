//! The trees after each of a script's changes: of all hives, that of outcomes among them.
use crate::same_trees::are_same;
use reg_tree::Trees;
use std::alloc::{AllocError, Global};

/// The trees after each number of accepted changes, from 0 on. The trees after a change share what stays with those
/// before it.
#[derive(Drop)]
pub(crate) struct TreeHistory {
    after: Vec<Trees>,
}

impl TreeHistory {
    /// A history in which nothing was accepted yet.
    pub(crate) fn new(alloc: Global, first: &Trees) -> Result<TreeHistory, AllocError> {
        let mut after = Vec::new(alloc);
        after.push(first.try_clone(alloc)?)?;
        Ok(TreeHistory { after })
    }

    /// Keeps the trees after the change of this number, if they aren't kept yet.
    pub(crate) fn keep(
        &mut self,
        alloc: Global,
        number: u64,
        trees: &Trees,
    ) -> Result<(), AllocError> {
        if number == self.after.len() as u64 {
            self.after.push(trees.try_clone(alloc)?)?;
        }
        Ok(())
    }

    /// The number of the last change.
    pub(crate) fn last(&self) -> u64 {
        (self.after.len() as u64).saturating_sub(1)
    }

    /// Whether these are the trees after the change of this number.
    pub(crate) fn has(&self, number: u64, trees: &Trees) -> bool {
        match self.after.get(number as usize) {
            Some(kept) => are_same(kept, trees),
            None => false,
        }
    }
}
