//! A key as if it had been written at another moment. Trees that the same operations make at different moments differ
//! in times alone. So a tree is taken from one moment to another by stamps, without carrying the operations out again.
ghost use Rattle.std.specs.Prelude.{◌≡◌, List, ℕ, None, IfOk, IfSome, IfNone};
ghost use Rattle.refusals.specs.declared.refusal.Refusal.TheVariants.{NoMemory};
ghost use Rattle.reg_names.specs.Names.{folded_path};
ghost use Rattle.reg_tree_parts.specs.Nodes.{row_at, IsNode};
ghost use Rattle.reg_tree.specs.Maps.{row};
ghost use Rattle.reg_tree.specs.Operations.{row_edited};
ghost use Rattle.reg_tree.specs.Stamps.{stamped_at, stamps};

use super::Tree;
use refusals::Refusal;
use reg_names::Name;
use reg_tree_parts::{Node, NodeEdit};
use std::alloc::{AllocError, Global};
use std::sync::Arc;

// the edit that writes the key of the path again as it is, and makes none
struct Stamp;

impl NodeEdit for Stamp {
    ghost Makes = { λ stamp. stamps };

    ghost Refuses = { λ stamp moment key missing why. why ≡ NoMemory };

    #[inline(never)] // so that each level takes little stack
    fn edit(
        &self,
        _alloc: Global,
        node: &Node,
        missing: &[Name],
        moment: u64,
    ) -> Result<Option<Node>, Refusal> {
        if !missing.is_empty() {
            return Ok(None);
        }
        let new = node.with_key(node.key().with_time(moment)?)?;
        Ok(Some(new))
    }
}

impl Tree {
    // the root in which the key at this path was written at this moment, or nothing if there is no such key
    fn root_stamped(
        &self,
        alloc: Global,
        names: &[Name],
        moment: u64,
    ) -> Result<Option<Node>, AllocError>
        ensures rows { IfOk result (λ made. IfSome made (λ root. (q : List (List ℕ)) →
            row_at root q ≡ row_edited (λ key. key) self.now (folded_path names.now) moment q)) }
        ensures node { IfOk result (λ made. IfSome made IsNode) }
        ensures none { IfOk result (λ made. IfNone made
            (row self.now (folded_path names.now) ≡ None)) }
    {
        match self.root.edited(alloc, names, &Stamp, moment) {
            Ok(Some((root, _))) => Ok(Some(root)),
            Ok(None) => Ok(None),
            // a stamp is refused only if there is no memory
            Err(_) => Err(AllocError),
        }
    }

    /// The tree in which the key at this path was written at this moment, and all else stays; if there is no such key,
    /// the same tree.
    pub fn stamped(&self, alloc: Global, names: &[Name], moment: u64) -> Result<Tree, AllocError>
        ensures { IfOk result (λ made.
            made ≡ stamped_at self.now (folded_path names.now) moment) }
    {
        let _ = &self.root; // for the prover
        match self.root_stamped(alloc, names, moment)? {
            Some(root) => {
                let root = Arc::new(alloc, root)?;
                Ok(Tree { root })
            }
            None => self.clone(),
        }
    }
}
