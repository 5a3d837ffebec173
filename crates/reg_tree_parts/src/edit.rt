//! Edits: what a write does with the key that its path leads to, which is found in one walk.
ghost use Rattle.std.specs.Prelude.{◌≡◌, ℕ, List, IfOk, IfErr, IfSome, IfNone, Option};
ghost use Rattle.refusals.specs.declared.refusal.Refusal.{Refusal};
ghost use Rattle.reg_tree_parts.specs.Nodes.{Entries, root_name, IsNode};
ghost use Rattle.reg_tree_parts.specs.Walks.{IsEdited, IsRefused, IsStep, AreMissing};

use crate::node::Node;
use refusals::Refusal;
use reg_names::Name;
use std::alloc::Global;

/// What a write does at a moment with the key that its path leads to, or else with the deepest existing key on the
/// path.
pub trait NodeEdit {
    /// What it makes of that key, by the names of the path that are missing from there on; nothing if it leaves the key
    /// as it is.
    ghost Makes: { Self → ℕ → Entries → List (List ℕ) → Option Entries → Type 0 };

    /// Why it is refused there.
    ghost Refuses: { Self → ℕ → Entries → List (List ℕ) → Refusal → Type 0 };

    /// The key as it is after the edit, or nothing if it stays as it is. `missing` are the names of the path that are
    /// missing from the key on: none if the path leads to it.
    fn edit(
        &self,
        alloc: Global,
        node: &Node,
        missing: &[Name],
        moment: u64,
    ) -> Result<Option<Node>, Refusal>
        ensures made { IfOk result (Makes self.now moment node.now missing.now) }
        ensures refused { IfErr result (Refuses self.now moment node.now missing.now) }
        ensures named { IfOk result (λ made. IfSome made (λ new. root_name new
            ≡ root_name node.now)) }
        ensures node { IfOk result (λ made. IfSome made IsNode) };
}

impl Node {
    // the subkey that a path leads on to, and the names after it
    fn step<'a>(&'a self, path: &'a [Name]) -> Option<(&'a Node, &'a [Name])>
        ensures on { IfSome result (λ next. IsStep self.now path.now next.0.now next.1.now) }
        ensures missing { IfNone result (AreMissing self.now path.now) }
    {
        let Some((name, rest)) = path.split_first() else {
            return None;
        };
        match self.child(name) {
            Some(child) => Some((child, rest)),
            None => None,
        }
    }

    /// The key after an edit of the one that this path leads to, or of the deepest one on the way; and how many names
    /// of the path were missing. Nothing if the edit leaves that key as it is. The key is found, judged and made in one
    /// walk.
    pub fn edited<W: NodeEdit>(
        &self,
        alloc: Global,
        path: &[Name],
        edit: &W,
        moment: u64,
    ) -> Result<Option<(Node, usize)>, Refusal>
        ensures made { IfOk result (IsEdited (W.Makes edit.now moment) self.now path.now) }
        ensures refused { IfErr result
            (IsRefused (W.Refuses edit.now moment) self.now path.now) }
    {
        let _ = self.key(); // for the prover
        let Some((child, rest)) = self.step(path) else {
            return match edit.edit(alloc, self, path, moment) {
                Ok(Some(new)) => Ok(Some((new, path.len()))),
                Ok(None) => Ok(None),
                Err(why) => Err(why),
            };
        };
        match child.edited(alloc, rest, edit, moment) {
            Ok(Some((new, missing))) => {
                let made = self.with_subkey(alloc, new)?;
                Ok(Some((made, missing)))
            }
            Ok(None) => Ok(None),
            Err(why) => Err(why),
        }
    }
}
