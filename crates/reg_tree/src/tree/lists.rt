//! The names of a key's subkeys and of its values, in their order.
ghost use Rattle.std.specs.Prelude.{◌≡◌, ℕ, List, [], length, map, slice_get, IfOk, IfErr};
ghost use Rattle.std.specs.Option.{option_copied};
ghost use Rattle.std.specs.FinMap as finite;
ghost use Rattle.reg_names.specs.Names.{folded_path};
ghost use Rattle.reg_tree_parts.specs.Nodes.{names_below};
ghost use Rattle.reg_tree.specs.Reads.{IsMissingOrNoMemory};
ghost use Rattle.reg_tree.specs.TreeLists.{subkeys_at, value_names_at};

use super::Tree;
use crate::names::Names;
use refusals::Refusal;
use reg_names::{Name, Path};
use reg_tree_parts::{Node, Values};
use std::alloc::{AllocError, Global};

// what has names in an order
trait Named {
    ghost names: { Self → List (List ℕ) };

    // how many there are
    fn count(&self) -> usize
        ensures { result ≡ length (names self.now) };

    // the name at this index
    fn name_at(&self, index: usize) -> Option<&Name>
        ensures { option_copied result ≡ slice_get (names self.now) index };
}

impl Named for Node {
    ghost names = { λ node. names_below [] node };

    fn count(&self) -> usize {
        self.subkey_count()
    }

    fn name_at(&self, index: usize) -> Option<&Name> {
        self.subkey(index)
    }
}

impl Named for Values {
    ghost names = { λ values. map (λ value. value.name) (finite.values values) };

    fn count(&self) -> usize {
        self.len()
    }

    fn name_at(&self, index: usize) -> Option<&Name> {
        match self.at(index) {
            Some(value) => Some(&value.name),
            None => None,
        }
    }
}

// copies of all the names, which share their units
fn copy_names<L: Named>(alloc: Global, from: &L) -> Result<Names, AllocError>
    ensures { IfOk result (λ names. names ≡ L.names from.now) }
{
    let count = from.count();
    let mut names = Vec::with_capacity(alloc, count)?;
    for index in 0..count {
        let Some(name) = from.name_at(index) else {
            unreachable!();
        };
        names.push(name.clone()?)?;
    }
    Ok(Names::new(names))
}

impl Tree {
    /// The names of the key's subkeys, in their order. Refused with `NotFound` exactly if there is no such key, and
    /// with `NoMemory`.
    pub fn subkey_names(&self, alloc: Global, path: &Path) -> Result<Names, Refusal>
        ensures ok { IfOk result (λ names.
            subkeys_at self.now (folded_path path.now) ≡ Some names) }
        ensures refused { IfErr result
            (IsMissingOrNoMemory (subkeys_at self.now (folded_path path.now))) }
    {
        let Some(node) = self.node(path.names()) else {
            return Err(Refusal::NotFound);
        };
        // the row of the key, whose clause says that the key is there
        let _ = node.key(); // for the prover
        Ok(copy_names(alloc, node)?)
    }

    /// The names of the key's values, in their order. Refused with `NotFound` exactly if there is no such key, and with
    /// `NoMemory`.
    pub fn value_names(&self, alloc: Global, path: &Path) -> Result<Names, Refusal>
        ensures ok { IfOk result (λ names.
            value_names_at self.now (folded_path path.now) ≡ Some names) }
        ensures refused { IfErr result
            (IsMissingOrNoMemory (value_names_at self.now (folded_path path.now))) }
    {
        let Some(node) = self.node(path.names()) else {
            return Err(Refusal::NotFound);
        };
        Ok(copy_names(alloc, node.key().values())?)
    }
}
