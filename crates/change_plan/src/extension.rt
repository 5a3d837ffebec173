//! What one edit adds to a plan.
ghost use Rattle.std.specs.Prelude.{◌≡◌, ◌⊎◌, IfOk, IfErr, [], OnOk, ◌++◌, ◌∷◌, Ok, Err};
ghost use Rattle.refusals.specs.declared.refusal.Refusal.TheVariants.{NoMemory};
ghost use Rattle.reg_tree.specs.Judgement.{applied, applied_one, legal};
ghost use Rattle.reg_tree.specs.declared.op.Op.TheVariants.{DeleteKey};
ghost use Rattle.reg_tree.specs.declared.op.Legality.TheVariants.{Legal};
ghost use Rattle.change_plan.specs.Edits.{OperationAsks};

use refusals::Refusal;
use reg_names::Path;
use reg_tree::{Op, Trees};
use std::alloc::{AllocError, Global};

/// Operations, and the trees after them.
#[derive(Drop)]
pub(crate) struct Extension {
    pub(crate) view: Trees,
    pub(crate) ops: Vec<Op>,
}

impl Extension {
    /// No operation, on these trees.
    pub(crate) fn none(alloc: Global, view: &Trees) -> Result<Extension, AllocError>
        ensures { IfOk result (λ made. (made.view ≡ view.now) × (made.ops.items ≡ [])) }
    {
        Ok(Extension {
            view: view.try_clone(alloc)?,
            ops: Vec::new(alloc),
        })
    }

    /// One operation, on these trees; none if it creates a key that is there.
    pub(crate) fn one(
        alloc: Global,
        view: &Trees,
        op: Op,
        moment: u64,
    ) -> Result<Extension, Refusal>
        ensures made { IfOk result (λ made. OperationAsks view.now op made.ops.items
            × (made.view ≡ applied view.now made.ops.items moment)) }
        ensures refused { IfErr result (λ why. (legal view.now op ≡ Err why) ⊎ (why ≡ NoMemory)) }
    {
        let mut made = Extension::none(alloc, view)?;
        match view.write(alloc, &op, moment)? {
            Some(after) => {
                made.ops.push(op)?;
                made.view = after;
            }
            None => {}
        }
        Ok(made)
    }

    /// Deletes a key without subkeys, at this moment.
    #[inline(never)] // so that each level takes little stack
    pub(crate) fn delete(
        &mut self,
        alloc: Global,
        hive: u8,
        path: Path,
        moment: u64,
    ) -> Result<(), Refusal>
        ensures deleted { OnOk result ((legal self.old.view (DeleteKey hive path) ≡ Ok Legal)
            × (self.new.ops.items ≡ self.old.ops.items ++ DeleteKey hive path ∷ [])
            × (self.new.view ≡ applied_one self.old.view (DeleteKey hive path) moment)) }
        ensures refused { IfErr result (λ why.
            (legal self.old.view (DeleteKey hive path) ≡ Err why) ⊎ (why ≡ NoMemory)) }
    {
        let op = Op::DeleteKey { hive, path };
        let Some(after) = self.view.write(alloc, &op, moment)? else {
            unreachable!();
        };
        self.ops.push(op)?;
        self.view = after;
        Ok(())
    }
}
