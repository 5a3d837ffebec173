//! What is read of trees, and how many keys an operation makes in them.
ghost use Rattle.std.specs.Prelude.{◌≡◌, ◌⊎◌, Some, None, IfOk, IfErr};
ghost use Rattle.refusals.specs.declared.refusal.Refusal.TheVariants.{NoMemory};
ghost use Rattle.reg_tree.specs.TreeLists.{levels_made};
ghost use Rattle.store_model.specs.Machine.{looked_up, read_refusal};

use crate::event::{Question, ReadResult};
use refusals::Refusal;
use reg_names::Path;
use reg_tree::{Op, Trees};
use std::alloc::Global;

/// The answer to the question on a key. Refused with `NotFound` exactly if there is no such hive, key or value, which
/// includes an index past the last one; and with `NoMemory`.
pub fn look_up(
    alloc: Global,
    trees: &Trees,
    hive: u8,
    path: &Path,
    question: Question,
) -> Result<ReadResult, Refusal>
    ensures ok { IfOk result (λ found. looked_up trees.now hive path.now question ≡ Some found) }
    ensures refused { IfErr result (λ refusal.
        (read_refusal (looked_up trees.now hive path.now question) ≡ Some refusal)
        ⊎ (refusal ≡ NoMemory)) }
{
    Ok(match question {
        Question::ValueOf { name } => ReadResult::Value {
            value: trees.get_value(hive, path, name.name())?.try_clone()?,
        },
        Question::ValueAt { index } => ReadResult::Value {
            value: trees.enum_value(hive, path, index)?.try_clone()?,
        },
        Question::KeyAt { index } => ReadResult::Key {
            name: trees.enum_key(hive, path, index)?.clone()?,
        },
        Question::KeysOf => ReadResult::Keys {
            names: trees.subkey_names(alloc, hive, path)?,
        },
        Question::ValuesOf => ReadResult::ValueNames {
            names: trees.value_names(alloc, hive, path)?,
        },
        Question::InfoOf => ReadResult::Counts {
            info: trees.query_info(hive, path)?,
        },
    })
}

/// How many keys the operation would make, if it is a creation in a hive that is there.
pub fn levels_made(trees: &Trees, op: &Op) -> Option<usize>
    ensures { result ≡ levels_made trees.now op.now }
{
    match op {
        Op::CreateKey { hive, path } => trees.missing_levels(*hive, path),
        _ => None,
    }
}
