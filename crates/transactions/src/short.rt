//! A change of one operation is never too long.
ghost use Rattle.std.specs.Prelude.{ℕ, List};
ghost use Rattle.reg_tree.specs.Maps.{TreeMap};
ghost use Rattle.std.specs.Prelude.{◌≡◌, Ok};
ghost use Rattle.reg_tree.specs.Judgement.{legal};
ghost use Rattle.reg_tree.specs.declared.op.Legality.TheVariants.{Legal};
ghost use Rattle.store_model.specs.Machine.{change};
ghost use Rattle.transactions.specs.Histories.{IsShort};

use reg_tree::Op;

/// A law: the change that an operation makes alone is short, if the operation is legal on some trees. A path has at
/// most 512 names of at most 255 units. A value's name has at most 16,383 units, and the data that are written at most
/// 1,048,576 bytes.
pub(crate) fn change_is_short(op: &Op)
    ensures { (trees : List TreeMap) (moment : ℕ) → legal trees op.now ≡ Ok Legal →
        IsShort (change moment op.now) }
{
    let _ = op.path().names(); // for the prover
    match op {
        Op::CreateKey { .. } => {}
        Op::DeleteKey { .. } => {}
        Op::SetValue { name, .. } => {
            let _ = name.name(); // for the prover
        }
        Op::DeleteValue { name, .. } => {
            let _ = name.name(); // for the prover
        }
    }
}
