//! What takes the keys of a walk.
ghost use Rattle.std.specs.Prelude.{List, [], ◌∷◌, ◌++◌, OnOk};
ghost use Rattle.key_walk.specs.KeyRows.{NamedRow};
ghost use Rattle.key_walk.specs.KeyPaths.{names_on};

use crate::key_path::KeyPath;
use reg_tree_parts::Key;

/// What takes keys one after another, such as a printer.
pub trait KeySink {
    /// The sink before took these keys, in this order, each with the names that lead to it, and is now the other.
    ghost Took: { Self → Self → List NamedRow → Type 0 };

    /// Why a key is not taken.
    type Error;

    /// Takes a key to which this way leads. After a refusal the walk ends.
    fn take(&mut self, path: &KeyPath<'_>, key: &Key) -> Result<(), Self::Error>
        ensures { OnOk result (Took self.old self.new ((names_on path.now, key.now) ∷ [])) };

    ghost took_none: { (sink : Self) → Took sink sink [] };

    ghost took_more: { (before between after : Self) (front rest : List NamedRow) →
        Took before between front → Took between after rest → Took before after (front ++ rest) };
}
