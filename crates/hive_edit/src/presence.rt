//! What of an operation's key and value is there.
ghost use Rattle.hive_edit.specs.Presences.{IsPresence};

use reg_tree::{Op, Tree};

/// What a tree has of an operation's key and value. An edit finds what is there by the order of lists, and what isn't
/// there it need not look for.
#[derive(Drop)]
pub struct Presence {
    /// How many names of the operation's path lead to the last key on its way that is there.
    pub names: usize,
    /// Whether the operation's value is there; false for an operation on a key.
    pub value: bool,
}

impl Presence {
    /// What a tree has of an operation.
    pub fn of(tree: &Tree, op: &Op) -> Presence
        ensures { IsPresence tree.now op.now result }
    {
        let path = op.path();
        let names = path.names().len().saturating_sub(tree.missing_levels(path));
        let value = match op {
            Op::CreateKey { .. } | Op::DeleteKey { .. } => false,
            Op::SetValue { path, name, .. } | Op::DeleteValue { path, name, .. } => {
                tree.get_value(path, name.name()).is_ok()
            }
        };
        Presence { names, value }
    }
}
