//! Whether an operation may be carried out, for callers that ask this alone: a write judges as it goes (`edits`).
ghost use Rattle.std.specs.Prelude.{◌≡◌};
ghost use Rattle.reg_names.specs.Names.{folded_path};
ghost use Rattle.reg_tree.specs.Judgement.{judged, judged_create, judged_delete_at, judged_set, judged_unset};

use super::{NOT_DELETABLE, Tree};
use crate::op::{Legality, Op};
use refusals::Refusal;
use refusals::limits::{MOST_NEW_LEVELS, MOST_VALUE_BYTES};
use reg_names::{Path, ValueName};
use reg_tree_parts::Data;

impl Tree {
    /// Whether the operation may be carried out on this tree, weights aside: the first refusal in order.
    ///
    /// A creation is `Opened` if its key is there, and `TooDeep` if more than 32 levels are missing. A deletion of the
    /// root is `Fixed`; of a missing key `NotFound`; of one marked as not deletable `Fixed`; of one with subkeys
    /// `HasSubkeys`. A value is written and deleted only if its key, and for a deletion the value, is there, else
    /// `NotFound`; and written only up to 1,048,576 bytes, else `TooLarge`.
    pub fn judge(&self, op: &Op) -> Result<Legality, Refusal>
        ensures { result ≡ judged self.now op.now }
    {
        match op {
            Op::CreateKey { path, .. } => self.judge_create(path),
            Op::DeleteKey { path, .. } => self.judge_delete(path),
            Op::SetValue { path, data, .. } => self.judge_set(path, data),
            Op::DeleteValue { path, name, .. } => self.judge_unset(path, name),
        }
    }

    fn judge_create(&self, path: &Path) -> Result<Legality, Refusal>
        ensures { result ≡ judged_create self.now (folded_path path.now) }
    {
        let names = path.names();
        let (_, depth) = self.nearest(names);
        if depth == names.len() {
            return Ok(Legality::Opened);
        }
        if names.len() - depth > MOST_NEW_LEVELS {
            return Err(Refusal::TooDeep);
        }
        Ok(Legality::Legal)
    }

    fn judge_delete(&self, path: &Path) -> Result<Legality, Refusal>
        ensures { result ≡ judged_delete_at self.now path.now }
    {
        let names = path.names();
        if names.is_empty() {
            return Err(Refusal::Fixed);
        }
        let Some(node) = self.node(names) else {
            return Err(Refusal::NotFound);
        };
        if node.key().flags() & NOT_DELETABLE != 0 {
            return Err(Refusal::Fixed);
        }
        if node.subkey_count() != 0 {
            return Err(Refusal::HasSubkeys);
        }
        Ok(Legality::Legal)
    }

    fn judge_set(&self, path: &Path, data: &Data) -> Result<Legality, Refusal>
        ensures { result ≡ judged_set self.now (folded_path path.now) data.now }
    {
        let Some(node) = self.node(path.names()) else {
            return Err(Refusal::NotFound);
        };
        let _ = node.key(); // for the prover
        if data.bytes().len() > MOST_VALUE_BYTES {
            return Err(Refusal::TooLarge);
        }
        Ok(Legality::Legal)
    }

    fn judge_unset(&self, path: &Path, name: &ValueName) -> Result<Legality, Refusal>
        ensures { result ≡ judged_unset self.now (folded_path path.now) name.now }
    {
        let Some(node) = self.node(path.names()) else {
            return Err(Refusal::NotFound);
        };
        match node.key().values().get(name.name()) {
            Some(_) => Ok(Legality::Legal),
            None => Err(Refusal::NotFound),
        }
    }
}
