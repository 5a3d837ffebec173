//! Edits: what is asked of a map's entries.
ghost use Rattle.std.specs.Prelude.{◌≡◌, [], IfOk};
ghost use Rattle.reg_names.specs.Names.{folded};
ghost use Rattle.persistent_map.specs.Listings.{keyed_all};
ghost use Rattle.persistent_map.specs.Writes.{edit_name, edited};

use crate::map_entry::MapEntry;
use reg_names::Name;
use std::alloc::{AllocError, Global};
use std::sync::Arc;

/// What is asked of entries.
#[derive(Drop)]
pub enum MapEdit<'a, E> {
    /// This entry is put under its name.
    Put(Arc<E>),
    /// The entry of this name, if there is one, is removed.
    Remove(&'a Name),
}

impl<'a, E: MapEntry> MapEdit<'a, E> {
    /// The name of the entry that is put or removed.
    pub(crate) fn name(&self) -> &Name
        ensures { folded result.now ≡ edit_name E.key self.now }
    {
        match self {
            MapEdit::Put(new) => new.name(),
            MapEdit::Remove(name) => name,
        }
    }

    /// The entries that the edit makes if there was none.
    pub(crate) fn of_nothing(self, alloc: Global) -> Result<Vec<Arc<E>>, AllocError>
        ensures { IfOk result (λ made. keyed_all E.key made.items
            ≡ edited E.key E.over self.entry []) }
    {
        match self {
            MapEdit::Put(new) => {
                let mut made = Vec::with_capacity(alloc, 1)?;
                made.push(new)?;
                Ok(made)
            }
            MapEdit::Remove(_) => Ok(Vec::new(alloc)),
        }
    }
}
