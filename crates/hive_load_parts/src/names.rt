//! Names as a tree keeps them.
ghost use Rattle.std.specs.Prelude.{◌≡◌, IfOk};
ghost use Rattle.hive_records.specs.RecordReaders.{units_of};

use hive_records::StoredName;
use reg_names::Name;
use std::alloc::{AllocError, Global};

/// The name that lies in a record. Memory alone is refused.
pub fn name_of(alloc: Global, stored: &StoredName) -> Result<Name, AllocError>
    ensures { IfOk result (λ name. name ≡ units_of stored.now) }
{
    let mut units = Vec::new(alloc);
    for place in 0..stored.len() {
        units.push(stored.unit(place))?;
    }
    Name::stored(alloc, &units)
}
