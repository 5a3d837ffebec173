//! Whether a value is there as it is to be written.
ghost use Rattle.std.specs.Prelude.{◌≡◌, Some, true, false};
ghost use Rattle.change_plan.specs.Edits.{HasDatum, IsDatum};

use reg_names::{Path, ValueName};
use reg_tree::{Data, Trees, Value};

/// Whether a value is there, with this type and this data.
pub(crate) fn has_datum(
    view: &Trees,
    hive: u8,
    path: &Path,
    name: &ValueName,
    kind: u32,
    data: &Data,
) -> bool
    ensures yes { result ≡ true → HasDatum view.now hive path.now name.now kind data.now }
    ensures no { result ≡ false → ¬ (HasDatum view.now hive path.now name.now kind data.now) }
{
    match view.get_value(hive, path, name.name()) {
        Ok(value) => is_datum(value, kind, data.bytes()),
        Err(_) => false,
    }
}

// whether a value has this type and this data
fn is_datum(value: &Value, kind: u32, bytes: &[u8]) -> bool
    ensures yes { result ≡ true → IsDatum (Some value.now) kind bytes.now }
    ensures no { result ≡ false → ¬ (IsDatum (Some value.now) kind bytes.now) }
{
    value.kind == kind && value.data.bytes() == bytes
}
