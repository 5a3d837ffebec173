//! One value of a key.
ghost use Rattle.std.specs.Prelude.{◌≡◌, IfOk, min};
ghost use Rattle.reg_names.specs.Names.{folded};
ghost use Rattle.reg_tree_parts.specs.Weights.{value_weight};
ghost use Rattle.reg_tree_parts.specs.ValueEdits.{spelled_as};

use crate::data::Data;
use persistent_map::MapEntry;
use reg_names::Name;
use std::alloc::{AllocError, Global};
use std::sync::Arc;

/// A value: its name as it was spelled first, its type number, and its data.
#[derive(Drop)]
pub struct Value {
    /// The name as spelled. The empty one is the default value's.
    pub name: Name,
    /// The type number, which is kept and not interpreted.
    pub kind: u32,
    /// The data.
    pub data: Data,
}

/// The weight of a value without name and data.
pub const VALUE_WEIGHT: u64 = 128;

const _: () = prove!(VALUE_WEIGHT == 128);

impl Value {
    /// The weight of the value: 128, twice the units of its name, and its bytes; or the greatest number of 64 bits if
    /// that is more.
    pub fn weight(&self) -> u64
        ensures { result ≡ min (value_weight self.now) u64.MAX }
    {
        weight_of(self)
    }

    /// A copy that shares the units of the name and the data.
    pub fn try_clone(&self) -> Result<Value, AllocError>
        ensures { IfOk result (λ copy. copy ≡ self.now) }
    {
        let name = self.name.clone()?;
        let data = self.data.clone()?;
        Ok(Value {
            name,
            kind: self.kind,
            data,
        })
    }
}

impl MapEntry for Value {
    ghost key = { λ value. folded value.name };

    ghost entry_weight = { value_weight };

    ghost over = { spelled_as };

    fn name(&self) -> &Name {
        &self.name
    }

    fn weight(&self) -> u64 {
        weight_of(self)
    }

    /// The new one, with the spelling of this one's name.
    fn replaced_by(&self, alloc: Global, new: Arc<Value>) -> Result<Arc<Value>, AllocError>
        requires { folded new.value.name ≡ folded self.now.name }
        ensures over { IfOk result (λ made. made.value ≡ spelled_as self.now new.value) }
        ensures named { IfOk result (λ made. folded made.value.name ≡ folded self.now.name) }
    {
        if self.name.units() == new.name.units() {
            return Ok(new);
        }
        let name = self.name.clone()?;
        let data = new.data.clone()?;
        let kind = new.kind;
        let new = Arc::new(alloc, Value { name, kind, data })?;
        Ok(new)
    }
}

// the weight of a value
fn weight_of(value: &Value) -> u64
    ensures { result ≡ min (value_weight value.now) u64.MAX }
{
    let units = value.name.units().len() as u64;
    let bytes = value.data.bytes().len() as u64;
    units
        .saturating_mul(2)
        .saturating_add(bytes)
        .saturating_add(VALUE_WEIGHT)
}
