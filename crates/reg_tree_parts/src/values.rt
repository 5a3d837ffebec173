//! The values of a key, in the order of their folded names.
ghost use Rattle.std.specs.Prelude.{◌≡◌, IfOk, IfSome, slice_get, min, sum_by};
ghost use Rattle.std.specs.Option.{option_copied};
ghost use Rattle.std.specs.FinMap as finite;
ghost use Rattle.reg_names.specs.Names.{folded};
ghost use Rattle.reg_tree_parts.specs.Weights.{value_weight};
ghost use Rattle.reg_tree_parts.specs.ValueEdits.{values_with, values_without};

use crate::data::Data;
use crate::value::Value;
use persistent_map::SharedMap;
use reg_names::Name;
use std::alloc::{AllocError, Global};
use std::marker::Model;
use std::sync::Arc;

/// The values of one key: a map from folded names, in whose order they are listed.
///
/// A change makes a new list that shares the other values; a clone shares the list itself.
pub struct Values {
    items: SharedMap<Value>,
}

impl Drop for Values {
    // one drop for all that own values, whose proofs see no more of it than that
    fn drop(self) {
        let Values { items: _ } = self;
    }
}

impl Model for Values {
    ghost use Rattle.std.specs.FinMap as finite;
    ghost use Rattle.reg_tree_parts.specs.Rows.{ValueMap, values_code};
    ghost use Rattle.reg_tree_parts.specs.ValueEntries.{value_entries, ValuesFit};

    ghost Value = { ValueMap };

    ghost coded = { values_code };

    ghost view = { λ inside. finite.from_sorted (value_entries inside.items) };

    ghost invariant = { λ inside. ValuesFit inside.items };
}

impl Values {
    /// No values, which take no memory.
    pub fn new() -> Values
        ensures { result ≡ finite.empty }
    {
        Values {
            items: SharedMap::new(),
        }
    }

    /// How many values there are.
    pub fn len(&self) -> usize
        ensures { result ≡ finite.len self.now }
    {
        self.items.len()
    }

    /// The value of this name.
    pub fn get(&self, name: &Name) -> Option<&Value>
        ensures found { option_copied result ≡ finite.get self.now (folded name.now) }
        ensures named { IfSome result (λ value. folded value.now.name ≡ folded name.now) }
    {
        self.items.find(name)
    }

    /// The value at this index, in the order of names.
    pub fn at(&self, index: usize) -> Option<&Value>
        ensures { option_copied result ≡ slice_get (finite.values self.now) index }
    {
        self.items.at(index)
    }

    /// The values with this one written. Its type and data replace the type and data of a value of the same name, whose
    /// spelling stays; else it is new.
    pub fn with(
        &self,
        alloc: Global,
        name: &Name,
        kind: u32,
        bytes: &Data,
    ) -> Result<Values, AllocError>
        ensures { IfOk result (λ made. made ≡ values_with self.now name.now kind bytes.now) }
    {
        let name = name.clone()?;
        let data = bytes.clone()?;
        let value = Arc::new(alloc, Value { name, kind, data })?;
        let items = self.items.with(alloc, value)?;
        Ok(Values { items })
    }

    /// The values without the one of this name.
    pub fn without(&self, alloc: Global, name: &Name) -> Result<Values, AllocError>
        ensures { IfOk result (λ made. made ≡ values_without self.now name.now) }
    {
        let items = self.items.without(alloc, name)?;
        Ok(Values { items })
    }

    /// The weight of the values together, or the greatest number of 64 bits if it is more.
    pub fn weight(&self) -> u64
        ensures { result ≡ min (sum_by value_weight (finite.values self.now)) u64.MAX }
    {
        self.items.weight()
    }
}

impl Clone for Values {
    ghost is_clone = { λ old copy. copy ≡ old };

    fn clone(&self) -> Result<Values, AllocError>
        ensures { IfOk result (λ copy. copy ≡ self.now) }
    {
        let items = self.items.share()?;
        Ok(Values { items })
    }
}
