//! What a key has: the row of a tree.
ghost use Rattle.std.specs.Prelude.{◌≡◌, ℕ, IfOk, min};
ghost use Rattle.reg_tree_parts.specs.Rows.{Row, row_weight};
ghost use Rattle.reg_tree_parts.specs.NewRows.{new_row};

use crate::data::Data;
use crate::descriptor::Descriptor;
use crate::rare_fields::{self, RareFields};
use crate::values::Values;
use reg_names::Name;
use std::alloc::{AllocError, Global};
use std::marker::Model;
use std::sync::Arc;

/// What a key has: its name as spelled, class, flags, security descriptor, last written time and values.
pub struct Key {
    name: Name,
    /// The class and the flags.
    rare_fields: Option<Arc<RareFields>>,
    descriptor: Descriptor,
    time: u64,
    values: Values,
}

impl Drop for Key {
    // one drop for all that own a key, whose proofs see no more of it than that
    fn drop(self) {
        let Key {
            name: _,
            rare_fields: _,
            descriptor: _,
            time: _,
            values: _,
        } = self;
    }
}

impl Model for Key {
    ghost use Rattle.reg_tree_parts.specs.Rows.{Row, row_code};
    ghost use Rattle.reg_tree_parts.specs.ClassAndFlags.{class_in, flags_in};

    ghost Value = { Row };

    ghost coded = { row_code };

    ghost view = { λ inside. record { name = inside.name; class = class_in inside.rare_fields; flags = flags_in inside.rare_fields; descriptor = inside.descriptor; time = inside.time; values = inside.values } };
}

/// The weight of a key without name, class, descriptor and values.
pub const KEY_WEIGHT: u64 = 192;

const _: () = prove!(KEY_WEIGHT == 192);

impl Key {
    /// A key of these parts. One without class and flags takes no memory beside them.
    pub fn new(
        alloc: Global,
        name: Name,
        class: Data,
        flags: u16,
        descriptor: Descriptor,
        time: u64,
        values: Values,
    ) -> Result<Key, AllocError>
        ensures { IfOk result (λ made. made ≡ record {
          name = name;
          class = class;
          flags = flags;
          descriptor =
              descriptor;
          time = time;
          values = values;
        }) }
    {
        let rare_fields = rare_fields::new_if_any(alloc, class, flags)?;
        Ok(Key {
            name,
            rare_fields,
            descriptor,
            time,
            values,
        })
    }

    /// A new key of this name: no class, no flags and no values. It shares the descriptor.
    pub fn fresh(name: &Name, descriptor: &Descriptor, time: u64) -> Result<Key, AllocError>
        ensures { IfOk result (λ made. made ≡ new_row name.now descriptor.now time) }
    {
        let name = name.clone()?;
        let descriptor = descriptor.clone()?;
        Ok(Key {
            name,
            rare_fields: None,
            descriptor,
            time,
            values: Values::new(),
        })
    }

    /// The name as spelled.
    pub fn name(&self) -> &Name
        ensures { result.now ≡ self.now.name }
    {
        &self.name
    }

    /// The class.
    pub fn class(&self) -> &[u8]
        ensures { result.now ≡ self.now.class }
    {
        rare_fields::class(&self.rare_fields)
    }

    /// The flags.
    pub fn flags(&self) -> u16
        ensures { result ≡ self.now.flags }
    {
        rare_fields::flags(&self.rare_fields)
    }

    /// The security descriptor.
    pub fn descriptor(&self) -> &Descriptor
        ensures { result.now ≡ self.now.descriptor }
    {
        &self.descriptor
    }

    /// The moment of the last write.
    pub fn time(&self) -> u64
        ensures { result ≡ self.now.time }
    {
        self.time
    }

    /// The values.
    pub fn values(&self) -> &Values
        ensures { result.now ≡ self.now.values }
    {
        &self.values
    }

    /// The key with these values, written at this moment.
    pub fn with_values(&self, values: Values, time: u64) -> Result<Key, AllocError>
        ensures { IfOk result (λ made. made ≡ record self.now { time = time; values = values }) }
    {
        let name = self.name.clone()?;
        let rare_fields = rare_fields::share(&self.rare_fields)?;
        let descriptor = self.descriptor.clone()?;
        Ok(Key {
            name,
            rare_fields,
            descriptor,
            time,
            values,
        })
    }

    /// The key, written at this moment.
    pub fn with_time(&self, time: u64) -> Result<Key, AllocError>
        ensures { IfOk result (λ made. made ≡ record self.now { time = time }) }
    {
        let values = self.values.clone()?;
        self.with_values(values, time)
    }

    /// The weight of the row: 192, twice the units of its name, its class and descriptor bytes and the weight of its
    /// values; or the greatest number of 64 bits if that is more.
    pub fn weight(&self) -> u64
        ensures { result ≡ min (row_weight self.now) u64.MAX }
    {
        let units = self.name.units().len() as u64;
        let class = self.class().len() as u64;
        let descriptor = self.descriptor.bytes().len() as u64;
        let values = self.values.weight();
        units
            .saturating_mul(2)
            .saturating_add(class)
            .saturating_add(descriptor)
            .saturating_add(values)
            .saturating_add(KEY_WEIGHT)
    }
}

impl Clone for Key {
    ghost is_clone = { λ old copy. copy ≡ old };

    fn clone(&self) -> Result<Key, AllocError>
        ensures { IfOk result (λ copy. copy ≡ self.now) }
    {
        let values = self.values.clone()?;
        self.with_values(values, self.time)
    }
}
