//! Descriptors that were read, each kept once however many keys name its security cell.
ghost use Rattle.std.specs.Prelude.{◌≡◌, ◌≢◌, ℕ, List, [], ◌∷◌, true, false, IfOk, IfErr, IsSome, Some, None};
ghost use Rattle.hive_load_parts.specs.Descriptors.{descriptor_in};
ghost use Rattle.hive_load_parts.specs.CellReads.{marks_of};

use crate::cells::is_marked;
use crate::flags::Flags;
use reg_tree_parts::Descriptor;
use std::alloc::{AllocError, Global};
use std::collections::BTreeMap;
use std::marker::Model;

/// Descriptors by the offsets of their security cells. Contracts see the offsets in rising order, each with its bytes.
#[derive(Drop)]
pub struct Descriptors {
    by_offset: BTreeMap<u32, Descriptor>,
}

impl Model for Descriptors {
    ghost use Rattle.std.specs.Prelude.{ℕ, List};
    ghost use Rattle.std.specs.Coded.{coded×, coded_ℕ, coded_list};

    ghost Value = { List (ℕ × List ℕ) };

    ghost coded = { coded_list (coded× coded_ℕ (coded_list coded_ℕ)) };

    ghost view = { λ inside. inside.by_offset.entries };
}

impl Descriptors {
    /// No descriptor was read yet.
    pub fn new(alloc: Global) -> Descriptors
        ensures { result ≡ [] }
    {
        Descriptors {
            by_offset: BTreeMap::new(alloc),
        }
    }

    /// The descriptor of the security cell at an offset, if it is kept. It shares the bytes.
    pub(crate) fn get(&self, at: u32) -> Result<Option<Descriptor>, AllocError>
        ensures { IfOk result (λ found. found ≡ descriptor_in self.now at) }
    {
        match self.by_offset.get(&at) {
            Some(descriptor) => Ok(Some(descriptor.clone()?)),
            None => Ok(None),
        }
    }

    /// Keeps the descriptor of the security cell at an offset, for which none is kept.
    pub(crate) fn keep(&mut self, at: u32, descriptor: Descriptor) -> Result<(), AllocError>
        requires { descriptor_in self.old at ≡ None }
        ensures here { IfOk result (λ _. descriptor_in self.new at ≡ Some descriptor) }
        ensures others { IfOk result (λ _. (other : ℕ) → other ≢ at →
            descriptor_in self.new other ≡ descriptor_in self.old other) }
        ensures refused { IfErr result (λ _. self.new ≡ self.old) }
    {
        match self.by_offset.insert(at, descriptor) {
            Ok(_) => Ok(()),
            Err(failed) => Err(AllocError::from(failed)),
        }
    }

    /// Whether no flag is set at a security cell whose descriptor is kept.
    pub fn are_apart(&self, seen: &Flags) -> bool
        ensures apart { result ≡ true → (at : ℕ) → IsSome (descriptor_in self.now at) →
            marks_of seen.now at ≡ false }
        ensures met { result ≡ false → (at : ℕ) × IsSome (descriptor_in self.now at)
            × (marks_of seen.now at ≡ true) }
    {
        for at in self.by_offset.keys() {
            if is_marked(seen, *at) {
                return false;
            }
        }
        true
    }
}
