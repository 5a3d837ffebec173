//! What is read of the trees of all hives.
ghost use Rattle.std.specs.Prelude.{◌≡◌, IfOk, IfErr};
ghost use Rattle.reg_names.specs.Names.{folded_path};
ghost use Rattle.reg_tree.specs.Reads.{IsMissing, IsMissingOrNoMemory};
ghost use Rattle.reg_tree.specs.Stamps.{time_in};
ghost use Rattle.reg_tree.specs.TreeLists.{value_in, value_index_in, value_names_in, subkey_index_in, subkeys_in, levels_in, info_in, weight_in};

use super::Trees;
use crate::names::Names;
use crate::tree::Info;
use refusals::Refusal;
use reg_names::{Name, Path};
use reg_tree_parts::Value;
use std::alloc::Global;

impl Trees {
    /// The weight of a hive's tree, or the greatest number of 64 bits if it is more; nothing for a hive that isn't
    /// there.
    pub fn weight(&self, hive: u8) -> Option<u64>
        ensures { result ≡ weight_in self.now hive }
    {
        match self.tree(hive) {
            Some(tree) => Some(tree.weight()),
            None => None,
        }
    }

    /// The value of this name. Refused with `NotFound` exactly if there is no such hive, key or value.
    pub fn get_value(&self, hive: u8, path: &Path, name: &Name) -> Result<&Value, Refusal>
        ensures ok { IfOk result (λ value.
            value_in self.now hive (folded_path path.now) name.now ≡ Some value.now) }
        ensures refused { IfErr result
            (IsMissing (value_in self.now hive (folded_path path.now) name.now)) }
    {
        match self.tree(hive) {
            Some(tree) => tree.get_value(path, name),
            None => Err(Refusal::NotFound),
        }
    }

    /// The value at this index, in the order of names. Refused with `NotFound` exactly if there is no such hive or key,
    /// or the index is past its last value.
    pub fn enum_value(&self, hive: u8, path: &Path, index: usize) -> Result<&Value, Refusal>
        ensures ok { IfOk result (λ value.
            value_index_in self.now hive (folded_path path.now) index ≡ Some value.now) }
        ensures refused { IfErr result
            (IsMissing (value_index_in self.now hive (folded_path path.now) index)) }
    {
        match self.tree(hive) {
            Some(tree) => tree.enum_value(path, index),
            None => Err(Refusal::NotFound),
        }
    }

    /// The name of the subkey at this index, in the order of names. Refused with `NotFound` exactly if there is no such
    /// hive or key, or the index is past its last subkey.
    pub fn enum_key(&self, hive: u8, path: &Path, index: usize) -> Result<&Name, Refusal>
        ensures ok { IfOk result (λ name.
            subkey_index_in self.now hive (folded_path path.now) index ≡ Some name.now) }
        ensures refused { IfErr result
            (IsMissing (subkey_index_in self.now hive (folded_path path.now) index)) }
    {
        match self.tree(hive) {
            Some(tree) => tree.enum_key(path, index),
            None => Err(Refusal::NotFound),
        }
    }

    /// How many subkeys and values the key has, and when it was last written. Refused with `NotFound` exactly if there
    /// is no such hive or key.
    pub fn query_info(&self, hive: u8, path: &Path) -> Result<Info, Refusal>
        ensures ok { IfOk result (λ info.
            info_in self.now hive (folded_path path.now) ≡ Some info) }
        ensures refused { IfErr result (IsMissing (info_in self.now hive (folded_path path.now))) }
    {
        match self.tree(hive) {
            Some(tree) => tree.query_info(path),
            None => Err(Refusal::NotFound),
        }
    }

    /// When the key at this path was last written, or nothing if there is no such hive or key. Takes no memory.
    pub fn time_at(&self, hive: u8, names: &[Name]) -> Option<u64>
        ensures { result ≡ time_in self.now hive (folded_path names.now) }
    {
        match self.tree(hive) {
            Some(tree) => tree.time_at(names),
            None => None,
        }
    }

    /// The names of the key's subkeys, in their order. Refused with `NotFound` exactly if there is no such hive or key,
    /// and with `NoMemory`.
    pub fn subkey_names(&self, alloc: Global, hive: u8, path: &Path) -> Result<Names, Refusal>
        ensures ok { IfOk result (λ names.
            subkeys_in self.now hive (folded_path path.now) ≡ Some names) }
        ensures refused { IfErr result
            (IsMissingOrNoMemory (subkeys_in self.now hive (folded_path path.now))) }
    {
        match self.tree(hive) {
            Some(tree) => tree.subkey_names(alloc, path),
            None => Err(Refusal::NotFound),
        }
    }

    /// The names of the key's values, in their order. Refused with `NotFound` exactly if there is no such hive or key,
    /// and with `NoMemory`.
    pub fn value_names(&self, alloc: Global, hive: u8, path: &Path) -> Result<Names, Refusal>
        ensures ok { IfOk result (λ names.
            value_names_in self.now hive (folded_path path.now) ≡ Some names) }
        ensures refused { IfErr result
            (IsMissingOrNoMemory (value_names_in self.now hive (folded_path path.now))) }
    {
        match self.tree(hive) {
            Some(tree) => tree.value_names(alloc, path),
            None => Err(Refusal::NotFound),
        }
    }

    /// How many keys are missing on the way to this path, its own included: what a creation would make. Nothing
    /// for a hive that isn't there.
    pub fn missing_levels(&self, hive: u8, path: &Path) -> Option<usize>
        ensures { result ≡ levels_in self.now hive (folded_path path.now) }
    {
        match self.tree(hive) {
            Some(tree) => Some(tree.missing_levels(path)),
            None => None,
        }
    }
}
