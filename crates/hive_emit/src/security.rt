//! Security cells: one for each distinct descriptor of a tree.
ghost use Rattle.std.specs.Prelude.{◌≡◌, ◌⊎◌, ◌+◌, ◌-◌, ◌^◌, ◌<◌, ◌≤◌, ℕ, List, [], length, IsTrue, IfErr, OnOk, IfSome, IfNone};
ghost use Rattle.hive_emit.specs.CellWrites.{Makes, HasFreeRoomAt, Uses, WriteRefused};
ghost use Rattle.hive_emit.specs.EmittedKeys.{Has, IsOffsetOf, AreShort, IsCounted, AreCounted, CanPutKeys, Keeps, KeepsSecurityCells};
ghost use Rattle.hive_emit.specs.Forms.{has_descriptor, keys_with, behind};
ghost use Rattle.hive_emit.specs.SecurityTables.{HasDescriptorAt, tallies, one_with, Counts, AreSome, AreApart, planned_offset, ArePlanned};
ghost use Rattle.hive_emit.specs.KeyCosts.{descriptor_cost, row_security_cost, descriptors_cost, security_cost, securities_cost};

use crate::cell_costs::cell_cost;
use crate::cells::{NIL, put_cell};
use hive_cells::Image;
use hive_records::put_security;
use refusals::Refusal;
use reg_tree_parts::{Descriptor, Key, Node};
use std::alloc::{AllocError, Global};
use std::collections::BTreeMap;
use std::marker::Model;

/// A security cell: its descriptor, how many keys name it, and its offset once it is put.
#[derive(Drop)]
pub(crate) struct SecurityEntry {
    /// The descriptor.
    pub descriptor: Descriptor,
    /// How many keys have it.
    pub count: u32,
    /// Where its cell is.
    pub at: u32,
    /// Where the cell after it in the ring is.
    pub next: u32,
    /// Where the cell ahead of it is.
    pub previous: u32,
}

/// The security cells of a tree, with the index of each by its descriptor.
///
/// Contracts see them as the list of their cells.
#[derive(Drop)]
pub(crate) struct SecurityTable {
    cells: Vec<SecurityEntry>,
    indexes: BTreeMap<Vec<u8>, usize>,
}

impl Model for SecurityTable {
    ghost use Rattle.std.specs.Prelude.{List};
    ghost use Rattle.hive_emit.specs.declared.security.SecurityEntry.{SecurityEntry};
    ghost use Rattle.hive_emit.specs.SecurityTables.{AreFiled};

    ghost Value = { List SecurityEntry };

    ghost view = { λ inside. inside.cells.items };

    ghost invariant = { λ inside. AreFiled inside.indexes.entries inside.cells.items };
}

impl SecurityTable {
    /// None.
    pub(crate) fn new(alloc: Global) -> SecurityTable
        ensures { result ≡ [] }
    {
        SecurityTable {
            cells: Vec::new(alloc),
            indexes: BTreeMap::new(alloc),
        }
    }

    // whether a descriptor is kept at an index
    fn is_at(&self, place: usize, descriptor: &[u8]) -> bool
        ensures yes { IsTrue result → HasDescriptorAt self.now place descriptor.now }
        ensures no { HasDescriptorAt self.now place descriptor.now → IsTrue result }
    {
        place < self.cells.len() && self.cells[place].descriptor.bytes() == descriptor
    }

    // the index at which a descriptor is kept
    fn place(&self, descriptor: &[u8]) -> Option<usize>
        ensures kept { IfSome result (λ place. HasDescriptorAt self.now place descriptor.now) }
        ensures none { IfNone result (Has self.now descriptor.now → ⊥) }
    {
        let Some(place) = self.indexes.get(descriptor) else {
            return None;
        };
        if self.is_at(*place, descriptor) {
            Some(*place)
        } else {
            None
        }
    }

    // counts a key with a descriptor that is kept at an index
    fn count_again(&mut self, place: usize)
        requires { place < length self.old }
        ensures keeps { Keeps self.old self.new }
        ensures short { AreShort self.old → AreShort self.new }
        ensures cost { securities_cost self.new ≡ securities_cost self.old }
        ensures counts { (descriptor : List ℕ) → HasDescriptorAt self.old place descriptor →
            Counts (tallies self.old) (tallies self.new) 1 (λ d. one_with d descriptor) }
        ensures some { AreSome (tallies self.old) → AreSome (tallies self.new) }
    {
        self.cells[place].count = self.cells[place].count.saturating_add(1);
    }

    // keeps a descriptor that a first key has
    fn add(&mut self, alloc: Global, descriptor: &Descriptor) -> Result<(), AllocError>
        requires new { Has self.old descriptor.now → ⊥ }
        ensures counted { OnOk result (Has self.new descriptor.now) }
        ensures keeps { OnOk result (Keeps self.old self.new) }
        ensures short { OnOk result (length descriptor.now < 2 ^ 32 → AreShort self.old
            → AreShort self.new) }
        ensures cost { OnOk result (securities_cost self.new ≤ securities_cost self.old
            + descriptor_cost (length descriptor.now)) }
        ensures counts { OnOk result (Counts (tallies self.old) (tallies self.new) 1
            (λ d. one_with d descriptor.now)) }
        ensures some { OnOk result (0 < length descriptor.now → AreSome (tallies self.old) →
            AreSome (tallies self.new)) }
    {
        let bytes = Vec::from_slice(alloc, descriptor.bytes())?;
        self.indexes.insert(bytes, self.cells.len())?;
        self.cells.push(SecurityEntry {
            descriptor: descriptor.clone()?,
            count: 1,
            at: NIL,
            next: NIL,
            previous: NIL,
        })?;
        Ok(())
    }

    // counts a key with a descriptor
    fn count(&mut self, alloc: Global, descriptor: &Descriptor) -> Result<(), AllocError>
        ensures counted { OnOk result (Has self.new descriptor.now) }
        ensures keeps { OnOk result (Keeps self.old self.new) }
        ensures short { OnOk result (length descriptor.now < 2 ^ 32 → AreShort self.old
            → AreShort self.new) }
        ensures cost { OnOk result (securities_cost self.new ≤ securities_cost self.old
            + descriptor_cost (length descriptor.now)) }
        ensures counts { OnOk result (Counts (tallies self.old) (tallies self.new) 1
            (λ d. one_with d descriptor.now)) }
        ensures some { OnOk result (0 < length descriptor.now → AreSome (tallies self.old) →
            AreSome (tallies self.new)) }
    {
        match self.place(descriptor.bytes()) {
            Some(place) => {
                self.count_again(place);
                Ok(())
            }
            None => self.add(alloc, descriptor),
        }
    }

    // counts a key
    #[inline(never)] // so that each level takes little stack
    fn count_key(&mut self, alloc: Global, key: &Key) -> Result<(), AllocError>
        ensures counted { OnOk result (IsCounted self.new key.now) }
        ensures keeps { OnOk result (Keeps self.old self.new) }
        ensures short { OnOk result (length key.now.descriptor < 2 ^ 32 → AreShort self.old
            → AreShort self.new) }
        ensures cost { OnOk result (securities_cost self.new ≤ securities_cost self.old
            + row_security_cost key.now) }
        ensures counts { OnOk result (Counts (tallies self.old) (tallies self.new) 1
            (λ d. has_descriptor d key.now)) }
        ensures some { OnOk result (AreSome (tallies self.old) → AreSome (tallies self.new)) }
    {
        if key.descriptor().bytes().is_empty() {
            return Ok(());
        }
        self.count(alloc, key.descriptor())?;
        Ok(())
    }

    /// Counts a key and all below it.
    pub(crate) fn count_all(&mut self, alloc: Global, node: &Node) -> Result<(), AllocError>
        requires can { CanPutKeys node.now }
        ensures counted { OnOk result (AreCounted self.new node.now) }
        ensures keeps { OnOk result (Keeps self.old self.new) }
        ensures short { OnOk result (AreShort self.old → AreShort self.new) }
        ensures cost { OnOk result (securities_cost self.new ≤ securities_cost self.old
            + descriptors_cost node.now) }
        ensures counts { OnOk result (Counts (tallies self.old) (tallies self.new)
            (length node.now) (λ d. keys_with d node.now)) }
        ensures some { OnOk result (AreSome (tallies self.old) → AreSome (tallies self.new)) }
    {
        self.count_key(alloc, node.key())?;
        for index in 0..node.subkey_count() {
            let Some(subkey) = node.subkey_at(index) else {
                unreachable!();
            };
            self.count_all(alloc, subkey)?;
        }
        Ok(())
    }

    /// The offset of the cell of a descriptor that was counted and put; the offset of none for an empty descriptor.
    pub(crate) fn offset(&self, descriptor: &[u8]) -> u32
        requires { (descriptor.now ≡ []) ⊎ Has self.now descriptor.now }
        ensures { IsOffsetOf self.now descriptor.now result }
    {
        if descriptor.is_empty() {
            return NIL;
        }
        match self.place(descriptor) {
            Some(place) => self.cells[place].at,
            None => unreachable!(),
        }
    }

    /// How many bytes all the cells have.
    pub(crate) fn cost(&self) -> usize
        requires { securities_cost self.now < 2 ^ 32 }
        ensures { result ≡ securities_cost self.now }
    {
        let mut sum = 0;
        for security in &self.cells {
            sum += security_len(security);
        }
        sum
    }

    /// Puts the cells one after the other, each linked in a ring with the cells before and after it. The links are
    /// right if the image is new and has room for all cells in its first bin. They are not read.
    pub(crate) fn put(&mut self, image: &mut Image, encoding: &mut Vec<u8>) -> Result<(), Refusal>
        requires short { AreShort self.old }
        requires fits { securities_cost self.old < 2 ^ 31 }
        ensures held { OnOk result (Makes image.old.bytes image.new.bytes (KeepsSecurityCells self.new)) }
        ensures keeps { OnOk result (Keeps self.old self.new) }
        ensures same { OnOk result (tallies self.new ≡ tallies self.old) }
        ensures apart { OnOk result (AreApart (tallies self.new)) }
        ensures ring { OnOk result ((more : ℕ) → HasFreeRoomAt image.old.bytes 32
            (securities_cost self.old + more) →
            ArePlanned self.old self.new (length self.old)) }
        ensures uses { OnOk result (Uses image.old.bytes image.new.bytes
            (securities_cost self.old)) }
        ensures stops { IfErr result (WriteRefused image.old.bytes (securities_cost self.old)) }
    {
        let count = self.cells.len();
        let mut previous = self.last_at();
        let mut next = FIRST;
        for index in 0..count {
            next = self.next_at(index, next);
            let security = &self.cells[index];
            encoding.clear();
            put_security(
                encoding,
                next,
                previous,
                security.count,
                security.descriptor.bytes(),
            )?;
            let at = match put_cell(image, encoding, encoding.len()) {
                Ok(at) => at,
                Err(why) => return Err(why),
            };
            let security = &mut self.cells[index];
            security.at = at;
            security.next = next;
            security.previous = previous;
            previous = at;
        }
        Ok(())
    }

    // the offset that the last cell is to have
    fn last_at(&self) -> u32
        requires { securities_cost self.now < 2 ^ 31 }
        ensures { 0 < length self.now → result ≡ planned_offset self.now (length self.now - 1) }
    {
        match self.cells.last() {
            Some(last) => FIRST
                .wrapping_add(self.cost() as u32)
                .wrapping_sub(security_len(last) as u32),
            None => NIL,
        }
    }

    // the offset of the cell after the one at an index, from the offset of that cell; the first cell comes after the
    // last
    fn next_at(&self, index: usize, at: u32) -> u32
        requires { securities_cost self.now < 2 ^ 31 }
        ensures { index < length self.now → at ≡ planned_offset self.now index →
            result ≡ planned_offset self.now (behind (length self.now) index) }
    {
        match self.cells.get(index) {
            Some(security) => {
                if index.wrapping_add(1) == self.cells.len() {
                    FIRST
                } else {
                    at.wrapping_add(security_len(security) as u32)
                }
            }
            None => FIRST,
        }
    }
}

// the bytes of a security cell's data before its descriptor
const BEFORE: usize = 20;

// where the first cell of an image is
const FIRST: u32 = 32;

// how many bytes a security cell has
fn security_len(security: &SecurityEntry) -> usize
    requires { security_cost security.now < 2 ^ 32 }
    ensures { result ≡ security_cost security.now }
{
    cell_cost(BEFORE + security.descriptor.bytes().len())
}
