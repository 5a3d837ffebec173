//! Things by the numbers that a script gave them.
ghost use Rattle.std.specs.Prelude.{◌≡◌, ◌≢◌, ℕ, true, None, OnOk, is_some};
ghost use Rattle.registry_lines.specs.Slots.{HasSlot, SameItems, PutsItem, TakesItem, item_at};

use std::alloc::{AllocError, Global};
use std::collections::BTreeMap;

/// Things by numbers. A number has room here before a thing is put there, so that putting takes no memory.
#[derive(Drop)]
pub struct Slots<T: Drop> {
    items: BTreeMap<u32, Option<T>>,
}

impl<T: Drop> Slots<T> {
    /// No number has anything.
    pub fn new(alloc: Global) -> Slots<T>
        ensures { (number : ℕ) → item_at result number ≡ None }
    {
        Slots {
            items: BTreeMap::new(alloc),
        }
    }

    /// Whether no number has room, and so none has anything.
    pub fn is_empty(&self) -> bool
        ensures { result ≡ true → (number : ℕ) → item_at self.now number ≡ None }
    {
        self.items.is_empty()
    }

    /// Whether there is a thing of this number.
    pub fn has(&self, number: u32) -> bool
        ensures { result ≡ is_some (item_at self.now number) }
    {
        match self.items.get(&number) {
            Some(slot) => slot.is_some(),
            None => false,
        }
    }

    /// Makes room for a thing of this number. Each thing stays.
    pub fn make_room(&mut self, number: u32) -> Result<(), AllocError>
        ensures room { OnOk result (HasSlot self.new number) }
        ensures same { SameItems (item_at self.old) (item_at self.new) }
    {
        if !self.items.contains_key(&number) {
            self.items.insert(number, None)?;
        }
        Ok(())
    }

    /// Puts a thing of this number here, in the place of one that is there.
    pub fn put(&mut self, number: u32, item: T)
        requires { HasSlot self.old number }
        ensures { PutsItem (item_at self.old) (item_at self.new) number item }
    {
        match self.items.insert(number, Some(item)) {
            Ok(_) => {}
            // a number that has room takes no memory
            Err(_) => unreachable!(),
        }
    }

    /// Takes out the thing of this number, and its room. Other numbers keep theirs.
    pub fn take(&mut self, number: u32) -> Option<T>
        ensures taken { result ≡ item_at self.old number }
        ensures left { TakesItem (item_at self.old) (item_at self.new) number }
        ensures rooms { (other : ℕ) → other ≢ number → HasSlot self.old other → HasSlot self.new other }
    {
        self.items.remove(&number).flatten()
    }
}
