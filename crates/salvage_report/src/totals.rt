//! How much was printed and left out.
ghost use Rattle.std.specs.Prelude.{◌≡◌, ◌==◌, ◌&&◌};
ghost use Rattle.salvage_report.specs.Told.{no_totals, totals_with_key, totals_with_loss, totals_with_unshown};

use hive_salvage::{Loss, Part};
use reg_tree_parts::Key;

/// How many keys and values were printed, and how much was left out. A number that would pass 64 bits stays at the greatest.
#[derive(Clone, Copy, Debug, PartialEq, Eq)]
pub struct Totals {
    /// Keys that were printed.
    pub keys: u64,
    /// Their values.
    pub values: u64,
    /// Keys that a list names and that aren't read.
    pub lost_keys: u64,
    /// Values that a list names and that aren't read.
    pub lost_values: u64,
    /// Lists, numbers, classes and descriptors that aren't read.
    pub lost_parts: u64,
}

impl Totals {
    /// Nothing yet.
    pub fn none() -> Totals
        ensures { result ≡ no_totals }
    {
        Totals {
            keys: 0,
            values: 0,
            lost_keys: 0,
            lost_values: 0,
            lost_parts: 0,
        }
    }

    /// Whether nothing was left out.
    pub fn is_whole(&self) -> bool
        ensures { result ≡ (self.now.lost_keys == 0 && (self.now.lost_values == 0 && self.now.lost_parts == 0)) }
    {
        self.lost_keys == 0 && (self.lost_values == 0 && self.lost_parts == 0)
    }

    // counts a key that is printed
    pub(crate) fn count_key(&mut self, key: &Key)
        ensures { self.new ≡ totals_with_key self.old key.now }
    {
        self.keys = self.keys.saturating_add(1);
        self.values = self.values.saturating_add(key.values().len() as u64);
    }

    // counts a key that is read, but not printed
    pub(crate) fn count_unshown(&mut self)
        ensures { self.new ≡ totals_with_unshown self.old }
    {
        self.lost_keys = self.lost_keys.saturating_add(1);
    }

    // counts a loss
    pub(crate) fn count_loss(&mut self, loss: &Loss)
        ensures { self.new ≡ totals_with_loss self.old loss.now.part }
    {
        match loss.part {
            Part::Subkey { .. } => self.lost_keys = self.lost_keys.saturating_add(1),
            Part::Value(_) => self.lost_values = self.lost_values.saturating_add(1),
            _ => self.lost_parts = self.lost_parts.saturating_add(1),
        }
    }
}
