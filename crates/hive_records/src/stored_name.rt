//! Names as they lie in records.
ghost use Rattle.std.specs.Prelude.{◌≡◌, ◌<◌, ◌==◌, length, slice_index};
ghost use Rattle.std.specs.List.{list_any};
ghost use Rattle.hive_records.specs.Names.{pairs};

use crate::numbers::u16_at;

/// A name as it lies in a record: a byte a unit, which is Latin-1, or two, the lower first.
#[derive(Drop)]
pub struct StoredName<'a> {
    /// Whether a unit has one byte.
    pub latin: bool,
    /// The bytes of the name.
    pub bytes: &'a [u8],
}

impl StoredName<'_> {
    ghost use Rattle.hive_records.specs.Heads.{units_in, is_even};

    /// How many units the name has; a last byte alone is none.
    pub fn len(&self) -> usize
        ensures { result ≡ length (units_in self.now.latin self.now.bytes.now) }
    {
        if self.latin {
            self.bytes.len()
        } else {
            self.bytes.len() / 2
        }
    }

    /// Whether the name has no unit.
    pub fn is_empty(&self) -> bool
        ensures { result ≡ (length (units_in self.now.latin self.now.bytes.now) == 0) }
    {
        self.len() == 0
    }

    /// The unit at an index.
    pub fn unit(&self, place: usize) -> u16
        requires { place < length (units_in self.now.latin self.now.bytes.now) }
        ensures { result ≡ slice_index (units_in self.now.latin self.now.bytes.now) place }
    {
        if self.latin {
            u16::from(self.bytes[place])
        } else {
            pair_at(self.bytes, place)
        }
    }

    /// Whether a unit is in the name.
    pub fn contains(&self, unit: u16) -> bool
        ensures { result ≡ list_any (λ u. u == unit) (units_in self.now.latin self.now.bytes.now) }
    {
        for place in 0..self.len() {
            if self.unit(place) == unit {
                return true;
            }
        }
        false
    }

    // whether the bytes decode to whole units
    pub(crate) fn is_even(&self) -> bool
        ensures { result ≡ is_even self.now.latin self.now.bytes.now }
    {
        self.latin || self.bytes.len().is_multiple_of(2)
    }
}

// the unit of two bytes at an index
fn pair_at(bytes: &[u8], place: usize) -> u16
    requires { place < length (pairs bytes.now) }
    ensures { result ≡ slice_index (pairs bytes.now) place }
{
    u16_at(bytes, 2 * place)
}
