//! A count of the cells that were looked at.
ghost use Rattle.std.specs.Prelude.{◌≡◌, ℕ, ◌+◌, ◌-◌, ◌^◌, min};

use std::marker::Model;

/// How many cells were looked at. [`Image::cell`](crate::Image::cell) alone raises it, by one a call, up to
/// the greatest number of 64 bits.
#[derive(Drop)]
pub struct Looks {
    count: u64,
}

impl Model for Looks {
    ghost Value = { ℕ };

    ghost view = { λ looks. looks.count };
}

impl Looks {
    /// No look was taken yet.
    pub fn new() -> Looks
        ensures { result ≡ 0 }
    {
        Looks { count: 0 }
    }

    /// The looks that were taken.
    pub fn count(&self) -> u64
        ensures { result ≡ self.now }
    {
        self.count
    }

    // counts one look more
    pub(crate) fn raise(&mut self)
        ensures { self.new ≡ min (self.old + 1) (2 ^ 64 - 1) }
    {
        self.count = self.count.saturating_add(1);
    }
}
