//! How much of its history a part has used.
ghost use Rattle.std.specs.Prelude.{◌≡◌, ◌≤◌, ◌*◌, ◌-◌, true};

use crate::parts::PartStart;

/// When the history of a part is folded that no line folds.
#[derive(Drop)]
pub struct HistoryUse {
    /// The number of the last change before the part.
    pub first: u64,
    /// How many changes the history may have.
    pub limit: u64,
    // from how many changes on a fold is tried
    next_try: u64,
}

impl HistoryUse {
    /// The history of a part that begins.
    pub fn new(start: PartStart) -> HistoryUse
        ensures first { result.first ≡ start.number }
        ensures limit { result.limit ≡ start.limit }
    {
        HistoryUse {
            first: start.number,
            limit: start.limit,
            next_try: 0,
        }
    }

    /// Whether three quarters of the history are used by the change of this number, and a fold is to be tried.
    pub fn is_due(&self, number: u64) -> bool
        ensures { result ≡ true → 3 * self.now.limit ≤ 4 * (number - self.now.first) }
    {
        let used = number.saturating_sub(self.first);
        used >= self.limit - self.limit / 4 && used >= self.next_try
    }

    /// A fold was refused at this number: another one is tried only when half of what is left then is used, for each
    /// takes a flush.
    pub fn put_off(&mut self, number: u64)
        ensures { (self.new.first ≡ self.old.first) × (self.new.limit ≡ self.old.limit) }
    {
        let used = number.saturating_sub(self.first);
        let left = self.limit.saturating_sub(used);
        self.next_try = used.saturating_add(left / 2);
    }
}
