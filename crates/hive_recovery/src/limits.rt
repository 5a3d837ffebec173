//! Limits of what is applied, by numbers of entries.
ghost use Rattle.std.specs.Prelude.{◌≡◌};
ghost use Rattle.hive_recovery.specs.Limits.{reach_of, is_beyond, is_first, is_within};

use crate::sequence::is_below;
use base_block::SequenceNumber;

/// Limits of what is applied to a hive that wasn't closed cleanly.
#[derive(Clone, Copy)]
pub struct RecoveryLimits {
    /// The number that the first entry has to have. If none is told, it is the hive's own second number.
    pub from: Option<SequenceNumber>,
    /// No entry above this number is applied, nor one that follows such an entry in its log.
    pub to: Option<SequenceNumber>,
}

/// The numbers of entries that are applied to a hive.
#[derive(Clone, Copy)]
pub struct Reach {
    /// That of the first.
    pub from: SequenceNumber,
    /// The greatest one that the last may have.
    pub to: Option<SequenceNumber>,
}

impl RecoveryLimits {
    /// Limits that leave nothing out.
    pub const NONE: RecoveryLimits = RecoveryLimits {
        from: None,
        to: None,
    };

    /// The numbers of entries that are applied to a hive with this second number.
    pub fn reach(self, own: SequenceNumber) -> Reach
        ensures { result ≡ reach_of self own }
    {
        let from = match self.from {
            Some(number) => number,
            None => own,
        };
        Reach { from, to: self.to }
    }

    /// Whether what has a number may be applied alone: it is the first one, if one is told, and not above the greatest.
    pub fn allow(self, number: SequenceNumber) -> bool
        ensures { result ≡ is_within self number.0 }
    {
        is_first(self.from, number) && !is_beyond(self.to, number)
    }
}

// whether a number is the first one, if one is told
fn is_first(first: Option<SequenceNumber>, number: SequenceNumber) -> bool
    ensures { result ≡ is_first first number.0 }
{
    match first {
        Some(first) => first == number,
        None => true,
    }
}

/// Whether a number is above the greatest one, if there is one.
pub(crate) fn is_beyond(most: Option<SequenceNumber>, number: SequenceNumber) -> bool
    ensures { result ≡ is_beyond most number.0 }
{
    match most {
        Some(most) => is_below(most, number),
        None => false,
    }
}
