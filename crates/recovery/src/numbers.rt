//! The number of a store: that of the journal's last change, or else the greatest number of a hive.
ghost use Rattle.std.specs.Prelude.{◌≡◌, ℕ, ◌<◌, ◌≤◌, None, Some, length, map, slice_get, IfOk};
ghost use Rattle.hive_flush.specs.HiveStates.{file_choice};
ghost use Rattle.hive_flush.specs.declared.hive.HiveFile.{HiveFile};
ghost use Rattle.recovery.specs.Reading.{IsNumber, greatest};

use hive_flush::HiveFile;
use std::alloc::{AllocError, Global};

/// The number of a store: `last`, the number of its journal's last change, if it is above 0; else
/// the hives' greatest.
pub(crate) fn number_of(last: u64, hives: &[HiveFile]) -> u64
    ensures { IsNumber last hives.now result }
{
    if last > 0 {
        last
    } else {
        greatest_number(hives)
    }
}

// the greatest number in the hives' files; 0 if there is no hive
fn greatest_number(hives: &[HiveFile]) -> u64
    ensures { result ≡ greatest hives.now }
{
    let mut greatest = 0;
    for hive in hives {
        greatest = hive.applied().max(greatest);
    }
    greatest
}

/// Each hive's own number, in their order.
pub(crate) fn numbers_of(alloc: Global, hives: &[HiveFile]) -> Result<Vec<u64>, AllocError>
    ensures { IfOk result (λ numbers. numbers.items ≡ map (λ hive. (file_choice hive).now.1) hives.now) }
{
    let mut numbers = Vec::with_capacity(alloc, hives.len())?;
    for hive in hives {
        numbers.push_reserved(hive.applied());
    }
    Ok(numbers)
}

/// The first hive with a number above a limit.
pub(crate) fn first_above(hives: &[HiveFile], limit: u64) -> Option<u8>
    requires few { length hives.now ≤ 256 }
    ensures none { result ≡ None → (i : ℕ) (hive : HiveFile) → slice_get hives.now i ≡ Some hive →
        (file_choice hive).now.1 ≤ limit }
    ensures some { (place : ℕ) → result ≡ Some place → (place < length hives.now) ×
        ((hive : HiveFile) → slice_get hives.now place ≡ Some hive →
        limit < (file_choice hive).now.1) }
{
    let place = hives.iter().position(|hive| hive.applied() > limit)?;
    Some(place as u8)
}
