//! A commit that a store keeps, and what a value tells of one.
ghost use Rattle.std.specs.Prelude.{◌≡◌, IfSome, is_some, nat_lt, true};
ghost use Rattle.std.specs.List.{list_all};
ghost use Rattle.commit_outcomes.specs.Trees.{commit_of, is_commit_value};
ghost use Rattle.commit_outcomes.specs.CommitLists.{named_commit, number_of_data};

use crate::commit_list::COMMIT_KIND;
use crate::units::unit_of;
use byteorder::{ByteOrder, LittleEndian};
use reg_tree::Value;
use uuid::Uuid;

/// How many bytes the number of a commit has as a value's data.
pub(crate) const NUMBER_BYTES: usize = 8;

/// A commit that a store keeps.
#[derive(Drop)]
pub struct KeptCommit {
    /// Its number.
    pub number: u64,
    /// Its unit of work.
    pub unit: Uuid,
}

/// The number in a value's data, or nothing if these are not eight bytes.
pub(crate) fn number_of(bytes: &[u8]) -> Option<u64>
    ensures number { result ≡ number_of_data bytes.now }
    ensures bytes { IfSome result (λ _. list_all (λ b. nat_lt b 256) bytes.now ≡ true) }
{
    if bytes.len() == NUMBER_BYTES {
        Some(LittleEndian::read_u64(bytes))
    } else {
        None
    }
}

/// The commit that a value tells of, or nothing if it tells of none with a number from 1 to this.
pub(crate) fn commit_in(value: &Value, most: u64) -> Option<KeptCommit>
    ensures is { is_some result ≡ is_commit_value most value.now }
    ensures commit { IfSome result (λ commit. named_commit commit ≡ commit_of value.now) }
{
    let unit = unit_of(&value.name)?;
    let number = number_of(value.data.bytes())?;
    if value.kind == COMMIT_KIND && number >= 1 && number <= most {
        Some(KeptCommit { number, unit })
    } else {
        None
    }
}
