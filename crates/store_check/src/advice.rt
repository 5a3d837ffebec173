//! What to do about a store that isn't opened.
ghost use Rattle.std.specs.Prelude.{◌≡◌};
ghost use Rattle.store_check.specs.Advice.{advice};

use refusals::Refusal;

/// What to do about a store that is refused for this reason.
pub fn advice(refusal: Refusal) -> &'static str
    ensures { result.now ≡ advice refusal }
{
    match refusal {
        Refusal::NoMemory => "memory was wanting: give more and check again",
        Refusal::DiskFault => "a file can't be read or synced: check permissions and the disk",
        Refusal::JournalDamaged =>
            "no store, or a damaged journal: check the folder, or restore a backup",
        _ => "a damaged hive: check its file alone, and restore a backup",
    }
}
