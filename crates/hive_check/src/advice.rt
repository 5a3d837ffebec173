//! What to do about a hive's file that isn't whole.
ghost use Rattle.std.specs.Prelude.{◌≡◌};
ghost use Rattle.hive_check.specs.Advice.{advice, damage_advice, file_advice};

use refusals::{Cause, Refusal};

/// What to do about a file that is refused for this reason.
pub fn advice(refusal: Refusal) -> &'static str
    ensures { result.now ≡ advice refusal }
{
    match refusal {
        Refusal::NoMemory => "memory was wanting: give more and check again",
        Refusal::Unsupported =>
            "a version, type or flag that this program doesn't read: use a program that does",
        Refusal::TooLarge => "over a limit of this program: use a program that reads it",
        Refusal::HiveDamaged { hive: _, cause } => advice_on_damage(cause),
        _ => "restore a backup",
    }
}

/// What to do about a file that is refused for this reason, and may be a log by its base block.
pub fn file_advice(is_log: bool, refusal: Refusal) -> &'static str
    ensures { result.now ≡ file_advice is_log refusal }
{
    match (is_log, refusal) {
        (false, _) | (true, Refusal::NoMemory) => advice(refusal),
        (true, _) => "a log, not a hive: check the hive's own file, or `recover` it by its logs",
    }
}

// what to do about damage
fn advice_on_damage(cause: Cause) -> &'static str
    ensures { result.now ≡ damage_advice cause }
{
    match cause {
        Cause::Truncated =>
            "the file ends early: copy it again from its source, or restore a backup",
        Cause::BadBase => "no hive begins here: check which file this is, or restore a backup",
        Cause::NotClean => {
            "not closed: open its store, or `recover` it by its logs; or restore a backup"
        }
        Cause::BadLog => {
            "its logs don't fit: take the hive and all its logs from one moment; or restore a backup"
        }
        _ => "damaged: restore a backup; other programs may read what is left",
    }
}
