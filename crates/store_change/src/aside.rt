//! What a commit adds to the operations of its transaction.
ghost use Rattle.std.specs.Prelude.{◌≡◌, ◌≤◌, nat_lt, if◌then◌else◌};
ghost use Rattle.store_model.specs.declared.room.TheConstants.{MOST_OUTCOME_BYTES};
ghost use Rattle.store_model.specs.Machine.{outcome_bytes};

use disk_model::Disk;
use engine::Engine;
use store_model::room::MOST_OUTCOME_BYTES;

/// How many bytes of a change are set aside for what a commit adds to its operations: 100 if the store keeps outcomes of
/// commits, else none. An operation that makes a change longer than 4,194,304 bytes with these is refused with
/// `TooLarge`.
#[tactic(auto, using(store_model::proofs::TreeCounts::all_long))]
pub fn bytes_aside<D: Disk>(engine: &Engine<D>) -> u64
    ensures aside { result ≡ outcome_bytes engine.now.machine }
    ensures few { result ≤ MOST_OUTCOME_BYTES }
{
    bytes_aside_in(usize::from(engine.hives()), engine.trees().len())
}

/// The same of a store with so many trees, if calls name so many hives of them: it keeps outcomes if it has more trees.
pub fn bytes_aside_in(hives: usize, trees: usize) -> u64
    ensures aside { result ≡ (if nat_lt hives trees then MOST_OUTCOME_BYTES else 0) }
    ensures few { result ≤ MOST_OUTCOME_BYTES }
{
    if hives < trees { MOST_OUTCOME_BYTES } else { 0 }
}
