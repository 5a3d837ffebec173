//! What sets a flusher's pace, and is told of its steps.

use disk_model::Progress;

/// What sets a flusher's pace, and is told of its turns, while no lock is held. The flusher goes on when a call returns.
///
/// Commits don't need the flusher, and each of its steps keeps them waiting. The flush of a hive takes in all that it lacks
/// in one step. So the more it lacks, the longer they wait then.
pub trait Gate {
    /// How many bytes of the journal's room are used before the flusher begins, at first and after a trim, unless it is
    /// told to stop.
    fn room(&self) -> u64 {
        0
    }

    /// How many are used before it begins the flush of another hive, if `used` are as it has ended that of one.
    fn room_after(&self, _used: u64) -> u64 {
        self.room()
    }

    /// A turn is about to begin.
    fn before_turn(&self) {}

    /// A step was made.
    fn after_step(&self, progress: Progress);
}

/// A gate that lets the flusher go on at once.
#[derive(Clone, Copy)]
pub struct OpenGate;

impl Gate for OpenGate {
    fn after_step(&self, _progress: Progress) {}
}
