//! The flusher's pace beside a script.
use disk_model::Progress;
use flusher::Gate;
use std::sync::{OnceLock, Wait};

/// A gate that is closed while a script's lines are read, and open from then on.
///
/// Each flush of a hive writes its whole image anew: a flusher beside the lines would write it again for each few
/// changes. And a step of the journal between two lines would split a batch. Once a flush costs what its change costs,
/// the gate opens for good.
pub struct EndOfLines<'a, R> {
    rt: &'a R,
    ended: OnceLock<()>,
}

impl<'a, R> Drop for EndOfLines<'a, R> {
    fn drop(self) {
        let EndOfLines { rt: _, ended: _ } = self;
    }
}

impl<'a, R: Wait> EndOfLines<'a, R> {
    /// A closed gate.
    pub fn new(rt: &'a R) -> EndOfLines<'a, R> {
        EndOfLines {
            rt,
            ended: OnceLock::new(),
        }
    }

    /// The lines have ended. One call opens the gate, and later ones change nothing.
    pub fn open(&self) {
        let _ = self.ended.set(self.rt, ());
    }
}

impl<'a, R: Wait> Gate for EndOfLines<'a, R> {
    fn before_turn(&self) {
        self.ended.wait(self.rt);
    }

    fn after_step(&self, _progress: Progress) {}
}
