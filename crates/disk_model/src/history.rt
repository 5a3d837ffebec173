//! What a disk in memory was at each earlier moment. Only contracts read it, and it takes no memory.
ghost use Rattle.std.specs.Prelude.{◌≡◌, ◌+◌, [], ◌∷◌, cond};

use crate::mem_file::MemFile;
use std::snapshot::Snapshot;

#[derive(Drop)]
pub(crate) enum DiskHistory {
    Begun,
    /// What was before, the files then, and whether the call that ended that moment has failed.
    Then(Snapshot<DiskHistory>, Snapshot<Vec<MemFile>>, bool),
}

impl DiskHistory {
    ghost use Rattle.disk_model.specs.MemDisk.{earlier, failed_calls};

    /// One moment more, in which the files were these.
    pub fn then(&mut self, files: Snapshot<Vec<MemFile>>, has_failed: bool)
        ensures moments { earlier self.new ≡ files.value.items ∷ earlier self.old }
        ensures failures { failed_calls self.new
            ≡ cond has_failed (failed_calls self.old + 1) (failed_calls self.old) }
    {
        *self = DiskHistory::Then(Snapshot::of(self), files, has_failed);
    }
}
