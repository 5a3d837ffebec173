//! What a hive's files hold, whatever a crash leaves of them, and what is in memory beside: laws.
ghost use Rattle.std.specs.Prelude.{◌≡◌, ◌≤◌, List, ℕ};
ghost use Rattle.crash_model.specs.Memory.{IsOfMemory};
ghost use Rattle.crash_model.specs.Promises.{HiveOn};
ghost use Rattle.reg_tree.specs.Maps.{TreeMap};
ghost use Rattle.disk_model.specs.FileState.{FileState, IsSound, Leaves};
ghost use Rattle.disk_model.specs.Sector.{IsHonest};
ghost use Rattle.hive_flush.specs.Decoders.{HiveFilesHold};
ghost use Rattle.hive_flush.specs.HiveStates.{IsBroken, FilesMatchHive, file_choice, memory_of, store_of};
ghost use Rattle.hive_flush.specs.declared.hive.HiveFile.{HiveFile};

use reg_tree::Tree;

/// A law of two files that are as a hive's stage says, and of what a crash may leave of both, with an honest first
/// sector of the primary file. That holds what is surely durable or what is on its way, as a hive of its store.
pub fn files_hold()
    ensures { (file : HiveFile) (primary log : FileState) → FilesMatchHive file primary log →
        HiveOn (HiveFilesHold (store_of file)) (file_choice file)
        (λ c. Leaves primary c × IsHonest primary c) (Leaves log) }
{
    hive_flush_model::laws::crash_leaves_choice::<Tree>();
}

/// A law of two files that are as a hive's stage says. What a read gives of the primary file has an honest first
/// sector, as long as the device hasn't failed in a step of the hive.
pub fn reads_are_honest()
    ensures { (file : HiveFile) (primary log : FileState) → IsSound primary → ¬ (IsBroken file) →
        FilesMatchHive file primary log → IsHonest primary primary.seen }
{
    hive_flush_model::laws::reads_are_honest::<Tree>();
}

/// A law: two files hold at most one tree and number as a hive of a store.
pub fn at_most_one_tree()
    ensures { (store primary log : List ℕ) (x y : TreeMap × ℕ) →
        HiveFilesHold store primary log x → HiveFilesHold store primary log y → x ≡ y }
{
    hive_records::laws::one_tree();
}

/// A law: what is on its way to a hive's files, if anything, is what is in memory. Its number isn't below the number of
/// what is durable.
pub fn memory_is_ahead()
    ensures own { (file : HiveFile) → IsOfMemory (file_choice file) (memory_of file) }
    ensures ahead { (file : HiveFile) → (file_choice file).now.1 ≤ (memory_of file).1 }
{}
