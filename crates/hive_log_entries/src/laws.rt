//! What the definitions say, as contracts of functions without effect.
ghost use Rattle.std.specs.Prelude.{◌≡◌, ◌⊎◌, ◌++◌, List, ℕ};
ghost use Rattle.hive_log_entries.specs.Entries.{EntryAt, NoEntryAt};
ghost use Rattle.hive_log_entries.specs.Logs.{EntriesAre};
ghost use Rattle.hive_log_entries.specs.declared.entry_end.EntryEnd.{EntryEnd};
ghost use Rattle.hive_log_entries.specs.declared.entry_end.LogEnd.{LogEnd};

/// At each place of a log an entry stands, or there is a first test that fails; never both, and neither of them twice.
pub fn each_place_is_told()
    ensures some { (log : List ℕ) (at : ℕ) →
        ((entry : List ℕ) × EntryAt log at entry) ⊎ ((why : EntryEnd) × NoEntryAt log at why) }
    ensures either { (log : List ℕ) (at : ℕ) (entry : List ℕ) (why : EntryEnd) →
        EntryAt log at entry → NoEntryAt log at why → ⊥ }
    ensures one { (log : List ℕ) (at : ℕ) (entry other : List ℕ) →
        EntryAt log at entry → EntryAt log at other → entry ≡ other }
    ensures one_end { (log : List ℕ) (at : ℕ) (why other : EntryEnd) →
        NoEntryAt log at why → NoEntryAt log at other → why ≡ other }
{}

/// A log hasn't two lists of entries, nor two ends.
pub fn entries_have_one_reading()
    ensures { (log : List ℕ) (entries others : List (List ℕ)) (ended_at other_at : ℕ) (end other : LogEnd) →
        EntriesAre log entries ended_at end → EntriesAre log others other_at other →
        (entries ≡ others) × (ended_at ≡ other_at) × (end ≡ other) }
{}

/// A log behind which more bytes stand has the entries that it had, and perhaps more. So the entries of a log that is cut are
/// the first of those of the whole log, and what follows the last entry that stands takes none away.
pub fn cut_logs_keep_first_entries()
    ensures { (log more : List ℕ) (entries others : List (List ℕ)) (ended_at other_at : ℕ) (end other : LogEnd) →
        EntriesAre log entries ended_at end → EntriesAre (log ++ more) others other_at other →
        (rest : List (List ℕ)) × (others ≡ entries ++ rest) }
{}
