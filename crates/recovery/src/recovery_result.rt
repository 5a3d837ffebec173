//! What a journal and hives recover together.
ghost use Rattle.std.specs.Prelude.{◌≡◌, ◌⊎◌, ℕ, ◌<◌, List, Some, slice_get, IfOk, IfErr, OnOk};
ghost use Rattle.refusals.specs.declared.refusal.Refusal.TheVariants.{NoMemory};
ghost use Rattle.reg_tree.specs.Maps.{TreeMap};
ghost use Rattle.crash_model.specs.Promises.{top};
ghost use Rattle.commit_journal.specs.Journals.{changes_of, choice_of, store_of};
ghost use Rattle.recovery.specs.Invariant.{InvariantHolds};
ghost use Rattle.recovery.specs.Reading.{AreAtRest, AreOf, AreReplayed, IsOfOutcomes, IsRefusedAsOutcomes};
ghost use Rattle.recovery.specs.Recovered.{IsFileRefusal};
ghost use Rattle.recovery.specs.Refused.{IsWrong};

use crate::found::RecoveredStore;
use crate::numbers::{first_above, number_of};
use crate::store_read::StoreRead;
use commit_journal::Journal;
use commit_outcomes::CommitList;
use refusals::limits::GREATEST_NUMBER;
use refusals::{Cause, Refusal};
use reg_tree::{Tree, Trees};
use std::alloc::Global;

/// What the hives of a store and the changes that its journal decodes to recover together.
///
/// Refused with `HiveDamaged` of a hive whose number is above that of the journal's last change or above the limit, or
/// whose tree is to be one of outcomes and is not; and with `NoMemory`.
pub(crate) fn recovered(alloc: Global, read: StoreRead) -> Result<RecoveredStore, Refusal>
    requires rest { AreAtRest read.journal (choice_of read.journal).now.below (changes_of read.journal)
        read.hives.items }
    requires replayed { AreReplayed read.journal read.hives.items read.replay }
    ensures kept { IfOk result InvariantHolds }
    ensures journal { IfOk result (λ found. found.journal ≡ read.journal) }
    ensures hives { IfOk result (λ found. found.hives.items ≡ read.hives.items) }
    ensures fails { IfErr result (λ why. (why ≡ NoMemory) ⊎ (IsFileRefusal why × ((files : ℕ → List ℕ) →
        AreOf files read.journal read.hives.items → IsWrong files why))) }
{
    hive_flush::laws::at_most_one_tree();
    let number = number_of(read.journal.last_number(), &read.hives);
    if let Some(hive) = first_above(&read.hives, number.min(GREATEST_NUMBER)) {
        return Err(Refusal::HiveDamaged {
            hive,
            cause: Cause::BadStore,
        });
    }
    judge_outcomes(alloc, &read, number)?;
    let base = begun_at(&read.journal, number);
    Ok(RecoveredStore {
        journal: read.journal,
        hives: read.hives,
        trees: Trees::from_vec(read.replay.trees),
        number,
        opened: read.replay.retained,
        base,
        last_changes: read.replay.last_changes,
    })
}

// judges the tree after those of the hives that calls name, if there is one: it has outcomes up to the store's number
fn judge_outcomes(alloc: Global, read: &StoreRead, number: u64) -> Result<(), Refusal>
    ensures judged { OnOk result ((tree : TreeMap) →
        slice_get read.now.replay.trees.items (store_of read.now.journal).hives ≡ Some tree →
        IsOfOutcomes number tree) }
    ensures fails { IfErr result (λ why. (why ≡ NoMemory) ⊎ ((tree : TreeMap)
        × (slice_get read.now.replay.trees.items (store_of read.now.journal).hives ≡ Some tree)
        × IsRefusedAsOutcomes number (store_of read.now.journal).hives tree why)) }
{
    let hive = read.journal.hives();
    match read.replay.trees.get(usize::from(hive)) {
        None => Ok(()),
        Some(tree) => judge_tree(alloc, tree, hive, number),
    }
}

/// Judges a hive's tree as one of outcomes up to the store's number.
pub(crate) fn judge_tree(alloc: Global, tree: &Tree, hive: u8, number: u64) -> Result<(), Refusal>
    ensures judged { OnOk result (IsOfOutcomes number tree.now) }
    ensures fails { IfErr result (λ why. (why ≡ NoMemory)
        ⊎ IsRefusedAsOutcomes number hive tree.now why) }
{
    if CommitList::of(alloc, tree, number)?.is_some() {
        return Ok(());
    }
    Err(Refusal::HiveDamaged {
        hive,
        cause: Cause::BadStore,
    })
}

// the number before the first change that the journal decodes to, or `number` if there is none
fn begun_at(journal: &Journal, number: u64) -> u64
    ensures some { 0 < top 0 (choice_of journal.now).now → result ≡ (choice_of journal.now).now.below }
    ensures none { top 0 (choice_of journal.now).now ≡ 0 → result ≡ number }
{
    if journal.last_number() > 0 {
        journal.base()
    } else {
        number
    }
}
