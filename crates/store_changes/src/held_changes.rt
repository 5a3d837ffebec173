//! The changes that the journal of a store at rest holds.
ghost use Rattle.std.specs.Prelude.{◌≡◌, ◌+◌, ◌<◌, ◌≤◌, length, IfErr, IfOk, IfSome, IsSome};
ghost use Rattle.disk_model.specs.ReadOnly.{OnlySyncs};
ghost use Rattle.hive_files.specs.Frames.{RefusalHasCause};
ghost use Rattle.commit_journal.specs.Journals.{store_of};
ghost use Rattle.commit_journal.specs.Store.{Store};
ghost use Rattle.recovery.specs.Recovered.{IsNoStore, seen_in};
ghost use Rattle.store_changes.specs.Followed.{JournalHolds};

use change_codec::EncodedChange;
use commit_journal::{Journal, OpenedJournal};
use disk_model::Disk;
use recovery::open;
use refusals::Refusal;
use std::alloc::Global;

/// The changes that the journal of a store holds.
#[derive(Drop)]
pub(crate) struct HeldChanges {
    /// How many hives calls name.
    pub named: u8,
    /// The number before the first of them, or the store's number if there is none.
    pub base: u64,
    /// The store's number: that of the last one.
    pub number: u64,
    /// The changes, in order.
    pub changes: Vec<EncodedChange>,
    ghost last: { base + length changes.items ≡ number },
}

impl HeldChanges {
    // the changes of a journal whose last one has this number, if there are so many numbers
    fn of(number: u64, opened: OpenedJournal) -> Option<HeldChanges>
        ensures held { IfSome result (λ held. (held.named ≡ (store_of opened.journal).hives)
            × (held.number ≡ number) × (held.changes ≡ opened.elements)) }
        ensures none { length opened.elements.items ≤ number → IsSome result }
    {
        let Some(base) = number.checked_sub(opened.elements.len() as u64) else {
            return None;
        };
        Some(HeldChanges {
            named: opened.journal.hives(),
            base,
            number,
            changes: opened.elements,
        })
    }
}

/// Opens the store on a disk, and reads the changes that its journal holds. The disk is read and synced, and not written.
///
/// Refused as an opening is.
pub(crate) fn held_changes<D: Disk>(
    alloc: Global,
    disk: D,
) -> Result<(D, HeldChanges), (Refusal, D)>
    ensures held { IfOk result (λ read. (store : Store) × (store.hives ≡ read.1.named)
        × (D.faithful read.0 → JournalHolds (seen_in (D.state_at disk (D.clock disk)))
        store read.1.base read.1.changes.items)) }
    ensures fails { IfErr result (λ back. RefusalHasCause (D.failures disk < D.failures back.1)
        (IsNoStore (D.faithful back.1) (seen_in (D.state_at disk (D.clock disk)))) back.0) }
    ensures synced { IfOk result (λ read. D.faithful read.0 → OnlySyncs (D.state_at disk)
        (D.state_at read.0) (D.clock disk) (D.clock read.0)) }
    ensures back { IfErr result (λ back. D.faithful back.1 → OnlySyncs (D.state_at disk)
        (D.state_at back.1) (D.clock disk) (D.clock back.1)) }
{
    commit_journal::laws::one_store();
    match open(alloc, disk) {
        Ok(opened) => {
            let number = opened.number();
            // its trees and hives aren't needed any more, and take the most memory
            let mut disk = opened.into_disk();
            match Journal::open(alloc, &mut disk) {
                Ok(journal) => match HeldChanges::of(number, journal) {
                    Some(held) => Ok((disk, held)),
                    // a disk that answers as it should gives the journal that was opened
                    None => Err((Refusal::JournalDamaged, disk)),
                },
                Err(why) => Err((why, disk)),
            }
        }
        Err(refused) => Err(refused),
    }
}
