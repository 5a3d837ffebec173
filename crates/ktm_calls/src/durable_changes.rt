//! The durable changes after a number, for those who follow a store.
ghost use Rattle.std.specs.Prelude.{◌≡◌, ◌<◌, ◌≤◌, length, take, IfErr, IfOk};
ghost use Rattle.ktm_calls.specs.Moments.{SeesMore};
ghost use Rattle.ktm_calls.specs.Snapshots.{AreDurableAfter, MayNotFollow};

use crate::asker::Asker;
use crate::locked::Locked;
use change_codec::EncodedChange;
use histories::Start;
use reg_tree::Element;
use std::alloc::{AllocError, Global};
use std::sync::Wait;
use store_engine::StoreEngine;

/// The most bytes of encoded changes that one question answers, unless the first change alone has more.
const MOST_FOLLOWED_BYTES: u64 = 65_536;

/// Why the changes after a number aren't told.
#[derive(Clone, Copy, Debug, PartialEq, Eq)]
pub enum FollowRefusal {
    /// The number is above that of the last change.
    Ahead {
        /// The number of the last change.
        last: u64,
    },
    /// Some of them aren't retained: they were accepted before the history; or they are durable, and no hive lacks them.
    Discarded {
        /// The number after which changes are retained.
        from: u64,
    },
    /// There was no memory.
    NoMemory,
}

impl From<AllocError> for FollowRefusal {
    ghost use Rattle.std.specs.Prelude.{◌≡◌};
    ghost use Rattle.ktm_calls.specs.declared.durable_changes.FollowRefusal.TheVariants.{NoMemory};

    ghost from_gives = { λ _ why. why ≡ NoMemory };

    fn from(_: AllocError) -> FollowRefusal {
        FollowRefusal::NoMemory
    }
}

impl<E: StoreEngine, O: Start> Locked<E, O> {
    /// The first of the durable changes after a number; one who asks has seen all that was accepted then.
    pub(crate) fn durable_changes<R: Wait>(
        &self,
        rt: &R,
        mine: &mut Asker<O>,
        after: u64,
    ) -> Result<Vec<Element>, FollowRefusal>
        ensures seen { SeesMore mine.old mine.new }
        ensures asked { mine.new.asked ≡ mine.old.asked }
        ensures told { IfOk result (λ changes. AreDurableAfter O.start O.number after mine.new changes.items) }
        ensures refused { IfErr result (MayNotFollow O.start O.number after mine.new) }
    {
        self.inform(rt, mine);
        self.keeps_history(); // for the prover
        self.engine().stays_within(); // for the prover
        let last = self.engine().last_number();
        if after > last {
            return Err(FollowRefusal::Ahead { last });
        }
        match self.engine().changes_after(after) {
            Ok(changes) => {
                let count = self.durable().saturating_sub(after) as usize;
                let first = first_of(self.alloc(), &changes[..count])?;
                Ok(first)
            }
            Err(from) => Err(FollowRefusal::Discarded { from }),
        }
    }
}

// copies of the first of these changes, as many as one question answers
fn first_of(alloc: Global, changes: &[EncodedChange]) -> Result<Vec<Element>, AllocError>
    ensures first { IfOk result (λ copies. copies.items ≡ take (length copies.items) changes.now) }
    ensures some { IfOk result (λ copies. 0 < length changes.now → 0 < length copies.items) }
{
    let mut copies = Vec::new(alloc);
    let mut bytes: u64 = 0;
    for change in changes {
        bytes = bytes.saturating_add(change.text_len());
        if bytes > MOST_FOLLOWED_BYTES && !copies.is_empty() {
            return Ok(copies);
        }
        copies.push(change.read(alloc)?)?;
    }
    Ok(copies)
}
