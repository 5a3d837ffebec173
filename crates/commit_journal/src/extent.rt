//! What a journal keeps of the durable content of its file, or of the content that will be durable.
ghost use Rattle.std.specs.Prelude.{◌≡◌, ◌+◌, ◌-◌, ◌*◌, ◌<◌, ◌≤◌, ◌^◌, ℕ, List, length, take, drop, [], sum_by};
ghost use Rattle.crash_model.specs.Promises.{nothing, top, floor};
ghost use Rattle.reg_tree.specs.Encodings.{element_encoded_len};
ghost use Rattle.commit_journal.specs.GhostLog.{logged_changes, logged_elements, logged_content};
ghost use Rattle.commit_journal.specs.Extent.{ExtentMatches};

use crate::ghost_log::GhostLog;
use crate::layout::{ELEMENT_ROOM, EMPTY_ROOM, FIRST_GATE, HEAD_BYTES};
use crate::reader::PartialBody;
use change_codec::EncodedChange;

/// The offset and the numbers of the durable content, or of the content that will be durable.
#[derive(Drop)]
pub(crate) struct Extent {
    /// The offset of the gate that isn't open.
    pub gate: u64,
    /// The number before the first element's, or 0 if there is none.
    pub below: u64,
    /// The number of the last element, or 0 if there is none.
    pub last: u64,
    /// The used room in bytes: 65, and 17 and its length for each element.
    pub used: u64,
    /// The elements.
    pub ghost_log: GhostLog,
    ghost kept: { ExtentMatches gate last used (logged_content below ghost_log) },
}

impl Extent {
    ghost use Rattle.change_codec.specs.ModelChanges.{timed_elements};
    ghost use Rattle.commit_journal.specs.OnDisk.{with_elements};
    ghost use Rattle.commit_journal.specs.Journals.{content_of};

    /// No element: the first gate isn't open.
    pub fn nothing() -> Extent
        ensures decodes { content_of result ≡ nothing }
        ensures gate { result.gate ≡ 64 }
    {
        Extent {
            gate: FIRST_GATE,
            below: 0,
            last: 0,
            used: EMPTY_ROOM,
            ghost_log: GhostLog::Nothing,
        }
    }

    /// The content once a body of `size` bytes with these elements is durable too. The first of them has the number
    /// `first`.
    pub fn with_elements(&self, first: u64, size: u64, elements: &[EncodedChange]) -> Extent
        requires some { 0 < length elements.now }
        requires number { 1 ≤ first }
        requires ends { top (first - 1) (content_of self.now) ≡ first - 1 }
        requires size { size ≡ 16 + sum_by element_encoded_len elements.now }
        requires room { self.now.used + sum_by
            (λ e. 17 + element_encoded_len e) elements.now < 2 ^ 63 }
        requires numbers { first + length elements.now < 2 ^ 64 }
        ensures decodes { content_of result ≡ with_elements (content_of self.now) (first - 1)
            (timed_elements elements.now) }
        ensures gate { result.gate ≡ self.now.gate + 1 + size }
    {
        let count = elements.len() as u64;
        let mut ghost_log = self.ghost_log.same();
        ghost_log.then_all(elements);
        Extent {
            gate: self.gate + 1 + size,
            below: if self.last == 0 {
                first - 1
            } else {
                self.below
            },
            last: first - 1 + count,
            used: self.used + ELEMENT_ROOM * count + (size - HEAD_BYTES),
            ghost_log,
        }
    }

    /// How many elements are durable.
    pub fn count(&self) -> u64
        ensures { result ≡ length (logged_elements self.now.ghost_log) }
    {
        self.last.saturating_sub(self.below)
    }

    /// The content once a body that was read is added. It has `count` elements, after those that are there.
    pub fn with_body(&self, partial_body: PartialBody, count: u64, ghost_log: GhostLog) -> Extent
        requires before { logged_elements self.now.ghost_log ≡ timed_elements (take partial_body.start (logged_changes ghost_log)) }
        requires count { count ≡ length (drop partial_body.start (logged_changes ghost_log)) }
        requires some { 0 < count }
        requires number { 1 ≤ partial_body.first }
        requires ends { top (partial_body.first - 1) (content_of self.now) ≡ partial_body.first - 1 }
        requires size { partial_body.size ≡ 16 + sum_by element_encoded_len (drop partial_body.start (logged_changes ghost_log)) }
        requires room { self.now.used + (17 * count + (partial_body.size - 16)) < 2 ^ 63 }
        requires numbers { partial_body.first + count < 2 ^ 64 }
        ensures decodes { content_of result ≡ with_elements (content_of self.now) (partial_body.first - 1)
            (timed_elements (drop partial_body.start (logged_changes ghost_log))) }
        ensures gate { result.gate ≡ self.now.gate + 1 + partial_body.size }
        ensures ghost_log { logged_changes result.ghost_log ≡ logged_changes ghost_log }
    {
        Extent {
            gate: self.gate + 1 + partial_body.size,
            below: if self.last == 0 {
                partial_body.first - 1
            } else {
                self.below
            },
            last: partial_body.first - 1 + count,
            used: self.used + ELEMENT_ROOM * count + (partial_body.size - HEAD_BYTES),
            ghost_log,
        }
    }
}
