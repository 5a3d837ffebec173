//! An entry of a log.
ghost use Rattle.std.specs.Prelude.{◌≡◌, ◌≤◌, ◌<◌, ◌+◌, ◌^◌, suc, length, take, drop, IfOk};
ghost use Rattle.hive_log_entries.specs.Pages.{bins_size_of, page_count, reference_at, page_start, page_bytes};
ghost use Rattle.hive_log_entries.specs.Entries.{entry_at, number_of, IsWithinLog};

use crate::entry_end::EntryEnd;
use crate::entry_tests::{bytes_from, entry_size, fault, first_bytes};
use crate::pages::{
    BINS_SIZE_AT, PAGE_COUNT_AT, PageReference, REFERENCE_BYTES, REFERENCES_AT, reference, u32_at,
};
use base_block::SequenceNumber;
use std::marker::Model;

// the offset of the number
const NUMBER_AT: usize = 12;

const _: () = prove!(NUMBER_AT == 12);

/// An entry of a log: what one write of the hive changed. Contracts see it as its bytes.
#[derive(Drop)]
pub struct LogEntry<'a> {
    bytes: &'a [u8],
}

impl<'a> Model for LogEntry<'a> {
    ghost use Rattle.std.specs.Prelude.{ℕ, List, length, true, ◌≡◌, ◌≤◌};
    ghost use Rattle.hive_log_entries.specs.Pages.{has_pages};

    ghost Value = { List ℕ };

    ghost view = { λ inside. inside.bytes.now };

    ghost invariant = { λ inside. (512 ≤ length inside.bytes.now)
        × (has_pages inside.bytes.now ≡ true) };
}

#[tactic(auto, unfolding(crate::specs::Entries::entry_at))]
/// The entry that stands at a place of a log, or the first test that fails there. Takes no memory.
pub fn read_entry(log: &[u8], at: usize) -> Result<LogEntry<'_>, EntryEnd>
    ensures reading { result ≡ entry_at log.now at }
    ensures within { IfOk result (IsWithinLog log.now at) }
{
    let rest = bytes_from(log, at);
    let size = entry_size(rest)?;
    let bytes = first_bytes(rest, size as usize);
    match fault(bytes) {
        Some(why) => Err(why),
        None => Ok(LogEntry { bytes }),
    }
}

impl<'a> LogEntry<'a> {
    /// The same entry once more.
    pub fn again(&self) -> LogEntry<'a>
        ensures { result ≡ self.now }
    {
        LogEntry { bytes: self.bytes }
    }

    /// Its bytes, padding included.
    pub fn size(&self) -> usize
        ensures { result ≡ length self.now }
    {
        self.bytes.len()
    }

    /// Its number.
    pub fn number(&self) -> SequenceNumber
        ensures { result ≡ number_of self.now }
    {
        SequenceNumber(u32_at(self.bytes, NUMBER_AT))
    }

    /// The bytes of bins data after it.
    pub fn bins_size(&self) -> u32
        ensures { result ≡ bins_size_of self.now }
    {
        u32_at(self.bytes, BINS_SIZE_AT)
    }

    /// How many pages it has.
    pub fn page_count(&self) -> u32
        ensures { result ≡ page_count self.now }
    {
        u32_at(self.bytes, PAGE_COUNT_AT)
    }

    #[tactic(auto, using(crate::proofs::Stops::reference_there))]
    /// Where the page of an index goes.
    pub fn reference(&self, index: usize) -> PageReference
        requires { index < page_count self.now }
        ensures { result ≡ reference_at self.now index }
    {
        reference(self.bytes, index)
    }

    #[tactic(auto, using(crate::proofs::Stops::reference_there, crate::proofs::Stops::bytes_there))]
    /// The bytes of the page of an index, which begin at a place in the entry: behind the references, or where those of
    /// the page before end.
    pub fn page(&self, index: usize, start: usize) -> &'a [u8]
        requires inside { index < page_count self.now }
        requires start { start ≡ page_start self.now index }
        ensures bytes { result.now ≡ page_bytes self.now index }
        ensures end { start + length result.now ≡ page_start self.now (suc index) }
        ensures fits { start + length result.now < 2 ^ 64 }
    {
        let size = reference(self.bytes, index).size as usize;
        first_bytes(bytes_from(self.bytes, start), size)
    }

    /// Where the bytes of the first page begin.
    pub fn first_page_at(&self) -> usize
        ensures { result ≡ page_start self.now 0 }
    {
        REFERENCES_AT + REFERENCE_BYTES * self.page_count() as usize
    }
}
