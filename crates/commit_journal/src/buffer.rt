//! The journal's file, read in chunks.
ghost use Rattle.std.specs.Prelude.{◌≡◌, ◌+◌, ◌-◌, ◌<◌, ◌≤◌, ℕ, List, length, take, drop, max, IfOk, OnOk, IfErr, OnErr};
ghost use Rattle.disk_model.specs.ReadOnly.{OnlyReads};

use crate::layout::CHUNK_BYTES;
use crate::{device, moves};
use disk_model::Disk;
use refusals::Refusal;
use std::alloc::{AllocError, Global};

/// The part of the journal's file that is in memory: what was read of it and isn't taken yet.
///
/// That is a chunk at most. Only while an element that is longer than a chunk is at hand, it is that element.
#[derive(Drop)]
pub(crate) struct ReadBuffer {
    /// The place of the bytes. It has the length of the longest element so far, or of a chunk if that is longer.
    bytes: Vec<u8>,
    /// How many bytes may be in it: those of a chunk, or of the element at hand if that is longer.
    limit: usize,
    /// How many of the bytes are taken.
    start: usize,
    /// How many of them were read.
    end: usize,
    /// The offset in the file of the next byte that is to be read.
    at: u64,
    /// The file's length.
    end_of_file: u64,
    ghost place: { limit ≤ length bytes.items },
    ghost taken: { start ≤ end },
    ghost filled: { end ≤ limit },
    ghost came: { end ≤ start + at },
    ghost inside: { at ≤ end_of_file },
}

impl ReadBuffer {
    ghost use Rattle.commit_journal.specs.ReadBuffers.{held, rest_of, left_of, journal_bytes_at, FailsBy};

    /// All of a file of this length.
    pub fn new(alloc: Global, end_of_file: u64) -> Result<ReadBuffer, AllocError>
        ensures rest { IfOk result (λ buffer. (file : List ℕ) → rest_of file buffer ≡ file) }
        ensures end { IfOk result (λ buffer. buffer.end_of_file ≡ end_of_file) }
    {
        Ok(ReadBuffer {
            bytes: vec![in alloc; 0u8; CHUNK_BYTES]?,
            limit: CHUNK_BYTES,
            start: 0,
            end: 0,
            at: 0,
            end_of_file,
        })
    }

    /// The bytes that are in memory and aren't taken.
    pub fn bytes(&self) -> &[u8]
        ensures { result.now ≡ held self.now }
    {
        &self.bytes[self.start..self.end]
    }

    /// How many bytes of the file aren't taken.
    pub fn left(&self) -> u64
        ensures { result ≡ left_of self.now }
    {
        let held = (self.end - self.start) as u64;
        self.end_of_file - (self.at - held)
    }

    /// Takes the next `count` bytes.
    pub fn skip(&mut self, count: usize)
        requires { count ≤ length (held self.old) }
        ensures held { held self.new ≡ drop count (held self.old) }
        ensures left { left_of self.new + count ≡ left_of self.old }
        ensures at { self.new.at ≡ self.old.at }
        ensures end { self.new.end_of_file ≡ self.old.end_of_file }
    {
        self.start += count;
    }

    /// Reads until `wanted` bytes are in memory. Refused with `JournalDamaged` if the file has fewer, with `DiskFault`
    /// if the device failed, and with `NoMemory`.
    pub fn fill<D: Disk>(
        &mut self,
        alloc: Global,
        disk: &mut D,
        wanted: usize,
    ) -> Result<(), Refusal>
        ensures there { OnOk result (wanted ≤ length (held self.new)) }
        ensures left { OnOk result (left_of self.new ≡ left_of self.old) }
        ensures limit { self.new.limit ≤ max self.old.limit (max 65536 wanted) }
        ensures end { self.new.end_of_file ≡ self.old.end_of_file }
        ensures rest { OnOk result (D.faithful disk.new →
            self.old.end_of_file ≡ length (journal_bytes_at (D.state_at disk.old) (D.clock disk.old)) →
            rest_of (journal_bytes_at (D.state_at disk.old) (D.clock disk.old)) self.new ≡ rest_of (journal_bytes_at (D.state_at disk.old) (D.clock disk.old)) self.old) }
        ensures fails { IfErr result (FailsBy (D.failures disk.old < D.failures disk.new)
            (D.faithful disk.new →
            self.old.end_of_file ≡ length (journal_bytes_at (D.state_at disk.old) (D.clock disk.old)) →
            length (rest_of (journal_bytes_at (D.state_at disk.old) (D.clock disk.old)) self.old) < wanted)) }
        ensures no_change { OnlyReads (D.state_at disk.old) (D.state_at disk.new) (D.clock disk.old)
            (D.clock disk.new) }
        ensures failures { D.failures disk.old ≤ D.failures disk.new }
        ensures faithful { D.faithful disk.new → D.faithful disk.old }
    {
        if self.end - self.start >= wanted {
            return Ok(());
        }
        if (wanted as u64) > self.left() {
            return Err(Refusal::JournalDamaged);
        }
        self.make_place(alloc, wanted)?;
        'pieces: while self.end < wanted {
            if self.read_piece(disk)? == 0 {
                return Err(Refusal::JournalDamaged);
            }
        }
        Ok(())
    }

    /// Moves what isn't taken to the front of a place for `wanted` bytes, or for a chunk if that is longer. The file has
    /// so many: a length that it tells leads to no memory before.
    fn make_place(&mut self, alloc: Global, wanted: usize) -> Result<(), AllocError>
        requires few { length (held self.old) < wanted }
        requires there { wanted ≤ left_of self.old }
        ensures start { OnOk result (self.new.start ≡ 0) }
        ensures place { OnOk result (wanted ≤ self.new.limit) }
        ensures held { OnOk result (held self.new ≡ held self.old) }
        ensures limit { OnOk result (self.new.limit ≡ max 65536 wanted) }
        ensures err { OnErr result (self.new.limit ≤ self.old.limit) }
        ensures at { self.new.at ≡ self.old.at }
        ensures end { self.new.end_of_file ≡ self.old.end_of_file }
    {
        let limit = wanted.max(CHUNK_BYTES);
        if self.bytes.len() < limit {
            return self.move_to(alloc, limit);
        }
        self.move_to_front(limit);
        Ok(())
    }

    // moves what isn't taken to the front of its place, in which so many bytes may be then
    fn move_to_front(&mut self, limit: usize)
        requires fits { length (held self.old) ≤ limit }
        requires there { limit ≤ length self.old.bytes.items }
        ensures start { self.new.start ≡ 0 }
        ensures held { held self.new ≡ held self.old }
        ensures limit { self.new.limit ≡ limit }
        ensures at { self.new.at ≡ self.old.at }
        ensures end { self.new.end_of_file ≡ self.old.end_of_file }
    {
        if self.start > 0 {
            moves::move_to_front(&mut self.bytes, self.start, self.end);
            self.end -= self.start;
            self.start = 0;
        }
        self.limit = limit;
    }

    // moves what isn't taken to the front of another place, of so many bytes; if all is taken, the one goes before the
    // other comes
    fn move_to(&mut self, alloc: Global, limit: usize) -> Result<(), AllocError>
        requires fits { length (held self.old) ≤ limit }
        ensures start { OnOk result (self.new.start ≡ 0) }
        ensures held { OnOk result (held self.new ≡ held self.old) }
        ensures limit { OnOk result (self.new.limit ≡ limit) }
        ensures err { OnErr result (self.new.limit ≤ self.old.limit) }
        ensures at { self.new.at ≡ self.old.at }
        ensures end { self.new.end_of_file ≡ self.old.end_of_file }
    {
        if self.start == self.end {
            self.bytes = Vec::new(alloc);
            self.limit = 0;
            self.start = 0;
            self.end = 0;
        }
        let mut place = Vec::with_capacity(alloc, limit)?;
        place.extend_from_slice(&self.bytes[self.start..self.end])?;
        let left = place.len();
        place.resize(limit, 0)?;
        self.bytes = place;
        self.limit = limit;
        self.start = 0;
        self.end = left;
        Ok(())
    }

    /// Reads the next piece of the file, of at most a chunk's size: answers how many bytes came.
    fn read_piece<D: Disk>(&mut self, disk: &mut D) -> Result<usize, Refusal>
        requires place { self.old.end < self.old.limit }
        ensures start { self.new.start ≡ self.old.start }
        ensures limit { self.new.limit ≡ self.old.limit }
        ensures end { self.new.end_of_file ≡ self.old.end_of_file }
        ensures count { IfOk result (λ n. self.new.end ≡ self.old.end + n) }
        ensures at { IfOk result (λ n. self.new.at ≡ self.old.at + n) }
        ensures rest { OnOk result (D.faithful disk.new →
            self.old.end_of_file ≡ length (journal_bytes_at (D.state_at disk.old) (D.clock disk.old)) →
            rest_of (journal_bytes_at (D.state_at disk.old) (D.clock disk.old)) self.new ≡ rest_of (journal_bytes_at (D.state_at disk.old) (D.clock disk.old)) self.old) }
        ensures more { IfOk result (λ n. D.faithful disk.new →
            self.old.end_of_file ≡ length (journal_bytes_at (D.state_at disk.old) (D.clock disk.old)) →
            self.old.at < self.old.end_of_file → 0 < n) }
        ensures fails { IfErr result (FailsBy (D.failures disk.old < D.failures disk.new) ⊥) }
        ensures no_change { OnlyReads (D.state_at disk.old) (D.state_at disk.new) (D.clock disk.old)
            (D.clock disk.new) }
        ensures failures { D.failures disk.old ≤ D.failures disk.new }
        ensures faithful { D.faithful disk.new → D.faithful disk.old }
    {
        let came = device::read_behind(disk, self.at, &mut self.bytes, self.end, self.limit)?;
        let count = (came as u64).min(self.end_of_file - self.at) as usize;
        self.end += count;
        self.at += count as u64;
        Ok(count)
    }
}
