//! Writing a log in chunks.

ghost use Rattle.std.specs.Prelude.{◌≡◌, ◌≤◌, ◌+◌, ◌-◌, ◌/◌, ◌*◌, ◌%◌, ◌++◌, take, drop, length};
ghost use Rattle.dirt_log.specs.LogEncoding.{pages_from, head_bytes, log_bytes, bitmap_end, pages_at};
ghost use Rattle.dirt_log.specs.WholeLog.{IsLoggable, LogDecodesTo, block_as_read};
ghost use Rattle.base_block.specs.Layout.{zeros};
ghost use Rattle.dirty_vector.specs.Pages.{is_dirty, bitmap_of};

use crate::pages::{
    BITMAP_AT, BYTES_PER_BITMAP_BYTE, LETTERS, LETTERS_AT, page_bytes, pages_start,
};
use base_block::{BaseBlock, FileType};
use dirty_vector::{DirtyVector, PAGE_BYTES};
use std::marker::Model;

/// The most bytes in a chunk of a log.
pub const CHUNK_BYTES: usize = 65_536;

const _: () = prove!(CHUNK_BYTES == 65_536);

/// The encoding of a log, which is given in chunks and never kept whole. Contracts see it as the
/// list of its bytes.
#[derive(Drop)]
pub struct LogSteps<'a> {
    image: &'a [u8],
    vector: &'a DirtyVector,
    sector: [u8; 512],
}

impl<'a> Model for LogSteps<'a> {
    ghost use Rattle.std.specs.Prelude.{ℕ, List, length, ◌≡◌};
    ghost use Rattle.std.specs.Coded.{coded_ℕ, coded_list};

    ghost Value = { List ℕ };

    ghost coded = { coded_list coded_ℕ };

    ghost use Rattle.dirt_log.specs.LogEncoding.{bytes_behind};

    ghost view = { λ a. bytes_behind a.image.now a.vector.now a.sector };

    ghost invariant = { λ a. (length a.image.now ≡ a.vector.now.bins_size)
        × (length a.sector ≡ 512) };
}

/// The log of a flush. It is of the image of the bins data as it will be, its dirty pages, and the
/// base block of the primary file as it will be. The log's own block is the same with the type of a
/// log. Takes no memory.
pub fn write_steps<'a>(image: &'a [u8], vector: &'a DirtyVector, base: &BaseBlock) -> LogSteps<'a>
    requires { length image.now ≡ vector.now.bins_size }
    ensures encoding { result ≡ log_bytes image.now vector.now base.now }
    // What is written is read again.
    ensures again { IsLoggable base.now vector.now →
        LogDecodesTo result (block_as_read base.now) vector.now (pages_from image.now vector.now 0) }
{
    // a law: it does nothing
    vector.bitmap_round_trip(); // for the prover
    let block = BaseBlock {
        file_type: FileType::LOG,
        ..*base
    };
    let sector = block.write();
    LogSteps {
        image,
        vector,
        sector,
    }
}

impl LogSteps<'_> {
    /// Lays the chunk of a number, from 0 on, at the front of a buffer, and answers how many bytes
    /// it has. Each chunk but the last is full, and past the last there is none.
    pub fn chunk(&self, index: u32, buffer: &mut [u8]) -> usize
        requires { length buffer.old ≡ 65536 }
        ensures bytes { take result buffer.new ≡ take 65536 (drop (65536 * index) self.now) }
        ensures count { result ≡ length (take 65536 (drop (65536 * index) self.now)) }
    {
        let head = pages_start(self.vector.bins_size());
        if index == 0 {
            put_head(self.vector, &self.sector, buffer);
            return put_pages(self.image, self.vector, 0, head, buffer);
        }
        let skipped = (CHUNK_BYTES * index as usize - head) / PAGE_BYTES;
        match self.vector.nth_dirty(skipped) {
            Some(page) => put_pages(self.image, self.vector, page, 0, buffer),
            None => 0,
        }
    }
}

// Lays the dirty pages from `from` on after the first `at` bytes, until the buffer is full, and
// answers where they end.
fn put_pages(image: &[u8], vector: &DirtyVector, from: usize, at: usize, buffer: &mut [u8]) -> usize
    requires sizes { length image.now ≡ vector.now.bins_size }
    requires room { length buffer.old ≡ 65536 }
    requires inside { at ≤ 65536 }
    requires whole { at % 512 ≡ 0 }
    ensures within { result ≤ 65536 }
    ensures bytes { take result buffer.new ≡ take 65536
        (take at buffer.old ++ pages_from image.now vector.now from) }
{
    let mut end = at;
    let mut page = from;
    while end < CHUNK_BYTES {
        match vector.next_dirty(page) {
            None => return end,
            Some(next) => {
                put(buffer, end, page_bytes(image, next));
                end += PAGE_BYTES;
                page = next + 1;
            }
        }
    }
    end
}

// Lays what comes before the pages.
fn put_head(vector: &DirtyVector, sector: &[u8], buffer: &mut [u8])
    requires room { length buffer.old ≡ 65536 }
    requires sector { length sector.now ≡ 512 }
    ensures { take (pages_at vector.now.bins_size) buffer.new ≡ head_bytes vector.now sector.now }
{
    let bins_size = vector.bins_size();
    put(buffer, 0, sector);
    put(buffer, LETTERS_AT, LETTERS);
    put_bitmap(vector, buffer);
    put_zeros(
        buffer,
        BITMAP_AT + bins_size / BYTES_PER_BITMAP_BYTE,
        pages_start(bins_size),
    );
}

// Lays the bitmap at its offset.
fn put_bitmap(vector: &DirtyVector, buffer: &mut [u8])
    requires { length buffer.old ≡ 65536 }
    ensures { take (bitmap_end vector.now.bins_size) buffer.new
        ≡ take 516 buffer.old ++ bitmap_of (is_dirty vector.now) (vector.now.bins_size / 4096) }
{
    let end = BITMAP_AT + vector.bins_size() / BYTES_PER_BITMAP_BYTE;
    vector.write(&mut buffer[BITMAP_AT..end]);
}

// Lays zeros from an offset to another.
fn put_zeros(buffer: &mut [u8], from: usize, to: usize)
    requires order { from ≤ to }
    requires inside { to ≤ length buffer.old }
    ensures { take to buffer.new ≡ take from buffer.old ++ zeros (to - from) }
{
    buffer[from..to].fill(0);
}

// Lays bytes at an offset.
fn put(buffer: &mut [u8], at: usize, bytes: &[u8])
    requires { at + length bytes.now ≤ length buffer.old }
    ensures { take (at + length bytes.now) buffer.new ≡ take at buffer.old ++ bytes.now }
{
    buffer[at..at + bytes.len()].copy_from_slice(bytes);
}
