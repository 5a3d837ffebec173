//! A log of pages, as it is read.
ghost use Rattle.std.specs.Prelude.{◌≡◌, ◌≤◌, ◌<◌, ◌+◌, ◌*◌, ◌/◌, true, None, take, drop, length, IfOk, IfErr, IfSome, IfNone};
ghost use Rattle.refusals.specs.declared.refusal.Refusal.TheVariants.{NoMemory};
ghost use Rattle.dirty_vector.specs.Pages.{is_bins_size};
ghost use Rattle.hive_recovery.specs.Logs.{is_read_version};
ghost use Rattle.hive_page_logs.specs.PageLogs.{IsPageLog, IsWholeOr, marked_by, page_view, page_view_of, page_log_of, pages_of, block_fault, pages_at_letters, letters_at, has_letters, is_page_type};

use base_block::{
    BaseBlock, FILE_FORMAT, MAJOR_VERSION, MINOR_VERSION, OLDEST_MINOR_VERSION, SequenceNumber,
};
use byteorder::{ByteOrder, LittleEndian};
use dirt_log::DirtLog;
use dirty_vector::{DirtyVector, PAGE_BYTES};
use hive_recovery::{Log, LogHead};
use refusals::Refusal;
use refusals::limits::MOST_BINS_BYTES;
use std::alloc::Global;

// the letters `DIRT`, the first in the lowest byte
const LETTERS: u32 = 0x5452_4944;

const _: () = prove!(LETTERS == 0x5452_4944);

// the bytes of the letters
const LETTERS_BYTES: usize = 4;

const _: () = prove!(LETTERS_BYTES == 4);

// the bytes of a first sector, and what sectors of disks are multiples of
const SECTOR_BYTES: usize = 512;

const _: () = prove!(SECTOR_BYTES == 512);

// the offset of the clustering factor: how many times 512 bytes a sector of the disk has
const FACTOR_AT: usize = 44;

const _: () = prove!(FACTOR_AT == 44);

// the largest clustering factor: sectors of 4,096 bytes
const MOST_FACTOR: usize = 8;

const _: () = prove!(MOST_FACTOR == 8);

// the bytes of bins data for each byte of the bitmap, and of the smallest bins data
const BIN_BYTES: usize = 4_096;

const _: () = prove!(BIN_BYTES == 4096);

/// Why a log of pages isn't used: the first of these that is wrong, in this order.
#[derive(Clone, Copy, PartialEq, Eq)]
pub enum PageFault {
    /// It is of a version or a format that isn't read.
    OtherVersion,
    /// Its two numbers differ: it was being written.
    Numbers {
        /// The first.
        first: SequenceNumber,
        /// The second.
        second: SequenceNumber,
    },
    /// The size of the bins data is no multiple of 4,096 from 4,096 to the limit.
    WrongBinsSize,
    /// The letters `DIRT` aren't there.
    NoLetters,
    /// The log ends before its bitmap does.
    BitmapCut,
    /// The log ends before its pages do.
    PagesCut,
}

/// A log of pages that is whole.
#[derive(Drop)]
pub struct WholePageLog<'a> {
    /// Its first sector.
    pub sector: [u8; 512],
    /// Its base block, the pages that it marks, and their bytes.
    pub dirt: DirtLog<'a>,
}

/// What a log is as one of pages.
#[derive(Drop)]
pub enum PageLog<'a> {
    /// It is none by its first sector.
    Other,
    /// It isn't whole.
    Faulty(PageFault),
    /// It is whole.
    Whole(WholePageLog<'a>),
}

/// Reads a log as one of pages. Refused for want of memory alone.
pub fn read_pages<'a>(alloc: Global, log: &Log<'a>) -> Result<PageLog<'a>, Refusal>
    ensures read { IfOk result (IsPageLog log.now) }
    ensures view { IfOk result (λ page. page_view page ≡ page_view_of log.now) }
    ensures refused { IfErr result (λ why. why ≡ NoMemory) }
{
    if !is_of_pages(log.head) {
        return Ok(PageLog::Other);
    }
    pages_in_log(alloc, log.bytes)
}

// whether a first sector says that pages follow
fn is_of_pages(head: LogHead) -> bool
    ensures { result ≡ is_page_type head }
{
    match head {
        LogHead::OtherType(kind) => kind.0 == 1 || kind.0 == 2,
        _ => false,
    }
}

#[tactic(auto, unfolding(crate::specs::PageLogs::page_log_of))]
// a log with such a first sector
fn pages_in_log(alloc: Global, bytes: &[u8]) -> Result<PageLog<'_>, Refusal>
    ensures read { IfOk result (IsWholeOr bytes.now (page_log_of bytes.now)) }
    ensures refused { IfErr result (λ why. why ≡ NoMemory) }
{
    let Some(block) = BaseBlock::read_first(bytes) else {
        return Ok(PageLog::Faulty(PageFault::BitmapCut));
    };
    match block_fault(&block) {
        Some(fault) => Ok(PageLog::Faulty(fault)),
        None => behind_block(alloc, bytes, &block),
    }
}

// a log with a block of which nothing is wrong
fn behind_block<'a>(
    alloc: Global,
    bytes: &'a [u8],
    block: &BaseBlock,
) -> Result<PageLog<'a>, Refusal>
    requires long { 512 ≤ length bytes.now }
    requires sound { block_fault block.now ≡ None }
    ensures read { IfOk result (IsWholeOr bytes.now (pages_at_letters bytes.now block.now (letters_at bytes.now))) }
    ensures refused { IfErr result (λ why. why ≡ NoMemory) }
{
    match letters_at(bytes) {
        Some(at) => marked_pages(alloc, bytes, block, at),
        None => Ok(PageLog::Faulty(PageFault::NoLetters)),
    }
}

// what is wrong with the block of a log of pages
fn block_fault(block: &BaseBlock) -> Option<PageFault>
    ensures { result ≡ block_fault block.now }
{
    if !is_version(block) {
        return Some(PageFault::OtherVersion);
    }
    if block.primary != block.secondary {
        return Some(PageFault::Numbers {
            first: block.primary,
            second: block.secondary,
        });
    }
    if !is_size(block.bins_size as usize) {
        return Some(PageFault::WrongBinsSize);
    }
    None
}

// whether the versions and the format are read
fn is_version(block: &BaseBlock) -> bool
    ensures { result ≡ is_read_version block.now }
{
    block.major == MAJOR_VERSION
        && block.minor >= OLDEST_MINOR_VERSION
        && block.minor <= MINOR_VERSION
        && block.format == FILE_FORMAT
}

// whether this is a size of bins data
fn is_size(size: usize) -> bool
    ensures { result ≡ is_bins_size size }
{
    size.is_multiple_of(BIN_BYTES) && size >= BIN_BYTES && size <= MOST_BINS_BYTES
}

// where the letters stand: behind the first 512 bytes, or behind the first sector of the disk
fn letters_at(bytes: &[u8]) -> Option<usize>
    requires { 512 ≤ length bytes.now }
    ensures at { result ≡ letters_at bytes.now }
    ensures near { IfSome result (λ at. (512 ≤ at) × (at ≤ 4096)) }
{
    if has_letters(bytes, SECTOR_BYTES) {
        return Some(SECTOR_BYTES);
    }
    let factor = LittleEndian::read_u32(&bytes[FACTOR_AT..]) as usize;
    if factor >= 2 && factor <= MOST_FACTOR && has_letters(bytes, SECTOR_BYTES * factor) {
        return Some(SECTOR_BYTES * factor);
    }
    None
}

// whether the letters stand at a place
fn has_letters(bytes: &[u8], at: usize) -> bool
    requires { at ≤ 4096 }
    ensures { result ≡ has_letters bytes.now at }
{
    bytes.len() >= at + LETTERS_BYTES && LittleEndian::read_u32(&bytes[at..]) == LETTERS
}

#[tactic(auto, unfolding(crate::specs::PageLogs::pages_of))]
// the pages that are marked behind letters at a place
fn marked_pages<'a>(
    alloc: Global,
    bytes: &'a [u8],
    block: &BaseBlock,
    at: usize,
) -> Result<PageLog<'a>, Refusal>
    requires long { 512 ≤ length bytes.now }
    requires low { 512 ≤ at }
    requires high { at ≤ 4096 }
    requires size { is_bins_size block.now.bins_size ≡ true }
    ensures read { IfOk result (IsWholeOr bytes.now (pages_of bytes.now block.now at)) }
    ensures refused { IfErr result (λ why. why ≡ NoMemory) }
{
    let size = block.bins_size as usize;
    let end = at + LETTERS_BYTES + size / BIN_BYTES;
    if bytes.len() < end {
        return Ok(PageLog::Faulty(PageFault::BitmapCut));
    }
    let vector = vector_of(alloc, size, &bytes[at + LETTERS_BYTES..end])?;
    match page_bytes(bytes, end.div_ceil(at) * at, vector.count()) {
        None => Ok(PageLog::Faulty(PageFault::PagesCut)),
        Some(pages) => Ok(PageLog::Whole(WholePageLog {
            sector: first_sector(bytes),
            dirt: DirtLog {
                base: *block,
                vector,
                pages,
            },
        })),
    }
}

// the pages that a bitmap marks
fn vector_of(alloc: Global, size: usize, bitmap: &[u8]) -> Result<DirtyVector, Refusal>
    requires long { length bitmap.now ≡ size / 4096 }
    requires size { is_bins_size size ≡ true }
    ensures marked { IfOk result (λ vector. vector ≡ marked_by size bitmap.now) }
    ensures refused { IfErr result (λ why. why ≡ NoMemory) }
{
    DirtyVector::read(alloc, size, bitmap)
}

// the bytes of some pages from a place on, if they are there
fn page_bytes(bytes: &[u8], start: usize, count: usize) -> Option<&[u8]>
    ensures some { IfSome result (λ pages. (pages.now ≡ take (512 * count) (drop start bytes.now))
        × (length pages.now ≡ 512 * count) × (start + 512 * count ≤ length bytes.now)) }
    ensures none { IfNone result (length bytes.now < start + 512 * count) }
{
    if bytes.len() < start || (bytes.len() - start) / PAGE_BYTES < count {
        return None;
    }
    Some(&bytes[start..start + PAGE_BYTES * count])
}

// the first sector of a log
fn first_sector(bytes: &[u8]) -> [u8; 512]
    requires { 512 ≤ length bytes.now }
    ensures { result ≡ take 512 bytes.now }
{
    let mut sector = [0; SECTOR_BYTES];
    sector.copy_from_slice(&bytes[..SECTOR_BYTES]);
    sector
}
