//! The pages of an entry.
ghost use Rattle.std.specs.Prelude.{◌≡◌, ◌+◌, ◌*◌, ◌≤◌, suc, true, false, length, IfSome, IfNone};
ghost use Rattle.base_block.specs.Layout.{number_at};
ghost use Rattle.hive_log_entries.specs.Pages.{reference_at, is_page, has_pages, page_start, page_stands};

use byteorder::{ByteOrder, LittleEndian};

/// The offset of the first reference in an entry, and of the bytes that the first hash is of.
pub(crate) const REFERENCES_AT: usize = 40;

const _: () = prove!(REFERENCES_AT == 40);

/// The bytes of a reference.
pub(crate) const REFERENCE_BYTES: usize = 8;

const _: () = prove!(REFERENCE_BYTES == 8);

/// The offset of the size of the bins data.
pub(crate) const BINS_SIZE_AT: usize = 16;

const _: () = prove!(BINS_SIZE_AT == 16);

/// The offset of the count of pages.
pub(crate) const PAGE_COUNT_AT: usize = 20;

const _: () = prove!(PAGE_COUNT_AT == 20);

// what pages are multiples of
const PAGE_BYTES: u32 = 512;

const _: () = prove!(PAGE_BYTES == 512);

/// Where a page of an entry goes.
#[derive(Clone, Copy)]
pub struct PageReference {
    /// Its offset in the bins data.
    pub offset: u32,
    /// Its bytes.
    pub size: u32,
}

impl PageReference {
    // whether this is a page of bins data of a size
    fn is_within(self, bins_size: u32) -> bool
        ensures { result ≡ is_page bins_size self }
    {
        self.offset.is_multiple_of(PAGE_BYTES)
            && self.size.is_multiple_of(PAGE_BYTES)
            && self.size != 0
            && u64::from(self.offset) + u64::from(self.size) <= u64::from(bins_size)
    }
}

/// The number of 32 bits at an offset of an entry.
pub(crate) fn u32_at(bytes: &[u8], offset: usize) -> u32
    requires { offset + 4 ≤ length bytes.now }
    ensures { result ≡ number_at offset 4 bytes.now }
{
    LittleEndian::read_u32(&bytes[offset..])
}

/// The reference of an index.
pub(crate) fn reference(bytes: &[u8], index: usize) -> PageReference
    requires { 40 + 8 * index + 8 ≤ length bytes.now }
    ensures { result ≡ reference_at bytes.now index }
{
    let at = REFERENCES_AT + REFERENCE_BYTES * index;
    PageReference {
        offset: u32_at(bytes, at),
        size: u32_at(bytes, at + 4),
    }
}

#[tactic(auto, unfolding(crate::specs::Pages::has_pages))]
/// Whether the references of an entry, and the bytes of its pages, are within it, and each page is within its bins
/// data.
pub(crate) fn are_pages_within(bytes: &[u8]) -> bool
    requires { 512 ≤ length bytes.now }
    ensures { result ≡ has_pages bytes.now }
{
    let count = u32_at(bytes, PAGE_COUNT_AT) as usize;
    if count > (bytes.len() - REFERENCES_AT) / REFERENCE_BYTES {
        return false;
    }
    let mut end = REFERENCES_AT + REFERENCE_BYTES * count;
    'pages: for index in 0..count {
        match page_end(bytes, index, end) {
            Some(next) => end = next,
            None => return false,
        }
    }
    true
}

// where the bytes of the page of an index end, which begin at a place, if it stands
fn page_end(bytes: &[u8], index: usize, start: usize) -> Option<usize>
    requires long { 512 ≤ length bytes.now }
    requires there { 40 + 8 * index + 8 ≤ length bytes.now }
    requires start { start ≡ page_start bytes.now index }
    requires within { start ≤ length bytes.now }
    ensures stands { IfSome result (λ end. page_stands bytes.now index ≡ true) }
    ensures end { IfSome result (λ end. (end ≡ page_start bytes.now (suc index)) × (end ≤ length bytes.now)) }
    ensures none { IfNone result (page_stands bytes.now index ≡ false) }
{
    let page = reference(bytes, index);
    let size = page.size as usize;
    if page.is_within(u32_at(bytes, BINS_SIZE_AT)) && size <= bytes.len() - start {
        Some(start + size)
    } else {
        None
    }
}
