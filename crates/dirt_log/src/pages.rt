//! Where the parts of a log lie.

ghost use Rattle.refusals.specs.declared.limits.TheConstants.{MOST_BINS_BYTES};
ghost use Rattle.std.specs.Prelude.{◌≡◌, ◌≤◌, ◌+◌, ◌*◌, length};
ghost use Rattle.dirt_log.specs.LogEncoding.{page_of, pages_at};

use dirty_vector::PAGE_BYTES;

/// Bytes of bins data for which the bitmap has a byte.
pub(crate) const BYTES_PER_BITMAP_BYTE: usize = 4096;

/// The offset of the four letters.
pub(crate) const LETTERS_AT: usize = 512;

/// The four letters after the block.
pub(crate) const LETTERS: &[u8] = b"DIRT";

/// The offset of the bitmap.
pub(crate) const BITMAP_AT: usize = 516;

const _: () = prove!(BYTES_PER_BITMAP_BYTE == 4096);

const _: () = prove!(LETTERS_AT == 512);

const _: () = prove!(BITMAP_AT == 516);

/// Where the dirty pages begin: at the end of the bitmap, rounded up to a multiple of 512.
pub(crate) fn pages_start(bins_size: usize) -> usize
    requires { bins_size ≤ MOST_BINS_BYTES }
    ensures { result ≡ pages_at bins_size }
{
    (BITMAP_AT + bins_size / BYTES_PER_BITMAP_BYTE).div_ceil(PAGE_BYTES) * PAGE_BYTES
}

/// The bytes of a page.
pub(crate) fn page_bytes(image: &[u8], page: usize) -> &[u8]
    requires { 512 * (page + 1) ≤ length image.now }
    ensures value { result.now ≡ page_of image.now page }
    ensures long { length result.now ≡ 512 }
{
    &image[PAGE_BYTES * page..PAGE_BYTES * (page + 1)]
}
