//! Hive bins data of any content, made an image.
ghost use Rattle.std.specs.Prelude.{◌≡◌, MatchResult};
ghost use Rattle.hive_mending.specs.Mending.{IsMended, MendRefused, whole_pages};

use crate::bins::mend_bins;
use crate::gap::Gap;
use crate::words::PAGE_BYTES;
use hive_cells::Image;
use refusals::Refusal;
use refusals::limits::MOST_BINS_BYTES;
use std::alloc::Global;

/// Mended hive bins data, and what was damaged.
#[derive(Drop)]
pub struct MendedImage {
    /// The data, which bins and cells tile.
    pub image: Image,
    /// The gaps, in the order of their offsets.
    pub gaps: Vec<Gap>,
}

/// Mends hive bins data of any content. What follows the last whole page of 4,096 bytes is cut off. In whole pages only
/// the starts of gaps are written: the first 36 bytes of a page where no bin stood, and the first four bytes of what
/// lies in no cell of its bin. Data that bins and cells tile are an image as they are, with no gap.
///
/// Refused with `TooLarge` exactly if the whole pages are over 64 MiB, and otherwise with `NoMemory` alone.
pub fn mend(alloc: Global, bytes: Vec<u8>) -> Result<MendedImage, Refusal>
    ensures { MatchResult result
        (λ mended. IsMended (whole_pages bytes.items) mended.image.bytes mended.gaps.items)
        (MendRefused bytes.items) }
{
    let mut bytes = bytes;
    bytes.truncate(bytes.len() / PAGE_BYTES * PAGE_BYTES);
    if bytes.len() > MOST_BINS_BYTES {
        return Err(Refusal::TooLarge);
    }
    let mut gaps = Vec::new(alloc);
    mend_bins(alloc, &mut bytes, &mut gaps)?;
    let image = Image::open(alloc, bytes)?;
    Ok(MendedImage { image, gaps })
}
