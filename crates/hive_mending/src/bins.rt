//! Mending the bins of hive bins data.
ghost use Rattle.std.specs.Prelude.{◌≡◌, ◌+◌, ◌%◌, ◌≤◌, ◌<◌, [], length, IfOk, OnOk};
ghost use Rattle.refusals.specs.declared.limits.TheConstants.{MOST_BINS_BYTES};
ghost use Rattle.hive_mending.specs.Mending.{IsMended, IsMadePage, MendsBin, SameWithin, SameFrom};

use crate::cells::mend_cells;
use crate::gap::{Gap, GapKind};
use crate::words::{BIN_HEADER_BYTES, BIN_SIGNATURE, PAGE_BYTES, bin_end, put_free, put_u32};
use std::alloc::{AllocError, Global};

/// Mends whole pages, and adds the gaps to a list.
pub(crate) fn mend_bins(
    alloc: Global,
    bytes: &mut [u8],
    gaps: &mut Vec<Gap>,
) -> Result<(), AllocError>
    requires pages { length bytes.old % 4096 ≡ 0 }
    requires most { length bytes.old ≤ MOST_BINS_BYTES }
    requires none { gaps.old.items ≡ [] }
    ensures { OnOk result (IsMended bytes.old bytes.new gaps.new.items) }
{
    let mut at = 0;
    while at < bytes.len() {
        at = mend_bin(alloc, bytes, gaps, at)?;
    }
    Ok(())
}

// mends the bin or the page at an offset, and gives its end
fn mend_bin(
    alloc: Global,
    bytes: &mut [u8],
    gaps: &mut Vec<Gap>,
    at: usize,
) -> Result<usize, AllocError>
    requires pages { length bytes.old % 4096 ≡ 0 }
    requires most { length bytes.old ≤ MOST_BINS_BYTES }
    requires here { at % 4096 ≡ 0 }
    requires before { at < length bytes.old }
    ensures { IfOk result (λ next. MendsBin bytes.old bytes.new gaps.old.items gaps.new.items at next) }
{
    match bin_end(bytes, at) {
        Some(end) => {
            mend_cells(alloc, bytes, gaps, at + BIN_HEADER_BYTES, end)?;
            Ok(end)
        }
        None => {
            gaps.push(Gap {
                kind: GapKind::BadBin,
                at: at as u32,
                bytes: PAGE_BYTES as u32,
            })?;
            lay_page(bytes, at);
            Ok(at + PAGE_BYTES)
        }
    }
}

// the page at an offset becomes a bin with one free cell
fn lay_page(bytes: &mut [u8], at: usize)
    requires within { at + 4096 ≤ length bytes.old }
    requires most { length bytes.old ≤ MOST_BINS_BYTES }
    ensures page { IsMadePage bytes.old bytes.new at }
    ensures before { SameWithin bytes.old bytes.new 0 at }
    ensures after { SameFrom bytes.old bytes.new (at + 4096) }
{
    put_u32(bytes, at, BIN_SIGNATURE);
    put_u32(bytes, at + 4, at as u32);
    put_u32(bytes, at + 8, PAGE_BYTES as u32);
    put_free(bytes, at + BIN_HEADER_BYTES, PAGE_BYTES - BIN_HEADER_BYTES);
}
