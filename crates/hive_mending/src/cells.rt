//! Mending the cells of a bin.
ghost use Rattle.std.specs.Prelude.{◌≡◌, ◌+◌, ◌-◌, ◌%◌, ◌≤◌, ◌<◌, List, length, IfOk, OnOk};
ghost use Rattle.refusals.specs.declared.limits.TheConstants.{MOST_BINS_BYTES};
ghost use Rattle.hive_mending.specs.declared.gap.Gap.{Gap};
ghost use Rattle.hive_mending.specs.Breaks.{GoesOnAt};
ghost use Rattle.hive_mending.specs.Restarts.{HaveRestarts};
ghost use Rattle.hive_mending.specs.Mending.{MendsCell, MendsCells};

use crate::gap::{Gap, GapKind};
use crate::restarts::restarts;
use crate::words::{CELL_STEP, cell_end, put_free};
use std::alloc::{AllocError, Global};

/// Mends the cells of a bin from the first one up to the bin's end. If a cell is broken, 8 bytes are taken for each
/// 8 bytes of the bin from there on, and given back.
pub(crate) fn mend_cells(
    alloc: Global,
    bytes: &mut [u8],
    gaps: &mut Vec<Gap>,
    first: usize,
    end: usize,
) -> Result<(), AllocError>
    requires order { first ≤ end }
    requires within { end ≤ length bytes.old }
    requires most { end ≤ MOST_BINS_BYTES }
    requires first { first % 8 ≡ 0 }
    requires last { end % 8 ≡ 0 }
    ensures { OnOk result (MendsCells bytes.old bytes.new gaps.old.items gaps.new.items end first end) }
{
    let broken = sound_end(bytes, first, end);
    if broken == end {
        return Ok(());
    }
    let next = restarts(alloc, bytes, broken, end)?;
    mend_broken(bytes, gaps, &next, broken, end)
}

// where the chain of cells from the first one on ends: at the bin's end, or at the first offset that is no cell
fn sound_end(bytes: &[u8], first: usize, end: usize) -> usize
    requires order { first ≤ end }
    requires within { end ≤ length bytes.now }
    requires first { first % 8 ≡ 0 }
    requires last { end % 8 ≡ 0 }
    ensures after { first ≤ result }
    ensures within { result ≤ end }
    ensures eights { result % 8 ≡ 0 }
    ensures mends { (gaps : List Gap) → MendsCells bytes.now bytes.now gaps gaps end first result }
{
    let mut at = first;
    while at < end {
        match cell_end(bytes, at, end) {
            Some(behind) => at = behind,
            None => return at,
        }
    }
    at
}

// mends the cells from an offset on, with the places where cells go on from there
fn mend_broken(
    bytes: &mut [u8],
    gaps: &mut Vec<Gap>,
    next: &[u32],
    first: usize,
    end: usize,
) -> Result<(), AllocError>
    requires order { first ≤ end }
    requires within { end ≤ length bytes.old }
    requires most { end ≤ MOST_BINS_BYTES }
    requires first { first % 8 ≡ 0 }
    requires last { end % 8 ≡ 0 }
    requires restarts { HaveRestarts bytes.old end first next.now }
    ensures { OnOk result (MendsCells bytes.old bytes.new gaps.old.items gaps.new.items end first end) }
{
    let mut at = first;
    while at < end {
        let place = (at - first) / CELL_STEP;
        at = mend_cell(bytes, gaps, next[place] as usize, at, end)?;
    }
    Ok(())
}

// mends the cell at an offset, and gives the offset after it or after the gap
fn mend_cell(
    bytes: &mut [u8],
    gaps: &mut Vec<Gap>,
    restart: usize,
    at: usize,
    end: usize,
) -> Result<usize, AllocError>
    requires before { at < end }
    requires within { end ≤ length bytes.old }
    requires most { end ≤ MOST_BINS_BYTES }
    requires here { at % 8 ≡ 0 }
    requires last { end % 8 ≡ 0 }
    requires restart { GoesOnAt bytes.old end at restart }
    ensures { IfOk result (λ next. MendsCell bytes.old bytes.new gaps.old.items gaps.new.items end at next) }
{
    if let Some(behind) = cell_end(bytes, at, end) {
        return Ok(behind);
    }
    gaps.push(Gap {
        kind: GapKind::BadCell,
        at: at as u32,
        bytes: (restart - at) as u32,
    })?;
    put_free(bytes, at, restart - at);
    Ok(restart)
}
