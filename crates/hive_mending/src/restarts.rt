//! Where cells of a bin go on after a break, for each place of the bin.
ghost use Rattle.std.specs.Prelude.{◌≡◌, ◌+◌, ◌-◌, ◌*◌, ◌/◌, ◌%◌, ◌≤◌, ◌<◌, ℕ, length, slice_index, IfOk};
ghost use Rattle.refusals.specs.declared.limits.TheConstants.{MOST_BINS_BYTES};
ghost use Rattle.hive_mending.specs.Breaks.{GoesOnAt};
ghost use Rattle.hive_mending.specs.Restarts.{AreRestarts, IsRestart, HaveRestarts};

use crate::words::{CELL_STEP, cell_end};
use std::alloc::{AllocError, Global};

/// For each 8 bytes of a bin from an offset on: where cells go on from there. Goes over the places once, the last one
/// first.
#[tactic(auto, using(crate::proofs::Steps::restarts_done))]
pub(crate) fn restarts(
    alloc: Global,
    bytes: &[u8],
    first: usize,
    end: usize,
) -> Result<Vec<u32>, AllocError>
    requires order { first ≤ end }
    requires within { end ≤ length bytes.now }
    requires most { end ≤ MOST_BINS_BYTES }
    requires first { first % 8 ≡ 0 }
    requires last { end % 8 ≡ 0 }
    ensures { IfOk result (λ next. HaveRestarts bytes.now end first next.items) }
{
    let places = (end - first) / CELL_STEP;
    let mut counts = vec![in alloc; 0u32; places + 1]?;
    let mut next = vec![in alloc; end as u32; places + 1]?;
    fill(bytes, &mut counts, &mut next, first, end);
    Ok(next)
}

// counts the cells of the chain from each place, and finds where cells go on from there
#[tactic(auto, using(crate::proofs::Steps::restarts_on))]
fn fill(bytes: &[u8], counts: &mut [u32], next: &mut [u32], first: usize, end: usize)
    requires order { first ≤ end }
    requires within { end ≤ length bytes.now }
    requires most { end ≤ MOST_BINS_BYTES }
    requires first { first % 8 ≡ 0 }
    requires last { end % 8 ≡ 0 }
    requires start { AreRestarts bytes.now end first counts.old next.old ((end - first) / 8) }
    ensures { AreRestarts bytes.now end first counts.new next.new 0 }
{
    let mut place = (end - first) / CELL_STEP;
    while 0 < place {
        place -= 1;
        let (count, at) = restart(bytes, counts, next, first, end, place);
        counts[place] = count;
        next[place] = at;
    }
}

// the cells of the chain from a place, and where cells go on from there, if both are known of all later places
fn restart(
    bytes: &[u8],
    counts: &[u32],
    next: &[u32],
    first: usize,
    end: usize,
    place: usize,
) -> (u32, u32)
    requires within { end ≤ length bytes.now }
    requires most { end ≤ MOST_BINS_BYTES }
    requires first { first % 8 ≡ 0 }
    requires last { end % 8 ≡ 0 }
    requires before { first + 8 * place < end }
    requires later { AreRestarts bytes.now end first counts.now next.now (place + 1) }
    ensures { IsRestart bytes.now end first place result.0 result.1 }
{
    let at = first + place * CELL_STEP;
    let later = next[place + 1];
    match cell_end(bytes, at, end) {
        Some(behind) => {
            let count = counts[(behind - first) / CELL_STEP] + 1;
            if count < counts[(later as usize - first) / CELL_STEP] {
                (count, later)
            } else {
                (count, at as u32)
            }
        }
        None => (0, later),
    }
}
