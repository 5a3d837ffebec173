//! The recovered file.
ghost use Rattle.std.specs.Prelude.{◌≡◌, ◌⊎◌, Ok, Err, ◌++◌, take, drop, IfOk, IfErr, OnOk};
ghost use Rattle.refusals.specs.declared.refusal.Refusal.TheVariants.{NoMemory};
ghost use Rattle.hive_recovery.specs.Plans.{seen};
ghost use Rattle.hive_recovery.specs.Recovered.{recovered_file, file_of, why_lacking, bins_of};

use crate::bins::{HEAD_BYTES, recovered_bins};
use crate::planning::RecoveryPlan;
use refusals::{Cause, Refusal};
use std::alloc::{AllocError, Global};

#[tactic(auto, unfolding(crate::specs::Recovered::recovered_file))]
/// All bytes of the recovered file, which begins with the plan's first sector.
///
/// Refused with `HiveDamaged` of hive 0: `Truncated` if the file has fewer than 4,096 bytes, or if nothing is applied and it
/// ends before its bins data do; `BadLog` if a byte is neither the file's nor of a page that is applied. Otherwise refused for
/// want of memory alone.
pub fn carry_out(alloc: Global, file: &[u8], plan: &RecoveryPlan<'_>) -> Result<Vec<u8>, Refusal>
    ensures recovered { IfOk result (λ out. recovered_file file.now (seen plan.now) ≡ Ok out.items) }
    ensures begins { IfOk result (λ out. take 512 out.items ≡ plan.now.sector) }
    ensures refused { IfErr result (λ why. (why ≡ NoMemory) ⊎ (recovered_file file.now (seen plan.now) ≡ Err why)) }
{
    if file.len() < HEAD_BYTES {
        return Err(Refusal::from(Cause::Truncated));
    }
    match recovered_bins(alloc, file, &plan.entries, plan.bins_size) {
        Ok(bins) => Ok(file_of_parts(alloc, &plan.sector, &file[512..HEAD_BYTES], &bins)?),
        Err(Refusal::HiveDamaged { .. }) => Err(why_none(plan)),
        Err(why) => Err(why),
    }
}

// why there is no file if a byte isn't there
fn why_none(plan: &RecoveryPlan<'_>) -> Refusal
    ensures { result ≡ why_lacking (seen plan.now) }
{
    if plan.entries.is_empty() {
        Refusal::from(Cause::Truncated)
    } else {
        Refusal::from(Cause::BadLog)
    }
}

/// The bytes of a file of three parts: its first sector, what follows up to its bins data, and these.
pub fn file_of_parts(
    alloc: Global,
    sector: &[u8],
    rest: &[u8],
    bins: &[u8],
) -> Result<Vec<u8>, AllocError>
    ensures { IfOk result (λ out. out.items ≡ sector.now ++ rest.now ++ bins.now) }
{
    let mut out = Vec::new(alloc);
    out.extend_from_slice(sector)?;
    out.extend_from_slice(rest)?;
    out.extend_from_slice(bins)?;
    Ok(out)
}
