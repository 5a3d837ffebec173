//! What comes of a recovery.
ghost use Rattle.std.specs.Prelude.{◌≡◌, true, map, option_map};
ghost use Rattle.base_block.specs.Layout.{block_at, is_clean_block};
ghost use Rattle.hive_recovery.specs.Plans.{seen, is_torn_block};
ghost use Rattle.hive_page_logs.specs.PageLogs.{page_view, whole_seen};
ghost use Rattle.recovery_report.specs.Outcomes.{IsOutcome, IsUnplanned, IsOutcomeOfPlan, IsOutcomeOfPages, fitting, lacks_log, time_for, number_for};

use crate::judgement::{RecoveryOutcome, judged};
use base_block::{BaseBlock, SequenceNumber, Signature};
use hive_page_logs::{PageLog, WholePageLog, newest_fitting, recover_by_pages};
use hive_recovery::{Log, LogRun, RecoveryLimits, RecoveryPlan, carry_out, plan};
use refusals::{Cause, Refusal};
use std::alloc::Global;

/// The pages of a log that are applied: the log is one of Windows 8 and before.
#[derive(Clone, Copy)]
pub struct PagesRun {
    /// How many pages, of 512 bytes each.
    pub count: usize,
    /// The log's number.
    pub number: SequenceNumber,
}

/// What comes of a recovery, and what of logs was applied.
#[derive(Drop)]
pub(crate) struct RunsOutcome {
    /// The runs of entries.
    pub(crate) runs: Vec<LogRun>,
    /// The pages.
    pub(crate) pages: Option<PagesRun>,
    /// What comes of it.
    pub(crate) outcome: RecoveryOutcome,
}

/// What comes of the recovery of a hive's file, which has this base block, by logs, which are these as logs of pages, within limits.
pub(crate) fn outcome_of(
    alloc: Global,
    file: &[u8],
    block: &Option<BaseBlock>,
    logs: &[Log<'_>],
    pages: &[PageLog<'_>],
    limits: RecoveryLimits,
) -> RunsOutcome
    ensures { IsOutcome file.now block.now limits logs.now (map page_view pages.now) result.runs.items result.pages result.outcome }
{
    match plan(alloc, file, logs, limits) {
        Ok(chosen) => {
            let outcome = made(alloc, file, &chosen);
            RunsOutcome {
                runs: chosen.runs,
                pages: None,
                outcome,
            }
        }
        Err(why) => unplanned(alloc, file, block, pages, limits, why),
    }
}

// what comes of a file for which there is no plan, for a reason
fn unplanned(
    alloc: Global,
    file: &[u8],
    block: &Option<BaseBlock>,
    pages: &[PageLog<'_>],
    limits: RecoveryLimits,
    why: Refusal,
) -> RunsOutcome
    ensures { IsUnplanned file.now block.now limits (map page_view pages.now) why result.runs.items result.pages result.outcome }
{
    match fitting(block, pages, limits, why) {
        Some(log) => RunsOutcome {
            runs: Vec::new(alloc),
            pages: Some(PagesRun {
                count: log.dirt.vector.count(),
                number: log.dirt.base.primary,
            }),
            outcome: made_by_pages(alloc, file, log, number_for(block, log)),
        },
        None => RunsOutcome {
            runs: Vec::new(alloc),
            pages: None,
            outcome: RecoveryOutcome::Refused(why),
        },
    }
}

// the log of pages that a hive is recovered by, if there is no plan for a reason
fn fitting<'l, 'a>(
    block: &Option<BaseBlock>,
    pages: &'l [PageLog<'a>],
    limits: RecoveryLimits,
    why: Refusal,
) -> Option<&'l WholePageLog<'a>>
    ensures { option_map (λ log. whole_seen log.now) result ≡ fitting block.now limits (map page_view pages.now) why }
{
    match block {
        Some(block) if lacks_log(is_torn(block), why) => {
            newest_fitting(pages, time_for(block), limits)
        }
        _ => None,
    }
}

// whether a reason is that no log fits; that of no hive is one if the base block is torn
fn lacks_log(torn: bool, why: Refusal) -> bool
    ensures { result ≡ lacks_log torn why }
{
    match why {
        Refusal::HiveDamaged { cause, .. } => match cause {
            Cause::BadLog => true,
            Cause::BadBase => torn,
            _ => false,
        },
        _ => false,
    }
}

// whether a block is torn
fn is_torn(block: &BaseBlock) -> bool
    ensures { result ≡ is_torn_block block.now }
{
    !(block.signature == Signature::REGF && block.sum_is_right)
}

// the time that a log of pages has to have; any, if the base block is torn
fn time_for(block: &BaseBlock) -> Option<u64>
    ensures { result ≡ time_for block.now }
{
    if is_torn(block) {
        None
    } else {
        Some(block.last_written)
    }
}

// the number of a hive that a log of pages recovers: its own first one, or the log's if its base block is torn
fn number_for(block: &Option<BaseBlock>, log: &WholePageLog<'_>) -> SequenceNumber
    ensures { result ≡ number_for block.now (whole_seen log.now) }
{
    match block {
        Some(block) if !is_torn(block) => block.primary,
        _ => log.dirt.base.primary,
    }
}

// what comes of a log of pages
fn made_by_pages(
    alloc: Global,
    file: &[u8],
    log: &WholePageLog<'_>,
    number: SequenceNumber,
) -> RecoveryOutcome
    ensures { IsOutcomeOfPages file.now number (whole_seen log.now) result }
{
    match recover_by_pages(alloc, file, log, number) {
        Ok(bytes) => judged(alloc, bytes, number, false),
        Err(why) => RecoveryOutcome::Refused(why),
    }
}

// what comes of a plan
fn made(alloc: Global, file: &[u8], chosen: &RecoveryPlan<'_>) -> RecoveryOutcome
    requires { is_clean_block (block_at chosen.now.sector) ≡ true }
    ensures { IsOutcomeOfPlan file.now (seen chosen.now) result }
{
    let number = BaseBlock::read(&chosen.sector).primary;
    match carry_out(alloc, file, chosen) {
        Ok(bytes) => judged(alloc, bytes, number, chosen.entries.is_empty()),
        Err(why) => RecoveryOutcome::Refused(why),
    }
}
