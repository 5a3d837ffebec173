//! A recovery, with what is told of each log.
ghost use Rattle.std.specs.Prelude.{◌≡◌, map, IfOk, IfErr};
ghost use Rattle.refusals.specs.declared.refusal.Refusal.TheVariants.{NoMemory};
ghost use Rattle.hive_page_logs.specs.PageLogs.{IsPageLog, page_view, page_view_of};
ghost use Rattle.hive_recovery.specs.declared.log.Log.{Log};
ghost use Rattle.recovery_report.specs.Recoveries.{is_unclean, waiting_of, log_report, pages_report, missing_in, IsRecoveryOf};

use crate::judgement::RecoveryOutcome;
use crate::outcome::{PagesRun, RunsOutcome, outcome_of};
use base_block::{BaseBlock, SequenceNumber, Signature};
use hive_page_logs::{PageFault, PageLog, read_pages};
use hive_recovery::{
    EntryNumbers, Log, LogEnding, LogRun, Reach, RecoveryLimits, missing_number, next_number,
};
use refusals::Refusal;
use std::alloc::Global;

/// What is told of a log as one of pages, as Windows 8 and before write them.
#[derive(Clone, Copy)]
pub enum PagesReport {
    /// It is none.
    Other,
    /// It isn't whole.
    Faulty(PageFault),
    /// It is whole, and has so many pages.
    Whole(usize),
}

/// What is told of a log.
#[derive(Clone, Copy)]
pub struct LogReport {
    /// The numbers of its entries, if it has some.
    pub numbers: Option<EntryNumbers>,
    /// How it ended, as a log of entries.
    pub ending: LogEnding,
    /// What it is as a log of pages.
    pub pages: PagesReport,
    /// The number for want of which it isn't gone on with, if it isn't.
    pub missing: Option<SequenceNumber>,
}

/// A recovery: what was found, and what came of it.
#[derive(Drop)]
pub struct Recovery {
    /// The base block of the hive's file, if it has one, torn or not.
    pub block: Option<BaseBlock>,
    /// What is told of each log, in their order.
    pub logs: Vec<LogReport>,
    /// Which runs of logs were applied, one after the other.
    pub runs: Vec<LogRun>,
    /// Which pages were applied, if a log of pages was.
    pub pages: Option<PagesRun>,
    /// What came of it.
    pub outcome: RecoveryOutcome,
}

// the numbers of entries that the hive's file waits for, and that behind all that are applied
#[derive(Clone, Copy)]
pub(crate) struct Waiting {
    pub(crate) reach: Reach,
    pub(crate) next: SequenceNumber,
}

// what was read of logs
#[derive(Drop)]
struct LogsFound<'a> {
    reports: Vec<LogReport>,
    pages: Vec<PageLog<'a>>,
}

/// Recovers a hive's file by logs: chooses entries by their numbers, or the pages of one log, within limits, applies them, and judges
/// the result as a hive of any weight. Refused for want of memory alone; what else refuses the hive or its logs is the outcome.
pub fn recover(
    alloc: Global,
    file: &[u8],
    logs: &[Log<'_>],
    limits: RecoveryLimits,
) -> Result<Recovery, Refusal>
    ensures recovers { IfOk result (IsRecoveryOf file.now limits logs.now) }
    ensures refused { IfErr result (λ why. why ≡ NoMemory) }
{
    let block = BaseBlock::read_first(file);
    let found = logs_found(alloc, numbers_wanted(&block, logs, limits), logs)?;
    let RunsOutcome {
        runs,
        pages,
        outcome,
    } = outcome_of(alloc, file, &block, logs, &found.pages, limits);
    Ok(Recovery {
        block,
        logs: found.reports,
        runs,
        pages,
        outcome,
    })
}

// which numbers are waited for by a file with this base block, within limits
fn numbers_wanted(
    block: &Option<BaseBlock>,
    logs: &[Log<'_>],
    limits: RecoveryLimits,
) -> Option<Waiting>
    ensures { result ≡ waiting_of block.now limits logs.now }
{
    match block {
        Some(block) if is_unclean(block) => {
            let reach = limits.reach(block.secondary);
            let next = next_number(logs, reach);
            Some(Waiting { reach, next })
        }
        _ => None,
    }
}

// whether a block is whole, and not clean
fn is_unclean(block: &BaseBlock) -> bool
    ensures { result ≡ is_unclean block.now }
{
    block.signature == Signature::REGF && block.sum_is_right && !block.is_clean()
}

// what is told of logs, and what they are as logs of pages
fn logs_found<'a>(
    alloc: Global,
    waiting: Option<Waiting>,
    logs: &[Log<'a>],
) -> Result<LogsFound<'a>, Refusal>
    ensures reports { IfOk result (λ found. found.reports.items ≡ map (log_report waiting) logs.now) }
    ensures pages { IfOk result (λ found. map page_view found.pages.items ≡ map page_view_of logs.now) }
    ensures refused { IfErr result (λ why. why ≡ NoMemory) }
{
    let mut reports = Vec::new(alloc);
    let mut pages = Vec::new(alloc);
    'logs: for index in 0..logs.len() {
        let page = read_pages(alloc, &logs[index])?;
        reports.push(report_on(&logs[index], &page, waiting))?;
        pages.push(page)?;
    }
    Ok(LogsFound { reports, pages })
}

// what is told of a log, which is this as one of pages
fn report_on(log: &Log<'_>, page: &PageLog<'_>, waiting: Option<Waiting>) -> LogReport
    requires { IsPageLog log.now page.now }
    ensures { result ≡ log_report waiting log.now }
{
    LogReport {
        numbers: log.numbers(),
        ending: log.ending(),
        pages: pages_report(page),
        missing: missing(log, waiting),
    }
}

// what is told of a log of pages
fn pages_report(page: &PageLog<'_>) -> PagesReport
    ensures { (log : Log) → IsPageLog log page.now → result ≡ pages_report log }
{
    match page {
        PageLog::Other => PagesReport::Other,
        PageLog::Faulty(why) => PagesReport::Faulty(*why),
        PageLog::Whole(whole) => PagesReport::Whole(whole.dirt.vector.count()),
    }
}

// the number that a log lacks
fn missing(log: &Log<'_>, waiting: Option<Waiting>) -> Option<SequenceNumber>
    ensures { result ≡ missing_in waiting log.now }
{
    match waiting {
        Some(Waiting { reach, next }) => missing_number(log, reach, next),
        None => None,
    }
}
