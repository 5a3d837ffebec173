//! Which entries are applied.
ghost use Rattle.std.specs.Prelude.{◌≡◌, ◌⊎◌, ◌<◌, ◌≤◌, true, List, None, Ok, Err, length, take, IfOk, IfErr, IfSome, IfNone, option_map};
ghost use Rattle.refusals.specs.declared.refusal.Refusal.TheVariants.{NoMemory};
ghost use Rattle.base_block.specs.Judgements.{IsPrimary};
ghost use Rattle.base_block.specs.Layout.{block_at, is_clean_block};
ghost use Rattle.hive_recovery.specs.declared.log.Log.{Log};
ghost use Rattle.hive_recovery.specs.Runs.{AreRunsOf, IsNumbered};
ghost use Rattle.hive_recovery.specs.Plans.{seen, is_torn_block, plan_of, plan_by_block, replayed, torn_plan, unclean_plan, newest_of, is_newer, no_log, log_replayed, NothingChosen, IsPlanRefused};

use crate::limits::{Reach, RecoveryLimits};
use crate::log::Log;
use crate::sector::recovered;
use crate::sequence::{LogRun, is_below, last_of, number_after, one_log, sequence_from, usable};
use base_block::{BaseBlock, SequenceNumber, Signature};
use hive_log_entries::LogEntry;
use refusals::{Cause, Refusal};
use std::alloc::Global;

/// What the recovered hive is made of.
#[derive(Drop)]
pub struct RecoveryPlan<'a> {
    /// Its first sector.
    pub sector: [u8; 512],
    /// The entries that are applied, one after the other; none if the hive is clean.
    pub entries: Vec<LogEntry<'a>>,
    /// Which runs of logs these entries are.
    pub runs: Vec<LogRun>,
    /// Its bytes of bins data.
    pub bins_size: u32,
}

/// Chooses the entries that are applied to a hive's file. Of one that wasn't closed cleanly, the first has the number of the limits,
/// or else the hive's own second number; of one whose base block is torn, the number of the limits, if they tell one. No entry is
/// above the greatest number of the limits. A clean hive stays as it is.
///
/// Refused with `HiveDamaged` of hive 0: `Truncated` if the file has no first sector; `BadLog` if no log fits; `BadBase` if none
/// does and the file doesn't begin with `regf`. Refused as a primary file's base block is if the file's own isn't torn, or if
/// that of the recovered hive is refused. Otherwise refused for want of memory alone.
pub fn plan<'a>(
    alloc: Global,
    file: &[u8],
    logs: &[Log<'a>],
    limits: RecoveryLimits,
) -> Result<RecoveryPlan<'a>, Refusal>
    ensures chosen { IfOk result (λ plan. plan_of file.now limits logs.now ≡ Ok (seen plan)) }
    ensures runs { IfOk result (λ plan. AreRunsOf limits.to logs.now plan.runs.items plan.entries.items) }
    ensures clean { IfOk result (λ plan. is_clean_block (block_at plan.sector) ≡ true) }
    ensures judged { IfOk result (λ plan. IsPrimary (block_at plan.sector)) }
    ensures refused { IfErr result (IsPlanRefused file.now limits logs.now) }
{
    let chosen = match choose(alloc, file, logs, limits) {
        Ok(chosen) => chosen,
        Err(why) => return Err(why),
    };
    match BaseBlock::read(&chosen.sector).judge_primary() {
        Ok(()) => Ok(chosen),
        Err(why) => Err(why),
    }
}

#[tactic(auto, unfolding(crate::specs::Plans::plan_of))]
// chooses, and leaves the new base block unjudged
fn choose<'a>(
    alloc: Global,
    file: &[u8],
    logs: &[Log<'a>],
    limits: RecoveryLimits,
) -> Result<RecoveryPlan<'a>, Refusal>
    ensures chosen { IfOk result (λ plan. plan_of file.now limits logs.now ≡ Ok (seen plan)) }
    ensures runs { IfOk result (λ plan. AreRunsOf limits.to logs.now plan.runs.items plan.entries.items) }
    ensures clean { IfOk result (λ plan. is_clean_block (block_at plan.sector) ≡ true) }
    ensures refused { IfErr result (NothingChosen file.now limits logs.now) }
{
    let Some(sector) = first_sector(file) else {
        return Err(Refusal::from(Cause::Truncated));
    };
    let block = BaseBlock::read(&sector);
    if !is_torn(&block) {
        match block.judge_primary() {
            Ok(()) => {}
            Err(why) => return Err(why),
        }
    }
    choose_by_block(alloc, sector, &block, logs, limits)
}

#[tactic(auto, unfolding(crate::specs::Plans::plan_by_block))]
// chooses by the block of the first sector
fn choose_by_block<'a>(
    alloc: Global,
    sector: [u8; 512],
    block: &BaseBlock,
    logs: &[Log<'a>],
    limits: RecoveryLimits,
) -> Result<RecoveryPlan<'a>, Refusal>
    requires { block.now ≡ block_at sector }
    ensures chosen { IfOk result (λ plan. plan_by_block sector block.now limits logs.now ≡ Ok (seen plan)) }
    ensures runs { IfOk result (λ plan. AreRunsOf limits.to logs.now plan.runs.items plan.entries.items) }
    ensures clean { IfOk result (λ plan. is_clean_block (block_at plan.sector) ≡ true) }
    ensures refused { IfErr result (λ why. (why ≡ NoMemory) ⊎ (plan_by_block sector block.now limits logs.now ≡ Err why)) }
{
    if is_torn(block) {
        return choose_newest(alloc, block, logs, limits);
    }
    if block.is_clean() {
        return Ok(RecoveryPlan {
            sector,
            entries: Vec::new(alloc),
            runs: Vec::new(alloc),
            bins_size: block.bins_size,
        });
    }
    choose_in_sequence(alloc, &sector, limits.reach(block.secondary), logs)
}

// whether a block is torn
fn is_torn(block: &BaseBlock) -> bool
    ensures { result ≡ is_torn_block block.now }
{
    !(block.signature == Signature::REGF && block.sum_is_right)
}

// the first sector of a file
fn first_sector(file: &[u8]) -> Option<[u8; 512]>
    ensures some { IfSome result (λ sector. (sector ≡ take 512 file.now) × (512 ≤ length file.now)) }
    ensures none { IfNone result (length file.now < 512) }
{
    if file.len() < 512 {
        return None;
    }
    let mut sector = [0; 512];
    sector.copy_from_slice(&file[..512]);
    Some(sector)
}

#[tactic(auto, unfolding(crate::specs::Plans::unclean_plan))]
// the entries within a reach
fn choose_in_sequence<'a>(
    alloc: Global,
    sector: &[u8; 512],
    reach: Reach,
    logs: &[Log<'a>],
) -> Result<RecoveryPlan<'a>, Refusal>
    ensures chosen { IfOk result (λ plan. unclean_plan sector.now reach logs.now ≡ Ok (seen plan)) }
    ensures runs { IfOk result (λ plan. AreRunsOf reach.to logs.now plan.runs.items plan.entries.items) }
    ensures clean { IfOk result (λ plan. is_clean_block (block_at plan.sector) ≡ true) }
    ensures refused { IfErr result (λ why. (why ≡ NoMemory) ⊎ (unclean_plan sector.now reach logs.now ≡ Err why)) }
{
    let found = sequence_from(alloc, logs, reach)?;
    replay(sector, found.entries, found.runs)
}

#[tactic(auto, unfolding(crate::specs::Plans::torn_plan))]
// the entries of the newest log
fn choose_newest<'a>(
    alloc: Global,
    block: &BaseBlock,
    logs: &[Log<'a>],
    limits: RecoveryLimits,
) -> Result<RecoveryPlan<'a>, Refusal>
    ensures chosen { IfOk result (λ plan. torn_plan block.now limits logs.now ≡ Ok (seen plan)) }
    ensures runs { IfOk result (λ plan. AreRunsOf limits.to logs.now plan.runs.items plan.entries.items) }
    ensures clean { IfOk result (λ plan. is_clean_block (block_at plan.sector) ≡ true) }
    ensures refused { IfErr result (λ why. (why ≡ NoMemory) ⊎ (torn_plan block.now limits logs.now ≡ Err why)) }
{
    match newest(logs, limits.to) {
        Some((number, log)) => choose_log(alloc, number, log, limits),
        None => Err(why_no_log(block)),
    }
}

// why nothing is chosen if no log fits a torn block
fn why_no_log(block: &BaseBlock) -> Refusal
    ensures { result ≡ no_log block.now }
{
    if block.signature == Signature::REGF {
        Refusal::from(Cause::BadLog)
    } else {
        Refusal::from(Cause::BadBase)
    }
}

// the entries of a log that may be applied, which has a number among others
fn choose_log<'a>(
    alloc: Global,
    number: usize,
    log: &Log<'a>,
    limits: RecoveryLimits,
) -> Result<RecoveryPlan<'a>, Refusal>
    ensures chosen { IfOk result (λ plan. log_replayed limits log.now ≡ Ok (seen plan)) }
    ensures runs { IfOk result (λ plan. (logs : List Log) → IsNumbered logs number log.now →
        AreRunsOf limits.to logs plan.runs.items plan.entries.items) }
    ensures clean { IfOk result (λ plan. is_clean_block (block_at plan.sector) ≡ true) }
    ensures refused { IfErr result (λ why. (why ≡ NoMemory) ⊎ (log_replayed limits log.now ≡ Err why)) }
{
    let Some(sector) = first_sector(log.bytes) else {
        return Err(Refusal::from(Cause::BadLog));
    };
    let found = one_log(alloc, number, log, limits)?;
    replay(&sector, found.entries, found.runs)
}

// the log whose last entry that may be applied has the greatest number, with its number among the logs
fn newest<'l, 'a>(logs: &'l [Log<'a>], most: Option<SequenceNumber>) -> Option<(usize, &'l Log<'a>)>
    ensures newest { option_map (λ found. found.1.now) result ≡ newest_of most None logs.now }
    ensures there { IfSome result (λ found. IsNumbered logs.now found.0 found.1.now) }
{
    let mut best = None;
    let mut number = 0;
    'logs: for index in 0..logs.len() {
        let log = &logs[index];
        if is_ahead(most, best, log) {
            best = Some(log);
            number = index + 1;
        }
    }
    match best {
        Some(log) => Some((number, log)),
        None => None,
    }
}

// whether a log is newer than the newest before it
fn is_ahead(most: Option<SequenceNumber>, best: Option<&Log<'_>>, log: &Log<'_>) -> bool
    ensures { result ≡ is_newer most (option_map (λ other. other.now) best.entry) log.now }
{
    let entries = usable(log, most);
    if entries.is_empty() {
        return false;
    }
    let zero = SequenceNumber(0);
    match best {
        None => true,
        Some(best) => is_below(
            number_after(usable(best, most), zero),
            number_after(entries, zero),
        ),
    }
}

#[tactic(auto, unfolding(crate::specs::Plans::replayed))]
// entries over a hive with a first sector
fn replay<'a>(
    sector: &[u8; 512],
    entries: Vec<LogEntry<'a>>,
    runs: Vec<LogRun>,
) -> Result<RecoveryPlan<'a>, Refusal>
    ensures chosen { IfOk result (λ plan. replayed sector.now entries.entry.items ≡ Ok (seen plan)) }
    ensures same { IfOk result (λ plan. (plan.entries.items ≡ entries.entry.items) × (plan.runs ≡ runs)) }
    ensures clean { IfOk result (λ plan. is_clean_block (block_at plan.sector) ≡ true) }
    ensures refused { IfErr result (λ why. replayed sector.now entries.entry.items ≡ Err why) }
{
    if entries.is_empty() {
        return Err(Refusal::from(Cause::BadLog));
    }
    let last = last_of(&entries);
    let number = last.number();
    let bins_size = last.bins_size();
    Ok(RecoveryPlan {
        sector: recovered(sector, number, bins_size),
        entries,
        runs,
        bins_size,
    })
}
