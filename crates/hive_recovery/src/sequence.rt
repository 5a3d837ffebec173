//! Entries in the order of their numbers.
ghost use Rattle.std.specs.Prelude.{◌≡◌, ◌<◌, ◌-◌, ◌++◌, List, [], ℕ, true, Option, length, slice_index_or, map, option_map, IfOk, OnOk, IfSome, IfNone};
ghost use Rattle.hive_log_entries.specs.Entries.{number_of};
ghost use Rattle.hive_recovery.specs.declared.log.Log.{Log};
ghost use Rattle.hive_recovery.specs.Runs.{AreLastOf, AreRunsOf, IsNumbered};
ghost use Rattle.hive_recovery.specs.Sequences.{is_older, left_from, begins, number_behind, first_with, missing_of};
ghost use Rattle.hive_recovery.specs.Limits.{upto, usable, starting, sequence_of, next_of};
ghost use Rattle.base_block.specs.declared.fields.SequenceNumber.{SequenceNumber};

use crate::limits::{Reach, RecoveryLimits, is_beyond};
use crate::log::Log;
use base_block::SequenceNumber;
use hive_log_entries::LogEntry;
use std::alloc::{AllocError, Global};

/// Whether a number is below another. Numbers wrap, so it is if the other is at most 2,147,483,648 ahead of it.
pub fn is_below(number: SequenceNumber, other: SequenceNumber) -> bool
    ensures { result ≡ is_older number.0 other.0 }
{
    number.0.wrapping_sub(other.0) >= 0x8000_0000
}

/// A run of a log's entries that are applied: those from one on, up to the log's last that may be applied.
#[derive(Clone, Copy)]
pub struct LogRun {
    /// The number of the log among the logs, from 1 on.
    pub log: usize,
    /// The number of the run's first entry.
    pub first: SequenceNumber,
    /// The number of its last entry.
    pub last: SequenceNumber,
}

/// Entries that are applied, and which runs of logs they are.
#[derive(Drop)]
pub(crate) struct Sequence<'a> {
    /// The entries, one after the other.
    pub(crate) entries: Vec<LogEntry<'a>>,
    /// The runs, in the same order.
    pub(crate) runs: Vec<LogRun>,
}

// what a log has from a number on, and the log's number among the logs
#[derive(Clone, Copy)]
struct Part<'l, 'a> {
    log: usize,
    entries: &'l [LogEntry<'a>],
}

/// The entries within a reach whose turn comes one after the other, of all logs: first those of a log that has the first number,
/// and then those of a log that has the number behind them, and so on.
pub(crate) fn sequence_from<'a>(
    alloc: Global,
    logs: &[Log<'a>],
    reach: Reach,
) -> Result<Sequence<'a>, AllocError>
    ensures entries { IfOk result (λ found. found.entries.items ≡ sequence_of reach logs.now) }
    ensures runs { IfOk result (λ found. AreRunsOf reach.to logs.now found.runs.items found.entries.items) }
{
    let mut entries = Vec::new(alloc);
    let mut runs = Vec::new(alloc);
    let mut next = reach.from;
    'rounds: for _round in 0..logs.len() {
        next = add_round(&mut entries, &mut runs, logs, reach, next)?;
    }
    Ok(Sequence { entries, runs })
}

// adds what the first log has that goes on with a number; answers the number behind it
fn add_round<'a>(
    entries: &mut Vec<LogEntry<'a>>,
    runs: &mut Vec<LogRun>,
    logs: &[Log<'a>],
    reach: Reach,
    next: SequenceNumber,
) -> Result<SequenceNumber, AllocError>
    ensures entries { OnOk result (entries.new.items ≡ entries.old.items ++ first_with reach.from.0 next.0 (map (usable reach.to) logs.now)) }
    ensures next { IfOk result (λ then. then.0 ≡ number_behind next.0 (first_with reach.from.0 next.0 (map (usable reach.to) logs.now))) }
    ensures runs { OnOk result (AreRunsOf reach.to logs.now runs.old.items entries.old.items →
        AreRunsOf reach.to logs.now runs.new.items entries.new.items) }
{
    let Some(part) = next_part(logs, reach, next) else {
        return Ok(next);
    };
    append(entries, part.entries)?;
    push_run(runs, &part)?;
    Ok(number_after(part.entries, next))
}

/// The entries of a log that may be applied, which has a number among others: all, or those from the first number on.
pub(crate) fn one_log<'a>(
    alloc: Global,
    number: usize,
    log: &Log<'a>,
    limits: RecoveryLimits,
) -> Result<Sequence<'a>, AllocError>
    ensures entries { IfOk result (λ found. found.entries.items ≡ starting limits.from (usable limits.to log.now)) }
    ensures runs { IfOk result (λ found. (logs : List Log) → IsNumbered logs number log.now →
        AreRunsOf limits.to logs found.runs.items found.entries.items) }
{
    let part = Part {
        log: number,
        entries: starting(usable(log, limits.to), limits.from),
    };
    let mut entries = Vec::new(alloc);
    append(&mut entries, part.entries)?;
    let mut runs = Vec::new(alloc);
    push_run(&mut runs, &part)?;
    Ok(Sequence { entries, runs })
}

// puts the run of a part behind others, if the part has entries
fn push_run(runs: &mut Vec<LogRun>, part: &Part<'_, '_>) -> Result<(), AllocError>
    ensures { OnOk result ((most : Option SequenceNumber) (logs : List Log) (entries : List (List ℕ)) →
        AreLastOf most logs part.now.log part.now.entries.now →
        AreRunsOf most logs runs.old.items entries → AreRunsOf most logs runs.new.items (entries ++ part.now.entries.now)) }
{
    if part.entries.is_empty() {
        return Ok(());
    }
    runs.push(run_of(part.log, part.entries))?;
    Ok(())
}

// the run that entries of the log of a number are
fn run_of(log: usize, entries: &[LogEntry<'_>]) -> LogRun
    requires { 0 < length entries.now }
    ensures log { result.log ≡ log }
    ensures first { begins result.first.0 entries.now ≡ true }
    ensures last { result.last ≡ number_of (slice_index_or entries.now (length entries.now - 1) []) }
{
    LogRun {
        log,
        first: entries[0].number(),
        last: last_of(entries).number(),
    }
}

#[tactic(auto, using(crate::proofs::Planned::any_default))]
/// The last entry.
pub(crate) fn last_of<'l, 'a>(entries: &'l [LogEntry<'a>]) -> &'l LogEntry<'a>
    requires { 0 < length entries.now }
    ensures { result.now ≡ slice_index_or entries.now (length entries.now - 1) [] }
{
    &entries[entries.len() - 1]
}

// what the first log that goes on with a number has within a reach
fn next_part<'l, 'a>(
    logs: &'l [Log<'a>],
    reach: Reach,
    next: SequenceNumber,
) -> Option<Part<'l, 'a>>
    ensures some { IfSome result (λ part. part.entries.now ≡ first_with reach.from.0 next.0 (map (usable reach.to) logs.now)) }
    ensures last { IfSome result (λ part. AreLastOf reach.to logs.now part.log part.entries.now) }
    ensures none { IfNone result (first_with reach.from.0 next.0 (map (usable reach.to) logs.now) ≡ []) }
{
    'logs: for index in 0..logs.len() {
        let left = entries_left(usable(&logs[index], reach.to), reach.from);
        if begins_with(left, next) {
            return Some(Part {
                log: index + 1,
                entries: left,
            });
        }
    }
    None
}

/// The entries of a log that may be applied.
pub(crate) fn usable<'l, 'a>(log: &'l Log<'a>, most: Option<SequenceNumber>) -> &'l [LogEntry<'a>]
    ensures { result.now ≡ usable most log.now }
{
    entries_upto(&log.entries, most)
}

// the entries up to the first that is above the greatest number
fn entries_upto<'l, 'a>(
    entries: &'l [LogEntry<'a>],
    most: Option<SequenceNumber>,
) -> &'l [LogEntry<'a>]
    ensures { result.now ≡ upto most entries.now }
{
    'entries: for index in 0..entries.len() {
        if is_beyond(most, entries[index].number()) {
            return &entries[..index];
        }
    }
    entries
}

// the entries from the one with the first number on, or all if none is told
fn starting<'l, 'a>(
    entries: &'l [LogEntry<'a>],
    first: Option<SequenceNumber>,
) -> &'l [LogEntry<'a>]
    ensures { result.now ≡ starting first entries.now }
{
    let Some(number) = first else {
        return entries;
    };
    let left = entries_left(entries, number);
    if begins_with(left, number) { left } else { &[] }
}

// the entries from the first on that isn't below a number
fn entries_left<'l, 'a>(entries: &'l [LogEntry<'a>], from: SequenceNumber) -> &'l [LogEntry<'a>]
    ensures { result.now ≡ left_from from.0 entries.now }
{
    'entries: for index in 0..entries.len() {
        if !is_below(entries[index].number(), from) {
            return &entries[index..];
        }
    }
    &[]
}

// whether the first entry has a number
fn begins_with(entries: &[LogEntry<'_>], number: SequenceNumber) -> bool
    ensures { result ≡ begins number.0 entries.now }
{
    if entries.is_empty() {
        return false;
    }
    entries[0].number() == number
}

/// The number that follows entries, which is another if there are none.
pub(crate) fn number_after(entries: &[LogEntry<'_>], other: SequenceNumber) -> SequenceNumber
    ensures { result.0 ≡ number_behind other.0 entries.now }
{
    let mut next = other;
    'entries: for entry in entries {
        next = entry.number().next();
    }
    next
}

/// Puts entries behind others.
pub(crate) fn append<'a>(
    entries: &mut Vec<LogEntry<'a>>,
    more: &[LogEntry<'a>],
) -> Result<(), AllocError>
    ensures { OnOk result (entries.new.items ≡ entries.old.items ++ more.now) }
{
    'more: for entry in more {
        entries.push(entry.again())?;
    }
    Ok(())
}

/// The number for want of which a log isn't gone on with: the next number behind what is applied, if all that the log has within
/// a reach is behind that.
pub fn missing_number(log: &Log<'_>, reach: Reach, next: SequenceNumber) -> Option<SequenceNumber>
    ensures { option_map (λ number. number.0) result ≡ missing_of next.0 (left_from reach.from.0 (usable reach.to log.now)) }
{
    let left = entries_left(usable(log, reach.to), reach.from);
    if left.is_empty() || !is_below(next, left[0].number()) {
        return None;
    }
    Some(next)
}

/// The number of the entry that would be applied next, behind those that [`plan`](crate::plan) applies within a reach.
pub fn next_number(logs: &[Log<'_>], reach: Reach) -> SequenceNumber
    ensures { result.0 ≡ next_of reach logs.now }
{
    let mut next = reach.from;
    'rounds: for _round in 0..logs.len() {
        next = number_after_round(logs, reach, next);
    }
    next
}

// the number behind what the first log has that goes on with a number
fn number_after_round(logs: &[Log<'_>], reach: Reach, next: SequenceNumber) -> SequenceNumber
    ensures { result.0 ≡ number_behind next.0 (first_with reach.from.0 next.0 (map (usable reach.to) logs.now)) }
{
    match next_part(logs, reach, next) {
        Some(part) => number_after(part.entries, next),
        None => next,
    }
}
