//! Which log of pages a hive is recovered by.
ghost use Rattle.std.specs.Prelude.{◌≡◌, None, map, option_map, slice_get, Some, IfSome};
ghost use Rattle.hive_page_logs.specs.PageLogs.{page_view, whole_seen};
ghost use Rattle.hive_page_logs.specs.Choices.{fits, is_newer, is_of_time, newer_of, newest_of};

use crate::page_log::{PageLog, WholePageLog};
use hive_recovery::{RecoveryLimits, is_below};

/// The log of pages with the greatest number, of those that fit a hive that was last written at a time; of all that are whole, if
/// the time isn't known. Its number is within the limits: the first one, if they tell one, and not above the greatest. Of two with
/// one number it is the first. Numbers wrap.
pub fn newest_fitting<'l, 'a>(
    logs: &'l [PageLog<'a>],
    time: Option<u64>,
    limits: RecoveryLimits,
) -> Option<&'l WholePageLog<'a>>
    ensures { option_map (λ log. whole_seen log.now) result ≡ newest_of time limits None (map page_view logs.now) }
{
    let mut best = None;
    'logs: for index in 0..logs.len() {
        best = newer(time, limits, best, &logs[index]);
    }
    best
}

// the newer of the newest log before a log, and that log, if it is whole and fits
fn newer<'l, 'a>(
    time: Option<u64>,
    limits: RecoveryLimits,
    best: Option<&'l WholePageLog<'a>>,
    log: &'l PageLog<'a>,
) -> Option<&'l WholePageLog<'a>>
    ensures { option_map (λ other. whole_seen other.now) result
        ≡ newer_of time limits (option_map (λ other. whole_seen other.now) best.entry) (page_view log.now) }
{
    match log {
        PageLog::Whole(whole) if is_fitting(time, limits, whole) && is_ahead(best, whole) => {
            Some(whole)
        }
        _ => best,
    }
}

fn is_fitting(time: Option<u64>, limits: RecoveryLimits, log: &WholePageLog<'_>) -> bool
    ensures { result ≡ fits time limits (whole_seen log.now) }
{
    is_of_time(time, log) && limits.allow(log.dirt.base.primary)
}

fn is_of_time(time: Option<u64>, log: &WholePageLog<'_>) -> bool
    ensures { result ≡ is_of_time time (whole_seen log.now) }
{
    match time {
        Some(time) => log.dirt.base.last_written == time,
        None => true,
    }
}

fn is_ahead(best: Option<&WholePageLog<'_>>, log: &WholePageLog<'_>) -> bool
    ensures { result ≡ is_newer (option_map (λ other. whole_seen other.now) best.entry) (whole_seen log.now) }
{
    match best {
        Some(best) => is_below(best.dirt.base.primary, log.dirt.base.primary),
        None => true,
    }
}
