//! The line itself.
ghost use Rattle.std.specs.Prelude.{◌≡◌, ◌<◌, ◌≤◌, ◌*◌, ◌/◌};

use crate::work_stage::{Work, WorkStage};
use std::io::Eprint;
use std::sync::atomic::{AtomicBool, AtomicU8, AtomicU64, Ordering};
use std::time::{Clock, Duration};

/// The milliseconds within which work is done without a line.
const PATIENCE: u64 = 500;

/// The milliseconds after which the line may be written anew.
const PAUSE: u64 = 100;

// the whole of a stage of which it isn't known how much there is
const UNKNOWN: u64 = u64::MAX;

/// A line on standard error that shows, for one stage of work after another, how much of it is done. Each part of the
/// work may have a `&` of it, also on threads of their own. What threads report at once is all counted, and the line
/// may be written more than once for it.
#[derive(Drop)]
pub struct ProgressLine<'a, R> {
    terminal: &'a R,
    // the code of the stage's work
    work: AtomicU8,
    whole: AtomicU64,
    done: AtomicU64,
    // the milliseconds of the clock before which the line isn't written
    next: AtomicU64,
    is_shown: AtomicBool,
}

impl<'a, R: Eprint + Clock> ProgressLine<'a, R> {
    /// A line for work whose first stage begins now.
    pub fn new(terminal: &'a R, first: WorkStage) -> ProgressLine<'a, R> {
        ProgressLine {
            terminal,
            work: AtomicU8::new(first.work.code()),
            whole: AtomicU64::new(first.whole.unwrap_or(UNKNOWN)),
            done: AtomicU64::new(0),
            next: AtomicU64::new(later(terminal, PATIENCE)),
            is_shown: AtomicBool::new(false),
        }
    }

    /// The next stage begins: nothing of it is done. The line goes away until it has something to show.
    pub fn begin(&self, work_stage: WorkStage) {
        self.work.store(work_stage.work.code(), Ordering::SeqCst);
        let whole = work_stage.whole.unwrap_or(UNKNOWN);
        self.whole.store(whole, Ordering::SeqCst);
        self.done.store(0, Ordering::SeqCst);
        self.clear();
    }

    /// Another `more` of the stage is done, in the same unit as the whole.
    pub fn advance(&self, more: u64) {
        let done = self
            .done
            .fetch_add(more, Ordering::SeqCst)
            .saturating_add(more);
        let whole = self.whole.load(Ordering::SeqCst);
        if whole == UNKNOWN || !self.is_due() {
            return;
        }
        let work = Work::of_code(self.work.load(Ordering::SeqCst)).word();
        let percent = percent_of(done, whole);
        if eprint!(self.terminal; "\r{work}: {percent} %").is_ok() {
            self.is_shown.store(true, Ordering::SeqCst);
        }
        self.next
            .store(later(self.terminal, PAUSE), Ordering::SeqCst);
    }

    /// The work is done: the line goes away.
    pub fn end(self) {
        self.clear();
    }

    // the line goes away
    fn clear(&self) {
        if self.is_shown.swap(false, Ordering::SeqCst) {
            // from the line's first column to its end: all is blank again
            let _ = eprint!(self.terminal; "\r\x1b[K");
        }
    }

    // whether the line is to be written by now; never if there is no clock
    fn is_due(&self) -> bool {
        match self.terminal.monotonic() {
            Ok(now) => milliseconds_of(now) >= self.next.load(Ordering::SeqCst),
            Err(_) => false,
        }
    }
}

// the milliseconds of the clock `milliseconds` after now; past all moments if there is no clock
fn later<R: Clock>(clock: &R, milliseconds: u64) -> u64 {
    match clock.monotonic() {
        Ok(now) => milliseconds_of(now).saturating_add(milliseconds),
        Err(_) => u64::MAX,
    }
}

// a moment of the clock in whole milliseconds
fn milliseconds_of(moment: Duration) -> u64 {
    u64::try_from(moment.as_millis()).unwrap_or(u64::MAX)
}

/// How many whole percent of the whole are done; 100 if there is nothing to do.
fn percent_of(done: u64, whole: u64) -> u64
    ensures all { whole ≤ done → result ≡ 100 }
    ensures part { done < whole → result ≡ done * 100 / whole }
{
    if done >= whole {
        return 100;
    }
    (u128::from(done) * 100 / u128::from(whole)) as u64
}
