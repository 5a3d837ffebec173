//! How much of a history the sessions of a service have used together.

use client_desks::{Desks, Rest};
use std::sync::{Mutex, MutexGuard, Wait};

// what is known of a history
#[derive(Clone, Copy)]
struct Use {
    // the number of the last change before it; none before the first session
    first: Option<u64>,
    // the greatest number that was told
    last: u64,
    // how many transactions aren't closed, of all sessions
    open: usize,
    // the rest that was asked for
    asked: Option<Rest>,
}

impl Use {
    // of a history that begins
    fn new() -> Use {
        Use {
            first: None,
            last: 0,
            open: 0,
            asked: None,
        }
    }

    // The rest that is due, if so many changes are the most. A rest soon comes at three quarters, at a moment at which it ends
    // no transaction; none is begun after it. So an idle client with a transaction delays it up to seven eighths
    fn due(&self, limit: u64) -> Option<Rest> {
        let used = self.last.saturating_sub(self.first?);
        let left = limit.saturating_sub(used);
        if left <= limit / 8 {
            return Some(Rest::Now);
        }
        if left <= limit / 4 && self.open == 0 {
            return Some(Rest::Soon);
        }
        None
    }

    // asks for the rest that is due; answers it if it wasn't asked for before
    fn ask(&mut self, limit: u64) -> Option<Rest> {
        let due = self.due(limit);
        if due.is_none() || self.asked == due {
            return None;
        }
        self.asked = due;
        due
    }
}

/// What is left of the history of a registry, which all sessions use. At three quarters sessions rest once no transaction is
/// open, and at seven eighths each does. The store is opened anew then, with an empty history.
#[derive(Drop)]
pub struct HistoryShare {
    lock: Mutex<Use>,
    // how many changes it may have
    limit: u64,
}

impl HistoryShare {
    /// The share of a history that may have so many changes.
    pub fn new(limit: u64) -> HistoryShare {
        HistoryShare {
            lock: Mutex::new(Use::new()),
            limit,
        }
    }

    /// The next history begins, and no session is open.
    pub fn begin<R: Wait>(&self, rt: &R) {
        let mut guard = self.lock.lock(rt);
        *guard = Use::new();
        let _ = MutexGuard::unlock(guard);
    }

    /// All up to this number was durable before a session asked for a change.
    pub fn note_opening<R: Wait>(&self, rt: &R, number: u64) {
        let mut guard = self.lock.lock(rt);
        if (*guard).first.is_none() {
            (*guard).first = Some(number);
            (*guard).last = number;
        }
        let _ = MutexGuard::unlock(guard);
    }

    /// A reply told the change of this number: sessions are asked to rest, if that is due.
    pub fn note_change<R: Wait>(&self, rt: &R, desks: &Desks, number: u64) {
        let mut guard = self.lock.lock(rt);
        (*guard).last = (*guard).last.max(number);
        let due = (*guard).ask(self.limit);
        let _ = MutexGuard::unlock(guard);
        if let Some(how) = due {
            desks.rest(rt, how);
        }
    }

    /// A transaction is to be begun. False if sessions are to rest: then it is not.
    pub fn open_transaction<R: Wait>(&self, rt: &R) -> bool {
        let mut guard = self.lock.lock(rt);
        let may_open = (*guard).asked.is_none();
        if may_open {
            (*guard).open = (*guard).open.saturating_add(1);
        }
        let _ = MutexGuard::unlock(guard);
        may_open
    }

    /// So many transactions were closed, or were not begun: sessions are asked to rest, if that is due.
    pub fn close_transactions<R: Wait>(&self, rt: &R, desks: &Desks, count: usize) {
        let mut guard = self.lock.lock(rt);
        (*guard).open = (*guard).open.saturating_sub(count);
        let due = (*guard).ask(self.limit);
        let _ = MutexGuard::unlock(guard);
        if let Some(how) = due {
            desks.rest(rt, how);
        }
    }
}
