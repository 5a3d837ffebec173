//! The lock of a desk: what waits there, and who waits for it.
ghost use Rattle.std.specs.Prelude.{◌≡◌};
ghost use Rattle.client_desks.specs.Lines.{IsLine};

use crate::client_line::ClientLine;
use crate::order::{Arrival, Bookmark, InputEnd, NewsWait, Order};
use crate::tray::Tray;
use crate::visit::{OutOfTurn, ReplyTurn, Said, Step};
use client_frames::ClientPlace;
use std::alloc::Global;
use std::sync::atomic::{AtomicBool, AtomicU64, Ordering};
use std::sync::{Condvar, Mutex, MutexGuard, Wait};

/// How the wait for a line ended.
#[derive(Clone, Copy, Debug, PartialEq, Eq)]
pub(crate) enum LineWait {
    /// The line is there.
    Line,
    /// A piece was taken, which the broker is to be told.
    TookPiece,
    /// No line follows.
    End(InputEnd),
}

/// A place, and what waits there.
#[derive(Drop)]
pub(crate) struct Slot {
    pub(crate) place: ClientPlace,
    lock: Mutex<Tray>,
    changed: Condvar,
    // whether the session waits for news, too
    follows: AtomicBool,
}

impl Slot {
    /// Nobody came yet.
    pub(crate) fn new(place: ClientPlace) -> Slot
        ensures { result.place ≡ place }
    {
        Slot {
            place,
            lock: Mutex::new(Tray::new()),
            changed: Condvar::new(),
            follows: AtomicBool::new(false),
        }
    }

    /// A client takes the place, if it is free.
    pub(crate) fn open<R: Wait>(&self, rt: &R, alloc: Global) -> Result<(), OutOfTurn> {
        let mut guard = self.lock.lock(rt);
        let opened = (&mut *guard).open(alloc, self.place);
        let _ = MutexGuard::unlock(guard);
        self.changed.notify_all();
        opened
    }

    /// Whether a client has the place.
    pub(crate) fn has_client<R: Wait>(&self, rt: &R) -> bool {
        let guard = self.lock.lock(rt);
        let has_client = (&*guard).has_client();
        let _ = MutexGuard::unlock(guard);
        has_client
    }

    /// The broker says this of the client at a place.
    pub(crate) fn hear<R: Wait>(
        &self,
        rt: &R,
        place: ClientPlace,
        said: Said,
    ) -> Result<(), OutOfTurn> {
        let mut guard = self.lock.lock(rt);
        let heard = (&mut *guard).hear(place, said);
        let _ = MutexGuard::unlock(guard);
        self.changed.notify_all();
        heard
    }

    /// Gives an order.
    pub(crate) fn give<R: Wait>(&self, rt: &R, order: Order) {
        let mut guard = self.lock.lock(rt);
        (&mut *guard).give(order);
        let _ = MutexGuard::unlock(guard);
        self.changed.notify_all();
    }

    /// Waits until there is a client to be served, or something else to do.
    pub(crate) fn wait<R: Wait>(&self, rt: &R) -> Arrival {
        let mut guard = self.lock.lock(rt);
        for _ in rt.forever() {
            if let Some(arrival) = (&mut *guard).arrival() {
                let _ = MutexGuard::unlock(guard);
                return arrival;
            }
            guard = self.changed.wait(rt, guard);
        }
        unreachable!()
    }

    /// Waits for a step to the session's next line.
    pub(crate) fn next_step<R: Wait>(
        &self,
        rt: &R,
        may_rest: bool,
        line: &mut ClientLine,
    ) -> LineWait
        ensures { result ≡ LineWait.Line → IsLine line.new.rest }
    {
        let mut guard = self.lock.lock(rt);
        for _ in rt.forever() {
            match (&mut *guard).step(may_rest, line) {
                Step::Wait => guard = self.changed.wait(rt, guard),
                Step::Line => {
                    let _ = MutexGuard::unlock(guard);
                    return LineWait::Line;
                }
                Step::TookPiece => {
                    let _ = MutexGuard::unlock(guard);
                    return LineWait::TookPiece;
                }
                Step::End(why) => {
                    let _ = MutexGuard::unlock(guard);
                    return LineWait::End(why);
                }
            }
        }
        unreachable!()
    }

    /// Whether a session needn't wait for its next line.
    pub(crate) fn has_line<R: Wait>(&self, rt: &R) -> bool {
        let guard = self.lock.lock(rt);
        let has_line = (&*guard).has_line();
        let _ = MutexGuard::unlock(guard);
        has_line
    }

    /// Whether the client has gone, or the service is to stop.
    pub(crate) fn is_over<R: Wait>(&self, rt: &R) -> bool {
        let guard = self.lock.lock(rt);
        let is_over = (&*guard).is_over();
        let _ = MutexGuard::unlock(guard);
        is_over
    }

    /// Whether the session follows news from now on.
    pub(crate) fn set_follows(&self, follows: bool) {
        self.follows.store(follows, Ordering::SeqCst);
    }

    /// Wakes the session if it follows news. They were counted before.
    pub(crate) fn wake_follower<R: Wait>(&self, rt: &R) {
        if self.follows.load(Ordering::SeqCst) {
            // one who has looked at the count waits by the time that the lock is taken
            let guard = self.lock.lock(rt);
            let _ = MutexGuard::unlock(guard);
            self.changed.notify_all();
        }
    }

    /// Waits until the count of news isn't `known` any more, or the session has something else to do. One that knows of its
    /// end isn't told of it again.
    pub(crate) fn wait_for_news<R: Wait>(
        &self,
        rt: &R,
        news: &AtomicU64,
        known: u64,
        knows_end: bool,
    ) -> NewsWait {
        let mut guard = self.lock.lock(rt);
        for _ in rt.forever() {
            let has_news = news.load(Ordering::SeqCst) != known;
            if let Some(wait) = (&*guard).news_wait(has_news, knows_end) {
                let _ = MutexGuard::unlock(guard);
                return wait;
            }
            guard = self.changed.wait(rt, guard);
        }
        unreachable!()
    }

    /// Waits until a reply may be written, which is taken to be out then. False if none may.
    pub(crate) fn wait_for_reply<R: Wait>(&self, rt: &R) -> bool {
        let mut guard = self.lock.lock(rt);
        for _ in rt.forever() {
            match (&mut *guard).begin_reply() {
                ReplyTurn::Later => guard = self.changed.wait(rt, guard),
                turn => {
                    let _ = MutexGuard::unlock(guard);
                    return turn == ReplyTurn::Now;
                }
            }
        }
        unreachable!()
    }

    /// The session has ended, and so has the client's visit. False if there was no session.
    pub(crate) fn leave<R: Wait>(&self, rt: &R) -> bool {
        let mut guard = self.lock.lock(rt);
        let has_left = (&mut *guard).leave();
        let _ = MutexGuard::unlock(guard);
        has_left
    }

    /// The session has ended, and the client stays.
    pub(crate) fn park<R: Wait>(&self, rt: &R, bookmark: Bookmark) {
        let mut guard = self.lock.lock(rt);
        (&mut *guard).park(bookmark);
        let _ = MutexGuard::unlock(guard);
    }
}
