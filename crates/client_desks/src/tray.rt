//! The state of a desk.
ghost use Rattle.std.specs.Prelude.{◌≡◌, ◌↔◌, ◌⊎◌, false, IsTrue, IsOk, OnOk, OnErr};
ghost use Rattle.client_desks.specs.Seats.{Arrives, HasLine, HasNoReader, HasQuietClient, IsFree, IsTakenIn, IsServed, SessionReplies, SessionSteps, WaitsForNews, seat_after, seat_left, seat_parked};
ghost use Rattle.client_desks.specs.Visits.{newcomer};

use crate::client_line::ClientLine;
use crate::order::{Arrival, Bookmark, InputEnd, NewsWait, Order, Rest};
use crate::visit::{OutOfTurn, ReplyTurn, Said, Step, Visit};
use client_frames::ClientPlace;
use std::alloc::Global;
use std::mem;

/// Who is at a desk.
#[derive(Drop)]
pub(crate) enum Seat {
    /// Nobody came yet.
    Unused,
    /// The last client's session has ended. What still comes of it is thrown away.
    Left,
    /// A client came, and has no session yet.
    Waiting(Visit),
    /// A client has a session.
    Served(Visit),
    /// A client's session has ended at a rest, and the client stays.
    Parked { visit: Visit, bookmark: Bookmark },
}

/// The state of a desk.
#[derive(Drop)]
pub(crate) struct Tray {
    seat: Seat,
    order: Order,
}

impl Tray {
    /// Nobody came yet.
    pub(crate) fn new() -> Tray
        ensures seat { result.seat ≡ Seat.Unused }
        ensures order { result.order ≡ Order.Serve }
    {
        Tray {
            seat: Seat::Unused,
            order: Order::Serve,
        }
    }

    /// A client takes the place, if it is free.
    pub(crate) fn open(&mut self, alloc: Global, place: ClientPlace) -> Result<(), OutOfTurn>
        ensures free { IsOk result ↔ IsFree self.old.seat }
        ensures opened { OnOk result (self.new.seat ≡ Seat.Waiting (newcomer place)) }
        ensures refused { OnErr result (self.new ≡ self.old) }
        ensures order { self.new.order ≡ self.old.order }
    {
        match &self.seat {
            Seat::Unused | Seat::Left => {
                self.seat = Seat::Waiting(Visit::new(alloc, place));
                Ok(())
            }
            Seat::Waiting(_) | Seat::Served(_) | Seat::Parked { .. } => Err(OutOfTurn),
        }
    }

    /// Whether a client has the place.
    pub(crate) fn has_client(&self) -> bool
        ensures { (result ≡ false) ↔ IsFree self.now.seat }
    {
        match &self.seat {
            Seat::Unused | Seat::Left => false,
            Seat::Waiting(_) | Seat::Served(_) | Seat::Parked { .. } => true,
        }
    }

    /// The broker says this of the client at a place.
    pub(crate) fn hear(&mut self, place: ClientPlace, said: Said) -> Result<(), OutOfTurn>
        ensures heard { IsOk result ↔ IsTakenIn self.old.seat place said }
        ensures after { OnOk result (self.new.seat ≡ seat_after self.old.seat said) }
        ensures refused { OnErr result (self.new ≡ self.old) }
        ensures order { self.new.order ≡ self.old.order }
    {
        match &mut self.seat {
            Seat::Unused => Err(OutOfTurn),
            Seat::Left => Ok(()),
            Seat::Waiting(visit) => visit.hear(place, said),
            Seat::Served(visit) => visit.hear(place, said),
            Seat::Parked { visit, .. } => visit.hear(place, said),
        }
    }

    /// Who is to be served, or what is to be done in place of that; or nothing yet.
    pub(crate) fn arrival(&mut self) -> Option<Arrival>
        ensures told { Arrives self.old.order self.old.seat result self.new.seat }
        ensures order { self.new.order ≡ self.old.order }
    {
        match self.order {
            Order::Stop => Some(Arrival::Stop),
            Order::Rest(_) => Some(Arrival::Rest),
            Order::Serve => self.begin_session(),
        }
    }

    // a client who has no session gets one
    fn begin_session(&mut self) -> Option<Arrival>
        ensures told { Arrives Order.Serve self.old.seat result self.new.seat }
        ensures order { self.new.order ≡ self.old.order }
    {
        match mem::replace(&mut self.seat, Seat::Left) {
            Seat::Waiting(visit) => {
                self.seat = Seat::Served(visit);
                Some(Arrival::Client)
            }
            Seat::Parked { visit, bookmark } => {
                self.seat = Seat::Served(visit);
                let Bookmark { moment, line } = bookmark;
                Some(Arrival::Resumed { moment, line })
            }
            other => {
                self.seat = other;
                None
            }
        }
    }

    /// The next step of a session, which may rest or may not, to its next line.
    pub(crate) fn step(&mut self, may_rest: bool, line: &mut ClientLine) -> Step
        ensures step { SessionSteps self.old.order may_rest self.old.seat result line.new self.new.seat }
        ensures order { self.new.order ≡ self.old.order }
    {
        if self.order == Order::Stop {
            return Step::End(InputEnd::Stopped);
        }
        let Seat::Served(visit) = &mut self.seat else {
            return Step::End(InputEnd::Gone);
        };
        if self.order.is_rest_due(may_rest) && !visit.is_gone() {
            return Step::End(InputEnd::Rest);
        }
        visit.step(line)
    }

    /// Whether a session needn't wait for its next line.
    pub(crate) fn has_line(&self) -> bool
        ensures { IsTrue result ↔ HasLine self.now.order self.now.seat }
    {
        match &self.seat {
            Seat::Served(visit) => {
                self.order != Order::Stop
                    && self.order != Order::Rest(Rest::Now)
                    && visit.has_line()
            }
            Seat::Unused | Seat::Left | Seat::Waiting(_) | Seat::Parked { .. } => false,
        }
    }

    /// How a session's wait for news ends now, if it does. `has_news`: there are some; `knows_end`: the session knows already
    /// that a rest or a stop is asked for.
    pub(crate) fn news_wait(&self, has_news: bool, knows_end: bool) -> Option<NewsWait>
        ensures { WaitsForNews self.now.order self.now.seat has_news knows_end result }
    {
        if !self.has_quiet_client() {
            Some(NewsWait::Client)
        } else if self.order != Order::Serve && !knows_end {
            Some(NewsWait::Ending)
        } else if has_news {
            Some(NewsWait::News)
        } else {
            None
        }
    }

    fn has_quiet_client(&self) -> bool
        ensures { IsTrue result ↔ HasQuietClient self.now.seat }
    {
        match &self.seat {
            Seat::Served(visit) => visit.is_quiet(),
            Seat::Unused | Seat::Left | Seat::Waiting(_) | Seat::Parked { .. } => false,
        }
    }

    /// Whether the client has gone, or the service is to stop.
    pub(crate) fn is_over(&self) -> bool
        ensures { IsTrue result ↔ ((self.now.order ≡ Order.Stop) ⊎ HasNoReader self.now.seat) }
    {
        self.order == Order::Stop || self.has_no_reader()
    }

    fn has_no_reader(&self) -> bool
        ensures { IsTrue result ↔ HasNoReader self.now.seat }
    {
        match &self.seat {
            Seat::Served(visit) => visit.is_gone(),
            Seat::Unused | Seat::Left | Seat::Waiting(_) | Seat::Parked { .. } => true,
        }
    }

    /// Whether a session may write a reply. If so it is taken to be out.
    pub(crate) fn begin_reply(&mut self) -> ReplyTurn
        ensures turn { SessionReplies self.old.order self.old.seat result self.new.seat }
        ensures order { self.new.order ≡ self.old.order }
    {
        let Seat::Served(visit) = &mut self.seat else {
            return ReplyTurn::Never;
        };
        match visit.begin_reply() {
            // nobody tells any more that the last one was handed on
            ReplyTurn::Later if self.order == Order::Stop => ReplyTurn::Never,
            turn => turn,
        }
    }

    /// The session has ended, and so has the client's visit. False if there was no session.
    pub(crate) fn leave(&mut self) -> bool
        ensures served { IsTrue result ↔ IsServed self.old.seat }
        ensures left { self.new.seat ≡ seat_left self.old.seat }
        ensures order { self.new.order ≡ self.old.order }
    {
        match &self.seat {
            Seat::Served(_) => {
                self.seat = Seat::Left;
                true
            }
            Seat::Unused | Seat::Left | Seat::Waiting(_) | Seat::Parked { .. } => false,
        }
    }

    /// The session has ended, and the client stays.
    pub(crate) fn park(&mut self, bookmark: Bookmark)
        ensures parked { self.new.seat ≡ seat_parked self.old.seat bookmark }
        ensures order { self.new.order ≡ self.old.order }
    {
        self.seat = match mem::replace(&mut self.seat, Seat::Left) {
            Seat::Served(visit) => Seat::Parked { visit, bookmark },
            other => other,
        };
    }

    /// Gives an order.
    pub(crate) fn give(&mut self, order: Order)
        ensures seat { self.new.seat ≡ self.old.seat }
        ensures order { self.new.order ≡ order }
    {
        self.order = order;
    }
}
