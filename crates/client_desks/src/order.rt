//! What sessions are asked to do, and what they are told.
ghost use Rattle.std.specs.Prelude.{◌≡◌, ◌↔◌, IsTrue};
ghost use Rattle.client_desks.specs.Orders.{IsRestDue, order_with_rest, order_without_rest, rest_of};

/// How sessions come to a rest.
#[derive(Clone, Copy, Debug, PartialEq, Eq)]
pub enum Rest {
    /// Each one before its next line, once it may rest.
    Soon,
    /// Each one before its next line.
    Now,
}

/// What sessions are asked to do.
#[derive(Clone, Copy, Debug, PartialEq, Eq)]
pub(crate) enum Order {
    Serve,
    Rest(Rest),
    Stop,
}

/// Where the session of a client that stays has ended.
#[derive(Clone, Copy, Debug, PartialEq, Eq)]
pub struct Bookmark {
    /// The moment of its changes.
    pub moment: u64,
    /// The number of its next line.
    pub line: u64,
}

/// What one that waits at a desk is told.
#[derive(Clone, Copy, Debug, PartialEq, Eq)]
pub enum Arrival {
    /// A client came.
    Client,
    /// A client stayed while its session rested, and goes on.
    Resumed {
        /// The moment of its changes.
        moment: u64,
        /// The number of its next line.
        line: u64,
    },
    /// A rest was asked for.
    Rest,
    /// The service is to stop.
    Stop,
}

/// How a wait for news ended.
#[derive(Clone, Copy, Debug, PartialEq, Eq)]
pub enum NewsWait {
    /// There are news.
    News,
    /// A rest or a stop is asked for.
    Ending,
    /// The client has sent more, or sends no more, or has gone.
    Client,
}

/// Why a session gets no further line.
#[derive(Clone, Copy, Debug, PartialEq, Eq)]
pub enum InputEnd {
    /// The client sends no more.
    Ended,
    /// The client sends no more, and what it sent ends within a line. That part is no line.
    HalfLine,
    /// The client sends no more, and reads no more.
    Gone,
    /// The service is to stop.
    Stopped,
    /// A rest was asked for. What follows stays on the desk.
    Rest,
    /// The next line is longer than a line may be.
    TooLong,
    /// Memory was asked for and not given.
    NoMemory,
}

impl Order {
    // the order after a rest was asked for: a stop stays, and so does a rest at once
    pub(crate) fn with_rest(self, how: Rest) -> Order
        ensures { result ≡ order_with_rest self how }
    {
        match self {
            Order::Stop => Order::Stop,
            Order::Rest(Rest::Now) => Order::Rest(Rest::Now),
            Order::Rest(Rest::Soon) | Order::Serve => Order::Rest(how),
        }
    }

    // the order of the next generation
    pub(crate) fn without_rest(self) -> Order
        ensures { result ≡ order_without_rest self }
    {
        match self {
            Order::Stop => Order::Stop,
            Order::Rest(_) | Order::Serve => Order::Serve,
        }
    }

    // the rest that is asked for
    pub(crate) fn rest(self) -> Option<Rest>
        ensures { result ≡ rest_of self }
    {
        match self {
            Order::Rest(how) => Some(how),
            Order::Serve | Order::Stop => None,
        }
    }

    // whether a session that may rest, or may not, is to rest before its next line
    pub(crate) fn is_rest_due(self, may_rest: bool) -> bool
        ensures { IsTrue result ↔ IsRestDue self may_rest }
    {
        match self {
            Order::Rest(Rest::Now) => true,
            Order::Rest(Rest::Soon) => may_rest,
            Order::Serve | Order::Stop => false,
        }
    }
}
