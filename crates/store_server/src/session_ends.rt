//! How the sessions of clients ended.
ghost use Rattle.std.specs.Prelude.{◌≡◌};
ghost use Rattle.store_server.specs.Visits.{ends_of_both};

/// How the sessions that a thread opened for clients ended.
#[derive(Clone, Copy, Debug, PartialEq, Eq)]
pub enum SessionEnds {
    /// Each ended, with all of its transactions.
    Granted,
    /// One wasn't ended, for want of memory. It is open up to the end of the service, with its transactions.
    Denied,
}

impl SessionEnds {
    /// How these and others ended.
    pub(crate) fn and(self, others: SessionEnds) -> SessionEnds
        ensures { result ≡ ends_of_both self others }
    {
        match self {
            SessionEnds::Granted => others,
            SessionEnds::Denied => SessionEnds::Denied,
        }
    }
}
