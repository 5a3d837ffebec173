//! The sessions that are open.
ghost use Rattle.std.specs.Prelude.{◌≡◌, ◌==◌, ◌++◌, ◌∷◌, ◌<◌, ◌≤◌, [], not, filter, length, IfOk, OnOk, OnErr};
ghost use Rattle.std.specs.List.{list_any};

use refusals::limits::MOST_SESSIONS;
use std::alloc::{AllocError, Global};
use std::marker::Model;

/// There is no slot for one session more.
#[derive(Clone, Copy, Debug, PartialEq, Eq)]
pub struct NoSeat;

/// The numbers of the sessions that are open, in the order in which they were opened: at most 32. Their slots are made
/// at once, so that opening and ending take no memory.
pub struct Sessions {
    open: Vec<u32>,
}

impl Drop for Sessions {
    // one drop for all that own sessions, whose proofs see no more of it than that
    fn drop(self) {
        let Sessions { open: _ } = self;
    }
}

impl Model for Sessions {
    ghost use Rattle.std.specs.Prelude.{List, ℕ};

    ghost Value = { List ℕ };

    ghost view = { λ inside. inside.open.items };

    ghost use Rattle.std.specs.Prelude.{◌≤◌, vec_capacity};
    ghost use Rattle.refusals.specs.declared.limits.TheConstants.{MOST_SESSIONS};

    ghost invariant = { λ inside. MOST_SESSIONS ≤ vec_capacity inside.open };
}

impl Sessions {
    /// No session is open.
    pub fn new(alloc: Global) -> Result<Sessions, AllocError>
        ensures { IfOk result (λ made. made ≡ []) }
    {
        Ok(Sessions {
            open: Vec::with_capacity(alloc, MOST_SESSIONS)?,
        })
    }

    /// Whether the session is open.
    pub fn is_open(&self, session: u32) -> bool
        ensures { result ≡ list_any (λ s. s == session) self.now }
    {
        self.open.iter().any(|open| *open == session)
    }

    /// Opens a session that isn't open. Refused exactly if 32 are open, and then nothing changes.
    pub fn start(&mut self, session: u32) -> Result<(), NoSeat>
        ensures ok { OnOk result
            ((length self.old < MOST_SESSIONS) × (self.new ≡ self.old ++ session ∷ [])) }
        ensures refused { OnErr result ((MOST_SESSIONS ≤ length self.old) × (self.new ≡ self.old)) }
    {
        if self.open.len() >= MOST_SESSIONS {
            return Err(NoSeat);
        }
        self.open.push_reserved(session);
        Ok(())
    }

    /// Ends a session.
    pub fn end(&mut self, session: u32)
        ensures { self.new ≡ filter (λ s. not (s == session)) self.old }
    {
        self.open.retain(|open| *open != session);
    }
}
