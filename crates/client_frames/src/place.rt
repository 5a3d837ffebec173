//! The place of a client.
ghost use Rattle.std.specs.Prelude.{◌≡◌, ◌≤◌, ◌<◌, IfSome, IfNone};
ghost use Rattle.client_frames.specs.declared.place.TheConstants.{LAST_PLACE};

use std::marker::Model;

/// The number of the last place. The first is 0.
pub const LAST_PLACE: u8 = 30;

/// The place of a client: 0 to 30.
#[derive(Clone, Copy)]
pub struct ClientPlace(u8);

impl Model for ClientPlace {
    ghost use Rattle.std.specs.Prelude.{◌≤◌, ℕ};
    ghost use Rattle.client_frames.specs.declared.place.TheConstants.{LAST_PLACE};

    ghost Value = { ℕ };

    ghost view = { λ inside. inside.0 };

    ghost inverse = { λ number. record { 0 = number } };

    ghost invariant = { λ inside. inside.0 ≤ LAST_PLACE };
}

impl ClientPlace {
    /// The place of this number, or `None` if it is over 30.
    pub fn new(number: u8) -> Option<ClientPlace>
        ensures some { IfSome result (λ place. place ≡ number) }
        ensures none { IfNone result (LAST_PLACE < number) }
    {
        if number <= LAST_PLACE {
            Some(ClientPlace(number))
        } else {
            None
        }
    }

    /// Its number.
    pub fn number(self) -> u8
        ensures number { result ≡ self }
        ensures last { result ≤ LAST_PLACE }
    {
        self.0
    }
}
