//! Who asks for events: what it has seen, and that it may ask.
ghost use Rattle.std.specs.Prelude.{◌≡◌, ◌≤◌, [], length, true};
ghost use Rattle.histories.specs.Asked.{asked_in};
ghost use Rattle.ktm_calls.specs.Moments.{SeesMore, no_sight};

use crate::sight::Sight;
use histories::{EventCount, Permission, Start};
use published_trees::SeenChanges;
use std::marker::Model;

/// One who asks for events of a registry: what it has seen, with the permission to ask. It has seen each event that it asked
/// for; the sole asker, each that was asked for.
pub struct Asker<O: Start> {
    pub(crate) seen: Sight<O>,
    pub(crate) permission: Permission<O>,
}

impl<O: Start> Drop for Asker<O> {
    // one drop for all that own one, whose proofs see no more of it than that
    fn drop(self) {
        let Asker {
            seen: _,
            permission: _,
        } = self;
    }
}

impl<O: Start> Model for Asker<O> {
    ghost use Rattle.std.specs.Prelude.{◌≡◌, ◌≤◌, length, true};
    ghost use Rattle.histories.specs.Asked.{asked_in};
    ghost use Rattle.ktm_calls.specs.Moments.{Sight, sight_code};

    ghost Value = { Sight };

    ghost coded = { sight_code };

    ghost view = { λ a. a.seen };

    ghost invariant = { λ a. record {
      held : a.permission.held ≡ true;
      counted : a.seen.asked ≡ a.permission.asked;
      asked : a.seen.asked ≤ length (asked_in a.seen.history);
    } };
}

impl<O: Start> Asker<O> {
    /// One that has seen nothing yet of a history and a list to which nothing was added, and may ask.
    pub fn first(events: &EventCount, changes: &SeenChanges, permission: Permission<O>) -> Asker<O>
        requires events { events.now ≡ record { book = O.history; log = [] } }
        requires changes { changes.now ≡ record { book = O.book; list = [] } }
        requires held { permission.held ≡ true }
        requires unused { permission.asked ≡ 0 }
        ensures { result ≡ no_sight }
    {
        Asker::new(
            Sight::new(changes.again(), events.all().again()),
            permission,
        )
    }

    /// One that has seen this, and may ask, but has not asked for anything.
    pub fn new(seen: Sight<O>, permission: Permission<O>) -> Asker<O>
        requires held { permission.held ≡ true }
        requires unused { permission.asked ≡ 0 }
        requires nothing { seen.asked ≡ 0 }
        ensures { result ≡ seen }
    {
        Asker { seen, permission }
    }

    /// What it has seen, and the permission.
    pub fn into_parts(self) -> (Sight<O>, Permission<O>)
        ensures seen { result.0 ≡ self }
        ensures held { result.1.held ≡ true }
        ensures asked { result.1.asked ≡ self.asked }
    {
        let Asker { seen, permission } = self;
        (seen, permission)
    }

    // a law: it has seen each event that it asked for
    pub(crate) fn saw_what_it_asked(&self)
        ensures { self.now.asked ≤ length (asked_in self.now.history) }
    {
        // what the type keeps is known once a field is read
        let _ = &self.seen; // for the prover
    }

    // takes in what was seen elsewhere
    pub(crate) fn learn(&mut self, other: &Sight<O>)
        ensures this { SeesMore self.old self.new }
        ensures that { SeesMore other.now self.new }
        ensures asked { self.new.asked ≡ self.old.asked }
    {
        self.seen.learn(other);
    }

    // a copy of what it has seen
    pub(crate) fn sight_again(&self) -> Sight<O>
        ensures { result ≡ self.now }
    {
        self.seen.again_by(&self.permission)
    }

    /// What it has seen.
    pub fn sight(&self) -> &Sight<O>
        ensures { result.now ≡ self.now }
    {
        &self.seen
    }
}
