//! What was seen of a registry: a beginning of the changes that it accepted, and of its history.
ghost use Rattle.std.specs.Prelude.{◌≡◌};
ghost use mathlib.Core.List.{IsPrefix};
ghost use Rattle.ktm_calls.specs.Moments.{SeesMore};

use histories::{Permission, SeenEvents, Start};
use published_trees::SeenChanges;
use std::marker::Model;
use std::snapshot::Snapshot;

/// What one has seen who asks for events, or a receipt carries; and for how many events it had asked by then.
pub struct Sight<O: Start> {
    pub(crate) changes: SeenChanges,
    pub(crate) events: SeenEvents,
    // with what it had asked; it has no bytes
    by: Snapshot<Permission<O>>,
}

impl<O: Start> Drop for Sight<O> {
    // one drop for all that own one, whose proofs see no more of it than that
    fn drop(self) {
        let Sight {
            changes: _,
            events: _,
            by: _,
        } = self;
    }
}

impl<O: Start> Model for Sight<O> {
    ghost use Rattle.std.specs.Prelude.{◌≡◌};
    ghost use Rattle.ktm_calls.specs.Moments.{Sight, sight_code};

    ghost Value = { Sight };

    ghost coded = { sight_code };

    ghost view = { λ s. record { list = s.changes.list; history = s.events.log; asked = s.by.value.asked } };

    ghost invariant = { λ s. record {
      changes : s.changes.book ≡ O.book;
      events : s.events.book ≡ O.history;
    } };
}

impl<O: Start> Sight<O> {
    /// What was seen, of both, by one who has asked for nothing.
    pub fn new(changes: SeenChanges, events: SeenEvents) -> Sight<O>
        requires changes { changes.book ≡ O.book }
        requires events { events.book ≡ O.history }
        ensures { result ≡ record { list = changes.list; history = events.log; asked = 0 } }
    {
        Sight {
            changes,
            events,
            by: Snapshot::of(&Permission::none()),
        }
    }

    /// The same, of one who has asked with this permission.
    pub(crate) fn again_by(&self, permission: &Permission<O>) -> Sight<O>
        ensures { result ≡ record self.now { asked = permission.now.asked } }
    {
        Sight {
            changes: self.changes.again(),
            events: self.events.again(),
            by: Snapshot::of(permission),
        }
    }

    /// It has asked with this permission by now.
    pub(crate) fn note(&mut self, permission: &Permission<O>)
        ensures { self.new ≡ record self.old { asked = permission.now.asked } }
    {
        self.by = Snapshot::of(permission);
    }

    /// What was seen of the history.
    pub fn events(&self) -> &SeenEvents
        ensures { result.now ≡ record { book = O.history; log = self.now.history } }
    {
        &self.events
    }

    /// Takes in what was seen elsewhere. What is seen then begins with both.
    pub fn learn(&mut self, other: &Sight<O>)
        ensures this { SeesMore self.old self.new }
        ensures that { SeesMore other.now self.new }
        ensures asked { self.new.asked ≡ self.old.asked }
    {
        self.changes.learn(&other.changes);
        self.events.learn(&other.events);
    }
}
