//! Which units of work are active, and where.
ghost use Rattle.std.specs.Prelude.{◌≡◌, ◌↔◌, ◌==◌, ◌++◌, ◌∷◌, ◌<◌, [], length, not, IsTrue, OnOk, OnErr, MatchOption, Err};
ghost use Rattle.std.specs.List.{Contains, filter, slice_index_or};

use client_frames::ClientPlace;
use std::alloc::Global;
use std::marker::Model;
use uuid::Uuid;

/// Why a unit of work isn't entered.
#[derive(Clone, Copy, Debug, PartialEq, Eq)]
pub enum UnitRefusal {
    /// Another place has it.
    Taken,
    /// Memory was asked for and not given.
    NoMemory,
}

/// A unit of work that a place has entered.
#[derive(Clone, Copy)]
pub struct ActiveUnit {
    /// The unit.
    pub unit: Uuid,
    /// The place.
    pub place: ClientPlace,
}

/// The units of work that are active, each as often as its place has entered it.
#[derive(Drop)]
pub struct UnitTable {
    active: Vec<ActiveUnit>,
}

impl Model for UnitTable {
    ghost use Rattle.std.specs.Prelude.{List};
    ghost use Rattle.client_desks.specs.Units.{HaveOnePlace};
    ghost use Rattle.client_desks.specs.declared.unit_table.ActiveUnit.{ActiveUnit};

    ghost Value = { List ActiveUnit };

    ghost view = { λ inside. inside.active.items };

    ghost invariant = { λ inside. HaveOnePlace inside.active.items };
}

impl UnitTable {
    ghost use Rattle.client_desks.specs.Units.{HaveOnePlace, IsElsewhere, LosesOnce};

    /// No unit is active.
    pub fn new(alloc: Global) -> UnitTable
        ensures { result ≡ [] }
    {
        UnitTable {
            active: Vec::new(alloc),
        }
    }

    /// A place enters a unit, unless another place has it.
    pub fn enter(&mut self, place: ClientPlace, unit: Uuid) -> Result<(), UnitRefusal>
        ensures taken { (result ≡ Err UnitRefusal.Taken) ↔ IsElsewhere self.old place unit }
        ensures entered { OnOk result (self.new ≡ self.old ++ record { unit = unit; place = place } ∷ []) }
        ensures refused { OnErr result (self.new ≡ self.old) }
        ensures one_place { HaveOnePlace self.new }
    {
        if self.is_elsewhere(place, unit) {
            return Err(UnitRefusal::Taken);
        }
        match self.active.push(ActiveUnit { unit, place }) {
            Ok(()) => Ok(()),
            Err(_) => Err(UnitRefusal::NoMemory),
        }
    }

    /// A place leaves a unit once, if it has entered it.
    pub fn leave(&mut self, place: ClientPlace, unit: Uuid)
        ensures { LosesOnce record { unit = unit; place = place } self.old self.new }
    {
        if let Some(at) = self.first(place, unit) {
            self.active.remove(at);
        }
    }

    /// A place leaves all units.
    pub fn leave_all(&mut self, place: ClientPlace)
        ensures { self.new ≡ filter (λ entry. not (entry.place == place)) self.old }
    {
        self.active
            .retain(|active| active.place.number() != place.number());
    }

    // where the unit stands first with this place
    fn first(&self, place: ClientPlace, unit: Uuid) -> Option<usize>
        ensures { MatchOption result (¬ (Contains self.now record { unit = unit; place = place }))
            (λ at. (at < length self.now)
            × (slice_index_or self.now at record { unit = unit; place = place } ≡ record { unit = unit; place = place })) }
    {
        self.active.iter().position(|active| active.unit == unit
            && active.place.number() == place.number())
    }

    // whether another place has the unit
    fn is_elsewhere(&self, place: ClientPlace, unit: Uuid) -> bool
        ensures { IsTrue result ↔ IsElsewhere self.now place unit }
    {
        self.active.iter().any(|active| active.unit == unit
            && active.place.number() != place.number())
    }
}
