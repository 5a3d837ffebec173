//! Names in an order.
ghost use Rattle.std.specs.Prelude.{◌≡◌};

use reg_names::Name;
use std::marker::Model;

/// Names in their order.
pub struct Names {
    names: Vec<Name>,
}

impl Drop for Names {
    // one drop for all that own names, whose proofs see no more of it than that
    fn drop(self) {
        let Names { names: _ } = self;
    }
}

impl Model for Names {
    ghost use Rattle.std.specs.Prelude.{List, ℕ};

    ghost Value = { List (List ℕ) };

    ghost view = { λ inside. inside.names.items };
}

impl Names {
    /// These names.
    pub fn new(names: Vec<Name>) -> Names
        ensures { result ≡ names.items }
    {
        Names { names }
    }

    /// The names in their order.
    pub fn list(&self) -> &[Name]
        ensures { result.now ≡ self.now }
    {
        &self.names
    }
}
