//! Where a list of changes begins.
use std::marker::Brand;

/// Where a list of changes begins: its book, and the trees and the number before its first change. It says also how many
/// of the trees' hives calls may name. It names one list, so that what was seen of two lists has two types. Each call of
/// a program may choose it.
pub trait Origin {
    ghost use Rattle.std.specs.Prelude.{List, ℕ};
    ghost use Rattle.logbook.specs.Pages.{Book};
    ghost use Rattle.reg_tree.specs.Maps.{TreeMap};

    /// The book of the list.
    ghost book: { Book };

    /// The trees before the first change.
    ghost trees: { List TreeMap };

    /// The number of the last change before it.
    ghost number: { ℕ };

    /// How many hives calls may name: the first ones. A tree beyond them is the store's own.
    ghost hives: { ℕ };
}

impl Origin for Brand {
    ghost use Rattle.std.specs.Prelude.{[]};

    ghost book = { record { number = 0; log_name = 0; cells_name = 0 } };

    ghost trees = { [] };

    ghost number = { 0 };

    ghost hives = { 0 };
}
