//! Where a history begins.
use published_trees::Origin;
use std::marker::Brand;
use std::sync::ledger::Ledger;

/// Where a history begins: its book, and the engine before its first event. It names one history, so that what was seen of
/// two has two types. Each call of a program may choose it.
///
/// As a ledger it counts the events that are asked for, if one owner alone may ask.
pub trait Start: Origin + Ledger {
    ghost use Rattle.std.specs.Prelude.{ℕ, Bool};
    ghost use Rattle.logbook.specs.Pages.{Book};
    ghost use Rattle.commit_journal.specs.Store.{Store};
    ghost use Rattle.store_model.specs.Machine.{Machine};
    ghost use Rattle.engine_invariant.specs.Engines.{EngineView};

    /// The book of the history.
    ghost history: { Book };

    /// The engine before the first event.
    ghost start: { EngineView };

    /// The store whose files are on the device.
    ghost store: { Store };

    /// Whether one owner alone may ask for events.
    ghost sole: { Bool };

    /// Whether the device is faithful, as far as the start.
    ghost faithful: { Type 0 };

    /// Whatever a crash at a moment leaves is a prefix of a machine's changes, as it is known at the start.
    ghost safe: { ℕ → Machine → Type 0 };
}

impl Start for Brand {
    ghost use Rattle.std.specs.Prelude.{[], false};
    ghost use Rattle.commit_journal.specs.declared.store_layout.Layout.TheVariants.{HivesAlone};
    ghost use Rattle.histories.specs.Points.{no_view};

    ghost history = { record { number = 0; log_name = 0; cells_name = 0 } };

    ghost start = { no_view 0 };

    ghost store = { record { id = []; hives = 0; layout = HivesAlone } };

    ghost sole = { false };

    ghost faithful = { Unit {0} };

    ghost safe = { λ _ _. Unit {0} };
}
