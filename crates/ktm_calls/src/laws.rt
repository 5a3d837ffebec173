//! Laws of calls, and of engines that one registry after another shares.
ghost use Rattle.std.specs.Prelude.{◌≡◌, ◌++◌, ◌∷◌, ◌<◌, ℕ, [], Bool, List, length, true};
ghost use mathlib.Core.List.{IsPrefix};
ghost use Rattle.reg_tree.specs.Maps.{TreeMap};
ghost use Rattle.reg_tree.specs.Sequences.{after_elements};
ghost use Rattle.reg_tree.specs.declared.element.Element.{Element};
ghost use Rattle.store_model.specs.Invariant.{InvariantHolds};
ghost use Rattle.store_model.specs.Machine.{Machine, trees_now};
ghost use Rattle.store_model.specs.Steps.{Step};
ghost use Rattle.store_model.specs.declared.event.Event.{Event};
ghost use Rattle.store_model.specs.declared.event.Event.TheVariants as event;
ghost use Rattle.store_model.specs.declared.event.Reply.TheVariants as reply;
ghost use Rattle.engine_invariant.specs.Engines.{EngineView};
ghost use Rattle.histories.specs.Asked.{asked_in, is_asked};
ghost use Rattle.histories.specs.Histories.{IsHistory, end_of};
ghost use Rattle.histories.specs.Points.{HistoryEntry, entry_of};
ghost use Rattle.ktm_calls.specs.Kinds.{Told};
ghost use Rattle.ktm_calls.specs.Moments.{IsOf, Sight, Tells};
ghost use Rattle.ktm_calls.specs.Outcomes.{KeepsOutcomes};

use store_model::laws::{folds_keep, openings_stay, steps_keep_invariant};

/// [`Registry::end`](crate::Registry::end), [`Event::Fold`](store_model::Event::Fold) and
/// [`Registry::new`](crate::Registry::new) may be called in turn on one engine.
///
/// The first promises that the machine is of the registry's trees and number, and that no session is open. If the second
/// answers that the history was folded, the machine is as the third asks for it: of the trees of then and the number that
/// was answered, with an empty history and no session.
pub fn folded_engines_are_shared_again()
    ensures { (trees : List TreeMap) (number hives folded_at : ℕ) (old new : Machine) → IsOf trees number hives old →
        old.sessions ≡ [] → Step old event.Fold (reply.Folded folded_at) new →
        IsOf (trees_now old) folded_at hives new × (new.accepted ≡ []) × (new.sessions ≡ []) }
{
    folds_keep();
    openings_stay();
}

/// In a history that began at a machine which keeps its invariant, the tree of outcomes has commits after each list of
/// changes that begins those accepted in it, if there is such a tree.
///
/// An engine keeps the invariant by `Engine::keeps_invariant`, and what a session has seen begins what was accepted, by
/// [`Registry::end`](crate::Registry::end). So what [`Session::outcome_of`](crate::Session::outcome_of) told is so.
pub fn outcomes_are_kept()
    ensures { (start : EngineView) (history : List HistoryEntry) (trees : List TreeMap) (number hives : ℕ) (seen : List Element) →
        InvariantHolds start.machine → IsHistory start history → IsOf trees number hives (end_of start history).machine →
        IsPrefix seen (end_of start history).machine.accepted → hives < length trees →
        KeepsOutcomes hives (after_elements trees seen) }
{
    steps_keep_invariant();
}

/// A call of a sole asker adds its own event to those that were asked for, and no other.
pub fn calls_ask_once()
    ensures { (start : EngineView) (trees : List TreeMap) (number hives : ℕ) (was is : Sight) (event : Event) (told : Told) →
        Tells true start trees number hives was is event told → is_asked event ≡ true →
        (after : EngineView) × (asked_in is.history
        ≡ asked_in was.history ++ entry_of event told.reply after ∷ []) }
{}
