//! What the definitions say, as contracts of functions without effect.
ghost use Rattle.std.specs.Prelude.{◌≡◌, ◌++◌, ◌∷◌, ℕ, List, Option};
ghost use Rattle.hive_recovery.specs.Laid.{laid, IsByteOfState};
ghost use Rattle.hive_recovery.specs.Plans.{unclean_plan};
ghost use Rattle.hive_recovery.specs.Limits.{BeginApart};
ghost use Rattle.hive_recovery.specs.declared.limits.Reach.{Reach};
ghost use Rattle.hive_recovery.specs.declared.log.Log.{Log};

/// A machine's bins data go from state to state by entries. If each byte of a file is that of one of these states, the
/// entries give the last state: never a mixture. So the first entries of a log that is cut give the state after them, if the
/// file has no byte of a later state.
pub fn goes_on()
    ensures { (entries : List (List ℕ)) (image file : ℕ → Option ℕ) (place : ℕ) →
        IsByteOfState image entries place (file place) → laid file entries place ≡ laid image entries place }
{}

/// Two logs that stand side by side may change places, if they don't begin with the same number.
pub fn order_of_logs()
    ensures { (sector : List ℕ) (reach : Reach) (front back : List Log) (one other : Log) → BeginApart reach one other →
        unclean_plan sector reach (front ++ one ∷ other ∷ back) ≡ unclean_plan sector reach (front ++ other ∷ one ∷ back) }
{}
