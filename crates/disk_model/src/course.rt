//! The calls that a disk in memory has made, and the plan by which they went.
ghost use Rattle.std.specs.Prelude.{◌≡◌, ◌∷◌, true};
ghost use Rattle.disk_model.specs.Plan.{GoesByPlan, fate_of, ends_as, all_by_plan, no_calls, no_points, counted, counts_after};
ghost use Rattle.disk_model.specs.Periods.{made_in};

use crate::call_counts::{CallCounts, MadeCall};
use crate::plan::{FailurePoints, Fate, Plan};
use std::snapshot::Snapshot;

/// The calls of a period. Only contracts read it, and it takes no memory.
#[derive(Drop)]
pub(crate) enum Period {
    Begun,
    /// What was before, and one call more.
    Then(Snapshot<Period>, MadeCall),
}

impl Period {
    /// One call more.
    pub fn then(&mut self, made: MadeCall)
        ensures { made_in self.new ≡ made ∷ made_in self.old }
    {
        *self = Period::Then(Snapshot::of(self), made);
    }
}

/// How many calls were made, and by which points those of the present period went.
#[derive(Drop)]
pub(crate) struct Course {
    // how many orders and periods the plan had when the present one began
    given: u64,
    pub points: FailurePoints,
    // what was counted when the present period began
    pub begun: CallCounts,
    pub period: Period,
    pub counts: CallCounts,
    ghost by_plan: { all_by_plan points begun (made_in period) ≡ true },
    ghost counted: { counts ≡ counts_after begun (made_in period) },
}

impl Course {
    /// Before the first call: no call is to be hit.
    pub fn new() -> Course
        ensures points { result.points ≡ no_points }
        ensures begun { result.begun ≡ no_calls }
        ensures counts { result.counts ≡ no_calls }
    {
        Course {
            given: 0,
            points: FailurePoints::none(),
            begun: CallCounts::none(),
            period: Period::Begun,
            counts: CallCounts::none(),
        }
    }

    /// What becomes of the next call, by the orders that the plan has now.
    pub fn next(&mut self, plan: &Plan, is_change: bool) -> Fate
        ensures fate { result ≡ fate_of self.new.points self.new.counts is_change }
        ensures counts { self.new.counts ≡ self.old.counts }
    {
        let given = plan.given();
        if given != self.given {
            *self = Course {
                given,
                points: plan.take(self.points, self.counts),
                begun: self.counts,
                period: Period::Begun,
                counts: self.counts,
            };
        }
        self.points.fate(self.counts, is_change)
    }

    /// The call has been made.
    pub fn end(&mut self, made: MadeCall)
        requires { ends_as (fate_of self.old.points self.old.counts made.is_change) made.is_change
            made.has_failed ≡ true }
        ensures { self.new.counts ≡ counted self.old.counts made }
    {
        self.period.then(made);
        self.counts = self.counts.with(made);
    }

    /// Whether all calls since then are known to have gone by these points.
    pub fn has_gone(&self, by: FailurePoints, since: CallCounts) -> bool
        ensures { result ≡ true → GoesByPlan by since self.now.counts }
    {
        since.is(self.counts) || (since.is(self.begun) && by.is(self.points))
    }
}
