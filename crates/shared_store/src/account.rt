//! What the threads of a client leave: their reports, and the history that they saw.
ghost use Rattle.std.specs.Prelude.{◌≡◌};
ghost use Rattle.std.specs.List.{All};
ghost use mathlib.Core.List.{IsPrefix};

use histories::SeenEvents;

/// What a thread of a client did, and what it had seen at its end of the store's history.
#[derive(Drop)]
pub struct Account<T: Drop> {
    /// What was seen: a beginning of the history. It has no bytes.
    pub seen: SeenEvents,
    /// What was reported.
    pub report: T,
}

/// All that the threads of these accounts had seen, after what was seen before.
pub fn seen_by_all<T: Drop>(accounts: &Vec<Account<T>>, before: &SeenEvents) -> SeenEvents
    requires book { All (λ account. account.seen.book ≡ before.now.book) accounts.now.items }
    ensures book { result.book ≡ before.now.book }
    ensures before { IsPrefix before.now.log result.log }
    ensures all { All (λ account. IsPrefix account.seen.log result.log) accounts.now.items }
{
    let mut all = before.again();
    for i in 0..accounts.len() {
        all.learn(&accounts[i].seen);
    }
    all
}
