//! The places of a client's threads, while a store is shared.
ghost use Rattle.std.specs.Prelude.{◌≡◌, ◌≢◌, ◌+◌, ◌≤◌, [], IfOk, MatchOption, None, Some, false, length, vec_capacity};
ghost use Rattle.std.specs.List.{All};
ghost use Rattle.ktm_calls.specs.Moments.{no_sight};
ghost use Rattle.shared_store.specs.Accounts.{AskTogether, HasFinished};

use crate::account::Account;
use crate::client::Client;
use histories::{EventCount, PermissionPool, Start};
use ktm_calls::{Asker, Registry};
use published_trees::SeenChanges;
use std::alloc::{AllocError, Global};
use std::sync::Wait;
use store_engine::StoreEngine;

/// The place of a thread.
#[derive(Drop)]
pub struct Seat<O: Start, T: Drop> {
    // who asks in it; none while the thread's session has it
    asker: Option<Asker<O>>,
    // none before the thread's work is done
    report: Option<T>,
}

/// A place for each of so many threads, which have asked for nothing yet; and room for their accounts.
pub fn new_seats<O: Start, T: Drop>(
    alloc: Global,
    events: &EventCount,
    changes: &SeenChanges,
    permissions: &mut PermissionPool<O>,
    threads: usize,
) -> Result<(Vec<Seat<O, T>>, Vec<Account<T>>), AllocError>
    requires several { O.sole ≡ false }
    requires events { events.now ≡ record { book = O.history; log = [] } }
    requires changes { changes.now ≡ record { book = O.book; list = [] } }
    requires left { threads ≤ permissions.old.left }
    requires unused { permissions.old.asked ≡ 0 }
    ensures count { IfOk result (λ made. length made.0.items ≡ threads) }
    ensures first { IfOk result (λ made. All (λ seat. seat.asker ≡ Some no_sight) made.0.items) }
    ensures room { IfOk result (λ made. (made.1.items ≡ []) × (threads ≤ vec_capacity made.1)) }
    ensures left { IfOk result (λ made. permissions.new.left + threads ≡ permissions.old.left) }
    ensures unused { permissions.new.asked ≡ 0 }
{
    let accounts = Vec::with_capacity(alloc, threads)?;
    let mut seats = Vec::with_capacity(alloc, threads)?;
    for _ in 0..threads {
        let asker = Asker::first(events, changes, permissions.take());
        seats.push(Seat {
            asker: Some(asker),
            report: None,
        })?;
    }
    Ok((seats, accounts))
}

impl<O: Start, T: Drop> Seat<O, T> {
    /// The work of the thread of this place.
    pub fn work<E: StoreEngine, C: Client<R, T>, R: Wait>(
        &mut self,
        rt: &R,
        registry: &Registry<E, O>,
        client: &C,
        thread: usize,
    )
        requires first { self.old.asker ≡ Some no_sight }
        ensures done { HasFinished (C.reports O.store) O.sole O.start O.trees O.number O.hives self.new.asker self.new.report }
    {
        let Some(asker) = self.asker.take() else {
            unreachable!();
        };
        let (asker, report) = client.run(rt, registry, asker, thread);
        self.asker = Some(asker);
        self.report = Some(report);
    }

    // the account of a thread whose work is done, and its permission comes back
    fn into_account(self, permissions: &mut PermissionPool<O>) -> Account<T>
        requires several { O.sole ≡ false }
        requires asked { self.asker ≢ None }
        requires done { self.report ≢ None }
        ensures report { self.report ≡ Some result.report }
        ensures left { permissions.new.left ≡ permissions.old.left + 1 }
        ensures seen { MatchOption self.asker ⊥ (λ is. (result.seen ≡ record { book = O.history; log = is.history })
            × (permissions.new.asked ≡ permissions.old.asked + is.asked)) }
    {
        let Seat { asker, report } = self;
        let (Some(asker), Some(report)) = (asker, report) else {
            unreachable!();
        };
        let (seen, permission) = asker.into_parts();
        permissions.give_back(permission);
        Account {
            seen: seen.events().again(),
            report,
        }
    }
}

/// The accounts of threads whose work is done, in their order; each permission comes back. There is room for the accounts.
pub fn settle<O: Start, C: Client<R, T>, T: Drop, R: Wait>(
    seats: Vec<Seat<O, T>>,
    permissions: &mut PermissionPool<O>,
    accounts: &mut Vec<Account<T>>,
)
    requires several { O.sole ≡ false }
    requires done { All (λ seat. HasFinished (C.reports O.store) O.sole O.start O.trees O.number O.hives seat.asker seat.report) seats.items }
    requires unused { permissions.old.asked ≡ 0 }
    requires empty { accounts.old.items ≡ [] }
    requires room { length seats.items ≤ vec_capacity accounts.old }
    ensures left { permissions.new.left ≡ permissions.old.left + length seats.items }
    ensures count { length accounts.new.items ≡ length seats.items }
    ensures book { All (λ account. account.seen.book ≡ O.history) accounts.new.items }
    ensures together { AskTogether (C.reports O.store) O.sole O.start O.trees O.number O.hives accounts.new.items permissions.new.asked }
{
    for seat in seats {
        let account = seat.into_account(permissions);
        match accounts.push(account) {
            Ok(()) => {}
            // there is room for each
            Err(_) => unreachable!(),
        }
    }
}
