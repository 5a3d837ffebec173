//! The service of a store to the threads of a client.
ghost use Rattle.std.specs.Prelude.{◌≡◌, ◌⊎◌, ◌<◌, ℕ, [], None, Some, false, length, IfOk, IfErr, IsOk};
ghost use Rattle.std.specs.List.{All};
ghost use mathlib.Core.List.{IsPrefix};
ghost use denote.Param.Send.{IsSend, IsSync};
ghost use Rattle.refusals.specs.declared.refusal.Refusal.TheVariants.{NoMemory, NoSeat};
ghost use Rattle.recovery.specs.Recovered.{seen_in};
ghost use Rattle.store_model.specs.Machine.{Machine};
ghost use Rattle.store_driver.specs.Openings.{LeavesLife};
ghost use Rattle.histories.specs.Histories.{HasLedWith};
ghost use Rattle.ktm_calls.specs.Moments.{IsOf, no_sight};
ghost use Rattle.ktm_calls.specs.Waiting.{IsDone, IsFailedStep};
ghost use Rattle.shared_store.specs.Accounts.{HasFinished};
ghost use Rattle.shared_store.specs.Serving.{KeepsStore, MayNotServe, TellsOf};

use crate::account::{Account, seen_by_all};
use crate::client::Client;
use crate::seat::{Seat, new_seats, settle};
use disk_model::Disk;
use flusher::{Gate, run_beside};
use histories::{EventCount, PermissionPool, RequestCount, SeenEvents, Start};
use ktm_calls::{Ended, Registry, Sight, Stopped, Told};
use published_trees::{ChangeCount, SeenChanges};
use refusals::Refusal;
use std::alloc::Global;
use std::marker::Brand;
use std::sync::Wait;
use std::sync::ledger::Blank;
use std::thread;
use std::thread::Threads;
use store_driver::open_engine;
use store_engine::StoreEngine;

/// What came of a client's use of a store.
#[derive(Drop)]
pub struct Served<T: Drop> {
    /// The number of the last change as the store was opened.
    pub opened: u64,
    /// The number up to which changes are durable.
    pub durable: u64,
    /// Why the flusher ended before all was in the hives, if it did: the device failed.
    pub undone: Option<Refusal>,
    /// What each thread did, in the order of their indexes.
    pub accounts: Vec<Account<T>>,
}

/// Opens the store that is on a disk, and runs a client of its registry on so many threads, with a flusher on one more.
/// When all have ended, all that was accepted is made durable and moved into the hives. The disk is handed back. One history leads from the opening to the end: at each of its moments,
/// whatever a crash leaves recovers a beginning of what was accepted by then. Each thread's report is so in a beginning of
/// it. Nobody but the threads asked for an event of it, but for the ends of sessions that a client left open.
///
/// What no thread can be made for runs on the caller's. No more than 32 sessions are open at once. The gate sets the
/// flusher's pace: [`BusyGate`](crate::BusyGate) serves most programs.
///
/// Refused if the store isn't opened, and with `NoMemory` or `NoSeat` if there can be no registry; the client doesn't
/// run then.
pub fn serve<
    D: Disk + Send,
    C: Client<R, T> + Sync,
    T: Send + Drop,
    R: Threads + Wait + Sync,
    G: Gate + Sync,
>(
    rt: &R,
    alloc: Global,
    disk: D,
    client: &C,
    threads: usize,
    gate: &G,
) -> (D, Result<Served<T>, Refusal>)
    ensures kept { IfOk result.1 (KeepsStore D.faithful D.state_at D.clock D.failures C.reports
        (seen_in (D.state_at disk (D.clock disk))) result.0 threads) }
    ensures left { LeavesLife (D.failures disk < D.failures result.0) (D.faithful result.0)
        (D.state_at disk (D.clock disk)) (D.state_at result.0 (D.clock result.0)) }
    ensures refused { IfErr result.1 (MayNotServe (D.failures disk < D.failures result.0) (D.faithful result.0)
        (seen_in (D.state_at disk (D.clock disk)))) }
{
    let (engine, opened) = match open_engine(alloc, disk) {
        Ok(begun) => begun,
        Err((why, disk)) => return (disk, Err(why)),
    };
    let (count, seen) = ChangeCount::open();
    let (engine, served) = serve_over::<Brand, _, _, _, _, _>(
        rt,
        alloc,
        engine,
        Blank::new(threads as u64),
        EventCount::open(),
        count,
        seen,
        Sharing {
            client,
            threads,
            opened,
            gate,
        },
    );
    engine.keeps_a_prefix(); // for the prover
    engine.reads_a_prefix(); // for the prover
    (engine.into_disk(), served)
}

// a client, the number of its threads, that of the last change as the store was opened, and the flusher's gate
#[derive(Drop)]
struct Sharing<'a, C, G> {
    client: &'a C,
    threads: usize,
    opened: u64,
    gate: &'a G,
}

// the same over an engine that was just opened, with an empty list of changes
fn serve_over<
    O: Start + Send + Sync,
    E: StoreEngine + Send,
    C: Client<R, T> + Sync,
    T: Send + Drop,
    R: Threads + Wait + Sync,
    G: Gate + Sync,
>(
    rt: &R,
    alloc: Global,
    engine: E,
    blank: Blank,
    events: EventCount,
    count: ChangeCount,
    seen: SeenChanges,
    sharing: Sharing<'_, C, G>,
) -> (E, Result<Served<T>, Refusal>)
    requires shared { O.sole ≡ false }
    requires blank { (blank.name ≡ O.name) × (blank.parts ≡ O.parts) }
    requires parts { blank.parts ≡ sharing.threads }
    requires book { (count ≡ O.book) × (seen ≡ record { book = O.book; list = [] }) }
    requires events { events ≡ record { book = O.history; log = [] } }
    requires store { E.store engine ≡ O.store }
    requires start { E.state engine ≡ O.start }
    requires faithful { E.faithful engine → O.faithful }
    requires safe { (moment : ℕ) (machine : Machine) → O.safe moment machine → E.safe engine moment machine }
    requires engine { IsOf O.trees O.number O.hives (E.state engine).machine
        × ((E.state engine).machine.accepted ≡ []) × ((E.state engine).machine.sessions ≡ []) }
    ensures store { E.store result.0 ≡ O.store }
    ensures owner { IsOf O.trees O.number O.hives (E.state result.0).machine }
    ensures opened { IfOk result.1 (λ served. served.opened ≡ sharing.entry.opened) }
    ensures kept { HasLedWith O.start O.safe O.faithful (E.safe result.0) (E.faithful result.0) (E.state result.0)
        (λ history. IfOk result.1 (TellsOf (C.reports O.store) O.sole O.start O.trees O.number O.hives history (E.state result.0)
        sharing.entry.threads)) }
    ensures refused { IfErr result.1 (λ why. (why ≡ NoMemory) ⊎ (why ≡ NoSeat)) }
{
    engine.keeps_a_prefix(); // for the prover
    let Sharing {
        client,
        threads,
        opened,
        gate,
    } = sharing;
    let before = events.all().again();
    let changes = seen.again();
    let (requests, share_of_all) = blank.open::<O>();
    let requests = RequestCount::new(requests);
    let mut permissions = PermissionPool::new(share_of_all);
    let made = match new_seats::<O, T>(alloc, &events, &seen, &mut permissions, threads) {
        Ok(made) => made,
        Err(_) => return (engine, Err(Refusal::NoMemory)),
    };
    let (seats, mut accounts) = made;
    let registry = match Registry::<E, O>::new(alloc, rt, engine, events, requests, count, seen) {
        Ok(registry) => registry,
        Err((why, engine)) => return (engine, Err(why)),
    };
    let (seats, flushed) = share(rt, &registry, client, seats, gate);
    settle::<O, C, T, R>(seats, &mut permissions, &mut accounts);
    let all = seen_at_end(&accounts, &flushed, &before);
    let Ended {
        engine,
        events: _,
        durable,
    } = registry.end_shared(rt, Sight::new(changes, all), permissions, Vec::new(alloc));
    let served = Served {
        opened,
        durable,
        undone: undone(&flushed),
        accounts,
    };
    (engine, Ok(served))
}

// runs a client on the threads of these places, with a flusher beside
fn share<
    O: Start + Send + Sync,
    E: StoreEngine + Send,
    C: Client<R, T> + Sync,
    T: Send + Drop,
    R: Threads + Wait + Sync,
    G: Gate + Sync,
>(
    rt: &R,
    registry: &Registry<E, O>,
    client: &C,
    seats: Vec<Seat<O, T>>,
    gate: &G,
) -> (Vec<Seat<O, T>>, Result<Stopped, Told>)
    requires first { All (λ seat. seat.asker ≡ Some no_sight) seats.items }
    ensures count { length result.0.items ≡ length seats.items }
    ensures ended { All (λ seat. HasFinished (C.reports O.store) O.sole O.start O.trees O.number O.hives seat.asker seat.report) result.0.items }
    ensures stopped { IfOk result.1 (IsDone O.history O.start) }
    ensures failed { IfErr result.1 IsFailedStep }
{
    run_beside(
        rt,
        registry,
        gate,
        move || -> Vec<Seat<O, T>>
            requires { IsSend E.row × IsSync C.row × IsSync R.row × IsSend T.row × IsSend O.row
                × All (λ seat. seat.asker ≡ Some no_sight) seats.items }
            ensures { (length result.items ≡ length seats.items)
                × All (λ seat. HasFinished (C.reports O.store) O.sole O.start O.trees O.number O.hives seat.asker seat.report) result.items }
        {
            let mut seats = seats;
            let threads = seats.len().max(1);
            thread::for_each_mut(
                rt,
                &mut seats,
                threads,
                &|thread: usize, seat: &mut Seat<O, T>|
                    requires { seat.now.asker ≡ Some no_sight }
                    ensures { HasFinished (C.reports O.store) O.sole O.start O.trees O.number O.hives seat.exit.now.asker seat.exit.now.report }
                { seat.work(rt, registry, client, thread) },
            );
            seats
        },
    )
}

// all that the threads and the flusher had seen
fn seen_at_end<T: Drop>(
    accounts: &Vec<Account<T>>,
    flushed: &Result<Stopped, Told>,
    before: &SeenEvents,
) -> SeenEvents
    requires book { All (λ account. account.seen.book ≡ before.now.book) accounts.now.items }
    requires stopped { IfOk flushed.now (λ stopped. stopped.seen.book ≡ before.now.book) }
    ensures book { result.book ≡ before.now.book }
    ensures all { All (λ account. IsPrefix account.seen.log result.log) accounts.now.items }
    ensures stopped { IfOk flushed.now (λ stopped. IsPrefix stopped.seen.log result.log) }
{
    match flushed {
        Ok(stopped) => {
            let mut first = before.again();
            first.learn(stopped.events());
            seen_by_all(accounts, &first)
        }
        Err(_) => seen_by_all(accounts, before),
    }
}

// why the flusher ended before it was told to, if it did
fn undone(flushed: &Result<Stopped, Told>) -> Option<Refusal>
    requires { IfErr flushed.now IsFailedStep }
    ensures { result ≡ None → IsOk flushed.now }
{
    match flushed {
        Ok(_) => None,
        Err(told) => told.refusal(),
    }
}
