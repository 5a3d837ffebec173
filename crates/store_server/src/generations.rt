//! The service of a store, over as many registries as its changes fill.
ghost use Rattle.std.specs.Prelude.{◌≡◌, ◌↔◌, IsTrue, List};
ghost use Rattle.std.specs.List.{All};
ghost use Rattle.std.specs.Prelude.{Result as AnyResult};
ghost use Rattle.refusals.specs.declared.refusal.Refusal.{Refusal as AnyRefusal};
ghost use Rattle.shared_store.specs.declared.service.Served.{Served as AnyServed};
ghost use Rattle.store_server.specs.Generations.{EndsService, ServesInGenerations};
ghost use Rattle.store_server.specs.declared.session_ends.SessionEnds.{SessionEnds as AnyEnds};

use crate::clients::Clients;
use crate::history_share::HistoryShare;
use crate::news_gate::NewsGate;
use crate::session_ends::SessionEnds;
use client_desks::{Desks, Units};
use disk_model::Disk;
use refusals::Refusal;
use shared_store::{Account, Served, serve};
use std::alloc::Global;
use std::sync::Wait;
use std::thread::Threads;
use store_backup::BackupFolder;

/// Opens the store that is on a disk, and serves the clients at these desks until they are told to stop. Before the history
/// is full, all sessions rest, the store is opened anew, and each client goes on. Clients may have copies of the store made
/// in a folder. The disk comes back.
///
/// Refused as an opening is; with what ended the work of an end, if not all that was accepted is in the hives: the device
/// failed, or there was no memory; and with `NoMemory` if the end of a client's session was denied, after which all stop.
pub fn serve_desks<D: Disk + Send, B: BackupFolder + Sync, R: Threads + Wait + Print + Sync>(
    rt: &R,
    alloc: Global,
    disk: D,
    desks: &Desks,
    backups: &B,
    limit: u64,
) -> (D, Result<(), Refusal>)
    ensures { (between : List D) × (told : AnyResult (AnyServed AnyEnds) AnyRefusal)
        × ServesInGenerations B.holds D.faithful D.state_at D.clock D.failures disk between result.0 told
        × EndsService told result.1 }
{
    let units = Units::new(alloc);
    let share = HistoryShare::new(limit);
    let gate = NewsGate::new(rt, desks);
    let mut disk = disk;
    let mut is_first = true;
    for _ in rt.forever() {
        let clients = Clients {
            alloc,
            desks,
            units: &units,
            share: &share,
            backups,
            is_first,
        };
        let (back, served) = serve(rt, alloc, disk, &clients, desks.count(), &gate);
        match end_of(&served) {
            Err(why) => return (back, Err(why)),
            Ok(()) if desks.rest_asked(rt).is_none() => return (back, Ok(())),
            Ok(()) => disk = back,
        }
        is_first = false;
        share.begin(rt);
        desks.begin_generation(rt);
    }
    unreachable!()
}

// how a service ends of which this was told
fn end_of(served: &Result<Served<SessionEnds>, Refusal>) -> Result<(), Refusal>
    ensures { EndsService served.now result }
{
    match served {
        Ok(served) => match served.undone {
            Some(why) => Err(why),
            None if !all_ended(&served.accounts) => Err(Refusal::NoMemory),
            None => Ok(()),
        },
        Err(why) => Err(*why),
    }
}

// whether each session ended that was opened for a client
fn all_ended(accounts: &Vec<Account<SessionEnds>>) -> bool
    ensures { IsTrue result ↔ All (λ account. account.report ≡ SessionEnds.Granted) accounts.now.items }
{
    accounts
        .iter()
        .all(|account| account.report == SessionEnds::Granted)
}
