//! The clients of a service, each place on a thread of its own.
ghost use Rattle.std.specs.Prelude.{◌≡◌, List};
ghost use Rattle.ktm_calls.specs.Moments.{Sight as AnySight};
ghost use Rattle.store_server.specs.Visits.{ServesInTurn};

use crate::client_visit::VisitStart;
use crate::history_share::HistoryShare;
use crate::session_ends::SessionEnds;
use client_desks::{Arrival, Desk, Desks, Units};
use histories::Start;
use ktm_calls::{Asker, Registry};
use registry_lines::Caller;
use shared_store::Client;
use std::alloc::Global;
use std::sync::Wait;
use store_backup::BackupFolder;
use store_engine::StoreEngine;

/// What each thread of a service does: it serves the clients at its desk, one after another, until all are to stop or to
/// rest.
#[derive(Drop)]
pub struct Clients<'a, B> {
    /// From where memory is taken.
    pub alloc: Global,
    /// The desks.
    pub desks: &'a Desks,
    /// The units of work that are active.
    pub units: &'a Units,
    /// What is left of the history.
    pub share: &'a HistoryShare,
    /// Where copies of the store are made.
    pub backups: &'a B,
    /// Whether the store is opened for the first time, which the broker is told.
    pub is_first: bool,
}

impl<R: Wait + Print, B: BackupFolder> Client<R, SessionEnds> for Clients<'_, B> {
    ghost use Rattle.store_server.specs.Visits.{ReportsVisits};

    ghost reports = { ReportsVisits B.holds };

    fn run<E: StoreEngine, O: Start>(
        &self,
        rt: &R,
        registry: &Registry<E, O>,
        asker: Asker<O>,
        thread: usize,
    ) -> (Asker<O>, SessionEnds) {
        let caller = Caller {
            rt,
            alloc: self.alloc,
            registry,
        };
        if thread == 0 && self.is_first {
            // if that can't be written, all desks are told to stop
            let _ = self.desks.write_ready(rt);
        }
        let Some(desk) = self.desks.desk(thread) else {
            return (asker, SessionEnds::Granted);
        };
        self.serve_desk(&caller, desk, asker)
    }
}

impl<B: BackupFolder> Clients<'_, B> {
    // serves the clients at a desk, one after another
    fn serve_desk<E: StoreEngine, O: Start, R: Wait + Print>(
        &self,
        caller: &Caller<'_, E, O, R>,
        desk: Desk<'_>,
        asker: Asker<O>,
    ) -> (Asker<O>, SessionEnds)
        ensures { (visits : List AnySight) × ServesInTurn B.holds O.store O.sole O.start O.trees O.number O.hives asker visits
            result.0 result.1 }
    {
        let mut asker = asker;
        let mut ends = SessionEnds::Granted;
        for _ in caller.rt.forever() {
            let start = match desk.wait(caller.rt) {
                Arrival::Client => VisitStart {
                    moment: 0,
                    line: 1,
                    is_resumed: false,
                },
                Arrival::Resumed { moment, line } => VisitStart {
                    moment,
                    line,
                    is_resumed: true,
                },
                Arrival::Rest | Arrival::Stop => return (asker, ends),
            };
            let (back, ended) = self.serve_client(caller, desk, start, asker);
            asker = back;
            ends = ends.and(ended);
        }
        unreachable!()
    }
}
