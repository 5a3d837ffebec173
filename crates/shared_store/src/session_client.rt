//! A client each of whose threads has one session.
ghost use Rattle.std.specs.Prelude.{◌≡◌};
ghost use Rattle.engine_invariant.specs.Engines.{EngineView};
ghost use Rattle.ktm_calls.specs.Moments.{Sight};

use crate::client::Client;
use histories::Start;
use ktm_calls::{Asker, Registry, Session};
use refusals::Refusal;
use std::sync::Wait;
use store_engine::StoreEngine;

/// What each thread of a program does in a session of its own, and what it reports of it. The session is opened before the
/// thread's work and ended after it.
pub trait SessionClient<R: Wait, T> {
    /// What is so of a report, if the history began with this engine: of what the thread's session had seen and asked for as
    /// it was opened, and at the end of the thread's work.
    ghost tells: { EngineView → Sight → Sight → T → Type 0 };

    /// The work of the thread of this index, in its own session, whatever engine and list of changes stand behind the
    /// registry. What it reports is so of what its session has seen then, such as what a receipt carries that it learnt.
    fn run<E: StoreEngine, O: Start>(
        &self,
        rt: &R,
        registry: &Registry<E, O>,
        session: &mut Session<O>,
        thread: usize,
    ) -> T
        ensures told { tells O.start session.old.seen session.new.seen result };
}

/// A [`SessionClient`] as a client. A thread's report is the client's; or it is why no session could be opened for the
/// thread, which did nothing then.
#[derive(Drop)]
pub struct InSession<C: Drop>(pub C);

impl<R: Wait, T: Drop, C: SessionClient<R, T> + Drop> Client<R, Result<T, Refusal>>
    for InSession<C> {
    ghost use Rattle.shared_store.specs.Accounts.{Did};

    ghost reports = { λ store sole begun trees number hives is report. Did C.tells sole begun trees number hives is report };

    fn run<E: StoreEngine, O: Start>(
        &self,
        rt: &R,
        registry: &Registry<E, O>,
        asker: Asker<O>,
        thread: usize,
    ) -> (Asker<O>, Result<T, Refusal>) {
        match registry.session(rt, asker) {
            Ok((session, _)) => {
                let mut session = session;
                let report = self.0.run(rt, registry, &mut session, thread);
                let (asker, _) = registry.end_session(rt, session);
                (asker, Ok(report))
            }
            Err((why, asker)) => (asker, Err(why.into())),
        }
    }
}
