//! What uses a store.
ghost use Rattle.std.specs.Prelude.{◌≡◌, ℕ, Bool, List};
ghost use Rattle.commit_journal.specs.Store.{Store};
ghost use Rattle.engine_invariant.specs.Engines.{EngineView};
ghost use Rattle.ktm_calls.specs.Moments.{Sight, no_sight};
ghost use Rattle.reg_tree.specs.Maps.{TreeMap};

use histories::Start;
use ktm_calls::{Asker, Registry};
use std::sync::Wait;
use store_engine::StoreEngine;

/// What each thread of a program does with the registry of a store that is open, and what it reports of it. It opens and ends
/// sessions as it likes, one after another. A client that needs one session for each thread is a
/// [`SessionClient`](crate::SessionClient).
pub trait Client<R: Wait, T> {
    /// What is so of a report: of a registry of this store, whose history begins with this engine, and its list of changes on
    /// these trees after this number, with so many hives; and of what the thread has seen and asked for at its end.
    ghost reports: { Store → Bool → EngineView → List TreeMap → ℕ → ℕ → Sight → T → Type 0 };

    /// The work of the thread of this index, whatever engine and list of changes stand behind the registry. Who asks in it
    /// comes back, with all that the thread has seen. What it reports is so of that.
    fn run<E: StoreEngine, O: Start>(
        &self,
        rt: &R,
        registry: &Registry<E, O>,
        asker: Asker<O>,
        thread: usize,
    ) -> (Asker<O>, T)
        requires first { asker ≡ no_sight }
        ensures done { reports O.store O.sole O.start O.trees O.number O.hives result.0 result.1 };
}
