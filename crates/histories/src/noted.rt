//! What the history notes of an event.
ghost use Rattle.std.specs.Prelude.{◌≡◌};
ghost use Rattle.histories.specs.Points.{entry_of};

use std::marker::Model;
use std::snapshot::Snapshot;
use store_engine::StoreEngine;
use store_model::{Event, Reply};

/// The type of what a history has. No value of it is made.
pub struct AnyEvent {
    clock: u64,
}

impl Model for AnyEvent {
    ghost use Rattle.histories.specs.Points.{HistoryEntry, entry_code, no_entry};

    ghost Value = { HistoryEntry };

    ghost coded = { entry_code };

    ghost view = { λ a. no_entry a.clock };
}

/// An event, its reply, and the engine after it, as contracts see them. It has no bytes.
#[derive(Drop)]
pub struct Noted<E: StoreEngine> {
    event: Snapshot<Event>,
    reply: Snapshot<Reply>,
    engine: Snapshot<E>,
}

impl<E: StoreEngine> Model for Noted<E> {
    ghost use Rattle.histories.specs.Points.{HistoryEntry, entry_code, entry_of};

    ghost Value = { HistoryEntry };

    ghost coded = { entry_code };

    ghost view = { λ n. entry_of n.event.value n.reply.value (E.state n.engine.value) };
}

impl<E: StoreEngine> Noted<E> {
    /// That an event was answered so, and that the engine is so then.
    pub fn of(event: Snapshot<Event>, reply: &Reply, engine: &E) -> Noted<E>
        ensures { result ≡ entry_of event.value reply.now (E.state engine.now) }
    {
        Noted {
            event,
            reply: Snapshot::of(reply),
            engine: Snapshot::of(engine),
        }
    }
}
