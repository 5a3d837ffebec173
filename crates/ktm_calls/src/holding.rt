//! One event of an engine, with its entry in the history.
ghost use Rattle.std.specs.Prelude.{◌≡◌, ◌+◌, ◌<◌, ◌≤◌, ◌++◌, ◌∷◌, [], length, true, IfErr, IfOk, IfSome, OnErr, OnOk};
ghost use Rattle.refusals.specs.declared.refusal.Refusal.TheVariants.{NoMemory};
ghost use Rattle.reg_tree.specs.Sequences.{after_elements};
ghost use Rattle.store_model.specs.Steps.{Step, may_accept};
ghost use Rattle.store_model.specs.declared.event.Reply.TheVariants as reply;
ghost use Rattle.histories.specs.Histories.{LeadsTo};
ghost use Rattle.histories.specs.Points.{entry_of};
ghost use Rattle.ktm_calls.specs.Moments.{with_next};

use histories::{EventCount, Noted, Start};
use published_trees::{Origin, Publication};
use refusals::Refusal;
use std::alloc::Global;
use std::snapshot::Snapshot;
use std::sync::{Arc, Wait};
use store_engine::StoreEngine;
use store_model::{Event, Reply};
use transactions::Next;

/// Puts an event to the engine, and adds it to the history.
pub fn put_event<E: StoreEngine, O: Start, R: Wait>(
    rt: &R,
    engine: &mut E,
    events: &mut EventCount,
    event: Event,
) -> Reply
    requires leads { LeadsTo O.start O.safe O.faithful (E.safe engine.old) (E.faithful engine.old) events.old.log
        (E.state engine.old) }
    ensures leads { LeadsTo O.start O.safe O.faithful (E.safe engine.new) (E.faithful engine.new) events.new.log
        (E.state engine.new) }
    ensures store { E.store engine.new ≡ E.store engine.old }
    ensures book { events.new.book ≡ events.old.book }
    ensures added { events.new.log ≡ events.old.log ++ entry_of event result (E.state engine.new) ∷ [] }
    ensures step { Step (E.state engine.old).machine event result (E.state engine.new).machine }
    ensures call { ((E.state engine.old).clock ≤ (E.state engine.new).clock)
        × ((E.state engine.new).clock ≤ (E.state engine.old).clock + 1) }
{
    let known = Snapshot::of(&event);
    let reply = engine.event(event);
    note(rt, events, known, &reply, engine);
    reply
}

/// Puts an event to the engine that may accept a change, and adds it to the history: it is prepared, its change is in the
/// list with its trees published, and then it is finished.
///
/// Refused with `NoMemory` alone; no event was put then.
pub fn accept_event<E: StoreEngine, O: Start, R: Wait>(
    rt: &R,
    alloc: Global,
    engine: &mut E,
    events: &mut EventCount,
    publication: &mut Publication<O>,
    event: Event,
) -> Result<Reply, Refusal>
    requires accepts { may_accept event ≡ true }
    requires opened { (E.state engine.old).machine.opened ≡ O.trees }
    requires list { publication.old ≡ (E.state engine.old).machine.accepted }
    requires room { length publication.old < u64.MAX }
    requires leads { LeadsTo O.start O.safe O.faithful (E.safe engine.old) (E.faithful engine.old) events.old.log
        (E.state engine.old) }
    ensures leads { LeadsTo O.start O.safe O.faithful (E.safe engine.new) (E.faithful engine.new) events.new.log
        (E.state engine.new) }
    ensures store { E.store engine.new ≡ E.store engine.old }
    ensures book { events.new.book ≡ events.old.book }
    ensures added { IfOk result (λ answer. events.new.log ≡ events.old.log ++ entry_of event answer
        (E.state engine.new) ∷ []) }
    ensures list { publication.new ≡ (E.state engine.new).machine.accepted }
    ensures step { IfOk result (λ answer. Step (E.state engine.old).machine event answer (E.state engine.new).machine) }
    ensures fed { IfOk result (λ answer. ¬ (answer ≡ reply.Refused NoMemory)) }
    ensures refused { IfErr result (λ why. why ≡ NoMemory) }
    ensures unchanged { OnErr result (((E.state engine.new).machine ≡ (E.state engine.old).machine)
        × (events.new ≡ events.old)) }
    ensures call { (E.state engine.new).clock ≡ (E.state engine.old).clock }
{
    let known = Snapshot::of(&event);
    let prepared = engine.prepare(event);
    let next = prepared?;
    publish_next::<O, R>(rt, alloc, publication, next)?;
    let reply = engine.finish();
    note(rt, events, known, &reply, engine);
    Ok(reply)
}

// adds an event that was just answered to the history
fn note<E: StoreEngine, R: Wait>(
    rt: &R,
    events: &mut EventCount,
    event: Snapshot<Event>,
    reply: &Reply,
    engine: &E,
)
    ensures { events.new ≡ record {
      book = events.old.book;
      log = events.old.log ++ entry_of event.value reply.now (E.state engine.now) ∷ [];
    } }
{
    let entry = Noted::<E>::of(event, reply, engine);
    let mut seen = events.all().again();
    events.add(rt, &entry, &mut seen);
}

// the change that comes is in the list, and the trees after it are published
fn publish_next<O: Origin, R: Wait>(
    rt: &R,
    alloc: Global,
    publication: &mut Publication<O>,
    next: Option<Next>,
) -> Result<(), Refusal>
    requires room { length publication.old < u64.MAX }
    requires trees { IfSome next (λ n. n.trees
        ≡ after_elements O.trees (publication.old ++ n.change.value ∷ [])) }
    ensures added { OnOk result (publication.new ≡ with_next publication.old next) }
    ensures unchanged { OnErr result (publication.new ≡ publication.old) }
    ensures refused { IfErr result (λ why. why ≡ NoMemory) }
{
    if let Some(Next { trees, change }) = next {
        let shared = Arc::new(alloc, trees)?;
        publication.publish(rt, shared, &change);
    }
    Ok(())
}
