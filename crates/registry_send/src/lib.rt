//! The law of crossing for a registry: threads may share one, and may take along what it hands out.
//!
//! There is no code here that does anything. Each function hands its value to one that takes only what may cross
//! threads.
#![tactic(auto)]

use histories::Start;
use ktm_calls::{Receipt, Registry, Session};
use published_trees::{SeenChanges, TreesSnapshot};
use store_engine::StoreEngine;

// takes what may be handed to another thread
fn sends<T: Send>(_: &T) {}

// takes what several threads may see at once
fn shares<T: Sync>(_: &T) {}

/// Several threads may see one registry at once, if its engine may be handed to another thread.
///
/// So each may call it.
pub fn registry_is_shared<E: StoreEngine + Send, O: Start>(registry: &Registry<E, O>) {
    shares(registry);
}

/// A session may be handed to another thread.
///
/// So a thread may be started with one.
pub fn session_is_sent<O: Start + Send>(session: &Session<O>) {
    sends(session);
}

/// What was seen of the list of changes may be handed to another thread, and several threads may see it at once.
pub fn changes_are_shared(seen: &SeenChanges) {
    sends(seen);
    shares(seen);
}

/// A snapshot of the trees may be handed to another thread, and several threads may see it at once.
///
/// So readers on threads of their own may look at one.
pub fn snapshot_is_shared(snapshot: &TreesSnapshot) {
    sends(snapshot);
    shares(snapshot);
}

/// A receipt may be handed to another thread, and several threads may see it at once.
///
/// So one thread may learn what another made durable.
pub fn receipt_is_shared<O: Start + Send + Sync>(receipt: &Receipt<O>) {
    sends(receipt);
    shares(receipt);
}
