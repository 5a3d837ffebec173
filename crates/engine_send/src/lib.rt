//! The law of crossing: which values of a store may be used by more than one thread.
//!
//! Sessions on threads of their own may share one engine behind a lock, and readers may share trees without one. Each
//! law is proved of types alone, down to their last field, and for every disk that may be handed to another thread.
//!
//! There is no code here that does anything. Each function hands its value to one that takes only what may cross
//! threads.
#![tactic(auto)]

use disk_model::Disk;
use engine::Engine;
use reg_tree::Trees;
use std::sync::{Arc, Mutex};

// takes what may be handed to another thread
fn sends<T: Send>(_: &T) {}

// takes what several threads may see at once
fn shares<T: Sync>(_: &T) {}

/// An engine may be handed to another thread if its disk may.
///
/// So one thread may open a store and another may continue with it.
pub fn engine_is_sent<D: Disk + Send>(engine: &Engine<D>) {
    sends(engine);
}

/// A lock over an engine may be handed to another thread, and several threads may see it at once.
///
/// So sessions on threads of their own may take turns at one engine.
pub fn lock_is_shared<D: Disk + Send>(lock: &Mutex<Engine<D>>) {
    sends(lock);
    shares(lock);
}

/// A counted reference to such a lock may be handed to another thread, and several threads may see it at once.
///
/// So each thread may own a reference of its own, and none has to outlive the others.
pub fn owners_are_shared<D: Disk + Send>(owner: &Arc<Mutex<Engine<D>>>) {
    sends(owner);
    shares(owner);
}

/// A counted reference to trees may be handed to another thread, and several threads may see it at once.
///
/// So readers may share the trees of one moment, whatever the engine does meanwhile.
pub fn trees_are_shared(trees: &Arc<Trees>) {
    sends(trees);
    shares(trees);
}
