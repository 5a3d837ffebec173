//! What may be handed to another thread.
use crate::cursor_handle::CursorHandle;
use crate::handle::Handle;

// takes what may be handed to another thread
fn sends<T: Send>(_: &T) {}

/// The hive of a handle may be handed to another thread: no other handle shares anything of it that isn't counted
/// safely.
pub fn handle_is_sent(handle: &Handle) {
    sends(handle);
}

/// A cursor may be handed to another thread, on which it reads while the hive is edited on this one.
pub fn cursor_is_sent(cursor: &CursorHandle) {
    sends(cursor);
}
