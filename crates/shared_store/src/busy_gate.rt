//! The pace of a flusher beside committers.

use disk_model::Progress;
use flusher::Gate;
use store_driver::BUSY_ROOM;

/// How many more bytes of the journal's room are used from one flush of a hive to the next.
const FLUSH_ROOM: u64 = BUSY_ROOM / 8;

/// Lets the flusher begin the flush of a hive whenever a sixteenth more of the journal's room is used.
///
/// So a hive never lacks much. From half of the room on all that write make the flusher's steps themselves, until a trim
/// has freed it; they soon have then.
#[derive(Clone, Copy)]
pub struct BusyGate;

impl Gate for BusyGate {
    fn room(&self) -> u64 {
        FLUSH_ROOM
    }

    fn room_after(&self, used: u64) -> u64 {
        if used < BUSY_ROOM - FLUSH_ROOM {
            used + FLUSH_ROOM
        } else {
            // a trim is near
            FLUSH_ROOM
        }
    }

    fn after_step(&self, _progress: Progress) {}
}
