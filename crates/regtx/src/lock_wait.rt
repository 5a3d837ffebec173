//! The word `wait`: how long a command waits for a store that another program has.
ghost use Rattle.std.specs.Prelude.{◌≤◌, IfSome};
ghost use Rattle.regtx.specs.declared.lock_wait.TheConstants.{MOST_SECONDS};

use crate::command_error::CommandError;
use file_disk::{FileDisk, LockError, Unknown};
use std::alloc::Global;
use std::fs::File;
use std::rt::Files;
use std::time::{Clock, Duration};

/// How long a wait lasts after the first try, in milliseconds. After each further try it is twice as long.
const FIRST_PAUSE: u64 = 1;

/// The longest that a wait lasts between two tries, in milliseconds.
const LONGEST_PAUSE: u64 = 16;

/// The most seconds that a command waits: a day.
const MOST_SECONDS: u64 = 86_400;

/// How long a command tries again to open a store that another program has, in milliseconds.
#[derive(Clone, Copy)]
pub struct LockWait {
    millis: u64,
}

impl LockWait {
    /// It doesn't try again.
    pub fn none() -> LockWait {
        LockWait { millis: 0 }
    }

    /// Opens the store in a folder, and again after a pause if another program has it.
    pub fn open<'a, R: Files<File = File> + Clock>(
        self,
        rt: &'a R,
        alloc: Global,
        access: Access,
        folder: &str,
    ) -> Result<FileDisk<&'a R, Unknown>, LockError> {
        let mut left = self.millis;
        let mut pause = FIRST_PAUSE;
        for _ in 0..self.millis {
            match access.open(rt, alloc, folder) {
                Err(LockError::InUse) if left > 0 => {
                    std::thread::sleep(rt, Duration::from_millis(pause.min(left)));
                    left = left.saturating_sub(pause);
                    pause = pause.saturating_mul(2).min(LONGEST_PAUSE);
                }
                opened => return opened,
            }
        }
        access.open(rt, alloc, folder)
    }
}

/// What a command does with the files of a store.
#[derive(Clone, Copy)]
pub enum Access {
    /// It writes them too.
    ReadWrite,
    /// It only reads them.
    ReadOnly,
}

impl Access {
    // the files of the store in a folder, as a disk
    fn open<'a, R: Files<File = File>>(
        self,
        rt: &'a R,
        alloc: Global,
        folder: &str,
    ) -> Result<FileDisk<&'a R, Unknown>, LockError> {
        match self {
            Access::ReadWrite => FileDisk::open_locked(rt, alloc, folder),
            Access::ReadOnly => FileDisk::open_read_only(rt, alloc, folder),
        }
    }
}

/// Takes `wait SECONDS` out of the words before the command, if it stands there. Seconds are decimal digits, at most a
/// day.
pub fn take_wait<'a>(words: &mut Vec<String>) -> Result<LockWait, CommandError<'a>> {
    if words.get(1).is_none_or(|word| word.as_str() != "wait") {
        return Ok(LockWait::none());
    }
    let Some(word) = words.get(2) else {
        return Err(CommandError::WrongWords);
    };
    let Some(seconds) = seconds_of(word) else {
        return Err(CommandError::WrongWords);
    };
    words.remove(1);
    words.remove(1);
    Ok(LockWait {
        millis: seconds * 1_000,
    })
}

// a number of seconds; a sign isn't allowed
fn seconds_of(word: &str) -> Option<u64>
    ensures { IfSome result (λ seconds. seconds ≤ MOST_SECONDS) }
{
    if !word.as_bytes().iter().all(|byte| byte.is_ascii_digit()) {
        return None;
    }
    match word.parse::<u64>() {
        Ok(seconds) if seconds <= MOST_SECONDS => Some(seconds),
        _ => None,
    }
}
