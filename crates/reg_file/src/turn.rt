//! What one line of a file does.
ghost use Rattle.std.specs.Prelude.{◌≡◌, IfOk, Some};
ghost use Rattle.reg_file.specs.Files.{turn_of, scanned, judged, first_of, end_fault};

use crate::fault::{Fault, FaultKind};
use crate::line_scan::scan_line;
use crate::scan::{Pending, Scan};
use crate::statement::{NumberedStatement, Statement};
use refusals::limits::MOST_ELEMENT_BYTES;
use std::alloc::{AllocError, Global};

/// A statement of which a line has come, and that goes on.
#[derive(Drop)]
pub(crate) struct Item {
    /// The number of its first line.
    pub(crate) first_line: u64,
    /// How many units it may still have, and one more.
    pub(crate) room: u64,
    /// What there is of it.
    pub(crate) pending: Pending,
}

/// What one line does.
#[derive(Drop)]
pub(crate) enum Turn {
    /// The next line follows.
    Next {
        /// Whether a key is current.
        has_key: bool,
        /// The statement that goes on, if one does.
        item: Option<Item>,
    },
    /// A statement ends.
    Done {
        /// Whether a key is current behind it.
        has_key: bool,
        /// The statement.
        statement: NumberedStatement,
    },
    /// The file ends here, or a fault ends it.
    Stop {
        /// The fault.
        fault: Option<Fault>,
    },
}

/// What a line does, behind those of the statement that goes on.
pub(crate) fn take_line(
    alloc: Global,
    old: bool,
    has_key: bool,
    number: u64,
    item: Option<Item>,
    line: &[u16],
) -> Result<Turn, AllocError>
    ensures { IfOk result (λ turn. turn ≡ turn_of old has_key number item line.now) }
{
    let (first, room, pending) = match item {
        None => (
            number,
            (MOST_ELEMENT_BYTES + 1).saturating_sub(line.len() as u64),
            None,
        ),
        Some(item) => (
            item.first_line,
            item.room.saturating_sub(line.len() as u64 + 1),
            Some(item.pending),
        ),
    };
    let scan = scan_line(alloc, old, pending, line)?;
    Ok(turn_after(first, has_key, room, scan))
}

fn stop(line: u64, kind: FaultKind) -> Turn
    ensures { result ≡ Turn.Stop (Some (record { line = line; kind = kind })) }
{
    let fault = Some(Fault { line, kind });
    Turn::Stop { fault }
}

/// What a line does that is no text.
pub(crate) fn take_no_text(number: u64, item: Option<Item>) -> Turn
    ensures { result
        ≡ Turn.Stop (Some (record { line = first_of number item; kind = FaultKind.NotText })) }
{
    let line = match item {
        None => number,
        Some(item) => item.first_line,
    };
    stop(line, FaultKind::NotText)
}

/// What the end of the file does: it may not stand within a statement.
pub(crate) fn take_end(item: Option<Item>) -> Turn
    ensures { result ≡ Turn.Stop (end_fault item) }
{
    match item {
        None => Turn::Stop { fault: None },
        Some(item) => stop(item.first_line, FaultKind::NotUnderstood),
    }
}

fn turn_after(first: u64, has_key: bool, room: u64, scan: Scan) -> Turn
    ensures { result ≡ scanned first has_key room scan }
{
    match scan {
        Scan::Nothing => Turn::Next {
            has_key,
            item: None,
        },
        Scan::Complete { statement } => judge(first, has_key, room, statement),
        Scan::GoesOn { pending } => Turn::Next {
            has_key,
            item: Some(Item {
                first_line: first,
                room,
                pending,
            }),
        },
        Scan::NotUnderstood => stop(first, FaultKind::NotUnderstood),
    }
}

// a statement where it ends
fn judge(first: u64, has_key: bool, room: u64, statement: Statement) -> Turn
    ensures { result ≡ judged first has_key room statement }
{
    if statement.wants_key() && !has_key {
        return stop(first, FaultKind::NoKey);
    }
    if room == 0 {
        return stop(first, FaultKind::TooLarge);
    }
    let has_key = statement.key_after(has_key);
    let statement = NumberedStatement {
        line: first,
        statement,
    };
    Turn::Done { has_key, statement }
}
