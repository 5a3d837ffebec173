//! What a line is to a served session.
ghost use Rattle.std.specs.Prelude.{◌≡◌};
ghost use Rattle.store_server.specs.Served.{kind_of as kind_of_line};

use script_syntax::{Label, Line};
use uuid::Uuid;

/// What a line is to a served session.
#[derive(Clone, Copy)]
pub enum ServedKind {
    /// It opens or ends a session, or folds the history: a client has one session, and the service folds.
    OfRun,
    /// `kept UUID`: what it tells has to be durable.
    Kept {
        /// The unit of work.
        id: Uuid,
    },
    /// `begin T UUID`: a unit of work is active in one session at a time.
    Begin {
        /// The label.
        label: Label,
        /// The unit of work.
        id: Uuid,
    },
    /// Any other line, which is answered as in a run.
    Other,
}

/// What a line is to a served session.
pub fn kind_of(line: &Line) -> ServedKind
    ensures { result ≡ kind_of_line line.now }
{
    match line {
        Line::Session { .. } | Line::End { .. } | Line::Fold => ServedKind::OfRun,
        Line::Kept { id } => ServedKind::Kept { id: *id },
        Line::Begin { label, id } => ServedKind::Begin {
            label: *label,
            id: *id,
        },
        _ => ServedKind::Other,
    }
}
