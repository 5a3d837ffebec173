//! What an event asks, without what it has on the heap.
ghost use Rattle.std.specs.Prelude.{◌≡◌};
ghost use Rattle.store_model.specs.Steps.{may_accept};
ghost use Rattle.ktm_calls.specs.Kinds.{kind_of};

use store_model::{Event, Tx};

/// An event's kind, session, transaction and moment.
#[derive(Clone, Copy, Debug, PartialEq, Eq)]
pub enum EventKind {
    /// A session is opened.
    StartSession {
        /// The session.
        session: u32,
    },
    /// A session ends.
    EndSession {
        /// The session.
        session: u32,
    },
    /// The trees of now are read.
    Read {
        /// The session.
        session: u32,
    },
    /// An operation is carried out by itself.
    Write {
        /// The session.
        session: u32,
        /// The moment.
        moment: u64,
    },
    /// A transaction is begun.
    Begin {
        /// The session.
        session: u32,
    },
    /// A transaction's view is read.
    TxRead {
        /// The session.
        session: u32,
        /// The transaction.
        tx: Tx,
    },
    /// An operation is added to a transaction.
    TxWrite {
        /// The session.
        session: u32,
        /// The transaction.
        tx: Tx,
        /// The moment.
        moment: u64,
    },
    /// A transaction is accepted as one change.
    CommitAccept {
        /// The session.
        session: u32,
        /// The transaction.
        tx: Tx,
        /// The moment.
        moment: u64,
    },
    /// A transaction is rolled back.
    Rollback {
        /// The session.
        session: u32,
        /// The transaction.
        tx: Tx,
    },
    /// A transaction's handle is closed.
    Close {
        /// The session.
        session: u32,
        /// The transaction.
        tx: Tx,
    },
    /// It is asked what became of a transaction.
    Outcome {
        /// The session.
        session: u32,
        /// The transaction.
        tx: Tx,
    },
    /// It is asked for the number of a unit of work's commit.
    OutcomeOf,
    /// It is asked which change a flush has to wait for.
    FlushAsk,
    /// It is asked whether a change is durable.
    Acked {
        /// Its number.
        number: u64,
    },
    /// The history is folded.
    Fold,
    /// One step of the journal.
    JournalStep,
    /// One step of the flush of a hive.
    FlusherStep {
        /// The hive.
        hive: u8,
    },
    /// One step of a trim.
    TrimStep,
}

impl EventKind {
    /// What an event asks.
    pub fn of(event: &Event) -> EventKind
        ensures { result ≡ kind_of event.now }
    {
        match event {
            Event::StartSession { session } => EventKind::StartSession { session: *session },
            Event::EndSession { session } => EventKind::EndSession { session: *session },
            Event::Read { session, .. } => EventKind::Read { session: *session },
            Event::Write {
                session,
                moment,
                ..
            } => EventKind::Write {
                session: *session,
                moment: *moment,
            },
            Event::Begin { session, .. } => EventKind::Begin { session: *session },
            Event::OutcomeOf { .. } => EventKind::OutcomeOf,
            Event::FlushAsk => EventKind::FlushAsk,
            Event::Acked { number } => EventKind::Acked { number: *number },
            Event::Fold => EventKind::Fold,
            Event::JournalStep => EventKind::JournalStep,
            Event::FlusherStep { hive } => EventKind::FlusherStep { hive: *hive },
            Event::TrimStep => EventKind::TrimStep,
            Event::TxRead { session, tx, .. } => EventKind::TxRead {
                session: *session,
                tx: *tx,
            },
            Event::TxWrite {
                session,
                tx,
                moment,
                ..
            } => EventKind::TxWrite {
                session: *session,
                tx: *tx,
                moment: *moment,
            },
            Event::CommitAccept {
                session,
                tx,
                moment,
            } => EventKind::CommitAccept {
                session: *session,
                tx: *tx,
                moment: *moment,
            },
            Event::Rollback { session, tx } => EventKind::Rollback {
                session: *session,
                tx: *tx,
            },
            Event::Close { session, tx } => EventKind::Close {
                session: *session,
                tx: *tx,
            },
            Event::Outcome { session, tx } => EventKind::Outcome {
                session: *session,
                tx: *tx,
            },
        }
    }
}

/// Whether an event may accept a change: a write by itself, or a commit.
pub fn may_accept(event: &Event) -> bool
    ensures { result ≡ may_accept event.now }
{
    matches!(event, Event::Write { .. } | Event::CommitAccept { .. })
}
