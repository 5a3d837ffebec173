//! What a store is asked, one event after another, and what it answers.
use crate::handle::{Outcome, Tx};
use disk_model::Progress;
use refusals::Refusal;
use reg_names::{Name, Path, ValueName};
use reg_tree::{Info, Names, Op, Value};
use uuid::Uuid;

/// What is read of a key.
#[derive(Drop)]
pub enum Question {
    /// The value of this name.
    ValueOf {
        /// The value's name.
        name: ValueName,
    },
    /// The value at this index, in the order of names.
    ValueAt {
        /// The index, from 0 on.
        index: usize,
    },
    /// The name of the subkey at this index, in the order of names.
    KeyAt {
        /// The index, from 0 on.
        index: usize,
    },
    /// The names of its subkeys.
    KeysOf,
    /// The names of its values.
    ValuesOf,
    /// How many subkeys and values it has, and when it was last written.
    InfoOf,
}

/// What was read of a key.
#[derive(Drop)]
pub enum ReadResult {
    /// A value.
    Value {
        /// The value.
        value: Value,
    },
    /// The name of a subkey.
    Key {
        /// The name.
        name: Name,
    },
    /// The names of subkeys.
    Keys {
        /// The names, in their order.
        names: Names,
    },
    /// The names of values.
    ValueNames {
        /// The names, in their order.
        names: Names,
    },
    /// What the key has.
    Counts {
        /// How many subkeys and values, and the moment of the last write.
        info: Info,
    },
}

/// One event of a store. Sessions are known by their numbers.
#[derive(Drop)]
pub enum Event {
    /// A session is opened, if it isn't open.
    StartSession {
        /// The session.
        session: u32,
    },
    /// A session ends, and with it all its transactions.
    EndSession {
        /// The session.
        session: u32,
    },
    /// A key is read.
    Read {
        /// The session.
        session: u32,
        /// The hive's number.
        hive: u8,
        /// The key's path.
        path: Path,
        /// What is read of it.
        question: Question,
    },
    /// An operation is carried out by itself.
    Write {
        /// The session.
        session: u32,
        /// The moment.
        moment: u64,
        /// The operation.
        op: Op,
    },
    /// A transaction is begun.
    Begin {
        /// The session.
        session: u32,
        /// The unit of work that it is for; it may be any, also one of another transaction.
        id: Uuid,
    },
    /// A key is read as a transaction sees it.
    TxRead {
        /// The session.
        session: u32,
        /// The transaction.
        tx: Tx,
        /// The hive's number.
        hive: u8,
        /// The key's path.
        path: Path,
        /// What is read of it.
        question: Question,
    },
    /// An operation is added to a transaction.
    TxWrite {
        /// The session.
        session: u32,
        /// The transaction.
        tx: Tx,
        /// The moment.
        moment: u64,
        /// The operation.
        op: Op,
    },
    /// The operations of a transaction are accepted as one change.
    CommitAccept {
        /// The session.
        session: u32,
        /// The transaction.
        tx: Tx,
        /// The moment of the change.
        moment: u64,
    },
    /// The operations of a transaction are dropped.
    Rollback {
        /// The session.
        session: u32,
        /// The transaction.
        tx: Tx,
    },
    /// A transaction is dropped; one that is active is rolled back.
    Close {
        /// The session.
        session: u32,
        /// The transaction.
        tx: Tx,
    },
    /// Asks what became of a transaction.
    Outcome {
        /// The session.
        session: u32,
        /// The transaction.
        tx: Tx,
    },
    /// Asks which change a unit of work committed as, also before the store was opened.
    OutcomeOf {
        /// The unit of work.
        id: Uuid,
    },
    /// Asks which change a flush has to wait for.
    FlushAsk,
    /// Asks whether the change of a number is durable.
    Acked {
        /// The change's number.
        number: u64,
    },
    /// The history is folded: the trees of now are those of the opening, and no change was accepted since. Sessions and
    /// transactions stay.
    Fold,
    /// One step of the journal: accepted changes become durable.
    JournalStep,
    /// One step of the flush of a hive.
    FlusherStep {
        /// The hive's number.
        hive: u8,
    },
    /// One step of a trim of the journal.
    TrimStep,
}

/// The answer to an event.
#[derive(Drop)]
pub enum Reply {
    /// It is done, and there is nothing else to answer.
    Done,
    /// An operation was accepted as a change.
    Accepted {
        /// How many keys it makes, if it creates one.
        levels: Option<usize>,
        /// The change's number.
        number: u64,
    },
    /// An operation was added to a transaction.
    Added {
        /// How many keys it makes, if it creates one.
        levels: Option<usize>,
    },
    /// The key that was to be created is there.
    Opened,
    /// What was read.
    Read {
        /// What was found.
        found: ReadResult,
    },
    /// A transaction was begun.
    Begun {
        /// Its handle.
        tx: Tx,
    },
    /// What is to be waited for.
    Awaits {
        /// The number of a change, or 0 if there is nothing to wait for.
        number: u64,
    },
    /// What became of a transaction.
    OutcomeIs {
        /// The outcome.
        outcome: Outcome,
    },
    /// A unit of work has committed.
    CommittedAs {
        /// The number of its last commit's change.
        number: u64,
    },
    /// A change is durable, and each before it.
    Receipt {
        /// The change's number.
        number: u64,
    },
    /// A change isn't durable yet.
    NotYet,
    /// The history was folded.
    Folded {
        /// The number of the last accepted change.
        number: u64,
    },
    /// A step was made.
    Stepped {
        /// How far it came.
        progress: Progress,
    },
    /// The event was refused.
    Refused {
        /// Why.
        refusal: Refusal,
    },
}
