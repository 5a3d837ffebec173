//! What an event that may accept a change is going to do, once all its memory is allocated.
ghost use Rattle.std.specs.Prelude.{◌≡◌, IfOk};
ghost use Rattle.std.specs.Option.{option_map};
ghost use Rattle.transactions.specs.Prepared.{change_and_trees, change_to_accept};

use crate::table::Holders;
use crate::view::View;
use change_codec::EncodedChange;
use reg_tree::{Op, Trees};
use std::alloc::{AllocError, Global};
use std::snapshot::Snapshot;
use store_model::{Event, Reply, Tx};
use uuid::Uuid;

/// An event that may accept a change, with all the memory that it needs: from here on it takes none.
#[derive(Drop)]
pub struct Prepared {
    /// The event: known to contracts alone.
    pub(crate) event: Snapshot<Event>,
    pub(crate) ready: Ready,
}

/// What it is going to do.
#[derive(Drop)]
pub(crate) enum Ready {
    /// This is the answer, and nothing changes.
    Answered(Reply),
    /// An operation is accepted by itself.
    Write(ReadyWrite),
    /// A transaction without operations commits as nothing.
    Nothing(u32, Tx),
    /// A transaction's operations are accepted as one change.
    Commit(ReadyCommit),
}

/// What an operation leads to that may be accepted by itself.
#[derive(Drop)]
pub(crate) struct JudgedWrite {
    /// The trees after it.
    pub trees: Trees,
    /// How many keys it makes, if it creates one.
    pub levels: Option<usize>,
    /// The transactions that are rolled back by it.
    pub holders: Holders,
    /// The room that the journal has used then.
    pub room: u64,
}

/// An operation that is accepted by itself.
#[derive(Drop)]
pub(crate) struct ReadyWrite {
    /// The change, kept as its encoding.
    pub element: EncodedChange,
    /// The trees after it.
    pub trees: Trees,
    /// How many keys it makes, if it creates one.
    pub levels: Option<usize>,
    /// The transactions that are rolled back by it.
    pub holders: Holders,
    /// What the others see then, by their slots; nothing if it is to be made again.
    pub rebased: Vec<Option<View>>,
    /// The room that the journal has used then.
    pub room: u64,
}

/// What a commit adds to a change for its outcome.
#[derive(Drop)]
pub(crate) struct OutcomeChange {
    /// The operations on the tree of outcomes: none, if the store keeps no outcomes.
    pub ops: Vec<Op>,
    /// The bytes of their encodings.
    pub text_len: u64,
    /// The trees after them.
    pub trees: Trees,
    /// The number with which the unit of work committed before.
    pub earlier: Option<u64>,
}

/// What a commit leads to that may be accepted.
#[derive(Drop)]
pub(crate) struct JudgedCommit {
    /// Whether each operation of the transaction is known to be one that could be carried out.
    pub carried: bool,
    /// What its outcome adds.
    pub outcome: OutcomeChange,
    /// The bytes of the encoded change.
    pub text_len: u64,
    /// The room that the journal has used then.
    pub room: u64,
}

/// A transaction whose operations are accepted as one change.
#[derive(Drop)]
pub(crate) struct ReadyCommit {
    /// Its session.
    pub session: u32,
    /// The transaction.
    pub tx: Tx,
    /// The moment of the change.
    pub moment: u64,
    /// The unit of work.
    pub unit: Uuid,
    /// The number with which it committed before, if the store keeps outcomes.
    pub earlier: Option<u64>,
    /// The change, kept as its encoding.
    pub element: EncodedChange,
    /// The trees after it.
    pub trees: Trees,
    /// What the others see then, by their slots; nothing if it is to be made again.
    pub rebased: Vec<Option<View>>,
    /// The room that the journal has used then.
    pub room: u64,
}

/// What will be once a prepared event has accepted its change.
#[derive(Drop)]
pub struct Next {
    /// The trees then.
    pub trees: Trees,
    /// The change: known to contracts alone.
    pub change: Snapshot<EncodedChange>,
}

impl Prepared {
    /// The change that will be accepted, and a copy of the trees that will then be those of now; nothing if none will
    /// be accepted.
    pub fn next(&self, alloc: Global) -> Result<Option<Next>, AllocError>
        ensures { IfOk result (λ next. option_map change_and_trees next ≡ change_to_accept self.now) }
    {
        match &self.ready {
            Ready::Write(write) => Ok(Some(next_of(alloc, &write.element, &write.trees)?)),
            Ready::Commit(commit) => Ok(Some(next_of(alloc, &commit.element, &commit.trees)?)),
            _ => Ok(None),
        }
    }
}

// a change, and a copy of the trees after it
fn next_of(alloc: Global, change: &EncodedChange, trees: &Trees) -> Result<Next, AllocError>
    ensures { IfOk result (λ next. change_and_trees next ≡ (change.now, trees.now)) }
{
    let trees = trees.try_clone(alloc)?;
    Ok(Next {
        trees,
        change: Snapshot::of(change),
    })
}
