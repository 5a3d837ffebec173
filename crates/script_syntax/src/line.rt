//! The lines of a script.
ghost use Rattle.std.specs.Prelude.{◌≡◌};

use crate::lab_line::LabLine;
use crate::label::Label;
use crate::served_line::ServedLine;
use reg_tree::Data;
use std::marker::Model;
use uuid::Uuid;

/// UTF-16 units from a word of a script: the text of a path, or the name of a value. They may be no name that a call
/// takes; the call judges that.
#[derive(Drop)]
pub struct Text {
    units: Vec<u16>,
}

impl Model for Text {
    ghost use Rattle.std.specs.Prelude.{List, ℕ};

    ghost Value = { List ℕ };

    ghost view = { λ inside. inside.units.items };
}

impl Text {
    pub(crate) fn new(units: Vec<u16>) -> Text
        ensures { result ≡ units.items }
    {
        Text { units }
    }

    /// The units in order.
    pub fn units(&self) -> &[u16]
        ensures { result.now ≡ self.now }
    {
        &self.units
    }
}

/// A reference to a key: `HIVE:PATH`.
#[derive(Drop)]
pub struct KeyRef {
    /// The hive's number.
    pub hive: u8,
    /// The path's text.
    pub path: Text,
}

/// What is asked of the tree of a key's hive: a write or a read.
#[derive(Drop)]
pub enum Request {
    /// `create P`: creates a key.
    Create {
        /// The key.
        key_ref: KeyRef,
    },
    /// `delete P`: deletes a key.
    Delete {
        /// The key.
        key_ref: KeyRef,
    },
    /// `set P NAME TYPE HEX`: writes a value.
    Set {
        /// The key.
        key_ref: KeyRef,
        /// The value's name.
        name: Text,
        /// The value's type number.
        kind: u32,
        /// The value's data.
        data: Data,
    },
    /// `unset P NAME`: deletes a value.
    Unset {
        /// The key.
        key_ref: KeyRef,
        /// The value's name.
        name: Text,
    },
    /// `get P NAME`: reads a value.
    Get {
        /// The key.
        key_ref: KeyRef,
        /// The value's name.
        name: Text,
    },
    /// `keys P`: lists the names of subkeys.
    Keys {
        /// The key.
        key_ref: KeyRef,
    },
    /// `values P`: lists the names of values.
    Values {
        /// The key.
        key_ref: KeyRef,
    },
    /// `info P`: counts subkeys and values, and answers the moment of the last write.
    Info {
        /// The key.
        key_ref: KeyRef,
    },
}

/// A line of a script.
#[derive(Drop)]
pub enum Line {
    /// `hives N`: the script's store has this many hives, 1 to 16.
    Hives {
        /// How many hives there are.
        count: u8,
    },
    /// `history N`: the script's store accepts this many changes until its history is folded, 1 to 1,048,576.
    History {
        /// How many changes the history has at most.
        limit: u64,
    },
    /// `at M`: the moment of what follows.
    At {
        /// The moment.
        moment: u64,
    },
    /// `session N`: opens the session if it isn't open, and makes it the current one.
    Session {
        /// The session's number.
        number: u32,
    },
    /// `end N`: ends the session.
    End {
        /// The session's number.
        number: u32,
    },
    /// A request alone: it is asked of the store itself.
    Plain {
        /// What is asked.
        request: Request,
    },
    /// `begin T UUID`: begins a transaction, and gives it the label.
    Begin {
        /// The label, which may have been another transaction's.
        label: Label,
        /// The UUID of the transaction.
        id: Uuid,
    },
    /// `tx T` and a request: it is asked in the transaction of the label.
    Inside {
        /// The transaction's label.
        label: Label,
        /// What is asked.
        request: Request,
    },
    /// `commit T`: commits the transaction.
    Commit {
        /// The transaction's label.
        label: Label,
    },
    /// `rollback T`: rolls the transaction back.
    Rollback {
        /// The transaction's label.
        label: Label,
    },
    /// `close T`: closes the transaction.
    Close {
        /// The transaction's label.
        label: Label,
    },
    /// `outcome T`: asks how the transaction ended, or whether it did.
    Outcome {
        /// The transaction's label.
        label: Label,
    },
    /// `kept UUID`: asks for the number of the last commit of the unit of work.
    Kept {
        /// The UUID of the unit of work, which a `begin` gave.
        id: Uuid,
    },
    /// `flush`: waits until every change accepted so far is durable.
    Flush,
    /// `fold`: folds the history.
    Fold,
    /// A line that only a session of a served store takes.
    Served {
        /// The line.
        line: ServedLine,
    },
    /// A line that only a laboratory takes.
    Lab {
        /// The line.
        line: LabLine,
    },
}
