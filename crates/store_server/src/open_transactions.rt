//! The transactions of a session that aren't closed.
ghost use Rattle.std.specs.Prelude.{◌<◌, IfErr, IfSome, length};
ghost use Rattle.store_server.specs.Served.{IsBeginRefusal};

use refusals::Refusal;
use script_syntax::Label;
use std::alloc::Global;
use uuid::Uuid;

/// The most transactions of a session that aren't closed: an equal share of a store's 1,024.
pub const MOST_OPEN: usize = 33;

/// A transaction that was begun under a label.
#[derive(Clone, Copy)]
pub struct OpenTransaction {
    /// The label.
    pub label: Label,
    /// Its unit of work; none once it was committed or rolled back.
    pub unit: Option<Uuid>,
}

/// The transactions of a session that aren't closed, in the order in which they were begun. Of several under one label the
/// label names the last one.
#[derive(Drop)]
pub struct OpenTransactions {
    list: Vec<OpenTransaction>,
}

impl OpenTransactions {
    /// There is none.
    pub fn new(alloc: Global) -> OpenTransactions {
        OpenTransactions {
            list: Vec::new(alloc),
        }
    }

    /// How many there are.
    pub fn count(&self) -> usize {
        self.list.len()
    }

    /// Makes room for one more. `NoSeat` if the session has [`MOST_OPEN`], and `NoMemory`.
    pub fn make_room(&mut self) -> Result<(), Refusal>
        ensures refused { IfErr result IsBeginRefusal }
    {
        if self.list.len() >= MOST_OPEN {
            return Err(Refusal::NoSeat);
        }
        match self.list.reserve(1) {
            Ok(()) => Ok(()),
            Err(_) => Err(Refusal::NoMemory),
        }
    }

    /// One was begun under a label for a unit of work. Nothing is kept of it if no room was made.
    pub fn add(&mut self, label: Label, unit: Uuid) {
        let unit = Some(unit);
        let _ = self.list.push(OpenTransaction { label, unit });
    }

    /// The one that a label names was committed or rolled back. Answers its unit of work, which isn't active any more; or
    /// `None` if it wasn't before, or the label names none.
    pub fn settle(&mut self, label: Label) -> Option<Uuid> {
        let at = self.place(label)?;
        self.list[at].unit.take()
    }

    /// The one that a label names was closed. Answers it, or `None` if the label names none.
    pub fn close(&mut self, label: Label) -> Option<OpenTransaction> {
        let at = self.place(label)?;
        Some(self.list.remove(at))
    }

    // the place of the last one under a label
    fn place(&self, label: Label) -> Option<usize>
        ensures { IfSome result (λ at. at < length self.now.list.items) }
    {
        for at in (0..self.list.len()).rev() {
            if self.list[at].label.bytes() == label.bytes() {
                return Some(at);
            }
        }
        None
    }
}
