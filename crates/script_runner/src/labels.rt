//! The transactions that the labels of a script name.
ghost use Rattle.std.specs.Prelude.{◌≡◌, OnOk, OnErr};
ghost use Rattle.script_runner.specs.Scripts.{Names, SameNames};

use script_syntax::{LONGEST_LABEL, Label};
use std::alloc::{AllocError, Global};
use std::collections::BTreeMap;
use store_model::Tx;

/// The transaction that each label names. A label has room here before it names one, so that naming takes no memory.
#[derive(Drop)]
pub struct Labels {
    named: BTreeMap<[u8; LONGEST_LABEL], Option<Tx>>,
}

impl Labels {
    ghost use Rattle.script_runner.specs.Labels.{named_by, HasRoom, NamesNothing};

    /// No label names anything.
    pub fn new(alloc: Global) -> Labels
        ensures { NamesNothing result }
    {
        Labels {
            named: BTreeMap::new(alloc),
        }
    }

    /// The transaction that the label names.
    pub fn tx(&self, label: Label) -> Option<Tx>
        ensures { result ≡ named_by self.now label }
    {
        match self.named.get(&label.bytes()) {
            Some(named) => *named,
            None => None,
        }
    }

    /// Makes room for the label. Each label names what it named.
    pub fn make_room(&mut self, label: Label) -> Result<(), AllocError>
        ensures room { OnOk result (HasRoom self.new label) }
        ensures same { SameNames (named_by self.old) (named_by self.new) }
        ensures err { OnErr result (named_by self.new ≡ named_by self.old) }
    {
        let label = label.bytes();
        if !self.named.contains_key(&label) {
            self.named.insert(label, None)?;
        }
        Ok(())
    }

    /// Lets the label name the transaction.
    pub fn name(&mut self, label: Label, tx: Tx)
        requires { HasRoom self.old label }
        ensures { Names (named_by self.old) (named_by self.new) label tx }
    {
        match self.named.insert(label.bytes(), Some(tx)) {
            Ok(_) => {}
            // a label that has room takes no memory
            Err(_) => unreachable!(),
        }
    }
}
