//! The labels of a part, of which there are none before the first one.
ghost use Rattle.std.specs.Prelude.{◌≡◌, OnErr, OnOk};
ghost use Rattle.script_runner.specs.Labels.{HasRoom};
ghost use Rattle.script_runner.specs.Scripts.{Names, SameNames};
ghost use Rattle.registry_lines.specs.Interpreters.{HasRoomFor, named_in};

use script_runner::Labels;
use script_syntax::Label;
use std::alloc::{AllocError, Global};
use store_model::Tx;

/// The transaction that the label names.
pub fn tx_of(labels: &Option<Labels>, label: Label) -> Option<Tx>
    ensures { result ≡ named_in labels.now label }
{
    match labels {
        Some(labels) => labels.tx(label),
        None => None,
    }
}

/// Makes room for the label. Each label names what it named.
pub fn make_room(labels: &mut Option<Labels>, alloc: Global, label: Label) -> Result<(), AllocError>
    ensures room { OnOk result (HasRoomFor labels.new label) }
    ensures same { SameNames (named_in labels.old) (named_in labels.new) }
    ensures err { OnErr result (named_in labels.new ≡ named_in labels.old) }
{
    if let Some(labels) = labels {
        return labels.make_room(label);
    }
    let mut first = Labels::new(alloc);
    first.make_room(label)?;
    *labels = Some(first);
    Ok(())
}

/// Lets the label name the transaction.
pub fn name(labels: &mut Option<Labels>, label: Label, tx: Tx)
    requires { HasRoomFor labels.old label }
    ensures { Names (named_in labels.old) (named_in labels.new) label tx }
{
    match labels {
        Some(labels) => labels.name(label, tx),
        // room was made for it
        None => unreachable!(),
    }
}
