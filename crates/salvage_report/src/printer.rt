//! What is printed of what a salvage finds.
ghost use Rattle.std.specs.Prelude.{◌≡◌, IsOk};
ghost use Rattle.key_walk.specs.KeyPaths.{names_on};
ghost use Rattle.salvage_report.specs.Told.{can_show_key, is_told};

use crate::loss_text::{write_loss, write_unshown};
use crate::paths::{begins, is_above};
use crate::totals::Totals;
use hive_salvage::{Loss, SalvageSink};
use key_walk::{KeyPath, KeySink};
use reg_export::{Encoding, NameScan};
use reg_names::Name;
use reg_tree_parts::Key;
use std::io::{self, Write};

/// Hands the keys at a path and below it to what prints keys, and writes a line for each loss there and on the way there.
#[derive(Drop)]
pub struct SalvagePrinter<'a, K, W> {
    /// What prints the keys.
    pub keys: &'a mut K,
    /// What the lines of losses are written into.
    pub losses: &'a mut W,
    /// The encoding of a registration file, if the keys are printed as one. A key with a name that the file can't show is
    /// left out, and this is told.
    pub encoding: Option<Encoding>,
    /// The path; it is empty if all keys are printed.
    pub path: &'a [Name],
    /// How much so far.
    pub totals: Totals,
}

/// Why a key or a loss isn't printed.
#[derive(Drop)]
pub enum PrintError<E> {
    /// What prints keys refused one.
    Keys(E),
    /// The line of a loss can't be written.
    Losses(io::Error),
}

impl<K: KeySink, W: Write> SalvageSink for SalvagePrinter<'_, K, W> {
    ghost use Rattle.salvage_report.specs.SinkLaws.{Printed, printed_none, printed_more};

    ghost Took = { λ old new events. Printed K.Took old.keys.now new.keys.now old.keys.ghost_name
        new.keys.ghost_name (W.contents old.losses.now) (W.contents new.losses.now)
        old.losses.ghost_name new.losses.ghost_name (old.encoding, old.path.now)
        (new.encoding, new.path.now) old.totals new.totals events };

    type Error = PrintError<K::Error>;

    fn found(&mut self, path: &KeyPath<'_>, key: &Key) -> Result<(), PrintError<K::Error>> {
        if !begins(self.path, path) {
            return Ok(());
        }
        if !can_show_key(self.encoding, path, key) {
            self.totals.count_unshown();
            return told(write_unshown(self.losses, path));
        }
        self.totals.count_key(key);
        match self.keys.take(path, key) {
            Ok(()) => Ok(()),
            Err(error) => Err(PrintError::Keys(error)),
        }
    }

    fn lost(&mut self, path: &KeyPath<'_>, loss: &Loss) -> Result<(), PrintError<K::Error>> {
        if !is_told(self.path, path) {
            return Ok(());
        }
        self.totals.count_loss(loss);
        told(write_loss(self.losses, path, loss))
    }

    ghost took_none = { λ sink. printed_none K.Took K.took_none sink.keys.now sink.keys.ghost_name
        (W.contents sink.losses.now) sink.losses.ghost_name (sink.encoding, sink.path.now)
        sink.totals };

    ghost took_more = { λ before between after front rest one two. printed_more K.Took K.took_more
        before.keys.now between.keys.now after.keys.now before.keys.ghost_name
        between.keys.ghost_name after.keys.ghost_name (W.contents before.losses.now)
        (W.contents between.losses.now) (W.contents after.losses.now) before.losses.ghost_name
        between.losses.ghost_name after.losses.ghost_name (before.encoding, before.path.now)
        (between.encoding, between.path.now) (after.encoding, after.path.now) before.totals
        between.totals after.totals front rest one two };
}

// the error of a line that isn't written
fn told<E>(written: io::Result<()>) -> Result<(), PrintError<E>>
    ensures { IsOk result → IsOk written }
{
    match written {
        Ok(()) => Ok(()),
        Err(error) => Err(PrintError::Losses(error)),
    }
}

// whether a file in this encoding can show the names of a key and of its values; any other form can
fn can_show_key(encoding: Option<Encoding>, path: &KeyPath<'_>, key: &Key) -> bool
    ensures { result ≡ can_show_key encoding (names_on path.now, key.now) }
{
    let Some(encoding) = encoding else {
        return true;
    };
    let mut scan = NameScan::new();
    let Ok(()) = scan.take(path, key);
    scan.can_show(encoding)
}

// whether losses of the key to which a way leads are told
fn is_told(names: &[Name], path: &KeyPath<'_>) -> bool
    ensures { result ≡ is_told names.now (names_on path.now) }
{
    begins(names, path) || is_above(names, path)
}
