//! The rule between the writer and the readers: what is published is of one list, and each reader has seen a beginning
//! of it.
use crate::origin::Origin;
use crate::snapshot::TreesSnapshot;
use crossbeam_utils::rule::{Outcome, Protocol};
use left_right::reader::Reader;
use left_right::writer::Writer;
use reg_tree::Element;
use std::marker::PhantomData;

/// How many readers there are: one for each session.
pub const MOST_READERS: usize = 32;

/// What readers know: a list of changes. No value of it is made.
pub type KnownChanges = [Element; 0];

/// What is published is of this list: the trees are those before it with its changes applied, and each reader has
/// seen a beginning of it.
pub struct PublishedRule<O> {
    of: PhantomData<O>,
}

impl<O: Origin> Protocol<TreesSnapshot, KnownChanges> for PublishedRule<O> {
    ghost use Rattle.std.specs.Prelude.{◌≡◌, []};
    ghost use Rattle.reg_tree.specs.Sequences.{after_elements};
    ghost use Rattle.published_trees.specs.Lists.{Begin};

    ghost holds = { λ shown views. (shown.book ≡ O.book) × (shown.trees ≡ after_elements O.trees shown.list) × Begin shown.list views };

    ghost first = { [] };
}

/// What a reader sees when it enters is the list that is published then, which begins with what it saw before.
pub struct Entered<O> {
    of: PhantomData<O>,
}

impl<O: Origin> Outcome<TreesSnapshot, KnownChanges> for Entered<O> {
    ghost use Rattle.std.specs.Prelude.{◌≡◌};
    ghost use mathlib.Core.List.{IsPrefix};
    ghost use Rattle.reg_tree.specs.Sequences.{after_elements};

    ghost then = { λ v x y w. (y.book ≡ O.book) × (y.trees ≡ after_elements O.trees y.list) × IsPrefix v y.list × (w ≡ y.list) };
}

/// The end of the one thread that publishes.
pub type TreesWriter<O> = Writer<TreesSnapshot, TreesSnapshot, KnownChanges, PublishedRule<O>>;

/// The end of a reader.
pub type TreesReader<O> = Reader<TreesSnapshot, KnownChanges, PublishedRule<O>>;
