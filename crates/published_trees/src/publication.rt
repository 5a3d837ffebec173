//! The side that adds changes and publishes the trees.
ghost use Rattle.std.specs.Prelude.{◌≡◌, ◌⊎◌, ◌<◌, ◌++◌, ◌∷◌, [], length, true, is_some, IfOk, IfErr, IfSome};
ghost use Rattle.std.specs.Arc.{arc_value};
ghost use Rattle.refusals.specs.declared.refusal.Refusal.TheVariants.{NoMemory, NoSeat};
ghost use Rattle.reg_tree.specs.Sequences.{after_elements};
ghost use Rattle.published_trees.specs.Published.{published_of};

use crate::change_list::{ChangeCount, SeenChanges};
use crate::origin::Origin;
use crate::publishing::{add_change, append, publish_first, publish_queue};
use crate::rule::{MOST_READERS, TreesReader, TreesWriter};
use crate::snapshot::TreesSnapshot;
use change_codec::EncodedChange;
use refusals::Refusal;
use reg_tree::Trees;
use std::alloc::Global;
use std::marker::Model;
use std::snapshot::Snapshot;
use std::sync::{Arc, Wait};

/// The list of changes with the trees after it, as readers see them. Contracts see the list.
pub struct Publication<O: Origin> {
    count: ChangeCount,
    seen: SeenChanges,
    writer: Option<TreesWriter<O>>,
}

impl<O: Origin> Model for Publication<O> {
    ghost use Rattle.std.specs.Prelude.{◌≡◌, true, is_some, IfSome, List};
    ghost use Rattle.reg_tree.specs.declared.element.Element.{Element};
    ghost use Rattle.published_trees.specs.Lists.{list_code};
    ghost use Rattle.published_trees.specs.Published.{published_of};

    ghost Value = { List Element };

    ghost coded = { list_code };

    ghost view = { λ p. p.seen.list };

    ghost invariant = { λ p. record {
      count : p.count ≡ O.book;
      seen : p.seen.book ≡ O.book;
      there : is_some p.writer ≡ true;
      shown : IfSome p.writer (λ w. w.desk.shown.value ≡ published_of O.book O.trees p.seen.list);
    } };
}

impl<O: Origin> Publication<O> {
    /// Publishes these trees, with a list to which nothing was added, and makes all readers. `publish` needs no memory
    /// after it.
    ///
    /// Refused with `NoMemory`, or with `NoSeat` if the library denies a reader.
    pub fn open<R: Wait>(
        alloc: Global,
        rt: &R,
        trees: Trees,
        count: ChangeCount,
        seen: SeenChanges,
    ) -> Result<(Publication<O>, Vec<Option<TreesReader<O>>>), Refusal>
        requires book { (count ≡ O.book) × (seen ≡ record { book = O.book; list = [] }) }
        requires trees { trees ≡ O.trees }
        ensures empty { IfOk result (λ made. made.0 ≡ []) }
        ensures refused { IfErr result (λ why. (why ≡ NoMemory) ⊎ (why ≡ NoSeat)) }
    {
        let (writer, again) = first_writer::<O>(alloc, trees, &seen)?;
        let readers = match readers_of::<O>(alloc, &writer) {
            Ok(readers) => readers,
            Err(why) => {
                writer.take(rt);
                return Err(why);
            }
        };
        // the queue gets its room here, so that nothing published later needs any
        match publish_first(rt, writer, again) {
            Ok(writer) => Ok((
                Publication {
                    count,
                    seen,
                    writer: Some(writer),
                },
                readers,
            )),
            Err(writer) => {
                writer.take(rt);
                Err(Refusal::NoMemory)
            }
        }
    }

    /// What was seen of the list: all of it.
    pub fn seen(&self) -> SeenChanges
        ensures { result ≡ record { book = O.book; list = self.now } }
    {
        self.seen.again()
    }

    /// Adds a change to the list, and publishes the trees after it. Takes no memory.
    pub fn publish<R: Wait>(&mut self, rt: &R, trees: Arc<Trees>, change: &Snapshot<EncodedChange>)
        requires room { length self.old < u64.MAX }
        requires trees { arc_value trees ≡ after_elements O.trees (self.old ++ change.now.value ∷ []) }
        ensures { self.new ≡ self.old ++ change.now.value ∷ [] }
    {
        publish_next::<O, R>(
            rt,
            &self.count,
            &mut self.seen,
            &mut self.writer,
            trees,
            change,
        );
    }

    /// Ends the publication. Readers answer no more.
    pub fn close<R: Wait>(self, rt: &R) {
        let Publication {
            count: _,
            seen: _,
            writer,
        } = self;
        if let Some(writer) = writer {
            writer.take(rt);
        }
    }
}

// the change is added to the list, and the trees after it are published
fn publish_next<O: Origin, R: Wait>(
    rt: &R,
    count: &ChangeCount,
    seen: &mut SeenChanges,
    writer: &mut Option<TreesWriter<O>>,
    trees: Arc<Trees>,
    change: &Snapshot<EncodedChange>,
)
    requires book { (count.now ≡ O.book) × (seen.old.book ≡ O.book) }
    requires room { length seen.old.list < u64.MAX }
    requires there { is_some writer.old ≡ true }
    requires shown { IfSome writer.old (λ w. w.desk.shown.value
        ≡ published_of O.book O.trees seen.old.list) }
    requires trees { arc_value trees
        ≡ after_elements O.trees (seen.old.list ++ change.now.value ∷ []) }
    ensures seen { seen.new ≡ record { book = O.book; list = seen.old.list ++ change.now.value ∷ [] } }
    ensures there { is_some writer.new ≡ true }
    ensures shown { IfSome writer.new (λ w. w.desk.shown.value
        ≡ published_of O.book O.trees (seen.old.list ++ change.now.value ∷ [])) }
{
    add_change(rt, count, seen, change);
    let snapshot = TreesSnapshot::new(trees, seen.again());
    let taken = writer.take().unwrap();
    let filled = append(rt, taken, snapshot);
    let published = publish_queue(rt, filled);
    if let Some(old) = writer.replace(published) {
        old.take(rt);
    }
}

// a writer that shows these trees, with this list, and a copy of what it shows
fn first_writer<O: Origin>(
    alloc: Global,
    trees: Trees,
    seen: &SeenChanges,
) -> Result<(TreesWriter<O>, TreesSnapshot), Refusal>
    requires book { seen.now.book ≡ O.book }
    requires trees { trees ≡ after_elements O.trees seen.now.list }
    ensures shown { IfOk result (λ made. made.0.desk.shown.value
        ≡ published_of O.book O.trees seen.now.list) }
    ensures copy { IfOk result (λ made. made.1 ≡ published_of O.book O.trees seen.now.list) }
    ensures refused { IfErr result (λ why. why ≡ NoMemory) }
{
    let shared = Arc::new(alloc, trees)?;
    let first = TreesSnapshot::new(shared, seen.again());
    let second = first.again()?;
    let third = first.again()?;
    match TreesWriter::<O>::new(alloc, first, second, MOST_READERS) {
        Ok(writer) => Ok((writer, third)),
        Err(_) => Err(Refusal::NoMemory),
    }
}

// a reader for each session that there may be
fn readers_of<O: Origin>(
    alloc: Global,
    writer: &TreesWriter<O>,
) -> Result<Vec<Option<TreesReader<O>>>, Refusal>
    ensures { IfErr result (λ why. (why ≡ NoMemory) ⊎ (why ≡ NoSeat)) }
{
    let mut readers = Vec::with_capacity(alloc, MOST_READERS)?;
    for _ in 0..MOST_READERS {
        let Ok(reader) = writer.factory().reader() else {
            return Err(Refusal::NoSeat);
        };
        readers.push(Some(reader))?;
    }
    Ok(readers)
}
