//! The steps of a publication. Each is tried until it is made: none is ever refused if one owner makes them, which no
//! clause of the libraries says.
ghost use Rattle.std.specs.Prelude.{◌≡◌, ◌<◌, ◌++◌, ◌∷◌, [], drop, length, IfOk};
ghost use mathlib.Core.List.{IsPrefix};
ghost use Rattle.reg_tree.specs.Sequences.{after_elements};
ghost use Rattle.published_trees.specs.Published.{Published, EndsWith};

use crate::change_list::{ChangeCount, SeenChanges};
use crate::origin::Origin;
use crate::rule::{Entered, TreesWriter};
use crate::snapshot::TreesSnapshot;
use change_codec::EncodedChange;
use std::snapshot::Snapshot;
use std::sync::Wait;

/// Adds a change to the list.
pub fn add_change<R: Wait>(
    rt: &R,
    count: &ChangeCount,
    seen: &mut SeenChanges,
    change: &Snapshot<EncodedChange>,
)
    requires book { count.now ≡ seen.old.book }
    requires room { length seen.old.list < u64.MAX }
    ensures { seen.new ≡ record { book = seen.old.book; list = seen.old.list ++ change.now.value ∷ [] } }
{
    let before = seen.again();
    for _ in rt.forever() {
        let mut next = before.again();
        if next.add(count, change) {
            *seen = next;
            return;
        }
    }
    unreachable!()
}

/// Puts a snapshot into the writer's queue.
pub fn append<O: Origin, R: Wait>(
    rt: &R,
    writer: TreesWriter<O>,
    snapshot: TreesSnapshot,
) -> TreesWriter<O>
    ensures desk { result.desk ≡ writer.desk }
    ensures queue { drop result.behind result.log.items
        ≡ drop writer.behind writer.log.items ++ snapshot ∷ [] }
{
    let mut writer = writer;
    let mut next = snapshot;
    for _ in rt.forever() {
        match writer.append(next) {
            Ok(()) => return writer,
            Err(back) => next = back,
        }
    }
    unreachable!()
}

/// Publishes the last snapshot of the queue.
pub fn publish_queue<O: Origin, R: Wait>(rt: &R, writer: TreesWriter<O>) -> TreesWriter<O>
    requires { (next : Published) × EndsWith (drop writer.behind writer.log.items) next
        × (next.book ≡ O.book) × (next.trees ≡ after_elements O.trees next.list)
        × IsPrefix writer.desk.shown.value.list next.list }
    ensures { (next : Published) → EndsWith (drop writer.behind writer.log.items) next →
        result.desk.shown.value ≡ next }
{
    let mut writer = writer;
    for _ in rt.forever() {
        let (after, published) = writer.publish_as::<Entered<O>, R>(rt);
        writer = after;
        if published.is_ok() {
            return writer;
        }
    }
    unreachable!()
}

/// Publishes once more what is published, so that the queue gets its room. If memory is refused the writer comes back.
pub fn publish_first<O: Origin, R: Wait>(
    rt: &R,
    writer: TreesWriter<O>,
    snapshot: TreesSnapshot,
) -> Result<TreesWriter<O>, TreesWriter<O>>
    requires same { writer.desk.shown.value ≡ snapshot }
    requires origin { (snapshot.book ≡ O.book) × (snapshot.trees ≡ after_elements O.trees snapshot.list) }
    ensures { IfOk result (λ w. w.desk.shown.value ≡ snapshot) }
{
    let mut writer = writer;
    if writer.append(snapshot).is_err() {
        return Err(writer);
    }
    Ok(publish_queue(rt, writer))
}
