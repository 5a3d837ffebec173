//! The trees that a transaction sees, and what becomes of them as the transaction writes and as others do.
ghost use Rattle.std.specs.Prelude.{◌≡◌, ◌⊎◌, ◌<◌, length, true, IfOk, IfSome, Some, None, Ok, Err, IfErr, slice_get, slice_set};
ghost use Rattle.refusals.specs.declared.refusal.Refusal.TheVariants.{NoMemory, NotFound};
ghost use Rattle.reg_names.specs.Names.{folded_path};
ghost use Rattle.reg_tree.specs.Judgement.{legal, applied_one};
ghost use Rattle.reg_tree.specs.Maps.{TreeMap, IsTree};
ghost use Rattle.reg_tree.specs.Sequences.{AreTrees};
ghost use Rattle.reg_tree.specs.Stamps.{touched_path_of};
ghost use Rattle.reg_tree.specs.TreeLists.{levels_made};
ghost use Rattle.conflicts.specs.TreeOutlines.{AreCarriedOut};
ghost use Rattle.transactions.specs.declared.view.Known.TheVariants.{Light};
ghost use Rattle.transactions.specs.Entries.{AreAfter, StaysViewAfter, IsFresh, ViewShows, ViewShowsInfo, WritesView, IsRebasedBy, IsTimed};

use refusals::Refusal;
use reg_names::{Name, Path};
use reg_tree::{Info, Op, Tree, Trees};
use std::alloc::{AllocError, Global};
use store_model::levels_made;

/// What is known of the operations of a view.
#[derive(Clone, Copy)]
pub(crate) enum Known {
    /// Nothing: one of them may have been refused when it was applied, or have changed nothing.
    Nothing,
    /// Each is one that could be carried out: then a change that conflicts with no claim of theirs may be applied after
    /// them.
    Carried,
    /// Besides, none leaves a tree too heavy. A change that was applied after them was weighed after them, though it
    /// comes before them: after it this isn't known any more.
    Light,
}

/// The trees that a transaction sees, but for the times of keys, when the last accepted change had a number.
pub(crate) struct View {
    /// The trees.
    pub(crate) trees: Trees,
    /// The moment that is the time of the keys which the operations wrote; nothing if that isn't known of each of them,
    /// and the view's times then say nothing.
    pub(crate) moment: Option<u64>,
    /// The number of the last accepted change.
    pub(crate) number: u64,
    /// What is known of the operations.
    pub(crate) known: Known,
    /// How many operations of others were applied since the view was last read.
    pub(crate) ops_since_read: usize,
}

impl Drop for View {
    // one drop for all that own a view, whose proofs see no more of it than that
    fn drop(self) {
        let View {
            trees: _,
            moment: _,
            number: _,
            known: _,
            ops_since_read: _,
        } = self;
    }
}

/// A view's trees after a change, and the view's moment after it.
#[derive(Drop)]
struct Timed {
    trees: Trees,
    moment: Option<u64>,
}

/// What an operation that is legal would do.
#[derive(Drop)]
pub(crate) struct Judged {
    /// The trees after it, at the view's moment.
    pub(crate) made: View,
    /// How many keys it makes, if it creates one.
    pub(crate) levels: Option<usize>,
}

impl View {
    /// The view of trees with operations applied at a moment.
    pub(crate) fn make(
        alloc: Global,
        now: &Trees,
        ops: &[Op],
        moment: u64,
        number: u64,
    ) -> Result<View, AllocError>
        ensures { IfOk result (IsFresh now.now ops.now moment number) }
    {
        know_trees(now); // for the prover
        if let Some(trees) = carry_out(alloc, now, ops, moment)? {
            return Ok(View {
                trees,
                moment: Some(moment),
                number,
                known: Known::Light,
                ops_since_read: 0,
            });
        }
        Ok(View {
            trees: now.apply_ops(alloc, ops, moment)?,
            moment: Some(moment),
            number,
            known: Known::Nothing,
            ops_since_read: 0,
        })
    }

    /// The view with another tree of a hive.
    pub(crate) fn with_tree(
        &self,
        alloc: Global,
        hive: usize,
        tree: &Tree,
    ) -> Result<View, AllocError>
        ensures { IfOk result (λ made. made
            ≡ record self.now { trees = slice_set self.now.trees hive tree.now }) }
    {
        Ok(View {
            trees: with_tree(alloc, &self.trees, hive, tree)?,
            moment: self.moment,
            number: self.number,
            known: self.known,
            ops_since_read: self.ops_since_read,
        })
    }

    /// Whether it is known that each operation could be carried out and none leaves a tree too heavy.
    pub(crate) fn is_light(&self) -> bool
        ensures { result ≡ true → self.now.known ≡ Light }
    {
        matches!(self.known, Known::Light)
    }

    /// The counts of a key, with the time that it would have if the view had been made at another moment. A key that
    /// the operations write has that moment as its time; every other key has its time in the trees of now. Nothing if
    /// these two cases can't be distinguished: the view has no moment, or the trees of now have the key with the view's
    /// own moment as its time. Refused with `NotFound` exactly if the view has no such hive or key.
    pub(crate) fn info_at(
        &self,
        now: &Trees,
        hive: u8,
        path: &Path,
        moment: u64,
    ) -> Result<Option<Info>, Refusal>
        ensures told { IfOk result
            (ViewShowsInfo self.now now.now hive (folded_path path.now) moment) }
        ensures refused { IfErr result (λ refusal.
            (refusal ≡ NotFound)
            × ViewShows self.now now.now hive (folded_path path.now) moment None) }
    {
        let info = self.trees.query_info(hive, path)?;
        let Some(made_at) = self.moment else {
            return Ok(None);
        };
        if made_at == moment || info.time != made_at {
            return Ok(Some(info));
        }
        match now.query_info(hive, path) {
            Ok(was) if was.time == made_at => Ok(None),
            _ => Ok(Some(Info {
                time: moment,
                ..info
            })),
        }
    }

    /// The view after one operation more and how many keys the operation made, or nothing if it opens a key; judged and
    /// carried out at the view's moment.
    pub(crate) fn write(&self, alloc: Global, op: &Op) -> Result<Option<Judged>, Refusal>
        ensures ok { IfOk result (WritesView self.now op.now) }
        ensures refused { IfErr result (λ refusal.
            (legal self.now.trees op.now ≡ Err refusal) ⊎ (refusal ≡ NoMemory)) }
    {
        match self
            .trees
            .write_counted(alloc, op, self.moment.unwrap_or(0))
        {
            Ok(Some((trees, levels))) => Ok(Some(Judged {
                made: View {
                    trees,
                    moment: self.moment,
                    number: self.number,
                    known: self.known,
                    ops_since_read: 0,
                },
                levels,
            })),
            Ok(None) => Ok(None),
            Err(refusal) => Err(refusal),
        }
    }

    /// The view after the change of this number at a moment, which conflicts with no claim of the operations: the
    /// change is applied to the view too. Nothing if this is not known to be the same: if the change makes fewer keys
    /// here than on the trees of now. Then the operations made the others, with their own spelling.
    fn rebased(
        &self,
        alloc: Global,
        now: &Trees,
        op: &Op,
        moment: u64,
        number: u64,
    ) -> Result<Option<View>, AllocError>
        ensures { IfOk result (λ rebased.
            IfSome rebased (IsRebasedBy self.now now.now op.now moment number)) }
    {
        if let Known::Nothing = self.known {
            return Ok(None);
        }
        let (made, levels) = match self.trees.write_counted(alloc, op, moment) {
            Ok(Some(written)) => written,
            Err(Refusal::NoMemory) => return Err(AllocError),
            _ => return Ok(None),
        };
        if levels != levels_made(now, op) {
            return Ok(None);
        }
        let timed = self.timed(alloc, now, op, op.touched_path(levels), made, moment)?;
        Ok(Some(View {
            trees: timed.trees,
            moment: timed.moment,
            number,
            known: Known::Carried,
            ops_since_read: self.ops_since_read.saturating_add(1),
        }))
    }

    /// The view's trees after a change at a moment of its own, with the times that they would have if it came before
    /// the operations. These differ in the time of one key, the key that the change writes beside those that it makes.
    /// If the operations wrote that key too, theirs is the later write. They did if it has their moment in the view,
    /// and had another time in the trees of now. If it has their moment in both, this isn't known, and from then on the
    /// view's times say nothing.
    fn timed(
        &self,
        alloc: Global,
        now: &Trees,
        op: &Op,
        touched_path: &[Name],
        made: Trees,
        moment: u64,
    ) -> Result<Timed, AllocError>
        requires made { made ≡ applied_one self.now.trees op.now moment }
        requires touched_path { folded_path touched_path.now ≡ touched_path_of op.now (levels_made self.now.trees op.now) }
        ensures { IfOk result (λ timed.
            IsTimed self.now now.now op.now moment timed.moment timed.trees) }
    {
        let kept = Timed {
            trees: made,
            moment: self.moment,
        };
        let Some(own) = self.moment else {
            return Ok(kept);
        };
        if own == moment || self.trees.time_at(op.hive(), touched_path) != Some(own) {
            return Ok(kept);
        }
        if now.time_at(op.hive(), touched_path) == Some(own) {
            return Ok(Timed {
                moment: None,
                ..kept
            });
        }
        Ok(Timed {
            trees: kept.trees.stamped(alloc, op.hive(), touched_path, own)?,
            moment: Some(own),
        })
    }

    /// The view after the change of this number, none of whose operations conflicts with a claim of the view's: each is
    /// applied to it in turn. The trees of now are kept up with it, since they decide how many keys an operation makes
    /// there at its turn. A change of one operation needs no such trees.
    pub(crate) fn rebased_past(
        &self,
        alloc: Global,
        now: &Trees,
        change: &[Op],
        moment: u64,
        number: u64,
    ) -> Result<Option<View>, AllocError>
        requires { AreCarriedOut now.now change.now moment }
        ensures { IfOk result (λ rebased. IfSome rebased (λ after.
            StaysViewAfter now.now change.now moment self.now after × (after.number ≡ number))) }
    {
        conflicts::laws::either_order();
        conflicts::laws::stay_legal();
        let mut trees = now.try_clone(alloc)?;
        let mut seen = View {
            trees: self.trees.try_clone(alloc)?,
            moment: self.moment,
            number,
            known: self.known,
            ops_since_read: self.ops_since_read,
        };
        for op in change {
            let Some(rebased) = seen.rebased(alloc, &trees, op, moment, number)? else {
                return Ok(None);
            };
            seen = rebased;
            if change.len() > 1 {
                trees = match trees.write(alloc, op, moment) {
                    Ok(Some(made)) => made,
                    Err(Refusal::NoMemory) => return Err(AllocError),
                    _ => return Ok(None),
                };
            }
        }
        Ok(Some(seen))
    }
}

/// The trees after operations, if each can be carried out on those after the ones before it
pub(crate) fn carry_out(
    alloc: Global,
    now: &Trees,
    ops: &[Op],
    moment: u64,
) -> Result<Option<Trees>, AllocError>
    ensures { IfOk result (λ made. IfSome made (AreAfter now.now ops.now moment)) }
{
    let mut trees = now.try_clone(alloc)?;
    for op in ops {
        match trees.write(alloc, op, moment) {
            Ok(Some(made)) => trees = made,
            Err(Refusal::NoMemory) => return Err(AllocError),
            _ => return Ok(None),
        }
    }
    Ok(Some(trees))
}

// trees with another tree of a hive
fn with_tree(alloc: Global, trees: &Trees, hive: usize, tree: &Tree) -> Result<Trees, AllocError>
    ensures { IfOk result (λ made. made ≡ slice_set trees.now hive tree.now) }
{
    let mut made = Vec::with_capacity(alloc, trees.len())?;
    for at in 0..trees.len() {
        made.push(tree_with(trees, at, hive, tree)?)?;
    }
    Ok(Trees::from_vec(made))
}

// the tree at a place, or the other one if it is that of the hive
fn tree_with(trees: &Trees, at: usize, hive: usize, tree: &Tree) -> Result<Tree, AllocError>
    requires { at < length trees.now }
    ensures { IfOk result (λ made. slice_get (slice_set trees.now hive tree.now) at ≡ Some made) }
{
    if at == hive {
        return tree.clone();
    }
    let _ = trees.len(); // for the prover
    match trees.tree(at as u8) {
        Some(kept) => kept.clone(),
        None => unreachable!(),
    }
}

// trees have their roots, and with a key its parent; no others are ever made
fn know_trees(trees: &Trees)
    ensures { AreTrees trees.now }
{
    for hive in 0..trees.len() {
        know_tree(trees, hive as u8); // for the prover
    }
}

// so it is of a hive's tree
fn know_tree(trees: &Trees, hive: u8)
    ensures { (tree : TreeMap) → slice_get trees.now hive ≡ Some tree → IsTree tree }
{
    if let Some(tree) = trees.tree(hive) {
        let _ = tree.root(); // for the prover
    }
}
