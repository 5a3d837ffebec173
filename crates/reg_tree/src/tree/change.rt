//! The node of the root after one operation: a new node along the operation's path, all else shared.
ghost use Rattle.std.specs.Prelude.{◌≡◌, List, ℕ, Ok, Err, IfOk, IfSome, OnOk, MatchOption, ◌⊎◌, IfErr};
ghost use Rattle.std.specs.Result.{is_err};
ghost use Rattle.refusals.specs.Answers.{IsOrNoMemory};
ghost use Rattle.reg_tree_parts.specs.Nodes.{row_at, IsNode};
ghost use Rattle.reg_tree.specs.Maps.{weight};
ghost use Rattle.reg_tree.specs.Operations.{row_after};
ghost use Rattle.reg_tree.specs.Judgement.{judged, changed, legal_in, legal_after, IsWritten};
ghost use Rattle.reg_tree.specs.Fresh.{fresh_row, fresh_tree};
ghost use Rattle.reg_tree.specs.TreeLists.{levels_of};
ghost use Rattle.reg_tree.specs.Encodable.{NamesAreValid};

use super::Tree;
use crate::op::{Legality, Op};
use refusals::Refusal;
use refusals::limits::MOST_WEIGHT;
use reg_names::Name;
use reg_tree_parts::{Data, Descriptor, Key, Node, Values};
use std::alloc::{AllocError, Global};
use std::sync::Arc;

impl Tree {
    // the root after an operation and how many keys the operation made, or nothing if it opens a key
    fn root_after(
        &self,
        alloc: Global,
        op: &Op,
        moment: u64,
    ) -> Result<Option<(Node, Option<usize>)>, Refusal>
        ensures judged { IfOk result (λ made. MatchOption made
            (judged self.now op.now ≡ Ok Legality.Opened)
            (λ _. judged self.now op.now ≡ Ok Legality.Legal)) }
        ensures refused { IfErr result (λ refusal.
            (judged self.now op.now ≡ Err refusal) ⊎ (refusal ≡ Refusal.NoMemory)) }
        ensures rows { IfOk result (λ made. IfSome made (λ it. (q : List (List ℕ)) → row_at it.0 q
            ≡ row_after self.now op.now moment q)) }
        ensures node { IfOk result (λ made. IfSome made (λ it. IsNode it.0)) }
        ensures levels { IfOk result (λ made. IfSome made (λ it. it.1 ≡ levels_of self.now op.now)) }
        ensures named { OnOk result (NamesAreValid op.now) }
    {
        op.names_are_valid(); // for the prover
        match self.root.edited(alloc, op.way(), op, moment) {
            Ok(Some((made, missing))) => {
                let levels = op.counted(missing);
                Ok(Some((made, levels)))
            }
            Ok(None) => Ok(None),
            Err(why) => Err(why),
        }
    }

    // the tree after an operation and how many keys the operation made, or nothing if it opens a key; weights are not
    // checked
    fn carry_out(
        &self,
        alloc: Global,
        op: &Op,
        moment: u64,
    ) -> Result<Option<(Tree, Option<usize>)>, Refusal>
        ensures ok { IfOk result (IsWritten (judged self.now op.now)
            (changed self.now op.now moment, levels_of self.now op.now)) }
        ensures refused { IfErr result (λ refusal.
            (judged self.now op.now ≡ Err refusal) ⊎ (refusal ≡ Refusal.NoMemory)) }
    {
        let _ = &self.root; // for the prover
        match self.root_after(alloc, op, moment)? {
            None => Ok(None),
            Some((root, levels)) => {
                let root = Arc::new(alloc, root)?;
                Ok(Some((Tree { root }, levels)))
            }
        }
    }

    /// The tree after the operation at this moment. One that may not be carried out, or that opens a key, changes
    /// nothing; weights are not checked.
    pub fn apply(&self, alloc: Global, op: &Op, moment: u64) -> Result<Tree, AllocError>
        ensures { IfOk result (λ made. made ≡ changed self.now op.now moment) }
    {
        match self.carry_out(alloc, op, moment) {
            Ok(Some((made, _))) => Ok(made),
            Ok(None) => self.clone(),
            Err(Refusal::NoMemory) => Err(AllocError),
            Err(_) => self.clone(),
        }
    }

    /// The tree after the operation at this moment, and how many keys the operation made, if it is a creation; or
    /// nothing if it opens a key. Refused exactly as [`Tree::legal`] says: the operation is judged and carried out in
    /// one go.
    pub fn write_counted(
        &self,
        alloc: Global,
        op: &Op,
        moment: u64,
    ) -> Result<Option<(Tree, Option<usize>)>, Refusal>
        ensures ok { IfOk result (IsWritten (legal_in self.now op.now)
            (changed self.now op.now moment, levels_of self.now op.now)) }
        ensures refused { IfErr result (λ refusal.
            (legal_in self.now op.now ≡ Err refusal) ⊎ (refusal ≡ Refusal.NoMemory)) }
    {
        match self.carry_out(alloc, op, moment)? {
            None => Ok(None),
            Some((made, levels)) => {
                if made.is_over(op) {
                    return Err(Refusal::TooLarge);
                }
                Ok(Some((made, levels)))
            }
        }
    }

    /// As [`Tree::write_counted`], without the count.
    pub fn write(&self, alloc: Global, op: &Op, moment: u64) -> Result<Option<Tree>, Refusal>
        ensures ok { IfOk result
            (IsWritten (legal_in self.now op.now) (changed self.now op.now moment)) }
        ensures refused { IfErr result (λ refusal.
            (legal_in self.now op.now ≡ Err refusal) ⊎ (refusal ≡ Refusal.NoMemory)) }
    {
        match self.write_counted(alloc, op, moment)? {
            Some((made, _)) => Ok(Some(made)),
            None => Ok(None),
        }
    }

    /// Whether this tree, as the operation left it, weighs more than 16,777,216. After a deletion the answer is no.
    pub(crate) fn is_over(&self, op: &Op) -> bool
        ensures { result ≡ is_err (legal_after op.now (Ok Legality.Legal) (weight self.now)) }
    {
        match op {
            Op::DeleteKey { .. } | Op::DeleteValue { .. } => false,
            Op::CreateKey { .. } | Op::SetValue { .. } => self.weight() > MOST_WEIGHT,
        }
    }

    /// Whether the operation is legal on this tree: it may be carried out, and a creation or a value written leaves the
    /// tree within the weight of 16,777,216, else `TooLarge`. Judging a deletion takes no memory.
    pub fn legal(&self, alloc: Global, op: &Op) -> Result<Legality, Refusal>
        ensures { IsOrNoMemory result (legal_in self.now op.now) }
    {
        match op {
            Op::DeleteKey { .. } | Op::DeleteValue { .. } => self.judge(op),
            Op::CreateKey { .. } | Op::SetValue { .. } => match self.write(alloc, op, 0)? {
                Some(_) => Ok(Legality::Legal),
                None => Ok(Legality::Opened),
            },
        }
    }

    /// The tree of a new hive: its root alone, with an empty name, the flags 0x000c, the time 0, no class and
    /// the shortest security descriptor.
    pub fn fresh(alloc: Global) -> Result<Tree, AllocError>
        ensures { IfOk result (λ made. made ≡ fresh_tree) }
    {
        let leaf = Node::leaf(fresh_key(alloc)?);
        let root = Arc::new(alloc, leaf)?;
        Ok(Tree { root })
    }
}

// the root of a new hive
fn fresh_key(alloc: Global) -> Result<Key, AllocError>
    ensures { IfOk result (λ key. key ≡ fresh_row) }
{
    let name = Name::stored(alloc, &[])?;
    let class = Data::new(alloc, &[])?;
    let descriptor = Descriptor::new(alloc, &FRESH_DESCRIPTOR)?;
    Key::new(
        alloc,
        name,
        class,
        FRESH_FLAGS,
        descriptor,
        0,
        Values::new(),
    )
}

// the flags of a new hive's root: the flag of a root, and not to be deleted
const FRESH_FLAGS: u16 = 0x000c;

const _: () = prove!(FRESH_FLAGS == 0x000c);

// a self-relative security descriptor of revision 1 without owner, group or lists
const FRESH_DESCRIPTOR: [u8; 20] = [
    0x01, 0x00, 0x00, 0x80, 0, 0, 0, 0, 0, 0, 0, 0, 0, 0, 0, 0, 0, 0, 0, 0,
];
