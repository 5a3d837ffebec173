//! One transaction as a table keeps it: its operations, and its view.
ghost use Rattle.std.specs.Prelude.{◌≡◌, true, false, ◌⊎◌, ◌+◌, ◌≤◌, ◌==◌, ◌&&◌, ◌<◌, ◌-◌, ◌^◌, IfOk, IfSome, OnErr, OnOk, Some, None, Ok, Err, IfErr};
ghost use Rattle.refusals.specs.declared.limits.TheConstants.{MOST_ELEMENT_BYTES};
ghost use Rattle.refusals.specs.declared.refusal.Refusal.TheVariants.{NoMemory, NotFound, TooLarge};
ghost use Rattle.reg_tree.specs.Encodings.{op_encoded_len, ops_encoded_len};
ghost use Rattle.reg_names.specs.Names.{folded_path};
ghost use Rattle.reg_tree.specs.Judgement.{applied, any_outweighs};
ghost use Rattle.conflicts.specs.TreeOutlines.{AreCarriedOut, OpsDontConflict};
ghost use Rattle.reg_tree.specs.Reads.{IsMissingOrNoMemory};
ghost use Rattle.reg_tree.specs.TreeLists.{info_in};
ghost use Rattle.transactions.specs.Entries.{transaction_of, IsCommitted, IsViewed, HasView, HasViewAt, IsJudged, illegal, IsSameEntry, HasRoom, HasTwoSpare};
ghost use Rattle.store_model.specs.Machine.{looked_up, read_refusal, too_long};
ghost use Rattle.store_model.specs.Transactions.{view, with_op, ended, is_active, fresh_transaction};

use crate::view::{Judged, View, carry_out};
use refusals::Refusal;
use refusals::limits::MOST_ELEMENT_BYTES;
use reg_names::Path;
use reg_tree::{CHANGE_BYTES, Info, Op, Trees};
use std::alloc::{AllocError, Global};
use std::mem;
use store_model::{Outcome, Question, ReadResult, look_up};
use uuid::Uuid;

/// Operations that may be added without memory to those that a commit takes.
const SPARE_OPS: usize = 2;

const _: () = prove!(SPARE_OPS == 2);

/// A moment that no clock comes to: no key has it as its time, unless a caller gives it.
const MAX_MOMENT: u64 = u64::MAX;

/// A transaction, how long its encoding is, and its view, if one was made. The view's moment may be an earlier one than
/// the transaction's. What a write or a read asks of the view depends on no moment, but for the time of a key. So a
/// write costs one operation, whatever moments the writes have. If a change of others conflicts with no claim of the
/// transaction, it is applied to its view too.
pub(crate) struct TxEntry {
    pub(crate) session: u32,
    pub(crate) id: Uuid,
    pub(crate) generation: u64,
    pub(crate) outcome: Outcome,
    pub(crate) ops: Vec<Op>,
    pub(crate) moment: u64,
    pub(crate) length: u64,
    pub(crate) view: Option<View>,
}

impl Drop for TxEntry {
    // one drop for all that own a transaction, whose proofs see no more of it than that
    fn drop(self) {
        let TxEntry {
            session: _,
            id: _,
            generation: _,
            outcome: _,
            ops: _,
            moment: _,
            length: _,
            view: _,
        } = self;
    }
}

/// The trees after a transaction's operations.
#[derive(Drop)]
pub(crate) struct Committed {
    pub(crate) trees: Trees,
    /// Whether each operation is known to be one that could be carried out.
    pub(crate) carried: bool,
}

// the trees after operations that are made for them
fn commit_anew(alloc: Global, now: &Trees, ops: &[Op], moment: u64) -> Result<Committed, Refusal>
    ensures ok { IfOk result (IsCommitted now.now ops.now moment) }
    ensures refused { IfErr result (λ refusal.
        ((any_outweighs now.now ops.now moment ≡ true) × (refusal ≡ TooLarge))
        ⊎ (refusal ≡ NoMemory)) }
{
    if let Some(trees) = carry_out(alloc, now, ops, moment)? {
        return Ok(Committed {
            trees,
            carried: true,
        });
    }
    Ok(Committed {
        trees: now.apply_within(alloc, ops, moment)?,
        carried: false,
    })
}

impl TxEntry {
    /// A transaction that is begun: it has no operations.
    pub(crate) fn begin(alloc: Global, session: u32, id: Uuid, generation: u64) -> TxEntry
        ensures kept { transaction_of result ≡ fresh_transaction session id generation }
        ensures counted { result.length ≡ 16 }
        ensures unseen { result.view ≡ None }
    {
        TxEntry {
            session,
            id,
            generation,
            outcome: Outcome::Active,
            ops: Vec::new(alloc),
            moment: 0,
            length: CHANGE_BYTES,
            view: None,
        }
    }

    pub(crate) fn is_active(&self) -> bool
        ensures { result ≡ is_active (transaction_of self.now) }
    {
        self.outcome == Outcome::Active
    }

    /// Whether it is the transaction of this session and number.
    pub(crate) fn is_own(&self, session: u32, generation: u64) -> bool
        ensures { result ≡ (self.now.session == session && self.now.generation == generation) }
    {
        self.session == session && self.generation == generation
    }

    /// Makes the view, if there is none of these trees.
    fn ensure_view(&mut self, alloc: Global, now: &Trees, number: u64) -> Result<(), AllocError>
        requires { IsViewed now.now number self.old.ops.items self.old.view }
        ensures rest { self.new ≡ record self.old { view = self.new.view } }
        ensures kept { IsViewed now.now number self.new.ops.items self.new.view }
        ensures seen { OnOk result (HasView now.now number self.new.ops.items self.new.view) }
    {
        match &mut self.view {
            Some(view) if view.number == number => {
                view.ops_since_read = 0;
                Ok(())
            }
            _ => self.make_view_at(alloc, now, number, self.moment),
        }
    }

    /// Makes the view at a moment.
    fn make_view_at(
        &mut self,
        alloc: Global,
        now: &Trees,
        number: u64,
        moment: u64,
    ) -> Result<(), AllocError>
        ensures rest { self.new ≡ record self.old { view = self.new.view } }
        ensures same { OnErr result (self.new ≡ self.old) }
        ensures kept { OnOk result (IsViewed now.now number self.new.ops.items self.new.view) }
        ensures seen { OnOk result (HasViewAt now.now number self.new.ops.items moment
            self.new.view) }
        ensures some { OnOk result (HasView now.now number self.new.ops.items self.new.view) }
    {
        self.view = Some(View::make(alloc, now, &self.ops, moment, number)?);
        Ok(())
    }

    /// Judges an operation by the view, and carries it out on a copy of the view; nothing if it opens a key. Then
    /// judges it by the length of the change, of which as many bytes are set aside.
    pub(crate) fn judge(
        &mut self,
        alloc: Global,
        now: &Trees,
        number: u64,
        op: &Op,
        aside: u64,
    ) -> Result<Option<Judged>, Refusal>
        requires viewed { IsViewed now.now number self.old.ops.items self.old.view }
        requires counted { (self.old.length ≡ 16 + ops_encoded_len self.old.ops.items)
            × (self.old.length ≤ MOST_ELEMENT_BYTES) }
        ensures rest { self.new ≡ record self.old { view = self.new.view } }
        ensures kept { IsViewed now.now number self.new.ops.items self.new.view }
        ensures ok { IfOk result (IsJudged aside now.now number (transaction_of self.new) op.now) }
        ensures refused { IfErr result (λ refusal.
            (illegal aside now.now op.now (transaction_of self.new) ≡ Some refusal)
            ⊎ (refusal ≡ NoMemory)) }
    {
        self.ensure_view(alloc, now, number)?;
        let Some(view) = &self.view else {
            unreachable!();
        };
        let Some(written) = view.write(alloc, op)? else {
            return Ok(None);
        };
        if self.is_too_long(op, aside) {
            return Err(Refusal::TooLarge);
        }
        Ok(Some(written))
    }

    /// The answer to the question on a key, as the transaction sees it.
    pub(crate) fn look_up(
        &mut self,
        alloc: Global,
        now: &Trees,
        number: u64,
        hive: u8,
        path: &Path,
        question: Question,
    ) -> Result<ReadResult, Refusal>
        requires { IsViewed now.now number self.old.ops.items self.old.view }
        ensures rest { self.new ≡ record self.old { view = self.new.view } }
        ensures kept { IsViewed now.now number self.new.ops.items self.new.view }
        ensures ok { IfOk result (λ found.
            looked_up (view now.now (transaction_of self.new)) hive path.now question ≡ Some found) }
        ensures refused { IfErr result (λ refusal.
            (read_refusal (looked_up (view now.now (transaction_of self.new)) hive path.now question)
            ≡ Some refusal)
            ⊎ (refusal ≡ NoMemory)) }
    {
        match question {
            Question::InfoOf => Ok(ReadResult::Counts {
                info: self.info(alloc, now, number, hive, path)?,
            }),
            untimed => {
                self.ensure_view(alloc, now, number)?;
                let Some(view) = &self.view else {
                    unreachable!();
                };
                look_up(alloc, &view.trees, hive, path, untimed)
            }
        }
    }

    /// The counts and the time of a key, as the transaction sees them. If the view can't say the time, the view is made
    /// again at a moment that no clock comes to. Then it says of each key whether the operations wrote it, also after
    /// others write it, at whatever moments. If the key has that moment as its time in the trees of now, the view is
    /// made again at the transaction's own.
    fn info(
        &mut self,
        alloc: Global,
        now: &Trees,
        number: u64,
        hive: u8,
        path: &Path,
    ) -> Result<Info, Refusal>
        requires { IsViewed now.now number self.old.ops.items self.old.view }
        ensures rest { self.new ≡ record self.old { view = self.new.view } }
        ensures kept { IsViewed now.now number self.new.ops.items self.new.view }
        ensures ok { IfOk result (λ info.
            info_in (view now.now (transaction_of self.new)) hive (folded_path path.now) ≡ Some info) }
        ensures refused { IfErr result
            (IsMissingOrNoMemory
            (info_in (view now.now (transaction_of self.new)) hive (folded_path path.now))) }
    {
        self.ensure_view(alloc, now, number)?;
        if let Some(info) = self.told(now, number, hive, path)? {
            return Ok(info);
        }
        self.make_view_at(alloc, now, number, MAX_MOMENT)?;
        if let Some(info) = self.told(now, number, hive, path)? {
            return Ok(info);
        }
        self.make_view_at(alloc, now, number, self.moment)?;
        let Some(view) = &self.view else {
            unreachable!();
        };
        view.trees.query_info(hive, path)
    }

    /// What the existing view says of a key with the time that the transaction sees, or nothing if it can't say the
    /// time.
    fn told(&self, now: &Trees, number: u64, hive: u8, path: &Path) -> Result<Option<Info>, Refusal>
        requires { HasView now.now number self.now.ops.items self.now.view }
        ensures ok { IfOk result (λ told. IfSome told (λ info.
            info_in (view now.now (transaction_of self.now)) hive (folded_path path.now) ≡ Some info)) }
        ensures refused { IfErr result (λ refusal. (refusal ≡ NotFound)
            × (info_in (view now.now (transaction_of self.now)) hive (folded_path path.now) ≡ None)) }
    {
        let Some(view) = &self.view else {
            unreachable!();
        };
        view.info_at(now, hive, path, self.moment)
    }

    /// Whether there is a view of now that is worth rebasing on this many operations. It is not, if it would then have
    /// been rebased on more operations since it was last read than the transaction has. Making it again costs no more
    /// than rebasing.
    pub(crate) fn may_rebase(&self, number: u64, count: usize) -> bool
        ensures { result ≡ true → IfSome self.now.view (λ view. view.number ≡ number) }
    {
        match &self.view {
            Some(view) => {
                view.number == number && view.ops_since_read.saturating_add(count) <= self.ops.len()
            }
            None => false,
        }
    }

    /// The view after the change of this number, none of whose operations conflicts with a claim of the transaction;
    /// nothing if there is no view of now, or it is to be made again.
    pub(crate) fn rebased(
        &self,
        alloc: Global,
        now: &Trees,
        change: &[Op],
        moment: u64,
        number: u64,
    ) -> Result<Option<View>, AllocError>
        requires viewed { IsViewed now.now number self.now.ops.items self.now.view }
        requires carried { AreCarriedOut now.now change.now moment }
        requires apart { OpsDontConflict self.now.ops.items change.now }
        requires below { number < 2 ^ 64 - 1 }
        ensures { IfOk result
            (IsViewed (applied now.now change.now moment) (number + 1) self.now.ops.items) }
    {
        match &self.view {
            Some(view) if self.may_rebase(number, change.len()) => {
                view.rebased_past(alloc, now, change, moment, number + 1)
            }
            _ => Ok(None),
        }
    }

    /// The trees after the operations at a moment: the view's, if the view is of now and of this moment, and each
    /// operation is known to be one that could be carried out.
    pub(crate) fn commit_trees(
        &self,
        alloc: Global,
        now: &Trees,
        number: u64,
        moment: u64,
    ) -> Result<Committed, Refusal>
        requires { IsViewed now.now number self.now.ops.items self.now.view }
        ensures ok { IfOk result (IsCommitted now.now self.now.ops.items moment) }
        ensures refused { IfErr result (λ refusal.
            ((any_outweighs now.now self.now.ops.items moment ≡ true) × (refusal ≡ TooLarge))
            ⊎ (refusal ≡ NoMemory)) }
    {
        match &self.view {
            Some(view) if view.number == number && view.moment == Some(moment) && view.is_light() =>
                {
                    Ok(Committed {
                        trees: view.trees.try_clone(alloc)?,
                        carried: true,
                    })
                }
            _ => commit_anew(alloc, now, &self.ops, moment),
        }
    }

    // whether its change would be too long with this operation and as many bytes as are set aside
    fn is_too_long(&self, op: &Op, aside: u64) -> bool
        requires { (self.now.length ≡ 16 + ops_encoded_len self.now.ops.items)
            × (self.now.length ≤ MOST_ELEMENT_BYTES) }
        ensures { result ≡ too_long aside (transaction_of self.now) op.now }
    {
        self.length
            .saturating_add(op.text_len())
            .saturating_add(aside)
            > MOST_ELEMENT_BYTES
    }

    /// Makes room for one operation more, and for two besides that the caller which takes them may add.
    pub(crate) fn reserve(&mut self) -> Result<(), AllocError>
        ensures same { IsSameEntry self.old self.new }
        ensures room { OnOk result (HasRoom self.new) }
    {
        self.ops.reserve(1 + SPARE_OPS)
    }

    /// Adds an operation, for which there is room, and whose change is not too long with it.
    pub(crate) fn add(&mut self, op: Op, moment: u64, made: View)
        requires room { HasRoom self.old }
        requires short { self.old.length + op_encoded_len op ≤ MOST_ELEMENT_BYTES }
        ensures kept { transaction_of self.new ≡ with_op (transaction_of self.old) op moment }
        ensures length { self.new.length ≡ self.old.length + op_encoded_len op }
        ensures spare { HasTwoSpare self.new }
        ensures seen { self.new.view ≡ Some made }
    {
        self.length = self.length.saturating_add(op.text_len());
        self.ops.push_reserved(op);
        self.moment = moment;
        self.view = Some(made);
    }

    /// Takes a view, or loses the one that it has.
    pub(crate) fn take_view(&mut self, view: Option<View>)
        ensures rest { self.new ≡ record self.old { view = self.new.view } }
        ensures taken { self.new.view ≡ view }
    {
        self.view = view;
    }

    /// Ends it, and hands out its operations.
    pub(crate) fn end(&mut self, alloc: Global, outcome: Outcome) -> Vec<Op>
        ensures ops { result ≡ self.old.ops }
        ensures kept { transaction_of self.new ≡ ended outcome (transaction_of self.old) }
        ensures length { self.new.length ≡ 16 }
        ensures unseen { self.new.view ≡ None }
    {
        self.outcome = outcome;
        self.length = CHANGE_BYTES;
        self.view = None;
        mem::replace(&mut self.ops, Vec::new(alloc))
    }
}
