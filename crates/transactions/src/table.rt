//! The transactions of a store.
ghost use Rattle.std.specs.Prelude.{◌≡◌, ◌⊎◌, ◌+◌, ◌<◌, ◌≤◌, ◌^◌, ◌-◌, ◌==◌, [], ℕ, length, vec_capacity, nat_le, slice_set, List, IfOk, IfSome, OnOk, OnErr, Some, None, Ok, true, false, IfErr};
ghost use Rattle.std.specs.Option.{option_map, option_copied};
ghost use Rattle.refusals.specs.declared.limits.TheConstants.{MOST_ELEMENT_BYTES, MOST_TRANSACTIONS};
ghost use Rattle.refusals.specs.declared.refusal.Refusal.TheVariants.{NoMemory, NoSeat, NotFound, TooLarge, Conflict};
ghost use Rattle.reg_tree.specs.Encodings.{ops_encoded_len};
ghost use Rattle.reg_tree.specs.Maps.{TreeMap, IsTree};
ghost use Rattle.reg_tree.specs.Operations.{hive_of};
ghost use Rattle.reg_tree.specs.Judgement.{legal, applied, any_outweighs};
ghost use Rattle.conflicts.specs.Claims.{claim_of};
ghost use Rattle.conflicts.specs.Holders.{IsClaimResult};
ghost use Rattle.conflicts.specs.TreeOutlines.{AreCarriedOut};
ghost use Rattle.store_model.specs.Ends.{refusal_of};
ghost use Rattle.store_model.specs.Invariant.{HivesAreNamable};
ghost use Rattle.transactions.specs.Entries.{transaction_of, IsViewed, IsCommitted, IsSameEntry, HasRoom, MayAdd, AddsTo, IsNotAdded, IsJudgedOf, judge_refusal, IsRebasedTo, AreRebased, with_other_tree};
ghost use Rattle.store_model.specs.declared.room.TheConstants.{MOST_OUTCOME_BYTES};
ghost use Rattle.store_model.specs.Acts.{EndsTx, ClosesTx};
ghost use Rattle.store_model.specs.Machine.{first_of, refused_if, read_refusal, seen, slot_refusal, added_refusal_if};
ghost use Rattle.transactions.specs.Tables.{TableRefuses, Begins, ChangesSlots, Writes, EndsWith, EndIsRefused, IsPending, is_of, holds_if, is_listed, MeetNone, rolled_back_if};
ghost use Rattle.store_model.specs.Transactions.{at, own, is_active_outcome, EachSlotBecomes, SetsSlot, gone_with, inactive_refusal};

use crate::entry::{Committed, TxEntry};
use crate::view::{Judged, View};
use conflicts::{ClaimOwner, ClaimTable, claims};
use refusals::Refusal;
use refusals::limits::MOST_TRANSACTIONS;
use reg_names::Path;
use reg_tree::{Op, Tree, Trees};
use slab::Slab;
use std::alloc::{AllocError, Global};
use std::marker::Model;
use store_model::{NoSuchTransaction, Outcome, Question, ReadResult, Tx, TxEndError};
use uuid::Uuid;

/// The transactions of a store, and the trees of now, which they see their own operations on.
///
/// Contracts see the trees of now and the number of the last accepted change, the transaction in each slot, and how
/// many were begun; which hives operations may be on, and how many bytes of a change are set aside for its commit.
pub struct TxTable {
    alloc: Global,
    trees: Trees,
    number: u64,
    begun: u64,
    tx_slots: Slab<TxEntry>,
    claims: ClaimTable,
    hives: usize,
    aside: u64,
}

impl Drop for TxTable {
    // one drop for all that own a table, whose proofs see no more of it than that
    fn drop(self) {
        let TxTable {
            alloc: _,
            trees: _,
            number: _,
            begun: _,
            tx_slots: _,
            claims: _,
            hives: _,
            aside: _,
        } = self;
    }
}

impl Model for TxTable {
    ghost use Rattle.transactions.specs.Tables.{Table};
    ghost use Rattle.transactions.specs.Entries.{tx_slots_of, EntriesAreSound};

    ghost Value = { Table };

    ghost use Rattle.transactions.specs.Codes.{table_code};

    ghost coded = { table_code };

    ghost view = { λ inside. record {
      trees = inside.trees;
      number = inside.number;
      tx_slots =
          tx_slots_of inside.tx_slots.slots;
      begun = inside.begun;
      hives = inside.hives;
      aside = inside.aside;
    } };

    ghost invariant = { λ inside. EntriesAreSound inside.trees inside.number inside.begun
        inside.hives inside.aside inside.tx_slots.slots inside.claims };
}

/// The outcome of a write in a transaction that was not refused.
#[derive(Clone, Copy, Debug, PartialEq, Eq)]
pub enum TxWriteOutcome {
    /// The operation was added.
    Added {
        /// How many keys it makes, if it creates one.
        levels: Option<usize>,
    },
    /// The key that was to be created is there; nothing changed.
    Opened,
}

/// The operations of an active transaction, and how long they are as one change.
#[derive(Drop)]
pub struct PendingOps<'a> {
    /// The operations in order.
    pub ops: &'a [Op],
    /// The bytes of the encoded change that they make.
    pub text_len: u64,
}

/// The transactions that hold a claim which conflicts with the claim of an operation, by their slots.
pub struct Holders {
    owners: Vec<ClaimOwner>,
}

impl Drop for Holders {
    // one drop for all that own holders, whose proofs see no more of it than that
    fn drop(self) {
        let Holders { owners: _ } = self;
    }
}

impl Model for Holders {
    ghost use Rattle.std.specs.Prelude.{List, ℕ, map};

    ghost Value = { List ℕ };

    ghost view = { λ inside. map (λ o. o.0) inside.owners.items };
}

impl Holders {
    /// Whether the transaction in a slot is one of them.
    fn has(&self, slot: usize) -> bool
        ensures { result ≡ is_listed self.now slot }
    {
        for owner in &self.owners {
            if owner.0 == slot as u64 {
                return true;
            }
        }
        false
    }
}

impl TxTable {
    /// A table without transactions, for trees after the change of this number. Operations may be on the first `hives`
    /// hives, and of each change `aside` bytes are set aside for its commit.
    pub fn new(alloc: Global, trees: Trees, number: u64, hives: usize, aside: u64) -> TxTable
        requires { aside ≤ MOST_OUTCOME_BYTES }
        ensures { result ≡ record {
          trees = trees;
          number = number;
          tx_slots = [];
          begun = 0;
          hives = hives;
          aside = aside;
        } }
    {
        TxTable {
            alloc,
            trees,
            number,
            begun: 0,
            tx_slots: Slab::new(alloc),
            claims: ClaimTable::new(alloc),
            hives,
            aside,
        }
    }

    /// The trees of now.
    pub fn trees(&self) -> &Trees
        ensures { result.now ≡ self.now.trees }
    {
        &self.trees
    }

    /// The number of the last accepted change.
    pub fn number(&self) -> u64
        ensures { result ≡ self.now.number }
    {
        self.number
    }

    /// Begins a transaction for a unit of work, which may be any. Refused with `NoSeat` exactly if 1,024 transactions
    /// are kept or 18,446,744,073,709,551,615 were begun, and with `NoMemory`.
    pub fn begin(&mut self, session: u32, id: Uuid) -> Result<Tx, Refusal>
        ensures ok { IfOk result (λ tx. Begins self.old session id tx self.new) }
        ensures refused { IfErr result (λ refusal.
            TableRefuses self.old (slot_refusal self.old.tx_slots self.old.begun) refusal self.new) }
    {
        if self.tx_slots.len() >= MOST_TRANSACTIONS {
            return Err(Refusal::NoSeat);
        }
        let Some(generation) = self.begun.checked_add(1) else {
            return Err(Refusal::NoSeat);
        };
        self.tx_slots.reserve(1)?;
        let entry = TxEntry::begin(self.alloc, session, id, generation);
        self.begun = generation;
        let slot = self.tx_slots.insert_reserved(entry);
        Ok(Tx { slot, generation })
    }

    /// Adds an operation to a transaction, at a moment. It is judged by what the transaction sees. Refused in this
    /// order: with `NoSuchHandle`; with `NotActive`; with `NotFound` if operations may not be on its hive; if the
    /// operation is not legal; with `TooLarge` if the change would be longer than 4,194,304 bytes, with those that are
    /// set aside; with `Conflict` if another active transaction's claim conflicts; and with
    /// `NoMemory`. The transaction then stays as it is.
    pub fn write(
        &mut self,
        session: u32,
        tx: Tx,
        moment: u64,
        op: Op,
    ) -> Result<TxWriteOutcome, Refusal>
        ensures ok { IfOk result (λ written.
            Writes self.old session tx moment op written self.new) }
        ensures refused { IfErr result (λ refusal.
            TableRefuses self.old
            (first_of (inactive_refusal (own self.old.tx_slots session tx))
            (first_of (refused_if (nat_le self.old.hives (hive_of op)) NotFound)
            (added_refusal_if self.old.aside self.old.trees self.old.tx_slots tx.slot op (own self.old.tx_slots session tx))))
            refusal self.new) }
    {
        self.check_active(session, tx)?;
        if usize::from(op.hive()) >= self.hives {
            return Err(Refusal::NotFound);
        }
        self.write_active(session, tx, moment, op)
    }

    /// The same of a transaction that is known to be active, and of a hive that operations may be on.
    pub(crate) fn write_active(
        &mut self,
        session: u32,
        tx: Tx,
        moment: u64,
        op: Op,
    ) -> Result<TxWriteOutcome, Refusal>
        requires active { inactive_refusal (own self.old.tx_slots session tx) ≡ None }
        requires named { hive_of op < self.old.hives }
        ensures ok { IfOk result (λ written.
            Writes self.old session tx moment op written self.new) }
        ensures refused { IfErr result (λ refusal.
            TableRefuses self.old
            (added_refusal_if self.old.aside self.old.trees self.old.tx_slots tx.slot op (own self.old.tx_slots session tx))
            refusal self.new) }
    {
        match self.judge(session, tx, &op)? {
            Some(judged) => self.add(tx.slot, moment, op, judged),
            None => Ok(TxWriteOutcome::Opened),
        }
    }

    // judges an operation by what the transaction sees and by its length; nothing if it opens a key
    fn judge(&mut self, session: u32, tx: Tx, op: &Op) -> Result<Option<Judged>, Refusal>
        requires { inactive_refusal (own self.old.tx_slots session tx) ≡ None }
        ensures same { self.new ≡ self.old }
        ensures ok { IfOk result (IsJudgedOf self.old session tx op.now) }
        ensures refused { IfErr result (λ refusal.
            (judge_refusal self.old.aside self.old.trees op.now (own self.old.tx_slots session tx) ≡ Some refusal)
            ⊎ (refusal ≡ NoMemory)) }
    {
        let Some(entry) = self.tx_slots.get_mut(tx.slot) else {
            unreachable!();
        };
        entry.judge(self.alloc, &self.trees, self.number, op, self.aside)
    }

    // adds a judged operation to the transaction in a slot, with the view after it, if no other active transaction
    // holds a claim which conflicts
    fn add(
        &mut self,
        slot: usize,
        moment: u64,
        op: Op,
        judged: Judged,
    ) -> Result<TxWriteOutcome, Refusal>
        requires { MayAdd self.old slot op judged.made }
        ensures ok { IfOk result (AddsTo self.old slot moment op judged.levels self.new) }
        ensures refused { IfErr result (λ refusal. IsNotAdded self.old slot op refusal × (self.new ≡ self.old)) }
    {
        let Some(entry) = self.tx_slots.get_mut(slot) else {
            unreachable!();
        };
        add_claim(entry, &mut self.claims, slot, &op)?;
        entry.add(op, moment, judged.made);
        Ok(TxWriteOutcome::Added {
            levels: judged.levels,
        })
    }

    /// The answer to the question on a key, as the transaction sees it. Refused with `NoSuchHandle`, then `NotActive`,
    /// then `NotFound`; and with `NoMemory`.
    pub fn view_read(
        &mut self,
        session: u32,
        tx: Tx,
        hive: u8,
        path: &Path,
        question: Question,
    ) -> Result<ReadResult, Refusal>
        ensures same { self.new ≡ self.old }
        ensures ok { IfOk result (λ found.
            (inactive_refusal (own self.old.tx_slots session tx) ≡ None)
            × (seen self.old.trees hive path.now question (own self.old.tx_slots session tx)
            ≡ Some found)) }
        ensures refused { IfErr result (λ refusal.
            (first_of (inactive_refusal (own self.old.tx_slots session tx))
            (read_refusal (seen self.old.trees hive path.now question (own self.old.tx_slots session tx)))
            ≡ Some refusal)
            ⊎ (refusal ≡ NoMemory)) }
    {
        let alloc = self.alloc;
        self.check_active(session, tx)?;
        let Some(entry) = self.tx_slots.get_mut(tx.slot) else {
            unreachable!();
        };
        entry.look_up(alloc, &self.trees, self.number, hive, path, question)
    }

    // the transaction of a handle, if it is the session's
    fn own(&self, session: u32, tx: Tx) -> Option<&TxEntry>
        ensures found { option_map transaction_of (option_copied result)
            ≡ own self.now.tx_slots session tx }
        ensures counted { IfSome result (λ entry. entry.now.length
            ≡ 16 + ops_encoded_len entry.now.ops.items) }
        ensures short { IfSome result (λ entry. entry.now.length + self.now.aside ≤ MOST_ELEMENT_BYTES) }
        ensures named { IfSome result (λ entry. HivesAreNamable self.now.hives entry.now.ops.items) }
        ensures viewed { IfSome result (λ entry. IsViewed self.now.trees self.now.number
            entry.now.ops.items entry.now.view) }
    {
        match self.tx_slots.get(tx.slot) {
            Some(entry) if entry.is_own(session, tx.generation) => Some(entry),
            _ => None,
        }
    }

    /// Refuses a handle that is not one of the session's, then one whose transaction isn't active.
    pub(crate) fn check_active(&self, session: u32, tx: Tx) -> Result<(), TxEndError>
        ensures ok { OnOk result (inactive_refusal (own self.now.tx_slots session tx) ≡ None) }
        ensures refused { IfErr result (λ why.
            inactive_refusal (own self.now.tx_slots session tx) ≡ Some (refusal_of why)) }
    {
        match self.own(session, tx) {
            Some(entry) if entry.is_active() => Ok(()),
            Some(_) => Err(TxEndError::NotActive),
            None => Err(TxEndError::NoSuchTransaction),
        }
    }

    /// The outcome of a transaction: whether it is active, committed or rolled back. Takes no memory.
    pub fn outcome(&self, session: u32, tx: Tx) -> Result<Outcome, NoSuchTransaction>
        ensures ok { IfOk result (λ outcome.
            option_map (λ one. one.outcome) (own self.now.tx_slots session tx) ≡ Some outcome) }
        ensures refused { OnErr result (own self.now.tx_slots session tx ≡ None) }
    {
        match self.own(session, tx) {
            Some(entry) => Ok(entry.outcome),
            None => Err(NoSuchTransaction),
        }
    }

    /// The unit of work of a transaction.
    pub fn unit(&self, session: u32, tx: Tx) -> Option<Uuid>
        ensures { result ≡ option_map (λ one. one.id) (own self.now.tx_slots session tx) }
    {
        match self.own(session, tx) {
            Some(entry) => Some(entry.id),
            None => None,
        }
    }

    /// The operations of an active transaction, for the caller that accepts them as one change. Takes no memory.
    pub fn commit_ops(&self, session: u32, tx: Tx) -> Result<PendingOps<'_>, TxEndError>
        ensures ok { IfOk result (λ pending.
            IsPending (own self.now.tx_slots session tx) pending.ops.now pending.text_len) }
        ensures short { IfOk result (λ pending. pending.text_len + self.now.aside ≤ MOST_ELEMENT_BYTES) }
        ensures named { IfOk result (λ pending. HivesAreNamable self.now.hives pending.ops.now) }
        ensures refused { IfErr result (λ why.
            inactive_refusal (own self.now.tx_slots session tx) ≡ Some (refusal_of why)) }
    {
        match self.own(session, tx) {
            Some(entry) if entry.is_active() => Ok(PendingOps {
                ops: &entry.ops,
                text_len: entry.length,
            }),
            Some(_) => Err(TxEndError::NotActive),
            None => Err(TxEndError::NoSuchTransaction),
        }
    }

    /// The trees after an active transaction's operations at a moment. Refused with `TooLarge` exactly if one of them
    /// leaves its hive's tree too heavy; and with `NoMemory`.
    pub(crate) fn commit_trees(
        &self,
        session: u32,
        tx: Tx,
        moment: u64,
    ) -> Result<Committed, Refusal>
        requires { inactive_refusal (own self.now.tx_slots session tx) ≡ None }
        ensures ok { IfOk result (λ made. IfSome (own self.now.tx_slots session tx) (λ one.
            IsCommitted self.now.trees one.ops moment made)) }
        ensures refused { IfErr result (λ refusal. IfSome (own self.now.tx_slots session tx) (λ one.
            ((any_outweighs self.now.trees one.ops moment ≡ true) × (refusal ≡ TooLarge))
            ⊎ (refusal ≡ NoMemory))) }
    {
        let Some(entry) = self.own(session, tx) else {
            unreachable!();
        };
        entry.commit_trees(self.alloc, &self.trees, self.number, moment)
    }

    /// Ends an active transaction as committed, and hands out its operations. If there are any, they have room for two
    /// more, which was made as they were added. Takes no memory.
    pub fn commit(&mut self, session: u32, tx: Tx) -> Result<Vec<Op>, TxEndError>
        ensures ok { IfOk result (λ ops.
            EndsWith self.old session tx Outcome.Committed ops.items self.new) }
        ensures spare { IfOk result (λ ops.
            0 < length ops.items → length ops.items + 2 ≤ vec_capacity ops) }
        ensures refused { IfErr result (λ why. EndIsRefused self.old session tx why self.new) }
    {
        self.end(session, tx, Outcome::Committed)
    }

    /// Rolls an active transaction back. Takes no memory.
    pub fn rollback(&mut self, session: u32, tx: Tx) -> Result<(), TxEndError>
        ensures ok { OnOk result
            (ChangesSlots self.old
            (EndsTx self.old.tx_slots (own self.old.tx_slots session tx) tx.slot Outcome.RolledBack
            self.new.tx_slots) self.new) }
        ensures refused { IfErr result (λ why. EndIsRefused self.old session tx why self.new) }
    {
        self.end(session, tx, Outcome::RolledBack)?;
        Ok(())
    }

    // ends an active transaction: its claims and operations are dropped
    fn end(&mut self, session: u32, tx: Tx, outcome: Outcome) -> Result<Vec<Op>, TxEndError>
        requires { is_active_outcome outcome ≡ false }
        ensures ok { IfOk result (λ ops. EndsWith self.old session tx outcome ops.items self.new) }
        ensures spare { IfOk result (λ ops.
            0 < length ops.items → length ops.items + 2 ≤ vec_capacity ops) }
        ensures refused { IfErr result (λ why. EndIsRefused self.old session tx why self.new) }
    {
        let alloc = self.alloc;
        self.check_active(session, tx)?;
        let Some(entry) = self.tx_slots.get_mut(tx.slot) else {
            unreachable!();
        };
        self.claims.drop_of(ClaimOwner(tx.slot as u64));
        Ok(entry.end(alloc, outcome))
    }

    /// Drops a transaction; one that is active is rolled back. Takes no memory.
    pub fn close(&mut self, session: u32, tx: Tx) -> Result<(), NoSuchTransaction>
        ensures ok { OnOk result
            (ChangesSlots self.old
            (ClosesTx self.old.tx_slots (own self.old.tx_slots session tx) tx.slot self.new.tx_slots) self.new) }
        ensures refused { OnErr result
            ((own self.old.tx_slots session tx ≡ None) × (self.new ≡ self.old)) }
    {
        if self.own(session, tx).is_none() {
            return Err(NoSuchTransaction);
        }
        self.vacate(tx.slot);
        Ok(())
    }

    // drops what is in a slot
    fn vacate(&mut self, slot: usize)
        ensures rest { self.new ≡ record self.old { tx_slots = self.new.tx_slots } }
        ensures put { SetsSlot self.old.tx_slots self.new.tx_slots slot None }
    {
        self.claims.drop_of(ClaimOwner(slot as u64));
        self.tx_slots.try_remove(slot);
    }

    /// Drops all transactions of a session. Takes no memory.
    pub fn end_session(&mut self, session: u32)
        ensures rest { self.new ≡ record self.old { tx_slots = self.new.tx_slots } }
        ensures gone { EachSlotBecomes (gone_with session) self.old.tx_slots self.new.tx_slots }
    {
        for slot in 0..self.tx_slots.capacity() {
            if self.is_of(session, slot) {
                self.vacate(slot);
            }
        }
    }

    // whether the transaction in a slot is of the session
    fn is_of(&self, session: u32, slot: usize) -> bool
        ensures { result ≡ is_of session (at self.now.tx_slots slot) }
    {
        match self.tx_slots.get(slot) {
            Some(entry) => entry.session == session,
            None => false,
        }
    }

    /// The active transactions that hold a claim which conflicts with the claim of the operation.
    pub fn holders(&self, op: &Op) -> Result<Holders, AllocError>
        ensures { IfOk result (λ holders. (slot : ℕ) → is_listed holders slot
            ≡ holds_if (claim_of op.now) (at self.now.tx_slots slot)) }
    {
        Ok(Holders {
            owners: self.claims.holders(None, &claims(op))?,
        })
    }

    /// Rolls back the active ones of these transactions. Takes no memory.
    pub fn roll_back_all(&mut self, holders: &Holders)
        ensures rest { self.new ≡ record self.old { tx_slots = self.new.tx_slots } }
        ensures rolled_back { (slot : ℕ) → at self.new.tx_slots slot
            ≡ rolled_back_if (is_listed holders.now slot) (at self.old.tx_slots slot) }
    {
        for owner in &holders.owners {
            self.roll_back_at(owner.0);
        }
    }

    // rolls back the transaction in a slot, if it is active
    fn roll_back_at(&mut self, owner: u64)
        ensures rest { self.new ≡ record self.old { tx_slots = self.new.tx_slots } }
        ensures put { SetsSlot self.old.tx_slots self.new.tx_slots owner (rolled_back_if true (at
            self.old.tx_slots owner)) }
    {
        let alloc = self.alloc;
        let slot = owner as usize;
        match self.tx_slots.get_mut(slot) {
            Some(entry) if entry.is_active() => {
                self.claims.drop_of(ClaimOwner(owner));
                entry.end(alloc, Outcome::RolledBack);
            }
            _ => {}
        }
    }

    /// The views after a change, by their slots. The change is applied to the view of each active transaction with
    /// whose claims it does not conflict. Nothing if there is no view, or it is to be made again when it is asked for.
    pub(crate) fn rebase_views(
        &self,
        change: &[Op],
        moment: u64,
        holders: &Holders,
    ) -> Result<Vec<Option<View>>, AllocError>
        requires carried { AreCarriedOut self.now.trees change.now moment }
        requires below { self.now.number < 2 ^ 64 - 1 }
        requires holders { (slot : ℕ) → is_listed holders.now slot ≡ false →
            MeetNone change.now (at self.now.tx_slots slot) }
        ensures { IfOk result (λ rebased.
            AreRebased (applied self.now.trees change.now moment) (self.now.number + 1) self.now.tx_slots
            rebased.items) }
    {
        let mut rebased = Vec::new(self.alloc);
        for slot in 0..self.tx_slots.capacity() {
            rebased.push(self.rebased_at(slot, change, moment, holders)?)?;
        }
        Ok(rebased)
    }

    // the view after a change of the transaction in a slot
    fn rebased_at(
        &self,
        slot: usize,
        change: &[Op],
        moment: u64,
        holders: &Holders,
    ) -> Result<Option<View>, AllocError>
        requires carried { AreCarriedOut self.now.trees change.now moment }
        requires below { self.now.number < 2 ^ 64 - 1 }
        requires holders { is_listed holders.now slot ≡ false →
            MeetNone change.now (at self.now.tx_slots slot) }
        ensures { IfOk result
            (IsRebasedTo (applied self.now.trees change.now moment) (self.now.number + 1) (at
            self.now.tx_slots slot)) }
    {
        match self.tx_slots.get(slot) {
            Some(entry) if entry.is_active() && !holders.has(slot) => {
                entry.rebased(self.alloc, &self.trees, change, moment, self.number)
            }
            _ => Ok(None),
        }
    }

    /// The views after the commit of the transaction in a slot, by their slots. Its claims conflict with no other's, so
    /// each view may be rebased.
    pub(crate) fn rebase_others(
        &self,
        slot: usize,
        change: &[Op],
        moment: u64,
    ) -> Result<Vec<Option<View>>, AllocError>
        requires pending { (length : ℕ) × IsPending (at self.now.tx_slots slot) change.now length }
        requires carried { AreCarriedOut self.now.trees change.now moment }
        requires below { self.now.number < 2 ^ 64 - 1 }
        ensures { IfOk result (λ rebased.
            AreRebased (applied self.now.trees change.now moment) (self.now.number + 1) self.now.tx_slots
            rebased.items) }
    {
        if !self.may_rebase_others(slot, change.len()) {
            return Ok(Vec::new(self.alloc));
        }
        self.claims.owners_dont_conflict(); // for the prover
        let mut owners = Vec::new(self.alloc);
        owners.push(ClaimOwner(slot as u64))?;
        self.rebase_views(change, moment, &Holders { owners })
    }

    /// The views, by their slots, on the trees of now with another tree of the first hive that operations may not be on.
    /// What a transaction sees of the others stays.
    pub(crate) fn views_with(
        &self,
        views: Vec<Option<View>>,
        tree: &Tree,
    ) -> Result<Vec<Option<View>>, AllocError>
        ensures { IfOk result (λ made. (now : List TreeMap) (number : ℕ) → IsTree tree.now →
            AreRebased now number self.now.tx_slots views.items →
            AreRebased (slice_set now self.now.hives tree.now) number self.now.tx_slots made.items) }
    {
        let mut made = Vec::with_capacity(self.alloc, views.len())?;
        for view in &views {
            made.push(self.view_with(view, tree)?)?;
        }
        Ok(made)
    }

    // a view, if there is one, with another tree of the first hive that operations may not be on
    fn view_with(&self, view: &Option<View>, tree: &Tree) -> Result<Option<View>, AllocError>
        ensures { IfOk result (λ made. made
            ≡ option_map (with_other_tree self.now.hives tree.now) view.now) }
    {
        match view {
            Some(view) => Ok(Some(view.with_tree(self.alloc, self.hives, tree)?)),
            None => Ok(None),
        }
    }

    // whether some view beside the one of a slot is worth rebasing on this many operations
    fn may_rebase_others(&self, slot: usize, count: usize) -> bool {
        for other in 0..self.tx_slots.capacity() {
            match self.tx_slots.get(other) {
                Some(entry) if other != slot && entry.may_rebase(self.number, count) => return true,
                _ => {}
            }
        }
        false
    }

    /// Takes the views after the change that was just accepted. Takes no memory.
    pub(crate) fn take_views(&mut self, rebased: Vec<Option<View>>)
        requires { AreRebased self.old.trees self.old.number self.old.tx_slots rebased.items }
        ensures { self.new ≡ self.old }
    {
        let mut rebased = rebased;
        while let Some(view) = rebased.pop() {
            self.take_view(rebased.len(), view);
        }
    }

    // takes the view of the transaction in a slot
    fn take_view(&mut self, slot: usize, view: Option<View>)
        requires { IsRebasedTo self.old.trees self.old.number (at self.old.tx_slots slot) view }
        ensures { self.new ≡ self.old }
    {
        let Some(entry) = self.tx_slots.get_mut(slot) else {
            return;
        };
        entry.take_view(view);
    }

    /// The next change was accepted, and left these trees.
    pub fn accept(&mut self, trees: Trees)
        requires { self.old.number < 2 ^ 64 - 1 }
        ensures { self.new ≡ record self.old { trees = trees; number = self.old.number + 1 } }
    {
        self.trees = trees;
        self.number += 1;
    }
}

// makes room for an operation of the transaction in a slot, and adds its claim; refused if another's conflicts
fn add_claim(
    entry: &mut TxEntry,
    held: &mut ClaimTable,
    slot: usize,
    op: &Op,
) -> Result<(), Refusal>
    ensures same { IsSameEntry entry.old entry.new }
    ensures ok { OnOk result (HasRoom entry.new
        × IsClaimResult held.old (record { owner = slot; claim = claim_of op.now }) true held.new) }
    ensures refused { IfErr result (λ refusal. (held.new ≡ held.old) × ((refusal ≡ NoMemory)
        ⊎ ((refusal ≡ Conflict) × IsClaimResult held.old (record { owner = slot; claim = claim_of op.now }) false held.new))) }
{
    entry.reserve()?;
    if held.claim(ClaimOwner(slot as u64), &claims(op))? {
        Ok(())
    } else {
        Err(Refusal::Conflict)
    }
}
