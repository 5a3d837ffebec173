//! The claims of all active transactions, in the order in which they were added.
ghost use Rattle.std.specs.Prelude.{◌≡◌, ◌==◌, ◌∷◌, ◌++◌, ◌<◌, ◌^◌, [], true, false, ℕ, map, Contains, OnOk, OnErr, IfOk, IfSome, IfNone, Option, Some};
ghost use Rattle.std.specs.List.{list_any};
ghost use Rattle.std.specs.Option.{option_map};
ghost use Rattle.std.specs.BTreeSet.{contains_by};
ghost use Rattle.conflicts.specs.IndexKeys.{pair_order};
ghost use Rattle.conflicts.specs.ClaimIndexes.{TakesOwn, LeavesOthers};
ghost use Rattle.conflicts.specs.Holders.{HeldClaim, same_held_claim, IsClaimResult, OwnersDontConflict, without_owner, blocks, holds_claim, with_number, with_holder, is_some_that, holders_of};

use crate::claim::{Claim, ClaimKind, conflict, same_claim};
use crate::index_keys::{Index, IndexKey, copy, index_key_of, numbers_near};
use reg_names::Path;
use std::alloc::{AllocError, Global};
use std::collections::{BTreeMap, BTreeSet};
use std::marker::Model;

/// The number by which a table of claims knows a transaction.
#[derive(Clone, Copy)]
pub struct ClaimOwner(pub u64);

// a claim of a transaction
#[derive(Drop)]
struct ClaimEntry {
    owner: ClaimOwner,
    hive: u8,
    path: Path,
    kind: ClaimKind,
}

impl Model for ClaimEntry {
    ghost use Rattle.conflicts.specs.Holders.{HeldClaim};

    ghost Value = { HeldClaim };

    ghost use Rattle.conflicts.specs.Claims.{kind_of, key_at};

    ghost view = { λ inside. record {
      owner = inside.owner.0;
      claim = record
          { kind = kind_of inside.kind; key = key_at inside.hive inside.path };
    } };
}

impl ClaimEntry {
    fn new(owner: ClaimOwner, claim: &Claim) -> Result<ClaimEntry, AllocError>
        ensures { IfOk result (λ entry. entry ≡ record { owner = owner.0; claim = claim.now }) }
    {
        Ok(ClaimEntry {
            owner,
            hive: claim.hive,
            path: claim.path.clone()?,
            kind: claim.kind,
        })
    }

    fn owner(&self) -> ClaimOwner
        ensures { result.0 ≡ self.now.owner }
    {
        self.owner
    }

    // whether it is this claim of this transaction
    fn is(&self, owner: ClaimOwner, claim: &Claim) -> bool
        ensures { result ≡ same_held_claim (record { owner = owner.0; claim = claim.now }) self.now }
    {
        self.owner.0 == owner.0 && same_claim(claim, &self.claim())
    }

    // whether its owner is not the asker, and it conflicts
    fn blocks(&self, asker: Option<ClaimOwner>, claim: &Claim) -> bool
        ensures { result ≡ blocks (option_map (λ o. o.0) asker) claim.now self.now }
    {
        let own = match asker {
            Some(asker) => asker.0 == self.owner.0,
            None => false,
        };
        !own && conflict(claim, &self.claim())
    }

    fn claim(&self) -> Claim<'_>
        ensures { result ≡ self.now.claim }
    {
        Claim {
            hive: self.hive,
            path: &self.path,
            kind: self.kind,
        }
    }
}

// a claim, and its index key
#[derive(Drop)]
struct IndexedClaim {
    entry: ClaimEntry,
    index_key: IndexKey,
}

/// The claims of all active transactions, each claim of a transaction once, in the order in which they were first
/// added. No transaction's claim conflicts with another's.
///
/// Claims are numbered as they are added. A claim that may conflict with another is found by its key, and a
/// transaction's claims by the transaction. So no call goes through all claims.
pub struct ClaimTable {
    // the claims by their numbers
    kept: BTreeMap<u64, IndexedClaim>,
    // the same by their keys
    index: Index,
    // each owner with the numbers of its claims; after a refused `claim` a number without a claim may stay listed here
    // until `drop_of`, which changes no answer
    owned: BTreeSet<(u64, u64)>,
    // as long as claims were added; it takes no memory
    added: Vec<()>,
}

impl Drop for ClaimTable {
    // one drop for all that own a table of claims, whose proofs see no more of it than that
    fn drop(self) {
        let ClaimTable {
            kept: _,
            index: _,
            owned: _,
            added: _,
        } = self;
    }
}

impl Model for ClaimTable {
    ghost use Rattle.std.specs.Prelude.{List};
    ghost use Rattle.conflicts.specs.Holders.{HeldClaim};

    ghost Value = { List HeldClaim };

    ghost use Rattle.std.specs.Prelude.{vec_len};
    ghost use Rattle.conflicts.specs.ClaimIndexes.{claims_of, TableIsConsistent};

    ghost view = { λ inside. claims_of inside.kept.entries };

    ghost invariant = { λ inside. TableIsConsistent (vec_len inside.added) inside.index
        inside.owned.keys inside.kept.entries };
}

impl ClaimTable {
    /// A table without claims.
    pub fn new(alloc: Global) -> ClaimTable
        ensures { result ≡ [] }
    {
        ClaimTable {
            kept: BTreeMap::new(alloc),
            index: Index::new(alloc),
            owned: BTreeSet::new(alloc),
            added: Vec::new(alloc),
        }
    }

    /// Adds a claim of a transaction, unless another transaction holds a claim that conflicts with it; answers whether
    /// the transaction then holds it. The claim is added at the end, unless the transaction has it already. Refused
    /// only if there is no memory; the table is then unchanged.
    pub fn claim(&mut self, owner: ClaimOwner, claim: &Claim) -> Result<bool, AllocError>
        ensures ok { IfOk result (λ held.
            IsClaimResult self.old (record { owner = owner.0; claim = claim.now }) held self.new) }
        ensures err { OnErr result (self.new ≡ self.old) }
    {
        if self.has(owner, claim)? {
            return Ok(true);
        }
        if self.is_blocked(owner, claim)? {
            return Ok(false);
        }
        self.put(owner, claim)?;
        Ok(true)
    }

    // adds a claim that the transaction does not have, and that no other's conflicts with
    fn put(&mut self, owner: ClaimOwner, claim: &Claim) -> Result<(), AllocError>
        requires { list_any (blocks (Some owner.0) claim.now) self.old ≡ false }
        ensures ok { OnOk result (self.new
            ≡ self.old ++ record { owner = owner.0; claim = claim.now } ∷ []) }
        ensures err { OnErr result (self.new ≡ self.old) }
    {
        let number = self.added.len() as u64;
        let entry = ClaimEntry::new(owner, claim)?;
        let alloc = *self.added.allocator();
        let index_key = index_key_of(alloc, claim, number)?;
        let copy = (copy(alloc, &index_key.0)?, number);
        self.added.push(())?;
        self.owned.insert((owner.0, number))?;
        self.kept.insert(number, IndexedClaim { entry, index_key })?;
        match self.index.put(copy) {
            Ok(()) => Ok(()),
            Err(refused) => {
                self.kept.remove(&number);
                Err(refused)
            }
        }
    }

    // whether the transaction has the claim: then no other's conflicts with it
    fn has(&self, owner: ClaimOwner, claim: &Claim) -> Result<bool, AllocError>
        ensures told { IfOk result (λ has. has
            ≡ holds_claim self.now (record { owner = owner.0; claim = claim.now })) }
        ensures apart { IfOk result (λ has. has ≡ true →
            list_any (blocks (Some owner.0) claim.now) self.now ≡ false) }
    {
        let alloc = *self.added.allocator();
        let from = index_key_of(alloc, claim, 0)?;
        let to = (copy(alloc, &from.0)?, u64::MAX);
        for index_key in self.index.index_keys.range(&from..=&to) {
            if is_kept(self.kept.get(&index_key.1), owner, claim) {
                return Ok(true);
            }
        }
        Ok(false)
    }

    // whether another transaction holds a claim that conflicts with this one
    fn is_blocked(&self, owner: ClaimOwner, claim: &Claim) -> Result<bool, AllocError>
        ensures { IfOk result (λ met. met
            ≡ list_any (blocks (Some owner.0) claim.now) self.now) }
    {
        let numbers = numbers_near(*self.added.allocator(), &self.index, claim)?;
        for number in &numbers {
            if meets(self.kept.get(number), owner, claim) {
                return Ok(true);
            }
        }
        Ok(false)
    }

    /// No transaction's claim conflicts with another's. The call does nothing: what it ensures is so of every table.
    pub fn owners_dont_conflict(&self)
        ensures { OwnersDontConflict self.now }
    {
        let _ = &self.added; // for the prover
    }

    /// Drops all claims of a transaction. Takes no memory.
    pub fn drop_of(&mut self, owner: ClaimOwner)
        ensures { self.new ≡ without_owner self.old owner.0 }
    {
        while let Some(listed) = first_of(&self.owned, owner) {
            self.owned.remove(&listed);
            match take_own(&mut self.kept, owner, listed.1) {
                Some(kept) => {
                    self.index.take(&kept.index_key);
                }
                None => {}
            }
        }
    }

    /// The transactions that hold a claim which conflicts with this one: each once, in the order of its first
    /// conflicting claim. Claims of the asker are left out. Takes memory for the list.
    pub fn holders(
        &self,
        asker: Option<ClaimOwner>,
        claim: &Claim,
    ) -> Result<Vec<ClaimOwner>, AllocError>
        ensures { IfOk result (λ found. map (λ o. o.0) found.items
            ≡ holders_of self.now (option_map (λ o. o.0) asker) claim.now) }
    {
        let alloc = *self.added.allocator();
        let numbers = numbers_near(alloc, &self.index, claim)?;
        let mut found = Vec::new(alloc);
        for number in &numbers {
            list_holder(&mut found, self.kept.get(number), asker, claim)?;
        }
        Ok(found)
    }
}

// the first number that is listed under an owner
fn first_of(owned: &BTreeSet<(u64, u64)>, owner: ClaimOwner) -> Option<(u64, u64)>
    ensures some { IfSome result (λ listed. (listed.0 ≡ owner.0)
        × (contains_by (pair_order listed) owned.now ≡ true)) }
    ensures none { IfNone result ((number : ℕ) → number < 2 ^ 64 →
        Contains owned.now.keys (owner.0, number) → ⊥) }
{
    let from = (owner.0, 0);
    let to = (owner.0, u64::MAX);
    match owned.range(&from..=&to).next() {
        Some(listed) => Some(*listed),
        None => None,
    }
}

// takes out the claim of a number, if it is the owner's
fn take_own(
    kept: &mut BTreeMap<u64, IndexedClaim>,
    owner: ClaimOwner,
    number: u64,
) -> Option<IndexedClaim>
    ensures some { IfSome result (λ one. TakesOwn kept.old.entries kept.new.entries owner.0 number
        one) }
    ensures none { IfNone result (LeavesOthers kept.old.entries kept.new.entries owner.0 number) }
{
    let own = match kept.get(&number) {
        Some(one) => one.entry.owner().0 == owner.0,
        None => false,
    };
    if own { kept.remove(&number) } else { None }
}

// whether it is this claim of this transaction
fn is_kept(kept: Option<&IndexedClaim>, owner: ClaimOwner, claim: &Claim) -> bool
    ensures { result ≡ is_some_that (same_held_claim (record { owner = owner.0; claim = claim.now }))
        (option_map (λ k. k.now.entry) kept.entry) }
{
    match kept {
        Some(kept) => kept.entry.is(owner, claim),
        None => false,
    }
}

// whether its owner is not this one, and it conflicts with the claim
fn meets(kept: Option<&IndexedClaim>, owner: ClaimOwner, claim: &Claim) -> bool
    ensures { result ≡ is_some_that (blocks (Some owner.0) claim.now)
        (option_map (λ k. k.now.entry) kept.entry) }
{
    match kept {
        Some(kept) => kept.entry.blocks(Some(owner), claim),
        None => false,
    }
}

// lists the owner of a claim, if there is a claim, it blocks the one asked for, and its owner is not in the list
fn list_holder(
    found: &mut Vec<ClaimOwner>,
    kept: Option<&IndexedClaim>,
    asker: Option<ClaimOwner>,
    claim: &Claim,
) -> Result<(), AllocError>
    ensures { OnOk result (map (λ o. o.0) found.new.items ≡ with_holder (map (λ o. o.0)
        found.old.items) (option_map (λ k. k.now.entry) kept.entry) (option_map (λ o. o.0) asker)
        claim.now) }
{
    match kept {
        Some(kept) => list_once(found, &kept.entry, asker, claim),
        None => Ok(()),
    }
}

// lists the owner of a claim, if the claim blocks the one asked for and its owner is not in the list; of a listed owner
// no more claims are compared
fn list_once(
    found: &mut Vec<ClaimOwner>,
    entry: &ClaimEntry,
    asker: Option<ClaimOwner>,
    claim: &Claim,
) -> Result<(), AllocError>
    ensures { OnOk result (map (λ o. o.0) found.new.items ≡ with_holder (map (λ o. o.0)
        found.old.items) (Some entry.now) (option_map (λ o. o.0) asker) claim.now) }
{
    let owner = entry.owner();
    if !is_listed(found, owner) && entry.blocks(asker, claim) {
        found.push(owner)?;
    }
    Ok(())
}

fn is_listed(found: &[ClaimOwner], owner: ClaimOwner) -> bool
    ensures { result ≡ list_any (λ o. o.0 == owner.0) found.now }
{
    found.iter().any(|known| known.0 == owner.0)
}
