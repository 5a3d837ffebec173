//! An index of claims, which finds the claims near a key without going through all.
//!
//! A claim's index key is the encoding of its key, then a unit that ends the path, and the claim's number. Index keys
//! are kept in order. So those at a key are one range, and those at or below it are one. The keys above a key are
//! looked up by the hashes of their encodings. One walk along the path gives all of these hashes, and hashes compare in
//! one step. Encodings that begin alike don't.
ghost use Rattle.std.specs.Prelude.{◌≡◌, ◌++◌, ◌∷◌, ◌^◌, [], map, min, IfOk, OnOk, OnErr, Contains, true, false, ◌<◌, ℕ, length, take};
ghost use Rattle.std.specs.List.Sorted.{IsStrictlySortedBy};
ghost use Rattle.reg_names.specs.Names.{folded, folded_path};
ghost use Rattle.conflicts.specs.IndexKeys.{name_text, path_text, key_text, index_key_order, pair_order, numbers_between, numbers_under, index_key_text, hasher_after, text_hash, past_of, ExtendsBelow};
ghost use Rattle.conflicts.specs.Index.{IsListed, KeepsOthers};
ghost use Rattle.conflicts.specs.Claims.{meets};
ghost use Rattle.std.specs.Hash.DefaultHasher as sip;
ghost use Rattle.std.specs.BTreeMap.{is_at};
ghost use Rattle.std.specs.BTreeSet.{insert_key};
ghost use Rattle.std.specs.Set.{remove_key};
ghost use Rattle.std.specs.Ordering.{is_gt, nat_cmp};

use crate::claim::{Claim, ClaimKind};
use reg_names::{Name, folded_unit};
use std::alloc::{AllocError, Global};
use std::collections::BTreeSet;
use std::hash::{DefaultHasher, Hasher};

/// The encoding of a claim's key, then the unit that ends the path, and the claim's number.
pub(crate) type IndexKey = (Vec<u16>, u64);

// ends the path in an index key; no name has it
const PATH_END: u16 = 0;

// ends a name
const NAME_END: u16 = 0x5c;

// above each unit of an encoding
const PAST: u16 = u16::MAX;

/// The claims by their keys.
///
/// Keys of the same hash are found together. The caller compares what it finds, so a collision costs time and changes
/// no answer. SipHash keeps many claims from being given one hash on purpose.
#[derive(Drop)]
pub(crate) struct Index {
    // the index keys
    pub(crate) index_keys: BTreeSet<IndexKey>,
    // the hash of each index key's encoding, and its number
    hashes: BTreeSet<(u64, u64)>,
}

impl Index {
    /// An index of no claims.
    pub(crate) fn new(alloc: Global) -> Index
        ensures index_keys { result.index_keys.keys ≡ [] }
        ensures hashes { result.hashes.keys ≡ [] }
    {
        Index {
            index_keys: BTreeSet::new(alloc),
            hashes: BTreeSet::new(alloc),
        }
    }

    /// Adds an index key. Refused only if there is no memory; the index keys of other numbers then stay.
    pub(crate) fn put(&mut self, index_key: IndexKey) -> Result<(), AllocError>
        ensures index_keys { OnOk result (self.new.index_keys.keys
            ≡ insert_key index_key_order self.old.index_keys.keys index_key) }
        ensures hashes { OnOk result (self.new.hashes.keys
            ≡ insert_key pair_order self.old.hashes.keys (text_hash index_key.0.items, index_key.1)) }
        ensures err { OnErr result (KeepsOthers self.old self.new index_key.1) }
    {
        let hashed = (hash_of(&index_key.0), index_key.1);
        self.hashes.insert(hashed)?;
        match self.index_keys.insert(index_key) {
            Ok(_) => Ok(()),
            Err(refused) => {
                self.hashes.remove(&hashed);
                Err(AllocError::from(refused))
            }
        }
    }

    /// Removes an index key. Takes no memory.
    pub(crate) fn take(&mut self, index_key: &IndexKey)
        ensures index_keys { self.new.index_keys.keys
            ≡ remove_key (is_at (index_key_order index_key.now)) self.old.index_keys.keys }
        ensures hashes { self.new.hashes.keys ≡ remove_key (is_at (pair_order
            (text_hash index_key.now.0.items, index_key.now.1))) self.old.hashes.keys }
    {
        self.index_keys.remove(index_key);
        self.hashes.remove(&(hash_of(&index_key.0), index_key.1));
    }
}

// feeds units to a hasher
fn hash_units(hasher: &mut DefaultHasher, text: &[u16])
    ensures { hasher.new ≡ hasher_after hasher.old text.now }
{
    for unit in text {
        hasher.write_u16(*unit);
    }
}

// the hash of an encoding
fn hash_of(text: &[u16]) -> u64
    ensures { result ≡ text_hash text.now }
{
    let mut hasher = DefaultHasher::new();
    hash_units(&mut hasher, text);
    hasher.finish()
}

// the hash of the encoding that was fed to a hasher, with the unit after it that ends the path
fn hash_at_end(mut hasher: DefaultHasher) -> u64
    ensures { result ≡ sip.finish (hasher_after hasher (0 ∷ [])) }
{
    hasher.write_u16(PATH_END);
    hasher.finish()
}

// adds the numbers that are listed under a hash
fn push_numbers_under(
    found: &mut Vec<u64>,
    hashes: &BTreeSet<(u64, u64)>,
    hash: u64,
) -> Result<(), AllocError>
    ensures { OnOk result (found.new.items
        ≡ found.old.items ++ numbers_under hash hashes.now.keys) }
{
    let from = (hash, 0);
    let to = (hash, u64::MAX);
    for listed in hashes.range(&from..=&to) {
        found.push(listed.1)?;
    }
    Ok(())
}

// appends a name to an encoding
fn write_name(text: &mut Vec<u16>, name: &Name) -> Result<(), AllocError>
    ensures { OnOk result (text.new.items ≡ text.old.items ++ name_text (folded name.now)) }
{
    for unit in name.units() {
        text.push(folded_unit(*unit).min(PAST - 1))?;
    }
    text.push(NAME_END)?;
    Ok(())
}

/// A copy of an encoding.
pub(crate) fn copy(alloc: Global, text: &[u16]) -> Result<Vec<u16>, AllocError>
    ensures { IfOk result (λ made. made.items ≡ text.now) }
{
    text.to_vec(alloc)
}

// an encoding with one unit more
fn with_unit(alloc: Global, text: &[u16], unit: u16) -> Result<Vec<u16>, AllocError>
    ensures { IfOk result (λ made. made.items ≡ text.now ++ unit ∷ []) }
{
    let mut made = Vec::with_capacity(alloc, text.len() + 1)?;
    made.extend_from_slice(text)?;
    made.push(unit)?;
    Ok(made)
}

// the numbers of the index keys whose encoding extends this one with a unit below a bound
fn gather(
    alloc: Global,
    index_keys: &BTreeSet<IndexKey>,
    text: &[u16],
    past: u16,
) -> Result<Vec<u64>, AllocError>
    requires { 0 < past }
    ensures { IfOk result (λ found. (index_key : _) → Contains index_keys.now.keys index_key →
        ExtendsBelow text.now past index_key.0.items → Contains found.items index_key.1) }
{
    let from = (with_unit(alloc, text, PATH_END)?, 0);
    let to = (with_unit(alloc, text, past)?, u64::MAX);
    let found = numbers_between(alloc, index_keys, &from, &to)?;
    Ok(found)
}

// the numbers of the index keys from one to another
fn numbers_between(
    alloc: Global,
    index_keys: &BTreeSet<IndexKey>,
    from: &IndexKey,
    to: &IndexKey,
) -> Result<Vec<u64>, AllocError>
    requires { is_gt (index_key_order from.now to.now) ≡ false }
    ensures { IfOk result (λ found. found.items ≡ numbers_between from.now to.now index_keys.now.keys) }
{
    let mut found = Vec::new(alloc);
    for index_key in index_keys.range(from..=to) {
        found.push(index_key.1)?;
    }
    Ok(found)
}

/// The index key of a claim with this number.
pub(crate) fn index_key_of(
    alloc: Global,
    claim: &Claim,
    number: u64,
) -> Result<IndexKey, AllocError>
    ensures text { IfOk result (λ index_key. index_key.0.items ≡ index_key_text claim.now) }
    ensures number { IfOk result (λ index_key. index_key.1 ≡ number) }
{
    let names = claim.path.names();
    let mut text = Vec::with_capacity(alloc, units_of(names))?;
    text.push(u16::from(claim.hive))?;
    write_path(&mut text, names)?;
    text.push(PATH_END)?;
    Ok((text, number))
}

// how many units the encoding in a claim's index key has
fn units_of(names: &[Name]) -> usize {
    let mut units: usize = 2;
    for name in names {
        units = units.saturating_add(name.units().len()).saturating_add(1);
    }
    units
}

// appends a path to an encoding
fn write_path(text: &mut Vec<u16>, names: &[Name]) -> Result<(), AllocError>
    ensures { OnOk result (text.new.items ≡ text.old.items ++ path_text (folded_path names.now)) }
{
    for name in names {
        write_name(text, name)?;
    }
    Ok(())
}

/// The numbers of all claims that may conflict with this one: the claims of each key on the way to its key, of its key,
/// and for a Shape of all keys below it. Each number is there once, in rising order. If there are no claims, it takes
/// no memory.
pub(crate) fn numbers_near(
    alloc: Global,
    index: &Index,
    claim: &Claim,
) -> Result<Vec<u64>, AllocError>
    ensures complete { IfOk result (λ found. (number : ℕ) (held : _) → number < 2 ^ 64 →
        IsListed index.now number held → meets claim.now held ≡ true →
        Contains found.items number) }
    ensures rises { IfOk result (λ found. IsStrictlySortedBy nat_cmp found.items) }
{
    if index.index_keys.is_empty() {
        return Ok(Vec::new(alloc));
    }
    let mut text = Vec::with_capacity(alloc, units_of(claim.path.names()))?;
    text.push(u16::from(claim.hive))?;
    let mut found = numbers_along(alloc, &index.hashes, claim.path.names(), &mut text)?;
    let more = gather(alloc, &index.index_keys, &text, past_of(claim))?;
    found.extend_from_slice(&more)?;
    put_in_order(&mut found);
    Ok(found)
}

// the numbers of the claims of each key on the way along a path, which is appended to the encoding
fn numbers_along(
    alloc: Global,
    hashes: &BTreeSet<(u64, u64)>,
    names: &[Name],
    text: &mut Vec<u16>,
) -> Result<Vec<u64>, AllocError>
    ensures text { OnOk result (text.new.items
        ≡ text.old.items ++ path_text (folded_path names.now)) }
    ensures found { IfOk result (λ found. (number : ℕ) (j : ℕ) → number < 2 ^ 64 →
        j < length names.now → Contains hashes.now.keys (
          text_hash ((text.old.items ++ path_text (folded_path (take j names.now))) ++ 0 ∷ []),
          number,
        ) → Contains found.items number) }
{
    let mut found = Vec::new(alloc);
    let mut hasher = DefaultHasher::new();
    hash_units(&mut hasher, text);
    for name in names {
        push_numbers_under(&mut found, hashes, hash_at_end(hasher))?;
        let written = text.len();
        write_name(text, name)?;
        hash_units(&mut hasher, &text[written..]);
    }
    Ok(found)
}

// the bound below which encodings extend the encoding of the claim's key
fn past_of(claim: &Claim) -> u16
    ensures { result ≡ past_of claim.now.kind }
{
    match claim.kind {
        ClaimKind::Shape => PAST,
        ClaimKind::Hold => PATH_END + 1,
    }
}

// sorts the numbers, and leaves each once
fn put_in_order(found: &mut Vec<u64>)
    ensures keeps { (number : ℕ) → Contains found.old.items number →
        Contains found.new.items number }
    ensures rises { IsStrictlySortedBy nat_cmp found.new.items }
{
    found.sort_unstable();
    found.dedup();
}
