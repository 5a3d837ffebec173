//! An accepted change as it is kept until it is applied: by its encoding.
ghost use Rattle.std.specs.Prelude.{◌≡◌, ◌==◌, ◌+◌, ◌<◌, ◌≤◌, ◌^◌, ◌++◌, ℕ, length, take, filter, Some, None, IfOk, MatchResult};
ghost use Rattle.std.specs.List.{AllByRecursion, list_any};
ghost use Rattle.refusals.specs.Answers.{RefusedFor};
ghost use Rattle.refusals.specs.declared.refusal.Refusal.TheVariants.{JournalDamaged};
ghost use Rattle.reg_tree.specs.declared.element.Element.{Element as Change};
ghost use Rattle.reg_tree.specs.Operations.{hive_of};
ghost use Rattle.reg_tree.specs.Encodings.{ops_encoded_len, element_encoded_len};
ghost use Rattle.change_codec.specs.Changes.{EncodesOneChange, change_in, hives_of};
ghost use Rattle.change_codec.specs.ChangeBytes.{bytes_of, FitsInline};
ghost use Rattle.change_codec.specs.Encoding.{element_at, element_bytes, Fits};
ghost use Rattle.change_codec.specs.declared.encoded_change.TheConstants.{INLINE_CAPACITY};

use crate::decoder::take_change;
use crate::encoder::write_change;
use crate::hives::{Hives, are_any, moment_in, ops_in};
use crate::one_hive::take_ops_on;
use crate::skipper::skip_change;
use refusals::Refusal;
use reg_tree::{Element, Op};
use std::alloc::{AllocError, Global};
use std::marker::Model;

/// The longest encoding that is kept inline. With it the change takes 40 bytes, and no memory besides.
const INLINE_CAPACITY: usize = 38;

const _: () = prove!(INLINE_CAPACITY == 38);

/// Hives that a byte can number.
pub(crate) const ALL_HIVES: u16 = 256;

const _: () = prove!(ALL_HIVES == 256);

/// An accepted change, kept as its encoding. One of up to 38 bytes takes no memory besides.
pub struct EncodedChange {
    repr: Repr,
}

impl Drop for EncodedChange {
    // one drop for all that own an encoded change, whose proofs see no more of it than that
    fn drop(self) {
        let EncodedChange { repr: _ } = self;
    }
}

#[derive(Drop)]
enum Repr {
    /// How many bytes are kept inline, and the bytes.
    Inline(u8, [u8; INLINE_CAPACITY]),
    Heap(Vec<u8>),
}

impl Model for EncodedChange {
    ghost use Rattle.reg_tree.specs.declared.element.Element.{Element};
    ghost use Rattle.change_codec.specs.Changes.{change_in, EncodesOneChange};
    ghost use Rattle.change_codec.specs.ChangeBytes.{bytes_of, FitsInline};

    ghost Value = { Element };

    ghost view = { λ inside. change_in (bytes_of inside.repr) };

    ghost invariant = { λ inside. FitsInline inside.repr × EncodesOneChange (bytes_of inside.repr) };
}

impl EncodedChange {
    /// The encoding of a change. The caller ensures that its length fits the 32-bit field for it.
    pub fn of(alloc: Global, element: &Element) -> Result<EncodedChange, AllocError>
        requires { element_encoded_len element.now < 2 ^ 32 }
        ensures { IfOk result (λ encoding. encoding ≡ element.now) }
    {
        EncodedChange::of_ops(
            alloc,
            element.moment,
            element.ops.list(),
            &[],
            element.text_len(),
        )
    }

    /// The encoding of the change that these operations, and some more after them, make at a moment: `len` bytes, which
    /// the caller counted.
    pub fn of_ops(
        alloc: Global,
        moment: u64,
        ops: &[Op],
        more: &[Op],
        len: u64,
    ) -> Result<EncodedChange, AllocError>
        requires some { 0 < length ops.now }
        requires len { len ≡ 16 + ops_encoded_len (ops.now ++ more.now) }
        requires short { len < 2 ^ 32 }
        ensures { IfOk result (λ encoding. encoding
            ≡ record { moment = moment; ops = ops.now ++ more.now }) }
    {
        let mut bytes = Vec::with_capacity(alloc, len as usize)?;
        write_change(moment, ops, more, len as u32, &mut bytes)?;
        Ok(EncodedChange::kept(bytes))
    }

    /// The change that bytes begin with, its hives all below `hives`, and the bytes after it.
    ///
    /// Refused with `JournalDamaged` exactly if the bytes begin with no encoding of such a change, and with `NoMemory`.
    #[inline(always)]
    pub fn take(alloc: Global, hives: u8, bytes: &[u8]) -> Result<(EncodedChange, &[u8]), Refusal>
        ensures { MatchResult result (λ got. element_at hives bytes.now ≡ Some (got.0, got.1.now))
            (RefusedFor JournalDamaged (element_at hives bytes.now ≡ None)) }
    {
        let Some(rest) = skip_change(u16::from(hives), bytes) else {
            return Err(Refusal::JournalDamaged);
        };
        let len = bytes.len() - rest.len();
        Ok((EncodedChange::copied(alloc, bytes, len)?, rest))
    }

    // the change whose encoding the first `len` of these bytes are
    #[inline(always)]
    fn copied(alloc: Global, bytes: &[u8], len: usize) -> Result<EncodedChange, AllocError>
        requires there { len ≤ length bytes.now }
        requires change { EncodesOneChange (take len bytes.now) }
        ensures { IfOk result (λ kept. kept ≡ change_in (take len bytes.now)) }
    {
        if len <= INLINE_CAPACITY && bytes.len() >= INLINE_CAPACITY {
            return Ok(EncodedChange::front(bytes, len));
        }
        let encoding = &bytes[..len];
        if len <= INLINE_CAPACITY {
            return Ok(EncodedChange::here(encoding));
        }
        let mut bytes = Vec::with_capacity(alloc, len)?;
        bytes.extend_from_slice(encoding)?;
        Ok(EncodedChange {
            repr: Repr::Heap(bytes),
        })
    }

    // the same, of a few bytes with others after them: 38 are copied whatever the encoding's length is, which takes the
    // fewest steps
    #[inline(always)]
    fn front(bytes: &[u8], len: usize) -> EncodedChange
        requires few { len ≤ INLINE_CAPACITY }
        requires there { INLINE_CAPACITY ≤ length bytes.now }
        requires change { EncodesOneChange (take len bytes.now) }
        ensures { result ≡ change_in (take len bytes.now) }
    {
        let mut here = [0; INLINE_CAPACITY];
        here.copy_from_slice(&bytes[..INLINE_CAPACITY]);
        EncodedChange {
            repr: Repr::Inline(len as u8, here),
        }
    }

    // the change whose encoding these bytes are; they aren't copied if they are more than a few
    fn kept(bytes: Vec<u8>) -> EncodedChange
        requires { EncodesOneChange bytes.items }
        ensures { result ≡ change_in bytes.items }
    {
        if bytes.len() <= INLINE_CAPACITY {
            return EncodedChange::here(&bytes);
        }
        EncodedChange {
            repr: Repr::Heap(bytes),
        }
    }

    // the same, of a few bytes
    fn here(encoding: &[u8]) -> EncodedChange
        requires few { length encoding.now ≤ INLINE_CAPACITY }
        requires change { EncodesOneChange encoding.now }
        ensures { result ≡ change_in encoding.now }
    {
        let mut here = [0; INLINE_CAPACITY];
        here[..encoding.len()].copy_from_slice(encoding);
        EncodedChange {
            repr: Repr::Inline(encoding.len() as u8, here),
        }
    }

    /// Its encoding. It is the encoding of a change that fits a number of hives, if each operation's hive is below that
    /// number.
    pub fn bytes(&self) -> &[u8]
        ensures encoding { result.now ≡ element_bytes self.now }
        ensures fits { (hives : ℕ) →
            AllByRecursion (λ op. hive_of op < hives) self.now.ops → Fits hives self.now }
    {
        self.repr.bytes()
    }

    /// How many bytes its encoding has.
    pub fn text_len(&self) -> u64
        ensures { result ≡ element_encoded_len self.now }
    {
        self.bytes().len() as u64
    }

    /// The change.
    pub fn read(&self, alloc: Global) -> Result<Element, AllocError>
        ensures { IfOk result (λ element. element ≡ self.now) }
    {
        match take_change(alloc, ALL_HIVES, self.repr.bytes()) {
            Ok((element, _)) => Ok(element),
            Err(Refusal::NoMemory) => Err(AllocError),
            Err(_) => unreachable!(),
        }
    }

    /// Its operations on one hive, in their order. Nothing is made of the others.
    pub fn ops_on(&self, alloc: Global, hive: u8) -> Result<Vec<Op>, AllocError>
        ensures { IfOk result (λ ops. ops.items ≡ filter (λ op. hive_of op == hive) self.now.ops) }
    {
        let (count, bytes) = ops_in(self.repr.bytes());
        take_ops_on(alloc, hive, count, bytes)
    }

    /// The moment of the change.
    pub fn moment(&self) -> u64
        ensures { result ≡ self.now.moment }
    {
        moment_in(self.repr.bytes())
    }

    /// Whether one of its operations is on a hive.
    pub fn is_on(&self, hive: u8) -> bool
        ensures { result ≡ list_any (λ one. one == hive) (hives_of self.now) }
    {
        let mut hives = self.hives();
        are_any(&mut hives, hive)
    }

    /// The hives of its operations, one after another.
    pub fn hives(&self) -> Hives<'_>
        ensures { result ≡ hives_of self.now }
    {
        Hives::of(self.repr.bytes())
    }
}

impl Repr {
    fn bytes(&self) -> &[u8]
        requires { FitsInline self.now }
        ensures { result.now ≡ bytes_of self.now }
    {
        match self {
            Repr::Inline(len, here) => &here[..usize::from(*len)],
            Repr::Heap(bytes) => bytes,
        }
    }
}
