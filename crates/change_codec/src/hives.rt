//! The hives of a change's operations, read from its encoding; where in it the operations begin, and its moment.
ghost use Rattle.std.specs.Prelude.{◌≡◌, ◌==◌, ◌∷◌, [], ℕ, List, Some, None, MatchOption};
ghost use Rattle.std.specs.List.{list_any};
ghost use Rattle.reg_tree.specs.declared.op.Op.{Op};
ghost use Rattle.reg_tree.specs.Operations.{hive_of};
ghost use Rattle.change_codec.specs.Readers.{repeat};
ghost use Rattle.change_codec.specs.Encoding.{op_at};
ghost use Rattle.change_codec.specs.Changes.{EncodesOneChange, HasOps, change_in, hives_of};

use crate::encoded_change::ALL_HIVES;
use crate::fields::{first_u8, first_u32, first_u64};
use crate::skipper::{first_hive, skip_op};
use std::marker::Model;

/// The hives of operations that are left, one after another: each hive as often as there is an operation on it.
#[derive(Drop)]
pub struct Hives<'a> {
    /// How many operations are left.
    left: u32,
    /// The encodings of these; of the last one nothing is skipped.
    bytes: &'a [u8],
}

impl<'a> Model for Hives<'a> {
    ghost use Rattle.std.specs.Prelude.{List, ℕ};
    ghost use Rattle.change_codec.specs.Changes.{AreOps, hives_in};

    ghost Value = { List ℕ };

    ghost view = { λ inside. hives_in inside.left inside.bytes.now };

    ghost invariant = { λ inside. AreOps inside.left inside.bytes.now };
}

impl<'a> Hives<'a> {
    /// The hives of a change's operations, from its encoding.
    pub(crate) fn of(encoding: &'a [u8]) -> Hives<'a>
        requires { EncodesOneChange encoding.now }
        ensures { result ≡ hives_of (change_in encoding.now) }
    {
        let (left, bytes) = ops_in(encoding);
        Hives { left, bytes }
    }

    /// The next one.
    pub fn next(&mut self) -> Option<u8>
        ensures { MatchOption result (self.old ≡ [])
            (λ hive. self.old ≡ hive ∷ self.new) }
    {
        if self.left == 0 {
            return None;
        }
        // most changes have one operation, of which the hive alone is read
        if self.left == 1 {
            self.left = 0;
            return Some(hive_in(self.bytes));
        }
        let Some((hive, rest)) = skip_op(ALL_HIVES, self.bytes) else {
            unreachable!();
        };
        self.left -= 1;
        self.bytes = rest;
        Some(hive)
    }
}

/// How many operations an encoded change has, and the bytes that begin with them.
pub(crate) fn ops_in(encoding: &[u8]) -> (u32, &[u8])
    requires { EncodesOneChange encoding.now }
    ensures { HasOps (repeat result.0 (op_at 256) result.1.now) (change_in encoding.now).ops }
{
    let Some((_, rest)) = first_u32(encoding) else {
        unreachable!();
    };
    let Some((_, rest)) = first_u64(rest) else {
        unreachable!();
    };
    let Some((count, bytes)) = first_u32(rest) else {
        unreachable!();
    };
    (count, bytes)
}

/// The hive of the operation that bytes begin with.
pub(crate) fn hive_in(bytes: &[u8]) -> u8
    requires { ¬ (op_at 256 bytes.now ≡ None) }
    ensures { (op : Op) (rest : List ℕ) → op_at 256 bytes.now ≡ Some (op, rest) → result ≡ hive_of op }
{
    let Some((_, rest)) = first_u8(bytes) else {
        unreachable!();
    };
    let Some((hive, _)) = first_hive(ALL_HIVES, rest) else {
        unreachable!();
    };
    hive
}

/// The moment of an encoded change.
pub(crate) fn moment_in(encoding: &[u8]) -> u64
    requires { EncodesOneChange encoding.now }
    ensures { result ≡ (change_in encoding.now).moment }
{
    let Some((_, rest)) = first_u32(encoding) else {
        unreachable!();
    };
    let Some((moment, _)) = first_u64(rest) else {
        unreachable!();
    };
    moment
}

/// Whether a hive is among those that are left.
pub(crate) fn are_any(left: &mut Hives<'_>, hive: u8) -> bool
    ensures { result ≡ list_any (λ one. one == hive) left.old }
{
    while let Some(one) = left.next() {
        if one == hive {
            return true;
        }
    }
    false
}
