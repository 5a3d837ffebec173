//! Bytes of a value, a class or a descriptor.
ghost use Rattle.std.specs.Prelude.{◌≡◌, ◌≤◌, List, ℕ, length, IfOk};
ghost use Rattle.reg_tree_parts.specs.declared.data.TheConstants.{INLINE_CAPACITY};

use std::alloc::{AllocError, Global};
use std::marker::Model;
use std::sync::ArcSlice;

/// The most bytes that are kept inline. With them the list takes 24 bytes, and no memory besides.
const INLINE_CAPACITY: usize = 22;

/// A list of bytes that does not change. One of up to 22 bytes takes no memory; the clones of a longer one share its
/// bytes.
#[derive(Drop)]
pub struct Data {
    repr: Repr,
}

#[derive(Drop)]
enum Repr {
    /// How many bytes are kept inline, and the bytes.
    Inline(u8, [u8; INLINE_CAPACITY]),
    Shared(ArcSlice<u8>),
}

impl Model for Data {
    ghost use Rattle.std.specs.Prelude.{List, ℕ};
    ghost use Rattle.reg_tree_parts.specs.Bytes.{bytes_of, FitsInline};

    ghost Value = { List ℕ };

    ghost view = { λ inside. bytes_of inside.repr };

    ghost invariant = { λ inside. FitsInline inside.repr };
}

impl Data {
    /// A copy of the bytes.
    pub fn new(alloc: Global, bytes: &[u8]) -> Result<Data, AllocError>
        ensures { IfOk result (λ made. made ≡ bytes.now) }
    {
        if bytes.len() <= INLINE_CAPACITY {
            return Ok(Data::here(bytes));
        }
        let repr = Repr::Shared(ArcSlice::from_slice(alloc, bytes)?);
        Ok(Data { repr })
    }

    /// The bytes of the vector. More than 22 of them are not copied.
    pub fn from_vec(bytes: Vec<u8>) -> Result<Data, AllocError>
        ensures { IfOk result (λ made. made ≡ bytes.items) }
    {
        if bytes.len() <= INLINE_CAPACITY {
            return Ok(Data::here(&bytes));
        }
        let repr = Repr::Shared(ArcSlice::from_vec(bytes)?);
        Ok(Data { repr })
    }

    // a few bytes, which take no memory
    fn here(bytes: &[u8]) -> Data
        requires { length bytes.now ≤ INLINE_CAPACITY }
        ensures { result ≡ bytes.now }
    {
        let mut here = [0; INLINE_CAPACITY];
        here[..bytes.len()].copy_from_slice(bytes);
        Data {
            repr: Repr::Inline(bytes.len() as u8, here),
        }
    }

    /// The bytes.
    pub fn bytes(&self) -> &[u8]
        ensures { result.now ≡ self.now }
    {
        match &self.repr {
            Repr::Inline(len, here) => &here[..usize::from(*len)],
            Repr::Shared(bytes) => bytes.as_slice(),
        }
    }
}

impl Clone for Data {
    ghost is_clone = { λ old copy. copy ≡ old };

    fn clone(&self) -> Result<Data, AllocError>
        ensures { IfOk result (λ copy. copy ≡ self.now) }
    {
        let repr = match &self.repr {
            Repr::Inline(len, here) => Repr::Inline(*len, *here),
            Repr::Shared(bytes) => Repr::Shared(bytes.clone()?),
        };
        Ok(Data { repr })
    }
}
