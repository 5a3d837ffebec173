//! Buffers of a caller.
ghost use Rattle.std.specs.Prelude.{◌≤◌, ◌+◌, ◌++◌, length};
ghost use Rattle.regtx_c.specs.Buffers.{AreCopied, IsCopied};

use crate::codes::{NO_ROOM, OK};

/// Tells how long a list is, and copies it to the front of a buffer if there is room for it.
pub(crate) fn copy<T: Copy>(found: &[T], into: &mut [T], len: &mut usize) -> u32
    ensures { IsCopied found.now into.old into.new len.new result }
{
    *len = found.len();
    if into.len() < found.len() {
        return NO_ROOM;
    }
    into[..found.len()].copy_from_slice(found);
    OK
}

/// The same of a list in two parts.
pub(crate) fn copy_parts(front: &[u8], back: &[u8], into: &mut [u8], len: &mut usize) -> u32
    requires { length front.now + length back.now ≤ usize.MAX }
    ensures { IsCopied (front.now ++ back.now) into.old into.new len.new result }
{
    let end = front.len() + back.len();
    *len = end;
    if into.len() < end {
        return NO_ROOM;
    }
    into[..front.len()].copy_from_slice(front);
    into[front.len()..end].copy_from_slice(back);
    OK
}

/// Copies two lists, each to the front of a buffer of its own, if there is room for both.
pub(crate) fn copy_both<T: Copy, U: Copy>(
    one: &[T],
    two: &[U],
    one_into: &mut [T],
    two_into: &mut [U],
) -> u32
    ensures { AreCopied one.now two.now one_into.old one_into.new two_into.old two_into.new result }
{
    if one_into.len() < one.len() || two_into.len() < two.len() {
        return NO_ROOM;
    }
    one_into[..one.len()].copy_from_slice(one);
    two_into[..two.len()].copy_from_slice(two);
    OK
}
