//! The body of a batch: which elements it takes, and its bytes.
ghost use Rattle.std.specs.Prelude.{◌≡◌, ◌+◌, ◌<◌, ◌≤◌, ◌^◌, ◌++◌, ℕ, length, take, sum_by, IfOk, OnOk};
ghost use Rattle.std.specs.List.{AllByRecursion, flat_map};
ghost use Rattle.reg_tree.specs.Encodings.{element_encoded_len};
ghost use Rattle.change_codec.specs.Encoding.{element_bytes};
ghost use Rattle.commit_journal.specs.Encoding.{body_bytes};
ghost use Rattle.commit_journal.specs.Handed.{IsShort, FitsIfThere, body_len, IsLongestPrefix};
ghost use Rattle.commit_journal.specs.declared.layout.TheConstants.{MOST_BODY_BYTES};

use crate::layout::{HEAD_BYTES, MOST_BODY_BYTES};
use change_codec::{EncodedChange, put_u32, put_u64};
use std::alloc::{AllocError, Global};

/// The number of elements that a body takes from the front, and the size of the body in bytes.
#[derive(Clone, Copy)]
pub(crate) struct Prefix {
    pub count: usize,
    pub size: u64,
}

/// The longest prefix of the elements that fits a body.
pub(crate) fn longest_prefix(handed: &[EncodedChange]) -> Prefix
    requires { AllByRecursion IsShort handed.now }
    ensures prefix { IsLongestPrefix result.count handed.now }
    ensures size { result.size ≡ body_len (take result.count handed.now) }
    ensures some { 0 < length handed.now → 0 < result.count }
{
    let mut size = HEAD_BYTES;
    for (count, element) in handed.iter().enumerate() {
        let more = element.text_len();
        if more > MOST_BODY_BYTES - size {
            return Prefix { count, size };
        }
        size += more;
    }
    Prefix {
        count: handed.len(),
        size,
    }
}

/// The bytes of the body of these elements, `size` of them. The first element has the number `first`. There is room
/// after them for one more byte.
pub(crate) fn encode(
    alloc: Global,
    first: u64,
    elements: &[EncodedChange],
    size: u64,
) -> Result<Vec<u8>, AllocError>
    requires size { size ≡ body_len elements.now }
    requires most { size ≤ MOST_BODY_BYTES }
    ensures encoding { IfOk result (λ body. body.items
        ≡ body_bytes first (length elements.now) (flat_map element_bytes elements.now)) }
    ensures fit { IfOk result (λ _. AllByRecursion FitsIfThere elements.now) }
{
    let mut body = Vec::with_capacity(alloc, size as usize + 1)?;
    put_u32(&mut body, size as u32)?;
    put_u64(&mut body, first)?;
    put_u32(&mut body, elements.len() as u32)?;
    write_all(elements, &mut body)?;
    Ok(body)
}

/// Appends the encodings of elements to some bytes.
fn write_all(elements: &[EncodedChange], bytes: &mut Vec<u8>) -> Result<(), AllocError>
    requires { sum_by element_encoded_len elements.now < 2 ^ 32 }
    ensures encoding { OnOk result (bytes.new.items
        ≡ bytes.old.items ++ flat_map element_bytes elements.now) }
    ensures fit { OnOk result (AllByRecursion FitsIfThere elements.now) }
{
    for element in elements {
        bytes.extend_from_slice(element.bytes())?;
    }
    Ok(())
}
