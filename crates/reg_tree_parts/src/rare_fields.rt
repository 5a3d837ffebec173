//! What few keys have: a class, or flags.
ghost use Rattle.std.specs.Prelude.{◌≡◌, IfOk};
ghost use Rattle.reg_tree_parts.specs.ClassAndFlags.{class_in, flags_in};

use crate::data::Data;
use std::alloc::{AllocError, Global};
use std::sync::Arc;

/// A class and flags.
#[derive(Drop)]
pub(crate) struct RareFields {
    /// The class.
    pub class: Data,
    /// The flags.
    pub flags: u16,
}

/// What a key of this class and these flags keeps of them: nothing if it has neither.
pub(crate) fn new_if_any(
    alloc: Global,
    class: Data,
    flags: u16,
) -> Result<Option<Arc<RareFields>>, AllocError>
    ensures { IfOk result (λ kept. (class_in kept ≡ class) × (flags_in kept ≡ flags)) }
{
    if flags == 0 && class.bytes().is_empty() {
        return Ok(None);
    }
    let shared = Arc::new(alloc, RareFields { class, flags })?;
    Ok(Some(shared))
}

/// The same, by another pointer.
pub(crate) fn share(kept: &Option<Arc<RareFields>>) -> Result<Option<Arc<RareFields>>, AllocError>
    ensures { IfOk result (λ same. (class_in same ≡ class_in kept.now) × (flags_in same ≡ flags_in kept.now)) }
{
    match kept {
        None => Ok(None),
        Some(shared) => {
            let same = shared.clone()?;
            Ok(Some(same))
        }
    }
}

/// The class.
pub(crate) fn class(kept: &Option<Arc<RareFields>>) -> &[u8]
    ensures { result.now ≡ class_in kept.now }
{
    match kept {
        None => &[],
        Some(shared) => shared.class.bytes(),
    }
}

/// The flags.
pub(crate) fn flags(kept: &Option<Arc<RareFields>>) -> u16
    ensures { result ≡ flags_in kept.now }
{
    match kept {
        None => 0,
        Some(shared) => shared.flags,
    }
}
