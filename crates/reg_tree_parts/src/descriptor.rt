//! Security descriptors. Most keys share theirs with other keys.
ghost use Rattle.std.specs.Prelude.{◌≡◌, IfOk};

use crate::data::Data;
use std::alloc::{AllocError, Global};
use std::marker::Model;
use std::sync::Arc;

/// The bytes of a security descriptor, which do not change. All clones share them, so that in a key it takes one
/// pointer.
#[derive(Drop)]
pub struct Descriptor {
    shared: Arc<Data>,
}

impl Model for Descriptor {
    ghost use Rattle.std.specs.Prelude.{List, ℕ};
    ghost use Rattle.std.specs.Arc.{arc_value};

    ghost Value = { List ℕ };

    ghost view = { λ inside. arc_value inside.shared };
}

impl Descriptor {
    /// A copy of the bytes.
    pub fn new(alloc: Global, bytes: &[u8]) -> Result<Descriptor, AllocError>
        ensures { IfOk result (λ made. made ≡ bytes.now) }
    {
        let data = Data::new(alloc, bytes)?;
        let shared = Arc::new(alloc, data)?;
        Ok(Descriptor { shared })
    }

    /// The bytes.
    pub fn bytes(&self) -> &[u8]
        ensures { result.now ≡ self.now }
    {
        self.shared.bytes()
    }
}

impl Clone for Descriptor {
    ghost is_clone = { λ old copy. copy ≡ old };

    fn clone(&self) -> Result<Descriptor, AllocError>
        ensures { IfOk result (λ copy. copy ≡ self.now) }
    {
        let shared = self.shared.clone()?;
        Ok(Descriptor { shared })
    }
}
