//! What a map lists.
ghost use Rattle.std.specs.Prelude.{◌≡◌, ℕ, List, min, IfOk};
ghost use Rattle.reg_names.specs.Names.{folded};

use reg_names::Name;
use std::alloc::{AllocError, Global};
use std::sync::Arc;

/// What a map lists: it has a name and a weight.
pub trait MapEntry: Drop {
    ghost key: { Self → List ℕ };

    ghost entry_weight: { Self → ℕ };

    ghost over: { Self → Self → Self };

    /// The name.
    fn name(&self) -> &Name
        ensures { folded result.now ≡ key self.now };

    /// The weight, or the greatest number of 64 bits if it is more.
    fn weight(&self) -> u64
        ensures { result ≡ min (entry_weight self.now) u64.MAX };

    /// What replaces it once another of its name is put there.
    fn replaced_by(&self, alloc: Global, new: Arc<Self>) -> Result<Arc<Self>, AllocError>
        requires { key new.value ≡ key self.now }
        ensures over { IfOk result (λ made. made.value ≡ over self.now new.value) }
        ensures named { IfOk result (λ made. key made.value ≡ key self.now) };
}
