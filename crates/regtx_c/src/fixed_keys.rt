//! Keys that may not be deleted, looked for key by key.

use key_walk::{KeyPath, KeySink};
use reg_tree::NOT_DELETABLE;
use reg_tree_parts::Key;
use std::convert::Infallible;

/// Whether a key that may not be deleted was met.
#[derive(Clone, Copy)]
pub(crate) struct FixedKeys {
    pub(crate) are_met: bool,
}

impl FixedKeys {
    ghost use Rattle.std.specs.Prelude.{◌≡◌, false};

    /// None was met yet.
    pub(crate) fn new() -> FixedKeys
        ensures { result.are_met ≡ false }
    {
        FixedKeys { are_met: false }
    }
}

impl KeySink for FixedKeys {
    ghost use Rattle.regtx_c.specs.FixedKeyLaws.{meets_more, meets_none};
    ghost use Rattle.regtx_c.specs.FixedKeys.{MeetsFixed};

    ghost Took = { λ old new keys. MeetsFixed old new keys };

    type Error = Infallible;

    /// Looks at a key.
    fn take(&mut self, _path: &KeyPath<'_>, key: &Key) -> Result<(), Infallible> {
        if key.flags() & NOT_DELETABLE != 0 {
            self.are_met = true;
        }
        Ok(())
    }

    ghost took_none = { λ found. meets_none found };

    ghost took_more = { λ before between after front rest one two.
        meets_more before between after front rest one two };
}
