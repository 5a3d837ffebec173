//! A sink that keeps nothing, for a journal of which it only matters whether it is one.

use change_codec::EncodedChange;
use commit_journal::ElementSink;
use refusals::Refusal;

/// Drops each change.
#[derive(Drop)]
pub(crate) struct Discard;

impl ElementSink for Discard {
    ghost Took = { λ before after changes. Unit {0} };

    ghost Denies = { λ sink change why. ⊥ };

    fn take(&mut self, _number: u64, _change: EncodedChange) -> Result<(), Refusal> {
        Ok(())
    }

    ghost took_none = { λ sink. tt };

    ghost took_more = { λ before between after front rest one two. tt };
}
