//! How a change ended, as it was told.

use refusals::Refusal;
use reply_lines::Status;

/// How a change ended.
#[derive(Clone, Copy, Debug, PartialEq, Eq)]
pub struct ChangeResult {
    /// The status with which a command ends that printed it.
    pub status: Status,
    /// Why the change is refused, if it is.
    pub refusal: Option<Refusal>,
}
