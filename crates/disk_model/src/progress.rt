//! How far work of several device calls has come.

/// What a step of something that takes several device calls has come to.
#[derive(Clone, Copy, Debug, PartialEq, Eq)]
pub enum Progress {
    /// There was nothing to do, and no device call was made.
    Idle,
    /// One device call was made, and more are needed.
    More,
    /// The last device call was made: what was on its way is durable.
    Done,
}
