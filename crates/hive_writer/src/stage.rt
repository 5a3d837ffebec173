//! How far a flush or a repair is.

/// Whose pages are written.
#[derive(Clone, Copy)]
pub enum Purpose {
    /// The pages of an image that is newer than the primary file.
    Flush,
    /// The pages of a log, into a primary file that isn't clean.
    Repair,
}

/// What the last call that was done has done.
#[derive(Clone, Copy)]
pub enum FlushStage {
    /// Nothing is on its way: the primary file is clean.
    AtRest,
    /// This many chunks of the log are written.
    WritingLog(u32),
    /// The log is synced.
    LogSynced,
    /// The first sector with the raised primary number is written.
    PrimaryMarkedDirty,
    /// It is synced, and each dirty page before this one is written.
    WritingPages(Purpose, usize),
    /// The pages are synced, or the log in a flush that changes none.
    PagesSynced(Purpose),
    /// The last first sector is written.
    HeaderWritten(Purpose),
}
