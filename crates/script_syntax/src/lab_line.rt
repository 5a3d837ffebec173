//! The lines that only a laboratory takes.

use crate::label::Label;

/// Which of what was written and not synced a loss of power leaves.
#[derive(Clone, Copy)]
pub enum CrashTear {
    /// `old`: nothing of it.
    Old,
    /// `new`: all of it.
    New,
    /// `torn`: all of it, but the last byte of each write, which is inverted.
    Torn,
}

/// A line that only a laboratory takes: a single step, a failure of the device to come, or a loss of power.
#[derive(Drop)]
pub enum LabLine {
    /// `accept T`: commits the transaction, without waiting until the change is durable.
    Accept {
        /// The transaction's label.
        label: Label,
    },
    /// `jstep`: one step of the journal.
    JournalStep,
    /// `fstep H`: one step of a hive's flush.
    FlusherStep {
        /// The hive's number.
        hive: u8,
    },
    /// `tstep`: one step of a trim of the journal.
    TrimStep,
    /// `fall H`: steps of a hive's flush until it is done, or has nothing to do.
    FlushWhole {
        /// The hive's number.
        hive: u8,
    },
    /// `stop K`: the device stops at a write, cut or sync.
    StopAt {
        /// Which of them from now on it is; at least 1.
        call: u64,
    },
    /// `fail K`: a call of the device fails, alone.
    FailAt {
        /// Which of all calls from now on it is; at least 1.
        call: u64,
    },
    /// `crash old`, `crash new` or `crash torn`: the power goes.
    Crash {
        /// What is left.
        tear: CrashTear,
    },
}
