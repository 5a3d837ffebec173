//! What the words of the command line ask for.
ghost use Rattle.std.specs.Prelude.{◌≤◌, length};
ghost use Rattle.refusals.specs.declared.limits.TheConstants.{MOST_HIVES};

use crate::value_commands::{Reading, Writing};
use hive_recovery::RecoveryLimits;
use recovery_report::Wholeness;
use uuid::Uuid;

/// What the words of the command line ask for.
#[derive(Drop)]
pub enum Task<'a> {
    /// `play SCRIPT`: a script is to be played.
    Play {
        /// The path of the script.
        script: &'a str,
    },
    /// `lab SCRIPT`: a script is to be run in the laboratory.
    Lab {
        /// The path of the script.
        script: &'a str,
    },
    /// `sweep SCRIPT`: power cuts are to be swept over the run of a script.
    Sweep {
        /// The path of the script.
        script: &'a str,
    },
    /// `run DIR SCRIPT`: a script is to be run over a store.
    Run {
        /// The folder of the store.
        folder: &'a str,
        /// The path of the script.
        script: &'a str,
    },
    /// `serve DIR [BACKUPS]`: a store is to be served to the clients of a broker, who may have copies made in a folder.
    Serve {
        /// The folder of the store.
        folder: &'a str,
        /// The folder in which copies of it are made, if there is one.
        backups: Option<&'a str>,
    },
    /// `dump FILE`: a hive is to be printed.
    Dump {
        /// The path of the hive's file.
        file: &'a str,
    },
    /// `new DIR ID COUNT`: a store of empty hives is to be made.
    New {
        /// The folder of the store.
        folder: &'a str,
        /// The store's id.
        id: Uuid,
        /// How many hives it is to have.
        count: HiveCount,
    },
    /// `apply DIR FILE [PREFIX=HIVE ..] [[once] ID]`: a registration file is to be applied to a store.
    Apply {
        /// The folder of the store.
        folder: &'a str,
        /// The path of the registration file.
        file: &'a str,
        /// The words after it.
        words: Vec<&'a str>,
    },
    /// `apply-check DIR FILE [PREFIX=HIVE ..]`: the lines of a registration file that a store would refuse are to be told.
    ApplyCheck {
        /// The folder of the store.
        folder: &'a str,
        /// The path of the registration file.
        file: &'a str,
        /// The words after it.
        words: Vec<&'a str>,
    },
    /// `export SOURCE [HIVE:PATH] [PREFIX=HIVE ..]`, or in another form: keys and values are to be printed.
    Export {
        /// The folder of a store, or the path of a hive's file.
        source: &'a str,
        /// How they are printed.
        form: ExportForm,
        /// The words after it.
        words: Vec<&'a str>,
    },
    /// `salvage FILE [HIVE:PATH]`, or in another form: what is left of a damaged hive is to be printed.
    Salvage {
        /// The path of the hive's file.
        file: &'a str,
        /// How keys are printed.
        form: ExportForm,
        /// The words after it.
        words: Vec<&'a str>,
    },
    /// `get`, `get-raw` or `ls`: something is to be read of a store or of a hive's file.
    Read {
        /// The folder of a store, or the path of a hive's file.
        source: &'a str,
        /// What.
        reading: Reading<'a>,
    },
    /// `set`, `set-raw`, `create`, `del` or `del-tree`: something is to be changed in a store.
    Write {
        /// The folder of the store.
        folder: &'a str,
        /// What.
        writing: Writing<'a>,
    },
    /// `check SOURCE [LOG ..]`: a report is to be printed.
    Check {
        /// The folder of a store, or the path of a hive's file.
        source: &'a str,
        /// The paths of the hive's logs.
        logs: Vec<&'a str>,
    },
    /// `follow DIR N`: the changes of a store after a number are to be told.
    Follow {
        /// The folder of the store.
        folder: &'a str,
        /// The number.
        after: u64,
    },
    /// `recover HIVE LOG.. OUT`, `recover-from N ..`, `recover-to N ..`, `recover-damaged ..`: a hive that wasn't closed cleanly is
    /// to be recovered to a new file.
    Recover(RecoveryTask<'a>),
    /// `about`: what the program is.
    About,
    /// `usage [WORD]`: how a command is used, or each of them.
    Usage {
        /// The command's name.
        word: Option<&'a str>,
    },
    /// `import DIR ID FILE..`: a store of the hives in files is to be made.
    Import {
        /// The folder of the store.
        folder: &'a str,
        /// The store's id.
        id: Uuid,
        /// The paths of the hives' files.
        sources: Sources<'a>,
    },
    /// `upgrade OLD NEW`: a store with outcomes is to be made of a store without them.
    Upgrade {
        /// The folder of the store without them.
        source: &'a str,
        /// The folder of the store that is to be made.
        folder: &'a str,
    },
}

/// What a hive is to be recovered by, and to which file.
#[derive(Drop)]
pub struct RecoveryTask<'a> {
    /// The path of the hive's file.
    pub hive: &'a str,
    /// The paths of its logs, and that of the new file.
    pub paths: Vec<&'a str>,
    /// Which entries may be applied.
    pub limits: RecoveryLimits,
    /// Whether the new file has to be that of a whole hive.
    pub wholeness: Wholeness,
}

/// How many hives a store is to have, 1 to 16.
#[derive(Clone, Copy)]
pub struct HiveCount {
    /// The number.
    pub number: usize,
    ghost some: { 1 ≤ number },
    ghost few: { number ≤ MOST_HIVES },
}

/// The 1 to 16 files of the hives of a store that is to be made, in the order of the hives' numbers.
#[derive(Drop)]
pub struct Sources<'a> {
    /// The paths of their files.
    pub paths: Vec<&'a str>,
    ghost some: { 1 ≤ length paths.items },
    ghost few: { length paths.items ≤ MOST_HIVES },
}

/// How keys and values are printed.
#[derive(Clone, Copy, Debug, PartialEq, Eq)]
pub enum ExportForm {
    /// `export`: a registration file in UTF-16.
    Reg,
    /// `export-utf8`: a registration file in UTF-8.
    RegUtf8,
    /// `export-json`: lines of JSON.
    Json,
    /// `export-tsv`: lines of fields between tabs.
    Tsv,
}
