//! The stages of work, and what they are called.
ghost use Rattle.std.specs.Prelude.{◌≡◌};
ghost use Rattle.progress_line.specs.Codes.{code_of};
ghost use Rattle.progress_line.specs.declared.work_stage.Work.{Work as AnyWork};

/// Work that a line can show.
#[derive(Clone, Copy, Debug, PartialEq, Eq)]
pub enum Work {
    /// A script is played.
    Play,
    /// A script is run in the laboratory.
    Lab,
    /// Power cuts are swept over the run of a script.
    Sweep,
    /// A store is opened.
    Opening,
    /// A script is run over a store.
    Run,
    /// A store is made of the hives of files.
    Import,
}

impl Work {
    /// Its code, by which threads share it.
    pub(crate) fn code(self) -> u8
        ensures { result ≡ code_of self }
    {
        match self {
            Work::Play => 0,
            Work::Lab => 1,
            Work::Sweep => 2,
            Work::Opening => 3,
            Work::Run => 4,
            Work::Import => 5,
        }
    }

    /// The work of a code.
    pub(crate) fn of_code(code: u8) -> Work
        ensures { (work : AnyWork) → code ≡ code_of work → result ≡ work }
    {
        match code {
            0 => Work::Play,
            1 => Work::Lab,
            2 => Work::Sweep,
            3 => Work::Opening,
            4 => Work::Run,
            _ => Work::Import,
        }
    }

    /// What the line calls it.
    pub(crate) fn word(self) -> &'static str {
        match self {
            Work::Play => "play",
            Work::Lab => "lab",
            Work::Sweep => "sweep",
            Work::Opening => "opening",
            Work::Run => "run",
            Work::Import => "import",
        }
    }
}

/// One stage of work.
#[derive(Clone, Copy, Debug, PartialEq, Eq)]
pub struct WorkStage {
    /// What is done.
    pub work: Work,
    /// How much there is of it, in any unit. If that isn't known no line shows it.
    pub whole: Option<u64>,
}
