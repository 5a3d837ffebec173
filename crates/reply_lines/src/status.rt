//! How a run of the program went.
ghost use Rattle.std.specs.Prelude.{◌≡◌};
ghost use Rattle.reply_lines.specs.Statuses.{code_of, with_refusal};

/// How a run went.
#[derive(Clone, Copy, Debug, PartialEq, Eq)]
pub enum Status {
    /// Nothing that was printed is a refusal: 0.
    Clean,
    /// A refusal was printed, or the input could not be read on: 1.
    Refused,
    /// A line was not understood: 2.
    Wrong,
}

impl Status {
    /// The status of a run whose status is `self` from some reply on. `has_refusal` says whether a reply before that
    /// was a refusal.
    pub fn after(self, has_refusal: bool) -> Status
        ensures { result ≡ with_refusal has_refusal self }
    {
        match self {
            Status::Clean if has_refusal => Status::Refused,
            status => status,
        }
    }

    /// The number with which the program ends.
    pub fn code(self) -> u8
        ensures { result ≡ code_of self }
    {
        match self {
            Status::Clean => 0,
            Status::Refused => 1,
            Status::Wrong => 2,
        }
    }
}
