//! What is wrong with a registration file.
ghost use Rattle.std.specs.Prelude.{◌≡◌, Some};
ghost use Rattle.reg_file.specs.Faults.{fault_name, fault_text};

use std::fmt;

/// What is wrong with a line of a registration file.
#[derive(Clone, Copy, Debug, PartialEq, Eq)]
pub enum FaultKind {
    /// The first line is no header.
    NoHeader,
    /// A line of the statement isn't well formed in the file's encoding.
    NotText,
    /// No statement, remark or empty line begins here.
    NotUnderstood,
    /// A value where no key is current.
    NoKey,
    /// The statement has more than 4,194,304 units.
    TooLarge,
}

/// The first fault of a registration file.
#[derive(Clone, Copy, Debug, PartialEq, Eq)]
pub struct Fault {
    /// The number of the first line of what is wrong; the file's first line is 1.
    pub line: u64,
    /// What is wrong.
    pub kind: FaultKind,
}

impl FaultKind {
    // the kind, as it is printed
    fn text(self) -> &'static str
        ensures { result.now ≡ fault_name self }
    {
        match self {
            FaultKind::NoHeader => "no header",
            FaultKind::NotText => "not text",
            FaultKind::NotUnderstood => "not understood",
            FaultKind::NoKey => "no key",
            FaultKind::TooLarge => "E6 TooLarge",
        }
    }
}

impl fmt::Display for Fault {
    ghost output = { λ fault. Some (fault_text fault) };

    fn fmt<W: fmt::Write>(&self, f: &mut fmt::Formatter<W>) -> fmt::Result {
        let line = self.line;
        let text = self.kind.text();
        write!(f, "line {line}: {text}")
    }
}
