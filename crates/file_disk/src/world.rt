//! What is supposed of the files of a folder.
ghost use Rattle.file_disk.specs.Records.{Seen};

/// What the files of a folder hold as it is opened, and what they show after calls that fail. No code can read it: what
/// is proved of code over any world is proved whatever the files hold.
pub trait World: Drop {
    ghost seen: { Seen };
}

/// A world for a program to name, in which all files are empty at first. A store that exists has other files, so nothing
/// that is proved over this world alone says anything of it. What is proved over any world holds of the files that are
/// there; the crate's page says why the program may rest on that.
#[derive(Drop)]
pub struct Unknown;

impl World for Unknown {
    ghost use Rattle.std.specs.Prelude.{[]};

    ghost seen = { record { first = λ f. []; torn = λ k. [] } };
}
