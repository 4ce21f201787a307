//! How a command ends, and the status of the program for it.

ghost use Rattle.std.specs.Prelude.{◌≡◌};
ghost use Rattle.cmd_call.specs.Outcome.{status_of};
ghost use Rattle.cmd_call.specs.declared.outcome.Outcome.TheVariants.{NoMemory as OutOfMemory};

use std::alloc::AllocError;

/// How a command ended.
#[derive(Clone, Copy, Debug, PartialEq, Eq)]
pub enum Outcome {
    /// It was done, and its input was read to the end.
    Done,
    /// Its input isn't of the command's form.
    NotOfForm,
    /// The words aren't those of a command.
    NoCommand,
    /// The slots represent no directory, or for `load` aren't empty.
    NoStore,
    /// No object of the directory has the name.
    NoObject,
    /// As many frames were answered as may be, and more bytes are there.
    TooMany,
    /// The source failed.
    SourceFailed,
    /// The site failed.
    SiteFailed,
    /// Memory ran out.
    NoMemory,
}

impl From<AllocError> for Outcome {
    ghost from_gives = { λ _ e. e ≡ OutOfMemory };

    fn from(_: AllocError) -> Outcome {
        Outcome::NoMemory
    }
}

impl Outcome {
    /// The program's exit status for it.
    pub fn status(self) -> u8
        ensures { result ≡ status_of self }
    {
        match self {
            Outcome::Done => 0,
            Outcome::NotOfForm => 1,
            Outcome::NoCommand => 2,
            Outcome::NoStore | Outcome::NoObject => 3,
            Outcome::SourceFailed => 4,
            Outcome::SiteFailed => 5,
            Outcome::NoMemory => 6,
            Outcome::TooMany => 7,
        }
    }
}
