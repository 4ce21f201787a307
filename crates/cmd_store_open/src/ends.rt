//! How a command that reads frames ends.

ghost use Rattle.std.specs.Prelude.{◌≡◌};
ghost use Rattle.cmd_store_open.specs.Ends.{outcome_of_open, of_frame, IsEnd};

use ad_engine_store::OpenFault;
use ad_frames::FrameFault;
use cmd_call::Outcome;
use site_io::{Failed, Source};

/// The most frames that are answered.
pub const MAX_FRAMES: u32 = 1_000_000;

/// How a command that answers frames ends where no store is opened.
pub fn outcome_of_open(fault: OpenFault) -> Outcome
    ensures { result ≡ outcome_of_open fault }
{
    match fault {
        OpenFault::Taken => Outcome::NoStore,
        OpenFault::Empty => Outcome::NoStore,
        OpenFault::Broken => Outcome::NoStore,
        OpenFault::Row(_, _) => Outcome::NoStore,
        OpenFault::Unsound(_) => Outcome::NoStore,
        OpenFault::Site => Outcome::SiteFailed,
        OpenFault::Memory => Outcome::NoMemory,
    }
}

/// How it ends where there is no next frame.
pub fn of_frame(fault: FrameFault) -> Outcome
    ensures { result ≡ of_frame fault }
{
    match fault {
        FrameFault::Kind(_) => Outcome::NotOfForm,
        FrameFault::Connection(_) => Outcome::NotOfForm,
        FrameFault::Length(_) => Outcome::NotOfForm,
        FrameFault::Steps(_) => Outcome::NotOfForm,
        FrameFault::Token(_) => Outcome::NotOfForm,
        FrameFault::Truncated => Outcome::NotOfForm,
        FrameFault::Source => Outcome::SourceFailed,
        FrameFault::Memory => Outcome::NoMemory,
    }
}

/// How it ends after the last frame that may be.
pub fn at_last<I: Source>(source: &mut I) -> Outcome
    ensures { IsEnd (I.rest source.old) (I.rest source.new) (I.faults source.old)
        (I.faults source.new) result }
{
    let mut byte = [0u8; 1];
    match source.take(&mut byte[..]) {
        Ok(0) => Outcome::Done,
        Ok(_) => Outcome::TooMany,
        Err(Failed) => Outcome::SourceFailed,
    }
}
