//! How a command ends where no store was opened or made.

ghost use Rattle.std.specs.Prelude.{◌++◌};
ghost use Rattle.cmd_call.specs.Store.{SaysUnless};
ghost use Rattle.cmd_call.specs.declared.outcome.Outcome.TheVariants.{NoStore};
ghost use Rattle.cmd_store_open.specs.Lines.{store_line};
ghost use Rattle.cmd_store_open.specs.Refused.{Refused, RefusedAs};

use crate::store_lines::line_of;
use ad_engine_store::OpenFault;
use cmd_call::{Outcome, say};
use site_io::Site;
use std::alloc::{AllocError, Global};

// Emits the line of a fault after a word.
fn say_fault<S: Site>(alloc: Global, site: &mut S, which: &str, fault: OpenFault) -> Outcome
    ensures { SaysUnless S.Site site.old site.new (which.now ++ store_line fault) NoStore result }
{
    match line_of(alloc, which, fault) {
        Ok(line) => say(site, &line, Outcome::NoStore),
        Err(AllocError) => Outcome::NoMemory,
    }
}

/// Ends where one of several stores was not opened: with a line that begins with a word for it, where its slots
/// represent no directory.
pub fn refuse_as<S: Site>(alloc: Global, site: &mut S, which: &str, fault: OpenFault) -> Outcome
    ensures { RefusedAs S.Site which.now site.old site.new fault result }
{
    match fault {
        OpenFault::Site => Outcome::SiteFailed,
        OpenFault::Memory => Outcome::NoMemory,
        OpenFault::Taken => say_fault(alloc, site, which, OpenFault::Taken),
        OpenFault::Empty => say_fault(alloc, site, which, OpenFault::Empty),
        OpenFault::Broken => say_fault(alloc, site, which, OpenFault::Broken),
        OpenFault::Row(kind, number) => {
            say_fault(alloc, site, which, OpenFault::Row(kind, number))
        }
        OpenFault::Unsound(number) => say_fault(alloc, site, which, OpenFault::Unsound(number)),
    }
}

/// Ends where no store was opened or made: with a line, where the slots represent no directory or aren't empty.
pub fn refuse<S: Site>(alloc: Global, site: &mut S, fault: OpenFault) -> Outcome
    ensures { Refused S.Site site.old site.new fault result }
{
    refuse_as(alloc, site, "", fault)
}
