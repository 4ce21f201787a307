//! What commands do with a site: a look at its slots, and a text to its output.

ghost use Rattle.std.specs.Prelude.{IfOk, IfSome, IsErr};
ghost use Rattle.site_io.specs.Counts.{HasRisen};
ghost use Rattle.site_io.specs.Outside.{OnlyLooks};
ghost use Rattle.cmd_call.specs.Store.{Says, SeesEmpty};

use crate::outcome::Outcome;
use site_io::{Failed, Site, Slot};

/// Whether both slots are empty.
///
/// # Errors
///
/// `Failed` where the site failed, which its count tells.
pub fn are_empty<S: Site>(site: &mut S) -> Result<bool, Failed>
    ensures empty { IfOk result (λ empty. IfSome (S.reads site.old) (SeesEmpty empty)) }
    ensures outside { OnlyLooks S.Site site.old site.new }
    ensures cause { IsErr result → HasRisen (S.slot_faults site.old) (S.slot_faults site.new) }
{
    let a = site.length(Slot::A)?;
    let b = site.length(Slot::B)?;
    Ok(a == 0 && b == 0)
}

/// Emits a text, and gives the outcome, or that the site failed.
pub fn say<S: Site>(site: &mut S, text: &[u8], then: Outcome) -> Outcome
    ensures { Says S.Site site.old site.new text.now then result }
{
    match site.emit(text) {
        Ok(()) => then,
        Err(Failed) => Outcome::SiteFailed,
    }
}
