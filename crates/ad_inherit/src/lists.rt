//! The entries of a list: the explicit ones, and those that are passed.

ghost use Rattle.std.specs.Prelude.{◌≡◌, ◌++◌, [], if◌then◌else◌, OnOk, IfOk};
ghost use Rattle.ad_sd.specs.View.{entries_left};
ghost use Rattle.ad_inherit.specs.Whole.{is_explicit, explicit_entries, passed, whole_list};

use crate::copies::{Heir, passes, put_copies};
use ad_acl::{Ace, Aces, INHERITED};
use ad_sd::{AceList, Entries};
use std::alloc::{AllocError, Global};

fn is_explicit(entry: &Ace) -> bool
    ensures { result ≡ is_explicit entry.now }
{
    entry.flags & INHERITED == 0
}

/// The explicit entries of a view's list.
pub(crate) fn explicit_of_view(alloc: Global, entries: Entries<'_>) -> Result<Aces, AllocError>
    ensures { IfOk result (λ aces. aces ≡ explicit_entries (entries_left entries.entry)) }
{
    let mut aces = Aces::new(alloc);
    for ace in entries {
        if is_explicit(&ace) {
            aces.push(ace)?;
        }
    }
    Ok(aces)
}

/// The explicit ones of the entries.
pub(crate) fn explicit_of(alloc: Global, entries: &[Ace]) -> Result<Aces, AllocError>
    ensures { IfOk result (λ aces. aces ≡ explicit_entries entries.now) }
{
    let mut aces = Aces::new(alloc);
    for ace in entries {
        if is_explicit(ace) {
            aces.push(*ace)?;
        }
    }
    Ok(aces)
}

/// Puts what the parent's entries pass down at the end of the list.
fn put_passed(aces: &mut Aces, parent: Entries<'_>, heir: &Heir) -> Result<(), AllocError>
    ensures { OnOk result (aces.new ≡ aces.old ++ passed (entries_left parent.entry) heir.now.class
        heir.now.owner heir.now.group) }
{
    for ace in parent {
        if passes(&ace) {
            put_copies(aces, &ace, heir)?;
        }
    }
    Ok(())
}

/// The list of these explicit entries and, unless it is protected, of what the parent's entries pass down.
pub(crate) fn whole_list(
    mut explicit: Aces,
    protected: bool,
    parent: Entries<'_>,
    heir: &Heir,
) -> Result<AceList, AllocError>
    ensures { IfOk result (λ list. list ≡ record {
      protected = protected;
      entries = explicit ++ (if protected then [] else passed
          (entries_left parent.entry) heir.now.class heir.now.owner heir.now.group);
    }) }
{
    if !protected {
        put_passed(&mut explicit, parent, heir)?;
    }
    Ok(AceList {
        protected,
        entries: explicit,
    })
}
