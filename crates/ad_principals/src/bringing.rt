//! What an identifier brings, taken to a set.

ghost use Rattle.std.specs.Prelude.{OnOk};
ghost use Rattle.ad_principals.specs.Groups.{Brings};
ghost use Rattle.ad_principals.specs.Membership.{AreMembersOf};
ghost use Rattle.ad_principals.specs.Reaching.{Takes, IsOfObject};

use crate::history::take_history;
use crate::members::Members;
use crate::taking::take_groups;
use ad_dir::Dir;
use ad_ids::Sid;
use indexmap::IndexSet;
use std::alloc::AllocError;

// Takes the groups that the identifier of an object is in, and the identifiers that it had before.
fn take_of(
    taken: &mut IndexSet<Sid>,
    dir: &Dir,
    members: &Members,
    number: u32,
) -> Result<(), AllocError>
    ensures { OnOk result (Takes (IsOfObject dir.now members.now number) taken.old.keys
        taken.new.keys) }
{
    take_groups(taken, dir, members.groups_of(number))?;
    take_history(taken, dir, number)
}

/// Takes what an identifier brings: the groups that it is in, and the identifiers that its object had before.
pub(crate) fn take_brought(
    taken: &mut IndexSet<Sid>,
    dir: &Dir,
    members: &Members,
    sid: &Sid,
) -> Result<(), AllocError>
    requires { AreMembersOf dir.now members.now }
    ensures { OnOk result (Takes (Brings dir.now sid.now) taken.old.keys taken.new.keys) }
{
    dir.invariants();
    match dir.with_sid(sid) {
        Some(number) => take_of(taken, dir, members, number),
        None => Ok(()),
    }
}
