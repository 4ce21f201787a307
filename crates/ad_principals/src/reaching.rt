//! The least set of groups, by a work list.

ghost use Rattle.std.specs.Prelude.{◌≡◌, ◌≤◌, ◌+◌, true, length, IfOk};
ghost use Rattle.ad_ids.specs.SidValue.{SidValue, contains_sid};
ghost use Rattle.ad_principals.specs.Groups.{IsReached, IsLeast};
ghost use Rattle.ad_principals.specs.Membership.{AreMembersOf};
ghost use Rattle.ad_principals.specs.Tokens.{max_groups};

use crate::bringing::take_brought;
use crate::members::Members;
use crate::taking::take_all;
use crate::token::MAX_GROUPS;
use ad_dir::Dir;
use ad_ids::Sid;
use indexmap::IndexSet;
use std::alloc::{AllocError, Global};

// The most groups of a token, and the user.
const MAX_SET: usize = MAX_GROUPS + 1;

/// The least set of the groups of a user with these first groups, where it has 1,025 identifiers at most; else some
/// of it, and more than so many.
pub(crate) fn reached(
    alloc: Global,
    dir: &Dir,
    members: &Members,
    user: &Sid,
    first: &[Sid],
) -> Result<IndexSet<Sid>, AllocError>
    requires { AreMembersOf dir.now members.now }
    ensures each { IfOk result (λ set. (sid : SidValue) → contains_sid set.keys sid ≡ true
        → IsReached dir.now user.now first.now sid) }
    ensures least { IfOk result (λ set. length set.keys ≤ max_groups + 1
        → IsLeast dir.now user.now first.now set.keys) }
{
    let mut set = IndexSet::with_capacity(alloc, 12)?;
    take_all(&mut set, first)?;
    take_brought(&mut set, dir, members, user)?;
    let mut done = 0;
    'groups: while done < set.len() && set.len() <= MAX_SET {
        let sid = set.as_slice()[done];
        take_brought(&mut set, dir, members, &sid)?;
        done += 1;
    }
    Ok(set)
}
