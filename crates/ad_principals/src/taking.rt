//! A set to which identifiers are taken, each once, in the order in which they come.

ghost use Rattle.std.specs.Prelude.{◌≡◌, true, Some, OnOk};
ghost use Rattle.ad_ids.specs.SidValue.{same_sid, contains_sid};
ghost use Rattle.ad_dir_model.specs.Identity.{self_sid};
ghost use Rattle.ad_principals.specs.Reaching.{Takes, IsOfOne};

use ad_dir::Dir;
use ad_ids::Sid;
use indexmap::IndexSet;
use std::alloc::AllocError;

/// Takes an identifier, where it wasn't taken before.
pub(crate) fn take(taken: &mut IndexSet<Sid>, sid: Sid) -> Result<(), AllocError>
    ensures { OnOk result (Takes (λ s. same_sid sid s ≡ true) taken.old.keys taken.new.keys) }
{
    taken.insert(sid)?;
    Ok(())
}

/// Takes all of these.
pub(crate) fn take_all(taken: &mut IndexSet<Sid>, sids: &[Sid]) -> Result<(), AllocError>
    ensures { OnOk result (Takes (λ s. contains_sid sids.now s ≡ true) taken.old.keys
        taken.new.keys) }
{
    for sid in sids {
        take(taken, *sid)?;
    }
    Ok(())
}

// Takes the identifier of an object, if it has one.
fn take_group(taken: &mut IndexSet<Sid>, dir: &Dir, group: u32) -> Result<(), AllocError>
    ensures { OnOk result (Takes (λ s. self_sid dir.now group ≡ Some s) taken.old.keys
        taken.new.keys) }
{
    match dir.self_sid(group) {
        Some(sid) => take(taken, *sid),
        None => Ok(()),
    }
}

/// Takes the identifiers of these objects.
pub(crate) fn take_groups(
    taken: &mut IndexSet<Sid>,
    dir: &Dir,
    groups: &[u32],
) -> Result<(), AllocError>
    ensures { OnOk result (Takes (IsOfOne dir.now groups.now) taken.old.keys taken.new.keys) }
{
    for group in groups {
        take_group(taken, dir, *group)?;
    }
    Ok(())
}
