//! Whom protection spreads to, by a work list: a set in which each object stands once, in the order in which they are
//! taken.

ghost use Rattle.std.specs.Prelude.{◌≡◌, ◌&&◌, true, [], IfOk, OnOk};
ghost use Rattle.ad_dir_model.specs.Objects.{object_at, is_live};
ghost use Rattle.ad_dir_model.specs.Objects.{numbers as numbers_of};
ghost use Rattle.ad_dir_model.specs.Identity.{self_sid};
ghost use Rattle.ad_dir_model.specs.Settings.{taken_out};
ghost use Rattle.ad_dir_model.specs.Soundness.{IsSound};
ghost use Rattle.ad_dir_model.specs.Protection.{has, has_as_member, has_as_primary, begins_protection};
ghost use Rattle.ad_protect.specs.Spreading.{is_in_group, listed, IsTableOf, Takes, IsLeast};

use crate::primary::{Table, numbers_at, table_of};
use crate::seeds::{begins, domain_number};
use crate::taking::{take_all, take_if, take_links};
use ad_dir::{Dir, live_object, stored_of};
use ad_schema::RuleAttr;
use indexmap::IndexSet;
use std::alloc::{AllocError, Global};

// The objects at which protection begins, where these groups are taken out.
fn begun(alloc: Global, dir: &Dir, out: u8, numbers: &[u32]) -> Result<IndexSet<u32>, AllocError>
    requires { out ≡ taken_out dir.now }
    ensures { IfOk result (λ set. Takes
        (λ n. has numbers.now n && begins_protection dir.now (self_sid dir.now n))
        [] set.keys) }
{
    let mut taken = IndexSet::new(alloc);
    for number in numbers {
        take_if(begins(dir, out, *number), &mut taken, *number)?;
    }
    Ok(taken)
}

// Takes the objects that the group's member names.
#[tactic(auto, unfolding(ad_dir_model::specs::Attributes::rule_place))]
fn take_members(dir: &Dir, group: u32, taken: &mut IndexSet<u32>) -> Result<(), AllocError>
    requires { is_live dir.now.objects group ≡ true }
    ensures { OnOk result (Takes (has_as_member dir.now (object_at dir.now.objects group))
        taken.old.keys taken.new.keys) }
{
    match dir.schema().attr_of_rule(RuleAttr::Member) {
        Some(attr) => take_links(
            taken,
            stored_of(live_object(dir, group).values.as_slice(), attr),
        ),
        None => Ok(()),
    }
}

// Takes the objects whose primary group it is.
fn take_primary(
    dir: &Dir,
    table: &Table,
    group: u32,
    taken: &mut IndexSet<u32>,
) -> Result<(), AllocError>
    requires { IsTableOf dir.now (numbers_of dir.now.objects) (listed table.now) }
    ensures { OnOk result (Takes (λ n. is_live dir.now.objects n
        && has_as_primary dir.now (object_at dir.now.objects n) (object_at dir.now.objects group))
        taken.old.keys taken.new.keys) }
{
    match domain_number(dir, group) {
        Some(rid) => take_all(taken, numbers_at(table, u64::from(rid))),
        None => Ok(()),
    }
}

// Takes the objects that have the group.
fn take_group(
    dir: &Dir,
    table: &Table,
    group: u32,
    taken: &mut IndexSet<u32>,
) -> Result<(), AllocError>
    requires sound { IsSound dir.now }
    requires live { is_live dir.now.objects group ≡ true }
    requires table { IsTableOf dir.now (numbers_of dir.now.objects) (listed table.now) }
    ensures { OnOk result (Takes (is_in_group dir.now group) taken.old.keys taken.new.keys) }
{
    take_members(dir, group, taken)?;
    take_primary(dir, table, group, taken)
}

/// The objects to which protection spreads.
pub(crate) fn spread(alloc: Global, dir: &Dir, numbers: &[u32]) -> Result<IndexSet<u32>, AllocError>
    requires sound { IsSound dir.now }
    requires all { numbers.now ≡ numbers_of dir.now.objects }
    ensures { IfOk result (λ set. IsLeast dir.now set.keys) }
{
    let table = table_of(alloc, dir, numbers)?;
    let mut taken = begun(alloc, dir, dir.taken_out(), numbers)?;
    let mut done = 0;
    'groups: while done < taken.len() {
        let group = taken.as_slice()[done];
        take_group(dir, &table, group, &mut taken)?;
        done += 1;
    }
    Ok(taken)
}
