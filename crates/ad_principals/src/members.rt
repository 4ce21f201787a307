//! The groups of each object, in one table.

ghost use Rattle.std.specs.Prelude.{◌≡◌, ◌==◌, ◌&&◌, ℕ, true, Some, map, IfOk, OnOk};
ghost use Rattle.std.specs.List.{AllByRecursion};
ghost use Rattle.ad_dir_objects.specs.Seen.{stored_seen};
ghost use Rattle.ad_dir_model.specs.Object.{is_link_to, names};
ghost use Rattle.ad_dir_model.specs.Objects.{is_live};
ghost use Rattle.ad_dir_model.specs.Attributes.{member};
ghost use Rattle.ad_principals.specs.Groups.{has_member};
ghost use Rattle.ad_principals.specs.Membership.{listed, is_group, is_group_of, Gains, IsTableOf, AreMembersOf};

use crate::enabled::is_security_enabled;
use ad_dir::{Dir, Stored, live_object, stored_of};
use ad_schema::{AttrId, RuleAttr};
use indexmap::IndexMap;
use std::alloc::{AllocError, Global};

/// Which groups name each object of a directory as a member: those with an identifier that count for access. Made
/// once, it serves the tokens of all principals.
#[derive(Drop)]
pub struct Members {
    groups: IndexMap<u32, Vec<u32>>,
}

type Table = IndexMap<u32, Vec<u32>>;

// Puts a group at the end of those of a member.
fn note(alloc: Global, table: &mut Table, member: u32, group: u32) -> Result<(), AllocError>
    ensures { OnOk result (Gains (λ m g. member == m && group == g)
        (listed table.old) (listed table.new)) }
{
    if let Some(groups) = table.get_mut(&member) {
        groups.push(group)?;
        return Ok(());
    }
    let mut groups = Vec::new(alloc);
    groups.push(group)?;
    table.insert(member, groups)?;
    Ok(())
}

// The same of the object that a value names.
fn note_linked(
    alloc: Global,
    table: &mut Table,
    value: &Stored,
    group: u32,
) -> Result<(), AllocError>
    ensures { OnOk result (Gains (λ m g. is_link_to m (stored_seen value.now) && group == g)
        (listed table.old) (listed table.new)) }
{
    match value {
        Stored::Link(member) => note(alloc, table, *member, group),
        Stored::Plain(_) => Ok(()),
    }
}

// The same of all objects that values name.
fn note_links(
    alloc: Global,
    table: &mut Table,
    values: &[Stored],
    group: u32,
) -> Result<(), AllocError>
    ensures { OnOk result (Gains (λ m g. names m (map stored_seen values.now) && group == g)
        (listed table.old) (listed table.new)) }
{
    for value in values {
        note_linked(alloc, table, value, group)?;
    }
    Ok(())
}

// The values of member of a live object.
fn links_of(dir: &Dir, attr: AttrId, group: u32) -> &[Stored]
    requires live { is_live dir.now.objects group ≡ true }
    requires attr { member dir.now.schema ≡ Some attr.0 }
    ensures { (m : ℕ) → names m (map stored_seen result.now) ≡ has_member dir.entry.now group m }
{
    stored_of(live_object(dir, group).values.as_slice(), attr)
}

fn is_group(dir: &Dir, group: u32) -> bool
    ensures { result ≡ is_group dir.now group }
{
    dir.self_sid(group).is_some() && is_security_enabled(dir, group)
}

// The same of the members of a live object, where it is a group with an identifier that counts for access.
fn note_group(
    alloc: Global,
    table: &mut Table,
    dir: &Dir,
    attr: AttrId,
    group: u32,
) -> Result<(), AllocError>
    requires live { is_live dir.now.objects group ≡ true }
    requires attr { member dir.now.schema ≡ Some attr.0 }
    ensures { OnOk result (Gains (λ m g. is_group_of dir.now m g && group == g)
        (listed table.old) (listed table.new)) }
{
    let links = links_of(dir, attr, group);
    if links.is_empty() {
        return Ok(());
    }
    if is_group(dir, group) {
        return note_links(alloc, table, links, group);
    }
    Ok(())
}

// The table of these live objects.
fn table_of(alloc: Global, dir: &Dir, attr: AttrId, numbers: &[u32]) -> Result<Table, AllocError>
    requires live { AllByRecursion (λ number. is_live dir.now.objects number ≡ true) numbers.now }
    requires attr { member dir.now.schema ≡ Some attr.0 }
    ensures { IfOk result (IsTableOf dir.now numbers.now) }
{
    let mut table = IndexMap::new(alloc);
    for number in numbers {
        note_group(alloc, &mut table, dir, attr, *number)?;
    }
    Ok(table)
}

// The same, empty where the schema has no member.
#[tactic(auto, unfolding(ad_dir_model::specs::Attributes::rule_place))]
fn table_if(alloc: Global, dir: &Dir, numbers: &[u32]) -> Result<Table, AllocError>
    requires { AllByRecursion (λ number. is_live dir.now.objects number ≡ true) numbers.now }
    ensures { IfOk result (IsTableOf dir.now numbers.now) }
{
    match dir.schema().attr_of_rule(RuleAttr::Member) {
        Some(attr) => table_of(alloc, dir, attr, numbers),
        None => Ok(IndexMap::new(alloc)),
    }
}

impl Members {
    /// The members of the groups of a directory. The time is about linear in the objects with their values.
    ///
    /// # Errors
    ///
    /// Out of memory.
    pub fn of(alloc: Global, dir: &Dir) -> Result<Members, AllocError>
        ensures { IfOk result (AreMembersOf dir.now) }
    {
        let numbers = dir.numbers(alloc)?;
        let groups = table_if(alloc, dir, numbers.as_slice())?;
        Ok(Members { groups })
    }

    /// The groups that name an object.
    pub(crate) fn groups_of(&self, member: u32) -> &[u32]
        ensures { result.now ≡ listed self.now.groups member }
    {
        match self.groups.get(&member) {
            Some(groups) => groups.as_slice(),
            None => &[],
        }
    }
}
