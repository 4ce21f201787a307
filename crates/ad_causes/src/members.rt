//! Memberships that one directory has and the other hasn't.

ghost use Rattle.std.specs.Prelude.{◌≡◌, ◌++◌, ◌∷◌, [], ◌==◌, ◌||◌, ℕ, true, All, map, nat_eq, if◌then◌else◌, IfOk, OnOk};
ghost use Rattle.std.specs.List.{flat_map};
ghost use Rattle.indexmap.specs.IndexSet.{contains};
ghost use Rattle.ad_dir_objects.specs.Seen.{stored_seen};
ghost use Rattle.ad_dir_model.specs.Objects.{is_live};
ghost use Rattle.ad_causes.specs.Cause.{causes_text};
ghost use Rattle.ad_causes.specs.Members.{member_values, member_in, members_of, members_there, is_there, membership_causes};
ghost use Rattle.ad_causes.specs.Steps.{IsSetOf, member_text, group_text};

use crate::pieces::{divided, name_of, put_signed};
use ad_both::counterpart;
use ad_dir::{Dir, Stored, live_object, stored_of};
use ad_schema::RuleAttr;
use indexmap::IndexSet;
use std::alloc::{AllocError, Global};

// ---- in one directory

#[tactic(auto, unfolding(crate::specs::Members::member_values, ad_dir_model::specs::Attributes::rule_place))]
fn member_values(dir: &Dir, number: u32) -> &[Stored]
    requires { is_live dir.now.objects number ≡ true }
    ensures { map stored_seen result.now ≡ member_values dir.entry.now number }
{
    match dir.schema().attr_of_rule(RuleAttr::Member) {
        Some(attr) => stored_of(live_object(dir, number).values.as_slice(), attr),
        None => &[],
    }
}

fn push_live(dir: &Dir, into: &mut Vec<u32>, number: u32) -> Result<(), AllocError>
    ensures { OnOk result (into.new.items
        ≡ into.old.items ++ (if is_live dir.now.objects number then number ∷ [] else [])) }
{
    if dir.is_live(number) {
        into.push(number)?;
    }
    Ok(())
}

fn push_member(dir: &Dir, into: &mut Vec<u32>, value: &Stored) -> Result<(), AllocError>
    ensures { OnOk result (into.new.items
        ≡ into.old.items ++ member_in dir.now (stored_seen value.now)) }
{
    match value {
        Stored::Link(number) => push_live(dir, into, *number),
        Stored::Plain(_) => Ok(()),
    }
}

fn members_among(alloc: Global, dir: &Dir, values: &[Stored]) -> Result<Vec<u32>, AllocError>
    ensures { IfOk result (λ all. all.items
        ≡ flat_map (member_in dir.now) (map stored_seen values.now)) }
{
    let mut all = Vec::new(alloc);
    for value in values {
        push_member(dir, &mut all, value)?;
    }
    Ok(all)
}

#[tactic(auto, unfolding(crate::specs::Members::members_of))]
fn members_of(alloc: Global, dir: &Dir, number: u32) -> Result<Vec<u32>, AllocError>
    requires { is_live dir.now.objects number ≡ true }
    ensures { IfOk result (λ all. all.items ≡ members_of dir.now number) }
{
    members_among(alloc, dir, member_values(dir, number))
}

// ---- in two

// Those that the other directory's object of the same name has.
#[tactic(auto, unfolding(crate::specs::Members::members_there))]
fn members_there(alloc: Global, dir: &Dir, other: &Dir, group: u32) -> Result<Vec<u32>, AllocError>
    requires { is_live dir.now.objects group ≡ true }
    ensures { IfOk result (λ all. all.items ≡ members_there dir.now other.now group) }
{
    let found = counterpart(alloc, dir, other, group)?;
    match found {
        Some(there) => members_of(alloc, other, there),
        None => Ok(Vec::new(alloc)),
    }
}

fn enter(set: &mut IndexSet<u32>, number: u32) -> Result<(), AllocError>
    ensures { OnOk result ((n : ℕ) → contains nat_eq set.new n
        ≡ (contains nat_eq set.old n || number == n)) }
{
    set.insert(number)?;
    Ok(())
}

fn set_of(alloc: Global, numbers: &[u32]) -> Result<IndexSet<u32>, AllocError>
    ensures { IfOk result (IsSetOf numbers.now) }
{
    let mut set = IndexSet::new(alloc);
    for number in numbers {
        enter(&mut set, *number)?;
    }
    Ok(set)
}

// Whether the other directory's object of the name is one of these, of which there is a set.
fn is_there(
    alloc: Global,
    dir: &Dir,
    other: &Dir,
    others: &[u32],
    set: &IndexSet<u32>,
    number: u32,
) -> Result<bool, AllocError>
    requires live { is_live dir.now.objects number ≡ true }
    requires set { IsSetOf others.now set.now }
    ensures { IfOk result (λ is. is ≡ is_there dir.now other.now others.now number) }
{
    let found = counterpart(alloc, dir, other, number)?;
    match found {
        Some(there) => Ok(set.contains(&there)),
        None => Ok(false),
    }
}

fn put_member(
    alloc: Global,
    into: &mut Vec<u8>,
    more: bool,
    dir: &Dir,
    other: &Dir,
    others: &[u32],
    set: &IndexSet<u32>,
    group: u32,
    number: u32,
) -> Result<(), AllocError>
    requires group { is_live dir.now.objects group ≡ true }
    requires live { is_live dir.now.objects number ≡ true }
    requires set { IsSetOf others.now set.now }
    ensures { OnOk result (into.new.items ≡ into.old.items
        ++ member_text more dir.now other.now others.now group number) }
{
    if is_there(alloc, dir, other, others, set, number)? {
        return Ok(());
    }
    let first = name_of(alloc, dir, group)?;
    let second = name_of(alloc, dir, number)?;
    let both = divided(alloc, first.as_slice(), second.as_slice())?;
    put_signed(into, b"member ", more, both.as_slice())
}

fn put_members(
    alloc: Global,
    into: &mut Vec<u8>,
    more: bool,
    dir: &Dir,
    other: &Dir,
    others: &[u32],
    set: &IndexSet<u32>,
    group: u32,
    members: &[u32],
) -> Result<(), AllocError>
    requires group { is_live dir.now.objects group ≡ true }
    requires live { All (λ number. is_live dir.now.objects number ≡ true) members.now }
    requires set { IsSetOf others.now set.now }
    ensures { OnOk result (into.new.items ≡ into.old.items
        ++ flat_map (member_text more dir.now other.now others.now group) members.now) }
{
    for number in members {
        put_member(alloc, into, more, dir, other, others, set, group, *number)?;
    }
    Ok(())
}

// Those of a group, which has some members.
fn put_some(
    alloc: Global,
    into: &mut Vec<u8>,
    more: bool,
    dir: &Dir,
    other: &Dir,
    group: u32,
    members: &[u32],
) -> Result<(), AllocError>
    requires live { is_live dir.now.objects group ≡ true }
    requires members { members.now ≡ members_of dir.now group }
    ensures { OnOk result (into.new.items ≡ into.old.items
        ++ group_text more dir.now other.now group) }
{
    let there = members_there(alloc, dir, other, group)?;
    let others = there.as_slice();
    let set = set_of(alloc, others)?;
    put_members(alloc, into, more, dir, other, others, &set, group, members)
}

#[tactic(auto, using(crate::proofs::TextLemmas::group_is))]
fn put_group(
    alloc: Global,
    into: &mut Vec<u8>,
    more: bool,
    dir: &Dir,
    other: &Dir,
    group: u32,
) -> Result<(), AllocError>
    requires { is_live dir.now.objects group ≡ true }
    ensures { OnOk result (into.new.items ≡ into.old.items
        ++ group_text more dir.now other.now group) }
{
    let members = members_of(alloc, dir, group)?;
    match members.as_slice() {
        [] => Ok(()),
        some => put_some(alloc, into, more, dir, other, group, some),
    }
}

fn put_groups(
    alloc: Global,
    into: &mut Vec<u8>,
    more: bool,
    dir: &Dir,
    other: &Dir,
    numbers: &[u32],
) -> Result<(), AllocError>
    requires { All (λ number. is_live dir.now.objects number ≡ true) numbers.now }
    ensures { OnOk result (into.new.items ≡ into.old.items
        ++ flat_map (group_text more dir.now other.now) numbers.now) }
{
    for number in numbers {
        put_group(alloc, into, more, dir, other, *number)?;
    }
    Ok(())
}

/// The memberships that a directory has and the other hasn't.
///
/// # Errors
///
/// Out of memory.
pub(crate) fn put_memberships(
    alloc: Global,
    into: &mut Vec<u8>,
    more: bool,
    dir: &Dir,
    other: &Dir,
) -> Result<(), AllocError>
    ensures { OnOk result (into.new.items ≡ into.old.items
        ++ causes_text (membership_causes more dir.now other.now)) }
{
    let numbers = dir.numbers(alloc)?;
    put_groups(alloc, into, more, dir, other, numbers.as_slice())
}
