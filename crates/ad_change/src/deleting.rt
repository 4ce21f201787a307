//! Delete: its check after what it needs, and its edits.

ghost use Rattle.std.specs.Prelude.{◌≡◌, ◌≢◌, ◌++◌, ◌||◌, is_none, true, [], ◌∷◌, map, not, IfOk, OnOk};
ghost use Rattle.std.specs.List.{filter, AllByRecursion};
ghost use Rattle.ad_ids.specs.declared.token.Token.{Token};
ghost use Rattle.ad_dir_objects.specs.declared.act.Act.TheVariants as Act;
ghost use Rattle.ad_dir_model.specs.Objects.{next_child, is_live};
ghost use Rattle.ad_dir_model.specs.Tree.{root};
ghost use Rattle.ad_dir_model.specs.Directory.{put_object, remove_object};
ghost use Rattle.ad_dir_model.specs.Changes.{goes_with};
ghost use Rattle.ad_dir_model.specs.Soundness.{IsSound};
ghost use Rattle.ad_needs_rules.specs.Verdicts.{Resolves};
ghost use Rattle.ad_dir.specs.Conditions.{AreEdits};
ghost use Rattle.ad_change.specs.Plans.{IsPlan};
ghost use Rattle.ad_change.specs.Removing.{AddsEdits, AreGoing, IsLeaving, losing_among, removal_edits, unlinked_at};

use crate::holders::may_lose;
use crate::leaves::going_leaves_first;
use crate::outcome::Plan;
use crate::subtree::goes_with;
use crate::unlinking::push_unlinking;
use ad_bytes::List;
use ad_dir::{Dir, Edit};
use ad_ldap::result_code;
use prop_queue::Pending;
use std::alloc::{AllocError, Global};

// ---- the pending list

// Puts an entry at the end, unless its object goes.
fn push_staying(
    dir: &Dir,
    target: u32,
    alone: bool,
    staying: &mut Vec<Pending>,
    entry: Pending,
) -> Result<(), AllocError>
    requires { IsLeaving dir.now target alone }
    ensures { OnOk result (staying.new.items ≡ staying.old.items
        ++ filter (λ one. not (goes_with dir.now target one.parent)) (entry ∷ [])) }
{
    if !goes_with(dir, target, alone, entry.parent) {
        staying.push(entry)?;
    }
    Ok(())
}

// The pending list without the entries of objects that go.
fn staying(alloc: Global, dir: &Dir, target: u32, alone: bool) -> Result<Vec<Pending>, AllocError>
    requires { IsLeaving dir.now target alone }
    ensures { IfOk result (λ entries. entries.items
        ≡ filter (λ one. not (goes_with dir.now target one.parent)) dir.now.pending) }
{
    let queue = dir.queue();
    let len = queue.len();
    let mut entries = Vec::new(alloc);
    for i in 0..len {
        match queue.at(i) {
            Some(entry) => push_staying(dir, target, alone, &mut entries, entry)?,
            None => unreachable!(),
        }
    }
    Ok(entries)
}

// ---- the objects that go

// The objects that go, children before their parents.
fn going_of(alloc: Global, dir: &Dir, target: u32, alone: bool) -> Result<Vec<u32>, AllocError>
    requires leaving { IsLeaving dir.now target alone }
    requires sound { IsSound dir.now }
    requires below { target ≢ root }
    ensures { IfOk result (λ going. AreGoing dir.now target going.items) }
{
    if alone {
        let mut going = Vec::new(alloc);
        going.push(target)?;
        return Ok(going);
    }
    going_leaves_first(alloc, dir, target, alone)
}

// ---- edits

// Puts the edits of all objects that lose links at the end.
fn push_all_unlinking(
    alloc: Global,
    dir: &Dir,
    target: u32,
    alone: bool,
    numbers: &[u32],
    edits: &mut List<Edit>,
) -> Result<(), AllocError>
    requires leaving { IsLeaving dir.now target alone }
    requires live { AllByRecursion (λ number. is_live dir.now.objects number ≡ true) numbers.now }
    ensures { OnOk result (AddsEdits edits.old edits.new
        (map (λ number. put_object (unlinked_at dir.now target number))
        (losing_among dir.now target numbers.now))) }
{
    'each: for number in numbers {
        push_unlinking(alloc, dir, target, alone, *number, edits)?;
    }
    Ok(())
}

// Puts the removals of objects at the end, in their order.
fn push_removals(numbers: &[u32], edits: &mut List<Edit>) -> Result<(), AllocError>
    ensures { OnOk result (AddsEdits edits.old edits.new
        (map (λ number. remove_object number) numbers.now)) }
{
    'each: for number in numbers {
        edits.push(Edit::RemoveObject(*number))?;
    }
    Ok(())
}

// The edits of a deletion.
fn removal(
    alloc: Global,
    dir: &Dir,
    target: u32,
    alone: bool,
    going: &[u32],
) -> Result<List<Edit>, AllocError>
    requires leaving { IsLeaving dir.now target alone }
    requires sound { IsSound dir.now }
    ensures { IfOk result (λ edits. AreEdits (removal_edits dir.now target going.now) edits) }
{
    let numbers = may_lose(alloc, dir, target, alone)?;
    let mut edits = List::new(alloc);
    edits.push(Edit::PutQueue(staying(alloc, dir, target, alone)?))?;
    push_all_unlinking(alloc, dir, target, alone, numbers.as_slice(), &mut edits)?;
    push_removals(going, &mut edits)?;
    Ok(edits)
}

// Whether an object has no children.
fn stands_alone(dir: &Dir, target: u32) -> bool
    ensures { result ≡ is_none (next_child dir.now.objects target 0) }
{
    dir.next_child(target, 0).is_none()
}

// Whether it may go: with its tree, or alone.
fn may_go(tree: bool, alone: bool) -> bool
    ensures { result ≡ (tree || alone) }
{
    tree || alone
}

/// What a Delete answers or makes, whoever asks for it: an object with children goes with all that is below it, or not
/// at all.
pub(crate) fn delete_plan(
    alloc: Global,
    dir: &Dir,
    target: u32,
    tree: bool,
) -> Result<Plan, AllocError>
    requires sound { IsSound dir.now }
    requires resolved { (token : Token) × Resolves dir.now token (Act.Delete target tree) }
    ensures { (token : Token) → IfOk result (IsPlan dir.now token (Act.Delete target tree)) }
{
    let alone = stands_alone(dir, target);
    if may_go(tree, alone) {
        let going = going_of(alloc, dir, target, alone)?;
        let edits = removal(alloc, dir, target, alone, going.as_slice())?;
        return Ok(Plan::Edits(edits));
    }
    Ok(Plan::Refused(result_code::NOT_ALLOWED_ON_NON_LEAF))
}
