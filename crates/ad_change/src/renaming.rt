//! Rename and move: their checks after what they need, and their edits.

ghost use Rattle.std.specs.Prelude.{◌≡◌, true, IfOk};
ghost use Rattle.ad_ids.specs.declared.token.Token.{Token};
ghost use Rattle.ad_dn.specs.Value.{IsValue};
ghost use Rattle.ad_dir_objects.specs.declared.act.Act.TheVariants as Act;
ghost use Rattle.ad_dir_objects.specs.Seen.{object_seen};
ghost use Rattle.ad_dir_model.specs.Objects.{is_live, object_at, sd_at};
ghost use Rattle.ad_dir_model.specs.Changes.{renamed_object};
ghost use Rattle.ad_dir_model.specs.Edits as edit_lists;
ghost use Rattle.ad_dir_model.specs.Soundness.{IsSound};
ghost use Rattle.ad_needs_rules.specs.Verdicts.{Resolves};
ghost use Rattle.ad_change_values.specs.Judging.{Judges};
ghost use Rattle.ad_change.specs.Judging.{AreNeeded};
ghost use Rattle.ad_change.specs.Plans.{IsPlan};
ghost use Rattle.ad_change.specs.Renaming as rename;

use crate::depth::is_shallow_with;
use crate::light::fits_weight_limit;
use crate::outcome::Plan;
use crate::writing::{put_edits, write_edits};
use ad_bytes::{Bytes, List};
use ad_change_values::{Refusal, code_of};
use ad_dir::{Dir, Edit, Object, live_object, live_sd, parent_number};
use ad_ldap::result_code;
use std::alloc::{AllocError, Global};

// ---- checks

// Whether the class of an object may stand below that of another parent.
fn may_stand(dir: &Dir, target: u32, parent: u32) -> bool
    requires live { is_live dir.now.objects target ≡ true }
    requires parent { is_live dir.now.objects parent ≡ true }
    ensures { result ≡ rename.may_stand dir.now target parent }
{
    if parent_number(dir, target) == parent {
        return true;
    }
    let above = live_object(dir, parent).class;
    dir.schema().under(live_object(dir, target).class, above)
}

// Whether no other child of the parent has the name.
fn is_free(
    alloc: Global,
    dir: &Dir,
    target: u32,
    parent: u32,
    name: &[u8],
) -> Result<bool, AllocError>
    requires { IsValue name.now }
    ensures { IfOk result (λ free. free ≡ rename.is_free dir.now target parent name.now) }
{
    match dir.child(alloc, parent, name)? {
        Some(other) => Ok(other == target),
        None => Ok(true),
    }
}

// The object with the parent and the name.
fn renamed(
    alloc: Global,
    dir: &Dir,
    target: u32,
    parent: u32,
    name: &Bytes,
) -> Result<Object, AllocError>
    requires { is_live dir.now.objects target ≡ true }
    ensures { IfOk result (λ object. object_seen object (sd_at dir.now.objects target)
        ≡ renamed_object (object_at dir.now.objects target) parent name.now) }
{
    let mut object = live_object(dir, target).copy(alloc)?;
    object.parent = parent;
    object.name = name.copy(alloc)?;
    Ok(object)
}

// Whether no object is too deep then, nor the directory too heavy.
fn fits_there(alloc: Global, dir: &Dir, target: u32, object: &Object) -> Result<bool, AllocError>
    requires sound { IsSound dir.now }
    requires live { is_live dir.now.objects target ≡ true }
    requires renamed { object_seen object.now (sd_at dir.now.objects target)
        ≡ renamed_object (object_at dir.now.objects target) object.now.parent object.now.name }
    ensures { IfOk result (λ fits. fits ≡ rename.fits_there dir.now
        (renamed_object (object_at dir.now.objects target) object.now.parent object.now.name)) }
{
    Ok(is_shallow_with(alloc, dir, target, object.parent)? && fits_weight_limit(dir, object))
}

// The checks of a rename or a move, and the object as it is then.
#[tactic(auto, unfolding(crate::specs::Renaming::rename_later, ad_needs_rules::specs::Checks::first_failing))]
fn judge_rename(
    alloc: Global,
    dir: &Dir,
    target: u32,
    parent: u32,
    name: &Bytes,
) -> Result<Object, Refusal>
    requires sound { IsSound dir.now }
    requires live { is_live dir.now.objects target ≡ true }
    requires parent { is_live dir.now.objects parent ≡ true }
    requires name { IsValue name.now }
    ensures { Judges (rename.rename_later dir.now target parent name.now)
        (λ object. object_seen object (sd_at dir.now.objects target)
        ≡ renamed_object (object_at dir.now.objects target) parent name.now) result }
{
    if !may_stand(dir, target, parent) {
        return Err(Refusal::Code(result_code::NAMING_VIOLATION));
    }
    if !is_free(alloc, dir, target, parent, name.as_slice())? {
        return Err(Refusal::Code(result_code::ENTRY_ALREADY_EXISTS));
    }
    let object = renamed(alloc, dir, target, parent, name)?;
    if !fits_there(alloc, dir, target, &object)? {
        return Err(Refusal::Code(result_code::ADMIN_LIMIT_EXCEEDED));
    }
    Ok(object)
}

// ---- what it makes

// The edits of an object with its new parent and its new name, and none where it stands there so.
fn edits_of(alloc: Global, dir: &Dir, target: u32, object: Object) -> Result<List<Edit>, AllocError>
    requires sound { IsSound dir.now }
    requires live { is_live dir.now.objects target ≡ true }
    requires parent { is_live dir.now.objects object.parent ≡ true }
    requires renamed { object_seen object (sd_at dir.now.objects target)
        ≡ renamed_object (object_at dir.now.objects target) object.parent object.name }
    ensures { IfOk result (λ edits.
        AreNeeded dir.now (edit_lists.rename_edits dir.now target object.parent object.name)
        edits) }
{
    let own = live_sd(dir, target);
    if parent_number(dir, target) == object.parent {
        put_edits(alloc, dir, object, own)
    } else {
        write_edits(alloc, dir, object, own)
    }
}

/// What a rename or a move answers or makes, whoever asks for it.
pub(crate) fn rename_plan(
    alloc: Global,
    dir: &Dir,
    target: u32,
    parent: u32,
    name: &Bytes,
) -> Result<Plan, AllocError>
    requires sound { IsSound dir.now }
    requires resolved { (token : Token) × Resolves dir.now token
        (Act.Rename target parent name.now) }
    ensures { (token : Token) → IfOk result (IsPlan dir.now token
        (Act.Rename target parent name.now)) }
{
    match judge_rename(alloc, dir, target, parent, name) {
        Ok(object) => Ok(Plan::Edits(edits_of(alloc, dir, target, object)?)),
        Err(why) => {
            let code = code_of(why)?;
            Ok(Plan::Refused(code))
        }
    }
}
