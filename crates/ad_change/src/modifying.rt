//! Modify: its checks after what it needs, and its edits.

ghost use Rattle.std.specs.Prelude.{◌≡◌, ◌≢◌, ◌<◌, map, length, true, IfOk};
ghost use Rattle.std.specs.List.{AllByRecursion};
ghost use Rattle.ad_sd.specs.Seen.{seen};
ghost use Rattle.ad_schema.specs.Attributes.{attrs_of};
ghost use Rattle.ad_schema.specs.Classes.{classes_of};
ghost use Rattle.ad_dir_objects.specs.declared.act.Act.TheVariants as Act;
ghost use Rattle.ad_dir_objects.specs.Seen.{held_seen, object_seen};
ghost use Rattle.ad_dir_model.specs.Objects.{is_live, sd_at};
ghost use Rattle.ad_dir_model.specs.Tree.{root};
ghost use Rattle.ad_dir_model.specs.Soundness.{AttrsRiseFrom, IsSound};
ghost use Rattle.ad_needs_rules.specs.Verdicts.{Resolves};
ghost use Rattle.ad_change_values.specs.Items.{after_items};
ghost use Rattle.ad_change_values.specs.Judging.{Judges, value_checks, HasByteItem};
ghost use Rattle.ad_change.specs.Modifying as modify;
ghost use Rattle.ad_change.specs.Judging.{IsWithValues, AreNeeded, modify_edits};
ghost use Rattle.ad_change.specs.Plans.{IsPlan};

use crate::light::fits_weight_limit;
use crate::outcome::Plan;
use crate::owner::is_owner_allowed;
use crate::writing::{put_edits, write_edits};
use ad_bytes::List;
use ad_change_values::{Refusal, code_of, judge_attrs, judge_items};
use ad_dir::{ActItem, Dir, Edit, Object, live_object, live_sd};
use ad_ids::Token;
use ad_ldap::result_code;
use ad_sd::{NormalSd, Sd, SdParts, SdView};
use std::alloc::{AllocError, Global};

// ---- checks

// The checks of the items and of the attributes that they name, and the object with the values that it gets.
fn judge_values(
    alloc: Global,
    dir: &Dir,
    object: Object,
    items: &[ActItem],
) -> Result<Object, Refusal>
    requires class { object.class.0 < length (classes_of dir.now.schema) }
    requires attrs { AllByRecursion (λ item. item.attr.0 < length (attrs_of dir.now.schema))
        items.now }
    requires rise { AttrsRiseFrom 0 (map held_seen object.values) }
    ensures { Judges (value_checks dir.now object.class.0 (map held_seen object.values) items.now)
        (λ after. IsWithValues object after
        (after_items dir.now (map held_seen object.values) items.now)
        × AllByRecursion HasByteItem items.now) result }
{
    let Object {
        number,
        parent,
        class,
        name,
        values,
    } = object;
    let held = judge_items(alloc, dir, values.into_vec(), items)?;
    judge_attrs(alloc, dir.schema(), class, held.as_slice(), items)?;
    Ok(Object {
        number,
        parent,
        class,
        name,
        values: List::from_vec(held),
    })
}

// The checks of a Modify, and the object with the values that it gets.
fn judge_modify(
    alloc: Global,
    dir: &Dir,
    token: &Token,
    target: u32,
    items: &[ActItem],
    sd: &Option<SdParts>,
) -> Result<Object, Refusal>
    requires sound { IsSound dir.now }
    requires live { is_live dir.now.objects target ≡ true }
    requires attrs { AllByRecursion (λ item. item.attr.0 < length (attrs_of dir.now.schema))
        items.now }
    ensures { Judges (modify.modify_later dir.now token.now target items.now sd.now)
        (λ object. (object_seen object (sd_at dir.now.objects target)
        ≡ modify.modified_object dir.now target items.now)
        × AllByRecursion HasByteItem items.now) result }
{
    if !is_owner_allowed(token, sd) {
        return Err(Refusal::Code(result_code::CONSTRAINT_VIOLATION));
    }
    let before = live_object(dir, target).copy(alloc)?;
    let after = judge_values(alloc, dir, before, items)?;
    if !fits_weight_limit(dir, &after) {
        return Err(Refusal::Code(result_code::ADMIN_LIMIT_EXCEEDED));
    }
    Ok(after)
}

// ---- what it makes

// The written parts in the place of the stored ones.
fn with_parts(alloc: Global, parts: &SdParts, stored: SdView<'_>) -> Result<NormalSd, AllocError>
    ensures { IfOk result (λ sd. sd ≡ modify.with_parts parts.now (seen stored.entry)) }
{
    let given = parts.copy(alloc)?;
    let stored = stored.to_sd(alloc)?;
    let sd = Sd {
        owner: given.owner.unwrap_or(stored.owner),
        group: given.group.unwrap_or(stored.group),
        dacl: given.dacl.unwrap_or(stored.dacl),
        sacl: given.sacl.unwrap_or(stored.sacl),
    };
    NormalSd::of(alloc, &sd)
}

// The edits of the object with its values and the written parts, and none where it stands there so.
fn edits_of(
    alloc: Global,
    dir: &Dir,
    object: Object,
    sd: &Option<SdParts>,
) -> Result<List<Edit>, AllocError>
    requires live { is_live dir.now.objects object.number ≡ true }
    requires class { object.class.0 < length (classes_of dir.now.schema) }
    requires parent { object.number ≢ root → is_live dir.now.objects object.parent ≡ true }
    ensures { IfOk result (λ edits. AreNeeded dir.now (modify_edits dir.now
        (object_seen object (sd_at dir.now.objects object.number)) sd.now) edits) }
{
    let stored = live_sd(dir, object.number);
    match sd {
        None => put_edits(alloc, dir, object, stored),
        Some(parts) => {
            let own = with_parts(alloc, parts, stored)?;
            write_edits(alloc, dir, object, own.view())
        }
    }
}

// ---- the plan

// The plan of these items.
fn plan_of(
    alloc: Global,
    dir: &Dir,
    token: &Token,
    target: u32,
    items: &[ActItem],
    sd: &Option<SdParts>,
) -> Result<Plan, AllocError>
    requires sound { IsSound dir.now }
    requires resolved { Resolves dir.now token.now (Act.Modify target items.now sd.now) }
    ensures { IfOk result (IsPlan dir.now token.now (Act.Modify target items.now sd.now)) }
{
    match judge_modify(alloc, dir, token, target, items, sd) {
        Ok(object) => {
            let edits = edits_of(alloc, dir, object, sd)?;
            Ok(Plan::Edits(edits))
        }
        Err(why) => {
            let code = code_of(why)?;
            Ok(Plan::Refused(code))
        }
    }
}

/// What a Modify answers or makes.
pub(crate) fn modify_plan(
    alloc: Global,
    dir: &Dir,
    token: &Token,
    target: u32,
    items: &List<ActItem>,
    sd: &Option<SdParts>,
) -> Result<Plan, AllocError>
    requires sound { IsSound dir.now }
    requires resolved { Resolves dir.now token.now (Act.Modify target items.now sd.now) }
    ensures { IfOk result (IsPlan dir.now token.now (Act.Modify target items.now sd.now)) }
{
    plan_of(alloc, dir, token, target, items.as_slice(), sd)
}
