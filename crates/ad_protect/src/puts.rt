//! The edits that put protected objects.

ghost use Rattle.std.specs.Prelude.{◌≡◌, true, Some, map, if◌then◌else◌, IfOk};
ghost use Rattle.std.specs.List.{AllByRecursion};
ghost use Rattle.std.specs.Option.{option_map};
ghost use Rattle.ad_sd.specs.declared.parts.Sd.{Sd as SdValue};
ghost use Rattle.ad_dir.specs.Conditions.{HasNormal, AreEdits};
ghost use Rattle.ad_dir_objects.specs.Seen.{object_seen, edit_seen};
ghost use Rattle.ad_dir_model.specs.Objects.{object_at, sd_at, is_live};
ghost use Rattle.ad_dir_model.specs.Directory.{put_object};
ghost use Rattle.ad_dir_model.specs.Protection.{has_mark, with_mark};
ghost use Rattle.ad_dir_model.specs.Edits.{protecting};
ghost use Rattle.ad_protect.specs.Putting.{mark_seen, sd_given, IsGiven, puts_of};

use crate::adding::with_mark;
use crate::given::{Given, changes, is_marked};
use crate::mark::Mark;
use ad_dir::{Dir, Edit, Object, live_object};
use std::alloc::{AllocError, Global};

// The object with the mark, where there is one and it hasn't got it.
fn with_mark_if(
    alloc: Global,
    has: bool,
    object: Object,
    mark: &Option<Mark>,
) -> Result<Object, AllocError>
    ensures { (sd : SdValue) → IfOk result (λ put. object_seen put sd
        ≡ (if has then object_seen object sd else with_mark (option_map mark_seen mark.now)
        (object_seen object sd))) }
{
    if has {
        return Ok(object);
    }
    match mark {
        Some(mark) => with_mark(alloc, object, mark),
        None => Ok(object),
    }
}

// What is put for a live object.
fn put_of(alloc: Global, dir: &Dir, given: &Given, number: u32) -> Result<Edit, AllocError>
    requires live { is_live dir.now.objects number ≡ true }
    requires given { IsGiven dir.now given.now }
    ensures seen { IfOk result (λ edit. edit_seen edit
        ≡ put_object (protecting dir.now (sd_given given.now) number)) }
    ensures normal { IfOk result HasNormal }
{
    let has = is_marked(dir, &given.mark, number);
    let object = live_object(dir, number).copy(alloc)?;
    let object = with_mark_if(alloc, has, object, &given.mark)?;
    let bytes = Vec::from_slice(alloc, given.sd.as_slice())?;
    Ok(Edit::PutObject(object, bytes))
}

/// The edits that put those of these live objects that change, in their order.
pub(crate) fn puts_of(
    alloc: Global,
    dir: &Dir,
    given: &Given,
    numbers: &[u32],
) -> Result<Vec<Edit>, AllocError>
    requires live { AllByRecursion (λ number. is_live dir.now.objects number ≡ true) numbers.now }
    requires given { IsGiven dir.now given.now }
    ensures { IfOk result (λ edits. AreEdits (puts_of dir.now (sd_given given.now) numbers.now)
        edits.items) }
{
    let mut edits = Vec::new(alloc);
    for number in numbers {
        if changes(dir, given, *number) {
            edits.push(put_of(alloc, dir, given, *number)?)?;
        }
    }
    Ok(edits)
}
