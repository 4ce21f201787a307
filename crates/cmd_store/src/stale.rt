//! How many objects have another descriptor than the one that is recomputed from the root.

ghost use Rattle.std.specs.Prelude.{◌≡◌, ◌≤◌, ◌<◌, ℕ, suc, true, if◌then◌else◌, length, IfOk};
ghost use Rattle.ad_inherit.specs.Whole.{explicit_part, whole};
ghost use Rattle.ad_schema.specs.Classes.{classes_of};
ghost use Rattle.ad_dir_model.specs.Directory.{parents};
ghost use Rattle.ad_dir_model.specs.Inheritance.{guid_at, scratch_within};
ghost use Rattle.ad_dir_model.specs.Objects.{is_live, sd_at};
ghost use Rattle.ad_dir_model.specs.Soundness.{IsSound};
ghost use Rattle.ad_dir_model.specs.Tree.{IsAtDepth};
ghost use Rattle.cmd_store.specs.Stale.{stale, is_stale};

use ad_dir::{Dir, MAX_DEPTH, ROOT, guid_of, live_object, live_sd};
use ad_dir_write::is_another;
use ad_inherit::{explicit, whole};
use ad_schema::ClassId;
use ad_sd::NormalSd;
use std::alloc::{AllocError, Global};

// The explicit part of the root's descriptor.
fn root_part(alloc: Global, dir: &Dir) -> Result<NormalSd, AllocError>
    requires { is_live dir.now.objects 1 ≡ true }
    ensures { IfOk result (λ sd. sd ≡ explicit_part (sd_at dir.now.objects 1)) }
{
    NormalSd::of(alloc, &explicit(alloc, live_sd(dir, ROOT))?)
}

// The descriptor of a live object below another one, whose descriptor this is.
fn below(
    alloc: Global,
    dir: &Dir,
    number: u32,
    class: ClassId,
    above: &NormalSd,
) -> Result<NormalSd, AllocError>
    requires live { is_live dir.now.objects number ≡ true }
    requires class { class.0 < length (classes_of dir.now.schema) }
    ensures { IfOk result (λ sd. sd ≡ whole above.now (sd_at dir.now.objects number)
        (guid_at dir.now.schema class.0)) }
{
    let guid = guid_of(dir.schema(), class);
    let sd = whole(alloc, above.view(), live_sd(dir, number), guid)?;
    NormalSd::of(alloc, &sd)
}

// The descriptor of a live object that is recomputed from the root, which stands at most so many levels above it.
fn from_root(alloc: Global, dir: &Dir, number: u32, levels: u32) -> Result<NormalSd, AllocError>
    requires sound { IsSound dir.now }
    requires live { is_live dir.now.objects number ≡ true }
    requires placed { (depth : ℕ) × (depth ≤ levels) × IsAtDepth (parents dir.now) depth number }
    ensures { IfOk result (λ sd. sd ≡ scratch_within dir.now (suc levels) number) }
{
    if number == ROOT {
        return root_part(alloc, dir);
    }
    let object = live_object(dir, number);
    let above = from_root(alloc, dir, object.parent, levels - 1)?;
    below(alloc, dir, number, object.class, &above)
}

// Whether a live object has another one.
fn is_stale(alloc: Global, dir: &Dir, number: u32) -> Result<bool, AllocError>
    requires sound { IsSound dir.now }
    requires live { is_live dir.now.objects number ≡ true }
    ensures { IfOk result (λ stale. stale ≡ is_stale dir.now number) }
{
    let scratch = from_root(alloc, dir, number, MAX_DEPTH)?;
    Ok(is_another(dir, number, scratch.as_bytes()))
}

// One that is stale counts.
fn one_if(stale: bool) -> usize
    ensures { result ≡ (if stale then 1 else 0) }
{
    if stale { 1 } else { 0 }
}

/// How many objects have another descriptor than the one that is recomputed from the root. Where nothing is pending
/// there are none.
///
/// # Errors
///
/// Memory ran out.
pub fn count_stale(alloc: Global, dir: &Dir) -> Result<usize, AllocError>
    requires { IsSound dir.now }
    ensures { IfOk result (λ n. n ≡ stale dir.now) }
{
    if dir.queue().len() == 0 {
        return Ok(0);
    }
    let numbers = dir.numbers(alloc)?;
    let mut n = 0;
    for number in &numbers {
        n += one_if(is_stale(alloc, dir, *number)?);
    }
    Ok(n)
}
