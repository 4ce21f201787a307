//! What a run gives each protected object, and which of them it changes.

ghost use Rattle.std.specs.Prelude.{◌≡◌, true, not, Some, IfOk};
ghost use Rattle.std.specs.Option.{option_map};
ghost use Rattle.ad_dir_model.specs.Objects.{object_at, sd_at, is_live};
ghost use Rattle.ad_dir_model.specs.SameSd.{same_sd};
ghost use Rattle.ad_dir_model.specs.Protection.{frozen, has_mark, changes};
ghost use Rattle.ad_protect.specs.Putting.{mark_seen, sd_given, IsGiven};

use crate::frozen::frozen;
use crate::mark::{Mark, admin_count, is_one_value};
use ad_dir::{Dir, live_object, stored_of};
use ad_dir_write::is_another;
use std::alloc::{AllocError, Global};

/// The normal bytes of a descriptor, and adminCount where the schema has it.
#[derive(Drop)]
pub(crate) struct Given {
    pub sd: Vec<u8>,
    pub mark: Option<Mark>,
}

/// What a run gives where the holder of its descriptor is this live object.
pub(crate) fn given_by(alloc: Global, dir: &Dir, holder: u32) -> Result<Given, AllocError>
    requires { is_live dir.now.objects holder ≡ true }
    ensures is { IfOk result (IsGiven dir.now) }
    ensures sd { IfOk result (λ given. sd_given given ≡ frozen (sd_at dir.now.objects holder)) }
{
    let sd = frozen(alloc, dir, holder)?;
    let mark = admin_count(alloc, dir.schema())?;
    Ok(Given { sd, mark })
}

// Whether a live object has this mark.
fn has_mark(dir: &Dir, mark: &Mark, number: u32) -> bool
    requires { is_live dir.now.objects number ≡ true }
    ensures { result ≡ has_mark (Some (mark_seen mark.now)) (object_at dir.now.objects number) }
{
    is_one_value(
        &mark.value,
        stored_of(live_object(dir, number).values.as_slice(), mark.attr),
    )
}

/// Whether a live object has the mark, or there is none.
pub(crate) fn is_marked(dir: &Dir, mark: &Option<Mark>, number: u32) -> bool
    requires { is_live dir.now.objects number ≡ true }
    ensures { result ≡ has_mark (option_map mark_seen mark.now) (object_at dir.now.objects number) }
{
    match mark {
        Some(mark) => has_mark(dir, mark, number),
        None => true,
    }
}

/// Whether the descriptor of a live object changes.
pub(crate) fn changes_sd(dir: &Dir, given: &Given, number: u32) -> bool
    requires live { is_live dir.now.objects number ≡ true }
    requires given { IsGiven dir.now given.now }
    ensures { result ≡ not (same_sd (sd_at dir.now.objects number) (sd_given given.now)) }
{
    is_another(dir, number, given.sd.as_slice())
}

/// Whether a live object changes: its descriptor or its mark.
pub(crate) fn changes(dir: &Dir, given: &Given, number: u32) -> bool
    requires live { is_live dir.now.objects number ≡ true }
    requires given { IsGiven dir.now given.now }
    ensures { result ≡ changes dir.now (sd_given given.now) number }
{
    changes_sd(dir, given, number) || !is_marked(dir, &given.mark, number)
}
