//! The descriptor that a value is.

ghost use Rattle.std.specs.Prelude.{◌≡◌, IfOk};
ghost use Rattle.ad_sd.specs.Reading.{sd_of};
ghost use Rattle.ad_control.specs.Edges.{sd_read, held_sd};

use ad_dir::Dir;
use ad_policies::first_value;
use ad_sd::{NormalSd, Sd, SdFault, read_sd};
use std::alloc::{AllocError, Global};

fn kept(alloc: Global, sd: &Sd) -> Result<Option<NormalSd>, AllocError>
    ensures { IfOk result (λ kept. kept ≡ Some sd.now) }
{
    Ok(Some(NormalSd::of(alloc, sd)?))
}

// The descriptor that bytes are, if they are one.
fn read(alloc: Global, bytes: &[u8]) -> Result<Option<NormalSd>, AllocError>
    ensures { IfOk result (λ sd. sd ≡ sd_read (sd_of bytes.now)) }
{
    match read_sd(alloc, bytes) {
        Ok(sd) => kept(alloc, &sd),
        Err(SdFault::Memory) => Err(AllocError),
        Err(_) => Ok(None),
    }
}

/// The descriptor that the first value of the attribute is, if there is one.
///
/// # Errors
///
/// Out of memory.
#[tactic(auto, unfolding(ad_control::specs::Edges::held_sd))]
pub(crate) fn held_sd(
    alloc: Global,
    dir: &Dir,
    number: u32,
    name: &[u8],
) -> Result<Option<NormalSd>, AllocError>
    ensures { IfOk result (λ sd. sd ≡ held_sd dir.now number name.now) }
{
    match first_value(dir, number, dir.schema().attr(name)) {
        Some(value) => read(alloc, value.shown()),
        None => Ok(None),
    }
}
