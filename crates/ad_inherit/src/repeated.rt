//! Descriptors come again: most objects have those of the one before. So the last one that was computed is kept, with
//! what it was made of. A copy of it is given, which takes no memory of its own.

ghost use Rattle.std.specs.Prelude.{◌≡◌, true, IfOk, IfSome};
ghost use Rattle.ad_sd.specs.Seen.{seen};
ghost use Rattle.ad_sd.specs.SdIn.{sd_in};
ghost use Rattle.ad_inherit.specs.Whole.{whole};

use crate::descriptors::whole;
use ad_ids::Guid;
use ad_sd::{NormalSd, SdView};
use std::alloc::{AllocError, Global};

/// The descriptor of an object of a class, with the normal bytes of its parent's and its own one, of which it was
/// computed.
#[derive(Drop)]
pub struct WholeSd {
    above: Vec<u8>,
    own: Vec<u8>,
    class: Guid,
    sd: NormalSd,
    ghost made: { sd ≡ whole (sd_in above.items) (sd_in own.items) class },
}

// Whether the bytes are those of a descriptor.
fn is_of(bytes: &Vec<u8>, sd: SdView<'_>) -> bool
    ensures { result ≡ true → sd_in bytes.now.items ≡ seen sd.entry }
{
    bytes.as_slice() == sd.as_bytes()
}

// The descriptor that was computed, where it was made of these.
fn same_as_last<'a>(
    last: &'a Option<WholeSd>,
    above: SdView<'_>,
    own: SdView<'_>,
    class: Guid,
) -> Option<&'a NormalSd>
    ensures { IfSome result (λ sd. sd.now ≡ whole (seen above.entry) (seen own.entry) class) }
{
    match last {
        Some(last) => {
            if last.class == class && is_of(&last.above, above) && is_of(&last.own, own) {
                return Some(&last.sd);
            }
            None
        }
        None => None,
    }
}

// The bytes of a descriptor in memory of their own.
fn bytes_of(alloc: Global, sd: SdView<'_>) -> Result<Vec<u8>, AllocError>
    ensures { IfOk result (λ bytes. sd_in bytes.items ≡ seen sd.entry) }
{
    let bytes = Vec::from_slice(alloc, sd.as_bytes())?;
    Ok(bytes)
}

// A descriptor with what it was computed of.
fn with_its_parts(
    alloc: Global,
    above: SdView<'_>,
    own: SdView<'_>,
    class: Guid,
    sd: &NormalSd,
) -> Result<WholeSd, AllocError>
    requires { sd.now ≡ whole (seen above) (seen own) class }
{
    let above = bytes_of(alloc, above)?;
    let own = bytes_of(alloc, own)?;
    let sd = sd.copy(alloc)?;
    Ok(WholeSd {
        above,
        own,
        class,
        sd,
    })
}

// Computes a descriptor.
fn computed(
    alloc: Global,
    above: SdView<'_>,
    own: SdView<'_>,
    class: Guid,
) -> Result<NormalSd, AllocError>
    ensures { IfOk result (λ sd. sd ≡ whole (seen above.entry) (seen own.entry) class) }
{
    let sd = whole(alloc, above, own, class)?;
    NormalSd::of(alloc, &sd)
}

// Computes a descriptor and keeps it as the last one.
fn make(
    alloc: Global,
    last: &mut Option<WholeSd>,
    above: SdView<'_>,
    own: SdView<'_>,
    class: Guid,
) -> Result<NormalSd, AllocError>
    ensures { IfOk result (λ sd. sd ≡ whole (seen above.entry) (seen own.entry) class) }
{
    let sd = computed(alloc, above, own, class)?;
    let made = with_its_parts(alloc, above, own, class, &sd)?;
    *last = Some(made);
    Ok(sd)
}

/// The descriptor of an object of the class, from its parent's and its own, as `whole` computes it. It is kept in place
/// of the last one.
///
/// # Errors
///
/// Out of memory.
pub fn whole_again(
    alloc: Global,
    last: &mut Option<WholeSd>,
    above: SdView<'_>,
    own: SdView<'_>,
    class: Guid,
) -> Result<NormalSd, AllocError>
    ensures { IfOk result (λ sd. sd ≡ whole (seen above.entry) (seen own.entry) class) }
{
    if let Some(sd) = same_as_last(last, above, own, class) {
        return sd.copy(alloc);
    }
    make(alloc, last, above, own, class)
}
