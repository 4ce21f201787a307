//! Descriptors come again: most objects have that of the object before. So the last one that was read is kept, and
//! where the next bytes are its bytes, they aren't judged once more, and the copy of it takes no memory.

ghost use Rattle.std.specs.Prelude.{◌≡◌, Ok, IfSome};
ghost use Rattle.ad_bytes.specs.Reading.{GivesUnless};
ghost use Rattle.ad_rows.specs.Parsing.{is_memory, sd_of};

use crate::parsing::BodyFault;
use ad_sd::NormalSd;
use std::alloc::Global;

// The descriptor that was read, where these are its bytes.
fn known<'a>(last: &'a Option<NormalSd>, bytes: &[u8]) -> Option<&'a NormalSd>
    ensures { IfSome result (λ sd. sd_of bytes.now ≡ Ok sd.now) }
{
    match last {
        Some(sd) => {
            if sd.as_bytes() == bytes {
                return Some(sd);
            }
            None
        }
        None => None,
    }
}

// Reads a descriptor and keeps it as the last one.
fn read_anew(
    alloc: Global,
    last: &mut Option<NormalSd>,
    bytes: &[u8],
) -> Result<NormalSd, BodyFault>
    ensures { GivesUnless is_memory (λ sd. sd) result (sd_of bytes.now) }
{
    match NormalSd::from_bytes(alloc, bytes)? {
        Some(sd) => {
            *last = Some(sd.copy(alloc)?);
            Ok(sd)
        }
        None => Err(BodyFault::Bad),
    }
}

/// The descriptor whose normal bytes these are.
pub(crate) fn read_again(
    alloc: Global,
    last: &mut Option<NormalSd>,
    bytes: &[u8],
) -> Result<NormalSd, BodyFault>
    ensures { GivesUnless is_memory (λ sd. sd) result (sd_of bytes.now) }
{
    if let Some(sd) = known(last, bytes) {
        return Ok(sd.copy(alloc)?);
    }
    read_anew(alloc, last, bytes)
}
