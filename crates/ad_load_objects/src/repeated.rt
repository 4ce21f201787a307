//! Descriptors come again: most objects are given that of the object before. So the last descriptor that was read
//! is kept, with the bytes that it was read of, and held once for all objects that have it one after the other.

ghost use Rattle.std.specs.Prelude.{◌≡◌, Ok, IfOk, IfSome};
ghost use Rattle.ad_bytes.specs.Reading.{GivesUnless};
ghost use Rattle.ad_sd.specs.Reading.{is_memory, sd_of};

use ad_bytes::Bytes;
use ad_sd::{NormalSd, Sd, SdFault, read_sd};
use std::alloc::{AllocError, Global};
use std::rc::Rc;

/// A descriptor, and the bytes that it was read of.
#[derive(Drop)]
pub(crate) struct ReadSd {
    bytes: Bytes,
    sd: Rc<NormalSd>,
    ghost read: { sd_of bytes ≡ Ok sd.value },
}

// The descriptor that was read, where it was read of these bytes.
fn known<'a>(last: &'a Option<ReadSd>, bytes: &[u8]) -> Option<&'a Rc<NormalSd>>
    ensures { IfSome result (λ sd. sd_of bytes.now ≡ Ok sd.now.value) }
{
    match last {
        Some(read) => {
            if read.bytes.as_slice() == bytes {
                return Some(&read.sd);
            }
            None
        }
        None => None,
    }
}

// Keeps a descriptor, which was read of these bytes, as the last one.
fn keep_read(
    alloc: Global,
    last: &mut Option<ReadSd>,
    bytes: &[u8],
    sd: &Sd,
) -> Result<Rc<NormalSd>, AllocError>
    requires { sd_of bytes.now ≡ Ok sd.now }
    ensures { IfOk result (λ shared. shared.value ≡ sd.now) }
{
    let normal = NormalSd::of(alloc, sd)?;
    let shared = Rc::new(alloc, normal)?;
    *last = Some(ReadSd {
        bytes: Bytes::from_slice(alloc, bytes)?,
        sd: shared.clone()?,
    });
    Ok(shared)
}

// Reads a descriptor and keeps it as the last one.
fn read_anew(
    alloc: Global,
    last: &mut Option<ReadSd>,
    bytes: &[u8],
) -> Result<Rc<NormalSd>, SdFault>
    ensures { GivesUnless is_memory (λ sd. sd.value) result (sd_of bytes.now) }
{
    let sd = read_sd(alloc, bytes)?;
    match keep_read(alloc, last, bytes, &sd) {
        Ok(shared) => Ok(shared),
        Err(AllocError) => Err(SdFault::Memory),
    }
}

// The same one more time. It fails as reading does.
fn shared(sd: &Rc<NormalSd>) -> Result<Rc<NormalSd>, SdFault>
    ensures { GivesUnless is_memory (λ sd. sd.value) result (Ok sd.now.value) }
{
    match sd.clone() {
        Ok(shared) => Ok(shared),
        Err(AllocError) => Err(SdFault::Memory),
    }
}

/// Reads the descriptor that the bytes are, as `read_sd` does.
pub(crate) fn read_again(
    alloc: Global,
    last: &mut Option<ReadSd>,
    bytes: &[u8],
) -> Result<Rc<NormalSd>, SdFault>
    ensures { GivesUnless is_memory (λ sd. sd.value) result (sd_of bytes.now) }
{
    if let Some(sd) = known(last, bytes) {
        return shared(sd);
    }
    read_anew(alloc, last, bytes)
}
