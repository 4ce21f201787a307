//! Long values in base64 come again: most records of a directory have the descriptor of the one before. So the last
//! one that was decoded is kept, with its text.

ghost use Rattle.std.specs.Prelude.{◌≡◌, [], Ok, IfSome, IfOk};
ghost use Rattle.base64.specs.Engines.{standard};
ghost use Rattle.base64.specs.GeneralPurpose.{decode_of};
ghost use Rattle.ad_bytes.specs.Reading.{fault_as};
ghost use Rattle.ad_ldif.specs.Fields.{decoded};
ghost use Rattle.ad_ldif.specs.Records.{fault, bytes_of};
ghost use Rattle.ad_ldif.specs.Story.{Gives};

use crate::fault::LdifFault;
use crate::field::decoded;
use crate::folded::LastFolded;
use crate::held::Held;
use crate::logical::{Logical, Text};
use ad_bytes::Bytes;
use std::alloc::{AllocError, Global};
use std::rc::Rc;

// The length of the shortest text that is kept. Identifiers are shorter, and differ.
const LEAST_TEXT: usize = 256;

/// A text in base64, and the bytes that it encodes.
#[derive(Drop)]
pub(crate) struct Decoded {
    text: Vec<u8>,
    value: Rc<Bytes>,
    ghost spelled: { decoded text.items ≡ Ok value.value },
}

// Room for a folded line: most have fewer bytes.
const FOLDED: usize = 8192;

/// What a reader keeps of what mostly comes again: the last long value, folded and decoded, and the room of a
/// folded line that was read. The reader of what follows may have it.
pub struct LineCache {
    pub(crate) folded: LastFolded,
    pub(crate) decoded: Option<Decoded>,
    pub(crate) spare: Option<Vec<u8>>,
}

// Written out, so that where one is dropped a proof has a single step.
impl Drop for LineCache {
    fn drop(self) {
        let LineCache {
            folded,
            decoded,
            spare,
        } = self;
        drop(folded);
        drop(decoded);
        drop(spare);
    }
}

impl LineCache {
    /// Nothing so far.
    pub fn nothing() -> LineCache {
        LineCache {
            folded: LastFolded::none(),
            decoded: None,
            spare: None,
        }
    }

    /// An empty list with room for a folded line.
    pub(crate) fn room(&mut self, alloc: Global) -> Result<Vec<u8>, AllocError>
        ensures { IfOk result (λ room. room.items ≡ []) }
    {
        match self.spare.take() {
            Some(spare) => {
                let mut spare = spare;
                spare.clear();
                Ok(spare)
            }
            None => Vec::with_capacity(alloc, FOLDED),
        }
    }

    /// Takes the room of a line that was read for the next one.
    pub(crate) fn take_back(&mut self, line: Logical<'_>) {
        if let Text::Joined(bytes) = line.text {
            self.spare = Some(bytes);
        }
    }
}

// The bytes that were decoded, where this was the text.
fn known<'a>(last: &'a Option<Decoded>, text: &[u8]) -> Option<&'a Rc<Bytes>>
    ensures { IfSome result (λ bytes. decoded text.now ≡ Ok bytes.now.value) }
{
    match last {
        Some(last) => {
            if last.text.as_slice() == text {
                return Some(&last.value);
            }
            None
        }
        None => None,
    }
}

// Decodes a text and keeps it as the last one.
fn decode_anew(
    alloc: Global,
    last: &mut Option<Decoded>,
    number: u32,
    text: &[u8],
) -> Result<Held, LdifFault>
    ensures { Gives bytes_of result (fault_as (fault number) (decoded text.now)) }
{
    let bytes = decoded(alloc, number, text)?;
    let value = Rc::new(alloc, Bytes::from_vec(bytes))?;
    *last = Some(Decoded {
        text: Vec::from_slice(alloc, text)?,
        value: value.clone()?,
    });
    Ok(Held::Shared(value))
}

/// The bytes that a text in base64 encodes. Those of a long text are shared by all lines, one after the other, that
/// have it.
pub(crate) fn decoded_again(
    alloc: Global,
    last: &mut Option<Decoded>,
    number: u32,
    text: &[u8],
) -> Result<Held, LdifFault>
    ensures { Gives bytes_of result (fault_as (fault number) (decoded text.now)) }
{
    if text.len() < LEAST_TEXT {
        return Ok(Held::Own(Bytes::from_vec(decoded(alloc, number, text)?)));
    }
    if let Some(bytes) = known(last, text) {
        return Ok(Held::Shared(bytes.clone()?));
    }
    decode_anew(alloc, last, number, text)
}
