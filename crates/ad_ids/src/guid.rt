//! A GUID as a value, and its 16 bytes.

ghost use Rattle.std.specs.Prelude.{◌≡◌, OnErr};
ghost use Rattle.ad_bytes.specs.Reading.{Reads};
ghost use Rattle.ad_ids.specs.Guid.{guid_at};

use ad_bytes::{Input, Short};

/// A globally unique identifier ([MS-DTYP] 2.3.4): 16 bytes in packet order, that is the first three
/// fields with their least significant byte first and the last eight bytes as they stand in a text.
#[derive(Clone, Copy, Debug, PartialEq, Eq, Hash)]
pub struct Guid {
    pub bytes: [u8; 16],
}

impl Guid {
    /// Reads a GUID at the start of the input ([MS-DTYP] 2.3.4.2).
    ///
    /// # Errors
    ///
    /// `Short` where fewer than 16 bytes are left. The input stays as it was.
    #[tactic(auto, unfolding(crate::specs::Guid::guid_at))]
    pub fn read(input: &mut Input<'_>) -> Result<Guid, Short>
        ensures read { Reads result input.new (guid_at input.old) }
        ensures err { OnErr result (input.new ≡ input.old) }
    {
        let part = input.part(16)?;
        let mut bytes = [0; 16];
        bytes.copy_from_slice(part.rest());
        Ok(Guid { bytes })
    }
}
