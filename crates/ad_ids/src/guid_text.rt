//! The text of a GUID, both ways.

ghost use Rattle.std.specs.Prelude.{◌≡◌, ℕ, IfOk, OnSome, IfSome, Some};
ghost use Rattle.std.specs.String.{string_bytes};
ghost use Rattle.ad_ids.specs.GuidText.{guid_of, guid_of_text, guid_text, SpellsGuidText};
ghost use Rattle.ad_ids.specs.declared.guid.Guid.{Guid as GuidValue};

use crate::guid::Guid;
use std::alloc::{AllocError, Global};
use uuid::Uuid;

/// The number of characters of a GUID's text.
const TEXT_LENGTH: usize = 36;

impl Guid {
    /// The GUID of 16 bytes in packet order ([MS-DTYP] 2.3.4.2), and none where there aren't 16.
    pub fn from_bytes(bytes: &[u8]) -> Option<Guid>
        ensures { result ≡ guid_of bytes.now }
    {
        if bytes.len() != 16 {
            return None;
        }
        let mut copy = [0; 16];
        copy.copy_from_slice(bytes);
        Some(Guid { bytes: copy })
    }

    /// The GUID of a text ([MS-DTYP] 2.3.4.3 without the braces): 36 characters, that is 8, 4, 4, 4 and
    /// 12 hexadecimal digits in either case with hyphens between. None where the text isn't of that form.
    /// It takes no memory.
    pub fn from_text(text: &[u8]) -> Option<Guid>
        // What is read is encoded so.
        ensures found { IfSome result (λ guid. SpellsGuidText guid text.now) }
        // Which one it is, as a function of the text.
        ensures value { result ≡ guid_of_text text.now }
        // Whatever is encoded so is read.
        ensures only { (guid : GuidValue) → SpellsGuidText guid text.now → result ≡ Some guid }
    {
        if text.len() != TEXT_LENGTH {
            return None;
        }
        match Uuid::try_parse_ascii(text) {
            Ok(uuid) => Some(Guid {
                bytes: uuid.to_bytes_le(),
            }),
            Err(_) => None,
        }
    }

    /// Its text: 36 characters with lower-case digits and no braces.
    pub fn text(&self, alloc: Global) -> Result<String, AllocError>
        ensures text { IfOk result (λ text. string_bytes text ≡ guid_text self.now) }
        // So it is read back.
        ensures spelled { IfOk result (λ text. SpellsGuidText self.now (string_bytes text)) }
    {
        let mut buffer = Uuid::encode_buffer();
        let uuid = Uuid::from_bytes_le(self.bytes);
        String::from_str(alloc, uuid.hyphenated().encode_lower(&mut buffer))
    }
}
