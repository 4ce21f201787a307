//! One entry, seen in the bytes in which it stands ([MS-DTYP] 2.4.4).

ghost use Rattle.std.specs.Prelude.{◌≡◌, true};
ghost use Rattle.ad_acl.specs.EntryIn.{is_entry};

use crate::ace::Ace;
use crate::entry_writing::has_guid;
use crate::fields::{
    flags_in, from_sid, inherited_in, kind_in, mask_in, number16, object_in, sid_in,
};
use crate::kind::AceKind;
use ad_ids::{Guid, Sid};

/// An access control entry ([MS-DTYP] 2.4.4), seen in the bytes in which it stands. Each field is decoded when it
/// is asked for. A view takes no memory.
#[derive(Clone, Copy)]
pub struct AceIn<'a> {
    // The bytes of this entry alone, as many as its header says.
    bytes: &'a [u8],
    ghost alone: { is_entry bytes.now ≡ true },
}

impl<'a> AceIn<'a> {
    ghost use Rattle.std.specs.Prelude.{◌≡◌, ℕ, List, Ok, true, bit_and};
    ghost use Rattle.ad_ids.specs.SidReading.{sid_at};
    ghost use Rattle.ad_acl.specs.EntryIn.{entry_in, is_entry, begins_entry};
    ghost use Rattle.ad_acl.specs.EntrySeen.{entry_seen};
    ghost use Rattle.ad_acl.specs.Reading.{entry_at};
    ghost use Rattle.ad_acl.specs.Writing.{is_object_entry};

    // The entry that these bytes are.
    #[inline]
    fn of(bytes: &'a [u8]) -> AceIn<'a>
        requires { is_entry bytes.now ≡ true }
        ensures { entry_seen result ≡ entry_in bytes.now }
    {
        AceIn { bytes }
    }

    /// The entry that the bytes begin with, and the bytes after it.
    #[inline]
    pub fn split_first(bytes: &'a [u8]) -> (AceIn<'a>, &'a [u8])
        requires { begins_entry bytes.now ≡ true }
        ensures { entry_at bytes.now ≡ Ok (entry_seen result.0, result.1.now) }
    {
        let size = usize::from(number16(bytes, 2));
        let (entry, rest) = bytes.split_at(size);
        (AceIn::of(entry), rest)
    }

    /// What the entry does.
    #[inline]
    pub fn kind(&self) -> AceKind
        ensures { result ≡ (entry_seen self.now).kind }
    {
        kind_in(self.bytes)
    }

    /// The flags, as [`Ace::flags`].
    #[inline]
    pub fn flags(&self) -> u8
        ensures value { result ≡ (entry_seen self.now).flags }
        ensures clear { bit_and result 32 ≡ 0 }
    {
        flags_in(self.bytes)
    }

    /// The access mask, before generic rights are mapped.
    #[inline]
    pub fn mask(&self) -> u32
        ensures { result ≡ (entry_seen self.now).mask }
    {
        mask_in(self.bytes)
    }

    /// The object type: the property set, attribute, right or class that the entry is about, or none.
    #[inline]
    pub fn object(&self) -> Option<Guid>
        ensures { result ≡ (entry_seen self.now).object }
    {
        object_in(self.bytes)
    }

    /// The class of the objects that inherit the entry, or none.
    #[inline]
    pub fn inherited(&self) -> Option<Guid>
        ensures { result ≡ (entry_seen self.now).inherited }
    {
        inherited_in(self.bytes)
    }

    /// Whether the entry has an object type or an inherited type.
    #[inline]
    pub fn has_guid(&self) -> bool
        ensures { result ≡ is_object_entry (entry_seen self.now) }
    {
        has_guid(&self.object(), &self.inherited())
    }

    /// The identifier of whom the entry is for.
    #[inline]
    pub fn sid(&self) -> Sid
        ensures { result ≡ (entry_seen self.now).sid }
    {
        sid_in(self.bytes)
    }

    /// The bytes of the entry from that identifier on. They begin with it as it is written, and what follows it may
    /// stand after.
    #[inline]
    pub fn from_sid(&self) -> &'a [u8]
        ensures { (rest : List ℕ) × (sid_at result.now ≡ Ok ((entry_seen self.now).sid, rest)) }
    {
        from_sid(self.bytes)
    }

    /// The entry itself.
    pub fn ace(&self) -> Ace
        ensures { result ≡ entry_seen self.now }
    {
        Ace {
            kind: self.kind(),
            flags: self.flags(),
            mask: self.mask(),
            object: self.object(),
            inherited: self.inherited(),
            sid: self.sid(),
        }
    }
}
