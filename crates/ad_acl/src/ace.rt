//! An access control entry as a value.

use crate::kind::AceKind;
use ad_ids::{Guid, Sid};
use std::marker::Model;

/// An access control entry ([MS-DTYP] 2.4.4). Its flags never have the bit 0x20.
#[derive(Clone, Copy, Debug)]
pub struct Ace {
    pub kind: AceKind,
    /// The flags: 0x01 object inherit, 0x02 container inherit, 0x04 no propagate, 0x08 inherit only,
    /// 0x10 inherited, 0x40 successful access, 0x80 failed access.
    pub flags: u8,
    /// The access mask, before generic rights are mapped.
    pub mask: u32,
    /// The object type: the property set, attribute, right or class that the entry is about, or none.
    pub object: Option<Guid>,
    /// The class of the objects that inherit the entry, or none.
    pub inherited: Option<Guid>,
    pub sid: Sid,
}

impl Model for Ace {
    ghost use Rattle.std.specs.Prelude.{◌≡◌, bit_and};
    ghost use Rattle.ad_acl.specs.Entry.{Entry};

    ghost Value = { Entry };

    ghost view = { λ a. record {
      kind = a.kind;
      flags = a.flags;
      mask = a.mask;
      object
          = a.object;
      inherited = a.inherited;
      sid = a.sid;
    } };

    ghost invariant = { λ a. bit_and a.flags 32 ≡ 0 };

    ghost inverse = { λ e. record {
      kind = e.kind;
      flags = e.flags;
      mask = e.mask;
      object
          = e.object;
      inherited = e.inherited;
      sid = e.sid;
    } };
}
