//! Normal bytes, seen as the descriptor that they are of.

ghost use Rattle.std.specs.Prelude.{◌≡◌, IfSome, IfNone, IfOk, true};
ghost use Rattle.ad_sd.specs.declared.parts.Sd.{Sd as SdValue};
ghost use Rattle.ad_sd.specs.Normal.{SpellsNormal};
ghost use Rattle.ad_sd.specs.SdIn.{is_normal, sd_in};
ghost use Rattle.ad_sd.specs.View.{entries_left};

use crate::entries::Entries;
use crate::entries_in::EntriesIn;
use crate::exact::is_normal;
use crate::parts::{AceList, Sd};
use crate::places::{dacl_in, dacl_protected_in, group_in, owner_in, sacl_in, sacl_protected_in};
use ad_acl::Aces;
use ad_ids::Sid;
use std::alloc::{AllocError, Global};

/// A descriptor, seen in its normal bytes: each part is decoded when it is asked for. It takes no memory.
#[derive(Clone, Copy)]
pub struct SdView<'a> {
    bytes: &'a [u8],
    ghost normal: { is_normal bytes.now ≡ true },
}

impl<'a> SdView<'a> {
    ghost use Rattle.std.specs.Prelude.{◌≡◌, IfSome, IfNone, IfOk, true};
    ghost use Rattle.ad_sd.specs.declared.parts.Sd.{Sd as SdValue};
    ghost use Rattle.ad_sd.specs.Normal.{SpellsNormal};
    ghost use Rattle.ad_sd.specs.View.{entries_left, to_come};
    ghost use Rattle.ad_sd.specs.Seen.{seen};
    ghost use Rattle.ad_sd.specs.SdIn.{is_normal, sd_in};

    /// The view over these bytes. It is none exactly where they aren't the normal bytes of a descriptor. Each entry
    /// is looked at once.
    pub fn over(bytes: &'a [u8]) -> Option<SdView<'a>>
        // What is seen is the descriptor whose normal bytes they are.
        ensures some { IfSome result (λ view. SpellsNormal (seen view) bytes.now) }
        // None is given where they are of none.
        ensures none { IfNone result ((sd : SdValue) → SpellsNormal sd bytes.now → ⊥) }
    {
        if is_normal(bytes) {
            Some(SdView { bytes })
        } else {
            None
        }
    }

    /// The view over normal bytes. It looks at none of them.
    #[inline]
    pub fn of_normal(bytes: &'a [u8]) -> SdView<'a>
        requires { (sd : SdValue) × SpellsNormal sd bytes.now }
        // What is seen is the descriptor whose normal bytes they are.
        ensures normal { SpellsNormal (seen result) bytes.now }
        ensures only { (sd : SdValue) → SpellsNormal sd bytes.now → seen result ≡ sd }
    {
        SdView { bytes }
    }

    // The view over bytes of which this is known.
    #[inline]
    pub(crate) fn seen_in(bytes: &'a [u8]) -> SdView<'a>
        requires { is_normal bytes.now ≡ true }
        ensures { seen result ≡ sd_in bytes.now }
    {
        SdView { bytes }
    }

    /// The normal bytes.
    #[inline]
    pub fn as_bytes(&self) -> &'a [u8]
        ensures { SpellsNormal (seen self.now) result.now }
    {
        spelled(self.bytes)
    }

    /// The owner.
    pub fn owner(&self) -> Sid
        ensures { result ≡ (seen self.now).owner }
    {
        owner_in(self.bytes)
    }

    /// The group.
    pub fn group(&self) -> Sid
        ensures { result ≡ (seen self.now).group }
    {
        group_in(self.bytes)
    }

    /// Whether the DACL is protected.
    pub fn dacl_protected(&self) -> bool
        ensures { result ≡ (seen self.now).dacl.protected }
    {
        dacl_protected_in(self.bytes)
    }

    /// Whether the SACL is protected.
    pub fn sacl_protected(&self) -> bool
        ensures { result ≡ (seen self.now).sacl.protected }
    {
        sacl_protected_in(self.bytes)
    }

    /// The entries of the DACL, in order.
    pub fn dacl(&self) -> Entries<'a>
        ensures { entries_left result ≡ (seen self.now).dacl.entries }
    {
        Entries::of(self.dacl_in())
    }

    /// The entries of the SACL, in order.
    pub fn sacl(&self) -> Entries<'a>
        ensures { entries_left result ≡ (seen self.now).sacl.entries }
    {
        Entries::of(self.sacl_in())
    }

    /// The entries of the DACL, in order, each seen in its bytes.
    #[inline]
    pub fn dacl_in(&self) -> EntriesIn<'a>
        ensures { to_come result ≡ (seen self.now).dacl.entries }
    {
        dacl_in(self.bytes)
    }

    /// The entries of the SACL, in order, each seen in its bytes. They are found after those of the
    /// DACL, each of which is passed over.
    pub fn sacl_in(&self) -> EntriesIn<'a>
        ensures { to_come result ≡ (seen self.now).sacl.entries }
    {
        sacl_in(self.bytes)
    }

    /// The descriptor itself.
    ///
    /// # Errors
    ///
    /// Memory ran out.
    pub fn to_sd(&self, alloc: Global) -> Result<Sd, AllocError>
        ensures { IfOk result (λ sd. sd ≡ seen self.now) }
    {
        let dacl = collected(alloc, self.dacl())?;
        let sacl = collected(alloc, self.sacl())?;
        Ok(Sd {
            owner: self.owner(),
            group: self.group(),
            dacl: AceList {
                protected: self.dacl_protected(),
                entries: dacl,
            },
            sacl: AceList {
                protected: self.sacl_protected(),
                entries: sacl,
            },
        })
    }
}

// The same bytes; a contract sees of a slice that each is below 256.
#[inline]
pub(crate) fn spelled(bytes: &[u8]) -> &[u8]
    requires { is_normal bytes.now ≡ true }
    ensures { SpellsNormal (sd_in bytes.now) result.now }
{
    bytes
}

/// Tells that normal bytes encode what they are read as: of a slice a contract sees that each byte is below 256.
#[inline]
pub(crate) fn are_spelled(bytes: &[u8])
    requires { is_normal bytes.now ≡ true }
    ensures { SpellsNormal (sd_in bytes.now) bytes.now }
{}

// The entries, in a list of their own.
pub(crate) fn collected(alloc: Global, entries: Entries<'_>) -> Result<Aces, AllocError>
    ensures { IfOk result (λ aces. aces ≡ entries_left entries.entry) }
{
    let mut aces = Aces::new(alloc);
    for ace in entries {
        aces.push(ace)?;
    }
    Ok(aces)
}
