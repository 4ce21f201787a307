//! A descriptor in its normal bytes, shared by its copies.

ghost use Rattle.std.specs.Prelude.{◌≡◌, true, IfOk, MatchOption};
ghost use Rattle.ad_sd.specs.declared.parts.Sd.{Sd as SdValue};
ghost use Rattle.ad_sd.specs.Normal.{SpellsNormal};
ghost use Rattle.ad_sd.specs.Seen.{seen};
ghost use Rattle.ad_sd.specs.SdIn.{is_normal, sd_in};

use crate::exact::is_normal;
use crate::normal_writing::normal;
use crate::parts::Sd;
use crate::view::{SdView, are_spelled, spelled};
use std::alloc::{AllocError, Global};
use std::marker::Model;
use std::rc::Rc;

/// A descriptor in its normal bytes, which all copies of it share. A contract sees the descriptor.
#[derive(Debug, Drop)]
pub struct NormalSd {
    bytes: Rc<Vec<u8>>,
}

impl Model for NormalSd {
    ghost use Rattle.std.specs.Prelude.{◌≡◌, true};
    ghost use Rattle.ad_sd.specs.declared.parts.Sd.{Sd as SdValue};
    ghost use Rattle.ad_sd.specs.SdIn.{is_normal, sd_in};

    ghost Value = { SdValue };

    ghost view = { λ sd. sd_in sd.bytes.value.items };

    ghost invariant = { λ sd. is_normal sd.bytes.value.items ≡ true };
}

impl NormalSd {
    /// The descriptor, as [`normal`](crate::normal) writes it.
    ///
    /// # Errors
    ///
    /// Memory ran out.
    pub fn of(alloc: Global, sd: &Sd) -> Result<NormalSd, AllocError>
        ensures { IfOk result (λ kept. kept ≡ sd.now) }
    {
        Ok(NormalSd {
            bytes: Rc::new(alloc, normal(alloc, sd)?)?,
        })
    }

    /// The descriptor whose normal bytes these are. None exactly where they are the normal bytes of no descriptor.
    ///
    /// # Errors
    ///
    /// Memory ran out.
    pub fn from_bytes(alloc: Global, bytes: &[u8]) -> Result<Option<NormalSd>, AllocError>
        ensures { IfOk result (λ kept.
            MatchOption kept ((sd : SdValue) → SpellsNormal sd bytes.now → ⊥)
            (λ sd. SpellsNormal sd bytes.now)) }
    {
        if !is_normal(bytes) {
            return Ok(None);
        }
        are_spelled(bytes);
        let kept = Vec::from_slice(alloc, bytes)?;
        Ok(Some(NormalSd {
            bytes: Rc::new(alloc, kept)?,
        }))
    }

    /// The descriptor, seen in its bytes.
    #[inline]
    pub fn view(&self) -> SdView<'_>
        ensures { seen result ≡ self.now }
    {
        SdView::seen_in(self.bytes.as_ref().as_slice())
    }

    /// The normal bytes.
    #[inline]
    pub fn as_bytes(&self) -> &[u8]
        ensures { SpellsNormal self.now result.now }
    {
        spelled(self.bytes.as_ref().as_slice())
    }

    /// The same descriptor, in the same memory.
    ///
    /// # Errors
    ///
    /// Memory ran out.
    pub fn copy(&self, alloc: Global) -> Result<NormalSd, AllocError>
        ensures { IfOk result (λ copy. copy ≡ self.now) }
    {
        let _ = alloc;
        Ok(NormalSd {
            bytes: self.bytes.clone()?,
        })
    }
}
