//! A copy of the parts of a descriptor.

ghost use Rattle.std.specs.Prelude.{◌≡◌, IfOk};

use crate::parts::{AceList, SdParts};
use ad_acl::Aces;
use std::alloc::{AllocError, Global};

// The same list in memory of its own.
fn list_again(alloc: Global, list: &AceList) -> Result<AceList, AllocError>
    ensures { IfOk result (λ copy. copy ≡ list.now) }
{
    Ok(AceList {
        protected: list.protected,
        entries: Aces::from_vec(Vec::from_slice(alloc, list.entries.as_slice())?),
    })
}

// The same list, where there is one.
fn part_again(alloc: Global, part: &Option<AceList>) -> Result<Option<AceList>, AllocError>
    ensures { IfOk result (λ copy. copy ≡ part.now) }
{
    match part {
        Some(list) => Ok(Some(list_again(alloc, list)?)),
        None => Ok(None),
    }
}

impl SdParts {
    /// Equal parts in memory of their own.
    pub fn copy(&self, alloc: Global) -> Result<SdParts, AllocError>
        ensures { IfOk result (λ copy. copy ≡ self.now) }
    {
        Ok(SdParts {
            owner: self.owner,
            group: self.group,
            dacl: part_again(alloc, &self.dacl)?,
            sacl: part_again(alloc, &self.sacl)?,
        })
    }
}
