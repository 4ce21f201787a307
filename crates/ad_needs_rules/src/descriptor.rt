//! The descriptor in a request.

ghost use Rattle.std.specs.Prelude.{◌≡◌, option_map, IfOk};
ghost use Rattle.std.specs.Result.{result_ok};
ghost use Rattle.ad_sd.specs.Reading.{parts_of};
ghost use Rattle.ad_needs_rules.specs.Descriptors.{sd_in_one, part_if, asked_parts, has_owner_or_group, has_part};
ghost use Rattle.ad_needs_rules.specs.Descriptors.{has_asked_part};

use ad_bytes::Bytes;
use ad_ids::Sid;
use ad_ldap::{DACL_PART, GROUP_PART, OWNER_PART, SACL_PART};
use ad_sd::{AceList, SdFault, SdParts, read_parts};
use std::alloc::{AllocError, Global};

fn read_sd(alloc: Global, bytes: &[u8]) -> Result<Option<SdParts>, AllocError>
    ensures { IfOk result (λ sd. sd ≡ result_ok (parts_of bytes.now)) }
{
    match read_parts(alloc, bytes) {
        Ok(parts) => Ok(Some(parts)),
        Err(SdFault::Memory) => Err(AllocError),
        Err(_) => Ok(None),
    }
}

/// The parts in the one value. None where there are none or several, and where it can't be read.
///
/// # Errors
///
/// Memory ran out.
pub fn sd_in_one(alloc: Global, values: &[Bytes]) -> Result<Option<SdParts>, AllocError>
    ensures { IfOk result (λ sd. sd ≡ sd_in_one values.now) }
{
    match values {
        [bytes] => read_sd(alloc, bytes.as_slice()),
        _ => Ok(None),
    }
}

fn sid_if(asked: bool, part: Option<Sid>) -> Option<Sid>
    ensures { result ≡ part_if asked part }
{
    if asked { part } else { None }
}

fn list_if(asked: bool, part: Option<AceList>) -> Option<AceList>
    ensures { result ≡ part_if asked part }
{
    if asked { part } else { None }
}

/// Those of the parts that are asked for: by 1 the owner, by 2 the group, by 4 the DACL, by 8 the SACL.
pub fn asked_parts(flags: u8, parts: SdParts) -> SdParts
    ensures { result ≡ asked_parts flags parts }
{
    SdParts {
        owner: sid_if(flags & OWNER_PART != 0, parts.owner),
        group: sid_if(flags & GROUP_PART != 0, parts.group),
        dacl: list_if(flags & DACL_PART != 0, parts.dacl),
        sacl: list_if(flags & SACL_PART != 0, parts.sacl),
    }
}

/// Those parts of a descriptor, where there is one.
pub fn asked_of(flags: u8, sd: Option<SdParts>) -> Option<SdParts>
    ensures { result ≡ option_map (asked_parts flags) sd }
{
    match sd {
        Some(parts) => Some(asked_parts(flags, parts)),
        None => None,
    }
}

/// The parts that are asked for of the descriptor in one value, where it reads.
///
/// # Errors
///
/// Memory ran out.
pub fn asked_in(alloc: Global, values: &[Bytes], flags: u8) -> Result<Option<SdParts>, AllocError>
    ensures { IfOk result (λ sd. sd ≡ option_map (asked_parts flags) (sd_in_one values.now)) }
{
    match sd_in_one(alloc, values)? {
        Some(parts) => Ok(Some(asked_parts(flags, parts))),
        None => Ok(None),
    }
}

/// Whether the one value has a part that is asked for.
///
/// # Errors
///
/// Memory ran out.
pub fn has_asked_part(alloc: Global, flags: u8, values: &[Bytes]) -> Result<bool, AllocError>
    ensures { IfOk result (λ has. has ≡ has_asked_part flags values.now) }
{
    match sd_in_one(alloc, values)? {
        Some(parts) => Ok(has_part(&asked_parts(flags, parts))),
        None => Ok(false),
    }
}

/// Whether an owner or a group is there.
pub fn has_owner_or_group(parts: &SdParts) -> bool
    ensures { result ≡ has_owner_or_group parts.now }
{
    parts.owner.is_some() || parts.group.is_some()
}

// Whether a part is there.
fn has_part(parts: &SdParts) -> bool
    ensures { result ≡ has_part parts.now }
{
    has_owner_or_group(parts) || parts.dacl.is_some() || parts.sacl.is_some()
}
