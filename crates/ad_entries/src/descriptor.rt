//! The descriptor of an entry.

ghost use Rattle.std.specs.Prelude.{◌≡◌, ◌||◌, ◌&&◌, not, true, [], Some, IfOk};
ghost use Rattle.ad_acl.specs.Entry.{says};
ghost use Rattle.ad_schema_classes.specs.Names.{same_name};
ghost use Rattle.ad_ldap.specs.MessageValue.{search_seen};
ghost use Rattle.ad_dir_model.specs.Objects.{is_live, sd_at};
ghost use Rattle.ad_access_dir.specs.Sight.{is_granted};
ghost use Rattle.ad_entries.specs.Seen.{parts_read};
ghost use Rattle.ad_entries.specs.Entry.{descriptor_name, is_descriptor_asked, are_read, descriptor_given, is_left_out};
ghost use Rattle.ad_entries.specs.Given.{descriptor_seen};
ghost use Rattle.ad_sd.specs.Shown.{parts_shown};
ghost use Rattle.ad_sd.specs.Writing.{written};

use crate::asking::Asking;
use ad_access_dir::granted;
use ad_acl::{ACCESS_SYSTEM_SECURITY, AclWriteFault, READ_CONTROL};
use ad_bytes::Bytes;
use ad_dir::{Dir, live_sd};
use ad_ids::Token;
use ad_ldap::{DACL_PART, GROUP_PART, OWNER_PART, SACL_PART};
use ad_schema_classes::same_name;
use ad_sd::write_view;
use ad_types::Path;
use std::alloc::{AllocError, Global};

const NAME: &[u8] = b"nTSecurityDescriptor";

/// What an entry has of its object's descriptor.
#[derive(Drop)]
pub enum Descriptor {
    /// It isn't asked for, or a part that is asked for may not be read.
    Absent,
    /// The parts that are asked for.
    Written(Vec<u8>),
    /// A list that is asked for is too long.
    TooLong,
}

/// Its name.
#[tactic(auto, unfolding(crate::specs::Entry::descriptor_name))]
pub(crate) fn name(alloc: Global) -> Result<Bytes, AllocError>
    ensures { IfOk result (λ name. name ≡ descriptor_name) }
{
    Bytes::from_slice(alloc, NAME)
}

#[tactic(auto, unfolding(crate::specs::Entry::descriptor_name))]
fn is_named_so(sent: &[u8]) -> bool
    ensures { result ≡ same_name descriptor_name sent.now }
{
    same_name(NAME, sent)
}

/// Whether it is asked for by its name.
#[tactic(auto, unfolding(crate::specs::Entry::is_descriptor_asked))]
pub(crate) fn is_descriptor_asked(sent: &[Bytes]) -> bool
    ensures { result ≡ is_descriptor_asked sent.now }
{
    for name in sent {
        if is_named_so(name.as_slice()) {
            return true;
        }
    }
    false
}

fn reads_list(dir: &Dir, token: &Token, number: u32) -> bool
    requires { is_live dir.now.objects number ≡ true }
    ensures { result ≡ is_granted dir.now token.now number [] 17 }
{
    granted(dir, token, number, &Path::empty(), READ_CONTROL) & READ_CONTROL != 0
}

fn reads_system_list(dir: &Dir, token: &Token, number: u32) -> bool
    requires { is_live dir.now.objects number ≡ true }
    ensures { result ≡ is_granted dir.now token.now number [] 24 }
{
    granted(dir, token, number, &Path::empty(), ACCESS_SYSTEM_SECURITY) & ACCESS_SYSTEM_SECURITY
        != 0
}

// Whether these flags ask for nothing that may not be read.
fn may_have(flags: u8, control: bool, security: bool) -> bool
    ensures { result
        ≡ ((not (says flags 1) || control) && (not (says flags 2) || control)
        && (not (says flags 4) || control) && (not (says flags 8) || security)) }
{
    (flags & OWNER_PART == 0 || control)
        && (flags & GROUP_PART == 0 || control)
        && (flags & DACL_PART == 0 || control)
        && (flags & SACL_PART == 0 || security)
}

fn are_read(dir: &Dir, token: &Token, number: u32, flags: u8) -> bool
    requires { is_live dir.now.objects number ≡ true }
    ensures { result ≡ are_read (parts_read dir.now token.now number) flags }
{
    may_have(
        flags,
        reads_list(dir, token, number),
        reads_system_list(dir, token, number),
    )
}

// The parts that are asked for, of a descriptor of which they may be read.
fn written(alloc: Global, dir: &Dir, number: u32, flags: u8) -> Result<Descriptor, AllocError>
    requires { is_live dir.now.objects number ≡ true }
    ensures { IfOk result (λ d. descriptor_seen d
        ≡ Some (written (parts_shown (sd_at dir.now.objects number) flags))) }
{
    match write_view(alloc, live_sd(dir, number), flags) {
        Ok(bytes) => Ok(Descriptor::Written(bytes)),
        Err(AclWriteFault::TooLong) => Ok(Descriptor::TooLong),
        Err(AclWriteFault::Memory) => Err(AllocError),
    }
}

/// What an entry has of the descriptor, where it is told whether it is asked for.
#[tactic(auto, unfolding(crate::specs::Entry::descriptor_given))]
pub(crate) fn descriptor_given(
    alloc: Global,
    asking: &Asking<'_>,
    number: u32,
    asked: bool,
) -> Result<Descriptor, AllocError>
    requires live { is_live asking.now.dir.now.objects number ≡ true }
    requires asked { asked ≡ is_descriptor_asked (search_seen asking.now.search.now).attrs }
    ensures { IfOk result (λ d. descriptor_seen d
        ≡ descriptor_given (search_seen asking.now.search.now) asking.now.flags
        (parts_read asking.now.dir.now asking.now.token.now number)) }
{
    if !asked {
        return Ok(Descriptor::Absent);
    }
    if !are_read(asking.dir, asking.token, number, asking.flags) {
        return Ok(Descriptor::Absent);
    }
    written(alloc, asking.dir, number, asking.flags)
}

/// Whether it is left out since it is too long.
pub(crate) fn is_left_out(descriptor: &Descriptor) -> bool
    ensures { result ≡ is_left_out (descriptor_seen descriptor.now) }
{
    match descriptor {
        Descriptor::TooLong => true,
        Descriptor::Absent => false,
        Descriptor::Written(_) => false,
    }
}
