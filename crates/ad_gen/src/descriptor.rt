//! Descriptors that stand as texts.

ghost use Rattle.std.specs.Prelude.{◌≡◌, IfOk};
ghost use Rattle.ad_gen.specs.Descriptor.{descriptor_bytes};

use ad_acl::AclWriteFault;
use ad_sd::write_parts;
use ad_sddl::SddlFault;
use std::alloc::{AllocError, Global};

/// The self-relative bytes of the descriptor that a text encodes, and none where it encodes none.
#[tactic(auto, unfolding(crate::specs::Descriptor::descriptor_bytes))]
pub(crate) fn descriptor_bytes(alloc: Global, text: &[u8]) -> Result<Vec<u8>, AllocError>
    ensures { IfOk result (λ bytes. bytes.items ≡ descriptor_bytes text.now) }
{
    let parts = match ad_sddl::read(alloc, text, None) {
        Ok(parts) => parts,
        Err(SddlFault::Bad { .. }) => return Ok(Vec::new(alloc)),
        Err(SddlFault::Memory) => return Err(AllocError),
    };
    match write_parts(alloc, &parts) {
        Ok(bytes) => Ok(bytes),
        Err(AclWriteFault::TooLong) => Ok(Vec::new(alloc)),
        Err(AclWriteFault::Memory) => Err(AllocError),
    }
}
