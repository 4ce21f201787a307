//! The lists that a new object has where none are given.

ghost use Rattle.std.specs.Prelude.{◌≡◌, IfOk};
ghost use Rattle.std.specs.Option.{option_copied, option_and_then};
ghost use Rattle.std.specs.Prelude.{slice_get};
ghost use Rattle.ad_schema.specs.Classes.{classes_of};
ghost use Rattle.ad_sddl.specs.Grammar.{no_parts};
ghost use Rattle.ad_sddl.specs.Reading.{read_of};
ghost use Rattle.ad_schema_defaults.specs.Defaults.{parts_or_none, default_of};

use ad_ids::Sid;
use ad_schema::{ClassId, Schema};
use ad_sd::SdParts;
use ad_sddl::{SddlFault, read};
use std::alloc::{AllocError, Global};

// What a class without a default has as one.
const DEFAULT: &[u8] = b"O:BAG:BAD:(A;;GA;;;BA)(A;;GA;;;SY)";

fn no_parts() -> SdParts
    ensures { result ≡ no_parts }
{
    SdParts {
        owner: None,
        group: None,
        dacl: None,
        sacl: None,
    }
}

// The parts of a text, or none where it can't be read.
fn parts_of(alloc: Global, text: &[u8], domain: Option<&Sid>) -> Result<SdParts, AllocError>
    ensures { IfOk result (λ parts. parts
        ≡ parts_or_none (read_of (option_copied domain.entry) text.now)) }
{
    match read(alloc, text, domain) {
        Ok(parts) => Ok(parts),
        Err(SddlFault::Bad { .. }) => Ok(no_parts()),
        Err(SddlFault::Memory) => Err(AllocError),
    }
}

fn text_of(schema: &Schema, class: ClassId) -> Option<&[u8]>
    ensures { option_copied result ≡ option_and_then (λ info. info.default_sd)
        (slice_get (classes_of schema.entry.now) class.0) }
{
    match schema.classes().get(class.0 as usize) {
        Some(info) => match &info.default_sd {
            Some(text) => Some(text.as_slice()),
            None => None,
        },
        None => None,
    }
}

/// The parts of the default descriptor of a class, whose text is read with the domain's identifier; a class without
/// one, and a place without a class, has `O:BAG:BAD:(A;;GA;;;BA)(A;;GA;;;SY)`. A text that can't be read gives no
/// parts.
///
/// # Errors
///
/// Out of memory.
#[tactic(auto, unfolding(crate::specs::Defaults::default_of, crate::specs::Defaults::default_in))]
pub fn default_parts(
    alloc: Global,
    schema: &Schema,
    domain: Option<&Sid>,
    class: ClassId,
) -> Result<SdParts, AllocError>
    ensures { IfOk result (λ parts. parts ≡ default_of schema.now (option_copied domain.entry)
        class.0) }
{
    match text_of(schema, class) {
        Some(text) => parts_of(alloc, text, domain),
        None => parts_of(alloc, DEFAULT, domain),
    }
}
