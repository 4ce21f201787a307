//! The text of the sample.

ghost use Rattle.std.specs.Prelude.{◌≡◌, ◌≤◌, ◌++◌, IfOk, OnOk};
ghost use Rattle.std.specs.String.{string_bytes};
ghost use Rattle.ad_bytes.specs.Puts.{Puts};
ghost use Rattle.ad_gen.specs.Ldif.{ldif};
ghost use Rattle.ad_gen.specs.Objects.{max_units};

use crate::objects::{push_administrators, push_containers, push_domain, push_units};
use crate::schema::push_schema;
use std::alloc::{AllocError, Global};

/// The most units of a sample.
pub const MAX_UNITS: u32 = 1_000;

// The text, over an empty one.
#[tactic(auto, unfolding(crate::specs::Ldif::ldif))]
fn push_all(alloc: Global, out: &mut String, n: u32) -> Result<(), AllocError>
    requires { n ≤ max_units }
    ensures { OnOk result (Puts (string_bytes out.old) (string_bytes out.new) (ldif n)) }
{
    push_schema(out)?;
    push_domain(alloc, out)?;
    push_containers(alloc, out)?;
    push_administrators(out)?;
    push_units(out, n)?;
    Ok(())
}

/// The sample as a text of LDIF (RFC 2849): the base schema, a domain `DC=sample` with the containers System and
/// AdminSDHolder and the group Administrators, and `n` organizational units of ten users each, for `n` up to 1,000.
///
/// # Errors
///
/// Out of memory.
pub fn ldif(alloc: Global, n: u32) -> Result<Vec<u8>, AllocError>
    requires { n ≤ max_units }
    ensures { IfOk result (λ text. text.items ≡ ldif n) }
{
    let mut out = String::new(alloc);
    push_all(alloc, &mut out, n)?;
    Ok(out.into_bytes())
}
