//! The objects of the sample, a record of LDIF each.

ghost use Rattle.std.specs.Prelude.{◌≡◌, ◌≤◌, ◌<◌, OnOk, codes, decimal};
ghost use Rattle.std.specs.String.{string_bytes};
ghost use Rattle.ad_gen.specs.Descriptor.{descriptor_bytes};
ghost use Rattle.ad_gen.specs.Lines.{encoded_line};
ghost use Rattle.ad_bytes.specs.Puts.{Puts};
ghost use Rattle.ad_gen.specs.Objects.{descriptor_line, domain, containers, administrators, unit, user, users, units};
ghost use Rattle.ad_gen.specs.Objects.{users_of_unit, max_units};

use crate::descriptor::descriptor_bytes;
use crate::lines::{push_encoded, push_text};
use std::alloc::{AllocError, Global};

/// How many users a unit has.
const USERS: u32 = 10;

// Puts a number at the end.
fn push_number(out: &mut String, number: u32) -> Result<(), AllocError>
    ensures { OnOk result (Puts (string_bytes out.old) (string_bytes out.new) (decimal number)) }
{
    push_text(out, itoa::Buffer::new().format(number))?;
    Ok(())
}

// Puts the line of a descriptor, which stands as a text, at the end.
fn push_sd(alloc: Global, out: &mut String, text: &str) -> Result<(), AllocError>
    ensures { OnOk result (Puts (string_bytes out.old) (string_bytes out.new)
        (encoded_line (codes "nTSecurityDescriptor") (descriptor_bytes text.now))) }
{
    let sd = descriptor_bytes(alloc, text.as_bytes())?;
    push_encoded(out, "nTSecurityDescriptor", &sd)?;
    Ok(())
}

// The same, and the empty line after a record.
fn push_descriptor(alloc: Global, out: &mut String, text: &str) -> Result<(), AllocError>
    ensures { OnOk result (Puts (string_bytes out.old) (string_bytes out.new)
        (descriptor_line text.now)) }
{
    push_sd(alloc, out, text)?;
    push_text(out, "\n")?;
    Ok(())
}

/// Puts the domain at the end.
#[tactic(auto, unfolding(crate::specs::Objects::domain))]
pub(crate) fn push_domain(alloc: Global, out: &mut String) -> Result<(), AllocError>
    ensures { OnOk result (Puts (string_bytes out.old) (string_bytes out.new) domain) }
{
    push_text(
        out,
        "dn: DC=sample\nobjectClass: domainDNS\nobjectSid: S-1-5-21-1-2-3\n",
    )?;
    push_descriptor(alloc, out, "O:BAG:BAD:(A;CI;GA;;;BA)(A;CI;RPLCLORC;;;AU)")?;
    Ok(())
}

/// Puts the container System and the one below it at the end.
#[tactic(auto, unfolding(crate::specs::Objects::containers))]
pub(crate) fn push_containers(alloc: Global, out: &mut String) -> Result<(), AllocError>
    ensures { OnOk result (Puts (string_bytes out.old) (string_bytes out.new) containers) }
{
    push_text(
        out,
        "dn: CN=System,DC=sample\nobjectClass: container\n\ndn: CN=AdminSDHolder,CN=System,DC=sample\nobjectClass: container\n",
    )?;
    push_descriptor(alloc, out, "O:BAG:BAD:P(A;;GA;;;BA)")?;
    Ok(())
}

/// Puts the administrators at the end.
pub(crate) fn push_administrators(out: &mut String) -> Result<(), AllocError>
    ensures { OnOk result (Puts (string_bytes out.old) (string_bytes out.new) administrators) }
{
    push_text(
        out,
        "dn: CN=Administrators,DC=sample\nobjectClass: group\nobjectSid: S-1-5-32-544\nmember: CN=u1-1,OU=o1,DC=sample\n\n",
    )?;
    Ok(())
}

// Puts the user `j` of the unit `i + 1` at the end.
#[tactic(auto, unfolding(crate::specs::Objects::user))]
fn push_user(out: &mut String, i: u32, j: u32) -> Result<(), AllocError>
    requires { (i < max_units) × (j ≤ users_of_unit) }
    ensures { OnOk result (Puts (string_bytes out.old) (string_bytes out.new) (user i j)) }
{
    push_text(out, "dn: CN=u")?;
    push_number(out, i + 1)?;
    push_text(out, "-")?;
    push_number(out, j)?;
    push_text(out, ",OU=o")?;
    push_number(out, i + 1)?;
    push_text(
        out,
        ",DC=sample\nobjectClass: user\nobjectSid: S-1-5-21-1-2-3-",
    )?;
    push_number(out, 1000 + 10 * i + j)?;
    push_text(out, "\n\n")?;
    Ok(())
}

// Puts the users of the unit `i + 1` at the end.
fn push_users(out: &mut String, i: u32) -> Result<(), AllocError>
    requires { i < max_units }
    ensures { OnOk result (Puts (string_bytes out.old) (string_bytes out.new) (users i users_of_unit)) }
{
    for j in 0..USERS {
        push_user(out, i, j + 1)?;
    }
    Ok(())
}

// Puts the unit `i + 1` by itself at the end.
#[tactic(auto, unfolding(crate::specs::Objects::unit))]
fn push_unit(out: &mut String, i: u32) -> Result<(), AllocError>
    requires { i < max_units }
    ensures { OnOk result (Puts (string_bytes out.old) (string_bytes out.new) (unit i)) }
{
    push_text(out, "dn: OU=o")?;
    push_number(out, i + 1)?;
    push_text(out, ",DC=sample\nobjectClass: organizationalUnit\n\n")?;
    Ok(())
}

/// Puts the first `n` units with their users at the end.
pub(crate) fn push_units(out: &mut String, n: u32) -> Result<(), AllocError>
    requires { n ≤ max_units }
    ensures { OnOk result (Puts (string_bytes out.old) (string_bytes out.new) (units n)) }
{
    for i in 0..n {
        push_unit(out, i)?;
        push_users(out, i)?;
    }
    Ok(())
}
