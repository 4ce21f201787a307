//! How a record of the base schema is written, of an attribute, a class and a right.

ghost use Rattle.std.specs.Prelude.{◌≡◌, ◌++◌, ◌∷◌, [], codes, OnOk};
ghost use Rattle.std.specs.String.{string_bytes};
ghost use Rattle.ad_gen.specs.Lines.{encoded_line};
ghost use Rattle.ad_bytes.specs.Puts.{Puts};
ghost use Rattle.ad_gen.specs.Schema.{named, begun, attribute, class, right, own_guid};

use crate::lines::{push_encoded, push_line, push_text};
use std::alloc::AllocError;

// a0000000-0000-4000-8000-0000000000kk in packet order; of a class it begins with c0.
fn own_guid(first: u8, number: u8) -> [u8; 16]
    ensures { result ≡ own_guid first number }
{
    [
        0, 0, 0, first, 0, 0, 0, 0x40, 0x80, 0, 0, 0, 0, 0, 0, number,
    ]
}

// The line of a record's name.
#[tactic(auto, unfolding(crate::specs::Schema::named))]
fn push_named(out: &mut String, name: &str, place: &str) -> Result<(), AllocError>
    ensures { OnOk result (Puts (string_bytes out.old) (string_bytes out.new)
        (named name.now place.now)) }
{
    push_text(out, "dn: CN=")?;
    push_text(out, name)?;
    push_text(out, ",CN=")?;
    push_text(out, place)?;
    push_text(out, "\n")?;
    Ok(())
}

// The line of a GUID of this schema's own.
fn push_guid(out: &mut String, first: u8, number: u8) -> Result<(), AllocError>
    ensures { OnOk result (Puts (string_bytes out.old) (string_bytes out.new)
        (encoded_line (codes "schemaIDGUID") (own_guid first number))) }
{
    push_encoded(out, "schemaIDGUID", &own_guid(first, number))?;
    Ok(())
}

// The other lines of a record, and the empty line after it.
fn push_others(out: &mut String, others: &str) -> Result<(), AllocError>
    ensures { OnOk result (Puts (string_bytes out.old) (string_bytes out.new)
        (others.now ++ 10 ∷ [])) }
{
    push_text(out, others)?;
    push_text(out, "\n")?;
    Ok(())
}

// How the record of an attribute or a class begins.
#[tactic(auto, unfolding(crate::specs::Schema::begun))]
fn push_begun(out: &mut String, name: &str, class: &str) -> Result<(), AllocError>
    ensures { OnOk result (Puts (string_bytes out.old) (string_bytes out.new)
        (begun name.now class.now)) }
{
    push_named(out, name, "Schema")?;
    push_line(out, "objectClass", class)?;
    push_line(out, "lDAPDisplayName", name)?;
    Ok(())
}

/// The record of an attribute. Its other lines are whole ones.
#[tactic(auto, unfolding(crate::specs::Schema::attribute))]
pub(crate) fn push_attribute(
    out: &mut String,
    number: u8,
    name: &str,
    syntax: &str,
    others: &str,
) -> Result<(), AllocError>
    ensures { OnOk result (Puts (string_bytes out.old) (string_bytes out.new)
        (attribute number name.now syntax.now others.now)) }
{
    push_begun(out, name, "attributeSchema")?;
    push_line(out, "attributeSyntax", syntax)?;
    push_guid(out, 0xa0, number)?;
    push_others(out, others)?;
    Ok(())
}

/// The record of a class with this GUID.
#[tactic(auto, unfolding(crate::specs::Schema::class))]
pub(crate) fn push_class(
    out: &mut String,
    guid: &[u8],
    name: &str,
    others: &str,
) -> Result<(), AllocError>
    ensures { OnOk result (Puts (string_bytes out.old) (string_bytes out.new)
        (class guid.now name.now others.now)) }
{
    push_begun(out, name, "classSchema")?;
    push_encoded(out, "schemaIDGUID", guid)?;
    push_others(out, others)?;
    Ok(())
}

/// The record of a class whose GUID is this schema's own.
pub(crate) fn push_own_class(
    out: &mut String,
    number: u8,
    name: &str,
    others: &str,
) -> Result<(), AllocError>
    ensures { OnOk result (Puts (string_bytes out.old) (string_bytes out.new)
        (class (own_guid 0xc0 number) name.now others.now)) }
{
    push_begun(out, name, "classSchema")?;
    push_guid(out, 0xc0, number)?;
    push_others(out, others)?;
    Ok(())
}

/// The record of a right.
#[tactic(auto, unfolding(crate::specs::Schema::right))]
pub(crate) fn push_right(
    out: &mut String,
    name: &str,
    guid: &str,
    accesses: &str,
    applies: &str,
) -> Result<(), AllocError>
    ensures { OnOk result (Puts (string_bytes out.old) (string_bytes out.new)
        (right name.now guid.now accesses.now applies.now)) }
{
    push_named(out, name, "Rights")?;
    push_line(out, "objectClass", "controlAccessRight")?;
    push_line(out, "cn", name)?;
    push_line(out, "rightsGuid", guid)?;
    push_line(out, "validAccesses", accesses)?;
    push_line(out, "appliesTo", applies)?;
    push_text(out, "\n")?;
    Ok(())
}
