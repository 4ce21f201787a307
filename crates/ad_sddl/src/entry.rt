//! How one entry is read.

ghost use Rattle.std.specs.Prelude.{◌≡◌, true, false, ◌≤◌, ◌<◌, List, ℕ, Option, length, drop, OnOk};
ghost use Rattle.std.specs.Option.{option_copied};
ghost use Rattle.ad_bytes.specs.Reading.{Reads};
ghost use Rattle.ad_sddl.specs.Reading.{shape, type_at, entry_at};

use crate::fault::{ParseError, SddlKind};
use crate::field::{read_end, read_flags, read_guid, read_rights, takes};
use crate::numeric::read_sid;
use ad_acl::{Ace, AceKind};
use ad_bytes::Input;
use ad_ids::Sid;

// What the type of an entry says: what the entry does, and whether it may have GUIDs.
#[derive(Clone, Copy)]
struct Shape {
    kind: AceKind,
    is_object: bool,
}

const fn plain(kind: AceKind) -> Shape
    ensures { result ≡ shape kind false }
{
    Shape {
        kind,
        is_object: false,
    }
}

const fn object(kind: AceKind) -> Shape
    ensures { result ≡ shape kind true }
{
    Shape {
        kind,
        is_object: true,
    }
}

// The longest of the six types.
#[tactic(auto, unfolding(crate::specs::Reading::type_at))]
fn read_type(input: &mut Input<'_>) -> Result<Shape, ParseError>
    ensures read { Reads result input.new (type_at input.old) }
    ensures left { OnOk result (length input.new ≤ length input.old) }
{
    if takes(input, b"au") {
        return Ok(plain(AceKind::Audit));
    }
    if takes(input, b"oa") {
        return Ok(object(AceKind::Allow));
    }
    if takes(input, b"od") {
        return Ok(object(AceKind::Deny));
    }
    if takes(input, b"ou") {
        return Ok(object(AceKind::Audit));
    }
    if takes(input, b"a") {
        return Ok(plain(AceKind::Allow));
    }
    if takes(input, b"d") {
        return Ok(plain(AceKind::Deny));
    }
    Err(ParseError::Bad(SddlKind::AceKind, input.len()))
}

/// Reads an entry after its opening parenthesis.
#[tactic(auto, unfolding(crate::specs::Reading::entry_at))]
pub(crate) fn read_entry(input: &mut Input<'_>, domain: Option<&Sid>) -> Result<Ace, ParseError>
    ensures read { Reads result input.new (entry_at (option_copied domain.entry) input.old) }
    ensures left { OnOk result (length input.new ≤ length input.old) }
{
    let shape = read_type(input)?;
    read_end(input, b';')?;
    let flags = read_flags(input)?;
    let mask = read_rights(input)?;
    let object = read_guid(input, shape.is_object)?;
    let inherited = read_guid(input, shape.is_object)?;
    let sid = read_sid(input, domain)?;
    read_end(input, b')')?;
    Ok(Ace {
        kind: shape.kind,
        flags,
        mask,
        object,
        inherited,
        sid,
    })
}
