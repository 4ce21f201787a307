//! The words of a line.

ghost use Rattle.std.specs.Prelude.{◌≡◌, ◌++◌, if◌then◌else◌, Some, None, List, OnOk, IfOk};
ghost use Rattle.std.specs.List.{flat_map};
ghost use Rattle.std.specs.Option.{option_map};
ghost use Rattle.ad_acl.specs.Codes.{right_codes};
ghost use Rattle.ad_sddl.specs.Canonical.{codes_text};
ghost use Rattle.ad_access_dir.specs.Labels.{is_title};
ghost use Rattle.ad_bytes.specs.Puts.{Puts, spaced};
ghost use Rattle.ad_dsacls.specs.Words.{kind_text, own_flag, flags_text, origin_text, class_name, attr_name};
ghost use Rattle.ad_dsacls.specs.Words.{right_name, schema_name, type_text};

use crate::pieces::put_spaced;
use ad_access_dir::is_title;
use ad_acl::{AceKind, Code, INHERITED, flag_codes, right_codes};
use ad_ids::Guid;
use ad_schema::{AttrInfo, ClassInfo, RightInfo, Schema};
use std::alloc::{AllocError, Global};

// Puts the codes of a mask, in the order of the table.
fn put_codes(out: &mut Vec<u8>, table: &[Code], mask: u32) -> Result<(), AllocError>
    ensures { OnOk result (out.new.items ≡ out.old.items ++ codes_text table.now mask) }
{
    for code in table {
        if mask & code.bits != 0 {
            out.extend_from_slice(&code.letters)?;
        }
    }
    Ok(())
}

// Puts those of flags, but that of an inherited entry.
fn put_flags(out: &mut Vec<u8>, table: &[Code], flags: u32) -> Result<(), AllocError>
    ensures { OnOk result (out.new.items ≡ out.old.items ++ flat_map (own_flag flags) table.now) }
{
    for code in table {
        if code.bits != 0x10 && flags & code.bits != 0 {
            out.extend_from_slice(&code.letters)?;
        }
    }
    Ok(())
}

/// The codes of the rights that a mask has.
pub(crate) fn codes_of(alloc: Global, mask: u32) -> Result<Vec<u8>, AllocError>
    ensures { IfOk result (λ text. text.items ≡ codes_text right_codes mask) }
{
    let mut text = Vec::new(alloc);
    put_codes(&mut text, right_codes(), mask)?;
    Ok(text)
}

/// The codes of flags but that of an inherited entry.
#[tactic(auto, unfolding(crate::specs::Words::flags_text))]
pub(crate) fn flags_text(alloc: Global, flags: u8) -> Result<Vec<u8>, AllocError>
    ensures { IfOk result (λ text. text.items ≡ flags_text flags) }
{
    let mut text = Vec::new(alloc);
    put_flags(&mut text, flag_codes(), u32::from(flags))?;
    Ok(text)
}

pub(crate) fn kind_text(kind: AceKind) -> &'static [u8]
    ensures { result.now ≡ kind_text kind }
{
    match kind {
        AceKind::Allow => b"allow",
        AceKind::Deny => b"deny",
        AceKind::Audit => b"audit",
    }
}

/// Whether an entry is inherited.
pub(crate) fn origin_text(flags: u8) -> &'static [u8]
    ensures { result.now ≡ origin_text flags }
{
    if flags & INHERITED != 0 {
        b"inherited"
    } else {
        b"explicit"
    }
}

// ---- types

// The name of the first class of a GUID.
#[tactic(auto, unfolding(crate::specs::Words::class_name))]
fn class_name(classes: &[ClassInfo], guid: Guid) -> Option<&[u8]>
    ensures { option_map (λ name. name.now) result ≡ class_name classes.now guid }
{
    for class in classes {
        if class.guid == guid {
            return Some(class.name.as_slice());
        }
    }
    None
}

// The name of the first attribute of a GUID.
#[tactic(auto, unfolding(crate::specs::Words::attr_name))]
fn attr_name(attrs: &[AttrInfo], guid: Guid) -> Option<&[u8]>
    ensures { option_map (λ name. name.now) result ≡ attr_name attrs.now guid }
{
    for attr in attrs {
        if attr.guid == guid {
            return Some(attr.name.as_slice());
        }
    }
    None
}

// The cn of a right, where a line can name the right so.
fn titled(right: &RightInfo) -> Option<&[u8]>
    ensures { option_map (λ name. name.now) result
        ≡ (if is_title right.now.name then Some right.now.name else None) }
{
    let name = right.name.as_slice();
    if is_title(name) { Some(name) } else { None }
}

// The name of the first right of a GUID, where a line can name it so.
#[tactic(auto, unfolding(crate::specs::Words::right_name))]
fn right_name(rights: &[RightInfo], guid: Guid) -> Option<&[u8]>
    ensures { option_map (λ name. name.now) result ≡ right_name rights.now guid }
{
    for right in rights {
        if right.guid == guid {
            return titled(right);
        }
    }
    None
}

// The name of the first of a GUID.
fn schema_name(schema: &Schema, guid: Guid) -> Option<&[u8]>
    ensures { option_map (λ name. name.now) result ≡ schema_name schema.entry.now guid }
{
    match class_name(schema.classes(), guid) {
        Some(name) => Some(name),
        None => match attr_name(schema.attrs(), guid) {
            Some(name) => Some(name),
            None => right_name(schema.rights(), guid),
        },
    }
}

/// Puts what a type is called, `-` where there is none, and a blank.
pub(crate) fn put_type(
    alloc: Global,
    out: &mut Vec<u8>,
    schema: &Schema,
    guid: &Option<Guid>,
) -> Result<(), AllocError>
    ensures { OnOk result (Puts out.old.items out.new.items
        (spaced (type_text schema.now guid.now))) }
{
    match guid {
        None => put_spaced(out, b"-"),
        Some(guid) => match schema_name(schema, *guid) {
            Some(name) => put_spaced(out, name),
            None => put_spaced(out, guid.text(alloc)?.as_bytes()),
        },
    }
}
