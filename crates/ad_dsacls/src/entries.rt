//! The lines of entries and lists.

ghost use Rattle.std.specs.Prelude.{◌≡◌, ◌++◌, OnOk};
ghost use Rattle.std.specs.List.{flat_map};
ghost use Rattle.ad_ids.specs.SidText.{sid_text};
ghost use Rattle.ad_bytes.specs.Puts.{Puts, spaced};
ghost use Rattle.ad_dsacls.specs.Words.{labelled, or_dash, flags_text};
ghost use Rattle.ad_sddl.specs.Canonical.{rights_text};
ghost use Rattle.ad_dsacls.specs.Listing.{entry_line, protection_text, list_lines, lines_of};

use crate::pieces::{put, put_labelled, put_or_dash, put_spaced};
use crate::words::{flags_text, kind_text, origin_text, put_type};
use ad_acl::Ace;
use ad_ids::Sid;
use ad_schema::Schema;
use ad_sd::{AceList, Sd};
use std::alloc::{AllocError, Global};

fn put_sid(alloc: Global, out: &mut Vec<u8>, sid: &Sid) -> Result<(), AllocError>
    ensures { OnOk result (Puts out.old.items out.new.items (spaced (sid_text sid.now))) }
{
    put_spaced(out, sid.text(alloc)?.as_bytes())
}

fn put_rights(alloc: Global, out: &mut Vec<u8>, mask: u32) -> Result<(), AllocError>
    ensures { OnOk result (Puts out.old.items out.new.items (spaced (or_dash (rights_text mask)))) }
{
    put_or_dash(out, ad_sddl::rights_text(alloc, mask)?.as_bytes())
}

fn put_flags(alloc: Global, out: &mut Vec<u8>, flags: u8) -> Result<(), AllocError>
    ensures { OnOk result (Puts out.old.items out.new.items (spaced (or_dash (flags_text flags)))) }
{
    put_or_dash(out, flags_text(alloc, flags)?.as_slice())
}

fn put_entry(alloc: Global, out: &mut Vec<u8>, schema: &Schema, ace: &Ace) -> Result<(), AllocError>
    ensures { OnOk result (Puts out.old.items out.new.items (entry_line schema.now ace.now)) }
{
    put_spaced(out, kind_text(ace.kind))?;
    put_sid(alloc, out, &ace.sid)?;
    put_rights(alloc, out, ace.mask)?;
    put_type(alloc, out, schema, &ace.object)?;
    put_type(alloc, out, schema, &ace.inherited)?;
    put_flags(alloc, out, ace.flags)?;
    put(out, origin_text(ace.flags))?;
    put(out, b"\n")
}

fn put_entries(
    alloc: Global,
    out: &mut Vec<u8>,
    schema: &Schema,
    entries: &[Ace],
) -> Result<(), AllocError>
    ensures { OnOk result (Puts out.old.items out.new.items
        (flat_map (entry_line schema.now) entries.now)) }
{
    for ace in entries {
        put_entry(alloc, out, schema, ace)?;
    }
    Ok(())
}

fn protection_text(protected: bool) -> &'static [u8]
    ensures { result.now ≡ protection_text protected }
{
    if protected {
        b" protected"
    } else {
        b" inherits"
    }
}

fn put_list(
    alloc: Global,
    out: &mut Vec<u8>,
    schema: &Schema,
    label: &[u8],
    list: &AceList,
) -> Result<(), AllocError>
    ensures { OnOk result (Puts out.old.items out.new.items
        (list_lines schema.now label.now list.now)) }
{
    put_labelled(out, label, protection_text(list.protected))?;
    put_entries(alloc, out, schema, list.entries.as_slice())
}

fn put_sid_line(alloc: Global, out: &mut Vec<u8>, label: &[u8], sid: &Sid) -> Result<(), AllocError>
    ensures { OnOk result (Puts out.old.items out.new.items
        (labelled label.now (sid_text sid.now))) }
{
    put_labelled(out, label, sid.text(alloc)?.as_bytes())
}

/// Puts the lines of an object of a name and a descriptor.
pub(crate) fn put_lines(
    alloc: Global,
    out: &mut Vec<u8>,
    schema: &Schema,
    name: &[u8],
    sd: &Sd,
) -> Result<(), AllocError>
    ensures { OnOk result (Puts out.old.items out.new.items (lines_of schema.now name.now sd.now)) }
{
    put_labelled(out, b"object ", name)?;
    put_sid_line(alloc, out, b"owner ", &sd.owner)?;
    put_sid_line(alloc, out, b"group ", &sd.group)?;
    put_list(alloc, out, schema, b"dacl", &sd.dacl)?;
    put_list(alloc, out, schema, b"sacl", &sd.sacl)
}
