//! Lines of what is granted, from masks.

ghost use Rattle.std.specs.Prelude.{OnOk};
ghost use Rattle.ad_acl.specs.Codes.{right_codes};
ghost use Rattle.ad_sddl.specs.Canonical.{codes_text};
ghost use Rattle.ad_bytes.specs.Puts.{Puts};
ghost use Rattle.ad_dsacls.specs.Effective.{line_of};
ghost use Rattle.ad_access_dir.specs.Labels.{label_of, right_title};

use crate::pieces::{put, put_labelled, put_spaced};
use crate::words::codes_of;
use ad_access_dir::is_title;
use ad_schema::RightInfo;
use std::alloc::{AllocError, Global};

// Puts a line, where at least one code stands in it.
fn put_if(out: &mut Vec<u8>, label: &[u8], codes: &[u8]) -> Result<(), AllocError>
    ensures { OnOk result (Puts out.old.items out.new.items (line_of label.now codes.now)) }
{
    match codes {
        [] => Ok(()),
        codes => put_labelled(out, label, codes),
    }
}

// Puts what stands before the codes of something that has a name.
fn put_label(out: &mut Vec<u8>, kind: &[u8], name: &[u8]) -> Result<(), AllocError>
    ensures { OnOk result (Puts out.old.items out.new.items (label_of kind.now name.now)) }
{
    put(out, kind)?;
    put_spaced(out, name)
}

fn put_named_if(out: &mut Vec<u8>, kind: &[u8], name: &[u8], codes: &[u8]) -> Result<(), AllocError>
    ensures { OnOk result (Puts out.old.items out.new.items
        (line_of (label_of kind.now name.now) codes.now)) }
{
    match codes {
        [] => Ok(()),
        codes => {
            put_label(out, kind, name)?;
            put(out, codes)?;
            put(out, b"\n")
        }
    }
}

/// Puts the line of a label and the rights of a mask, where it has one.
pub(crate) fn put_mask(
    alloc: Global,
    out: &mut Vec<u8>,
    label: &[u8],
    mask: u32,
) -> Result<(), AllocError>
    ensures { OnOk result (Puts out.old.items out.new.items
        (line_of label.now (codes_text right_codes mask))) }
{
    put_if(out, label, codes_of(alloc, mask)?.as_slice())
}

/// Puts the line of something that has a name, and of the rights of a mask, where it has one.
pub(crate) fn put_named(
    alloc: Global,
    out: &mut Vec<u8>,
    kind: &[u8],
    name: &[u8],
    mask: u32,
) -> Result<(), AllocError>
    ensures { OnOk result (Puts out.old.items out.new.items
        (line_of (label_of kind.now name.now) (codes_text right_codes mask))) }
{
    put_named_if(out, kind, name, codes_of(alloc, mask)?.as_slice())
}

/// Puts the line of a right, and of the rights of a mask, where it has one.
pub(crate) fn put_right(
    alloc: Global,
    out: &mut Vec<u8>,
    kind: &[u8],
    right: &RightInfo,
    mask: u32,
) -> Result<(), AllocError>
    ensures { OnOk result (Puts out.old.items out.new.items
        (line_of (label_of kind.now (right_title right.now)) (codes_text right_codes mask))) }
{
    if is_title(right.name.as_slice()) {
        return put_named(alloc, out, kind, right.name.as_slice(), mask);
    }
    put_named(alloc, out, kind, right.guid.text(alloc)?.as_bytes(), mask)
}
