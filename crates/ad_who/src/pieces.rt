//! Pieces of text. Where memory runs out a part may have been put: the one call that makes the text then drops it.

ghost use Rattle.std.specs.Prelude.{◌≡◌, ◌++◌, codes, decimal, OnOk};
ghost use Rattle.ad_ids.specs.SidText.{sid_text};
ghost use Rattle.ad_who.specs.Lines.{decider_text, reason_text};
ghost use Rattle.ad_bytes.specs.Puts.{spaced, labelled};

use crate::decider::Decider;
use crate::reason::Reason;
use ad_ids::Sid;
use ad_principals::{put, put_labelled, put_spaced};
use std::alloc::{AllocError, Global};

/// A label, a number and a line end.
pub(crate) fn put_number_line(
    into: &mut Vec<u8>,
    label: &[u8],
    number: u8,
) -> Result<(), AllocError>
    ensures { OnOk result (into.new.items ≡ into.old.items ++ labelled label.now (decimal number)) }
{
    put_labelled(into, label, itoa::Buffer::new().format(number).as_bytes())
}

/// A label, an identifier and a line end.
pub(crate) fn put_sid_line(
    alloc: Global,
    into: &mut Vec<u8>,
    label: &[u8],
    sid: &Sid,
) -> Result<(), AllocError>
    ensures { OnOk result (into.new.items ≡ into.old.items
        ++ labelled label.now (sid_text sid.now)) }
{
    let text = sid.text(alloc)?;
    put_labelled(into, label, text.as_bytes())
}

fn put_place(into: &mut Vec<u8>, place: u64) -> Result<(), AllocError>
    ensures { OnOk result (into.new.items ≡ into.old.items ++ spaced (decimal place)) }
{
    put_spaced(into, itoa::Buffer::new().format(place).as_bytes())
}

// What decides, and a blank.
fn put_decider(into: &mut Vec<u8>, decider: Decider) -> Result<(), AllocError>
    ensures { OnOk result (into.new.items ≡ into.old.items ++ spaced (decider_text decider)) }
{
    match decider {
        Decider::Privilege => put_spaced(into, b"privilege"),
        Decider::Owner => put_spaced(into, b"owner"),
        Decider::Allowed(place) => put_place(into, place),
        Decider::Refused(_) => put_spaced(into, b""),
        Decider::Nothing => put_spaced(into, b""),
    }
}

fn put_above(into: &mut Vec<u8>, decider: Decider) -> Result<(), AllocError>
    ensures { OnOk result (into.new.items
        ≡ into.old.items ++ spaced (codes "parent:" ++ decider_text decider)) }
{
    put(into, b"parent:")?;
    put_decider(into, decider)
}

/// Why a token is told yes, and a blank.
///
/// # Errors
///
/// Memory ran out.
pub fn put_reason(into: &mut Vec<u8>, reason: Reason) -> Result<(), AllocError>
    ensures { OnOk result (into.new.items ≡ into.old.items ++ spaced (reason_text reason)) }
{
    match reason {
        Reason::Free => put_spaced(into, b"-"),
        Reason::Own(decider) => put_decider(into, decider),
        Reason::Above(decider) => put_above(into, decider),
    }
}
