//! The line of an event.

ghost use Rattle.std.specs.Prelude.{◌≡◌, decimal, IfOk, OnOk};
ghost use Rattle.std.specs.Option.{option_copied};
ghost use Rattle.ad_ids.specs.SidText.{sid_text};
ghost use Rattle.ad_audit.specs.Line.{outcome_word, event_line};
ghost use Rattle.ad_ids.specs.GuidText.{guid_or_hyphen};
ghost use Rattle.ad_bytes.specs.Puts.{Puts, spaced};

use crate::event::Event;
use ad_acl::letters_of;
use ad_ids::{Guid, Sid};
use std::alloc::{AllocError, Global};

// The word for whether an access was granted.
fn outcome_word(success: bool) -> &'static [u8]
    ensures { result.now ≡ outcome_word success }
{
    if success { b"success" } else { b"failure" }
}

// Puts a piece at the end.
fn put(into: &mut Vec<u8>, piece: &[u8]) -> Result<(), AllocError>
    ensures { OnOk result (Puts into.old.items into.new.items piece.now) }
{
    into.extend_from_slice(piece)?;
    Ok(())
}

// A piece and a blank.
fn put_spaced(into: &mut Vec<u8>, piece: &[u8]) -> Result<(), AllocError>
    ensures { OnOk result (Puts into.old.items into.new.items (spaced piece.now)) }
{
    put(into, piece)?;
    put(into, b" ")
}

// A number and a blank.
fn put_number(into: &mut Vec<u8>, n: u32) -> Result<(), AllocError>
    ensures { OnOk result (Puts into.old.items into.new.items (spaced (decimal n))) }
{
    put_spaced(into, itoa::Buffer::new().format(n).as_bytes())
}

// The text of a GUID, or a hyphen, and a blank.
fn put_guid(alloc: Global, into: &mut Vec<u8>, guid: Option<&Guid>) -> Result<(), AllocError>
    ensures { OnOk result (Puts into.old.items into.new.items
        (spaced (guid_or_hyphen (option_copied guid.entry)))) }
{
    match guid {
        Some(guid) => {
            let text = guid.text(alloc)?;
            put_spaced(into, text.as_bytes())
        }
        None => put_spaced(into, b"-"),
    }
}

// The text of an identifier and a blank.
fn put_sid(alloc: Global, into: &mut Vec<u8>, sid: &Sid) -> Result<(), AllocError>
    ensures { OnOk result (Puts into.old.items into.new.items (spaced (sid_text sid.now))) }
{
    let text = sid.text(alloc)?;
    put_spaced(into, text.as_bytes())
}

/// The line of an event: `<frame> <connection> success|failure <code> <GUID or -> <user> <dn>` and a line end. The
/// right is one right, whose code is that of SDDL, or `AS` for the one to the SACL; any other mask has no code.
///
/// # Errors
///
/// Memory ran out.
#[tactic(auto, unfolding(crate::specs::Line::event_line))]
pub fn line(alloc: Global, event: &Event) -> Result<Vec<u8>, AllocError>
    ensures { IfOk result (λ text. text.items ≡ event_line event.now) }
{
    let mut text = Vec::new(alloc);
    put_number(&mut text, event.frame)?;
    put_number(&mut text, u32::from(event.connection))?;
    put_spaced(&mut text, outcome_word(event.success))?;
    put_spaced(&mut text, letters_of(event.right))?;
    put_guid(alloc, &mut text, event.guid.as_ref())?;
    put_sid(alloc, &mut text, &event.user)?;
    put(&mut text, event.dn.as_slice())?;
    put(&mut text, b"\n")?;
    Ok(text)
}
