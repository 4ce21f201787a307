//! Messages as frames of connection 0.

ghost use Rattle.std.specs.Prelude.{◌≡◌, ◌++◌, ◌≤◌, length, OnOk};
ghost use Rattle.ad_bytes.specs.Numbers.{be_bytes};
ghost use Rattle.ad_ldifmod.specs.Grants.{IsOfFrame};
ghost use Rattle.cmd_grants.specs.Frames.{frame_with, frame_of};

use ad_frames::kind_byte;
use ad_ldap::Message;
use ad_ldifmod_message::write_message;
use std::alloc::{AllocError, Global};

/// The frame of a message begins with its kind and with connection 0.
const MESSAGE: &[u8] = &[kind_byte::MESSAGE, 0, 0];

// Puts a number at the end, in four bytes, the most significant first.
#[tactic(auto, unfolding(ad_bytes::specs::Numbers::be_bytes))]
fn put_number(into: &mut Vec<u8>, number: u32) -> Result<(), AllocError>
    ensures { OnOk result (into.new.items ≡ into.old.items ++ be_bytes 4 number) }
{
    into.extend_from_slice(&number.to_be_bytes())
}

// Puts a frame at the end.
#[tactic(auto, unfolding(crate::specs::Frames::frame_with))]
fn put_frame(into: &mut Vec<u8>, body: &[u8]) -> Result<(), AllocError>
    requires { length body.now ≤ 1048576 }
    ensures { OnOk result (into.new.items ≡ into.old.items ++ frame_with body.now) }
{
    into.extend_from_slice(MESSAGE)?;
    put_number(into, body.len() as u32)?;
    into.extend_from_slice(body)?;
    Ok(())
}

/// Puts the frame of a message at the end.
///
/// # Errors
///
/// Memory ran out.
pub(crate) fn put_message(
    alloc: Global,
    into: &mut Vec<u8>,
    message: &Message,
) -> Result<(), AllocError>
    requires { IsOfFrame message.now }
    ensures { OnOk result (into.new.items ≡ into.old.items ++ frame_of message.now) }
{
    let body = write_message(alloc, message)?;
    put_frame(into, &body)
}
