//! The frames of the sample.

ghost use Rattle.std.specs.Prelude.{◌≡◌, ◌<◌, ◌++◌, ◌∷◌, [], length, IfOk, OnOk};
ghost use Rattle.ad_bytes.specs.Numbers.{be_bytes};
ghost use Rattle.ad_ids.specs.Sid.{sid_bytes};
ghost use Rattle.ad_frames.specs.Kinds.{token_byte, message_byte, steps_byte};
ghost use Rattle.ad_gen.specs.Messages.{modify_message, search_message};
ghost use Rattle.ad_bytes.specs.Puts.{Puts};
ghost use Rattle.ad_gen.specs.Frames.{frame, identity, builtin_administrators, in_domain, administrator, user_token};
ghost use Rattle.ad_gen.specs.Frames.{all_steps, changing, whole, frames};

use crate::messages::{modify_message, search_message};
use ad_frames::{MAX_STEPS, kind_byte};
use ad_ids::{SECURITY, Sid};
use std::alloc::{AllocError, Global};

// Puts bytes at the end.
fn put_bytes(into: &mut Vec<u8>, bytes: &[u8]) -> Result<(), AllocError>
    ensures { OnOk result (Puts into.old.items into.new.items bytes.now) }
{
    into.extend_from_slice(bytes)?;
    Ok(())
}

// Puts a number at the end, in four bytes, the most significant first. Of a number above 2^32 these are the last
// four.
fn put_number(into: &mut Vec<u8>, number: usize) -> Result<(), AllocError>
    ensures { OnOk result (Puts into.old.items into.new.items (be_bytes 4 number)) }
{
    let bytes = (number as u64).to_be_bytes();
    into.extend_from_slice(&bytes[4..])?;
    Ok(())
}

// Puts a frame of connection 0 at the end.
fn put_frame(into: &mut Vec<u8>, kind: u8, body: &[u8]) -> Result<(), AllocError>
    ensures { OnOk result (Puts into.old.items into.new.items (frame kind body.now)) }
{
    put_bytes(into, &[kind, 0, 0])?;
    put_number(into, body.len())?;
    put_bytes(into, body)?;
    Ok(())
}

// The identifier with one more sub-authority.
fn below(sid: Sid, number: u32) -> Sid
    requires { length sid.sub_authorities < 15 }
    ensures { result ≡ record {
      authority = sid.authority;
      sub_authorities = sid.sub_authorities
          ++ number ∷ [];
    } }
{
    match sid.child(number) {
        Some(child) => child,
        None => unreachable!(),
    }
}

fn builtin_administrators() -> Sid
    ensures { result ≡ builtin_administrators }
{
    below(Sid::well_known(5, 32), 544)
}

// S-1-5-21-1-2-3 and the number.
fn in_domain(number: u32) -> Sid
    ensures { result ≡ in_domain number }
{
    below(below(below(below(Sid::well_known(5, 21), 1), 2), 3), number)
}

// Puts the identifier's bytes at the end.
fn put_sid(into: &mut Vec<u8>, sid: &Sid) -> Result<(), AllocError>
    ensures { OnOk result (Puts into.old.items into.new.items (sid_bytes sid.now)) }
{
    sid.append(into)?;
    Ok(())
}

// Puts a token's version and privileges, its user, who is the owner too, and the primary group at the end.
fn put_identity(
    into: &mut Vec<u8>,
    privileges: u8,
    user: &Sid,
    primary: &Sid,
) -> Result<(), AllocError>
    ensures { OnOk result (Puts into.old.items into.new.items
        (identity privileges user.now primary.now)) }
{
    put_bytes(into, &[1, privileges])?;
    put_sid(into, user)?;
    put_sid(into, user)?;
    put_sid(into, primary)?;
    Ok(())
}

// The token of the administrators, who may read and write SACLs, put at the end.
fn put_administrator(into: &mut Vec<u8>) -> Result<(), AllocError>
    ensures { OnOk result (Puts into.old.items into.new.items administrator) }
{
    let sid = builtin_administrators();
    put_identity(into, SECURITY, &sid, &sid)?;
    put_bytes(into, &[0, 0])?;
    Ok(())
}

// The token of the second user of the first unit, in the domain's users, with two groups: authenticated users and
// everyone, put at the end.
fn put_user_token(into: &mut Vec<u8>) -> Result<(), AllocError>
    ensures { OnOk result (Puts into.old.items into.new.items user_token) }
{
    put_identity(into, 0, &in_domain(1002), &in_domain(513))?;
    put_bytes(into, &[0, 2])?;
    put_sid(into, &Sid::well_known(5, 11))?;
    put_sid(into, &Sid::well_known(1, 0))?;
    Ok(())
}

fn administrator(alloc: Global) -> Result<Vec<u8>, AllocError>
    ensures { IfOk result (λ bytes. bytes.items ≡ administrator) }
{
    let mut bytes = Vec::new(alloc);
    put_administrator(&mut bytes)?;
    Ok(bytes)
}

fn user_token(alloc: Global) -> Result<Vec<u8>, AllocError>
    ensures { IfOk result (λ bytes. bytes.items ≡ user_token) }
{
    let mut bytes = Vec::new(alloc);
    put_user_token(&mut bytes)?;
    Ok(bytes)
}

// Puts the frame of a token at the end.
fn put_administrator_frame(alloc: Global, into: &mut Vec<u8>) -> Result<(), AllocError>
    ensures { OnOk result (Puts into.old.items into.new.items (frame token_byte administrator)) }
{
    let token = administrator(alloc)?;
    put_frame(into, kind_byte::TOKEN, &token)?;
    Ok(())
}

fn put_user_frame(alloc: Global, into: &mut Vec<u8>) -> Result<(), AllocError>
    ensures { OnOk result (Puts into.old.items into.new.items (frame token_byte user_token)) }
{
    let token = user_token(alloc)?;
    put_frame(into, kind_byte::TOKEN, &token)?;
    Ok(())
}

// Puts the frame of a message at the end.
fn put_modify_frame(alloc: Global, into: &mut Vec<u8>) -> Result<(), AllocError>
    ensures { OnOk result (Puts into.old.items into.new.items (frame message_byte modify_message)) }
{
    let message = modify_message(alloc)?;
    put_frame(into, kind_byte::MESSAGE, &message)?;
    Ok(())
}

fn put_search_frame(alloc: Global, into: &mut Vec<u8>) -> Result<(), AllocError>
    ensures { OnOk result (Puts into.old.items into.new.items (frame message_byte search_message)) }
{
    let message = search_message(alloc)?;
    put_frame(into, kind_byte::MESSAGE, &message)?;
    Ok(())
}

fn steps(alloc: Global) -> Result<Vec<u8>, AllocError>
    ensures { IfOk result (λ bytes. bytes.items ≡ all_steps) }
{
    let mut bytes = Vec::new(alloc);
    put_number(&mut bytes, MAX_STEPS as usize)?;
    Ok(bytes)
}

// Puts the frame of 1,000,000 steps at the end.
fn put_steps_frame(alloc: Global, into: &mut Vec<u8>) -> Result<(), AllocError>
    ensures { OnOk result (Puts into.old.items into.new.items (frame steps_byte all_steps)) }
{
    let steps = steps(alloc)?;
    put_frame(into, kind_byte::STEPS, &steps)?;
    Ok(())
}

// Puts the frames that change and propagate at the end.
fn put_changing(alloc: Global, into: &mut Vec<u8>) -> Result<(), AllocError>
    ensures { OnOk result (Puts into.old.items into.new.items changing) }
{
    put_administrator_frame(alloc, into)?;
    put_modify_frame(alloc, into)?;
    put_steps_frame(alloc, into)?;
    put_frame(into, kind_byte::RUN, &[])?;
    put_steps_frame(alloc, into)?;
    Ok(())
}

// Puts all frames at the end.
fn put_frames(alloc: Global, into: &mut Vec<u8>) -> Result<(), AllocError>
    ensures { OnOk result (Puts into.old.items into.new.items whole) }
{
    put_changing(alloc, into)?;
    put_user_frame(alloc, into)?;
    put_search_frame(alloc, into)?;
    Ok(())
}

/// The frames of the sample, all on connection 0: an administrator's token, a change of the domain's DACL (message
/// 1), 1,000,000 steps, a run of the protection, as many steps again, a user's token, and a search for all users
/// (message 2). They are the same for each size.
///
/// # Errors
///
/// Out of memory.
pub fn frames(alloc: Global, _n: u32) -> Result<Vec<u8>, AllocError>
    ensures { IfOk result (λ bytes. bytes.items ≡ frames _n) }
{
    let mut bytes = Vec::new(alloc);
    put_frames(alloc, &mut bytes)?;
    Ok(bytes)
}
