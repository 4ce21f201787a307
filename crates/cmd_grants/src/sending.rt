//! Frames that are emitted as they come: what is held until then is bounded.

ghost use Rattle.std.specs.Prelude.{◌≡◌, ◌<◌, ◌≤◌, ◌++◌, [], length, IfSome, IfOk, IfErr, OnOk};
ghost use Rattle.ad_ldifmod.specs.Grants.{IsOfFrame};
ghost use Rattle.ad_ldifmod.specs.Taken.{HasRoom, GivesSome};
ghost use Rattle.cmd_grants.specs.Sending.{frame_if, Sends, Holds, GivesRest, StepsTo, StopsAt, SendsFrames};

use crate::frames::put_message;
use ad_dir::Dir;
use ad_ldap::Message;
use ad_ldifmod::{GrantFault, Taken, next_message};
use cmd_call::Outcome;
use site_io::{Failed, Site};
use std::alloc::{AllocError, Global};

/// Where this many bytes of frames or more are held they are emitted. What is fewer goes out by one call.
const MOST_HELD: usize = 16_777_216;

// Emits what is held, by one call.
fn send<S: Site>(site: &mut S, held: &[u8]) -> Result<(), Outcome>
    ensures { Sends S.Site held.now site.old site.new result }
{
    match site.emit(held) {
        Ok(()) => Ok(()),
        Err(Failed) => Err(Outcome::SiteFailed),
    }
}

// Whether what is held may stay so.
fn is_little(held: &[u8]) -> bool {
    held.len() < MOST_HELD
}

fn nothing(alloc: Global) -> Vec<u8>
    ensures { result.items ≡ [] }
{
    Vec::new(alloc)
}

// Emits what is held where it is much.
fn send_if_much<S: Site>(alloc: Global, site: &mut S, held: &mut Vec<u8>) -> Result<(), Outcome>
    ensures { Holds S.Site held.old.items held.new.items site.old site.new result [] }
{
    if is_little(held) {
        return Ok(());
    }
    match send(site, held) {
        Ok(()) => {
            *held = nothing(alloc);
            Ok(())
        }
        Err(outcome) => Err(outcome),
    }
}

// Puts the frame of a message, if there is one.
fn put_if(alloc: Global, held: &mut Vec<u8>, message: Option<Message>) -> Result<(), AllocError>
    requires { IfSome message IsOfFrame }
    ensures { OnOk result (held.new.items ≡ held.old.items ++ frame_if message) }
{
    match message {
        Some(message) => put_message(alloc, held, &message),
        None => Ok(()),
    }
}

// Holds the frame of a message, if there is one, and emits what is held where it is much.
fn hold<S: Site>(
    alloc: Global,
    site: &mut S,
    held: &mut Vec<u8>,
    message: Option<Message>,
) -> Result<(), Outcome>
    requires { IfSome message IsOfFrame }
    ensures { Holds S.Site held.old.items held.new.items site.old site.new result (frame_if message) }
{
    match put_if(alloc, held, message) {
        Ok(()) => send_if_much(alloc, site, held),
        Err(AllocError) => Err(Outcome::NoMemory),
    }
}

// Takes the next line, and holds its frame.
fn step<'a, S: Site>(
    alloc: Global,
    site: &mut S,
    held: &mut Vec<u8>,
    taken: &mut Taken,
    dir: &Dir,
    rest: &'a [u8],
) -> Result<&'a [u8], Outcome>
    requires some { 0 < length rest.now }
    requires room { HasRoom taken.old rest.now }
    requires good { GivesRest dir.now taken.old rest.now }
    ensures next { IfOk result (λ behind. StepsTo S.Site dir.now taken.old taken.new rest.now behind.now
        held.old.items held.new.items site.old site.new) }
    ensures cut { IfErr result (StopsAt S.Site dir.now taken.old rest.now held.old.items site.old
        site.new) }
{
    match next_message(alloc, taken, dir, rest) {
        Ok((message, behind)) => match hold(alloc, site, held, message) {
            Ok(()) => Ok(behind),
            Err(outcome) => Err(outcome),
        },
        Err(GrantFault::Memory) => Err(Outcome::NoMemory),
        Err(GrantFault::Bad { line: _, kind: _ }) => unreachable!(),
    }
}

/// Emits the frames of the messages that the lines of a text give, which were judged before: each gives one or says
/// nothing. What is held at once is one list for each object that is named, and 16 MiB of frames.
///
/// # Errors
///
/// `SiteFailed`, and `NoMemory`: a part of the frames was emitted.
pub(crate) fn send_frames<S: Site>(
    alloc: Global,
    site: &mut S,
    dir: &Dir,
    text: &[u8],
) -> Result<(), Outcome>
    requires few { length text.now ≤ 1048576 }
    requires some { GivesSome dir.now text.now }
    ensures { SendsFrames S.Site dir.now text.now site.old site.new result }
{
    let mut taken = Taken::none(alloc);
    let mut held = nothing(alloc);
    let mut rest = text;
    'lines: while !rest.is_empty() {
        match step(alloc, site, &mut held, &mut taken, dir, rest) {
            Ok(behind) => rest = behind,
            Err(outcome) => return Err(outcome),
        }
    }
    send(site, &held)
}
