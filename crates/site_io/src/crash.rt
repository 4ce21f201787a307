//! What a crash leaves of a site in memory.

ghost use Rattle.std.specs.Prelude.{◌≡◌, ◌++◌, IfOk, OnOk, MatchBool};
ghost use Rattle.site_io.specs.Calls.{held_after, said_by, said_in, MayLeave};
ghost use Rattle.site_io.specs.Crashed.{kept_after, left_after, synced_in, CrashedTo};
ghost use Rattle.site_io.specs.TornBy.{TornBy};

use crate::Slot;
use crate::call::Call;
use crate::mem_disk::written;
use std::alloc::{AllocError, Global};

/// What a crash leaves: the bytes of the two slots, and all that had been emitted.
#[derive(Debug, Drop)]
pub struct Crash {
    pub a: Vec<u8>,
    pub b: Vec<u8>,
    pub out: Vec<u8>,
}

// What a slot held at its last sync among the calls, with the first bytes of its later writes, so many of them.
pub(crate) fn image_of(
    alloc: Global,
    slot: Slot,
    first: &[u8],
    calls: &[Call],
    kept: u32,
) -> Result<Vec<u8>, AllocError>
    ensures exact { IfOk result (λ image. CrashedTo slot first.now calls.now kept image.items) }
    ensures may { IfOk result (λ image. MayLeave slot first.now (λ old. old ≡ first.now) calls.now
        image.items) }
{
    let mut held = first.to_vec(alloc)?;
    let mut image = first.to_vec(alloc)?;
    let mut left = kept as usize;
    for call in calls {
        redo(alloc, slot, call, kept, &mut held, &mut image, &mut left)?;
    }
    Ok(image)
}

// One call more: what the slot then holds, and what a crash leaves.
fn redo(
    alloc: Global,
    slot: Slot,
    call: &Call,
    kept: u32,
    held: &mut Vec<u8>,
    image: &mut Vec<u8>,
    left: &mut usize,
) -> Result<(), AllocError>
    ensures held { OnOk result (held.new.items ≡ held_after slot held.old.items call.now) }
    ensures torn { OnOk result (TornBy slot held.old.items call.now image.old.items
        image.new.items) }
    ensures exact { OnOk result (MatchBool (synced_in slot call.now)
        ((image.new.items ≡ held.old.items) × (left.new ≡ kept))
        ((image.new.items ≡ kept_after slot left.old image.old.items call.now)
        × (left.new ≡ left_after slot left.old call.now))) }
{
    match call {
        Call::Write {
            slot: written_to,
            at,
            bytes,
        } => {
            if *written_to == slot {
                *held = written(alloc, held, *at, bytes)?;
                let n = bytes.len().min(*left);
                *image = written(alloc, image, *at, &bytes[..n])?;
                *left -= n;
            }
        }
        Call::Sync(synced) => {
            if *synced == slot {
                *image = held.clone()?;
                *left = kept as usize;
            }
        }
        _ => {}
    }
    Ok(())
}

// What calls emitted.
pub(crate) fn said(alloc: Global, calls: &[Call]) -> Result<Vec<u8>, AllocError>
    ensures { IfOk result (λ out. out.items ≡ said_by calls.now) }
{
    let mut out = Vec::new(alloc);
    for call in calls {
        say(&mut out, call)?;
    }
    Ok(out)
}

// One call more.
fn say(out: &mut Vec<u8>, call: &Call) -> Result<(), AllocError>
    ensures { OnOk result (out.new.items ≡ out.old.items ++ said_in call.now) }
{
    if let Call::Emit(bytes) = call {
        out.extend_from_slice(bytes)?;
    }
    Ok(())
}
