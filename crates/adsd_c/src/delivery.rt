//! How answers get into the memory of the caller.

ghost use Rattle.std.specs.Prelude.{ℕ, List, Result};
ghost use Rattle.ad_bytes.specs.Reading.{GivesUnless};
ghost use Rattle.adsd_c.specs.declared.refusal.Refusal.{Refusal as RefusalValue};
ghost use Rattle.adsd_c.specs.Refusal.{is_memory};
ghost use Rattle.adsd_c.specs.Delivery.{Fills, Refuses, Delivers};

use crate::refusal::{Refusal, code_of, place_of};

/// There is too little room for the answer.
pub(crate) const NO_ROOM: u32 = 2;

// Fills the bytes at the start of the buffer, where there is room for them, and tells how many they are.
fn put(bytes: &[u8], out: &mut [u8], size: &mut usize) -> u32
    ensures { Fills bytes.now result out.old out.new size.new }
{
    *size = bytes.len();
    if out.len() < bytes.len() {
        return NO_ROOM;
    }
    out[..bytes.len()].copy_from_slice(bytes);
    0
}

// Tells why nothing is given.
fn refuse(fault: Refusal, size: &mut usize) -> u32
    ensures { (kept : List ℕ) → Refuses fault result kept kept size.new }
{
    *size = place_of(fault);
    code_of(fault)
}

/// Gives the answer to the caller.
pub(crate) fn deliver(answer: Result<Vec<u8>, Refusal>, out: &mut [u8], size: &mut usize) -> u32
    ensures { (expected : Result (List ℕ) RefusalValue) → GivesUnless is_memory (λ v. v.items)
        answer expected
        → Delivers expected result out.old out.new size.new }
{
    match answer {
        Ok(bytes) => put(bytes.as_slice(), out, size),
        Err(fault) => refuse(fault, size),
    }
}
