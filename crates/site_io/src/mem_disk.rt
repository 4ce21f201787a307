//! Two slots and an output in memory, with a record of the calls that made them what they are.

ghost use Rattle.std.specs.Prelude.{◌≡◌, ◌+◌, ◌<◌, ◌≤◌, ◌^◌, ◌++◌, ◌∷◌, ℕ, [], IfOk, IsTrue, MatchBool};
ghost use Rattle.std.specs.Prelude.{if◌then◌else◌, false, length, vec_len, Vec};
ghost use Rattle.std.specs.declared.alloc.Global.{Global};
ghost use Rattle.site_io.specs.Disk.{put};
ghost use Rattle.site_io.specs.Calls.{held_by, said_by};
ghost use Rattle.site_io.specs.declared.slot.Slot.TheVariants.{A, B};
ghost use Rattle.site_io.specs.declared.call.Call.TheVariants.{Write, Emit};

use crate::Slot;
use crate::call::{Call, note};
use std::alloc::{AllocError, Global};

// Each call is put into the record, or there is no room or no memory for it: then it does nothing, and answers false.
#[derive(Drop)]
pub(crate) struct MemDisk {
    pub first_a: Vec<u8>,
    pub first_b: Vec<u8>,
    pub done: Vec<Call>,
    pub a: Vec<u8>,
    pub b: Vec<u8>,
    pub out: Vec<u8>,
    pub ghost in_a: { a.items ≡ held_by A first_a.items done.items },
    pub ghost in_b: { b.items ≡ held_by B first_b.items done.items },
    pub ghost said: { out.items ≡ said_by done.items },
    pub ghost few: { vec_len done < 2 ^ 32 },
}

impl MemDisk {
    ghost use Rattle.std.specs.Prelude.{Some};
    ghost use Rattle.site_io.specs.Disk.{images_of, at_slot, with_slot, GoesOn, LeavesSame, LeavesAll, LeavesTorn};
    ghost use Rattle.site_io.specs.Disk.{LeavesEmitted, LeavesHeld};
    ghost use Rattle.site_io.specs.MemDisk.{held_in, left_in};

    pub fn new(alloc: Global, a: &[u8], b: &[u8]) -> Result<MemDisk, AllocError>
        ensures held { IfOk result (λ disk. held_in disk ≡ images_of a.now b.now) }
        ensures out { IfOk result (λ disk. disk.out.items ≡ []) }
        ensures first { IfOk result
            (λ disk. (disk.first_a.items ≡ a.now) × (disk.first_b.items ≡ b.now)) }
        ensures done { IfOk result (λ disk. disk.done.items ≡ []) }
    {
        Ok(MemDisk {
            first_a: a.to_vec(alloc)?,
            first_b: b.to_vec(alloc)?,
            done: Vec::new(alloc),
            a: a.to_vec(alloc)?,
            b: b.to_vec(alloc)?,
            out: Vec::new(alloc),
        })
    }

    // A call that does nothing.
    pub fn pass(&mut self) -> bool
        ensures held { held_in self.new ≡ held_in self.old }
        ensures out { self.new.out.items ≡ self.old.out.items }
        ensures moments { GoesOn (length self.old.done.items) (length self.new.done.items)
            (left_in self.old) (left_in self.new) }
        ensures images { LeavesSame (length self.old.done.items) (left_in self.old)
            (left_in self.new) }
        ensures same { LeavesAll (length self.old.done.items) (length self.new.done.items)
            (left_in self.old) (left_in self.new) }
        ensures noted { MatchBool result (length self.new.done.items ≡ length self.old.done.items
            + 1)
            (length self.new.done.items ≡ length self.old.done.items) }
    {
        note(&mut self.done, Call::Other)
    }

    pub fn write(&mut self, alloc: Global, slot: Slot, at: usize, bytes: &[u8]) -> bool
        requires { at ≤ length (at_slot slot (held_in self.old)) }
        ensures held { MatchBool result
            (held_in self.new ≡ with_slot slot (held_in self.old)
            (put at bytes.now (at_slot slot (held_in self.old))))
            (held_in self.new ≡ held_in self.old) }
        ensures out { self.new.out.items ≡ self.old.out.items }
        ensures moments { GoesOn (length self.old.done.items) (length self.new.done.items)
            (left_in self.old) (left_in self.new) }
        ensures images { LeavesTorn slot at (length bytes.now) (length self.old.done.items)
            (left_in self.old) (left_in self.new) }
        ensures undone { result ≡ false → length self.new.done.items ≡ length self.old.done.items }
    {
        match slot {
            Slot::A => write_over(alloc, &mut self.done, &mut self.a, slot, at, bytes),
            Slot::B => write_over(alloc, &mut self.done, &mut self.b, slot, at, bytes),
        }
    }

    pub fn sync(&mut self, slot: Slot) -> bool
        ensures lasts { IsTrue result → LeavesHeld slot (Some (held_in self.new))
            (length self.new.done.items) (left_in self.new) }
        ensures held { held_in self.new ≡ held_in self.old }
        ensures out { self.new.out.items ≡ self.old.out.items }
        ensures moments { GoesOn (length self.old.done.items) (length self.new.done.items)
            (left_in self.old) (left_in self.new) }
        ensures images { LeavesSame (length self.old.done.items) (left_in self.old)
            (left_in self.new) }
        ensures undone { result ≡ false → length self.new.done.items ≡ length self.old.done.items }
        ensures failed { result ≡ false → LeavesAll (length self.old.done.items)
            (length self.new.done.items) (left_in self.old) (left_in self.new) }
    {
        note(&mut self.done, Call::Sync(slot))
    }

    pub fn emit(&mut self, alloc: Global, bytes: &[u8]) -> bool
        ensures held { held_in self.new ≡ held_in self.old }
        ensures out { self.new.out.items
            ≡ (if result then self.old.out.items ++ bytes.now else self.old.out.items) }
        ensures moments { GoesOn (length self.old.done.items) (length self.new.done.items)
            (left_in self.old) (left_in self.new) }
        ensures images { LeavesEmitted bytes.now (length self.old.done.items) (left_in self.old)
            (left_in self.new) }
        ensures undone { result ≡ false → length self.new.done.items ≡ length self.old.done.items }
    {
        append(alloc, &mut self.done, &mut self.out, bytes)
    }
}

// What a slot holds once bytes were written at an offset in it.
pub(crate) fn written(
    alloc: Global,
    old: &[u8],
    at: usize,
    bytes: &[u8],
) -> Result<Vec<u8>, AllocError>
    ensures { IfOk result (λ new. new.items ≡ put at bytes.now old.now) }
{
    let front = at.min(old.len());
    let mut new = old[..front].to_vec(alloc)?;
    new.extend_from_slice(bytes)?;
    if bytes.len() < old.len() - front {
        new.extend_from_slice(&old[front + bytes.len()..])?;
    }
    Ok(new)
}

// Writes over what a slot holds, and puts the call into the record. At false neither was done.
fn write_over(
    alloc: Global,
    done: &mut Vec<Call>,
    held: &mut Vec<u8>,
    slot: Slot,
    at: usize,
    bytes: &[u8],
) -> bool
    requires few { vec_len done.old < 2 ^ 32 }
    requires at_within { at ≤ vec_len held.old }
    ensures few { vec_len done.new < 2 ^ 32 }
    ensures done { MatchBool result
        ((call : Vec ℕ Global) × (call.items ≡ bytes.now)
        × (done.new.items ≡ done.old.items ++ Write slot at call ∷ []))
        (done.new.items ≡ done.old.items) }
    ensures held { held.new.items ≡ (if result then put at bytes.now held.old.items
        else held.old.items) }
{
    let (Ok(next), Ok(kept)) = (written(alloc, held, at, bytes), bytes.to_vec(alloc)) else {
        return false;
    };
    let noted = note(
        done,
        Call::Write {
            slot,
            at,
            bytes: kept,
        },
    );
    if noted {
        *held = next;
    }
    noted
}

// Appends bytes to what was emitted, and puts the call into the record. At false neither was done.
fn append(alloc: Global, done: &mut Vec<Call>, out: &mut Vec<u8>, bytes: &[u8]) -> bool
    requires { vec_len done.old < 2 ^ 32 }
    ensures few { vec_len done.new < 2 ^ 32 }
    ensures done { MatchBool result
        ((call : Vec ℕ Global) × (call.items ≡ bytes.now)
        × (done.new.items ≡ done.old.items ++ Emit call ∷ []))
        (done.new.items ≡ done.old.items) }
    ensures out { out.new.items ≡ (if result then out.old.items ++ bytes.now else out.old.items) }
{
    let Ok(kept) = bytes.to_vec(alloc) else {
        return false;
    };
    let before = out.len();
    if out.extend_from_slice(bytes).is_err() {
        return false;
    }
    let noted = note(done, Call::Emit(kept));
    if !noted {
        out.truncate(before);
    }
    noted
}
