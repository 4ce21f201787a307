//! A call in the record of a site in memory.

ghost use Rattle.std.specs.Prelude.{◌≡◌, ◌<◌, ◌^◌, ◌++◌, ◌∷◌, [], vec_len, Contains, MatchBool};

use crate::Slot;

/// A call that was done. One that did nothing, as one that failed, is `Other`.
#[derive(Debug, Drop)]
pub(crate) enum Call {
    Write {
        slot: Slot,
        at: usize,
        bytes: Vec<u8>,
    },
    Sync(Slot),
    Emit(Vec<u8>),
    Other,
}

// Adds a call to the record. At false there is no room for it, and the record stays as it was.
pub(crate) fn note(done: &mut Vec<Call>, call: Call) -> bool
    requires { vec_len done.old < 2 ^ 32 }
    ensures noted { MatchBool result (done.new.items ≡ done.old.items ++ call ∷ [])
        (done.new.items ≡ done.old.items) }
    ensures few { vec_len done.new < 2 ^ 32 }
{
    done.len() < u32::MAX as usize && done.push(call).is_ok()
}

// Whether a number is on a list.
pub(crate) fn is_among(list: &[u32], number: u32) -> bool
    ensures { MatchBool result (Contains list.now number) (¬ Contains list.now number) }
{
    list.contains(&number)
}
