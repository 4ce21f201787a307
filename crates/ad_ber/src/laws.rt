//! Laws of the encodings, as contracts of functions that do nothing.
ghost use Rattle.std.specs.Prelude.{◌≤◌, ◌<◌, ◌^◌, ◌%◌, ℕ, List, length};
ghost use Rattle.ad_ber.specs.Element.{SpellsLength, SpellsElement};
ghost use Rattle.ad_ber.specs.Writing.{length_bytes, element_bytes};

/// What [`put`](crate::put) puts is an encoding of the element, so [`element`](crate::element) finds it there,
/// whatever follows.
pub fn what_is_put_is_an_element()
    ensures { (tag : ℕ) (body : List ℕ) → tag < 256 → tag % 32 < 31 → length body < 2 ^ 32
        → SpellsElement (record { tag = tag; body = body }) (element_bytes tag body) }
{}

/// No encoding of a length has fewer bytes than the one that is put.
pub fn no_length_is_shorter()
    ensures { (n : ℕ) (text : List ℕ) → SpellsLength n text → length (length_bytes n)
        ≤ length text }
{}
