//! Laws of values. Each is the contract of a function that does nothing.

ghost use Rattle.std.specs.Prelude.{◌≡◌, ◌↔◌, List, ℕ, Some, Ok, IsTrue};
ghost use Rattle.std.specs.Cmp.{IsTotalOrder};
ghost use Rattle.std.specs.declared.cmp.Ordering.TheVariants.{Equal};
ghost use Rattle.ad_bytes.specs.Reading.{IsBytes};
ghost use Rattle.ad_value.specs.declared.syntax.Syntax.{Syntax as SyntaxValue};
ghost use Rattle.ad_value.specs.Value.{Value as ValueValue, same_key, key_order};
ghost use Rattle.ad_value.specs.declared.value.Key.{Key as KeyValue};
ghost use Rattle.ad_value.specs.Normal.{IsNormal};
ghost use Rattle.ad_value.specs.ValueOf.{normal_of, normal_or_fault};

use ad_dn::what_a_text_spells;
use ad_ids::{
    a_sid_has_8_bytes_and_4_for_each, a_sid_is_read_as_spelled, what_a_sid_s_text_spells,
};

/// The value that bytes are in a syntax, as a function: it gives that value where there is one, and nothing where
/// there is none.
pub fn what_bytes_are()
    ensures { (s : SyntaxValue) (bytes : List ℕ) (v : ValueValue) → IsBytes bytes
        → (normal_of s bytes ≡ Some v) ↔ IsNormal s bytes v }
{
    what_a_text_spells();
    what_a_sid_s_text_spells();
    a_sid_is_read_as_spelled();
}

/// Bytes are one value of a syntax at most.
pub fn a_value_is_normal_in_one_way()
    ensures { (s : SyntaxValue) (bytes : List ℕ) (v w : ValueValue) → IsNormal s bytes v
        → IsNormal s bytes w → v ≡ w }
{
    what_a_text_spells();
    what_a_sid_s_text_spells();
    a_sid_is_read_as_spelled();
}

/// What a value shows reads back as that value.
pub fn what_is_shown_reads_back()
    ensures shown { (s : SyntaxValue) (bytes : List ℕ) (v : ValueValue) → IsNormal s bytes v
        → IsNormal s v.shown v }
    // The same of what is read: neither the length nor the form stands against it.
    ensures read { (s : SyntaxValue) (bytes : List ℕ) (v : ValueValue) → IsBytes bytes
        → normal_or_fault s bytes ≡ Ok v → normal_or_fault s v.shown ≡ Ok v }
{
    what_a_text_spells();
    what_a_sid_s_text_spells();
    a_sid_is_read_as_spelled();
    a_sid_has_8_bytes_and_4_for_each();
}

/// The order of keys is total, and keys are neither before nor after each other exactly where they are one.
pub fn keys_are_ordered()
    ensures total { IsTotalOrder key_order }
    ensures equal { (a b : KeyValue) → (key_order a b ≡ Equal) ↔ (a ≡ b) }
    ensures same { (a b : KeyValue) → IsTrue (same_key a b) ↔ (a ≡ b) }
{}
