//! The codes of the rights that may be asked for.

ghost use Rattle.std.specs.Prelude.{◌≡◌, ◌<◌, IfSome};
ghost use Rattle.ad_questions.specs.Asked.{bit_in, bit_of};

use ad_acl::{Code, right_codes};

// The place of the right of the letters in a table.
#[tactic(auto, unfolding(crate::specs::Asked::bit_in))]
fn bit_in(table: &[Code], letters: &[u8]) -> Option<u32>
    ensures { result ≡ bit_in table.now letters.now }
{
    for code in table {
        if code.letters.as_slice() == letters {
            return Some(code.place);
        }
    }
    None
}

/// The right of two letters, by its place in a mask, where it is none of the generic ones.
#[tactic(auto, unfolding(crate::specs::Asked::bit_of))]
pub(crate) fn bit_of(letters: &[u8]) -> Option<u32>
    ensures bit { result ≡ bit_of letters.now }
    ensures low { IfSome result (λ bit. bit < 20) }
{
    match bit_in(right_codes(), letters) {
        Some(bit) => { if bit < 20 { Some(bit) } else { None } }
        None => None,
    }
}
