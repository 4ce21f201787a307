//! Reading the text of a name.

ghost use Rattle.std.specs.Prelude.{◌≡◌, List, ℕ, Ok, Some, None, false, IfOk, IfErr, MatchResult};
ghost use Rattle.ad_bytes.specs.Reading.{GivesUnless};
ghost use Rattle.ad_dn.specs.declared.rdn.Dn.{Dn as Name};
ghost use Rattle.ad_dn.specs.Grammar.{SpellsDn, IsFault, is_memory};
ghost use Rattle.ad_dn.specs.Reading.{dn_of};
ghost use Rattle.ad_dn.specs.Steps.{from_there, start, IsStop};

use crate::fault::DnFault;
use crate::rdn::{Dn, Rdns};
use crate::steps::State;
use std::alloc::Global;

// Reads byte after byte, up to the first that may not stand at its place.
fn scan(alloc: Global, text: &[u8]) -> Result<State, DnFault>
    ensures ok { IfOk result (λ s. from_there (Some start) text.now ≡ Some s) }
    ensures err { IfErr result (λ fault. IsStop fault text.now) }
{
    let mut state = State::start(alloc);
    let mut place = 0;
    while place < text.len() {
        let passed = state.advance(alloc, &text[place..])?;
        if passed == 0 {
            return Err(DnFault::Bad { place });
        }
        place += passed;
    }
    Ok(state)
}

/// Reads a name's text (RFC 4514 3): types and values with `=` between them, parted by commas, one type and
/// value a part. A type is a letter in either case, and then letters, digits and hyphens; it is read into
/// upper case. A value has 1 to 1,024 bytes of UTF-8. In a value `\` stands before one of `"+,;<>\`, a blank, `#`
/// or `=`, or before two hexadecimal digits in either case, which say a byte. None of `"+,;<>\` and NUL stands by
/// itself, and no `#` does at a value's beginning. Blanks round a comma and round the `=` after a type
/// are dropped where they stand by themselves; a text neither begins nor ends with one. The empty text is the
/// name without parts.
///
/// # Errors
///
/// `Bad` where the text is no name's. Its place is the length of the longest prefix of the text with which some
/// name's text begins: the place of the first byte that no name's text has there, or the text's length where it
/// only ends too soon. `Memory` where memory ran out.
pub fn read(alloc: Global, text: &[u8]) -> Result<Dn, DnFault>
    // What is read is encoded by the text.
    ensures found { IfOk result (λ dn. SpellsDn dn text.now) }
    // Whatever is encoded so is read, unless memory ran out.
    ensures only { (dn : Name) → SpellsDn dn text.now → GivesUnless is_memory (λ dn. dn) result
        (Ok dn) }
    // The same as a function of the text, for definitions that compute.
    ensures value { MatchResult result (λ dn. dn_of text.now ≡ Some dn)
        (λ fault. is_memory fault ≡ false → dn_of text.now ≡ None) }
    // Where the text goes wrong.
    ensures fault { IfErr result (λ fault. IsFault fault text.now) }
{
    let state = match scan(alloc, text) {
        Ok(state) => state,
        Err(fault) => return Err(fault),
    };
    match state.finish()? {
        Some(rdns) => Ok(Dn {
            rdns: Rdns::from_vec(rdns),
        }),
        None => Err(DnFault::Bad { place: text.len() }),
    }
}
