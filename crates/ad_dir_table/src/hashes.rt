//! The hash of a name below its parent, of the bytes after case folding, whether these are at hand or not.

ghost use Rattle.std.specs.Prelude.{◌≡◌, encode_utf8_all};
ghost use Rattle.std.specs.Char.{encode_utf8};
ghost use Rattle.std.specs.Hash.DefaultHasher.{initial};
ghost use Rattle.ucd_case.specs.CaseFolding.{full_fold};
ghost use Rattle.ad_dn.specs.Fold.{folded};
ghost use Rattle.ad_dir_table.specs.Hashes.{with_number, with_all, name_hash};

use std::hash::{DefaultHasher, Hasher};
use ucd_case::full_folding;

fn with_parent(parent: u32) -> DefaultHasher
    ensures { result ≡ with_number initial parent }
{
    let mut hasher = DefaultHasher::new();
    hasher.write_u32(parent);
    hasher
}

fn with_bytes(hasher: DefaultHasher, bytes: &[u8]) -> DefaultHasher
    ensures { result ≡ with_all hasher bytes.now }
{
    let mut state = hasher;
    for byte in bytes {
        state.write_u8(*byte);
    }
    state
}

fn with_encoded(hasher: DefaultHasher, character: char) -> DefaultHasher
    ensures { result ≡ with_all hasher (encode_utf8 character) }
{
    let mut place = [0; 4];
    with_bytes(hasher, character.encode_utf8(&mut place).as_bytes())
}

fn with_folded(hasher: DefaultHasher, folded: &[char]) -> DefaultHasher
    ensures { result ≡ with_all hasher (encode_utf8_all folded.now) }
{
    let mut state = hasher;
    for character in folded {
        state = with_encoded(state, *character);
    }
    state
}

// Behind what the character is folded to.
fn with_char(hasher: DefaultHasher, character: char) -> DefaultHasher
    ensures { result ≡ with_all hasher (encode_utf8_all (full_fold character)) }
{
    let folded = full_folding(character);
    if folded.is_empty() {
        return with_encoded(hasher, character);
    }
    with_folded(hasher, folded)
}

fn with_text(hasher: DefaultHasher, text: &str) -> DefaultHasher
    ensures { result ≡ with_all hasher (folded text.now) }
{
    let mut state = hasher;
    let mut rest = text.chars();
    'walk: loop {
        match rest.next() {
            Some(character) => state = with_char(state, character),
            None => return state,
        }
    }
}

/// The hash of a folded naming value below a parent.
#[tactic(auto, unfolding(crate::specs::Hashes::name_hash))]
pub(crate) fn name_hash(parent: u32, folded: &[u8]) -> u64
    ensures { result ≡ name_hash parent folded.now }
{
    with_bytes(with_parent(parent), folded).finish()
}

/// The same of a naming value that isn't folded. It takes no memory.
#[tactic(auto, unfolding(crate::specs::Hashes::name_hash))]
pub(crate) fn folding_hash(parent: u32, name: &str) -> u64
    ensures { result ≡ name_hash parent (folded name.now) }
{
    with_text(with_parent(parent), name).finish()
}
