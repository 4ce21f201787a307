//! What represents a value of an attribute: a number by which the objects that store one with its key are found.
//!
//! It is 32 bits of SipHash. Values that share it by chance or by design cost a search for one of them a look at the
//! others' objects, and nothing else.

ghost use Rattle.std.specs.Prelude.{◌≡◌, IfOk};
ghost use Rattle.ad_value.specs.declared.syntax.Syntax.TheVariants as syntax;
ghost use Rattle.ad_dir_model.specs.Shown.{computed};
ghost use Rattle.std.specs.Hash.DefaultHasher.{initial};
ghost use Rattle.ad_dir_links.specs.Marks.{with_number, with_key, mark, name_mark};

use ad_bytes::Bytes;
use ad_value::{Key, Syntax, ValueFault, normal};
use std::alloc::{AllocError, Global};
use std::hash::{DefaultHasher, Hasher};

fn with_attr(attr: u32) -> DefaultHasher
    ensures { result ≡ with_number initial attr }
{
    let mut hasher = DefaultHasher::new();
    hasher.write_u32(attr);
    hasher
}

fn with_key(hasher: DefaultHasher, key: &Key) -> DefaultHasher
    ensures { result ≡ with_key hasher key.now }
{
    let mut state = hasher;
    match key {
        Key::Bytes(bytes) => state.write(bytes.as_slice()),
        Key::Number(number) => state.write_i64(*number),
    }
    state
}

/// The mark of the values of an attribute, by its place in the schema, that have a key.
#[tactic(auto, unfolding(crate::specs::Marks::mark))]
pub fn mark(attr: u32, key: &Key) -> u32
    ensures { result ≡ mark attr key.now }
{
    (with_key(with_attr(attr), key).finish() % 4_294_967_296) as u32
}

// What a naming value is compared by, as a text.
#[tactic(auto, unfolding(ad_dir_model::specs::Shown::computed))]
fn name_key(alloc: Global, name: &[u8]) -> Result<Key, AllocError>
    ensures { IfOk result (λ key. key ≡ (computed syntax.Unicode name.now).key) }
{
    match normal(alloc, Syntax::Unicode, name) {
        Ok(value) => value.key(alloc),
        Err(ValueFault::Memory) => Err(AllocError),
        Err(_) => Ok(Key::Bytes(Bytes::from_slice(alloc, name)?)),
    }
}

/// The mark of a naming value.
#[tactic(auto, unfolding(crate::specs::Marks::name_mark))]
pub(crate) fn name_mark(alloc: Global, name: &[u8]) -> Result<u32, AllocError>
    ensures { IfOk result (λ number. number ≡ name_mark name.now) }
{
    let key = name_key(alloc, name)?;
    Ok(mark(u32::MAX, &key))
}

/// The mark of the naming values that have a key, as texts.
pub fn mark_of_name(key: &Key) -> u32
    ensures { result ≡ mark 4294967295 key.now }
{
    mark(u32::MAX, key)
}
