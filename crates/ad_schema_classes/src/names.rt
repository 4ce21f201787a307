//! Names and GUIDs, with their places by their hashes.

ghost use Rattle.std.specs.Prelude.{◌≡◌, ◌<◌, ◌≤◌, ◌-◌, ◌%◌, drop, ◌+◌, ◌*◌, ◌^◌, ◌++◌, [], ◌∷◌, length, nat_eq};
ghost use Rattle.std.specs.Prelude.{OnOk, OnErr};
ghost use Rattle.indexmap.specs.IndexMap.{get};
ghost use Rattle.std.specs.Char.{to_ascii_lowercase};
ghost use Rattle.ad_schema_classes.specs.Names.{same_name, place_of};
ghost use Rattle.ad_schema_classes.specs.Hashes.{hash_behind, hash_of, bucket, same_by, place_by, is_at, key};
ghost use Rattle.ad_schema_classes.specs.Hashes.{IsIndexOf};

use ad_bytes::Bytes;
use indexmap::IndexMap;
use std::alloc::{AllocError, Global};
use std::hash::{DefaultHasher, Hasher};
use std::marker::Model;

/// Whether the case of ASCII letters counts.
#[derive(Clone, Copy, Debug, PartialEq, Eq)]
pub enum Case {
    Ignored,
    Kept,
}

/// The names of attributes or of classes, or the GUIDs of rights, which a contract sees as their list, in order.
/// Under the key of a hash and n, `places` has the place of the nth name of that hash.
#[derive(Drop)]
pub struct Names {
    items: Vec<Bytes>,
    places: IndexMap<u64, u32>,
}

impl Model for Names {
    ghost use Rattle.std.specs.Prelude.{List, ℕ, length, ◌<◌, ◌^◌};
    ghost use Rattle.ad_schema_classes.specs.Hashes.{IsIndexOf};

    ghost Value = { List (List ℕ) };

    ghost view = { λ names. names.items.items };

    ghost invariant = { λ names. record {
      few : length names.items.items < 2 ^ 32;
      index : IsIndexOf names.items.items names.places;
    } };
}

/// Whether two names are the same without regard to ASCII case.
pub fn same_name(a: &[u8], b: &[u8]) -> bool
    ensures { result ≡ same_name a.now b.now }
{
    a.eq_ignore_ascii_case(b)
}

// Takes eight bytes of a name, as their lower-case letters, at once.
fn take_eight(hasher: &mut DefaultHasher, name: &[u8], at: usize)
    requires { at + 8 ≤ length name.now }
    ensures { hash_behind hasher.new (drop (at + 8) name.now)
        ≡ hash_behind hasher.old (drop at name.now) }
{
    hasher.write(&[
        name[at].to_ascii_lowercase(),
        name[at + 1].to_ascii_lowercase(),
        name[at + 2].to_ascii_lowercase(),
        name[at + 3].to_ascii_lowercase(),
        name[at + 4].to_ascii_lowercase(),
        name[at + 5].to_ascii_lowercase(),
        name[at + 6].to_ascii_lowercase(),
        name[at + 7].to_ascii_lowercase(),
    ]);
}

// Takes all bytes of a name from here on, but for fewer than eight, and tells where these begin.
fn take_words(hasher: &mut DefaultHasher, name: &[u8]) -> usize
    ensures hashed { hash_behind hasher.new (drop result name.now)
        ≡ hash_behind hasher.old name.now }
    ensures within { result ≤ length name.now }
{
    let mut at = 0;
    while name.len() - at >= 8 {
        take_eight(hasher, name, at);
        at += 8;
    }
    at
}

// Takes the bytes of a name one by one.
fn take_each(hasher: &mut DefaultHasher, name: &[u8])
    ensures { hasher.new ≡ hash_behind hasher.old name.now }
{
    for byte in name {
        hasher.write(&[byte.to_ascii_lowercase()]);
    }
}

/// The hash of a name, below 2^32; it is the same in either case.
#[tactic(auto, unfolding(crate::specs::Hashes::hash_of))]
fn hash_of(name: &[u8]) -> u64
    ensures value { result ≡ hash_of name.now }
    ensures small { result < 4294967296 }
{
    let mut hasher = DefaultHasher::new();
    let at = take_words(&mut hasher, name);
    take_each(&mut hasher, &name[at..]);
    hasher.finish() % 4_294_967_296
}

/// The key of a hash and a place in its bucket.
fn key_of(hash: u64, n: usize) -> u64
    requires hash { hash < 4294967296 }
    requires n { n < 4294967296 }
    ensures { result ≡ key hash n }
{
    hash * 4_294_967_296 + n as u64
}

/// The nth place in the bucket of a hash.
fn place_at(places: &IndexMap<u64, u32>, hash: u64, n: usize) -> Option<u32>
    requires hash { hash < 4294967296 }
    requires n { n < 4294967296 }
    ensures { result ≡ get nat_eq places.now (key hash n) }
{
    places.get(&key_of(hash, n)).copied()
}

/// Whether two names are the same.
fn is_same(case: Case, a: &[u8], b: &[u8]) -> bool
    ensures { result ≡ same_by case a.now b.now }
{
    match case {
        Case::Ignored => same_name(a, b),
        Case::Kept => a == b,
    }
}

/// Whether the name at a place is the same as this one.
#[tactic(auto, unfolding(crate::specs::Hashes::is_at))]
fn is_at(case: Case, names: &[Bytes], name: &[u8], place: u32) -> bool
    ensures { result ≡ is_at case names.now name.now place }
{
    match names.get(place as usize) {
        Some(other) => is_same(case, other.as_slice(), name),
        None => false,
    }
}

/// The place of a name: the first of its bucket that has it.
fn place_of(case: Case, names: &[Bytes], places: &IndexMap<u64, u32>, name: &[u8]) -> Option<u32>
    requires few { length names.now < 2 ^ 32 }
    requires index { IsIndexOf names.now places.now }
    ensures { result ≡ place_by case names.now name.now }
{
    let hash = hash_of(name);
    for n in 0..names.len() {
        let Some(place) = place_at(places, hash, n) else {
            return None;
        };
        if is_at(case, names, name, place) {
            return Some(place);
        }
    }
    None
}

/// The number of names of a hash.
fn bucket_len(names: &[Bytes], places: &IndexMap<u64, u32>, hash: u64) -> usize
    requires hash { hash < 4294967296 }
    requires few { length names.now < 2 ^ 32 }
    requires index { IsIndexOf names.now places.now }
    ensures len { result ≡ length (bucket hash 0 names.now) }
    ensures few { result < 4294967296 }
{
    for n in 0..names.len() {
        if place_at(places, hash, n).is_none() {
            return n;
        }
    }
    names.len()
}

/// Puts a name at the end.
fn push(
    names: &mut Vec<Bytes>,
    places: &mut IndexMap<u64, u32>,
    name: Bytes,
) -> Result<(), AllocError>
    requires few { length names.old.items < 2 ^ 32 - 1 }
    requires index { IsIndexOf names.old.items places.old }
    ensures ok { OnOk result (names.new.items ≡ names.old.items ++ name ∷ []) }
    ensures err { OnErr result (names.new.items ≡ names.old.items) }
    ensures index { IsIndexOf names.new.items places.new }
{
    let hash = hash_of(name.as_slice());
    let n = bucket_len(names.as_slice(), places, hash);
    let place = names.as_slice().len() as u32;
    names.reserve(1)?;
    places.insert(key_of(hash, n), place)?;
    names.push(name)?;
    Ok(())
}

impl Names {
    pub fn new(alloc: Global) -> Names
        ensures { result ≡ [] }
    {
        Names {
            items: Vec::new(alloc),
            places: IndexMap::new(alloc),
        }
    }

    /// The number of names, below 2^32.
    pub fn len(&self) -> usize
        ensures len { result ≡ length self.now }
        ensures few { length self.now < 2 ^ 32 }
    {
        self.items.len()
    }

    /// The names, fewer than 2^32.
    pub fn as_slice(&self) -> &[Bytes]
        ensures value { result.now ≡ self.now }
        ensures few { length self.now < 2 ^ 32 }
    {
        self.items.as_slice()
    }

    /// The place of a name, without regard to ASCII case.
    #[tactic(auto, unfolding(crate::specs::Hashes::place_by, crate::specs::Names::place_of))]
    pub fn find(&self, name: &[u8]) -> Option<u32>
        ensures { result ≡ place_of self.now name.now }
    {
        place_of(Case::Ignored, self.items.as_slice(), &self.places, name)
    }

    /// The place of a name that has the same bytes.
    pub fn find_exact(&self, name: &[u8]) -> Option<u32>
        ensures { result ≡ place_by Case.Kept self.now name.now }
    {
        place_of(Case::Kept, self.items.as_slice(), &self.places, name)
    }

    /// Puts a name at the end.
    pub fn push(&mut self, name: Bytes) -> Result<(), AllocError>
        requires { length self.old < 2 ^ 32 - 1 }
        ensures ok { OnOk result (self.new ≡ self.old ++ name ∷ []) }
        ensures err { OnErr result (self.new ≡ self.old) }
    {
        push(&mut self.items, &mut self.places, name)
    }
}
