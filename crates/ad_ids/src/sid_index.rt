//! Where each identifier of a list stands, by its bucket, so that looking one up doesn't grow with the list.
//!
//! Identifiers of one domain differ at their ends, so these choose the bucket. Where many of a list end alike, a
//! hash of all of an identifier does, under a key that is made of the whole list: who writes the list can't know
//! the key before it is written, and so can't choose identifiers that share a bucket.

ghost use Rattle.std.specs.Prelude.{◌≡◌, ◌<◌, ◌≤◌, ℕ, List, Ok, length, IfOk, IfSome};
ghost use Rattle.ad_ids.specs.SidReading.{sid_at};
ghost use Rattle.ad_ids.specs.SidIndex.{bucket_of_word, bucket_by_end, bucket_by_all, bucket_of, IsIndexOf};
ghost use Rattle.ad_ids.specs.SidValue.{SidValue, contains_sid};
ghost use Rattle.ad_ids.specs.SidBegun.{begins_with_one};

use crate::sid::Sid;
use crate::sid_begun::word_at;
use ad_bytes::Input;
use std::alloc::{AllocError, Global};
use std::hash::{DefaultHasher, Hash, Hasher};

/// The number of buckets that hashes fall into.
const BUCKETS: usize = 1024;

/// A list gets an index above this length. A look at so many ends takes as long as one at a bucket.
const FEW: usize = 4;

/// The largest length of a list that gets one.
const MOST: usize = 65_535;

/// The largest number of identifiers in a bucket by their ends. Of 1,024 ends that don't depend on each other
/// hardly ever more fall into one.
const MOST_ALIKE: u8 = 8;

/// What the last number of an identifier is multiplied by: 2^32 parted in the golden ratio, so that numbers in a
/// row fall far from each other.
const FACTOR: u64 = 1_640_531_527;

// The bucket of the identifiers that end with the number.
#[inline]
fn bucket_of_word(word: u32) -> usize
    ensures value { result ≡ bucket_of_word word }
    ensures below { result < 1024 }
{
    (u64::from(word) * FACTOR % 4_294_967_296 / 4_194_304) as usize
}

// The bucket of an identifier by its last number.
fn bucket_by_end(sid: &Sid) -> usize
    ensures value { result ≡ bucket_by_end sid.now }
    ensures below { result < 1024 }
{
    let words = sid.sub_authorities();
    if words.is_empty() {
        return 0;
    }
    bucket_of_word(words[words.len() - 1])
}

// The bucket of an identifier by all of it.
fn bucket_by_all(key: u64, sid: &Sid) -> usize
    ensures value { result ≡ bucket_by_all key sid.now }
    ensures below { result < 1024 }
{
    let mut hasher = DefaultHasher::new();
    hasher.write_u64(key);
    sid.hash(&mut hasher);
    (hasher.finish() % 1024) as usize
}

// The bucket of an identifier.
fn bucket_of(key: Option<u64>, sid: &Sid) -> usize
    ensures value { result ≡ bucket_of key sid.now }
    ensures below { result < 1024 }
{
    match key {
        None => bucket_by_end(sid),
        Some(key) => bucket_by_all(key, sid),
    }
}

/// The index of a list.
#[derive(Debug, Drop)]
pub(crate) struct SidIndex {
    // Without a key the bucket goes by the last number, with one by all of an identifier.
    key: Option<u64>,
    // For each bucket one more than the place of its last identifier, or 0.
    heads: Vec<u16>,
    // For each identifier the same of the last before it in its bucket.
    before: Vec<u16>,
}

// Looks along the identifiers of the bucket, from the last.
fn contains_in(key: Option<u64>, items: &[Sid], heads: &[u16], before: &[u16], sid: &Sid) -> bool
    requires { IsIndexOf key heads.now before.now items.now }
    ensures { result ≡ contains_sid items.now sid.now }
{
    let mut end = usize::from(heads[bucket_of(key, sid)]);
    while end > 0 {
        if items[end - 1] == *sid {
            return true;
        }
        end = usize::from(before[end - 1]);
    }
    false
}

// The bucket of the identifier that the bytes begin with, by its last number.
fn end_begun(bytes: &[u8]) -> usize
    ensures value { (sid : SidValue) (rest : List ℕ) → sid_at bytes.now ≡ Ok (sid, rest) → result
        ≡ bucket_by_end sid }
    ensures below { result < 1024 }
{
    if bytes.len() < 8 {
        return 0;
    }
    let count = usize::from(bytes[1]);
    if bytes.len() < 8 + 4 * count {
        return 0;
    }
    bucket_of_word(word_at(bytes, 4 + 4 * count))
}

// The same by all of it.
fn all_begun(key: u64, bytes: &[u8]) -> usize
    ensures value { (sid : SidValue) (rest : List ℕ) → sid_at bytes.now ≡ Ok (sid, rest) → result
        ≡ bucket_by_all key sid }
    ensures below { result < 1024 }
{
    let mut input = Input::new(bytes);
    match Sid::read(&mut input) {
        Ok(sid) => bucket_by_all(key, &sid),
        Err(_) => 0,
    }
}

// The bucket of the identifier that the bytes begin with.
fn bucket_begun(key: Option<u64>, bytes: &[u8]) -> usize
    ensures value { (sid : SidValue) (rest : List ℕ) → sid_at bytes.now ≡ Ok (sid, rest) → result
        ≡ bucket_of key sid }
    ensures below { result < 1024 }
{
    match key {
        None => end_begun(bytes),
        Some(key) => all_begun(key, bytes),
    }
}

// Looks along the identifiers of the bucket for the one that the bytes begin with.
fn begun_in(key: Option<u64>, items: &[Sid], heads: &[u16], before: &[u16], bytes: &[u8]) -> bool
    requires { IsIndexOf key heads.now before.now items.now }
    ensures { result ≡ begins_with_one bytes.now items.now }
{
    let mut end = usize::from(heads[bucket_begun(key, bytes)]);
    while end > 0 {
        if items[end - 1].begins(bytes) {
            return true;
        }
        end = usize::from(before[end - 1]);
    }
    false
}

// Whether more than a few identifiers fall into one bucket by their ends.
fn are_ends_alike(items: &[Sid]) -> bool {
    let mut counts = [0u8; BUCKETS];
    for sid in items {
        let bucket = bucket_by_end(sid);
        if counts[bucket] >= MOST_ALIKE {
            return true;
        }
        counts[bucket] += 1;
    }
    false
}

// A number made of all identifiers.
fn key_of(items: &[Sid]) -> u64 {
    let mut hasher = DefaultHasher::new();
    for sid in items {
        sid.hash(&mut hasher);
    }
    hasher.finish()
}

fn key_for(items: &[Sid]) -> Option<u64> {
    if are_ends_alike(items) {
        return Some(key_of(items));
    }
    None
}

fn make(alloc: Global, key: Option<u64>, items: &[Sid]) -> Result<SidIndex, AllocError>
    requires { length items.now < 65536 }
    ensures { IfOk result (λ index. IsIndexOf index.key index.heads.items index.before.items
        items.now) }
{
    let mut heads = vec![in alloc; 0u16; BUCKETS]?;
    let mut before = Vec::with_capacity(alloc, items.len())?;
    for (i, sid) in items.iter().enumerate() {
        let bucket = bucket_of(key, sid);
        before.push(heads[bucket])?;
        heads[bucket] = (i + 1) as u16;
    }
    Ok(SidIndex { key, heads, before })
}

impl SidIndex {
    /// The index of a long list; none of a short one, and where there is no memory for one.
    pub(crate) fn of(alloc: Global, items: &[Sid]) -> Option<SidIndex>
        ensures { IfSome result (λ index. IsIndexOf index.key index.heads.items index.before.items
            items.now) }
    {
        if items.len() <= FEW || items.len() > MOST {
            return None;
        }
        make(alloc, key_for(items), items).ok()
    }

    /// Whether the identifier is one of the list. It takes no memory.
    pub(crate) fn contains(&self, items: &[Sid], sid: &Sid) -> bool
        requires { IsIndexOf self.now.key self.now.heads.items self.now.before.items items.now }
        ensures { result ≡ contains_sid items.now sid.now }
    {
        contains_in(
            self.key,
            items,
            self.heads.as_slice(),
            self.before.as_slice(),
            sid,
        )
    }

    /// Whether the bytes begin with one of the list. It takes no memory.
    pub(crate) fn contains_begun(&self, items: &[Sid], bytes: &[u8]) -> bool
        requires { IsIndexOf self.now.key self.now.heads.items self.now.before.items items.now }
        ensures { result ≡ begins_with_one bytes.now items.now }
    {
        begun_in(
            self.key,
            items,
            self.heads.as_slice(),
            self.before.as_slice(),
            bytes,
        )
    }
}
