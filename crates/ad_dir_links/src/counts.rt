//! The counts: how many links lead from a holder to a target, by both numbers.

ghost use Rattle.std.specs.Prelude.{◌≡◌, ◌≢◌, ◌<◌, ◌^◌, ℕ, suc, [], ◌∷◌, IfOk, OnOk, OnErr};
ghost use Rattle.ad_dir_links.specs.Counted.{Covers, Adds, Drops, Keeps, count_in, pair_key};

use std::alloc::{AllocError, Global};
use std::collections::BTreeMap;

/// How many links lead from a holder to a target, by a number that has the target's in front of the holder's. One
/// that is `u32::MAX` stands for any number of links.
pub type Links = BTreeMap<u64, u32>;

/// The number of a pair.
#[tactic(auto, unfolding(crate::specs::Counted::pair_key))]
pub(crate) fn pair_key(target: u32, holder: u32) -> u64
    ensures { result ≡ pair_key target holder }
{
    u64::from(target) * 4_294_967_296 + u64::from(holder)
}

// The count at the number of a pair.
fn count_at(links: &Links, key: u64) -> u32
    ensures { result ≡ count_in links.now.entries key }
{
    match links.get(&key) {
        Some(count) => *count,
        None => 0,
    }
}

// A count with one link more.
fn with_one(count: u32) -> u32
    ensures { (n : ℕ) → Covers count n → Covers result (suc n) }
{
    count.saturating_add(1)
}

// A count with one link less.
fn without_one(count: u32) -> u32
    ensures covers { (n : ℕ) → Covers count (suc n) → Covers result n }
    ensures some { 0 < result → 0 < count }
{
    if count == u32::MAX {
        return count;
    }
    count.saturating_sub(1)
}

// Puts the count of one link, and answers the count that stood there.
fn insert_one(links: &mut Links, key: u64) -> Result<u32, AllocError>
    ensures was { IfOk result (λ was. was ≡ count_in links.old.entries key) }
    ensures here { OnOk result (count_in links.new.entries key ≡ 1) }
    ensures others { OnOk result ((other : ℕ) → other ≢ key → count_in links.new.entries other
        ≡ count_in links.old.entries other) }
    ensures err { OnErr result (links.new.entries ≡ links.old.entries) }
{
    match links.insert(key, 1) {
        Ok(Some(was)) => Ok(was),
        Ok(None) => Ok(0),
        Err(_) => Err(AllocError),
    }
}

// Puts a count in the place of one, or takes it out where it is zero. It takes no memory.
fn replace_count(links: &mut Links, key: u64, count: u32)
    requires { 0 < count → 0 < count_in links.old.entries key }
    ensures here { count_in links.new.entries key ≡ count }
    ensures others { (other : ℕ) → other ≢ key → count_in links.new.entries other
        ≡ count_in links.old.entries other }
{
    if count == 0 {
        let _was = links.remove(&key);
        return;
    }
    if let Some(place) = links.get_mut(&key) {
        *place = count;
    }
}

// Puts a count in the place of one link's. It takes no memory.
fn put_count(links: &mut Links, key: u64, count: u32)
    requires { count_in links.old.entries key ≡ 1 }
    ensures here { count_in links.new.entries key ≡ count }
    ensures others { (other : ℕ) → other ≢ key → count_in links.new.entries other
        ≡ count_in links.old.entries other }
{
    if count != 1 {
        replace_count(links, key, count);
    }
}

// Counts one link more. Mostly it is the first of its pair, and then its place is sought once.
fn add_one(links: &mut Links, holder: u32, target: u32) -> Result<(), AllocError>
    ensures ok { OnOk result (Adds holder (target ∷ []) links.old.entries links.new.entries) }
    ensures err { OnErr result (links.new.entries ≡ links.old.entries) }
{
    let key = pair_key(target, holder);
    let was = insert_one(links, key)?;
    let count = with_one(was);
    put_count(links, key, count);
    Ok(())
}

/// Counts one link less. It takes no memory.
pub(crate) fn drop_one(links: &mut Links, holder: u32, target: u32)
    ensures { Drops holder (target ∷ []) links.old.entries links.new.entries }
{
    let key = pair_key(target, holder);
    let count = without_one(count_at(links, key));
    replace_count(links, key, count);
}

/// Counts links from a holder to these targets.
///
/// # Errors
///
/// Out of memory. What was counted still is.
pub fn add_links(links: &mut Links, holder: u32, targets: &[u32]) -> Result<(), AllocError>
    ensures ok { OnOk result (Adds holder targets.now links.old.entries links.new.entries) }
    ensures keeps { Keeps links.old.entries links.new.entries }
{
    'each: for target in targets {
        add_one(links, holder, *target)?;
    }
    Ok(())
}

/// Counts links from a holder to these targets no more. It takes no memory.
pub fn drop_links(links: &mut Links, holder: u32, targets: &[u32])
    ensures { Drops holder targets.now links.old.entries links.new.entries }
{
    'each: for target in targets {
        drop_one(links, holder, *target);
    }
}
