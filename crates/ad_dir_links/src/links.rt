//! Who holds links to a target.

ghost use Rattle.std.specs.Prelude.{◌≡◌, ◌<◌, ◌≤◌, ◌^◌, ℕ, IfSome, IsSomeAnd};
ghost use Rattle.ad_dir_links.specs.Counted.{count_in, counted};

use crate::counts::{Links, pair_key};
use std::ops::Bound;

// The least number of a pair that is counted above one.
fn next_pair(links: &Links, above: u64) -> Option<u64>
    ensures above { IfSome result (λ key. above < key) }
    ensures least { (key : ℕ) → above < key → 0 < count_in links.now.entries key
        → IsSomeAnd result (λ next. next ≤ key) }
{
    match links
        .range((Bound::Excluded(above), Bound::Unbounded))
        .next()
    {
        Some((key, _)) => Some(*key),
        None => None,
    }
}

/// The least holder of links to a target above a number, as it is counted. It takes no memory.
pub fn next_holder(links: &Links, target: u32, above: u32) -> Option<u32>
    ensures above { IfSome result (λ holder. above < holder) }
    ensures least { (holder : ℕ) → holder < 2 ^ 32 → above < holder → 0 < counted links.now.entries
        target holder
        → IsSomeAnd result (λ next. next ≤ holder) }
{
    let first = pair_key(target, 0);
    match next_pair(links, pair_key(target, above)) {
        Some(key) => u32::try_from(key - first).ok(),
        None => None,
    }
}
