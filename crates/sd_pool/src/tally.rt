//! How many live ids have bytes of one hash. So bytes are looked for among all only where some of their hash are
//! there.
//!
//! A hash is 128 bits of SipHash, and the hashes are kept in their order. So whoever chooses the bytes can't spoil
//! look-ups: two that share a hash take some 2^64 attempts to find (this is no theorem: it rests on SipHash), and
//! whatever the hashes are, one is found among n in log n steps.

ghost use Rattle.std.specs.Prelude.{◌≡◌, ℕ, ◌+◌, ◌-◌, ◌^◌, ◌<◌, ◌==◌, if◌then◌else◌, None, IfNone, OnOk, OnErr};
ghost use Rattle.std.specs.BTreeMap.{get};
ghost use Rattle.std.specs.Ordering.{nat_cmp};
ghost use Rattle.sd_pool.specs.Tallies.{hash, count_in};

use std::alloc::AllocError;
use std::collections::BTreeMap;
use std::hash::{DefaultHasher, Hasher};

/// How many live ids have bytes of a hash, and the last that was put of them.
#[derive(Clone, Copy, Debug)]
pub(crate) struct Tally {
    pub count: u32,
    pub id: u32,
}

/// The hash of the bytes.
pub(crate) fn hash_of(bytes: &[u8]) -> u128
    ensures { result ≡ hash bytes.now }
{
    let mut hasher = DefaultHasher::new();
    hasher.write(bytes);
    let high = hasher.finish();
    hasher.write_u8(1);
    u128::from(high) * 18_446_744_073_709_551_616 + u128::from(hasher.finish())
}

fn count_of(tallies: &BTreeMap<u128, Tally>, hash: u128) -> u32
    ensures { result ≡ count_in (get nat_cmp tallies.now hash) }
{
    match tallies.get(&hash) {
        Some(tally) => tally.count,
        None => 0,
    }
}

/// The id that was put last of those with this hash. None only where none has it.
pub(crate) fn last_of(tallies: &BTreeMap<u128, Tally>, hash: u128) -> Option<u32>
    ensures { IfNone result (count_in (get nat_cmp tallies.now hash) ≡ 0) }
{
    match tallies.get(&hash) {
        Some(tally) => Some(tally.id),
        None => None,
    }
}

/// One id more has this hash.
///
/// # Errors
///
/// Memory ran out, and the numbers stay.
pub(crate) fn count_on(
    tallies: &mut BTreeMap<u128, Tally>,
    hash: u128,
    id: u32,
) -> Result<(), AllocError>
    requires { count_in (get nat_cmp tallies.old hash) < 2 ^ 32 - 1 }
    ensures ok { OnOk result ((h : ℕ) → count_in (get nat_cmp tallies.new h)
        ≡ (if hash == h then 1 else 0) + count_in (get nat_cmp tallies.old h)) }
    ensures err { OnErr result ((h : ℕ) → count_in (get nat_cmp tallies.new h)
        ≡ count_in (get nat_cmp tallies.old h)) }
{
    let count = count_of(tallies, hash) + 1;
    tallies.insert(hash, Tally { count, id })?;
    Ok(())
}

/// One id less has this hash. There is one. It takes no memory.
pub(crate) fn count_off(tallies: &mut BTreeMap<u128, Tally>, hash: u128)
    requires { 0 < count_in (get nat_cmp tallies.old hash) }
    ensures { (h : ℕ) → (if hash == h then 1 else 0) + count_in (get nat_cmp tallies.new h)
        ≡ count_in (get nat_cmp tallies.old h) }
{
    let Some(tally) = tallies.get(&hash).copied() else {
        unreachable!()
    };
    if tally.count == 1 {
        let _tally = tallies.remove(&hash);
        return;
    }
    let count = tally.count - 1;
    match tallies.insert(
        hash,
        Tally {
            count,
            id: tally.id,
        },
    ) {
        Ok(_) => {}
        Err(_) => unreachable!(),
    }
}
