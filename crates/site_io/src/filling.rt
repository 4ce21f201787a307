//! Filling a buffer, take by take or read by read.

ghost use Rattle.std.specs.Prelude.{◌+◌, ◌<◌, ◌≤◌, ◌^◌, length, IfOk, IfSome, IsErr};
ghost use Rattle.site_io.specs.Counts.{HasRisen};
ghost use Rattle.site_io.specs.Disk.{at_slot, ReadsFull};
ghost use Rattle.site_io.specs.Outside.{OnlyLooks};
ghost use Rattle.site_io.specs.Whole.{Fills, LeavesAnEnd};

use crate::{Failed, Site, Slot, Source};

/// Takes bytes until `into` is full or the input ends, and answers how many came: they are the first of `into`.
/// Fewer than it has room for come only at the input's end, so that 0 of some means that the input ended before a
/// first byte. Nothing after the bytes that came is taken.
///
/// # Errors
///
/// `Failed` where the source failed, which its count tells. Some bytes may then have been taken.
pub fn fill<I: Source>(source: &mut I, into: &mut [u8]) -> Result<usize, Failed>
    ensures within { IfOk result (λ n. n ≤ length into.new) }
    ensures filled { IfOk result (λ n. Fills (I.rest source.old) (I.rest source.new) n into.new) }
    ensures told { LeavesAnEnd (I.rest source.old) (I.rest source.new) }
    ensures never_falls { I.faults source.old ≤ I.faults source.new }
    ensures cause { IsErr result → HasRisen (I.faults source.old) (I.faults source.new) }
{
    let mut n = 0;
    while n < into.len() {
        let more = source.take(&mut into[n..])?;
        if more == 0 {
            return Ok(n);
        }
        n += more;
    }
    Ok(n)
}

/// Reads from an offset in a slot until `into` is full or the slot ends, and answers how many bytes came: they are
/// the first of `into`. Fewer than it has room for come only up to the slot's end.
///
/// # Errors
///
/// `Failed` where the site failed, which `slot_faults` tells.
pub fn read_full<S: Site>(
    site: &mut S,
    slot: Slot,
    at: u64,
    into: &mut [u8],
) -> Result<usize, Failed>
    requires { at + length into.old < 2 ^ 64 }
    ensures read { IfOk result (λ n. IfSome (S.reads site.old)
        (λ held. ReadsFull at n into.new (at_slot slot held))) }
    ensures within { IfOk result (λ n. n ≤ length into.new) }
    ensures outside { OnlyLooks S.Site site.old site.new }
    ensures cause { IsErr result → HasRisen (S.slot_faults site.old) (S.slot_faults site.new) }
{
    let mut n = 0;
    while n < into.len() {
        let more = site.read_at(slot, at + n as u64, &mut into[n..])?;
        if more == 0 {
            return Ok(n);
        }
        n += more;
    }
    Ok(n)
}
