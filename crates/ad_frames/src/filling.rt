//! Filling a buffer, take by take, and where the source fails not to its end.

ghost use Rattle.std.specs.Prelude.{◌≤◌, length, IfOk, IsErr};
ghost use Rattle.site_io.specs.Counts.{HasRisen};
ghost use Rattle.site_io.specs.Whole.{Fills, LeavesAnEnd};
ghost use Rattle.ad_frames.specs.Source.{TakesFewer};

use site_io::{Failed, Source};

/// As `site_io::fill`, and besides: where the source fails fewer bytes were taken than `into` has room for.
///
/// # Errors
///
/// `Failed` where the source failed, which its count tells.
pub(crate) fn fill_within<I: Source>(source: &mut I, into: &mut [u8]) -> Result<usize, Failed>
    ensures within { IfOk result (λ n. n ≤ length into.new) }
    ensures filled { IfOk result (λ n. Fills (I.rest source.old) (I.rest source.new) n into.new) }
    ensures told { LeavesAnEnd (I.rest source.old) (I.rest source.new) }
    ensures cut { IsErr result → TakesFewer (I.rest source.old) (I.rest source.new)
        (length into.old) }
    ensures never_falls { I.faults source.old ≤ I.faults source.new }
    ensures cause { IsErr result → HasRisen (I.faults source.old) (I.faults source.new) }
{
    let mut n = 0;
    while n < into.len() {
        let more = source.take(&mut into[n..])?;
        if more == 0 {
            return Ok(n);
        }
        n += more;
    }
    Ok(n)
}
