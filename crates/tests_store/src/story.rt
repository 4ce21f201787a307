//! A store from its beginning to what a crash left of it.

ghost use Rattle.std.specs.Prelude.{◌≡◌, ◌⊎◌, ◌∷◌, [], IfOk, IsErrOf};
ghost use Rattle.gate_log.specs.Reading.{bodies_of};

use gate_log::{Log, LogFault};
use site_io::MemSite;
use std::alloc::Global;

/// Makes a store of one body in memory, adds another one, and opens what a crash leaves that comes so many calls
/// after the store was made, or at its end. It has the one body, or both.
///
/// # Errors
///
/// `Memory`, or `Site` where the site in memory had none.
pub fn old_or_new(
    alloc: Global,
    old: &[u8],
    new: &[u8],
    calls: u32,
    kept: u32,
) -> Result<Vec<Vec<u8>>, LogFault>
    ensures bodies { IfOk result (λ bodies. (bodies_of bodies.items ≡ old.now ∷ [])
        ⊎ (bodies_of bodies.items ≡ old.now ∷ new.now ∷ [])) }
    ensures opens { ¬ IsErrOf result LogFault.Empty × ¬ IsErrOf result LogFault.Broken }
    ensures faults { ¬ IsErrOf result LogFault.Taken × ¬ IsErrOf result LogFault.Spent }
{
    let mut site = MemSite::new(alloc, &[], &[], &[])?;
    let mut log = Log::create(alloc, &mut site, old)?;
    let made = site.calls();
    log.append(&mut site, new)?;
    let at = made.saturating_add(calls).min(site.calls());
    let crash = site.crash(alloc, at, kept)?;
    let mut left = MemSite::new(alloc, &crash.a, &crash.b, &[])?;
    let (_, bodies) = Log::resume(alloc, &mut left)?;
    Ok(bodies)
}
