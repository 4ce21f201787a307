//! How a command ends where a call on an engine failed.

ghost use Rattle.std.specs.Prelude.{◌≡◌};
ghost use Rattle.cmd_store_open.specs.Failed.{EndsFor};

use ad_engine_store::EngineFault;
use cmd_call::Outcome;

/// How it ends where the engine wasn't poisoned.
pub fn outcome_of_fault(fault: EngineFault) -> Outcome
    requires { ¬ (fault ≡ EngineFault.Spent) }
    ensures { EndsFor fault result }
{
    match fault {
        EngineFault::Site => Outcome::SiteFailed,
        EngineFault::Memory => Outcome::NoMemory,
        EngineFault::Spent => unreachable!(),
    }
}
