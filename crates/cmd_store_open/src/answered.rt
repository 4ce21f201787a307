//! How a command ends that answers a question, or says why there is no answer.

ghost use Rattle.std.specs.Prelude.{◌≡◌};
ghost use Rattle.cmd_store_open.specs.Answered.{outcome_of};

use cmd_call::Outcome;

/// How it ends with an answer, and without one.
pub fn outcome_of(answered: bool) -> Outcome
    ensures { result ≡ outcome_of answered }
{
    if answered {
        Outcome::Done
    } else {
        Outcome::NoObject
    }
}
