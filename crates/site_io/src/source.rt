//! A source of bytes.

ghost use Rattle.std.specs.Prelude.{ℕ, List, ◌≤◌, length, Option, IfOk, IsErr};
ghost use Rattle.site_io.specs.Counts.{HasRisen};
ghost use Rattle.site_io.specs.Failing.{TakesAsTold};
ghost use Rattle.site_io.specs.Told.{TakesNext};

use thiserror::Error;

/// A call on the outside failed. The count of faults of its object tells of it.
#[derive(Clone, Copy, Debug, PartialEq, Eq, Error)]
#[error("a call on the outside failed")]
pub struct Failed;

/// A source of bytes that are taken in order, as standard input is.
pub trait Source {
    /// The bytes still to come, where that is observable.
    ghost rest: { Self → Option (List ℕ) };

    /// How often the source has failed: a number of 64 bits that stays at its end.
    ghost faults: { Self → ℕ };

    /// How many takes there were, where the source tells which of them fail.
    ghost takes: { Self → ℕ };

    /// The numbers of the takes that fail, from 0, where the source tells them beforehand.
    ghost fails: { Self → Option (List ℕ) };

    /// Takes the next bytes into the first bytes of `into`, and answers how many there are. For a nonempty `into`,
    /// 0 comes only at the end of the input.
    ///
    /// # Errors
    ///
    /// `Failed` where the source failed, which its count tells. The bytes still to come are then as before.
    fn take(&mut self, into: &mut [u8]) -> Result<usize, Failed>
        ensures within { IfOk result (λ n. n ≤ length into.new) }
        ensures next { TakesNext (rest self.old) (rest self.new) result into.new }
        ensures fails { TakesAsTold (fails self.old) (fails self.new) (takes self.old)
            (takes self.new) result }
        ensures never_falls { faults self.old ≤ faults self.new }
        ensures cause { IsErr result → HasRisen (faults self.old) (faults self.new) };
}
