//! What holds of counts of faults.

ghost use Rattle.std.specs.Prelude.{ℕ, ◌≤◌, ◌⊎◌};
ghost use Rattle.site_io.specs.Counts.{HasRisen};

/// A count that never falls has risen over two calls where it rose in one of them.
pub fn counts_rise()
    ensures { (before between after : ℕ) → before ≤ between → between ≤ after
        → HasRisen before between ⊎ HasRisen between after → HasRisen before after }
{}
