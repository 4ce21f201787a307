//! Numbers in rising order.

ghost use Rattle.std.specs.Prelude.{◌≡◌, ℕ};
ghost use Rattle.std.specs.List.Sorted.{IsStrictlyIncreasing};
ghost use Rattle.ad_entries.specs.Rising.{is_in};

/// Puts numbers in rising order, each once. It takes n log n steps where there are n of them.
pub fn rise(numbers: &mut Vec<u32>)
    ensures rises { IsStrictlyIncreasing numbers.new.items }
    ensures same { (n : ℕ) → is_in n numbers.new.items ≡ is_in n numbers.old.items }
{
    numbers.sort_unstable();
    numbers.dedup();
}
