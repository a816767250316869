// One more of something.

ghost use Rattle.std.specs.Prelude.{◌≡◌};
ghost use Rattle.lg_tally.specs.Counts.{one_more};

/// Counts one more, where the count is below 2^64 - 1; there it stays.
pub fn count(number: &mut u64)
    ensures { number.new ≡ one_more number.old }
{
    *number = number.saturating_add(1);
}
