ghost use Rattle.std.specs.Prelude.{◌≡◌, ◌↔◌, Contains, IsTrue};
ghost use Rattle.mp_edge.specs.Causes.{counted};

// A count of failed calls after one call more; it stops at 2^64 - 1.
pub(crate) fn count(failed: bool, before: u64) -> u64
    ensures { result ≡ counted failed before }
{
    if failed {
        return before.saturating_add(1);
    }
    before
}

// Whether the number of a call stands in a list of numbers.
pub(crate) fn is_listed(numbers: &[u32], number: u64) -> bool
    ensures { IsTrue result ↔ Contains numbers.now number }
{
    numbers.iter().any(|listed| u64::from(*listed) == number)
}
