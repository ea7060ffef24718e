//! Lists of placement numbers.
ghost use Rattle.std.specs.Prelude.{◌≡◌};
ghost use Rattle.std.specs.List.{list_all};
ghost use Rattle.poly_tiling.specs.Lists.{ascending, mem};

/// Whether the list has the number.
pub fn has_number(numbers: &[u32], number: u32) -> bool
    ensures { result ≡ mem numbers.now number }
{
    numbers.iter().any(|n| *n == number)
}

/// Whether each number is below all that follow it.
pub fn ascends(numbers: &[u32]) -> bool
    ensures { result ≡ ascending numbers.now }
{
    for i in 1..numbers.len() {
        if numbers[i] <= numbers[i - 1] {
            return false;
        }
    }
    true
}

/// Whether `numbers` has every number of `members`.
pub fn has_all(numbers: &[u32], members: &[u32]) -> bool
    ensures { result ≡ list_all (λ p. mem numbers.now p) members.now }
{
    members.iter().all(|p| has_number(numbers, *p))
}
