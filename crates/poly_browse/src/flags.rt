//! Flags by number: a set of numbers.
ghost use Rattle.std.specs.Prelude.{IfErr, IfOk, OnOk, ℕ, length, replicate, slice_index_or, false, true, nat_eq, ◌^◌, ◌||◌, ◌<◌, ◌≡◌, ◌≤◌};
ghost use Rattle.poly_tiling.specs.Lists.{ascending, mem};

use poly_grid::Refusal;
use std::alloc::Global;

/// Returns this many flags, none of them raised.
pub(crate) fn none_raised(alloc: Global, count: usize) -> Result<Vec<bool>, Refusal>
    ensures ok { IfOk result (λ flags. flags.items ≡ replicate count false) }
    ensures why { IfErr result (λ e. e ≡ Refusal.Memory) }
{
    Ok(vec![in alloc; false; count]?)
}

/// Raises the flags of the numbers. A number past the end of the flags has none, and is skipped.
pub(crate) fn raise(flags: &mut Vec<bool>, numbers: &[u32])
    ensures raised { (k : ℕ) → k < length flags.old.items → slice_index_or flags.new.items k false ≡ (slice_index_or flags.old.items k false || mem numbers.now k) }
    ensures long { length flags.new.items ≡ length flags.old.items }
{
    for number in numbers {
        raise_if_there(flags, *number);
    }
}

fn raise_if_there(flags: &mut Vec<bool>, number: u32)
    ensures raised { (k : ℕ) → k < length flags.old.items → slice_index_or flags.new.items k false ≡ (slice_index_or flags.old.items k false || nat_eq number k) }
    ensures long { length flags.new.items ≡ length flags.old.items }
{
    let at = number as usize;
    if at < flags.len() {
        flags[at] = true;
    }
}

/// Raises the flag of a number. If there are too few flags, it first adds lowered ones up to that number.
pub(crate) fn raise_one(flags: &mut Vec<bool>, number: u32) -> Result<(), Refusal>
    ensures ok { OnOk result ((k : ℕ) → slice_index_or flags.new.items k false ≡ (slice_index_or flags.old.items k false || nat_eq number k)) }
    ensures why { IfErr result (λ e. e ≡ Refusal.Memory) }
{
    let at = number as usize;
    if flags.len() <= at {
        flags.resize(at + 1, false)?;
    }
    flags[at] = true;
    Ok(())
}

/// The numbers whose flags are raised, ascending.
pub(crate) fn raised(alloc: Global, flags: &[bool]) -> Result<Vec<u32>, Refusal>
    requires { length flags.now ≤ 2 ^ 32 }
    ensures ascends { IfOk result (λ list. ascending list.items ≡ true) }
    ensures members { IfOk result (λ list. (k : ℕ) → mem list.items k ≡ slice_index_or flags.now k false) }
    ensures why { IfErr result (λ e. e ≡ Refusal.Memory) }
{
    let mut list = Vec::new(alloc);
    for at in 0..flags.len() {
        if flags[at] {
            list.push(at as u32)?;
        }
    }
    Ok(list)
}
