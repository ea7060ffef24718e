//! Flags that say which placements are gone.
//!
//! Each number that is gone is flagged once, and how many of a tiling's numbers are flagged is then seen by flags alone. The
//! flags are allocated when tilings are listed, so that the count of those that stay never allocates.
ghost use Rattle.std.specs.Prelude.{◌≡◌, ◌^◌, ◌<◌, ◌≤◌, IfErr, OnOk, false, length, nat_lt, replicate, slice_index_or, slice_set, true, ℕ};
ghost use Rattle.std.specs.List.{list_all};
ghost use Rattle.poly_tiling.specs.Lists.{mem};
ghost use Rattle.poly_catalogue.specs.Flags.{flagged, within};

use poly_grid::Refusal;

/// Makes a flag for each of the numbers. Fails only with `Memory`, and then there are as many flags as before or more.
pub(crate) fn reach_all(flags: &mut Vec<bool>, numbers: &[u32]) -> Result<(), Refusal>
    requires few { length flags.old.items ≤ 2 ^ 32 }
    ensures low { OnOk result (list_all (λ p. nat_lt p (length flags.new.items)) numbers.now ≡ true) }
    ensures more { length flags.old.items ≤ length flags.new.items }
    ensures few { length flags.new.items ≤ 2 ^ 32 }
    ensures why { IfErr result (λ e. e ≡ Refusal.Memory) }
{
    for number in numbers {
        reach(flags, *number)?;
    }
    Ok(())
}

// Makes flags up to that of the number. Fails only with `Memory`.
fn reach(flags: &mut Vec<bool>, number: u32) -> Result<(), Refusal>
    requires few { length flags.old.items ≤ 2 ^ 32 }
    ensures low { OnOk result (number < length flags.new.items) }
    ensures more { length flags.old.items ≤ length flags.new.items }
    ensures few { length flags.new.items ≤ 2 ^ 32 }
    ensures why { IfErr result (λ e. e ≡ Refusal.Memory) }
{
    while flags.len() <= number as usize {
        flags.push(false)?;
    }
    Ok(())
}

/// Sets the flag of each of the numbers that has one, and clears all other flags. Adds no flags.
pub(crate) fn flag_numbers(flags: &mut Vec<bool>, numbers: &[u32])
    ensures long { length flags.new.items ≡ length flags.old.items }
    ensures flags { (p : ℕ) → p < length flags.new.items → slice_index_or flags.new.items p false ≡ mem numbers.now p }
{
    clear(flags);
    for number in numbers {
        flag(flags, *number);
    }
}

fn clear(flags: &mut Vec<bool>)
    ensures { flags.new.items ≡ replicate (length flags.old.items) false }
{
    flags.fill(false);
}

// Sets the flag of the number if it has one.
fn flag(flags: &mut Vec<bool>, number: u32)
    ensures { flags.new.items ≡ slice_set flags.old.items number true }
{
    if (number as usize) < flags.len() {
        flags[number as usize] = true;
    }
}

/// Whether at least `least` and at most `most` of the numbers are flagged.
pub(crate) fn is_within(flags: &[bool], least: usize, most: usize, numbers: &[u32]) -> bool
    ensures { result ≡ within flags.now least most numbers.now }
{
    let count = count(flags, numbers);
    least <= count && count <= most
}

// How many of the numbers are flagged.
fn count(flags: &[bool], numbers: &[u32]) -> usize
    ensures value { result ≡ flagged flags.now numbers.now }
    ensures most { result ≤ length numbers.now }
{
    let mut count = 0;
    for number in numbers {
        if is_flagged(flags, *number) {
            count += 1;
        }
    }
    count
}

fn is_flagged(flags: &[bool], number: u32) -> bool
    ensures { result ≡ slice_index_or flags.now number false }
{
    match flags.get(number as usize) {
        Some(flag) => *flag,
        None => false,
    }
}
