//! Notes of which items are due, a bit for each. A note is tested when it is read, so a wrong one only costs time.
ghost use Rattle.std.specs.Prelude.{IfErr, length, nat_lt, slice_index, true, ℕ, ◌+◌, ◌<◌, ◌^◌, ◌≡◌, ◌≤◌};
ghost use Rattle.std.specs.List.{list_all};
ghost use Rattle.poly_frame.specs.FrameItems.{times};

use poly_grid::Refusal;
use std::alloc::Global;

// Notes whether the item at `b` is due: whether `have`, the number of members of the base with the item, is too low.
fn note_item(due: &mut Vec<u64>, leasts: &[u8], have: u64, b: usize) {
    let k = b / 64;
    if k >= due.len() || b >= leasts.len() {
        return;
    }
    let bit = 1u64 << (b % 64);
    let word = due[k];
    if have < u64::from(leasts[b]) {
        due[k] = word | bit;
    } else {
        due[k] = word & !bit;
    }
}

/// Raises the count at each index by one, and notes whether the item there is still due. One loop does both, to save time:
/// each step that adds a member to the base needs both.
pub(crate) fn raise_and_note(
    have: &mut Vec<u64>,
    due: &mut Vec<u64>,
    leasts: &[u8],
    indices: &[usize],
)
    requires low { list_all (λ b. nat_lt b (length have.old.items)) indices.now ≡ true }
    requires small { (b : ℕ) → b < length have.old.items → slice_index have.old.items b + length indices.now < 2 ^ 64 }
    ensures len { length have.new.items ≡ length have.old.items }
    ensures more { (b : ℕ) → b < length have.old.items → slice_index have.new.items b ≡ slice_index have.old.items b + times indices.now b }
{
    for b in indices {
        have[*b] += 1;
        note_item(due, leasts, have[*b], *b);
    }
}

/// Clears the notes of the items whose bits are set in the mask.
pub(crate) fn leave_out(mask: &[u64], due: &mut [u64])
    ensures { length due.new ≡ length due.old }
{
    for k in 0..due.len().min(mask.len()) {
        due[k] &= !mask[k];
    }
}

/// Writes to `left` the notes that are left without those of the items whose bits are set in the mask.
pub(crate) fn notes_without(due: &[u64], mask: &[u64], left: &mut [u64]) {
    for k in 0..left.len().min(due.len()) {
        let out = if k < mask.len() { mask[k] } else { 0 };
        left[k] = due[k] & !out;
    }
}

/// Lowers the count at each index by one, and notes whether the item there is due again.
pub(crate) fn lower_and_note(
    have: &mut Vec<u64>,
    due: &mut Vec<u64>,
    leasts: &[u8],
    indices: &[usize],
)
    requires low { list_all (λ b. nat_lt b (length have.old.items)) indices.now ≡ true }
    requires enough { (b : ℕ) → b < length have.old.items → times indices.now b ≤ slice_index have.old.items b }
    ensures len { length have.new.items ≡ length have.old.items }
    ensures less { (b : ℕ) → b < length have.old.items → slice_index have.new.items b + times indices.now b ≡ slice_index have.old.items b }
{
    for b in indices {
        have[*b] -= 1;
        note_item(due, leasts, have[*b], *b);
    }
}

/// A note for each item: whether the item is due.
pub(crate) fn notes_of(alloc: Global, leasts: &[u8], have: &[u64]) -> Result<Vec<u64>, Refusal>
    ensures { IfErr result (λ e. e ≡ Refusal.Memory) }
{
    let mut due = vec![in alloc; 0u64; leasts.len() / 64 + 1]?;
    for b in 0..leasts.len().min(have.len()) {
        note_item(&mut due, leasts, have[b], b);
    }
    Ok(due)
}
