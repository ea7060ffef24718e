//! Ticks receipts off. Each must be right, and the flag of its kind and place must be down. Then that flag is raised.
ghost use Rattle.std.specs.Prelude.{◌≡◌, ◌<◌, ◌≤◌, ◌++◌, ◌||◌, ◌==◌, ◌⊎◌, ℕ, Bool, List, All, IfErr, OnOk, false, length, true};
ghost use Rattle.poly_grid.specs.declared.refusal.Refusal.TheVariants.{Unsettled};
ghost use Rattle.poly_desk.specs.Receipts.{AreReceipts, IsBadReceipt, IsRightReceipt, all_of, entries, place_of, same_place};
ghost use Rattle.poly_desk.specs.Ticks.{HasFlags, Taken, flag_at, flag_of};
ghost use Rattle.poly_desk.specs.declared.receipt.Receipt.{Receipt};

use crate::marks::Marks;
use crate::receipt::Receipt;
use poly_book::Book;
use poly_grid::Refusal;

/// Succeeds if each receipt is right, and no two receipts of one kind have the same place. If not, the refusal gives the place
/// of a receipt at fault. Requires a flag for each step and each ending, all of them down.
pub(crate) fn check_receipts(
    book: &Book,
    marks: &mut Marks,
    receipts: &[Vec<Receipt>],
) -> Result<(), Refusal>
    requires flags { HasFlags book.now marks.old }
    requires down { (All (λ flag. flag ≡ false) marks.old.steps.items) × (All (λ flag. flag ≡ false) marks.old.endings.items) }
    ensures flags { HasFlags book.now marks.new }
    ensures ok { OnOk result (AreReceipts book.now (all_of receipts.now)) }
    ensures why { IfErr result (λ e. IsBadReceipt book.now (all_of receipts.now) e) }
{
    for list in receipts {
        tick_list(book, marks, list)?;
    }
    Ok(())
}

// Ticks off the receipts of one list. The flags that are up already are those of receipts that were ticked off before.
fn tick_list(book: &Book, marks: &mut Marks, receipts: &[Receipt]) -> Result<(), Refusal>
    requires flags { HasFlags book.now marks.old }
    ensures flags { HasFlags book.now marks.new }
    ensures ok { OnOk result ((rs : List Receipt) → Taken book.now marks.old rs → Taken book.now marks.new (rs ++ receipts.now)) }
    ensures why { IfErr result (λ e. (rs : List Receipt) (more : List Receipt) → Taken book.now marks.old rs → IsBadReceipt book.now ((rs ++ receipts.now) ++ more) e) }
{
    for receipt in receipts {
        tick_off(book, marks, receipt)?;
    }
    Ok(())
}

// Ticks one receipt off, if it is right and its flag is down.
fn tick_off(book: &Book, marks: &mut Marks, receipt: &Receipt) -> Result<(), Refusal>
    requires flags { HasFlags book.now marks.old }
    ensures flags { HasFlags book.now marks.new }
    ensures right { OnOk result (IsRightReceipt book.now receipt.now) }
    ensures first { OnOk result (flag_of marks.old receipt.now ≡ false) }
    ensures ticked { OnOk result ((q : Receipt) → flag_of marks.new q ≡ (flag_of marks.old q || same_place receipt.now q)) }
    ensures why { IfErr result (λ e. ((e ≡ Refusal.Unsettled (place_of receipt.now) (entries book.now receipt.now)) × (¬ IsRightReceipt book.now receipt.now)) ⊎ ((e ≡ Refusal.Unsettled (place_of receipt.now) 2) × IsRightReceipt book.now receipt.now × (flag_of marks.old receipt.now ≡ true))) }
{
    let place = receipt.place();
    if !receipt.is_right(book) {
        return Err(Refusal::Unsettled {
            seen: place,
            found: receipt.entries(book),
        });
    }
    if raise(marks, receipt) {
        return Err(Refusal::Unsettled {
            seen: place,
            found: 2,
        });
    }
    Ok(())
}

// Raises the flag of the receipt's kind and place, and returns whether the flag was up before.
fn raise(marks: &mut Marks, receipt: &Receipt) -> bool
    requires place { 0 < place_of receipt.now }
    requires step { (place : ℕ) (step : _) → receipt.now ≡ Receipt.Changed place step → place ≤ length marks.old.steps.items }
    requires ending { (place : ℕ) (task : _) → receipt.now ≡ Receipt.Cut place task → place ≤ length marks.old.endings.items }
    ensures lengths { (length marks.new.steps.items ≡ length marks.old.steps.items) × (length marks.new.endings.items ≡ length marks.old.endings.items) }
    ensures was { result ≡ flag_of marks.old receipt.now }
    ensures ticked { (q : Receipt) → flag_of marks.new q ≡ (flag_of marks.old q || same_place receipt.now q) }
{
    match receipt {
        Receipt::Changed { place, .. } => raise_at(&mut marks.steps, *place),
        Receipt::Cut { place, .. } => raise_at(&mut marks.endings, *place),
    }
}

// Raises the flag of the place, and returns whether the flag was up before.
fn raise_at(flags: &mut [bool], place: u64) -> bool
    requires { (0 < place) × (place ≤ length flags.old) }
    ensures length { length flags.new ≡ length flags.old }
    ensures was { result ≡ flag_at flags.old place }
    ensures up { (p : ℕ) → flag_at flags.new p ≡ (flag_at flags.old p || (place == p)) }
{
    let at = (place - 1) as usize;
    let was = flags[at];
    flags[at] = true;
    was
}
