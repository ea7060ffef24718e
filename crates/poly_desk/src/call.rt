//! What a floor does before and after a call of its book.
ghost use Rattle.std.specs.Prelude.{◌≡◌, ◌≤◌, ◌<◌, ◌+◌, IfErr, OnErr, OnOk, length, vec_len};
ghost use Rattle.poly_grid.specs.declared.refusal.Refusal.TheVariants.{Memory};
ghost use Rattle.poly_board.specs.Posts.{NoneFalls, last_of};
ghost use Rattle.poly_desk.specs.Calls.{IsBehind};
ghost use Rattle.poly_desk.specs.Noted.{Held, held, numbers_of};
ghost use Rattle.poly_book.specs.declared.prepare.TheConstants.{MAX_CHANGES};

use crate::ledgers::Totals;
use crate::marks::Marks;
use crate::opening::Opening;
use crate::pass::Pass;
use crate::receipt::Receipt;
use poly_board::{Posted, Poster};
use poly_book::{Book, Done};
use poly_grid::Refusal;
use std::sync::ledger::Ledger;

/// The edition of the book and the number of its endings.
pub(crate) fn numbers_of_book(book: &Book) -> Posted
    ensures value { result ≡ numbers_of book.now }
{
    let numbers = book.numbers();
    Posted {
        edition: numbers.edition as u32,
        endings: numbers.endings as u32,
    }
}

/// Notes the book's numbers in the pass. If the book's edition is below the one that the pass has noted, fails with
/// `Unsettled` and leaves the pass as it was.
pub(crate) fn note_numbers<C: Ledger, K: Ledger, O: Opening>(
    book: &Book,
    pass: &mut Pass<C, K, O>,
) -> Result<(), Refusal>
    ensures seen { OnOk result (pass.old.noted.edition ≤ length book.now.steps) }
    ensures noted { OnOk result (pass.new ≡ held (numbers_of book.now) pass.old.changes pass.old.cuts pass.old.posts) }
    ensures behind { IfErr result (λ e. IsBehind book.now pass.old pass.new e) }
{
    let numbers = numbers_of_book(book);
    if numbers.edition < pass.noted.edition {
        return Err(Refusal::Unsettled {
            seen: u64::from(pass.noted.edition),
            found: u64::from(numbers.edition),
        });
    }
    pass.noted = numbers;
    Ok(())
}

/// Makes enough flags for the steps and endings that the book has after one more change or report. Fails only when out of
/// memory.
pub(crate) fn make_room(book: &Book, marks: &mut Marks) -> Result<(), Refusal>
    ensures steps { OnOk result (length book.now.steps + 1 ≤ vec_len marks.new.steps) }
    ensures endings { OnOk result (length book.now.endings + length book.now.pending + 1 ≤ vec_len marks.new.endings) }
    ensures steps_stay { vec_len marks.old.steps ≤ vec_len marks.new.steps }
    ensures endings_stay { vec_len marks.old.endings ≤ vec_len marks.new.endings }
    ensures few_steps { length book.now.steps ≤ MAX_CHANGES }
    ensures few_endings { length book.now.endings < 4294967296 }
    ensures why { IfErr result (λ e. e ≡ Refusal.Memory) }
{
    let numbers = book.numbers();
    let steps = numbers.edition + 1;
    let endings = numbers.endings + numbers.pending + 1;
    marks.reach(steps as usize, endings as usize)
}

/// Posts, counts and notes a change that was made, and returns its receipt.
pub(crate) fn note_change<C: Ledger, K: Ledger, O: Opening>(
    book: &Book,
    poster: &mut Poster,
    totals: &mut Totals<C, K>,
    pass: &mut Pass<C, K, O>,
    done: Done,
) -> Receipt
    requires rising { NoneFalls (last_of poster.old.posts) (numbers_of book.now) }
    requires few { totals.old.changes ≤ 4294967296 }
    ensures posted { last_of poster.new.posts ≡ numbers_of book.now }
    ensures changes { totals.new.changes ≡ totals.old.changes + 1 }
    ensures cuts { totals.new.cuts ≡ totals.old.cuts }
    ensures pass { pass.new ≡ held (numbers_of book.now) (pass.old.changes + 1) pass.old.cuts pass.old.posts }
    ensures receipt { result ≡ Receipt.Changed done.place done.step }
{
    let numbers = numbers_of_book(book);
    poster.post(numbers);
    totals.add_change(&mut pass.shares);
    pass.noted = numbers;
    let Done { place, step } = done;
    Receipt::Changed { place, step }
}

/// Posts, counts and notes a report that was applied.
pub(crate) fn note_cut<C: Ledger, K: Ledger, O: Opening>(
    book: &Book,
    poster: &mut Poster,
    totals: &mut Totals<C, K>,
    pass: &mut Pass<C, K, O>,
)
    requires rising { NoneFalls (last_of poster.old.posts) (numbers_of book.now) }
    requires few { totals.old.cuts ≤ 4294967296 }
    ensures posted { last_of poster.new.posts ≡ numbers_of book.now }
    ensures changes { totals.new.changes ≡ totals.old.changes }
    ensures cuts { totals.new.cuts ≡ totals.old.cuts + 1 }
    ensures pass { pass.new ≡ held (numbers_of book.now) pass.old.changes (pass.old.cuts + 1) pass.old.posts }
{
    let numbers = numbers_of_book(book);
    poster.post(numbers);
    totals.add_cut(&mut pass.shares);
    pass.noted = numbers;
}
