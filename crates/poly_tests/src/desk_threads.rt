//! Two threads at one desk.
ghost use Rattle.std.specs.Prelude.{◌≡◌};
ghost use Rattle.poly_desk.specs.Changes.{cut_count};

use crate::books::book_of;
use crate::designs::{DOMINOES, design};
use poly_book::Book;
use poly_design::{Edit, Mode};
use poly_desk::{Desk, Opening, PARTS, Pass, Receipt};
use poly_grid::Cell;
use std::alloc::Global;
use std::marker::Brand;
use std::process::Abort;
use std::sync::Wait;
use std::sync::ledger::{Blank, Ledger};
use std::thread;
use std::thread::Threads;

// One thread's part: a pass, a cell to edit, and the receipts so far.
#[derive(Drop)]
struct Hand<C: Ledger, K: Ledger, O: Opening> {
    pass: Pass<C, K, O>,
    cell: Cell,
    receipts: Vec<Receipt>,
}

// Where threads edit a design together.
trait Shared {
    type Hand;

    // Makes the cell of the hand optional and required in turn, 50 times in all, and keeps the receipts.
    fn edit_often<R: Wait>(&self, rt: &R, hand: &mut Self::Hand);
}

impl<C: Ledger, K: Ledger, O: Opening> Shared for Desk<C, K, O> {
    type Hand = Hand<C, K, O>;

    fn edit_often<R: Wait>(&self, rt: &R, hand: &mut Hand<C, K, O>) {
        for turn in 0..50u32 {
            let mode = if turn % 2 == 0 {
                Mode::Optional
            } else {
                Mode::Required
            };
            let cell = hand.cell;
            match self.edit(rt, &mut hand.pass, Edit::Cell { cell, mode }) {
                Ok(receipt) => {
                    let _ = hand.receipts.push(receipt);
                }
                Err(_) => {}
            }
        }
    }
}

// Lets two threads edit at the same time.
fn edit_at_once<S: Shared + Sync, R: Threads + Wait + Sync>(
    rt: &R,
    shared: &S,
    one: &mut S::Hand,
    two: &mut S::Hand,
)
where
    S::Hand: Send,
{
    let _ = thread::join(
        rt,
        || shared.edit_often(rt, one),
        || shared.edit_often(rt, two),
    );
}

// Whether one of the receipts has the place.
fn has(receipts: &[Receipt], place: u64) -> bool {
    receipts.iter().any(|receipt| receipt.place() == place)
}

// Two hands at the desk, for the first and the last cell of the square.
fn hands<C: Ledger, K: Ledger, O: Opening, R: Wait + Abort>(
    rt: &R,
    alloc: Global,
    desk: &Desk<C, K, O>,
    first: Pass<C, K, O>,
) -> (Hand<C, K, O>, Hand<C, K, O>) {
    let mut pass = first;
    let other = desk.pass(rt, alloc, &mut pass).expect(rt, "a second pass");
    let last = Cell::new(1, 1).expect(rt, "a coordinate below 64");
    (
        hand_for(alloc, pass, Cell::ORIGIN),
        hand_for(alloc, other, last),
    )
}

fn hand_for<C: Ledger, K: Ledger, O: Opening>(
    alloc: Global,
    pass: Pass<C, K, O>,
    cell: Cell,
) -> Hand<C, K, O> {
    Hand {
        pass,
        cell,
        receipts: Vec::new(alloc),
    }
}

// Asserts that each list has 50 receipts, and that each place is in exactly one list.
fn expect_all(rt: &impl Abort, one: &[Receipt], two: &[Receipt]) {
    assert!(rt; (one.len(), two.len()) == (50, 50));
    for place in 1..101u64 {
        assert!(rt; has(one, place) != has(two, place));
    }
}

// Settles up with what both hands have.
fn settle<C: Ledger, K: Ledger, O: Opening>(
    rt: &impl Abort,
    alloc: Global,
    desk: Desk<C, K, O>,
    one: Hand<C, K, O>,
    two: Hand<C, K, O>,
) -> Book {
    let passes = vec![in alloc; one.pass, two.pass].expect(rt, "memory");
    let receipts = vec![in alloc; one.receipts, two.receipts].expect(rt, "memory");
    let settled = desk.settle_up(passes, receipts);
    settled.ok().expect(rt, "it is settled up")
}

// Lets both hands edit at the same time, and settles up.
fn edit_with<
    C: Ledger + Send + Sync,
    K: Ledger + Send + Sync,
    O: Opening + Send + Sync,
    R: Threads + Wait + Sync + Abort,
>(rt: &R, alloc: Global, desk: Desk<C, K, O>, first: Hand<C, K, O>, second: Hand<C, K, O>) -> Book {
    let mut one = first;
    let mut two = second;
    edit_at_once(rt, &desk, &mut one, &mut two);
    expect_all(rt, &one.receipts, &two.receipts);
    settle(rt, alloc, desk, one, two)
}

fn edit_together<
    C: Ledger + Send + Sync,
    K: Ledger + Send + Sync,
    O: Opening + Send + Sync,
    R: Threads + Wait + Sync + Abort,
>(rt: &R, alloc: Global, changes: Blank, cuts: Blank, book: Book) -> Book
    requires changes { (changes.name ≡ C.name) × (changes.parts ≡ C.parts) × (changes.parts ≡ PARTS) }
    requires cuts { (cuts.name ≡ K.name) × (cuts.parts ≡ K.parts) × (cuts.parts ≡ PARTS) }
    requires design { book.opened ≡ O.design }
    requires view { book.view ≡ O.view }
    requires steps { book.steps ≡ O.steps }
    requires endings { cut_count book.endings ≡ O.cuts }
{
    let begun = Desk::<C, K, O>::begin(alloc, changes, cuts, book);
    let (desk, pass) = begun.ok().expect(rt, "a desk");
    let (one, two) = hands(rt, alloc, &desk, pass);
    edit_with(rt, alloc, desk, one, two)
}

// The book after the edits of two threads.
fn book_after_edits<R: Threads + Wait + Sync + Abort>(rt: &R, alloc: Global) -> Book {
    let book = book_of(rt, alloc, DOMINOES);
    let changes = Blank::new(PARTS);
    let cuts = Blank::new(PARTS);
    edit_together::<Brand, Brand, Brand, R>(rt, alloc, changes, cuts, book)
}

#[test]
fn two_threads_edit(rt: HostRuntime) {
    let after = book_after_edits(&rt, rt.alloc());
    assert!(rt; after.numbers().edition == 100);
    assert!(rt; after.design().is_same(&design(&rt, DOMINOES)));
}
