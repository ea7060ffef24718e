//! Crews at a desk.
//!
//! The last test says little with ample memory. tests/refused_calls.sh runs it again with each allocation refused in turn.
ghost use Rattle.std.specs.Prelude.{◌≡◌, ◌≤◌, [], vec_capacity};
ghost use Rattle.poly_desk.specs.Changes.{cut_count};

use crate::books::begun;
use crate::designs::DOMINOES;
use crate::gates::HoldingGate;
use poly_book::Book;
use poly_crew::{Crew, Gate, OpenGate, crew};
use poly_desk::{Desk, Opening, PARTS, Pass};
use poly_grid::Refusal;
use std::alloc::Global;
use std::marker::Brand;
use std::process::Abort;
use std::sync::Wait;
use std::sync::ledger::{Blank, Ledger};
use std::thread::Threads;

// A book, and how the crew that worked on it ended.
#[derive(Drop)]
struct Worked {
    book: Book,
    end: Result<(), Refusal>,
}

// Lets a crew of two work at the desk. If the desk refuses a second pass, no crew works.
fn crew_of_two<
    C: Ledger + Send + Sync,
    K: Ledger + Send + Sync,
    O: Opening + Send + Sync,
    G: Gate + Sync,
    R: Threads + Wait + Sync,
>(
    rt: &R,
    alloc: Global,
    desk: &Desk<C, K, O>,
    mut first: Pass<C, K, O>,
    mut passes: Vec<Pass<C, K, O>>,
    gate: &G,
) -> Crew<Pass<C, K, O>>
    requires empty { passes.items ≡ [] }
    requires room { 2 ≤ vec_capacity passes }
{
    let dealt = desk.pass(rt, alloc, &mut first);
    passes.push_reserved(first);
    match dealt {
        Ok(second) => {
            passes.push_reserved(second);
            crew(rt, alloc, desk, passes, 1000, 1, gate)
        }
        Err(why) => Crew {
            passes,
            receipts: Vec::new(alloc),
            applied: 0,
            end: Err(why),
        },
    }
}

// Settles up with what the crew left. Refused only if the desk isn't settled up.
fn settle<C: Ledger, K: Ledger, O: Opening>(
    desk: Desk<C, K, O>,
    after: Crew<Pass<C, K, O>>,
) -> Result<Worked, Refusal> {
    let end = after.end;
    match desk.settle_up(after.passes, after.receipts) {
        Ok(book) => Ok(Worked { book, end }),
        Err(not_settled) => Err(not_settled.why),
    }
}

// Lets a crew of two work at a new desk of the book, and settles up. If there is no memory for the list of passes, the desk or
// the second pass, then no crew works. Refused only if the desk isn't settled up.
fn work_at_a_desk<
    C: Ledger + Send + Sync,
    K: Ledger + Send + Sync,
    O: Opening + Send + Sync,
    G: Gate + Sync,
    R: Threads + Wait + Sync,
>(
    rt: &R,
    alloc: Global,
    changes: Blank,
    cuts: Blank,
    book: Book,
    gate: &G,
) -> Result<Worked, Refusal>
    requires changes { (changes.name ≡ C.name) × (changes.parts ≡ C.parts) × (changes.parts ≡ PARTS) }
    requires cuts { (cuts.name ≡ K.name) × (cuts.parts ≡ K.parts) × (cuts.parts ≡ PARTS) }
    requires design { book.opened ≡ O.design }
    requires view { book.view ≡ O.view }
    requires steps { book.steps ≡ O.steps }
    requires endings { cut_count book.endings ≡ O.cuts }
{
    let Ok(passes) = Vec::with_capacity(alloc, 2) else {
        return Ok(Worked {
            book,
            end: Err(Refusal::Memory),
        });
    };
    match Desk::<C, K, O>::begin(alloc, changes, cuts, book) {
        Ok((desk, first)) => {
            let after = crew_of_two(rt, alloc, &desk, first, passes, gate);
            settle(desk, after)
        }
        Err(not_begun) => Ok(Worked {
            book: not_begun.book,
            end: Err(not_begun.why),
        }),
    }
}

fn work_by_two<G: Gate + Sync, R: Threads + Wait + Sync>(
    rt: &R,
    alloc: Global,
    book: Book,
    gate: &G,
) -> Result<Worked, Refusal> {
    let changes = Blank::new(PARTS);
    let cuts = Blank::new(PARTS);
    work_at_a_desk::<Brand, Brand, Brand, G, R>(rt, alloc, changes, cuts, book, gate)
}

// Two dominoes on a square. A run may have one allocation refused, so a book that isn't begun is begun a second time.
fn two_dominoes(rt: &impl Abort, alloc: Global) -> Book {
    match begun(alloc, DOMINOES) {
        Ok(book) => book,
        Err(_) => begun(alloc, DOMINOES).expect(rt, "memory at the second try"),
    }
}

fn expect_tilings(rt: &impl Abort, book: &Book) {
    let numbers = book.numbers();
    assert!(rt; (numbers.listed, numbers.pending) == (4, 0));
}

#[test]
fn the_gate_test_at_a_desk(rt: HostRuntime) {
    let gate = HoldingGate::new();
    let book = two_dominoes(&rt, rt.alloc());
    let worked = work_by_two(&rt, rt.alloc(), book, &gate).expect(&rt, "it is settled up");
    assert!(rt; gate.was_passed());
    assert!(rt; worked.end == Ok(()));
    expect_tilings(&rt, &worked.book);
}

#[test]
fn a_crew_without_memory(rt: HostRuntime) {
    let book = two_dominoes(&rt, rt.alloc());
    let first = work_by_two(&rt, rt.alloc(), book, &OpenGate).expect(&rt, "it is settled up");
    assert!(rt; matches!(first.end, Ok(()) | Err(Refusal::Memory)));
    let second = work_by_two(&rt, rt.alloc(), first.book, &OpenGate).expect(
        &rt,
        "it is settled up",
    );
    // At most one allocation of a run is refused.
    assert!(rt; second.end == Ok(()) || first.end == Ok(()));
    let third = work_by_two(&rt, rt.alloc(), second.book, &OpenGate).expect(
        &rt,
        "it is settled up",
    );
    expect_tilings(&rt, &third.book);
}
