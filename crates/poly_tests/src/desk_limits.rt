//! How many passes a desk can have.
ghost use Rattle.std.specs.Prelude.{◌≡◌};
ghost use Rattle.poly_desk.specs.Changes.{cut_count};

use crate::books::book_of;
use crate::designs::DOMINOES;
use poly_book::Book;
use poly_desk::{Desk, Opening, PARTS};
use poly_grid::Refusal;
use std::alloc::Global;
use std::marker::Brand;
use std::process::Abort;
use std::sync::Wait;
use std::sync::ledger::{Blank, Ledger};

// Makes passes until the desk has as many as it may, and asserts that one more is refused. The first pass came with the desk.
fn make_passes<C: Ledger, K: Ledger, O: Opening, R: Wait + Abort>(
    rt: &R,
    alloc: Global,
    changes: Blank,
    cuts: Blank,
    book: Book,
)
    requires changes { (changes.name ≡ C.name) × (changes.parts ≡ C.parts) × (changes.parts ≡ PARTS) }
    requires cuts { (cuts.name ≡ K.name) × (cuts.parts ≡ K.parts) × (cuts.parts ≡ PARTS) }
    requires design { book.opened ≡ O.design }
    requires view { book.view ≡ O.view }
    requires steps { book.steps ≡ O.steps }
    requires endings { cut_count book.endings ≡ O.cuts }
{
    let begun = Desk::<C, K, O>::begin(alloc, changes, cuts, book);
    let (desk, mut first) = begun.ok().expect(rt, "a desk");
    for _ in 1..10_000u32 {
        let _ = desk
            .pass(rt, alloc, &mut first)
            .expect(rt, "a further pass");
    }
    let why = desk.pass(rt, alloc, &mut first).err();
    assert!(rt; why == Some(Refusal::Spent));
}

#[test]
fn a_desk_has_ten_thousand_passes(rt: HostRuntime) {
    let alloc = rt.alloc();
    let book = book_of(&rt, alloc, DOMINOES);
    make_passes::<Brand, Brand, Brand, HostRuntime>(
        &rt,
        alloc,
        Blank::new(PARTS),
        Blank::new(PARTS),
        book,
    );
}
