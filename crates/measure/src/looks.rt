//! What a look at a desk costs.
ghost use Rattle.std.specs.Prelude.{◌≡◌};
ghost use Rattle.poly_desk.specs.Changes.{cut_count};

use poly_book::Book;
use poly_design::Design;
use poly_desk::{Desk, Opening, PARTS, Pass};
use poly_grid::Refusal;
use std::alloc::Global;
use std::io::{self, Print};
use std::marker::Brand;
use std::sync::ledger::{Blank, Ledger};
use std::time::{Clock, Instant};

/// The number of looks.
const LOOKS: u32 = 1_000_000;

/// Measures `look` of a desk of the design.
pub fn measure<R: Clock + Print>(rt: &R, alloc: Global, design: &Design) -> io::Result<()> {
    match book_of(alloc, design) {
        // A ledger has a part for each of 10,000 passes, and one that no pass has.
        Ok(book) => measure_desk::<Brand, Brand, Brand, R>(
            rt,
            alloc,
            Blank::new(PARTS),
            Blank::new(PARTS),
            book,
        ),
        Err(refusal) => println!(rt; "a book was refused: {}", refusal.name()),
    }
}

fn book_of(alloc: Global, design: &Design) -> Result<Book, Refusal> {
    Book::begin(alloc, design.copy()?)
}

// Measures a desk of the book.
fn measure_desk<C: Ledger, K: Ledger, O: Opening, R: Clock + Print>(
    rt: &R,
    alloc: Global,
    changes: Blank,
    cuts: Blank,
    book: Book,
) -> io::Result<()>
    requires changes { (changes.name ≡ C.name) × (changes.parts ≡ C.parts) × (changes.parts ≡ PARTS) }
    requires cuts { (cuts.name ≡ K.name) × (cuts.parts ≡ K.parts) × (cuts.parts ≡ PARTS) }
    requires design { book.opened ≡ O.design }
    requires view { book.view ≡ O.view }
    requires steps { book.steps ≡ O.steps }
    requires endings { cut_count book.endings ≡ O.cuts }
{
    match Desk::<C, K, O>::begin(alloc, changes, cuts, book) {
        Ok((desk, pass)) => measure_begun(rt, desk, pass),
        Err(not_begun) => println!(rt; "a desk was refused: {}", not_begun.why.name()),
    }
}

fn measure_begun<C: Ledger, K: Ledger, O: Opening, R: Clock + Print>(
    rt: &R,
    desk: Desk<C, K, O>,
    pass: Pass<C, K, O>,
) -> io::Result<()> {
    let mut pass = pass;
    measure_looks(rt, &desk, &mut pass)
}

fn measure_looks<C: Ledger, K: Ledger, O: Opening, R: Clock + Print>(
    rt: &R,
    desk: &Desk<C, K, O>,
    pass: &mut Pass<C, K, O>,
) -> io::Result<()> {
    let mut last = 0;
    let begin = Instant::now(rt)?;
    for _ in 0..LOOKS {
        last = desk.look(pass).edition;
    }
    let taken = begin.elapsed(rt)?.as_millis();
    println!(rt; "{LOOKS} looks, the last at edition {last}: {taken} ms")
}
