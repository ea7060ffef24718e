//! A crew's work on one book: the desk is set up, the crew works at it, and the book is taken back.
ghost use Rattle.std.specs.Prelude.{◌≡◌, ◌≤◌, ◌+◌, [], IfErr, IfOk, OnOk, false, length, sum_by, true, vec_capacity};
ghost use Rattle.poly_crew.specs.declared.crewing.TheConstants.{MOST_TURNS, MOST_WORKERS};
ghost use Rattle.poly_desk.specs.Changes.{cut_count};
ghost use Rattle.poly_desk.specs.Seen.{is_unsettled};
ghost use Rattle.poly_cli.specs.Books.{session_of};

use crate::solo::NODES;
use poly_book::Book;
use poly_crew::{OpenGate, crew};
use poly_desk::{Desk, Opening, PARTS, Pass, Receipt};
use poly_grid::Refusal;
use std::alloc::Global;
use std::marker::Brand;
use std::sync::Wait;
use std::sync::ledger::{Blank, Ledger};
use std::thread::Threads;

/// A book on which a crew has worked, or for which no crew could run; and how the crew ended, or why none ran.
#[derive(Drop)]
pub(crate) struct Worked {
    /// The book after the work.
    pub(crate) book: Book,
    /// How the crew ended, or why no crew ran.
    pub(crate) end: Result<(), Refusal>,
}

/// How many workers a crew has, and how many turns each may take.
#[derive(Drop)]
pub(crate) struct Crewing {
    /// The number of workers, from 1 to `MOST_WORKERS`.
    pub(crate) workers: usize,
    /// The most turns of each worker, at most `MOST_TURNS`.
    pub(crate) turns: u64,
    ghost some: { 1 ≤ workers },
    ghost few: { workers ≤ MOST_WORKERS },
    ghost few_turns: { turns ≤ MOST_TURNS },
}

/// Runs a crew on the book. The design, the undo steps and the redo steps don't change. If there is no memory for the desk,
/// the passes or the workers, no crew runs and `end` says why. Fails with `Unsettled` if the desk can't be settled up; the
/// book is lost then.
pub(crate) fn work_on<R: Threads + Wait + Sync>(
    rt: &R,
    alloc: Global,
    crewing: &Crewing,
    book: Book,
) -> Result<Worked, Refusal>
    ensures same { IfOk result (λ w. session_of w.book false ≡ session_of book false) }
    ensures why { IfErr result (λ e. is_unsettled e ≡ true) }
{
    // Before and after the work, the contract of `whole` guarantees that the steps determine which changes can be undone and
    // redone.
    book.whole();
    let changes = Blank::new(PARTS);
    let cuts = Blank::new(PARTS);
    let worked = work_at_desk::<Brand, Brand, Brand, R>(rt, alloc, crewing, changes, cuts, book)?;
    worked.book.whole();
    Ok(worked)
}

// Runs the crew at a desk that keeps its totals in these ledgers. Fails as `work_on` does.
fn work_at_desk<
    C: Ledger + Send + Sync,
    K: Ledger + Send + Sync,
    O: Opening + Send + Sync,
    R: Threads + Wait + Sync,
>(
    rt: &R,
    alloc: Global,
    crewing: &Crewing,
    changes: Blank,
    cuts: Blank,
    book: Book,
) -> Result<Worked, Refusal>
    requires changes { (changes.name ≡ C.name) × (changes.parts ≡ C.parts) × (changes.parts ≡ PARTS) }
    requires cuts { (cuts.name ≡ K.name) × (cuts.parts ≡ K.parts) × (cuts.parts ≡ PARTS) }
    requires design { book.opened ≡ O.design }
    requires view { book.view ≡ O.view }
    requires steps { book.steps ≡ O.steps }
    requires endings { cut_count book.endings ≡ O.cuts }
    ensures opened { IfOk result (λ w. w.book.opened ≡ book.opened) }
    ensures stay { IfOk result (λ w. w.book.steps ≡ book.steps) }
    ensures why { IfErr result (λ e. is_unsettled e ≡ true) }
{
    let mut passes = match Vec::with_capacity(alloc, crewing.workers) {
        Ok(passes) => passes,
        Err(_) => {
            return Ok(Worked {
                book,
                end: Err(Refusal::Memory),
            });
        }
    };
    let (desk, mut first) = match Desk::<C, K, O>::begin(alloc, changes, cuts, book) {
        Ok(both) => both,
        Err(not_begun) => {
            return Ok(Worked {
                book: not_begun.book,
                end: Err(not_begun.why),
            });
        }
    };
    let dealt = deal(
        rt,
        alloc,
        &desk,
        &mut first,
        crewing.workers - 1,
        &mut passes,
    );
    passes.push_reserved(first);
    let after = let_work(rt, alloc, &desk, crewing, dealt, passes);
    match desk.settle_up(after.passes, after.receipts) {
        Ok(book) => Ok(Worked {
            book,
            end: after.end,
        }),
        Err(not_settled) => Err(not_settled.why),
    }
}

// What comes back after the work: the passes and receipts that settle up the desk, and how the crew ended or why none ran.
#[derive(Drop)]
struct Returned<C: Ledger, K: Ledger, O: Opening> {
    passes: Vec<Pass<C, K, O>>,
    receipts: Vec<Vec<Receipt>>,
    end: Result<(), Refusal>,
}

// Appends `count` further passes of the desk to the list.
fn deal<C: Ledger, K: Ledger, O: Opening, R: Wait>(
    rt: &R,
    alloc: Global,
    desk: &Desk<C, K, O>,
    first: &mut Pass<C, K, O>,
    count: usize,
    passes: &mut Vec<Pass<C, K, O>>,
) -> Result<(), Refusal>
    requires empty { passes.old.items ≡ [] }
    requires room { count + 1 ≤ vec_capacity passes.old }
    ensures first { first.new.changes ≡ first.old.changes }
    ensures none { sum_by (λ p. p.changes) passes.new.items ≡ 0 }
    ensures few { length passes.new.items ≤ count }
    ensures all { OnOk result (length passes.new.items ≡ count) }
    ensures room { vec_capacity passes.new ≡ vec_capacity passes.old }
{
    for made in 0..count {
        let pass = desk.pass(rt, alloc, first)?;
        passes.push_reserved(pass);
    }
    Ok(())
}

// Runs the crew, one worker for each pass, if `dealt` says that every worker has a pass.
fn let_work<
    C: Ledger + Send + Sync,
    K: Ledger + Send + Sync,
    O: Opening + Send + Sync,
    R: Threads + Wait + Sync,
>(
    rt: &R,
    alloc: Global,
    desk: &Desk<C, K, O>,
    crewing: &Crewing,
    dealt: Result<(), Refusal>,
    passes: Vec<Pass<C, K, O>>,
) -> Returned<C, K, O>
    requires each { OnOk dealt (length passes.items ≡ crewing.now.workers) }
    requires none { sum_by (λ p. p.changes) passes.items ≡ 0 }
    ensures { sum_by (λ p. p.changes) result.passes.items ≡ 0 }
{
    match dealt {
        Ok(()) => {
            let after = crew(rt, alloc, desk, passes, crewing.turns, NODES, &OpenGate);
            Returned {
                passes: after.passes,
                receipts: after.receipts,
                end: after.end,
            }
        }
        Err(refusal) => Returned {
            passes,
            receipts: Vec::new(alloc),
            end: Err(refusal),
        },
    }
}
