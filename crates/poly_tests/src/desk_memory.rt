//! What a desk does when memory runs out.
//!
//! With ample memory this test says little. tests/refused_calls.sh runs it again with each allocation refused in turn: then
//! one call fails with `Memory`, has to leave the desk as it was, and has to succeed when it is made again.
ghost use Rattle.std.specs.Prelude.{◌≡◌, ◌≤◌, vec_capacity, vec_len};
ghost use Rattle.poly_desk.specs.Changes.{cut_count};

use crate::books::{begun, edit_by, expect_status};
use crate::designs::{DOMINOES, design_of};
use crate::desks::{FORBID, shown, work};
use crate::shared_out::is_shared_out;
use poly_book::{Book, Quiet, Which};
use poly_design::{Design, Edit};
use poly_desk::{Desk, NotBegun, Opening, PARTS, Pass};
use poly_grid::Refusal;
use std::alloc::Global;
use std::marker::Brand;
use std::process::Abort;
use std::sync::Wait;
use std::sync::ledger::{Blank, Ledger};

// What to ask of a desk. To `Work` is to take a task, explore it and hand the report in.
#[derive(Drop)]
enum Asked {
    Edit(Edit),
    Undo,
    Redo,
    Work,
    Quiet,
}

fn ask<C: Ledger, K: Ledger, O: Opening, R: Wait + Abort>(
    rt: &R,
    alloc: Global,
    desk: &Desk<C, K, O>,
    pass: &mut Pass<C, K, O>,
    asked: &Asked,
) -> Result<Option<Quiet>, Refusal> {
    let _ = match asked {
        Asked::Edit(edit) => desk.edit(rt, pass, *edit)?,
        Asked::Undo => desk.undo(rt, pass)?,
        Asked::Redo => desk.redo(rt, pass)?,
        Asked::Work => work(rt, alloc, desk, pass, Which::Any)?.1,
        Asked::Quiet => return Ok(Some(desk.quiet(rt, pass)?)),
    };
    Ok(None)
}

// Asks, and asks again if memory was refused.
fn make<C: Ledger, K: Ledger, O: Opening, R: Wait + Abort>(
    rt: &R,
    alloc: Global,
    desk: &Desk<C, K, O>,
    pass: &mut Pass<C, K, O>,
    asked: &Asked,
) -> Option<Quiet> {
    let before = shown(rt, alloc, desk, pass);
    match ask(rt, alloc, desk, pass, asked) {
        Ok(quiet) => quiet,
        Err(why) => {
            assert!(rt; why == Refusal::Memory);
            assert!(rt; shown(rt, alloc, desk, pass) == before);
            ask(rt, alloc, desk, pass, asked).expect(rt, "memory")
        }
    }
}

// Works until no task is pending, in at most 1,000 reports.
fn work_on<C: Ledger, K: Ledger, O: Opening, R: Wait + Abort>(
    rt: &R,
    alloc: Global,
    desk: &Desk<C, K, O>,
    pass: &mut Pass<C, K, O>,
) {
    for _ in 0..1000 {
        if desk.next(rt, pass, 1) == Ok(None) {
            break;
        }
        let _ = make(rt, alloc, desk, pass, &Asked::Work);
    }
}

// Makes a second pass, and tries again if memory was refused.
fn second_pass<C: Ledger, K: Ledger, O: Opening, R: Wait + Abort>(
    rt: &R,
    alloc: Global,
    desk: &Desk<C, K, O>,
    pass: &mut Pass<C, K, O>,
) -> Pass<C, K, O> {
    let before = shown(rt, alloc, desk, pass);
    match desk.pass(rt, alloc, pass) {
        Ok(further) => further,
        Err(why) => {
            assert!(rt; why == Refusal::Memory);
            assert!(rt; shown(rt, alloc, desk, pass) == before);
            desk.pass(rt, alloc, pass).expect(rt, "memory")
        }
    }
}

// Work by one pass and changes by the other, until no task is pending. Returns all tilings.
fn work_day<C: Ledger, K: Ledger, O: Opening, R: Wait + Abort>(
    rt: &R,
    alloc: Global,
    desk: &Desk<C, K, O>,
    p: &mut Pass<C, K, O>,
    q: &mut Pass<C, K, O>,
    forbid: &Edit,
) -> Quiet {
    let _ = make(rt, alloc, desk, p, &Asked::Work);
    let _ = make(rt, alloc, desk, q, &Asked::Edit(*forbid));
    let _ = make(rt, alloc, desk, q, &Asked::Undo);
    let _ = make(rt, alloc, desk, q, &Asked::Redo);
    work_on(rt, alloc, desk, p);
    let answer = make(rt, alloc, desk, p, &Asked::Quiet);
    assert!(rt; shown(rt, alloc, desk, q).2 == 3);
    answer.expect(rt, "a Quiet")
}

// An empty list with room for two passes, with a second try if memory was refused.
fn room_for_two<C: Ledger, K: Ledger, O: Opening>(
    rt: &impl Abort,
    alloc: Global,
) -> Vec<Pass<C, K, O>>
    ensures { (vec_len result ≡ 0) × (2 ≤ vec_capacity result) }
{
    match Vec::with_capacity(alloc, 2) {
        Ok(passes) => passes,
        Err(_) => Vec::with_capacity(alloc, 2).expect(rt, "memory"),
    }
}

// Settles up with both passes.
fn settle<C: Ledger, K: Ledger, O: Opening>(
    rt: &impl Abort,
    alloc: Global,
    desk: Desk<C, K, O>,
    p: Pass<C, K, O>,
    q: Pass<C, K, O>,
) -> Book {
    let mut passes = room_for_two(rt, alloc);
    passes.push_reserved(p);
    passes.push_reserved(q);
    let settled = desk.settle_up(passes, Vec::new(alloc));
    settled.ok().expect(rt, "it is settled up")
}

// A day at the desk, and settling up.
fn day_at<C: Ledger, K: Ledger, O: Opening, R: Wait + Abort>(
    rt: &R,
    alloc: Global,
    desk: Desk<C, K, O>,
    first: Pass<C, K, O>,
    forbid: &Edit,
) -> (Book, Quiet) {
    let mut p = first;
    let mut q = second_pass(rt, alloc, &desk, &mut p);
    let quiet = work_day(rt, alloc, &desk, &mut p, &mut q, forbid);
    (settle(rt, alloc, desk, p, q), quiet)
}

fn day<C: Ledger, K: Ledger, O: Opening, R: Wait + Abort>(
    rt: &R,
    alloc: Global,
    changes: Blank,
    cuts: Blank,
    book: Book,
    forbid: &Edit,
) -> Result<(Book, Quiet), NotBegun>
    requires changes { (changes.name ≡ C.name) × (changes.parts ≡ C.parts) × (changes.parts ≡ PARTS) }
    requires cuts { (cuts.name ≡ K.name) × (cuts.parts ≡ K.parts) × (cuts.parts ≡ PARTS) }
    requires design { book.opened ≡ O.design }
    requires view { book.view ≡ O.view }
    requires steps { book.steps ≡ O.steps }
    requires endings { cut_count book.endings ≡ O.cuts }
{
    match Desk::<C, K, O>::begin(alloc, changes, cuts, book) {
        Ok((desk, first)) => Ok(day_at(rt, alloc, desk, first, forbid)),
        Err(not_begun) => Err(not_begun),
    }
}

// Asserts that the book and its Quiet are at edition 3 and have three tilings, that one placement is forbidden in their
// design, and that the book lists exactly the tilings of that design.
fn expect_whole(rt: &impl Abort, alloc: Global, book: &Book, quiet: &Quiet) {
    expect_status(rt, book, (3, 3, 0));
    assert!(rt; (quiet.edition(), quiet.tilings().len()) == (3, 3));
    let design = design_after(rt, alloc);
    assert!(rt; quiet.design().is_same(&design) && book.design().is_same(&design));
    let shared_out = match is_shared_out(alloc, book) {
        Ok(shared_out) => shared_out,
        Err(_) => is_shared_out(alloc, book).expect(rt, "memory"),
    };
    assert!(rt; shared_out);
}

// The design in which a placement is forbidden, with a second try if memory was refused.
fn design_after(rt: &impl Abort, alloc: Global) -> Design {
    match design_of(alloc, DOMINOES, &[FORBID]) {
        Ok(design) => design,
        Err(_) => design_of(alloc, DOMINOES, &[FORBID]).expect(rt, "memory"),
    }
}

// An opening book, and the edit that forbids a placement.
fn opening(alloc: Global) -> Result<(Book, Edit), Refusal> {
    let book = begun(alloc, DOMINOES)?;
    let forbid = edit_by(alloc, &book, FORBID)?;
    Ok((book, forbid))
}

// The book after a day, and all its tilings.
fn whole_day<R: Wait + Abort>(
    rt: &R,
    alloc: Global,
    book: Book,
    forbid: &Edit,
) -> Result<(Book, Quiet), NotBegun> {
    let changes = Blank::new(PARTS);
    let cuts = Blank::new(PARTS);
    day::<Brand, Brand, Brand, R>(rt, alloc, changes, cuts, book, forbid)
}

// `opening`, with a second try if memory was refused.
fn opened(rt: &impl Abort, alloc: Global) -> (Book, Edit) {
    match opening(alloc) {
        Ok(both) => both,
        Err(_) => opening(alloc).expect(rt, "memory"),
    }
}

// A day of an opening book. If there is no memory for its desk, asserts that, and begins once more.
fn lived<R: Wait + Abort>(rt: &R, alloc: Global) -> (Book, Quiet) {
    let (book, forbid) = opened(rt, alloc);
    match whole_day(rt, alloc, book, &forbid) {
        Ok(both) => both,
        Err(not_begun) => {
            assert!(rt; not_begun.why == Refusal::Memory);
            let second = whole_day(rt, alloc, not_begun.book, &forbid);
            second.ok().expect(rt, "memory")
        }
    }
}

#[test]
fn a_day_without_memory(rt: HostRuntime) {
    let (after, quiet) = lived(&rt, rt.alloc());
    expect_whole(&rt, rt.alloc(), &after, &quiet);
}
