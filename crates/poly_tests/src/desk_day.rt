//! A whole day at a desk, from its beginning to settling up.
ghost use Rattle.std.specs.Prelude.{◌≡◌};
ghost use Rattle.poly_desk.specs.Changes.{cut_count};

use crate::books::{book_of, edit, edit_of, expect_status, fail};
use crate::designs::{DOMINOES, edited};
use crate::desks::{FORBID, count, work};
use crate::shared_out::settled;
use poly_board::Posted;
use poly_book::{Book, Quiet, Which};
use poly_design::Edit;
use poly_desk::{Desk, NotSettled, Opening, PARTS, Pass, Receipt};
use poly_grid::{Cell, Refusal};
use poly_report::{Arm, Report, Tree};
use poly_tiling::Item;
use std::alloc::{AllocGlobal, Global};
use std::marker::Brand;
use std::process::Abort;
use std::sync::Wait;
use std::sync::ledger::{Blank, Ledger};

// An edit, its undo and its redo, at the places 1, 2 and 3.
fn change<C: Ledger, K: Ledger, O: Opening, R: Wait + Abort>(
    rt: &R,
    alloc: Global,
    desk: &Desk<C, K, O>,
    pass: &mut Pass<C, K, O>,
    forbid: &Edit,
) -> Vec<Receipt> {
    let edit = desk.edit(rt, pass, *forbid).expect(rt, "accepted");
    let undo = desk.undo(rt, pass).expect(rt, "a step to undo");
    let redo = desk.redo(rt, pass).expect(rt, "a step to redo");
    assert!(rt; (edit.place(), undo.place(), redo.place()) == (1, 2, 3));
    vec![in alloc; edit, undo, redo].expect(rt, "memory")
}

// The report on task 1 that branches on the first cell: its four arms are A and B on the upper row and on the left column, each
// with a Rest.
fn full_report(rt: &impl Abort, alloc: Global) -> Report {
    let mut arms = Vec::new(alloc);
    for placement in [0, 1, 4, 5] {
        let tree = Tree::Rest;
        arms.push(Arm { placement, tree }).expect(rt, "memory");
    }
    let item = Item::Cell(Cell::ORIGIN);
    Report {
        task: 1,
        edition: 0,
        tree: Tree::Branch { item, arms },
    }
}

// Works until no task is pending, with at most 1,000 reports. Adds their receipts to the list, and returns all tilings.
fn work_until_quiet<C: Ledger, K: Ledger, O: Opening, R: Wait + Abort>(
    rt: &R,
    alloc: Global,
    desk: &Desk<C, K, O>,
    pass: &mut Pass<C, K, O>,
    receipts: &mut Vec<Receipt>,
) -> Quiet {
    for _ in 0..1000 {
        match desk.quiet(rt, pass) {
            Ok(quiet) => return quiet,
            Err(_) => {
                let worked = work(rt, alloc, desk, pass, Which::Any);
                let (_, receipt) = worked.expect(rt, "a report that holds");
                receipts.push(receipt).expect(rt, "memory");
            }
        }
    }
    fail(rt, "a quiet desk")
}

// Asserts that settling up is refused with `why`, and returns what is handed back.
fn expect_refused<C: Ledger, K: Ledger, O: Opening>(
    rt: &impl Abort,
    desk: Desk<C, K, O>,
    passes: Vec<Pass<C, K, O>>,
    receipts: Vec<Vec<Receipt>>,
    why: Refusal,
) -> NotSettled<C, K, O> {
    let given = (passes.len(), receipts.len());
    let settled = desk.settle_up(passes, receipts);
    let back = settled.err().expect(rt, "a refusal");
    assert!(rt; back.why == why);
    assert!(rt; (back.passes.len(), back.receipts.len()) == given);
    back
}

// Two receipts of the same cut.
fn same_cut_twice(alloc: Global) -> Result<Vec<Vec<Receipt>>, Refusal> {
    let mut lists = Vec::new(alloc);
    for _ in 0..2u8 {
        lists.push(vec![in alloc; Receipt::Cut { place: 1, task: 1 }]?)?;
    }
    Ok(lists)
}

// A list of lists with one receipt.
fn only(alloc: Global, receipt: Receipt) -> Result<Vec<Vec<Receipt>>, Refusal> {
    let list = vec![in alloc; receipt]?;
    Ok(vec![in alloc; list]?)
}

// Asserts that settling up is refused with a pass missing.
fn expect_refused_without_second<C: Ledger, K: Ledger, O: Opening>(
    rt: &impl Abort,
    alloc: Global,
    desk: Desk<C, K, O>,
    first: Pass<C, K, O>,
    receipts: Vec<Vec<Receipt>>,
) -> NotSettled<C, K, O> {
    let passes = vec![in alloc; first].expect(rt, "memory");
    let why = Refusal::Unsettled { seen: 0, found: 3 };
    expect_refused(rt, desk, passes, receipts, why)
}

// Asserts that settling up is refused with a receipt given twice, and with a receipt of another desk.
fn expect_refused_with_wrong_receipts<C: Ledger, K: Ledger, O: Opening>(
    rt: &impl Abort,
    alloc: Global,
    desk: Desk<C, K, O>,
    passes: Vec<Pass<C, K, O>>,
    strange: Receipt,
) -> NotSettled<C, K, O> {
    let twice = same_cut_twice(alloc).expect(rt, "memory");
    let why = Refusal::Unsettled { seen: 1, found: 2 };
    let back = expect_refused(rt, desk, passes, twice, why);
    let lists = only(alloc, strange).expect(rt, "memory");
    let why = Refusal::Unsettled { seen: 4, found: 3 };
    expect_refused(rt, back.desk, back.passes, lists, why)
}

// Asserts that settling up is refused with a pass missing, with a receipt given twice, and with a receipt of another desk.
// Then settles up with both passes and the right receipts.
fn settle<C: Ledger, K: Ledger, O: Opening>(
    rt: &impl Abort,
    alloc: Global,
    desk: Desk<C, K, O>,
    (first, second): (Pass<C, K, O>, Pass<C, K, O>),
    receipts: Vec<Vec<Receipt>>,
    strange: Receipt,
) -> Book {
    let NotSettled {
        desk,
        mut passes,
        receipts,
        ..
    } = expect_refused_without_second(rt, alloc, desk, first, receipts);
    passes.push(second).expect(rt, "memory");
    let back = expect_refused_with_wrong_receipts(rt, alloc, desk, passes, strange);
    let settled = back.desk.settle_up(back.passes, receipts);
    settled.ok().expect(rt, "it is settled up")
}

// The first report, which opens four tasks. Returns the receipt of its cut.
fn cut_first<C: Ledger, K: Ledger, O: Opening, R: Wait + Abort>(
    rt: &R,
    alloc: Global,
    desk: &Desk<C, K, O>,
    pass: &mut Pass<C, K, O>,
) -> Receipt {
    let handed_in = desk.hand_in(rt, pass, full_report(rt, alloc));
    let (applied, cut) = handed_in.expect(rt, "a report that holds");
    assert!(rt; (applied.place, applied.listed, applied.late) == (1, 0, false));
    assert!(rt; (applied.opened, applied.first) == (4, 2));
    assert!(rt; desk.next(rt, pass, 1) == Ok(Some(2)));
    cut
}

// Asserts what the desk shows after the changes, by both passes.
fn expect_busy<C: Ledger, K: Ledger, O: Opening, R: Wait + Abort>(
    rt: &R,
    desk: &Desk<C, K, O>,
    p: &mut Pass<C, K, O>,
    q: &mut Pass<C, K, O>,
) {
    let numbers = Posted {
        edition: 3,
        endings: 3,
    };
    assert!(rt; desk.look(p) == numbers);
    assert!(rt; desk.look(q) == numbers);
    let busy = desk.quiet(rt, p).err();
    assert!(rt; busy == Some(Refusal::Busy { pending: 3 }));
}

// Works until the desk is quiet. Returns the receipts, the given one first, and all tilings.
fn work_on<C: Ledger, K: Ledger, O: Opening, R: Wait + Abort>(
    rt: &R,
    alloc: Global,
    desk: &Desk<C, K, O>,
    pass: &mut Pass<C, K, O>,
    cut: Receipt,
) -> (Vec<Receipt>, Quiet) {
    let mut done = vec![in alloc; cut].expect(rt, "memory");
    let quiet = work_until_quiet(rt, alloc, desk, pass, &mut done);
    assert!(rt; count(rt, alloc, desk, pass) == Ok(3));
    (done, quiet)
}

// A report by one pass, changes by the other, and work until the desk is quiet. Returns the receipts and all tilings.
fn work_day<C: Ledger, K: Ledger, O: Opening, R: Wait + Abort>(
    rt: &R,
    alloc: Global,
    desk: &Desk<C, K, O>,
    p: &mut Pass<C, K, O>,
    q: &mut Pass<C, K, O>,
    forbid: &Edit,
) -> (Vec<Vec<Receipt>>, Quiet) {
    let cut = cut_first(rt, alloc, desk, p);
    let changed = change(rt, alloc, desk, q, forbid);
    expect_busy(rt, desk, p, q);
    let (done, quiet) = work_on(rt, alloc, desk, p, cut);
    let receipts = vec![in alloc; done, changed].expect(rt, "memory");
    (receipts, quiet)
}

// A day at the desk, and settling up.
fn day_at<C: Ledger, K: Ledger, O: Opening, R: Wait + Abort>(
    rt: &R,
    alloc: Global,
    desk: Desk<C, K, O>,
    first: Pass<C, K, O>,
    forbid: &Edit,
    strange: Receipt,
) -> (Book, Quiet) {
    let mut p = first;
    let mut q = desk.pass(rt, alloc, &mut p).expect(rt, "a second pass");
    let (receipts, quiet) = work_day(rt, alloc, &desk, &mut p, &mut q, forbid);
    let book = settle(rt, alloc, desk, (p, q), receipts, strange);
    (book, quiet)
}

// A day at a desk of the book, from its beginning to settling up.
fn day<C: Ledger, K: Ledger, O: Opening, R: Wait + Abort>(
    rt: &R,
    alloc: Global,
    changes: Blank,
    cuts: Blank,
    book: Book,
    forbid: &Edit,
    strange: Receipt,
) -> (Book, Quiet)
    requires changes { (changes.name ≡ C.name) × (changes.parts ≡ C.parts) × (changes.parts ≡ PARTS) }
    requires cuts { (cuts.name ≡ K.name) × (cuts.parts ≡ K.parts) × (cuts.parts ≡ PARTS) }
    requires design { book.opened ≡ O.design }
    requires view { book.view ≡ O.view }
    requires steps { book.steps ≡ O.steps }
    requires endings { cut_count book.endings ≡ O.cuts }
{
    let begun = Desk::<C, K, O>::begin(alloc, changes, cuts, book);
    let (desk, first) = begun.ok().expect(rt, "a desk");
    day_at(rt, alloc, desk, first, forbid, strange)
}

// The receipt of a desk's fourth change.
fn fourth<C: Ledger, K: Ledger, O: Opening, R: Wait + Abort>(
    rt: &R,
    alloc: Global,
    changes: Blank,
    cuts: Blank,
    book: Book,
    forbid: &Edit,
) -> Receipt
    requires changes { (changes.name ≡ C.name) × (changes.parts ≡ C.parts) × (changes.parts ≡ PARTS) }
    requires cuts { (cuts.name ≡ K.name) × (cuts.parts ≡ K.parts) × (cuts.parts ≡ PARTS) }
    requires design { book.opened ≡ O.design }
    requires view { book.view ≡ O.view }
    requires steps { book.steps ≡ O.steps }
    requires endings { cut_count book.endings ≡ O.cuts }
{
    let begun = Desk::<C, K, O>::begin(alloc, changes, cuts, book);
    let (desk, mut pass) = begun.ok().expect(rt, "a desk");
    change_and_undo(rt, alloc, &desk, &mut pass, forbid)
}

fn change_and_undo<C: Ledger, K: Ledger, O: Opening, R: Wait + Abort>(
    rt: &R,
    alloc: Global,
    desk: &Desk<C, K, O>,
    pass: &mut Pass<C, K, O>,
    forbid: &Edit,
) -> Receipt {
    let _ = change(rt, alloc, desk, pass, forbid);
    desk.undo(rt, pass).expect(rt, "a step to undo")
}

// The receipt of the fourth change at another desk.
fn strange_receipt<R: Wait + Abort>(rt: &R, alloc: Global, forbid: &Edit) -> Receipt {
    let book = book_of(rt, alloc, DOMINOES);
    let changes = Blank::new(PARTS);
    let cuts = Blank::new(PARTS);
    fourth::<Brand, Brand, Brand, R>(rt, alloc, changes, cuts, book, forbid)
}

// The book after the day, and all tilings as they were before settling up.
fn whole_day<R: Wait + Abort>(rt: &R, alloc: Global) -> (Book, Quiet) {
    let book = book_of(rt, alloc, DOMINOES);
    let forbid = edit_of(rt, alloc, &book, FORBID);
    let strange = strange_receipt(rt, alloc, &forbid);
    let changes = Blank::new(PARTS);
    let cuts = Blank::new(PARTS);
    day::<Brand, Brand, Brand, R>(rt, alloc, changes, cuts, book, &forbid, strange)
}

// All tilings of another book, which made another change.
fn quiet_of_another(rt: &impl Abort, alloc: Global) -> Quiet {
    let mut other = book_of(rt, alloc, DOMINOES);
    edit(rt, alloc, &mut other, b"cell 2,0 optional");
    settled(&mut other).expect(rt, "it settles")
}

// Asserts that the book vouches for its own tilings, and not for those of another book.
fn expect_vouched(rt: &impl Abort, alloc: Global, book: &Book, quiet: &Quiet) {
    assert!(rt; book.vouch(quiet) == Ok(true));
    let unknown = quiet_of_another(rt, alloc);
    assert!(rt; book.vouch(&unknown) == Ok(false));
}

// Asserts that these are the three tilings of the design in which a placement is forbidden.
fn expect_three(rt: &(impl AllocGlobal + Abort), quiet: &Quiet) {
    assert!(rt; (quiet.edition(), quiet.tilings().len()) == (3, 3));
    assert!(rt; quiet.design().is_same(&edited(rt, DOMINOES, &[FORBID])));
}

#[test]
fn a_day_at_the_desk(rt: HostRuntime) {
    let (book, quiet) = whole_day(&rt, rt.alloc());
    expect_status(&rt, &book, (3, 3, 0));
    expect_three(&rt, &quiet);
    expect_vouched(&rt, rt.alloc(), &book, &quiet);
}
