//! The test kit of desks: the line of an edit, work on a task, how many tilings are listed, and what a desk shows.

use crate::answers::everything;
use poly_board::Posted;
use poly_book::{Applied, Job, Which};
use poly_desk::{Desk, Opening, Pass, Receipt};
use poly_grid::Refusal;
use poly_report::Report;
use poly_search::explore;
use std::alloc::Global;
use std::process::Abort;
use std::sync::Wait;
use std::sync::ledger::Ledger;

/// The command that forbids one placement of A: three tilings of `DOMINOES` remain.
pub(crate) const FORBID: &[u8] = b"forbid A 0,0 1,0";

// Explores the task and returns the report. Task 1 is explored with one node, so its tree is a Branch with a Rest in each arm.
fn report_on(alloc: Global, job: &Job) -> Result<Report, Refusal> {
    let turns = if job.task == 1 { 1 } else { 256 };
    let tree = explore(alloc, &job.view, &job.atoms, turns)?;
    Ok(Report {
        task: job.task,
        edition: job.edition,
        tree,
    })
}

/// Searches the task that `which` names and hands in the report. Ends the test if no such task is pending.
pub(crate) fn work<C: Ledger, K: Ledger, O: Opening, R: Wait + Abort>(
    rt: &R,
    alloc: Global,
    desk: &Desk<C, K, O>,
    pass: &mut Pass<C, K, O>,
    which: Which,
) -> Result<(Applied, Receipt), Refusal> {
    let job = desk.take(rt, pass, which)?.expect(rt, "a pending task");
    let report = report_on(alloc, &job)?;
    desk.hand_in(rt, pass, report)
}

/// How many tilings are listed, as browsing with the empty query counts them.
pub(crate) fn count<C: Ledger, K: Ledger, O: Opening, R: Wait>(
    rt: &R,
    alloc: Global,
    desk: &Desk<C, K, O>,
    pass: &mut Pass<C, K, O>,
) -> Result<u64, Refusal> {
    let answer = desk.browse(rt, alloc, pass, &everything(alloc))?;
    Ok(answer.count)
}

/// What a desk shows: its numbers, the least pending task, and how many tilings are listed.
pub(crate) type Shown = (Posted, Option<u32>, u64);

/// What the desk shows. If browsing is refused for memory, asserts that the desk is as it was, and tries again.
pub(crate) fn shown<C: Ledger, K: Ledger, O: Opening, R: Wait + Abort>(
    rt: &R,
    alloc: Global,
    desk: &Desk<C, K, O>,
    pass: &mut Pass<C, K, O>,
) -> Shown {
    let posted = desk.look(pass);
    let next = desk.next(rt, pass, 1).expect(rt, "the edition noted");
    match count(rt, alloc, desk, pass) {
        Ok(listed) => (posted, next, listed),
        Err(why) => {
            assert!(rt; why == Refusal::Memory);
            assert!(rt; desk.look(pass) == posted && desk.next(rt, pass, 1) == Ok(next));
            let listed = count(rt, alloc, desk, pass).expect(rt, "memory");
            (posted, next, listed)
        }
    }
}
