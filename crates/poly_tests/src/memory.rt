//! A run of events that may run out of memory, in which a refused event must change nothing. The test passes with ample memory
//! too; tests/refused_calls.sh runs it with each allocation refused in turn.

use crate::books::{begun, edit_by, expect_status};
use crate::designs::DOMINOES;
use crate::shared_out::has_all_settled;
use poly_book::Book;
use poly_book::laws::{Event, NotRun, Ran, Reply, run};
use poly_grid::Refusal;
use poly_report::Report;
use poly_search::explore;
use std::alloc::Global;
use std::process::Abort;

fn dominoes(rt: &impl Abort, alloc: Global) -> Book {
    match begun(alloc, DOMINOES) {
        Ok(book) => book,
        Err(_) => begun(alloc, DOMINOES).expect(rt, "memory"),
    }
}

// A report on task 1: a Branch with a Rest in each arm.
fn report_of(alloc: Global, book: &Book) -> Result<Report, Refusal> {
    let tree = explore(alloc, book.view(), &[], 1)?;
    Ok(Report {
        task: 1,
        edition: 0,
        tree,
    })
}

// The events of a run: an edit, a report that the edit makes late, an undo and a redo.
fn events_of(alloc: Global, book: &Book) -> Result<Vec<Event>, Refusal> {
    let forbid = edit_by(alloc, book, b"forbid A 0,0 1,0")?;
    let late = report_of(alloc, book)?;
    let mut events = Vec::new(alloc);
    events.push(Event::Edit(forbid))?;
    events.push(Event::HandIn(late))?;
    events.push(Event::Undo)?;
    events.push(Event::Redo)?;
    Ok(events)
}

fn events(rt: &impl Abort, alloc: Global, book: &Book) -> Vec<Event> {
    match events_of(alloc, book) {
        Ok(events) => events,
        Err(_) => events_of(alloc, book).expect(rt, "memory"),
    }
}

fn run_on(rt: &impl Abort, alloc: Global, book: Book) -> Result<Ran, NotRun> {
    let all = events(rt, alloc, &book);
    run(alloc, book, all)
}

// Runs the events on an opening book. If there is no memory for the replies, runs them a second time.
fn run_events(rt: &impl Abort, alloc: Global) -> Ran {
    match run_on(rt, alloc, dominoes(rt, alloc)) {
        Ok(ran) => ran,
        Err(not_run) => run_again(rt, alloc, not_run),
    }
}

// Asserts that the book that was handed back is still an opening one, and runs the events on it.
fn run_again(rt: &impl Abort, alloc: Global, not_run: NotRun) -> Ran {
    assert!(rt; not_run.why == Refusal::Memory);
    expect_status(rt, &not_run.book, (0, 0, 1));
    run_on(rt, alloc, not_run.book).ok().expect(rt, "memory")
}

// How many changes the replies say were made.
fn changes(replies: &[Reply]) -> u64 {
    let mut count = 0u64;
    for reply in replies {
        match reply {
            Reply::Done(_) => count = count.saturating_add(1),
            _ => {}
        }
    }
    count
}

fn has_refusal(replies: &[Reply]) -> bool {
    for reply in replies {
        match reply {
            Reply::Refused(_) => return true,
            _ => {}
        }
    }
    false
}

// Asserts that the book has made as many changes as the replies say, and has all tilings once it is settled.
fn expect_whole(rt: &impl Abort, alloc: Global, ran: &mut Ran) {
    assert!(rt; ran.book.numbers().edition == changes(&ran.replies));
    assert!(rt; has_all_settled(alloc, &mut ran.book).expect(rt, "memory"));
}

// Runs the events. Returns whether one of them was refused, after asserting that it changed nothing; if none was, asserts the
// numbers of the book after them.
fn is_refused(rt: &impl Abort, alloc: Global) -> bool {
    let mut ran = run_events(rt, alloc);
    let refused = has_refusal(&ran.replies);
    if refused {
        expect_whole(rt, alloc, &mut ran);
    } else {
        expect_status(rt, &ran.book, (3, 0, 3));
    }
    refused
}

// If an event was refused, runs all once more, with ample memory.
#[test]
fn runs_without_memory(rt: HostRuntime) {
    let refused = is_refused(&rt, rt.alloc());
    assert!(rt; !refused || !is_refused(&rt, rt.alloc()));
}
