//! Crews at a bench that only these tests use: a lock over a book.
ghost use Rattle.std.specs.Prelude.{◌≡◌, ◌≤◌, length};

use crate::books::book_of;
use crate::designs::DOMINOES;
use crate::gates::HoldingGate;
use poly_book::{Applied, Book, Found, Job, Which};
use poly_crew::{Crew, Gate, MOST_TURNS, MOST_WORKERS, OpenGate, crew};
use poly_design::{Edit, Mode};
use poly_desk::{Bench, Receipt};
use poly_grid::{Cell, Refusal};
use poly_report::Report;
use std::alloc::Global;
use std::process::Abort;
use std::sync::{Mutex, Wait};
use std::thread::Threads;

// A bench: a book under a lock. If `refusing` has a refusal, each report is refused with it. If the bench widens, it changes the
// design after the first report.
#[derive(Drop)]
struct Shared {
    book: Mutex<Book>,
    refusing: Option<Refusal>,
    widens: bool,
}

#[derive(Drop)]
struct Card {
    cuts: u64,
}

impl Bench for Shared {
    type Pass = Card;

    ghost changes = { λ _. 0 };

    ghost cuts = { λ card. card.cuts };

    ghost is_view_at = { λ edition view. Unit {0} };

    fn take<R: Wait>(
        &self,
        rt: &R,
        _pass: &mut Card,
        which: Which,
    ) -> Result<Option<Job>, Refusal> {
        self.book.lock(rt).take(which)
    }

    fn hand_in<R: Wait>(
        &self,
        rt: &R,
        pass: &mut Card,
        report: Report,
    ) -> Result<(Applied, Receipt), Refusal> {
        if let Some(refusal) = self.refusing {
            return Err(refusal);
        }
        if pass.cuts == u64::MAX {
            return Err(Refusal::Spent);
        }
        let task = report.task;
        let mut book = self.book.lock(rt);
        let applied = book.hand_in(report)?;
        if self.widens && book.numbers().edition == 0 {
            let _ = widen(&mut book);
        }
        pass.cuts += 1;
        let place = applied.place;
        Ok((applied, Receipt::Cut { place, task }))
    }

    fn hand_in_found<R: Wait>(
        &self,
        rt: &R,
        pass: &mut Card,
        found: Found,
    ) -> Result<(Applied, Receipt), Refusal> {
        self.hand_in(rt, pass, found.report)
    }
}

// Makes the last cell of the square optional, and one more cell beside the upper row.
fn widen(book: &mut Book) -> Result<(), Refusal> {
    for (x, y) in [(1, 1), (2, 0)] {
        let Some(cell) = Cell::new(x, y) else {
            return Err(Refusal::BadCell);
        };
        let mode = Mode::Optional;
        book.edit(Edit::Cell { cell, mode })?;
    }
    Ok(())
}

// A bench with two dominoes on a square.
fn plain(rt: &impl Abort, alloc: Global) -> Shared {
    Shared {
        book: Mutex::new(book_of(rt, alloc, DOMINOES)),
        refusing: None,
        widens: false,
    }
}

fn cards(rt: &impl Abort, alloc: Global, count: usize) -> Vec<Card>
    ensures { length result.items ≡ count }
{
    let mut cards = Vec::new(alloc);
    for made in 0..count {
        cards.push(Card { cuts: 0 }).expect(rt, "memory");
    }
    cards
}

// Runs a crew at the bench, one worker for each pass, with searches of one node. No other function of these tests has to show
// that threads may share the bench.
fn crew_at<R: Threads + Wait + Sync, G: Gate + Sync>(
    rt: &R,
    alloc: Global,
    shared: &Shared,
    passes: Vec<Card>,
    turns: u64,
    gate: &G,
) -> Crew<Card>
    requires some { 1 ≤ length passes.items }
    requires few { length passes.items ≤ MOST_WORKERS }
    requires turns { turns ≤ MOST_TURNS }
{
    crew(rt, alloc, shared, passes, turns, 1, gate)
}

// How many receipts all workers have together.
fn count(receipts: &[Vec<Receipt>]) -> u64 {
    let mut count = 0u64;
    for list in receipts {
        count = count.saturating_add(list.len() as u64);
    }
    count
}

fn expect_tilings(rt: &impl Abort, shared: Shared, want: u64) {
    let numbers = shared.book.into_inner().numbers();
    assert!(rt; (numbers.listed, numbers.pending) == (want, 0));
}

#[test]
fn the_gate_test(rt: HostRuntime) {
    let gate = HoldingGate::new();
    let shared = plain(&rt, rt.alloc());
    let passes = cards(&rt, rt.alloc(), 2);
    let after = crew_at(&rt, rt.alloc(), &shared, passes, 1000, &gate);
    assert!(rt; gate.was_passed());
    assert!(rt; after.end == Ok(()));
    assert!(rt; (after.passes.len(), after.receipts.len()) == (2, 2));
    expect_tilings(&rt, shared, 4);
}

// Lets a crew of this many workers find all tilings.
fn find_all<R: Threads + Wait + Sync + Abort>(rt: &R, alloc: Global, workers: usize)
    requires some { 1 ≤ workers }
    requires few { workers ≤ MOST_WORKERS }
{
    let shared = plain(rt, alloc);
    let passes = cards(rt, alloc, workers);
    let after = crew_at(rt, alloc, &shared, passes, 1000, &OpenGate);
    assert!(rt; after.end == Ok(()));
    assert!(rt; after.passes.len() == workers);
    assert!(rt; after.applied > 1 && after.applied == count(&after.receipts));
    expect_tilings(rt, shared, 4);
}

#[test]
fn crews_of_every_size(rt: HostRuntime) {
    find_all(&rt, rt.alloc(), 1);
    find_all(&rt, rt.alloc(), 2);
    find_all(&rt, rt.alloc(), 3);
    find_all(&rt, rt.alloc(), 4);
    find_all(&rt, rt.alloc(), 5);
    find_all(&rt, rt.alloc(), 8);
    find_all(&rt, rt.alloc(), MOST_WORKERS);
}

// Lets a crew take so many turns. Returns how many reports were applied, and how the crew ended.
fn work<R: Threads + Wait + Sync + Abort>(
    rt: &R,
    alloc: Global,
    shared: &Shared,
    workers: usize,
    turns: u64,
) -> (u64, Result<(), Refusal>)
    requires some { 1 ≤ workers }
    requires few { workers ≤ MOST_WORKERS }
    requires turns { turns ≤ MOST_TURNS }
{
    let passes = cards(rt, alloc, workers);
    let after = crew_at(rt, alloc, shared, passes, turns, &OpenGate);
    (after.applied, after.end)
}

#[test]
fn workers_that_use_up_their_turns_are_unfinished(rt: HostRuntime) {
    let shared = plain(&rt, rt.alloc());
    let (applied, end) = work(&rt, rt.alloc(), &shared, 2, 1);
    assert!(rt; end == Err(Refusal::Unfinished));
    assert!(rt; applied == 1 || applied == 2);
}

// However often a worker begins, it needs the same reports in all. So if one is missing the first time, it has turns enough the
// second time.
#[test]
fn a_worker_goes_on_where_its_turns_were_used_up(rt: HostRuntime) {
    let whole = plain(&rt, rt.alloc());
    let (needed, end) = work(&rt, rt.alloc(), &whole, 1, 1000);
    assert!(rt; needed > 2 && end == Ok(()));
    let few = needed.saturating_sub(1).min(MOST_TURNS);
    let shared = plain(&rt, rt.alloc());
    let first = work(&rt, rt.alloc(), &shared, 1, few);
    assert!(rt; first == (few, Err(Refusal::Unfinished)));
    let second = work(&rt, rt.alloc(), &shared, 1, few);
    assert!(rt; second == (1, Ok(())));
    expect_tilings(&rt, shared, 4);
}

// Lets a crew of two work at a bench that refuses each report.
fn work_refused<R: Threads + Wait + Sync + Abort>(
    rt: &R,
    alloc: Global,
    refusal: Refusal,
) -> (u64, Result<(), Refusal>) {
    let shared = Shared {
        refusing: Some(refusal),
        ..plain(rt, alloc)
    };
    work(rt, alloc, &shared, 2, 5)
}

#[test]
fn a_report_on_a_task_that_has_ended_costs_a_turn(rt: HostRuntime) {
    let after = work_refused(&rt, rt.alloc(), Refusal::Gone);
    assert!(rt; after == (0, Err(Refusal::Unfinished)));
}

#[test]
fn another_refusal_ends_the_worker(rt: HostRuntime) {
    let after = work_refused(&rt, rt.alloc(), Refusal::CatalogueFull);
    assert!(rt; after == (0, Err(Refusal::CatalogueFull)));
}

// The worker keeps the view of its first task, which has another edition than the tasks after it. With the last cell optional and
// one more cell, the dominoes have three places that leave one of these two cells out, each in two ways.
#[test]
fn a_worker_takes_the_view_of_a_new_edition(rt: HostRuntime) {
    let shared = Shared {
        widens: true,
        ..plain(&rt, rt.alloc())
    };
    let (_, end) = work(&rt, rt.alloc(), &shared, 1, 1000);
    assert!(rt; end == Ok(()));
    expect_tilings(&rt, shared, 6);
}
