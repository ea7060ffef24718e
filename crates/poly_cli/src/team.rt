//! An engine with a crew: its workers share the search when all tilings are asked for.
//!
//! Between two commands the team keeps a book, as `Solo` does. If tasks are pending when all tilings are asked for, the book
//! goes to a desk, the crew works there, and the book comes back. If the desk can't be settled up, the book is lost, and the
//! team has failed for good.
ghost use Rattle.std.specs.Prelude.{◌≡◌, ◌≤◌, ◌⊎◌, [], IfErr, IfOk, None, OnOk, false, true};
ghost use Rattle.std.specs.Thread.{IsSync};
ghost use Rattle.poly_crew.specs.declared.crewing.TheConstants.{MOST_TURNS, MOST_WORKERS};
ghost use Rattle.poly_desk.specs.Seen.{is_unsettled};
ghost use Rattle.poly_cli.specs.States.{IsNotAnswered, IsUnanswered, State, opened};
ghost use Rattle.poly_cli.specs.Teams.{state_of, stops};

use crate::engine::{Engine, Limited};
use crate::kept::{Kept, LostBook};
use crate::solo::Solo;
use crate::teamwork::{Crewing, work_on};
use poly_book::{Numbers, Quiet};
use poly_design::{Design, Edit};
use poly_grid::{Grid, Refusal};
use std::alloc::Global;
use std::mem;
use std::snapshot::Snapshot;
use std::sync::Wait;
use std::thread::Threads;

/// A book, and how to set up the crew that works on it when all tilings are asked for and tasks are pending.
#[derive(Drop)]
pub struct Team<'a, R: Threads + Wait + Sync> {
    /// Starts the threads of the workers.
    rt: &'a R,
    /// Allocates books, desks and crews.
    alloc: Global,
    /// The number of workers, and the most turns of each.
    crewing: Crewing,
    /// The book, or what is left of a lost one.
    kept: Kept,
}

impl<'a, R: Threads + Wait + Sync> Team<'a, R> {
    /// Returns an engine whose design is a square grid without cells and pieces, until it begins with another design.
    /// `workers` is from 1 to 16, and `turns` is at most 1,000,000,000. Each worker takes at most `turns` turns whenever the
    /// engine settles. Fails only with `Memory`.
    pub fn new(rt: &'a R, alloc: Global, workers: usize, turns: u64) -> Result<Team<'a, R>, Refusal>
        requires some { 1 ≤ workers }
        requires few { workers ≤ MOST_WORKERS }
        requires few_turns { turns ≤ MOST_TURNS }
        ensures ok { IfOk result (λ t. state_of t.kept ≡ opened (record { grid = Grid.Square; cells = []; pieces = [] })) }
        ensures why { IfErr result (λ e. e ≡ Refusal.Memory) }
    {
        let solo = Solo::new(alloc, turns)?;
        Ok(Team {
            rt,
            alloc,
            crewing: Crewing { workers, turns },
            kept: Kept::Whole(solo),
        })
    }
}

impl<'a, R: Threads + Wait + Sync> Engine for Team<'a, R> {
    ghost state = { λ t. state_of t.kept };

    ghost ready = { λ _. IsSync R.row };

    ghost failures = { λ e. is_unsettled e ≡ true };

    fn begin(&mut self, design: Design) -> Result<(), Refusal> {
        match &mut self.kept {
            Kept::Whole(solo) => solo.begin(design),
            Kept::Lost(lost) => Err(lost.why),
        }
    }

    fn edit(&mut self, edit: Edit) -> Result<u64, Refusal> {
        match &mut self.kept {
            Kept::Whole(solo) => solo.edit(edit),
            Kept::Lost(lost) => Err(lost.why),
        }
    }

    fn undo(&mut self) -> Result<u64, Refusal> {
        match &mut self.kept {
            Kept::Whole(solo) => solo.undo(),
            Kept::Lost(lost) => Err(lost.why),
        }
    }

    fn redo(&mut self) -> Result<u64, Refusal> {
        match &mut self.kept {
            Kept::Whole(solo) => solo.redo(),
            Kept::Lost(lost) => Err(lost.why),
        }
    }

    fn settle(&mut self) -> Result<Quiet, Refusal> {
        crew_on(self.rt, self.alloc, &self.crewing, &mut self.kept)?;
        match &mut self.kept {
            Kept::Whole(solo) => solo.settle(),
            Kept::Lost(lost) => Err(lost.why),
        }
    }

    fn count(&mut self) -> Result<u64, Refusal> {
        crew_on(self.rt, self.alloc, &self.crewing, &mut self.kept)?;
        match &mut self.kept {
            Kept::Whole(solo) => solo.count(),
            Kept::Lost(lost) => Err(lost.why),
        }
    }

    fn numbers(&self) -> Numbers {
        match &self.kept {
            Kept::Whole(solo) => solo.numbers(),
            Kept::Lost(lost) => lost.numbers,
        }
    }
}

impl<'a, R: Threads + Wait + Sync> Limited for Team<'a, R> {
    fn set_turns(&mut self, turns: u64) {
        self.crewing.turns = turns;
        if let Kept::Whole(solo) = &mut self.kept {
            solo.set_turns(turns);
        }
    }
}

// If the team has a book with pending tasks, lets the crew work on it. If a task is still pending after that, fails as the
// crew did, unless `stopped_by` finds that the book can be settled alone. Fails with `Unsettled` if the book doesn't come
// back.
fn crew_on<R: Threads + Wait + Sync>(
    rt: &R,
    alloc: Global,
    crewing: &Crewing,
    kept: &mut Kept,
) -> Result<(), Refusal>
    ensures ok { OnOk result (state_of kept.new ≡ state_of kept.old) }
    ensures err { IfErr result (λ e. IsNotAnswered (λ f. is_unsettled f ≡ true) (state_of kept.old) e (state_of kept.new)) }
{
    let lost = match &*kept {
        Kept::Whole(solo) => {
            if !solo.is_pending() {
                return Ok(());
            }
            lost_book_of(solo)
        }
        Kept::Lost(_) => return Ok(()),
    };
    // Until the book comes back, it counts as lost.
    let Kept::Whole(solo) = mem::replace(kept, Kept::Lost(lost)) else {
        unreachable!()
    };
    let (back, end) = work_with(rt, alloc, crewing, solo);
    *kept = back;
    end
}

// Lets the crew work on the book. Requires that no question was answered since the book's last change. Returns the book, or
// what is left of it, and what `crew_on` returns.
fn work_with<R: Threads + Wait + Sync>(
    rt: &R,
    alloc: Global,
    crewing: &Crewing,
    solo: Solo,
) -> (Kept, Result<(), Refusal>)
    requires unsettled { solo.settled ≡ false }
    requires alive { solo.failed ≡ None }
    ensures ok { OnOk result.1 (state_of result.0 ≡ solo) }
    ensures err { IfErr result.1 (λ e. IsNotAnswered (λ f. is_unsettled f ≡ true) solo e (state_of result.0)) }
{
    let was = Snapshot::of(&solo);
    let numbers = solo.numbers();
    match work_on(rt, alloc, crewing, solo.into_book()) {
        Ok(worked) => {
            let solo = Solo::of_book(alloc, crewing.turns, worked.book);
            let end = if solo.is_pending() {
                stopped_by(worked.end)
            } else {
                Ok(())
            };
            (Kept::Whole(solo), end)
        }
        Err(why) => (Kept::Lost(LostBook { was, numbers, why }), Err(why)),
    }
}

// What is left of the book while a desk has it.
fn lost_book_of(solo: &Solo) -> LostBook
    ensures { result.was.value ≡ solo.now }
{
    LostBook {
        was: Snapshot::of(solo),
        numbers: solo.numbers(),
        why: Refusal::Unsettled { seen: 0, found: 0 },
    }
}

// How the crew ended, if a question may be refused for that reason whatever the design is. After any other end, for example
// with `CatalogueFull`, returns `Ok`: the book is then settled alone.
fn stopped_by(end: Result<(), Refusal>) -> Result<(), Refusal>
    ensures why { IfErr result (λ e. (s : State) → s.settled ≡ false → IsUnanswered s e ⊎ (is_unsettled e ≡ true)) }
    ensures stops { IfErr end (λ e. stops e ≡ true → result ≡ end) }
{
    match end {
        Err(Refusal::Unfinished | Refusal::Memory | Refusal::Spent | Refusal::Unsettled { .. }) =>
            end,
        _ => Ok(()),
    }
}
