//! An engine that reports how far a long search is.
//!
//! It lets another engine search in parts. Between two parts that engine is whole, and a part goes on where the last one
//! stopped, so all parts together find what one search would.
ghost use Rattle.std.specs.Prelude.{◌≡◌, ◌≤◌};
ghost use Rattle.poly_crew.specs.declared.crewing.TheConstants.{MOST_TURNS};

use crate::engine::{Engine, Limited};
use crate::pacing::Pace;
use poly_book::{Numbers, Quiet};
use poly_design::{Design, Edit};
use poly_grid::Refusal;
use std::io::Write;
use std::time::Clock;

/// An engine that answers as another one does. While that one searches, it reports about once a second how far the search is;
/// if the search took longer than a second, it reports how long. It goes on if a report can't be written or the clock fails.
#[derive(Drop)]
pub struct Watched<'a, E, C, T> {
    /// Answers.
    engine: E,
    /// The most turns that a question may take; with workers, the most for each of them.
    turns: u64,
    /// Tells the time.
    clock: &'a C,
    /// Takes the reports.
    pub errors: T,
    ghost few: { turns ≤ MOST_TURNS },
}

impl<'a, E: Limited, C: Clock, T: Write> Watched<'a, E, C, T> {
    /// Returns an engine that answers as `engine` does if each question may take at most `turns` turns, at most
    /// 1,000,000,000. It reports to `errors`.
    pub fn new(engine: E, turns: u64, clock: &'a C, errors: T) -> Watched<'a, E, C, T>
        requires few { turns ≤ MOST_TURNS }
        ensures { result.engine ≡ engine }
    {
        Watched {
            engine,
            turns,
            clock,
            errors,
        }
    }
}

impl<'a, E: Limited, C: Clock, T: Write> Engine for Watched<'a, E, C, T> {
    ghost state = { λ w. E.state w.engine };

    ghost ready = { λ w. E.ready w.engine };

    ghost failures = { E.failures };

    fn begin(&mut self, design: Design) -> Result<(), Refusal> {
        self.engine.begin(design)
    }

    fn edit(&mut self, edit: Edit) -> Result<u64, Refusal> {
        self.engine.edit(edit)
    }

    fn undo(&mut self) -> Result<u64, Refusal> {
        self.engine.undo()
    }

    fn redo(&mut self) -> Result<u64, Refusal> {
        self.engine.redo()
    }

    fn settle(&mut self) -> Result<Quiet, Refusal> {
        let mut pace = Pace::begin(self.clock, self.turns);
        loop {
            self.engine.set_turns(pace.next_part());
            match self.engine.settle() {
                Err(Refusal::Unfinished) if pace.goes_on() => {
                    pace.end_part(self.engine.numbers(), &mut self.errors);
                }
                settled => {
                    pace.end(&mut self.errors);
                    return settled;
                }
            }
        }
    }

    fn count(&mut self) -> Result<u64, Refusal> {
        let mut pace = Pace::begin(self.clock, self.turns);
        loop {
            self.engine.set_turns(pace.next_part());
            match self.engine.count() {
                Err(Refusal::Unfinished) if pace.goes_on() => {
                    pace.end_part(self.engine.numbers(), &mut self.errors);
                }
                counted => {
                    pace.end(&mut self.errors);
                    return counted;
                }
            }
        }
    }

    fn numbers(&self) -> Numbers {
        self.engine.numbers()
    }
}
