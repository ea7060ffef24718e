//! Divides a search into parts, so that it can be reported about once a second.
ghost use Rattle.std.specs.Prelude.{◌≡◌, ◌≤◌, ◌<◌, ◌+◌, true};
ghost use Rattle.poly_crew.specs.declared.crewing.TheConstants.{MOST_TURNS};

use poly_book::Numbers;
use poly_crew::MOST_TURNS;
use std::io::Write;
use std::time::{Clock, Instant};

/// A part that took fewer milliseconds is too short: the next one gets twice as many turns.
const SHORT: u64 = 100;

/// A part that took more milliseconds is too long: the next one gets half as many turns.
const LONG: u64 = 250;

/// The milliseconds between two reports, and before the first one.
const PERIOD: u64 = 1000;

/// The turns of the first part.
const FIRST_PART: u64 = 16;

/// How a search is divided into parts, and when it is reported next.
#[derive(Drop)]
pub(crate) struct Pace<'a, C> {
    /// Tells the time.
    clock: &'a C,
    /// When the search began, or `None` if the clock failed. Then there are no reports.
    begun: Option<Instant>,
    /// The turns of all parts so far.
    used: u64,
    /// The turns that are left for later parts.
    left: u64,
    /// The most turns of the next part.
    size: u64,
    /// When the part began, in milliseconds since the search began.
    part_begun: u64,
    /// When the next report is due, in milliseconds since the search began.
    due: u64,
    ghost some: { 1 ≤ size },
    ghost few: { size ≤ MOST_TURNS },
    ghost all: { used + left ≤ MOST_TURNS },
}

impl<'a, C: Clock> Pace<'a, C> {
    /// Begins a search of at most `turns` turns.
    pub(crate) fn begin(clock: &'a C, turns: u64) -> Pace<'a, C>
        requires few { turns ≤ MOST_TURNS }
        ensures { result.left ≡ turns }
    {
        Pace {
            clock,
            begun: Instant::now(clock).ok(),
            used: 0,
            left: turns,
            size: FIRST_PART,
            part_begun: 0,
            due: PERIOD,
        }
    }

    /// Begins the next part, and returns how many turns it may take. It takes them off those that are left.
    pub(crate) fn next_part(&mut self) -> u64
        ensures few { result ≤ MOST_TURNS }
        ensures less { self.new.left + result ≡ self.old.left }
        ensures some { 0 < self.old.left → 0 < result }
    {
        let turns = self.size.min(self.left);
        self.left -= turns;
        self.used += turns;
        self.part_begun = self.millis();
        turns
    }

    /// Whether turns are left for a further part.
    pub(crate) fn goes_on(&self) -> bool
        ensures { result ≡ true → 0 < self.now.left }
    {
        self.left > 0
    }

    /// Ends a part that used up its turns. Writes how far the search is, if a report is due, and ignores a failure of the
    /// writer.
    pub(crate) fn end_part<T: Write>(&mut self, numbers: Numbers, errors: &mut T)
        ensures { self.new.left ≡ self.old.left }
    {
        let now = self.millis();
        let taken = now.saturating_sub(self.part_begun);
        if taken < SHORT {
            self.size = (self.size * 2).min(MOST_TURNS);
        } else if taken > LONG {
            self.size = (self.size / 2).max(1);
        }
        if now >= self.due {
            self.due = now.saturating_add(PERIOD);
            let _ = writeln!(
                errors,
                "polybench: {}.{} s: {} turns, {} tilings found, {} tasks pending",
                now / 1000,
                now % 1000 / 100,
                self.used,
                numbers.listed,
                numbers.pending
            );
        }
    }

    /// Ends the search. Writes how long it took, if it took longer than a second, and ignores a failure of the writer.
    pub(crate) fn end<T: Write>(&self, errors: &mut T) {
        let now = self.millis();
        if now >= PERIOD {
            let _ = writeln!(
                errors,
                "polybench: took {}.{} s",
                now / 1000,
                now % 1000 / 100
            );
        }
    }

    // The milliseconds since the search began, or 0 if the clock fails.
    fn millis(&self) -> u64 {
        let Some(begun) = self.begun else {
            return 0;
        };
        match begun.elapsed(self.clock) {
            Ok(taken) => taken
                .as_secs()
                .saturating_mul(1000)
                .saturating_add(u64::from(taken.subsec_millis())),
            Err(_) => 0,
        }
    }
}
