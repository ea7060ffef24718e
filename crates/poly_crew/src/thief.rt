//! A thief: an end of another worker's lane, from which hints are stolen.

ghost use Rattle.std.specs.Prelude.{◌≡◌, ◌++◌, [], ◌∷◌, MatchOption};
ghost use Rattle.poly_crew.specs.Views.{stolen_of};

use crate::rule::{HandleView, LaneRule, Stealing};
use crossbeam_deque::{Pass, Steal, Stealer};
use std::alloc::Global;
use std::marker::Model;

/// Steals the hints of another worker's lane. Contracts see which lane it is and the hints that this thief has stolen.
#[derive(Drop)]
pub struct Thief {
    /// The thief's end of the lane's deque.
    pub(crate) stealer: Stealer<u32, Global, HandleView, LaneRule>,
    /// The thief's view.
    pub(crate) pass: Pass<u32, HandleView>,
}

impl Model for Thief {
    ghost use Rattle.crossbeam_deque.specs.Handles.{view as known_to, stealer_deque};
    ghost use Rattle.poly_crew.specs.Ends.{IsThief};
    ghost use Rattle.poly_crew.specs.Views.{ThiefView, stolen_of};

    ghost Value = { ThiefView };

    ghost view = { λ t. stolen_of (stealer_deque t.stealer) (known_to t.pass).taken };

    ghost invariant = { λ t. IsThief (stealer_deque t.stealer) t.pass };
}

impl Thief {
    /// Takes the oldest hint out of the lane and returns it. Returns `None` if the lane has no hint, and possibly if another
    /// worker takes one at the same time. Never allocates or waits.
    pub fn steal(&mut self) -> Option<u32>
        ensures lane { self.new.deque ≡ self.old.deque }
        ensures stolen { MatchOption result
            (self.new ≡ self.old)
            (λ x. self.new ≡ stolen_of self.old.deque (self.old.stolen ++ x ∷ [])) }
    {
        let Thief { stealer, pass } = self;
        match stealer.steal_as::<Stealing>(pass) {
            Steal::Success(hint) => Some(hint),
            Steal::Empty | Steal::Retry => None,
        }
    }
}
