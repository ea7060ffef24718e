//! The end of a lane that belongs to its own worker.

ghost use Rattle.std.specs.Prelude.{◌≡◌, ◌+◌, ◌-◌, ◌++◌, [], ◌∷◌, IfErr, IfOk, MatchOption, MatchResult, length};
ghost use Rattle.poly_crew.specs.Hints.{IsNext, SameHints, Splits};
ghost use Rattle.poly_crew.specs.Views.{lane_of, stolen_of};
ghost use Rattle.poly_grid.specs.declared.refusal.Refusal.TheVariants.{Memory};

use crate::rule::{Counting, HandleView, Joining, LaneRule, Popping, Pushing, Splitting};
use crate::thief::Thief;
use crossbeam_deque::Worker;
use poly_grid::Refusal;
use std::alloc::Global;
use std::marker::Model;

/// How many hints a new lane has room for; a push that finds no room makes more.
const FIRST_SLOTS: usize = 64;

/// The deque of a lane, under its rule.
pub(crate) type Deque = Worker<u32, Global, HandleView, LaneRule>;

/// A worker's own hints. Contracts see which lane it is, how many thieves it has out, the hints that were pushed, and the
/// hints that were taken by the lane itself and by the thieves that it took back.
#[derive(Drop)]
pub struct Lane {
    /// The owner's end of the lane's deque, with the lane's view.
    worker: Deque,
}

impl Model for Lane {
    ghost use Rattle.crossbeam_deque.specs.Handles.{worker_deque, worker_view};
    ghost use Rattle.poly_crew.specs.Ends.{IsOwner};
    ghost use Rattle.poly_crew.specs.Views.{LaneView, lane_of};

    ghost Value = { LaneView };

    ghost view = { λ l. lane_of (worker_deque l.worker) (worker_view l.worker).out (worker_view l.worker).pushed (worker_view l.worker).taken };

    ghost invariant = { λ l. IsOwner l.worker };
}

impl Lane {
    /// Returns a lane without hints. Fails with `Memory` only.
    pub fn new(alloc: Global) -> Result<Lane, Refusal>
        ensures ok { IfOk result (λ l. (l.thieves ≡ 0) × (l.pushed ≡ []) × (l.taken ≡ [])) }
        ensures why { IfErr result (λ e. e ≡ Refusal.Memory) }
    {
        let worker = Deque::fifo_as(alloc, FIRST_SLOTS)?;
        Ok(Lane { worker })
    }

    /// Adds a hint. Fails with `Memory` only, and then adds nothing.
    pub fn push(&mut self, hint: u32) -> Result<(), Refusal>
        ensures lane { self.new.deque ≡ self.old.deque }
        ensures pushed { MatchResult result
            (λ _. self.new ≡ lane_of self.old.deque self.old.thieves (self.old.pushed ++ hint ∷ []) self.old.taken)
            (λ e. (e ≡ Refusal.Memory) × (self.new ≡ self.old)) }
    {
        match self.worker.push_as::<Pushing>(hint) {
            Ok(()) => Ok(()),
            Err(_hint) => Err(Refusal::Memory),
        }
    }

    /// Takes the oldest hint out and returns it. While no thief is out, the call returns `None` only if each hint that was
    /// pushed has been taken. Never allocates or waits.
    pub fn pop(&mut self) -> Option<u32>
        ensures lane { self.new.deque ≡ self.old.deque }
        ensures taken { MatchOption result
            (self.new ≡ self.old)
            (λ x. self.new ≡ lane_of self.old.deque self.old.thieves self.old.pushed (self.old.taken ++ x ∷ [])) }
        ensures oldest { MatchOption result
            (self.old.thieves ≡ 0 → SameHints self.old.pushed self.old.taken)
            (λ x. IsNext self.old.pushed self.old.taken self.old.thieves (x ∷ [])) }
    {
        self.worker.pop_as::<Popping>()
    }

    /// Returns a thief of this lane, for another worker. Fails with `Memory` only, and then the lane is as it was.
    pub fn thief(&mut self) -> Result<Thief, Refusal>
        ensures lane { self.new.deque ≡ self.old.deque }
        ensures thief { MatchResult result
            (λ t. (t ≡ stolen_of self.old.deque []) × (self.new ≡ lane_of self.old.deque (self.old.thieves + 1) self.old.pushed self.old.taken))
            (λ e. (e ≡ Refusal.Memory) × (self.new ≡ self.old)) }
    {
        match self.worker.stealer() {
            Ok(stealer) => {
                let pass = self.worker.another::<Splitting>();
                Ok(Thief { stealer, pass })
            }
            Err(_) => Err(Refusal::Memory),
        }
    }

    /// Takes back a thief of this lane, with the hints that the thief stole, once the thief's worker has ended. Never
    /// allocates or waits.
    pub fn take_back(&mut self, thief: Thief)
        requires { thief.deque ≡ self.old.deque }
        ensures { self.new ≡ lane_of self.old.deque (self.old.thieves - 1) self.old.pushed (self.old.taken ++ thief.stolen) }
    {
        let Thief { stealer: _, pass } = thief;
        self.worker.absorb::<Joining>(pass);
    }

    /// Returns how many hints the lane holds at one moment. They are the last of those that were pushed. While no thief is
    /// out, the hints pushed before these are those that were taken, in some order.
    pub fn left(&mut self) -> usize
        ensures same { self.new ≡ self.old }
        ensures left { (left : _) × (length left ≡ result) × Splits self.old.pushed self.old.taken self.old.thieves left }
    {
        self.worker.len_as::<Counting>()
    }
}
