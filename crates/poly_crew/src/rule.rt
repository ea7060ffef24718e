//! The rule of a lane, and what each kind of step changes.
//!
//! A lane has six kinds of step: making its view, a push, a pop, a steal, the split of its view for a thief, and the join
//! of a thief's view when the thief's worker has ended. A join leaves a spent view; the rule says only that this view has
//! taken nothing. [`Lane::left`](crate::lane::Lane::left) reads a length and changes no view.

ghost use Rattle.std.specs.Prelude.{◌≡◌, ◌+◌, ◌-◌, ◌++◌, [], true, false};
ghost use Rattle.poly_crew.specs.Hints.{IsNext, SameHints, Splits};
ghost use Rattle.poly_crew.specs.Rule.{IsKept, handle_of};

use crossbeam_deque::protocol::{Join, Lesson, Outcome, Protocol, Split};
use std::collections::LinkedList;

/// What a lane or a thief has done. The program never makes a value of this type.
pub struct HandleView {
    /// Whether this is the view of the lane itself.
    pub is_owner: bool,
    /// How many thieves the lane has out; 0 for a thief.
    pub out: u64,
    /// 1 for a thief; 0 for the lane itself and for a thief that was taken back.
    pub thief: u64,
    /// The hints that the lane has pushed, oldest first; none for a thief.
    pub pushed: LinkedList<u32>,
    /// The hints that this end has taken; for the lane itself, also those of the thieves that were taken back.
    pub taken: LinkedList<u32>,
}

/// The rule of a lane.
pub struct LaneRule;

impl Protocol<u32, HandleView> for LaneRule {
    ghost holds = { λ items views. IsKept items views };

    ghost first = { handle_of true 0 0 [] [] };

    ghost guest = { handle_of false 0 0 [] [] };
}

/// A push: one more hint was pushed.
pub struct Pushing;

impl Outcome<u32, HandleView> for Pushing {
    ghost then = { λ v xs w. w ≡ handle_of v.is_owner v.out v.thief (v.pushed ++ xs) v.taken };
}

/// A pop: the lane has taken one more hint, the oldest one.
pub struct Popping;

impl Outcome<u32, HandleView> for Popping {
    ghost then = { λ v xs w. (w ≡ handle_of v.is_owner v.out v.thief v.pushed (v.taken ++ xs)) × IsNext v.pushed v.taken v.out xs };

    ghost empty = { λ v. v.out ≡ 0 → SameHints v.pushed v.taken };
}

/// A steal: the thief has taken one more hint.
pub struct Stealing;

impl Outcome<u32, HandleView> for Stealing {
    ghost then = { λ v xs w. w ≡ handle_of v.is_owner v.out v.thief v.pushed (v.taken ++ xs) };
}

/// A split: one more thief, which has taken nothing yet.
pub struct Splitting;

impl Split<HandleView> for Splitting {
    ghost left = { λ v. handle_of v.is_owner (v.out + 1) v.thief v.pushed v.taken };

    ghost right = { λ _. handle_of false 0 1 [] [] };
}

/// A join: what the thief has taken is added to what the lane has taken.
pub struct Joining;

impl Join<HandleView> for Joining {
    ghost both = { λ v w. handle_of v.is_owner (v.out - 1) v.thief v.pushed (v.taken ++ w.taken) };

    ghost spent = { handle_of false 0 0 [] [] };
}

/// A look at the length: the hints that are left.
pub struct Counting;

impl Lesson<u32, HandleView> for Counting {
    ghost fact = { λ v items. Splits v.pushed v.taken v.out items };
}
