//! What follows from the contracts of a lane and a thief together.

ghost use Rattle.std.specs.Prelude.{◌≡◌, ◌++◌, length};
ghost use Rattle.poly_crew.specs.Hints.{SameHints};

use crate::lane::Lane;
use crate::thief::Thief;

/// Takes back the last thief that a lane has out, and returns how many hints are left. This accounts for each hint. The pushed
/// hints are those that left the lane, followed by those that are left in it. The hints that left are, in some order, those
/// that the lane and its thieves took.
pub fn pushed_is_taken_and_left(lane: &mut Lane, last: Thief) -> usize
    requires lane { last.deque ≡ lane.old.deque }
    requires last { lane.old.thieves ≡ 1 }
    ensures { (gone : _) × (left : _) × (length left ≡ result) × (lane.old.pushed ≡ gone ++ left) × SameHints gone (lane.old.taken ++ last.stolen) }
{
    lane.take_back(last);
    lane.left()
}
