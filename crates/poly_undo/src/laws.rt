//! The limit of a history, stated by the contract of a function that does nothing.
ghost use Rattle.std.specs.Prelude.{◌≡◌};

use crate::history::MAX_STEPS;

/// `MAX_STEPS` is 256: a history has at most 256 steps.
pub fn most_steps_are_256()
    ensures { MAX_STEPS ≡ 256 }
{}
