//! Laws of the definitions, each the contract of a function that does nothing.
ghost use Rattle.std.specs.Prelude.{◌≡◌};
ghost use Rattle.poly_frame.specs.Laws.{StepsComeBack};

use crate::frame::STEPS;

/// A frame has room for 4,096 steps.
pub fn steps_are_4096()
    ensures { STEPS ≡ 4096 }
{}

/// If a step is taken and then undone, the trail, the base, the options of each item and their number are the same as before
/// the step.
pub fn steps_come_back()
    ensures { StepsComeBack }
{}
