//! The limits of a design, stated by the contract of a function that does nothing.
ghost use Rattle.std.specs.Prelude.{◌≡◌};

use crate::design::{MAX_CELLS, MAX_PIECES};
use crate::listing::MAX_PLACEMENTS;

/// A design has at most 256 cells that are not blocked, 64 pieces and 20,000 placements.
pub fn limits_of_designs()
    ensures cells { MAX_CELLS ≡ 256 }
    ensures pieces { MAX_PIECES ≡ 64 }
    ensures placements { MAX_PLACEMENTS ≡ 20000 }
{}
