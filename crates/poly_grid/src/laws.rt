//! What is true of turns and neighbours at every point, and of the order of cells; and the value of `SIDE`.
//!
//! Each law is the contract of a function that does nothing. The laws of turns and neighbours hold at every
//! point of an endless grid, so no test could try every point. These laws are about the tables that
//! the contracts of `Grid` cite.

ghost use Rattle.std.specs.Prelude.{◌≡◌};
ghost use Rattle.poly_grid.specs.Laws.{FirstTurnStays, TurnsCompose, TurnsAreUndone, TurnsDiffer, RotationsArePowers, ReflectionsFollow, NeighboursAreMutual, TurnsKeepNeighbours, CellsGoByRow};

use crate::cell::SIDE;

/// `SIDE` is 64: a board has at most 64 columns and 64 rows.
pub fn side_is_64()
    ensures { SIDE ≡ 64 }
{}

/// Turn 0 leaves each point where it is.
pub fn first_turn_stays()
    ensures { FirstTurnStays }
{}

/// One turn after another is again a turn, and one rotation after another a rotation.
pub fn turns_compose()
    ensures { TurnsCompose }
{}

/// Each turn is undone by a turn, and each rotation by a rotation.
pub fn turns_are_undone()
    ensures { TurnsAreUndone }
{}

/// No two of the eight turns of the square grid agree on every point, and no two of the twelve of the hexagonal grid.
pub fn turns_differ()
    ensures { TurnsDiffer }
{}

/// The rotations are the powers of turn 1, which is a quarter of a full turn on the square grid, and a sixth on the
/// hexagonal one.
pub fn rotations_are_powers()
    ensures { RotationsArePowers }
{}

/// The reflections are the first reflection followed by each of the rotations, in the order of the rotations.
pub fn reflections_follow()
    ensures { ReflectionsFollow }
{}

/// A point is a neighbour of each of its neighbours.
pub fn neighbours_are_mutual()
    ensures { NeighboursAreMutual }
{}

/// Two points are neighbours exactly if their images under a turn are.
pub fn turns_keep_neighbours()
    ensures { TurnsKeepNeighbours }
{}

/// Cells are ordered by row, then by column, and no two different cells compare as equal.
pub fn cells_go_by_row()
    ensures { CellsGoByRow }
{}
