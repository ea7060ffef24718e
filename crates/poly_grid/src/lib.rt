//! The base of the workbench: grids of squares and of hexagons, and the refusals of all crates.
//!
//! - Cells: [`Cell`] is a cell that a board can have, [`Point`] a point of the endless grid.
//! - Limits: [`SIDE`] is how many columns, and how many rows, a board can have at most.
//! - Geometry: [`Grid`] gives the neighbours of a point and the images of a point under the turns (rotations and
//!   reflections).
//! - Laws: [`laws`] states that the turns form a group, that no two are the same, how the rotations come from turn 1 and
//!   the reflections from the first reflection, that turns preserve neighbours, that a point is a neighbour of its
//!   neighbours, how cells are ordered, and the value of [`SIDE`].
//! - Refusals: [`Refusal`] says why a call of any crate was refused.
#![tactic(auto)]

mod cell;
mod grid;
pub mod laws;
mod refusal;

pub use cell::{Cell, SIDE};
pub use grid::{Grid, Point};
pub use refusal::Refusal;
